//! Extends, cancels and looks by `&self`, from any thread, which need no caller.
ghost use Rattle.std.specs.Prelude.{◌≡◌, ◌≤◌, length, IfErr, IfOk, MatchOption};
ghost use Rattle.dq_ticks.specs.declared.TheConstants.{LAST_TICK};
ghost use Rattle.dq_words.specs.declared.keeper.WordsError.TheVariants.{NoMemory};
ghost use Rattle.dq_words.specs.OpenCalls.{HasSlot, ShowsCancel, ShowsExtend, ShowsLook};
ghost use Rattle.dq_words.specs.OpenCalls.{OpenExtendRefused, OpenLookRefused, OpenRefused};

use crate::caller::deadline_at;
use crate::keeper::{Keeper, WordsError};
use crate::seated::{OpenWords, Receipt, cancelled_word, live_word};
use dq_core::{CallError, Look, shown};
use dq_ticks::{Key, LAST_TICK, stamp, unpack};
use std::alloc::Allocator;

impl<A: Allocator> Keeper<A> {
    /// The words of this keeper, on which any thread may step from now on. No caller is issued for it.
    ///
    /// # Errors
    /// `NoMemory` if the words have too many holders.
    pub fn open(&mut self) -> Result<OpenWords<A>, WordsError>
        ensures same_table { IfOk result (λ w. w.table ≡ self.old.table) }
        ensures rows { IfOk result (λ w. w.rows ≡ length self.old.view.seen) }
        ensures refused { IfErr result (λ e. e ≡ NoMemory) }
        ensures unchanged { self.new ≡ self.old }
    {
        Ok(self.seat.open()?)
    }
}

impl<A: Allocator> OpenWords<A> {
    // The slot of a key, where one may have it.
    fn slot(&self, key: &Key) -> Option<usize>
        ensures { MatchOption result
            (¬ HasSlot self.now.rows key.now)
            (λ i. (i ≡ key.now.entry.index) × HasSlot self.now.rows key.now) }
    {
        let index = key.entry().index() as usize;
        if index < self.rows() && key.stamp() > 0 {
            Some(index)
        } else {
            None
        }
    }

    /// Raises the deadline of a live entry to `when`, a tick of one millisecond, and returns the deadline that is
    /// then in force: `when`, or a later one that the entry had. No deadline gets sooner by it. The entry doesn't
    /// come out before the returned deadline, unless the queue resets or removes it.
    ///
    /// It makes one load and at most one atomic step. It takes no lock and no memory.
    ///
    /// # Errors
    /// In this order:
    /// - `TooFar` if `when` is beyond the last tick, 2^42 - 1.
    /// - `Unknown` if no slot has the key.
    /// - `Stale` if the slot has a later stamp: the entry was reset, or the slot has another entry.
    /// - `Ended` if the entry came out, was removed or was cancelled. It tells which.
    #[inline]
    pub fn extend(
        &self,
        key: &Key,
        when: u64,
    ) -> Result<(u64, Receipt), (CallError, Option<Receipt>)>
        // Accepted: the receipt shows it, with the word live at the answer.
        ensures accepted { IfOk result (λ r. (when ≤ r.0) × (r.0 ≤ LAST_TICK)) }
        ensures shows { IfOk result (λ r. ShowsExtend self.now key.now when r.0 r.1) }

        // Refused: exactly by the deadline, by the key, or by the word that the receipt shows.
        ensures refused { IfErr result (λ e. OpenExtendRefused self.now key.now when e.0 e.1) }
    {
        if when > LAST_TICK {
            return Err((CallError::TooFar { limit: LAST_TICK }, None));
        }
        let Some(index) = self.slot(key) else {
            return Err((CallError::Unknown, None));
        };
        let asked = key.stamp();
        let (seen, mut passer) = self.pass(index);
        if stamp(seen) < asked {
            return Err((CallError::Unknown, Some(passer)));
        }
        let found = self.pass_extend(&mut passer, index, live_word(asked, when));
        match deadline_at(found, asked) {
            Ok(before) => Ok((before.max(when), passer)),
            Err(e) => Err((e, Some(passer))),
        }
    }

    /// Cancels a live entry, so that it won't come out, and returns the deadline that it gave up, a tick of one
    /// millisecond. The entry keeps its slot and its value until the queue frees it. No caller's `cancels` counts it.
    ///
    /// It makes one load and at most one atomic step. It takes no lock and no memory.
    ///
    /// # Errors
    /// In this order:
    /// - `Unknown` if no slot has the key.
    /// - `Stale` if the slot has a later stamp: the entry was reset, or the slot has another entry.
    /// - `Ended` if the entry came out, was removed or was cancelled. It tells which.
    pub fn cancel(&self, key: &Key) -> Result<(u64, Receipt), (CallError, Option<Receipt>)>
        // Accepted: the receipt shows it, with the word cancelled.
        ensures accepted { IfOk result (λ r. r.0 ≤ LAST_TICK) }
        ensures shows { IfOk result (λ r. ShowsCancel self.now key.now r.0 r.1) }

        // Refused: exactly by the key, or by the word that the receipt shows.
        ensures refused { IfErr result (λ e. OpenRefused self.now key.now e.0 e.1) }
    {
        let Some(index) = self.slot(key) else {
            return Err((CallError::Unknown, None));
        };
        let asked = key.stamp();
        let (seen, mut passer) = self.pass(index);
        if stamp(seen) < asked {
            return Err((CallError::Unknown, Some(passer)));
        }
        let found = self.pass_cancel(&mut passer, index, cancelled_word(asked));
        match deadline_at(found, asked) {
            Ok(given_up) => Ok((given_up, passer)),
            Err(e) => Err((e, Some(passer))),
        }
    }

    /// Returns what the entry of `key` is: live, with its deadline, or how it ended. It makes one load. It takes no
    /// lock and no memory.
    ///
    /// # Errors
    /// In this order:
    /// - `Unknown` if no slot has the key.
    /// - `Stale` if the slot has a later stamp: the entry was reset, or the slot has another entry.
    #[inline]
    pub fn look(&self, key: &Key) -> Result<(Look, Receipt), (CallError, Option<Receipt>)>
        // Shown: the receipt's load saw it.
        ensures shows { IfOk result (λ r. ShowsLook self.now key.now r.0 r.1) }

        // Refused: exactly by the key, or by the word that the receipt shows, and not where it has ended.
        ensures refused { IfErr result (λ e. OpenLookRefused self.now key.now e.0 e.1) }
    {
        let Some(index) = self.slot(key) else {
            return Err((CallError::Unknown, None));
        };
        let asked = key.stamp();
        let (found, passer) = self.pass(index);
        let seen = unpack(found);
        if seen.stamp < asked {
            return Err((CallError::Unknown, Some(passer)));
        }
        if asked < seen.stamp {
            return Err((CallError::Stale { seen: seen.stamp }, Some(passer)));
        }
        Ok((shown(seen.mark, seen.field), passer))
    }
}
