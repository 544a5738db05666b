//! A seat that extends and cancels, from any thread.
ghost use Rattle.std.specs.Prelude.{◌≡◌, ◌+◌, ◌<◌, ◌≤◌, [], length, false, IfErr, IfOk};
ghost use Rattle.std.specs.Prelude.{MatchOption, MatchResult};
ghost use Rattle.dq_ticks.specs.Word.{stamp_of, mark_of, field_of};
ghost use Rattle.dq_words.specs.AtTheCall.{cancels_of, AgreesWithCalls, ExtendRefusedByWord, IsGivenBack};
ghost use Rattle.dq_words.specs.AtTheCall.{KeepsPromises, LookRefusedByWord, RefusedByWord};
ghost use Rattle.dq_words.specs.AtTheCall.{SeesCancelled, SeesEntry, SeesLive, StepsAtMost};
ghost use Rattle.dq_words.specs.CallerCalls.{IsCaller, IsForged, Refuses, CallerExtends};
ghost use Rattle.dq_words.specs.CallerCalls.{CallerCancels, CallerLooks};
ghost use Rattle.dq_words.specs.Counts.{most_begins};
ghost use Rattle.dq_words.specs.Keeping.{Knew};

use crate::seated::{Gone, Seated, cancelled_word, live_word};
use dq_core::{CallError, Look, shown};
use dq_ticks::{Key, LAST_TICK, Mark, stamp, unpack};
use std::alloc::{Allocator, Global};
use std::marker::Model;

/// Extends and cancels entries, and looks at them, without a lock.
///
/// ```
/// use hontkhale::owner::{shared_queue, Look, Turn};
/// use std::thread;
///
/// let mut queue = shared_queue(1_000)?;
/// let mut caller = queue.issue().unwrap();
/// let key = queue.insert_or_drop("lease", 100)?;
/// let worker = thread::spawn(move || {
///     assert_eq!(caller.extend(&key, 250), Ok(250));
///     assert_eq!(caller.look(&key), Ok(Look::StillLive(250)));
///     caller.give_back();
/// });
/// worker.join().unwrap();
/// assert!(matches!(queue.poll(249)?, Turn::Waiting { .. }));
/// assert!(matches!(queue.poll(250)?, Turn::Out(expired) if expired.value == "lease"));
/// # Ok::<(), hontkhale::owner::CoreError>(())
/// ```
///
/// Each call makes one load and at most one atomic step, waits for nobody and takes no memory. A caller that is
/// dropped counts as out for good. It may outlive its queue: the entries that were live when the queue was dropped
/// are then refused as `Ended`, and a look shows them as removed.
#[derive(Drop)]
pub struct Caller<A: Allocator = Global> {
    pub(crate) seat: Seated<A>,
    cancels: u64,
}

impl<A: Allocator> Model for Caller<A> {
    ghost use Rattle.std.specs.Prelude.{◌≡◌, ◌≤◌, false};
    ghost use Rattle.dq_words.specs.Counts.{most_begins, cancels_in};
    ghost use Rattle.dq_words.specs.Seats.{Sat};

    ghost Value = { Sat };

    ghost view = { λ k. k.seat };

    ghost invariant = { λ k. (k.seat.view.keeps ≡ false) × (k.seat.view.gone ≡ false)
        × (k.cancels ≡ cancels_in k.seat.view.calls) × (k.cancels ≤ most_begins)
        × (k.seat.view.passes ≡ false) };
}

// The deadline of the word that a step of a stamp found live at that stamp, or why the word refuses the stamp.
pub(crate) fn deadline_at(found: u64, asked: u32) -> Result<u64, CallError>
    requires { asked ≤ stamp_of found }
    ensures { MatchResult result
        (λ d. (stamp_of found ≡ asked) × (mark_of found ≡ 0) × (d ≡ field_of found))
        (λ e. Refuses found asked e) }
{
    let parts = unpack(found);
    if asked < parts.stamp {
        return Err(CallError::Stale { seen: parts.stamp });
    }
    match parts.mark {
        Mark::LiveMark => Ok(parts.field),
        _ => Err(CallError::Ended {
            how: shown(parts.mark, parts.field),
        }),
    }
}

impl<A: Allocator> Caller<A> {
    pub(crate) fn of(seat: Seated<A>) -> Caller<A>
        requires { (seat.view.keeps ≡ false) × (seat.view.gone ≡ false) × (seat.view.calls ≡ [])
            × (seat.view.passes ≡ false) }
        ensures { result ≡ seat }
    {
        Caller { seat, cancels: 0 }
    }

    /// What is known of every caller: it is out, and its accepted cancels are few; and between some two steps the
    /// rule of the words held with what it knows.
    pub fn law(&self)
        ensures caller { IsCaller self.now.view }
        ensures knew { Knew self.now.view }
    {
        self.seat.law();
        let _ = &self.cancels;
    }

    // The slot of a key, where one may have it.
    fn slot(&self, key: &Key) -> Option<usize>
        ensures { MatchOption result
            (IsForged self.now.view key.now)
            (λ i. (i ≡ key.now.entry.index) × (i < length self.now.view.seen)
            × (0 < key.now.stamp)) }
    {
        let index = key.entry().index() as usize;
        if index < self.seat.rows() && key.stamp() > 0 {
            Some(index)
        } else {
            None
        }
    }

    /// Raises the deadline of a live entry to `when`, a tick of one millisecond, and returns the deadline that is
    /// then in force: `when`, or a later one that the entry had. No deadline gets sooner by it. The entry doesn't
    /// come out before the returned deadline, unless the queue resets or removes it.
    ///
    /// It makes one load and at most one atomic step. It takes no lock and no memory.
    ///
    /// # Errors
    /// In this order:
    /// - `TooFar` if `when` is beyond the last tick, 2^42 - 1.
    /// - `Unknown` if no slot has the key.
    /// - `Stale` if the slot has a later stamp: the entry was reset, or the slot has another entry.
    /// - `Ended` if the entry came out, was removed or was cancelled. It tells which.
    pub fn extend(&mut self, key: &Key, when: u64) -> Result<u64, CallError>
        // Accepted: the word that it left is live at the answer, which keeps what was promised before.
        ensures accepted { IfOk result (λ d. (when ≤ d) × SeesLive self.new key.now d) }
        ensures promised { IfOk result (λ d. KeepsPromises self.old key.now d) }

        // Refused: exactly by the deadline or by the word.
        ensures refused { IfErr result (λ e. ExtendRefusedByWord self.new key.now when e) }
        ensures two_steps { StepsAtMost 2 self.old self.new }

        // All that it does.
        ensures extends { CallerExtends self.old.view key.now when result self.new.view }
        ensures table { self.new.table ≡ self.old.table }
    {
        if when > LAST_TICK {
            return Err(CallError::TooFar { limit: LAST_TICK });
        }
        let Some(index) = self.slot(key) else {
            return Err(CallError::Unknown);
        };
        let asked = key.stamp();
        let seen = self.seat.caller_load(index);
        if stamp(seen) < asked {
            return Err(CallError::Unknown);
        }
        let found = self.seat.extend(index, live_word(asked, when));
        let before = deadline_at(found, asked)?;
        Ok(before.max(when))
    }

    /// Cancels a live entry, so that it won't come out, and returns the deadline that it gave up, a tick of one
    /// millisecond. The entry keeps its slot and its value until the queue frees it.
    ///
    /// It makes one load and at most one atomic step. It takes no lock and no memory.
    ///
    /// # Errors
    /// In this order:
    /// - `Unknown` if no slot has the key.
    /// - `Stale` if the slot has a later stamp: the entry was reset, or the slot has another entry.
    /// - `Ended` if the entry came out, was removed or was cancelled. It tells which.
    pub fn cancel(&mut self, key: &Key) -> Result<u64, CallError>
        // Accepted: the word that it left is cancelled, by this call, and the answer keeps what was promised before.
        ensures accepted { IfOk result (λ _. SeesCancelled self.new key.now) }
        ensures promised { IfOk result (λ d. KeepsPromises self.old key.now d) }
        ensures counted { IfOk result (λ _. cancels_of self.new ≡ cancels_of self.old + 1) }

        // Refused: exactly by the word.
        ensures refused { IfErr result (λ e. RefusedByWord self.new key.now e) }
        ensures two_steps { StepsAtMost 2 self.old self.new }

        // All that it does.
        ensures cancels { CallerCancels self.old.view key.now result self.new.view }
        ensures table { self.new.table ≡ self.old.table }
    {
        let Some(index) = self.slot(key) else {
            return Err(CallError::Unknown);
        };
        let asked = key.stamp();
        let seen = self.seat.caller_load(index);
        if stamp(seen) < asked {
            return Err(CallError::Unknown);
        }
        let found = self.seat.cancel(index, cancelled_word(asked));
        let given_up = deadline_at(found, asked)?;
        self.cancels += 1;
        Ok(given_up)
    }

    /// Returns what the entry of `key` is: live, with its deadline, or how it ended. It makes one load. It takes no
    /// lock and no memory.
    ///
    /// # Errors
    /// In this order:
    /// - `Unknown` if no slot has the key.
    /// - `Stale` if the slot has a later stamp: the entry was reset, or the slot has another entry.
    pub fn look(&mut self, key: &Key) -> Result<Look, CallError>
        // Shown: what the loaded word shows, which agrees with the caller's own accepted calls.
        ensures shown { IfOk result (λ how. SeesEntry self.new key.now how) }
        ensures own_calls { IfOk result (λ _. AgreesWithCalls self.new key.now) }

        // Refused: exactly by the word, and not where it has ended.
        ensures refused { IfErr result (λ e. LookRefusedByWord self.new key.now e) }
        ensures one_step { StepsAtMost 1 self.old self.new }

        // All that it does.
        ensures looks { CallerLooks self.old.view key.now result self.new.view }
        ensures table { self.new.table ≡ self.old.table }
    {
        let Some(index) = self.slot(key) else {
            return Err(CallError::Unknown);
        };
        let asked = key.stamp();
        let seen = unpack(self.seat.caller_load(index));
        if seen.stamp < asked {
            return Err(CallError::Unknown);
        }
        if asked < seen.stamp {
            return Err(CallError::Stale { seen: seen.stamp });
        }
        Ok(shown(seen.mark, seen.field))
    }

    /// Returns the number of its cancels that were accepted.
    pub fn cancels(&self) -> u64
        ensures { result ≡ cancels_of self.now }
    {
        self.cancels
    }

    /// Gives the caller back, and returns the number of its cancels that were accepted. It makes one atomic step,
    /// which counts the caller as gone and its cancels with it.
    pub fn give_back(mut self) -> u64
        ensures cancels { result ≡ cancels_of self }
        ensures few { result ≤ most_begins }
    {
        let cancels = self.cancels;
        self.seat.give_back(cancels);
        cancels
    }

    /// Gives the caller back, and returns the number of its cancels that were accepted, with what shows that its step
    /// was made. Whoever has that knows that this caller is counted as gone, and its cancels with it.
    pub fn leave(self) -> (u64, Gone)
        ensures cancels { result.0 ≡ cancels_of self }
        ensures few { result.0 ≤ most_begins }
        ensures gone { IsGivenBack self result.1 }
    {
        let Caller { seat, cancels } = self;
        (cancels, seat.leave(cancels))
    }
}
