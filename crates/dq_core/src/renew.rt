//! How a queue goes on for years: over fresh words, under a higher number.
//!
//! A slot has as many stamps as its queue's last one, and holds nothing more once they are used. Where nothing is
//! linked the queue may be renewed: each slot begins anew, and the queue's keys carry a higher number from then on.
//! So each key from before is refused for good.

ghost use Rattle.std.specs.Prelude.{◌≡◌, ◌<◌, ◌≤◌, length, OnOk, IfOk, IfErr};
ghost use Rattle.dq_ticks.specs.declared.TheConstants.{LAST_TICK};
ghost use Rattle.dq_wheel.specs.Moves.{passed};
ghost use Rattle.dq_core.specs.AtTheCall.{linked_in};
ghost use Rattle.dq_core.specs.Words.{AreFresh};

use crate::queue::DelayCore;
use crate::words::Words;
use std::alloc::Allocator;
use std::mem;
use thiserror::Error;

/// Why a queue isn't renewed.
#[derive(Clone, Copy, Debug, PartialEq, Eq, Error)]
pub enum RenewError {
    /// Entries are linked, live or cancelled and not yet reaped.
    #[error("{linked} entries are still linked")]
    StillLinked {
        /// How many.
        linked: usize,
    },
    /// The new number isn't higher than the queue's, so keys may carry it.
    #[error("the queue had the number {number}, and the new one isn't higher")]
    UsedNumber {
        /// The queue's number.
        number: u32,
    },
    /// The words aren't as many as the slots.
    #[error("the words are not one a slot")]
    WrongRows,
}

impl<T, W: Words, A: Allocator> DelayCore<T, W, A> {
    ghost use Rattle.dq_core.specs.Core.{machine};
    ghost use Rattle.dq_core.specs.Machine.{NoneLinked};
    ghost use Rattle.dq_core.specs.Renewals.{fresh_machine, OldAreMissing, RenewsQueue, RenewsQueueAs};

    /// Goes on with fresh `words`, under the number `shard`, and returns the words that it had. No slot is worn then,
    /// and each has all its stamps again. The noted tick stays. Every key from before has a lower number, so the
    /// queue refuses it for good. Callers of the old words stay at those, and reach nothing new. A caller of the new
    /// words reads no number: give it none of the old keys.
    ///
    /// It takes no memory, and goes over every slot once.
    ///
    /// # Errors
    /// The words come back, and nothing changes. In this order:
    /// - `StillLinked` if an entry is in the queue, even a cancelled one.
    /// - `UsedNumber` if `shard` isn't higher than the queue's number.
    /// - `WrongRows` if the words aren't as many as the slots.
    ///
    /// # Panics
    /// If the words were in use before.
    ///
    /// ```
    /// use hontkhale::owner::{CoreConfig, CoreError, DelayCore, VecWords};
    ///
    /// # fn main() -> Result<(), CoreError> {
    /// let config = CoreConfig { shard: 0, capacity: 1, last_stamp: 1 };
    /// let mut queue = DelayCore::new(config, VecWords::new(1)?).map_err(|refused| refused.0)?;
    /// queue.insert_or_drop("value", 10)?;
    /// queue.clear();
    /// assert!(matches!(queue.insert_or_drop("value", 10), Err(CoreError::Full { linked: 0, worn: 1 })));
    ///
    /// if queue.is_empty() && queue.worn() > 0 {
    ///     let words = VecWords::new(queue.capacity())?;
    ///     assert!(queue.renew(queue.shard() + 1, words).is_ok());
    /// }
    /// queue.insert_or_drop("value", 10)?;
    /// # Ok(())
    /// # }
    /// ```
    pub fn renew(&mut self, shard: u32, words: W) -> Result<W, (RenewError, W)>
        requires { AreFresh (W.known words) (W.counts words) }
        // A queue at the same ticks with nothing in it, none of whose slots was ever used.
        ensures fresh { OnOk result (machine self.new ≡ fresh_machine (machine self.old)) }
        ensures empty { OnOk result (NoneLinked (machine self.new)) }
        ensures counts { OnOk result (AreFresh self.new.known self.new.counts) }

        // It goes on over the new words, and the old ones come back.
        ensures words { OnOk result (self.new.words ≡ words) }
        ensures back { IfOk result (λ old. old ≡ self.old.words) }

        // Its number rises to the new one, so each entry from before is missing for good.
        ensures rises { OnOk result
            ((self.old.shard < self.new.shard) × (self.new.shard ≡ shard)) }
        ensures stale { OnOk result (OldAreMissing self.old self.new) }

        // What is deferred stays so.
        ensures deferred { self.new.deferred ≡ self.old.deferred }

        // Refused, the words come back and nothing changes.
        ensures refused { IfErr result (λ e. (e.1 ≡ words) × (self.new ≡ self.old)) }

        // Exactly: the whole queue after it, or which refusal comes first.
        ensures renews { RenewsQueue self.old shard words (W.known words) (W.counts words) result self.new }
    {
        let linked = self.slots.linked();
        if linked > 0 {
            return Err((RenewError::StillLinked { linked }, words));
        }
        if shard <= self.shard {
            let number = self.shard;
            return Err((RenewError::UsedNumber { number }, words));
        }
        if words.rows() != self.slots.capacity() {
            return Err((RenewError::WrongRows, words));
        }
        self.slots.forget();
        self.shard = shard;
        self.inserted = 0;
        self.expired = 0;
        self.removed = 0;
        Ok(mem::replace(&mut self.words, words))
    }

    // Notes a tick, where nothing is linked, and goes to it. Constant time.
    fn come_to(&mut self, tick: u64)
        requires empty { linked_in self.old ≡ 0 }
        requires later { self.old.noted ≤ tick }
        requires in_range { tick ≤ LAST_TICK }
        ensures none { NoneLinked (machine self.new) }
        ensures way { self.new.wheel.filing ≡ passed self.old.wheel.filing tick }
        ensures rest { self.new ≡ record self.old { noted = tick; wheel = self.new.wheel } }
    {
        self.noted = tick;
        self.wheel.advance(tick);
    }

    /// Goes on as `fresh`, a queue of its own capacity under a higher number, and returns the whole queue that it was,
    /// which holds no entry. The noted tick stays: `fresh` comes to it. Every key from before has a lower number, so
    /// the queue refuses it for good. Callers of the old words stay at those, and reach nothing new.
    ///
    /// It takes no memory and gives none back, in constant time: so a queue behind a lock goes on as one that was made
    /// while the lock was free. Values that wait for their drop go with the old queue.
    ///
    /// # Errors
    /// `fresh` comes back, and nothing changes. In this order:
    /// - `StillLinked` if an entry is in the queue, even a cancelled one.
    /// - `UsedNumber` if the number of `fresh` isn't higher than the queue's.
    pub fn renew_as(
        &mut self,
        mut fresh: DelayCore<T, W, A>,
    ) -> Result<DelayCore<T, W, A>, (RenewError, DelayCore<T, W, A>)>
        requires unused { linked_in fresh ≡ 0 }
        requires earlier { fresh.noted ≤ self.old.noted }
        // A queue of the other's capacity at the same noted tick, with nothing in it.
        ensures empty { OnOk result (NoneLinked (machine self.new)) }
        ensures noted { OnOk result (self.new.noted ≡ self.old.noted) }
        ensures capacity { OnOk result (length self.new.slots.rows ≡ length fresh.slots.rows) }

        // It goes on over the other's words and slots, and what it was comes back.
        ensures rows { OnOk result
            ((self.new.words ≡ fresh.words) × (self.new.slots ≡ fresh.slots)
            × (self.new.deferred ≡ fresh.deferred)) }
        ensures back { IfOk result (λ old. old ≡ self.old) }

        // Its number rises to the other's, so each entry from before is missing for good.
        ensures rises { OnOk result
            ((self.old.shard < self.new.shard) × (self.new.shard ≡ fresh.shard)) }
        ensures stale { OnOk result (OldAreMissing self.old self.new) }

        // Refused, the other comes back and nothing changes.
        ensures refused { IfErr result (λ e. (e.1 ≡ fresh) × (self.new ≡ self.old)) }

        // Exactly: the whole queue after it, or which refusal comes first.
        ensures renews { RenewsQueueAs self.old fresh result self.new }
    {
        let linked = self.slots.linked();
        if linked > 0 {
            return Err((RenewError::StillLinked { linked }, fresh));
        }
        if fresh.shard <= self.shard {
            let number = self.shard;
            return Err((RenewError::UsedNumber { number }, fresh));
        }
        fresh.come_to(self.noted);
        Ok(mem::replace(self, fresh))
    }
}
