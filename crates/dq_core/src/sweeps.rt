//! Calls that go over all slots: a sweep of the cancelled entries, and a clear of all.
//!
//! A cancelled entry stays linked until its keeper finds it so: a poll does where the entry comes due, a sweep at
//! once.

ghost use Rattle.std.specs.Prelude.{◌≡◌, ℕ, ◌+◌, ◌<◌, ◌≤◌, ◌⊎◌, ◌↔◌, nat_lt, if◌then◌else◌, length, Some, None, OnOk, OnErr, IsErrOf};
ghost use Rattle.dq_core.specs.Deferring.{DefersValues};
ghost use Rattle.dq_core.specs.AtTheCall.{linked_in, OthersStay};
ghost use Rattle.dq_core.specs.Calls.{SameCore, IsMissing};
ghost use Rattle.dq_core.specs.declared.errors.ReapError.TheVariants.{Missing};
ghost use Rattle.dq_core.specs.Core.{machine};
ghost use Rattle.dq_core.specs.Machine.{NoneLinked, table_at};
ghost use Rattle.dq_core.specs.Words.{StillBegun};
ghost use Rattle.dq_core.specs.Sweeps.{
  IsSwept,
  Sweeps,
  IsEmptied,
  Clears,
  NoneCancelled,
  NotCancelled,
  SweepsSome,
  Reaps,
  removed_counts,
};

use crate::errors::ReapError;
use crate::outcomes::Swept;
use crate::queue::DelayCore;
use crate::words::Words;
use dq_ticks::{EntryId, Mark};
use std::alloc::Allocator;

// The slot to go on from, none behind the last.
fn going_on(end: usize, capacity: usize) -> Option<usize>
    ensures { result ≡ (if nat_lt end capacity then Some end else None) }
{
    if end < capacity { Some(end) } else { None }
}

impl<T, W: Words, A: Allocator> DelayCore<T, W, A> {
    // Reaps the entry at a slot where it is found cancelled.
    fn reap_at(&mut self, index: usize) -> bool
        requires { index < length self.old.slots.rows }
        ensures same { SameCore self.old self.new }
        ensures origin { W.origin self.new.words ≡ W.origin self.old.words }
        ensures begun { StillBegun W.begun self.old.words self.new.words }
        ensures one_step { W.steps self.new.words ≤ W.steps self.old.words + 1 }
        ensures swept { IsSwept W.shared self.old index result self.new }
        ensures deferred { DefersValues self.old None self.new }
    {
        if !self.slots.is_held(index) {
            return false;
        }
        let word = self.words.look(index);
        let Mark::CancelledMark = word.mark else {
            return false;
        };
        self.wheel.unlink(index);
        self.slots.defer(index);
        true
    }

    /// Reaps each linked entry that is found cancelled, and returns how many. Their slots are free for others, or worn.
    /// No value is dropped: each waits until it is taken out. It looks at every slot.
    pub fn sweep_deferring(&mut self) -> usize
        // No entry is left that is known as cancelled, and so many are fewer.
        ensures reaped { NoneCancelled (machine self.new) }
        ensures fewer { linked_in self.new + result ≡ linked_in self.old }

        // Nothing is ended by it, and no tick goes on.
        ensures counts { self.new.counts ≡ self.old.counts }
        ensures noted { self.new.noted ≡ self.old.noted }
        ensures tick { self.new.wheel.filing.tick ≡ self.old.wheel.filing.tick }

        // The value of each entry that left is deferred.
        ensures deferred { DefersValues self.old None self.new }

        // Exactly: a run of the queue machine, and what it leaves of the wheel, the slots and the words.
        ensures sweeps { Sweeps W.shared self.old result self.new }
        ensures same { SameCore self.old self.new }
        ensures origin { W.origin self.new.words ≡ W.origin self.old.words }
        ensures begun { StillBegun W.begun self.old.words self.new.words }
    {
        let mut reaped = 0;
        for index in 0..self.slots.capacity() {
            if self.reap_at(index) {
                reaped += 1;
            }
        }
        reaped
    }

    /// Reaps each linked entry that is found cancelled at `count` slots from `from` on, and tells the slot to go on
    /// from. No value is dropped: each waits until it is taken out.
    pub fn sweep_some_deferring(&mut self, from: usize, count: usize) -> Swept
        // No entry is left there that is known as cancelled, so many are fewer, and no other slot changes.
        ensures reaped { (i : ℕ) → from ≤ i → i < from + count → NotCancelled (machine self.new) i }
        ensures fewer { linked_in self.new + result.reaped ≡ linked_in self.old }
        ensures others { (i : ℕ) → (i < from) ⊎ (from + count ≤ i) →
            table_at (machine self.new) i ≡ table_at (machine self.old) i }

        // It is told where to go on, and none where no slot is left.
        ensures next { result.next ≡ (if nat_lt (from + count) (length self.old.slots.rows)
            then Some (from + count) else None) }

        // It makes at most so many steps over the words.
        ensures few_steps { W.steps self.new.words ≤ W.steps self.old.words + count }

        // Nothing is ended by it, and no tick goes on.
        ensures counts { self.new.counts ≡ self.old.counts }
        ensures noted { self.new.noted ≡ self.old.noted }
        ensures tick { self.new.wheel.filing.tick ≡ self.old.wheel.filing.tick }

        // The value of each entry that left is deferred.
        ensures deferred { DefersValues self.old None self.new }

        // Exactly: a run of the queue machine, and what it leaves of the wheel, the slots and the words.
        ensures sweeps { SweepsSome W.shared self.old from (from + count) result.reaped self.new }
        ensures same { SameCore self.old self.new }
        ensures origin { W.origin self.new.words ≡ W.origin self.old.words }
        ensures begun { StillBegun W.begun self.old.words self.new.words }
    {
        let capacity = self.slots.capacity();
        let first = from.min(capacity);
        let end = first + count.min(capacity - first);
        let mut reaped = 0;
        for index in first..end {
            if self.reap_at(index) {
                reaped += 1;
            }
        }
        Swept {
            reaped,
            next: going_on(end, capacity),
        }
    }

    /// Reaps the entry of that name where it is found cancelled. Its value isn't dropped: it waits until it is taken
    /// out. Constant time.
    ///
    /// # Errors
    /// `Missing` where no entry is linked with that shard, index and birth stamp; `Live` where it is found live.
    pub fn reap_deferring(&mut self, entry: &EntryId) -> Result<(), ReapError>
        // It has left, and no other changes.
        ensures reaped { OnOk result (NotCancelled (machine self.new) entry.now.index) }
        ensures fewer { OnOk result (linked_in self.new + 1 ≡ linked_in self.old) }
        ensures others { OthersStay self.old self.new entry.now.index }

        // Refused, none has left; a missing entry is told exactly.
        ensures refused { OnErr result (linked_in self.new ≡ linked_in self.old) }
        ensures missing { IsErrOf result Missing ↔ IsMissing self.old entry.now }

        // It makes at most one step over the words.
        ensures one_step { W.steps self.new.words ≤ W.steps self.old.words + 1 }

        // Nothing is ended by it, and no tick goes on.
        ensures counts { self.new.counts ≡ self.old.counts }
        ensures noted { self.new.noted ≡ self.old.noted }

        // The value of each entry that left is deferred.
        ensures deferred { DefersValues self.old None self.new }

        // Exactly: a run of the queue machine, and what it leaves of the wheel, the slots and the words.
        ensures reaps { Reaps W.shared self.old entry.now result self.new }
        ensures same { SameCore self.old self.new }
        ensures origin { W.origin self.new.words ≡ W.origin self.old.words }
        ensures begun { StillBegun W.begun self.old.words self.new.words }
    {
        self.law();
        let Some(index) = self.find(entry) else {
            return Err(ReapError::Missing);
        };
        if self.reap_at(index) {
            Ok(())
        } else {
            Err(ReapError::Live)
        }
    }

    // Ends the entry at a slot: as removed where it is live, and else it is reaped.
    fn clear_at(&mut self, index: usize) -> bool
        requires { index < length self.old.slots.rows }
        ensures same { SameCore self.old self.new }
        ensures origin { W.origin self.new.words ≡ W.origin self.old.words }
        ensures begun { StillBegun W.begun self.old.words self.new.words }
        ensures emptied { IsEmptied W.shared self.old index result self.new }
        ensures deferred { DefersValues self.old None self.new }
    {
        if !self.slots.is_held(index) {
            return false;
        }
        let stamp = self.slots.stamp(index);
        let ended = self.words.finish(index, stamp);
        self.wheel.unlink(index);
        match ended {
            Some(_) => {
                self.removed += 1;
                self.slots.defer(index);
                true
            }
            None => {
                self.slots.defer(index);
                false
            }
        }
    }

    /// Ends every linked entry: each live one as removed, and those that were cancelled are reaped. It returns how many
    /// it ended as removed, and goes over every slot. No value is dropped: each waits until it is taken out.
    pub fn clear_deferring(&mut self) -> usize
        // Nothing is linked any more. So many removals are counted, and no other ending.
        ensures empty { NoneLinked (machine self.new) }
        ensures counts { self.new.counts ≡ removed_counts self.old.counts result }
        ensures at_most { result ≤ linked_in self.old }

        // No tick goes on.
        ensures noted { self.new.noted ≡ self.old.noted }
        ensures tick { self.new.wheel.filing.tick ≡ self.old.wheel.filing.tick }

        // The value of each entry that left is deferred.
        ensures deferred { DefersValues self.old None self.new }

        // Exactly: a run of the queue machine, and what it leaves of the wheel, the slots and the words.
        ensures clears { Clears W.shared self.old result self.new }
        ensures same { SameCore self.old self.new }
        ensures origin { W.origin self.new.words ≡ W.origin self.old.words }
        ensures begun { StillBegun W.begun self.old.words self.new.words }
    {
        let mut removed = 0;
        for index in 0..self.slots.capacity() {
            if self.clear_at(index) {
                removed += 1;
            }
        }
        removed
    }
}
