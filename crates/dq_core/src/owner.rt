//! The calls by which an owner's queue drops the values that it freed.
//!
//! A drop is a user's code, and may panic. So each of these calls is one that defers all drops, and what is left of it
//! is to drop them: with the queue lawful, as the last thing it does, and where it loses nothing that the call gives.
//! No other impl of a queue says that a value of it may be dropped, so the checker refuses a drop anywhere else.

ghost use Rattle.std.specs.Prelude.{◌≡◌, ℕ, ◌+◌, ◌<◌, ◌≤◌, ◌⊎◌, ◌↔◌, max, nat_lt, if◌then◌else◌, length, IfOk, IfErr, IfSome, Some, None, OnOk, OnErr, IsErr, IsErrAnd, IsErrOf};
ghost use Rattle.std.specs.List.{count_by};
ghost use Rattle.dq_core.specs.Deferring.{answered_at, out_at, waiting_in, with_deferred, DefersValues, MakesRoom};
ghost use Rattle.dq_core.specs.AtTheCall.{IfOut, IfRests, linked_in, IsLinkedAs, OthersStay, with_value_back};
ghost use Rattle.dq_core.specs.Calls.{SameCore, base_for, IsMissing, Inserts, Polls};
ghost use Rattle.dq_core.specs.Core.{machine};
ghost use Rattle.dq_core.specs.Machine.{NoneLinked, NoneLiveBefore, table_at};
ghost use Rattle.dq_core.specs.Pieces.{IfAnswer, PollsSome};
ghost use Rattle.dq_core.specs.Slots.{is_free, is_worn};
ghost use Rattle.dq_core.specs.Sweeps.{Sweeps, Clears, NoneCancelled, NotCancelled, SweepsSome, Reaps, removed_counts};
ghost use Rattle.dq_core.specs.Words.{StillBegun};
ghost use Rattle.dq_core.specs.declared.errors.CoreError.TheVariants.{TooFar};
ghost use Rattle.dq_core.specs.declared.errors.ReapError.TheVariants.{Missing};

use crate::errors::{CoreError, ReapError};
use crate::outcomes::{Piece, Swept, Turn};
use crate::queue::DelayCore;
use crate::words::Words;
use dq_ticks::{EntryId, Key, LAST_TICK};
use std::alloc::Allocator;
use std::mem;

impl<T: Drop, W: Words, A: Allocator> DelayCore<T, W, A> {
    /// Drops the freed values that wait for their drop. If a drop panics, the others wait for the next call that
    /// drops.
    #[inline]
    pub fn drop_deferred(&mut self)
        // None waits any more, and nothing else changes.
        ensures none { waiting_in self.new.deferred ≡ 0 }
        ensures rest { self.new ≡ record self.old { deferred = self.new.deferred } }
    {
        for _turn in 0..self.deferred() {
            drop(self.take_deferred());
        }
    }

    // Drops the value that waits in the slot that the next insert takes, if one does.
    #[inline(always)]
    fn make_room(&mut self)
        ensures room { MakesRoom self.old.slots self.old.deferred self.new.deferred }
        ensures rest { self.new ≡ record self.old { deferred = self.new.deferred } }
        ensures full { count_by (is_free self.old.slots.last_stamp) self.old.slots.rows ≡ 0
            → self.new ≡ self.old }
    {
        if mem::needs_drop::<T>() {
            drop(self.take_displaced());
        }
    }

    /// Puts `value` in, to come out at the tick `when` of one millisecond, and returns its key. If `when` is before
    /// the queue's tick, the entry is due at once. Constant time, and no memory is taken.
    ///
    /// # Errors
    /// `value` comes back, and nothing changes. In this order:
    /// - `TooFar` if `when` is beyond the last tick, 2^42 - 1.
    /// - `Full` if no slot is free. It tells how many entries are linked and how many slots are worn.
    ///
    /// ```
    /// use hontkhale::owner::{CoreError, DelayCore};
    ///
    /// let mut queue = DelayCore::with_capacity(1).unwrap();
    /// queue.insert("value", 100).unwrap();
    /// let (error, value) = queue.insert("other", 100).unwrap_err();
    /// assert_eq!((error, value), (CoreError::Full { linked: 1, worn: 0 }, "other"));
    /// ```
    #[inline(always)]
    pub fn insert(&mut self, value: T, when: u64) -> Result<Key, (CoreError, T)>
        // The entry is live from now on, and no other entry changes.
        ensures live { IfOk result (λ k. IsLinkedAs self.new k value (base_for self.old when)) }
        ensures others { IfOk result (λ k. OthersStay self.old self.new k.entry.index) }
        ensures one_more { OnOk result (linked_in self.new ≡ linked_in self.old + 1) }

        // A slot was free: so Full comes exactly where each is held or worn.
        ensures room { OnOk result (linked_in self.old
            + count_by (is_worn self.old.slots.last_stamp) self.old.slots.rows
            < length self.old.slots.rows) }

        // Refused, the value comes back and nothing changes; first, and exactly, beyond the last tick.
        ensures refused { IfErr result (λ e. (e.1 ≡ value) × (self.new ≡ self.old)) }
        ensures too_far { IsErrAnd result (λ e. e.0 ≡ TooFar LAST_TICK) ↔ (LAST_TICK < when) }

        // No value is dropped but one that waited in the slot that the entry takes.
        ensures deferred { IfOk result
            (λ k. self.new.deferred ≡ with_deferred self.old.deferred k.entry.index None) }

        // Exactly: a step of the queue machine, and what it leaves of the wheel, the slots and the words.
        ensures inserts { Inserts self.old value when result self.new }
        ensures begins { IfOk result
            (λ k. W.begun self.new.words k.entry.index k.stamp (base_for self.old when)) }
        ensures same { SameCore self.old self.new }
        ensures origin { W.origin self.new.words ≡ W.origin self.old.words }
        ensures begun { StillBegun W.begun self.old.words self.new.words }
    {
        if when > LAST_TICK {
            return Err((CoreError::TooFar { limit: LAST_TICK }, value));
        }
        // Another's drop may panic: it runs before there is an entry whose key would be lost.
        self.make_room();
        self.insert_deferring(value, when).0
    }

    /// Puts `value` in, to come out at the tick `when` of one millisecond, and returns its key. If the entry is
    /// refused, `value` is dropped, and the error can be returned with `?`. [`DelayCore::insert`] gives the value
    /// back instead. Constant time, and no memory is taken.
    ///
    /// # Errors
    /// In this order:
    /// - `TooFar` if `when` is beyond the last tick, 2^42 - 1.
    /// - `Full` if no slot is free.
    #[inline]
    pub fn insert_or_drop(&mut self, value: T, when: u64) -> Result<Key, CoreError>
        // An insert. Of the values that wait it drops no other than one in the slot that the entry takes.
        ensures inserts { Inserts self.old value when (with_value_back value result) self.new }
        ensures deferred { IfOk result
            (λ k. self.new.deferred ≡ with_deferred self.old.deferred k.entry.index None) }
        ensures begins { IfOk result
            (λ k. W.begun self.new.words k.entry.index k.stamp (base_for self.old when)) }
        ensures origin { W.origin self.new.words ≡ W.origin self.old.words }
        ensures begun { StillBegun W.begun self.old.words self.new.words }
    {
        match self.insert(value, when) {
            Ok(key) => Ok(key),
            Err((error, _)) => Err(error),
        }
    }

    /// Notes `tick`, of one millisecond, and takes one entry out that is due at the greatest tick noted. Call it
    /// again while it returns `Out`. It returns:
    /// - `Out` has the entry's key, its deadline and its value. No live entry has an earlier deadline.
    /// - `Waiting` if no live entry is due: there is nothing to do before the tick `next`.
    /// - `Idle` if the queue holds no entry.
    ///
    /// It takes constant time for each entry that it moves down the wheel, schedules again or frees; an entry moves
    /// at most five times after it was scheduled. It takes no memory. [`DelayCore::poll_some`] bounds the steps of
    /// one call. The values of the cancelled entries that it frees are dropped by it, or by a later call if it
    /// returns an entry.
    ///
    /// # Errors
    /// `TickTooLarge` if `tick` is beyond the last tick. It isn't noted then.
    ///
    /// ```
    /// use hontkhale::owner::{DelayCore, Turn};
    ///
    /// let mut queue = DelayCore::with_capacity(100)?;
    /// queue.insert_or_drop("late", 20)?;
    /// queue.insert_or_drop("early", 10)?;
    /// let mut out = Vec::new();
    /// while let Turn::Out(expired) = queue.poll(20)? {
    ///     out.push(expired.value);
    /// }
    /// assert_eq!(out, ["early", "late"]);
    /// # Ok::<(), hontkhale::owner::CoreError>(())
    /// ```
    #[inline(always)]
    pub fn poll(&mut self, tick: u64) -> Result<Turn<T>, CoreError>
        // The greater of the two ticks is noted. A tick is refused, and nothing changes, exactly
        // beyond the last one.
        ensures noted { OnOk result (self.new.noted ≡ max self.old.noted tick) }
        ensures refused { IsErr result ↔ (LAST_TICK < tick) }
        ensures kept { OnErr result (self.new ≡ self.old) }

        // What comes out is due, and no live entry has an earlier deadline.
        ensures out { IfOut result
            (λ x. (x.deadline ≤ self.new.noted) × NoneLiveBefore (machine self.new) x.deadline) }

        // Else no live entry is due, and the tick to wait for is after the noted one. There is none
        // exactly where nothing is linked.
        ensures waiting { IfRests result
            (λ next. NoneLiveBefore (machine self.new) (self.new.noted + 1)) }
        ensures ahead { IfRests result (λ next. IfSome next (λ tick. self.new.noted < tick)) }
        ensures idle { IfRests result (λ next. (next ≡ None) ↔ NoneLinked (machine self.new)) }

        // No freed value waits any more, unless an entry comes out.
        ensures none { IfOk result (λ turn. out_at turn ≡ None → waiting_in self.new.deferred ≡ 0) }

        // Beside an entry that comes out no value is dropped: that of each other that left is deferred.
        ensures deferred { IfOut result
            (λ x. DefersValues self.old (Some x.key.entry.index) self.new) }

        // Exactly: a run of the queue machine, and the way of the wheel and of the words.
        ensures polls { Polls W.shared self.old tick result self.new }
        ensures same { SameCore self.old self.new }
        ensures origin { W.origin self.new.words ≡ W.origin self.old.words }
        ensures begun { StillBegun W.begun self.old.words self.new.words }
    {
        let answer = self.poll_deferring(tick)?;
        // A drop that panics would lose the entry: it waits for a later call.
        if let Turn::Out(_) = &answer {
            return Ok(answer);
        }
        self.drop_deferred();
        Ok(answer)
    }

    /// Notes `tick`, of one millisecond, and does at most `most` steps of a poll. It returns `Working` if more steps
    /// may be left, and else the poll's answer:
    /// - `Out` has the key, the deadline and the value of an entry that is due.
    /// - `Waiting` if no live entry is due: there is nothing to do before the tick `next`.
    /// - `Idle` if the queue holds no entry.
    ///
    /// Call it again while it returns `Working`. Each such call leaves at least `most` steps fewer than there were
    /// when its tick was noted. A call of no steps that returns `Working` tells nothing. Between two calls every
    /// other call may be made.
    ///
    /// A step takes constant time. If callers share the words, an entry that is due may take two steps: a look, and
    /// one that ends it. Dropped values aren't counted: they are dropped by this call, or by a later one if it
    /// returns an entry. It takes no memory.
    ///
    /// # Errors
    /// `TickTooLarge` if `tick` is beyond the last tick. It isn't noted then.
    pub fn poll_some(&mut self, tick: u64, most: u32) -> Result<Piece<T>, CoreError>
        // The greater of the two ticks is noted. A tick is refused, and nothing changes, exactly
        // beyond the last one.
        ensures noted { OnOk result (self.new.noted ≡ max self.old.noted tick) }
        ensures refused { IsErr result ↔ (LAST_TICK < tick) }
        ensures kept { OnErr result (self.new ≡ self.old) }

        // An answer is one of poll: what comes out is due, and no live entry has an earlier deadline.
        ensures out { IfAnswer result (λ turn. IfOut turn
            (λ x. (x.deadline ≤ self.new.noted) × NoneLiveBefore (machine self.new) x.deadline)) }

        // Else no live entry is due, and the tick to wait for is after the noted one. There is none
        // exactly where nothing is linked.
        ensures waiting { IfAnswer result (λ turn. IfRests turn
            (λ next. NoneLiveBefore (machine self.new) (self.new.noted + 1))) }
        ensures ahead { IfAnswer result (λ turn. IfRests turn
            (λ next. IfSome next (λ tick. self.new.noted < tick))) }
        ensures idle { IfAnswer result (λ turn. IfRests turn
            (λ next. (next ≡ None) ↔ NoneLinked (machine self.new))) }

        // No freed value waits any more, unless an entry comes out.
        ensures none { IfOk result
            (λ piece. answered_at piece ≡ None → waiting_in self.new.deferred ≡ 0) }

        // It makes at most `most` steps over the words.
        ensures few_steps { W.steps self.new.words ≤ W.steps self.old.words + most }

        ensures same { SameCore self.old self.new }
        ensures origin { W.origin self.new.words ≡ W.origin self.old.words }

        // Exactly: a run of the queue machine to an answer of poll, or so many steps fewer; the wheel
        // makes at most `most` steps.
        ensures polls { PollsSome W.shared self.old tick most result self.new }
        ensures begun { StillBegun W.begun self.old.words self.new.words }
    {
        let answer = self.poll_some_deferring(tick, most)?;
        if let Piece::Answer(Turn::Out(_)) = &answer {
            return Ok(answer);
        }
        self.drop_deferred();
        Ok(answer)
    }

    /// Frees the slots of all cancelled entries, drops their values, and returns how many these were. A slot without
    /// stamps left is worn then. It looks at every slot, and takes no memory.
    pub fn sweep(&mut self) -> usize
        // No entry is left that is known as cancelled, and so many are fewer.
        ensures reaped { NoneCancelled (machine self.new) }
        ensures fewer { linked_in self.new + result ≡ linked_in self.old }

        // Nothing is ended by it, and no tick goes on.
        ensures counts { self.new.counts ≡ self.old.counts }
        ensures noted { self.new.noted ≡ self.old.noted }
        ensures tick { self.new.wheel.filing.tick ≡ self.old.wheel.filing.tick }

        // No freed value waits any more.
        ensures none { waiting_in self.new.deferred ≡ 0 }

        // Exactly: a run of the queue machine, and what it leaves of the wheel, the slots and the words.
        ensures sweeps { Sweeps W.shared self.old result self.new }
        ensures same { SameCore self.old self.new }
        ensures origin { W.origin self.new.words ≡ W.origin self.old.words }
        ensures begun { StillBegun W.begun self.old.words self.new.words }
    {
        let reaped = self.sweep_deferring();
        self.drop_deferred();
        reaped
    }

    /// Frees the slots of the cancelled entries among the `count` slots from the slot `from` on, and drops their
    /// values. It returns how many these were, and the slot to go on from, which is none after the last slot. It
    /// takes time in proportion to `count`, and no memory.
    pub fn sweep_some(&mut self, from: usize, count: usize) -> Swept
        // No entry is left there that is known as cancelled, so many are fewer, and no other slot changes.
        ensures reaped { (i : ℕ) → from ≤ i → i < from + count → NotCancelled (machine self.new) i }
        ensures fewer { linked_in self.new + result.reaped ≡ linked_in self.old }
        ensures others { (i : ℕ) → (i < from) ⊎ (from + count ≤ i) →
            table_at (machine self.new) i ≡ table_at (machine self.old) i }

        // It is told where to go on, and none where no slot is left.
        ensures next { result.next ≡ (if nat_lt (from + count) (length self.old.slots.rows)
            then Some (from + count) else None) }

        // It makes at most so many steps over the words.
        ensures few_steps { W.steps self.new.words ≤ W.steps self.old.words + count }

        // Nothing is ended by it, and no tick goes on.
        ensures counts { self.new.counts ≡ self.old.counts }
        ensures noted { self.new.noted ≡ self.old.noted }
        ensures tick { self.new.wheel.filing.tick ≡ self.old.wheel.filing.tick }

        // No freed value waits any more.
        ensures none { waiting_in self.new.deferred ≡ 0 }

        // Exactly: a run of the queue machine, and what it leaves of the wheel, the slots and the words.
        ensures sweeps { SweepsSome W.shared self.old from (from + count) result.reaped self.new }
        ensures same { SameCore self.old self.new }
        ensures origin { W.origin self.new.words ≡ W.origin self.old.words }
        ensures begun { StillBegun W.begun self.old.words self.new.words }
    {
        let swept = self.sweep_some_deferring(from, count);
        self.drop_deferred();
        swept
    }

    /// Frees the slot of `entry` if the entry was cancelled, and drops its value. A slot without stamps left is worn
    /// then. Constant time, and no memory is taken.
    ///
    /// # Errors
    /// In this order:
    /// - `Missing` if the entry isn't in the queue any more, or never was.
    /// - `Live` if the entry wasn't cancelled. It stays.
    pub fn reap(&mut self, entry: &EntryId) -> Result<(), ReapError>
        // It has left, and no other changes.
        ensures reaped { OnOk result (NotCancelled (machine self.new) entry.now.index) }
        ensures fewer { OnOk result (linked_in self.new + 1 ≡ linked_in self.old) }
        ensures others { OthersStay self.old self.new entry.now.index }

        // Refused, none has left; a missing entry is told exactly.
        ensures refused { OnErr result (linked_in self.new ≡ linked_in self.old) }
        ensures missing { IsErrOf result Missing ↔ IsMissing self.old entry.now }

        // It makes at most one step over the words.
        ensures one_step { W.steps self.new.words ≤ W.steps self.old.words + 1 }

        // Nothing is ended by it, and no tick goes on.
        ensures counts { self.new.counts ≡ self.old.counts }
        ensures noted { self.new.noted ≡ self.old.noted }

        // No freed value waits any more; but refused, none is dropped.
        ensures none { OnOk result (waiting_in self.new.deferred ≡ 0) }
        ensures deferred { OnErr result (DefersValues self.old None self.new) }

        // Exactly: a run of the queue machine, and what it leaves of the wheel, the slots and the words.
        ensures reaps { Reaps W.shared self.old entry.now result self.new }
        ensures same { SameCore self.old self.new }
        ensures origin { W.origin self.new.words ≡ W.origin self.old.words }
        ensures begun { StillBegun W.begun self.old.words self.new.words }
    {
        self.reap_deferring(entry)?;
        self.drop_deferred();
        Ok(())
    }

    /// Takes all entries out, drops their values and those of cancelled entries, and returns how many live ones were
    /// removed. It looks at every slot, and takes no memory.
    pub fn clear(&mut self) -> usize
        // Nothing is linked any more. So many removals are counted, and no other ending.
        ensures empty { NoneLinked (machine self.new) }
        ensures counts { self.new.counts ≡ removed_counts self.old.counts result }
        ensures at_most { result ≤ linked_in self.old }

        // No tick goes on.
        ensures noted { self.new.noted ≡ self.old.noted }
        ensures tick { self.new.wheel.filing.tick ≡ self.old.wheel.filing.tick }

        // No freed value waits any more.
        ensures none { waiting_in self.new.deferred ≡ 0 }

        // Exactly: a run of the queue machine, and what it leaves of the wheel, the slots and the words.
        ensures clears { Clears W.shared self.old result self.new }
        ensures same { SameCore self.old self.new }
        ensures origin { W.origin self.new.words ≡ W.origin self.old.words }
        ensures begun { StillBegun W.begun self.old.words self.new.words }
    {
        let removed = self.clear_deferring();
        self.drop_deferred();
        removed
    }
}
