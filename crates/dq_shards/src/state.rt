//! The value behind a shard's lock: a queue over shared words, and the poller that waits for it.
ghost use Rattle.std.specs.Prelude.{◌≡◌, ◌+◌, ◌<◌, ◌≤◌, ◌↔◌, ◌⊎◌, ℕ, max, length, None, IfOk, IfErr, IfSome};
ghost use Rattle.std.specs.Prelude.{OnOk, OnErr, IsErr, IsErrOf, IsErrAnd, vec_capacity};
ghost use Rattle.dq_ticks.specs.declared.TheConstants.{LAST_TICK};
ghost use Rattle.dq_core.specs.declared.errors.CoreError.TheVariants.{TooFar, Missing, WasCancelled};
ghost use Rattle.dq_core.specs.Core.{machine};
ghost use Rattle.dq_core.specs.Machine.{NoneLiveBefore, NoneLinked, table_at};
ghost use Rattle.dq_core.specs.Calls.{base_for, noting, IsMissing, IsLiveEntry, IsCancelledEntry};
ghost use Rattle.dq_core.specs.Pieces.{IfAnswer, steps_left};
ghost use Rattle.dq_core.specs.Sweeps.{NoneCancelled, NotCancelled};
ghost use Rattle.dq_core.specs.Deferring.{answered_at, out_at, with_deferred, DefersValues};
ghost use Rattle.dq_core.specs.AtTheCall.{IfOut, IfRests, linked_in, IsLinkedAs, HoldsValue, OthersStay, KeepsSlots};
ghost use Rattle.dq_words.specs.AtTheCall.{KnowsNothing, NoCallerAfter};
ghost use Rattle.dq_shards.specs.Shard.{IsShard, KeepsOrWakes, keeper_of};
ghost use Rattle.dq_shards.specs.Changes.{ShardIssues, ShardTells, OnlyKeeperGoesOn};
ghost use Rattle.dq_shards.specs.Changes.{ShardInserts, ShardResets, ShardRemoves, ShardDeadline};
ghost use Rattle.dq_shards.specs.Changes.{ShardPolls, ShardPollsSome, IfWorking};
ghost use Rattle.dq_shards.specs.Changes.{ShardSweeps, ShardSweepsSome, ShardReaps, ShardClears, going_on};
ghost use Rattle.dq_shards.specs.Many.{ShardPollsMany};

use crate::parking::{WatchedCore, keep_or_leave};
use dq_core::{CoreError, DelayCore, Expired, Piece, ReapError, Removed, Swept, Turn};
use dq_ticks::{EntryId, Key};
use dq_words::{Caller, Keeper, ManyTurn, WordsError};
use std::alloc::{Allocator, Global};
use std::marker::Model;

/// The state of a shard behind its lock: a queue over words that handles share, and the task that is parked there. A
/// program gets it by [`SharedDelayQueue::enter`](crate::shards::SharedDelayQueue::enter) and
/// [`SharedDelayQueue::lend`](crate::shards::SharedDelayQueue::lend).
///
/// A task is parked until a tick that isn't after the shard's next wake. A call that makes the next wake come sooner,
/// or after which nothing is left to wait for, takes the task out and wakes it at once, under the lock. A call of the
/// queue by name wakes it after the lock is released.
///
/// An entry is *live* until it comes out, is removed or is cancelled. A cancelled entry stays *linked*, in its slot,
/// until a call *reaps* it: its slot is free for another entry then, and its value is dropped.
#[derive(Drop)]
pub struct ShardState<T, A: Allocator = Global> {
    // What works under the lock has no line with the lock itself, which others look at while they wait for it.
    _apart: [u64; 7],
    // Shards stand in one row. Each is, behind its lock, a whole number of cache lines, and no line has what two of
    // them write. A test tells: where a field is added, some room has to be.
    pub(crate) watched: WatchedCore<T, u64, A>,
    _room: [u64; 4],
}

impl<T, A: Allocator> Model for ShardState<T, A> {
    ghost use Rattle.dq_shards.specs.Attending.{MayWait};
    ghost use Rattle.dq_shards.specs.Waits.{lasts_until};
    ghost use Rattle.dq_shards.specs.Shard.{ShardView};

    ghost Value = { ShardView T };

    ghost view = { λ s. record { core = s.watched.core; parked = s.watched.parked } };

    ghost invariant = { λ s. MayWait lasts_until s.watched.core s.watched.parked };
}

impl<T, A: Allocator> From<DelayCore<T, Keeper<A>, A>> for ShardState<T, A> {
    ghost use Rattle.std.specs.Prelude.{◌≡◌, None};

    ghost from_gives = { λ core s. s ≡ record { core = core; parked = None } };

    fn from(core: DelayCore<T, Keeper<A>, A>) -> ShardState<T, A> {
        ShardState {
            _apart: [0; 7],
            watched: WatchedCore::new(core),
            _room: [0; 4],
        }
    }
}

// The one call of a state that may drop a value.
impl<T: Drop, A: Allocator> ShardState<T, A> {
    /// Puts `value` in, to come out at the tick `when` of one millisecond, and returns its key. If `when` is before
    /// the shard's tick, the entry is due at once. If the only slot left has a value that waits for its drop, that
    /// value is dropped first. Constant time, and no memory is taken.
    ///
    /// # Errors
    /// `value` comes back. In this order:
    /// - `TooFar` if `when` is beyond the last tick, 2^42 - 1.
    /// - `Full` if no slot is free.
    #[inline(always)]
    pub fn insert(&mut self, value: T, when: u64) -> Result<Key, (CoreError, T)>
        // The entry is live from now on, and no other entry changes.
        ensures live { IfOk result
            (λ k. IsLinkedAs self.new.core k value (base_for self.old.core when)) }
        ensures others { IfOk result (λ k. OthersStay self.old.core self.new.core k.entry.index) }

        // Refused, the value comes back and the queue stays; first, and exactly, beyond the last tick.
        ensures refused { IfErr result (λ e. (e.1 ≡ value) × (self.new.core ≡ self.old.core)) }
        ensures too_far { IsErrAnd result (λ e. e.0 ≡ TooFar LAST_TICK) ↔ (LAST_TICK < when) }

        // The poller is woken where it waits for a tick after the next wake.
        ensures poller { KeepsOrWakes self.new.core self.old.parked self.new.parked }

        // No value is dropped but one that waited in the slot that the entry takes.
        ensures deferred { IfOk result (λ k. self.new.core.deferred
            ≡ with_deferred self.old.core.deferred k.entry.index None) }

        // All that it does.
        ensures inserts { ShardInserts self.old value when result self.new }
    {
        let answer = self.watched.core.insert(value, when);
        keep_or_leave(&self.watched.core, &mut self.watched.parked).wake();
        answer
    }
}

impl<T, A: Allocator> ShardState<T, A> {
    /// What every shard keeps. The call does nothing, and is for proofs.
    #[tactic(auto, using(crate::proofs::ParkedLaw::told))]
    pub fn law(&self)
        ensures { IsShard self.now }
    {
        self.watched.core.law();
    }

    /// Gives a live entry the deadline `when`, a tick of one millisecond, sooner or later than the one that it has,
    /// and returns its new key. If `when` is before the shard's tick, the entry is due at once. Callers and handles
    /// refuse the old key from then on. Constant time, and no memory is taken.
    ///
    /// # Errors
    /// In this order:
    /// - `TooFar` if `when` is beyond the last tick, 2^42 - 1.
    /// - `Missing` if the entry isn't linked here.
    /// - `WasCancelled` if the entry was cancelled.
    /// - `Worn` if the entry's slot has no stamp left for another key.
    #[inline(always)]
    pub fn reset(&mut self, entry: &EntryId, when: u64) -> Result<Key, CoreError>
        // The same entry is live at its new base, and no other changes.
        ensures live { OnOk result
            (IsLiveEntry (machine self.new.core) entry.now (base_for self.old.core when)) }
        ensures key { IfOk result (λ k. k.entry ≡ entry.now) }
        ensures others { OthersStay self.old.core self.new.core entry.now.index }

        // Refused, no entry leaves or moves; first, and exactly, beyond the last tick.
        ensures refused { OnErr result (KeepsSlots self.old.core self.new.core) }
        ensures too_far { IsErrOf result (TooFar LAST_TICK) ↔ (LAST_TICK < when) }

        // The poller is woken where it waits for a tick after the next wake.
        ensures poller { KeepsOrWakes self.new.core self.old.parked self.new.parked }

        // Nothing is deferred or taken out.
        ensures deferred { self.new.core.deferred ≡ self.old.core.deferred }

        // All that it does.
        ensures resets { ShardResets self.old entry.now when result self.new }
    {
        let answer = self.watched.core.reset(entry, when);
        keep_or_leave(&self.watched.core, &mut self.watched.parked).wake();
        answer
    }

    /// Takes a live entry out, and returns its value with its key and its current deadline, a tick of one
    /// millisecond. Constant time, and no memory is taken.
    ///
    /// # Errors
    /// In this order:
    /// - `Missing` if the entry isn't linked here.
    /// - `WasCancelled` if the entry was cancelled.
    #[inline(always)]
    pub fn remove(&mut self, entry: &EntryId) -> Result<Removed<T>, CoreError>
        // What was held under that shard, index and birth stamp comes out, and nothing else.
        ensures out { IfOk result
            (λ x. (x.key.entry ≡ entry.now) × HoldsValue self.old.core entry.now x.value) }
        ensures gone { OnOk result
            ((table_at (machine self.new.core) entry.now.index).entry ≡ None) }
        ensures others { OthersStay self.old.core self.new.core entry.now.index }

        // Refused, no entry leaves or moves; a missing entry is told exactly.
        ensures refused { OnErr result (KeepsSlots self.old.core self.new.core) }
        ensures missing { IsErrOf result Missing ↔ IsMissing self.old.core entry.now }

        // The poller is woken where it waits for a tick after the next wake.
        ensures poller { KeepsOrWakes self.new.core self.old.parked self.new.parked }

        // Nothing is deferred or taken out.
        ensures deferred { self.new.core.deferred ≡ self.old.core.deferred }

        // All that it does.
        ensures removes { ShardRemoves self.old entry.now result self.new }
    {
        let answer = self.watched.core.remove(entry);
        keep_or_leave(&self.watched.core, &mut self.watched.parked).wake();
        answer
    }

    /// Returns the current deadline of a live entry, a tick of one millisecond, by one look at its word. A parked
    /// task stays parked. Constant time.
    ///
    /// # Errors
    /// In this order:
    /// - `Missing` if the entry isn't linked here.
    /// - `WasCancelled` if the entry was cancelled.
    #[inline]
    pub fn deadline(&mut self, entry: &EntryId) -> Result<u64, CoreError>
        // The entry is live until the deadline that is told, or known as cancelled, or missing.
        ensures live { IfOk result (λ d. IsLiveEntry (machine self.new.core) entry.now d) }
        ensures cancelled { IsErrOf result WasCancelled
            → IsCancelledEntry (machine self.new.core) entry.now }
        ensures missing { IsErrOf result Missing ↔ IsMissing self.old.core entry.now }

        // No entry leaves or moves, and the poller stays.
        ensures kept { KeepsSlots self.old.core self.new.core }
        ensures poller { self.new.parked ≡ self.old.parked }

        // Nothing is deferred or taken out.
        ensures deferred { self.new.core.deferred ≡ self.old.core.deferred }

        // All that it does.
        ensures tells { ShardDeadline self.old entry.now result self.new }
    {
        self.watched.core.deadline(entry)
    }

    /// Notes `tick`, of one millisecond, and takes one entry out that is due at the greatest tick noted. Call it
    /// again while it returns `Out`. It returns:
    /// - `Out` has the entry's key, its deadline and its value. No live entry has an earlier deadline.
    /// - `Waiting` if no live entry is due: there is nothing to do before the tick `next`.
    /// - `Idle` if nothing is linked.
    ///
    /// It takes constant time for each entry that it moves down the wheel, schedules again or reaps; an entry moves
    /// at most five times after it was scheduled. It takes no memory, and drops no value: the values of reaped
    /// entries are deferred.
    ///
    /// # Errors
    /// `TickTooLarge` if `tick` is beyond the last tick. It isn't noted then.
    #[inline(always)]
    pub fn poll(&mut self, tick: u64) -> Result<Turn<T>, CoreError>
        // The greater of the two ticks is noted. A tick is refused exactly beyond the last one.
        ensures noted { OnOk result (self.new.core.noted ≡ max self.old.core.noted tick) }
        ensures refused { IsErr result ↔ (LAST_TICK < tick) }

        // What comes out is due, and no live entry has an earlier deadline.
        ensures out { IfOut result (λ x. (x.deadline ≤ self.new.core.noted)
            × NoneLiveBefore (machine self.new.core) x.deadline) }

        // Else no live entry is due, and the tick to wait for is after the noted one. There is none
        // exactly where nothing is linked.
        ensures none_due { IfRests result
            (λ next. NoneLiveBefore (machine self.new.core) (self.new.core.noted + 1)) }
        ensures waiting { IfRests result
            (λ next. IfSome next (λ tick. self.new.core.noted < tick)) }
        ensures idle { IfRests result
            (λ next. (next ≡ None) ↔ NoneLinked (machine self.new.core)) }

        // The poller is woken where it waits for a tick after the next wake.
        ensures poller { KeepsOrWakes self.new.core self.old.parked self.new.parked }

        // The value of each entry that left is deferred, but of what came out.
        ensures deferred { IfOk result
            (λ turn. DefersValues self.old.core (out_at turn) self.new.core) }

        // All that it does.
        ensures polls { ShardPolls self.old tick result self.new }
    {
        let answer = self.watched.core.poll_deferring(tick);
        keep_or_leave(&self.watched.core, &mut self.watched.parked).wake();
        answer
    }

    /// Notes `tick`, of one millisecond, and does at most `most` steps of a poll. It returns `Working` if more steps
    /// may be left, and else the poll's answer:
    /// - `Out` has the key, the deadline and the value of an entry that is due.
    /// - `Waiting` if no live entry is due: there is nothing to do before the tick `next`.
    /// - `Idle` if nothing is linked.
    ///
    /// Call it again while it returns `Working`. Each such call leaves at least `most` steps fewer than there were
    /// when its tick was noted. A call of no steps that returns `Working` tells nothing. Between two calls the lock
    /// may be released, and every other call may be made.
    ///
    /// A step takes constant time. The call takes no memory, and drops no value: the values of reaped entries are
    /// deferred.
    ///
    /// # Errors
    /// `TickTooLarge` if `tick` is beyond the last tick. It isn't noted then.
    pub fn poll_some(&mut self, tick: u64, most: u32) -> Result<Piece<T>, CoreError>
        // The greater of the two ticks is noted. A tick is refused exactly beyond the last one.
        ensures noted { OnOk result (self.new.core.noted ≡ max self.old.core.noted tick) }
        ensures refused { IsErr result ↔ (LAST_TICK < tick) }

        // An answer is one of poll: what comes out is due, and no live entry has an earlier deadline.
        ensures out { IfAnswer result (λ turn. IfOut turn (λ x. (x.deadline ≤ self.new.core.noted)
            × NoneLiveBefore (machine self.new.core) x.deadline)) }

        // Else no live entry is due, and the tick to wait for is after the noted one. There is none
        // exactly where nothing is linked.
        ensures none_due { IfAnswer result (λ turn. IfRests turn
            (λ next. NoneLiveBefore (machine self.new.core) (self.new.core.noted + 1))) }
        ensures waiting { IfAnswer result (λ turn. IfRests turn
            (λ next. IfSome next (λ tick. self.new.core.noted < tick))) }
        ensures idle { IfAnswer result (λ turn. IfRests turn
            (λ next. (next ≡ None) ↔ NoneLinked (machine self.new.core))) }

        // Where more is to do, so many steps fewer are left than when the tick was noted.
        ensures fewer { IfWorking result
            (steps_left self.new.core + most ≤ steps_left (noting self.old.core tick)) }

        // The poller is woken where it waits for a tick after the next wake.
        ensures poller { KeepsOrWakes self.new.core self.old.parked self.new.parked }

        // The value of each entry that left is deferred, but of what came out.
        ensures deferred { IfOk result
            (λ piece. DefersValues self.old.core (answered_at piece) self.new.core) }

        // All that it does.
        ensures polls { ShardPollsSome self.old tick most result self.new }
    {
        let answer = self.watched.core.poll_some_deferring(tick, most);
        keep_or_leave(&self.watched.core, &mut self.watched.parked).wake();
        answer
    }

    /// Notes `tick`, of one millisecond, and takes entries out that are due, until `row` is full or nothing is due.
    /// They are appended to `row` in the order of their deadlines, as many as its capacity has room for. It returns
    /// `More` if entries may still be due, and else what a poll returns then. Empty `row` and call it again while it
    /// returns `More`. If `row` has no room, nothing comes out and `tick` isn't noted. It costs as much as so many
    /// polls, and takes no memory.
    ///
    /// # Errors
    /// `TickTooLarge` if `tick` is beyond the last tick. Nothing changes then.
    pub fn poll_many(
        &mut self,
        tick: u64,
        row: &mut Vec<Expired<T>, A>,
    ) -> Result<ManyTurn, CoreError>
        // A tick is refused exactly beyond the last one, and then the row stays.
        ensures refused { IsErr result ↔ (LAST_TICK < tick) }
        ensures kept { OnErr result (row.new ≡ row.old) }

        // The row has the room that it had: no memory was taken.
        ensures room { vec_capacity row.new ≡ vec_capacity row.old }

        // The poller is woken where it waits for a tick after the next wake.
        ensures poller { KeepsOrWakes self.new.core self.old.parked self.new.parked }

        // All that it does.
        ensures polls { ShardPollsMany self.old tick (vec_capacity row.old) row.old.items
            row.new.items result self.new }
    {
        let (answer, pending) = self.watched.poll_many(tick, row);
        pending.wake();
        answer
    }

    /// Reaps all cancelled entries, and returns how many these were. Their values are deferred. It looks at every
    /// slot.
    pub fn sweep(&mut self) -> usize
        // No entry is left that is known as cancelled, and so many are fewer. Nothing is ended by it.
        ensures reaped { NoneCancelled (machine self.new.core) }
        ensures fewer { linked_in self.new.core + result ≡ linked_in self.old.core }
        ensures counts { self.new.core.counts ≡ self.old.core.counts }

        // The poller is woken where it waits for a tick after the next wake.
        ensures poller { KeepsOrWakes self.new.core self.old.parked self.new.parked }

        // The value of each entry that left is deferred.
        ensures deferred { DefersValues self.old.core None self.new.core }

        // All that it does.
        ensures sweeps { ShardSweeps self.old result self.new }
    {
        let reaped = self.watched.core.sweep_deferring();
        keep_or_leave(&self.watched.core, &mut self.watched.parked).wake();
        reaped
    }

    /// Reaps the cancelled entries among the `count` slots from the slot `from` on. It returns how many these were,
    /// and the slot to go on from, which is none after the last slot. Their values are deferred. It takes time in
    /// proportion to `count`. Between two calls the lock may be released.
    pub fn sweep_some(&mut self, from: usize, count: usize) -> Swept
        // No entry is left there that is known as cancelled, so many are fewer, and no other slot
        // changes. Nothing is ended by it.
        ensures reaped { (i : ℕ) → from ≤ i → i < from + count
            → NotCancelled (machine self.new.core) i }
        ensures fewer { linked_in self.new.core + result.reaped ≡ linked_in self.old.core }
        ensures others { (i : ℕ) → (i < from) ⊎ (from + count ≤ i)
            → table_at (machine self.new.core) i ≡ table_at (machine self.old.core) i }
        ensures counts { self.new.core.counts ≡ self.old.core.counts }

        // It is told where to go on, and none where no slot is left.
        ensures next { result.next ≡ going_on (from + count) (length self.old.core.slots.rows) }

        // The poller is woken where it waits for a tick after the next wake.
        ensures poller { KeepsOrWakes self.new.core self.old.parked self.new.parked }

        // The value of each entry that left is deferred.
        ensures deferred { DefersValues self.old.core None self.new.core }

        // All that it does.
        ensures sweeps { ShardSweepsSome self.old from count result self.new }
    {
        let swept = self.watched.core.sweep_some_deferring(from, count);
        keep_or_leave(&self.watched.core, &mut self.watched.parked).wake();
        swept
    }

    /// Reaps `entry` if it was cancelled: its slot is free for another entry, or worn, and its value is deferred.
    /// Constant time.
    ///
    /// # Errors
    /// In this order:
    /// - `Missing` if the entry isn't linked here.
    /// - `Live` if the entry wasn't cancelled. It stays.
    pub fn reap(&mut self, entry: &EntryId) -> Result<(), ReapError>
        // It has left, and no other changes. Nothing is ended by it.
        ensures reaped { OnOk result (NotCancelled (machine self.new.core) entry.now.index) }
        ensures fewer { OnOk result (linked_in self.new.core + 1 ≡ linked_in self.old.core) }
        ensures others { OthersStay self.old.core self.new.core entry.now.index }
        ensures counts { self.new.core.counts ≡ self.old.core.counts }

        // Refused, none has left; a missing entry is told exactly.
        ensures refused { OnErr result (linked_in self.new.core ≡ linked_in self.old.core) }
        ensures missing { IsErrOf result ReapError.Missing ↔ IsMissing self.old.core entry.now }

        // The poller is woken where it waits for a tick after the next wake.
        ensures poller { KeepsOrWakes self.new.core self.old.parked self.new.parked }

        // The value of each entry that left is deferred.
        ensures deferred { DefersValues self.old.core None self.new.core }

        // All that it does.
        ensures reaps { ShardReaps self.old entry.now result self.new }
    {
        let answer = self.watched.core.reap_deferring(entry);
        keep_or_leave(&self.watched.core, &mut self.watched.parked).wake();
        answer
    }

    /// Takes all entries out, and returns how many live ones were removed. Their values, and those of cancelled
    /// entries, are deferred. A parked task is woken. It looks at every slot.
    #[tactic(auto, using(crate::proofs::ParkedLaw::none_waits))]
    pub fn clear(&mut self) -> usize
        // Nothing is linked any more, and so no poller is parked.
        ensures empty { NoneLinked (machine self.new.core) }
        ensures at_most { result ≤ linked_in self.old.core }
        ensures poller { self.new.parked ≡ None }

        // The value of each entry that left is deferred.
        ensures deferred { DefersValues self.old.core None self.new.core }

        // All that it does.
        ensures clears { ShardClears self.old result self.new }
    {
        let removed = self.watched.core.clear_deferring();
        keep_or_leave(&self.watched.core, &mut self.watched.parked).wake();
        removed
    }

    /// Makes one caller more of this shard's words, which may go to any thread. It takes memory for the caller.
    ///
    /// # Errors
    /// In this order:
    /// - `TooManyHandles` if 1,024 callers were made, given back or not.
    /// - `NoMemory` if memory is refused.
    #[tactic(auto, using(crate::proofs::ParkedLaw::parked_over))]
    pub fn issue(&mut self) -> Result<Caller<A>, WordsError>
        // One more, which sits at the table of this shard's keeper and knows nothing yet.
        ensures counted { OnOk result
            ((keeper_of self.new).issued ≡ (keeper_of self.old).issued + 1) }
        ensures same_table { IfOk result (λ c. c.table ≡ self.old.core.words.table) }
        ensures newcomer { IfOk result (λ c. KnowsNothing c) }

        // Refused exactly past the limit, but where memory is refused. The queue and the poller stay.
        ensures refused { IfErr result (λ e. NoCallerAfter (keeper_of self.old).issued e) }
        ensures stays { OnlyKeeperGoesOn self.old self.new }

        // All that it does.
        ensures issues { ShardIssues self.old result self.new }
    {
        self.watched.core.issue()
    }

    /// Returns the number of callers that were made and not given back, by one load. A caller that was dropped stays
    /// counted.
    #[tactic(auto, using(crate::proofs::ParkedLaw::parked_over))]
    pub fn out(&mut self) -> u64
        ensures at_most { result ≤ (keeper_of self.new).issued }
        ensures stays { OnlyKeeperGoesOn self.old self.new }

        // All that it does.
        ensures tells { ShardTells self.old result self.new }
    {
        self.watched.core.out()
    }
}
