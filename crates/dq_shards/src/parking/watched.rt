//! A queue over shared words, and the poller that waits for it: the calls that may take the poller out, and wake
//! nobody.
//!
//! It stands behind a lock, and whoever is woken may call the queue at once. So each call hands over who leaves by it,
//! and that one is woken once the lock is free.
ghost use Rattle.std.specs.Prelude.{◌≡◌, ◌↔◌, ◌+◌, ◌<◌, ◌≤◌, ◌⊎◌, nat_lt, if◌then◌else◌, true, false, Some, None};
ghost use Rattle.std.specs.Prelude.{length, vec_capacity, IfOk, IfErr, IfSome, IfNone, IsErr, OnErr, IsErrOf};
ghost use Rattle.dq_ticks.specs.declared.TheConstants.{LAST_TICK};
ghost use Rattle.dq_core.specs.Deferring.{answered_at, deferred_value_at, out_at, waiting_in, with_deferred};
ghost use Rattle.dq_core.specs.Deferring.{DefersValues, TakesDeferredValue};
ghost use Rattle.dq_core.specs.AtTheCall.{IfOut, IfRests};
ghost use Rattle.dq_core.specs.Core.{machine};
ghost use Rattle.dq_core.specs.Calls.{Inserts, Resets, Removes, Polls, TellsDeadline, base_for, IsMissing};
ghost use Rattle.dq_core.specs.Machine.{NoneLinked, NoneLiveBefore};
ghost use Rattle.dq_core.specs.Pieces.{PollsSome, IfAnswer};
ghost use Rattle.dq_core.specs.Sweeps.{Sweeps, SweepsSome, Reaps, Clears};
ghost use Rattle.dq_words.specs.AtTheCall.{StepsAtMost};
ghost use Rattle.dq_words.specs.KeeperCalls.{HasBegun};
ghost use Rattle.dq_words.specs.Many.{PollsInto};
ghost use Rattle.dq_shards.specs.Attending.{MayWait, KeepsOrLeaves, Attends};
ghost use Rattle.dq_shards.specs.Parking.{still_parked, Leaves};
ghost use Rattle.dq_shards.specs.Streaming.{PollsBy};

use crate::parking::parked::{Parked, PendingWake, Until, keep_until};
use dq_core::{CoreError, DelayCore, Expired, Piece, ReapError, Removed, Swept, Turn};
use dq_ticks::{EntryId, Key};
use dq_words::{Keeper, ManyTurn, poll_into};
use std::alloc::{Allocator, Global};

// What an insert gives: its key, or why it is refused and the value.
type Inserted<T> = Result<Key, (CoreError, T)>;

/// A queue over words that callers share, and the poller that is parked there.
#[derive(Drop)]
pub struct WatchedCore<T, N = u64, A: Allocator = Global> {
    /// The queue.
    pub core: DelayCore<T, Keeper<A>, A>,
    /// Who waits for it; none where nobody does.
    pub parked: Option<Parked<N>>,
    /// Whether a thread drops what the queue has deferred. A value's drop is a user's code: it may call the queue, and
    /// defer more there. So one thread at a time drops them, while the lock is free, and whoever finds it at work
    /// leaves its own to it. However many values call the queue where they are dropped, their drops don't nest.
    pub is_dropping: bool,
}

/// Takes the poller out where it may not wait on, with the queue as it is now. Where none is parked, which is so in
/// most calls, the next wake isn't asked for.
#[inline(always)]
pub fn keep_or_leave<T, N: Until, A: Allocator>(
    core: &DelayCore<T, Keeper<A>, A>,
    parked: &mut Option<Parked<N>>,
) -> PendingWake<N>
    ensures keeps { KeepsOrLeaves N.lasts core.now parked.old parked.new }
    ensures law { MayWait N.lasts core.now parked.new }
    ensures empty { NoneLinked (machine core.now)
        → parked.new ≡ still_parked N.lasts parked.old None }
    ensures leaves { Leaves parked.old result.poller parked.new }
{
    if parked.is_some() {
        keep_until(parked, core.next_wake())
    } else {
        PendingWake { poller: None }
    }
}

impl<T, N, A: Allocator> WatchedCore<T, N, A> {
    /// A queue for which nobody waits.
    pub fn new(core: DelayCore<T, Keeper<A>, A>) -> WatchedCore<T, N, A>
        ensures { (result.core ≡ core) × (result.parked ≡ None) }
    {
        WatchedCore {
            core,
            parked: None,
            is_dropping: false,
        }
    }
}

impl<T, N: Until, A: Allocator> WatchedCore<T, N, A> {
    /// Puts `value` in, to come out at `when` or at the queue's tick, and returns its key. If it is refused, the
    /// value comes back and nothing changes. Beside it comes who has left, and the value that waited for its drop in
    /// the entry's slot, which is to be dropped once the lock is free: none if it was taken out before.
    #[inline(always)]
    pub fn insert(&mut self, value: T, when: u64) -> (Inserted<T>, PendingWake<N>, Option<T>)
        requires { MayWait N.lasts self.old.core self.old.parked }
        ensures refused { IfErr result.0 (λ e. self.new ≡ self.old) }
        ensures inserts { Inserts self.old.core value when result.0 self.new.core }
        ensures begins { IfOk result.0 (λ k. HasBegun self.new.core.words k.entry.index k.stamp
            (base_for self.old.core when)) }
        ensures beside { IfOk result.0
            (λ k. (result.2 ≡ deferred_value_at self.old.core.deferred k.entry.index)
            × (self.new.core.deferred ≡ with_deferred self.old.core.deferred k.entry.index None)) }
        ensures attends { Attends N.lasts self.old.core self.old.parked result.1.poller
            self.new.core self.new.parked }
    {
        let (answer, displaced) = self.core.insert_deferring(value, when);
        match answer {
            Ok(key) => (
                Ok(key),
                keep_or_leave(&self.core, &mut self.parked),
                displaced,
            ),
            Err(refused) => (Err(refused), PendingWake { poller: None }, displaced),
        }
    }

    /// Gives a live entry another deadline, and returns its new key, with who has left by it.
    #[inline(always)]
    pub fn reset(&mut self, entry: &EntryId, when: u64) -> (Result<Key, CoreError>, PendingWake<N>)
        ensures resets { Resets true self.old.core entry.now when result.0 self.new.core }
        ensures deferred { self.new.core.deferred ≡ self.old.core.deferred }
        ensures attends { Attends N.lasts self.old.core self.old.parked result.1.poller
            self.new.core self.new.parked }
    {
        let answer = self.core.reset(entry, when);
        (answer, keep_or_leave(&self.core, &mut self.parked))
    }

    /// Takes a live entry out, and returns it, with who has left by it.
    #[inline(always)]
    pub fn remove(&mut self, entry: &EntryId) -> (Result<Removed<T>, CoreError>, PendingWake<N>)
        ensures removes { Removes true self.old.core entry.now result.0 self.new.core }
        ensures deferred { self.new.core.deferred ≡ self.old.core.deferred }
        ensures attends { Attends N.lasts self.old.core self.old.parked result.1.poller
            self.new.core self.new.parked }
    {
        let answer = self.core.remove(entry);
        (answer, keep_or_leave(&self.core, &mut self.parked))
    }

    /// The deadline of a live entry, with who has left by it.
    #[inline]
    pub fn deadline(&mut self, entry: &EntryId) -> (Result<u64, CoreError>, PendingWake<N>)
        ensures tells { TellsDeadline true self.old.core entry.now result.0 self.new.core }
        ensures deferred { self.new.core.deferred ≡ self.old.core.deferred }
        ensures attends { Attends N.lasts self.old.core self.old.parked result.1.poller
            self.new.core self.new.parked }
    {
        let answer = self.core.deadline(entry);
        (answer, keep_or_leave(&self.core, &mut self.parked))
    }

    /// Notes a tick and takes one entry out that is due, or tells when to come again, with who has left by it. No
    /// value is dropped.
    #[inline(always)]
    pub fn poll(&mut self, tick: u64) -> (Result<Turn<T>, CoreError>, PendingWake<N>)
        ensures polls { Polls true self.old.core tick result.0 self.new.core }
        ensures deferred { IfOk result.0
            (λ turn. DefersValues self.old.core (out_at turn) self.new.core) }
        ensures attends { Attends N.lasts self.old.core self.old.parked result.1.poller
            self.new.core self.new.parked }
    {
        let answer = self.core.poll_deferring(tick);
        (answer, keep_or_leave(&self.core, &mut self.parked))
    }

    /// Notes a tick and does at most `most` steps of a poll, with who has left by it. No value is dropped.
    #[inline]
    pub fn poll_some(
        &mut self,
        tick: u64,
        most: u32,
    ) -> (Result<Piece<T>, CoreError>, PendingWake<N>)
        ensures out { IfAnswer result.0 (λ turn. IfOut turn
            (λ x. (x.deadline ≤ self.new.core.noted)
            × NoneLiveBefore (machine self.new.core) x.deadline)) }
        ensures waiting { IfAnswer result.0 (λ turn. IfRests turn
            (λ next. NoneLiveBefore (machine self.new.core) (self.new.core.noted + 1))) }
        ensures polls { PollsSome true self.old.core tick most result.0 self.new.core }
        ensures deferred { IfOk result.0
            (λ piece. DefersValues self.old.core (answered_at piece) self.new.core) }
        ensures attends { Attends N.lasts self.old.core self.old.parked result.1.poller
            self.new.core self.new.parked }
    {
        let answer = self.core.poll_some_deferring(tick, most);
        (answer, keep_or_leave(&self.core, &mut self.parked))
    }

    /// Notes a tick and polls where none is parked, so nobody leaves: whole, or by at most `most` steps. No value is
    /// dropped.
    #[inline]
    pub fn poll_unparked(&mut self, tick: u64, most: Option<u32>) -> Result<Piece<T>, CoreError>
        requires { self.old.parked ≡ None }
        ensures polls { PollsBy most self.old.core tick result self.new.core }
        ensures deferred { IfOk result
            (λ piece. DefersValues self.old.core (answered_at piece) self.new.core) }
        ensures attends { Attends N.lasts self.old.core None None self.new.core None }
        ensures none { self.new.parked ≡ None }
    {
        match most {
            Some(steps) => self.core.poll_some_deferring(tick, steps),
            None => Ok(Piece::Answer(self.core.poll_deferring(tick)?)),
        }
    }

    /// Notes a tick and appends what is due to `row`, as far as it has room, with who has left by it. No value is
    /// dropped.
    #[inline]
    pub fn poll_many(
        &mut self,
        tick: u64,
        row: &mut Vec<Expired<T>, A>,
    ) -> (Result<ManyTurn, CoreError>, PendingWake<N>)
        ensures refused { IsErr result.0 ↔ (LAST_TICK < tick) }
        ensures kept { OnErr result.0 (row.new ≡ row.old) }
        ensures room { vec_capacity row.new ≡ vec_capacity row.old }
        ensures polls { PollsInto self.old.core tick (vec_capacity row.old) row.old.items
            row.new.items result.0 self.new.core }
        ensures attends { Attends N.lasts self.old.core self.old.parked result.1.poller
            self.new.core self.new.parked }
    {
        let answer = poll_into(&mut self.core, tick, row);
        (answer, keep_or_leave(&self.core, &mut self.parked))
    }

    /// Reaps all cancelled entries, and returns how many, with who has left by it. No value is dropped.
    pub fn sweep(&mut self) -> (usize, PendingWake<N>)
        ensures sweeps { Sweeps true self.old.core result.0 self.new.core }
        ensures deferred { DefersValues self.old.core None self.new.core }
        ensures attends { Attends N.lasts self.old.core self.old.parked result.1.poller
            self.new.core self.new.parked }
    {
        let reaped = self.core.sweep_deferring();
        (reaped, keep_or_leave(&self.core, &mut self.parked))
    }

    /// Reaps the cancelled entries at `count` slots from `from` on, with who has left by it. No value is dropped.
    pub fn sweep_some(&mut self, from: usize, count: usize) -> (Swept, PendingWake<N>)
        ensures next { result.0.next ≡ (if nat_lt (from + count) (length self.old.core.slots.rows)
            then Some (from + count) else None) }
        ensures few_steps { StepsAtMost count self.old.core.words self.new.core.words }
        ensures sweeps { SweepsSome true self.old.core from (from + count) result.0.reaped
            self.new.core }
        ensures deferred { DefersValues self.old.core None self.new.core }
        ensures attends { Attends N.lasts self.old.core self.old.parked result.1.poller
            self.new.core self.new.parked }
    {
        let swept = self.core.sweep_some_deferring(from, count);
        (swept, keep_or_leave(&self.core, &mut self.parked))
    }

    /// Reaps an entry if it was cancelled, with who has left by it. No value is dropped.
    pub fn reap(&mut self, entry: &EntryId) -> (Result<(), ReapError>, PendingWake<N>)
        ensures reaps { Reaps true self.old.core entry.now result.0 self.new.core }
        ensures deferred { DefersValues self.old.core None self.new.core }
        ensures attends { Attends N.lasts self.old.core self.old.parked result.1.poller
            self.new.core self.new.parked }
        ensures missing { IsErrOf result.0 ReapError.Missing ↔ IsMissing self.old.core entry.now }
    {
        let answer = self.core.reap_deferring(entry);
        (answer, keep_or_leave(&self.core, &mut self.parked))
    }

    /// Takes all entries out, and returns how many live ones were removed, with who has left by it. No value is
    /// dropped.
    pub fn clear(&mut self) -> (usize, PendingWake<N>)
        ensures clears { Clears true self.old.core result.0 self.new.core }
        ensures deferred { DefersValues self.old.core None self.new.core }
        ensures attends { Attends N.lasts self.old.core self.old.parked result.1.poller
            self.new.core self.new.parked }
    {
        let removed = self.core.clear_deferring();
        (removed, keep_or_leave(&self.core, &mut self.parked))
    }
}

impl<T, N: Drop, A: Allocator> WatchedCore<T, N, A> {
    /// Takes out a value for a thread that drops it once the lock is free, and then calls again. `is_mine` is false at
    /// its first call, and tells whether it is at it. None where no more are deferred, and it is over; or where
    /// another thread is at it, or this one further up: it drops these too.
    #[tactic(auto, using(dq_core::proofs::Dropped::took_one))]
    pub fn take_one(&mut self, is_mine: &mut bool) -> Option<T>
        ensures stays { (self.new.core ≡ record self.old.core { deferred = self.new.core.deferred })
            × (self.new.parked ≡ self.old.parked) }
        ensures alone { IfSome result (λ _. (self.new.is_dropping ≡ true) × (is_mine.new ≡ true)
            × ((self.old.is_dropping ≡ false) ⊎ (is_mine.old ≡ true))) }
        ensures over { (result ≡ None) → (is_mine.new ≡ false)
            × ((self.new.is_dropping ≡ false) ⊎ (is_mine.old ≡ false)) }
        ensures takes { IfSome result
            (λ v. TakesDeferredValue self.old.core.deferred (Some v) self.new.core.deferred) }
        ensures one { IfSome result (λ _. waiting_in self.old.core.deferred
            ≡ waiting_in self.new.core.deferred + 1) }
        ensures kept { IfNone result (self.new.core ≡ self.old.core) }
        ensures none { ((self.old.is_dropping ≡ false) ⊎ (is_mine.old ≡ true))
            → IfNone result (waiting_in self.new.core.deferred ≡ 0) }
    {
        if self.is_dropping && !*is_mine {
            return None;
        }
        let value = self.core.take_deferred();
        self.is_dropping = value.is_some();
        *is_mine = self.is_dropping;
        value
    }

    /// Ends it before its time, where a value's drop panics. A later call drops what is left.
    pub fn end_dropping(&mut self, is_mine: &mut bool)
        ensures stays { (self.new.core ≡ self.old.core) × (self.new.parked ≡ self.old.parked) }
        ensures ended { (self.new.is_dropping ≡ false) × (is_mine.new ≡ false) }
    {
        self.is_dropping = false;
        *is_mine = false;
    }
}
