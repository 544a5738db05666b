//! A row of shards, each behind a lock of its own, and the calls by name of their callers.
ghost use Rattle.std.specs.Prelude.{◌≡◌, ◌<◌, ◌≤◌, ◌^◌, vec_len, Some, None, IfOk, IfErr, IfSome};
ghost use Rattle.std.specs.Fn.{FnOnceReturnsAtMut};
ghost use Rattle.std.specs.Sync.Mutex.{mutex_guard_value};
ghost use Rattle.dq_queue.specs.declared.queue.QueueError.TheVariants.{Unknown};
ghost use Rattle.dq_queue.specs.Calls.{StoreChanges, StoreInserts, StoreRemoves, StoreRemovesIfDue, StoreResets, StoreResetsThere, StoreTells, StorePolls, StorePollsBeside, StoreTakesDeferred};
ghost use Rattle.dq_queue.specs.Shards.{MadeOnce};

use crate::shard::{Caller, Rooms, Shard};
use crate::words::{Promise, QueueWords};
use dq_core::{CoreError, Piece, Removed};
use dq_ticks::{EntryId, Key};
use std::alloc::{Allocator, Global};
use std::marker::Model;
use std::sync::{Mutex, MutexGuard, Wait};
use thiserror::Error;

/// Why a shard's lock isn't taken.
#[derive(Clone, Copy, Debug, PartialEq, Eq, Error)]
pub enum QueueError {
    /// There is no such shard.
    #[error("there is no such shard")]
    Unknown,
}

/// A delay queue that grows and shrinks, and that many threads share: a row of shards, each behind a lock of its own. A
/// call by name takes the lock of one shard. A caller is of one shard, and its calls by name are made there.
#[derive(Drop)]
pub struct GrowingQueue<T, J: Rooms, A: Allocator = Global> {
    row: Vec<Mutex<Shard<T, J, A>>, A>,
    words: QueueWords<J, A>,
}

impl<T, J: Rooms, A: Allocator> Model for GrowingQueue<T, J, A> {
    ghost use Rattle.std.specs.Prelude.{ℕ, ◌≡◌, vec_len};

    ghost Value = { ℕ };

    ghost view = { λ q. vec_len q.row };

    ghost invariant = { λ q. vec_len q.row ≡ J.shards };
}

impl<T, J: Rooms, A: Allocator> GrowingQueue<T, J, A> {
    /// A queue of these shards, as many as are named, of which each stands at the place of its number, and of the words
    /// of its cores.
    pub fn of(row: Vec<Mutex<Shard<T, J, A>>, A>, words: QueueWords<J, A>) -> GrowingQueue<T, J, A>
        requires { vec_len row ≡ J.shards }
        ensures { result ≡ vec_len row }
    {
        GrowingQueue { row, words }
    }

    /// The words of the queue's cores, by which any thread extends and cancels entries, and looks at them, without a
    /// lock.
    #[inline]
    pub fn words(&self) -> &QueueWords<J, A>
        ensures { result.now ≡ J.rows }
    {
        let words = &self.words;
        words.law();
        words
    }

    /// Returns how many shards there are.
    pub fn shards(&self) -> usize
        ensures { (result ≡ J.shards) × (result ≡ self.now) }
    {
        self.row.len()
    }

    /// Takes the lock of a shard, and returns the shard. The lock is released when the returned guard is dropped.
    ///
    /// # Errors
    /// `Unknown` if there is no such shard.
    pub fn lock<R: Wait>(
        &self,
        rt: &R,
        shard: u32,
    ) -> Result<MutexGuard<'_, Shard<T, J, A>>, QueueError>
        ensures number { IfOk result (λ s. (mutex_guard_value s).number ≡ shard) }
        ensures refused { IfErr result (λ e. (J.shards ≤ shard) × (e ≡ Unknown)) }
    {
        if shard as usize >= self.row.len() {
            return Err(QueueError::Unknown);
        }
        Ok(self.locked(rt, shard))
    }

    /// The same where the lock is free. It returns none where it isn't, and waits for nobody.
    ///
    /// # Errors
    /// `Unknown` if there is no such shard.
    pub fn try_lock(&self, shard: u32) -> Result<Option<MutexGuard<'_, Shard<T, J, A>>>, QueueError>
        ensures number { IfOk result
            (λ r. IfSome r (λ s. (mutex_guard_value s).number ≡ shard)) }
        ensures refused { IfErr result (λ e. (J.shards ≤ shard) × (e ≡ Unknown)) }
    {
        if shard as usize >= self.row.len() {
            return Err(QueueError::Unknown);
        }
        let Some(locked) = self.row[shard as usize].try_lock() else {
            return Ok(None);
        };
        if locked.number() != shard {
            return Ok(None);
        }
        Ok(Some(locked))
    }

    // The shard of that number, with its lock held. Whether it stands at its place is compared once.
    fn locked<R: Wait>(&self, rt: &R, shard: u32) -> MutexGuard<'_, Shard<T, J, A>>
        requires { shard < self.now }
        ensures { (mutex_guard_value result).number ≡ shard }
    {
        let locked = self.row[shard as usize].lock(rt);
        if locked.number() != shard {
            // Whoever had the shard in hand put another here. This thread holds the lock, so it sleeps here.
            for _ in rt.forever() {
                let _again = self.row[shard as usize].lock(rt);
            }
        }
        locked
    }

    // The caller's shard, with its lock held.
    fn locked_for<R: Wait>(&self, rt: &R, me: &Caller<T, J, A>) -> MutexGuard<'_, Shard<T, J, A>>
        ensures { (mutex_guard_value result).number ≡ me.now.shard }
    {
        let shard = me.shard();
        if shard as usize >= self.row.len() {
            unreachable!();
        }
        self.locked(rt, shard)
    }
}

impl<T, J: Rooms, A: Allocator + Clone> GrowingQueue<T, J, A> {
    /// Takes the lock of the caller's shard, and puts `value` in, to come out at the tick `when` of one millisecond,
    /// and returns its key. No value is dropped: one that waits for its drop in the slot that the entry takes comes out
    /// beside the key. Constant time, and no memory is taken.
    ///
    /// # Errors
    /// `value` comes back. In this order:
    /// - `TooFar` if `when` is beyond the last tick.
    /// - `Full` if no core is open, or the open one has no slot free.
    pub fn insert<R: Wait>(
        &self,
        rt: &R,
        me: &mut Caller<T, J, A>,
        value: T,
        when: u64,
    ) -> (Result<Key, (CoreError, T)>, Option<T>)
        ensures once { MadeOnce me.old (λ s t. StoreInserts value when result s t) me.new }
    {
        let mut shard = self.locked_for(rt, me);
        let answer = shard.insert(me, value, when);
        drop(shard);
        answer
    }

    /// Takes the lock of the caller's shard, and takes a live entry out, and returns its value with its key and its
    /// current deadline, a tick of one millisecond. Constant time, and no memory is taken.
    ///
    /// # Errors
    /// In this order:
    /// - `Missing` if the entry isn't in the shard any more, or never was.
    /// - `WasCancelled` if the entry was cancelled.
    pub fn remove<R: Wait>(
        &self,
        rt: &R,
        me: &mut Caller<T, J, A>,
        entry: &EntryId,
    ) -> Result<Removed<T>, CoreError>
        ensures once { MadeOnce me.old (λ s t. StoreRemoves entry.now result s t) me.new }
    {
        let mut shard = self.locked_for(rt, me);
        let answer = shard.remove(me, entry);
        drop(shard);
        answer
    }

    /// Takes the lock of the caller's shard, and takes a live entry out if its current deadline isn't after `tick`, of
    /// one millisecond, and returns its value with its key and that deadline. It returns none if the deadline is later:
    /// then the entry stays where it is, with its key. Constant time, and no memory is taken.
    ///
    /// # Errors
    /// In this order:
    /// - `Missing` if the entry isn't in the shard any more, or never was.
    /// - `WasCancelled` if the entry was cancelled.
    pub fn remove_if_due<R: Wait>(
        &self,
        rt: &R,
        me: &mut Caller<T, J, A>,
        entry: &EntryId,
        tick: u64,
    ) -> Result<Option<Removed<T>>, CoreError>
        ensures once { MadeOnce me.old (λ s t. StoreRemovesIfDue entry.now tick result s t) me.new }
    {
        let mut shard = self.locked_for(rt, me);
        let answer = shard.remove_if_due(me, entry, tick);
        drop(shard);
        answer
    }

    /// Takes the lock of the caller's shard, and gives a live entry the deadline `when`, a tick of one millisecond,
    /// sooner or later than the one that it has, and returns its new key. No value is dropped: one that waits for its
    /// drop in the slot that the entry goes on in comes out beside the key. Constant time. No memory is taken, but for
    /// a note where the entry goes on in another core.
    ///
    /// # Errors
    /// In this order:
    /// - `TooFar` if `when` is beyond the last tick.
    /// - `Missing` if the entry isn't in the shard any more, or never was.
    /// - `WasCancelled` if the entry was cancelled.
    /// - `NoMemory` if the entry has to go on in the open core, and memory for its note is refused.
    /// - `Full` if it has to, and no core is open, or the open one has no free slot.
    pub fn reset<R: Wait>(
        &self,
        rt: &R,
        me: &mut Caller<T, J, A>,
        entry: &EntryId,
        when: u64,
    ) -> (Result<Key, CoreError>, Option<T>)
        ensures once { MadeOnce me.old (λ s t. StoreResets entry.now when result s t) me.new }
    {
        let mut shard = self.locked_for(rt, me);
        let answer = shard.reset(me, entry, when);
        drop(shard);
        answer
    }

    /// The same of an entry that stays where it is. No memory is taken.
    ///
    /// # Errors
    /// In this order:
    /// - `TooFar` if `when` is beyond the last tick.
    /// - `Missing` if the entry isn't in the shard any more, or never was.
    /// - `WasCancelled` if the entry was cancelled.
    /// - `Worn` if the entry's slot has no stamp left for another key.
    pub fn reset_in_place<R: Wait>(
        &self,
        rt: &R,
        me: &mut Caller<T, J, A>,
        entry: &EntryId,
        when: u64,
    ) -> Result<Key, CoreError>
        ensures once { MadeOnce me.old (λ s t. StoreResetsThere entry.now when result s t) me.new }
    {
        let mut shard = self.locked_for(rt, me);
        let answer = shard.reset_in_place(me, entry, when);
        drop(shard);
        answer
    }

    /// Takes the lock of the caller's shard, and returns the current deadline of a live entry, a tick of one
    /// millisecond. Constant time.
    ///
    /// # Errors
    /// In this order:
    /// - `Missing` if the entry isn't in the shard any more, or never was.
    /// - `WasCancelled` if the entry was cancelled.
    pub fn deadline<R: Wait>(
        &self,
        rt: &R,
        me: &mut Caller<T, J, A>,
        entry: &EntryId,
    ) -> Result<u64, CoreError>
        ensures once { MadeOnce me.old (λ s t. StoreTells entry.now result s t) me.new }
    {
        let mut shard = self.locked_for(rt, me);
        let answer = shard.deadline(me, entry);
        drop(shard);
        answer
    }

    /// Takes the lock of the caller's shard, and calls a closure with the value of an entry, which it may change where
    /// it is, and returns what it returns. It returns none, and doesn't call it, if the entry isn't in the shard any
    /// more, or never was. A cancelled entry has its value until it is freed.
    pub fn with_value<R: Wait, X, F: FnOnce(&mut T) -> X>(
        &self,
        rt: &R,
        me: &mut Caller<T, J, A>,
        entry: &EntryId,
        call: F,
    ) -> Option<X>
        requires { F.IsAlwaysCallable call }
        ensures once { MadeOnce me.old (λ s t. StoreChanges
            (FnOnceReturnsAtMut F.FnOnce call) entry.now result s t) me.new }
    {
        let mut shard = self.locked_for(rt, me);
        let answer = shard.with_value(me, entry, call);
        drop(shard);
        answer
    }

    /// Takes the lock of the caller's shard, and notes a tick, of one millisecond, and polls: it takes out one entry
    /// whose deadline in force is reached by the greatest tick noted, or tells when to come again, or that there may be
    /// more. No value is dropped: that of each cancelled entry which it reaps waits until it is taken out.
    ///
    /// # Errors
    /// `TickTooLarge` beyond the last tick, which is not noted then.
    pub fn poll<R: Wait>(
        &self,
        rt: &R,
        me: &mut Caller<T, J, A>,
        tick: u64,
    ) -> Result<Piece<T>, CoreError>
        ensures once { MadeOnce me.old (λ s t. StorePolls tick None result s t) me.new }
    {
        let mut shard = self.locked_for(rt, me);
        let answer = shard.poll(me, tick);
        drop(shard);
        answer
    }

    /// The same by at most `most` steps. So it also tells where it made them all, and more may be left.
    ///
    /// # Errors
    /// `TickTooLarge` beyond the last tick, which is not noted then.
    pub fn poll_some<R: Wait>(
        &self,
        rt: &R,
        me: &mut Caller<T, J, A>,
        tick: u64,
        most: u32,
    ) -> Result<Piece<T>, CoreError>
        ensures once { MadeOnce me.old (λ s t. StorePolls tick (Some most) result s t) me.new }
    {
        let mut shard = self.locked_for(rt, me);
        let answer = shard.poll_some(me, tick, most);
        drop(shard);
        answer
    }

    /// The same, beside the promise of a call by the queue's words, of whatever thread: what comes out has no deadline
    /// before the promised one, and wasn't cancelled by the call.
    ///
    /// # Errors
    /// `TickTooLarge` beyond the last tick, which is not noted then.
    pub fn poll_beside<R: Wait>(
        &self,
        rt: &R,
        me: &mut Caller<T, J, A>,
        promise: &mut Promise<J, A>,
        tick: u64,
        most: u32,
    ) -> Result<Piece<T>, CoreError>
        ensures once { MadeOnce me.old
            (λ s t. StorePollsBeside promise.old tick (Some most) result s t) me.new }
        ensures same { promise.new ≡ promise.old }
    {
        let mut shard = self.locked_for(rt, me);
        let answer = shard.poll_beside(me, &self.words, promise, tick, most);
        drop(shard);
        answer
    }

    /// Takes the lock of the caller's shard, and takes out a freed value that waits for its drop. It returns none if no
    /// value waits.
    pub fn take_deferred<R: Wait>(&self, rt: &R, me: &mut Caller<T, J, A>) -> Option<T>
        ensures once { MadeOnce me.old (λ s t. StoreTakesDeferred result s t) me.new }
    {
        let mut shard = self.locked_for(rt, me);
        let answer = shard.take_deferred(me);
        drop(shard);
        answer
    }
}
