//! Shards behind locks.
ghost use Rattle.std.specs.Prelude.{◌≡◌, ◌<◌, ◌≤◌, IfOk, IfErr};
ghost use Rattle.std.specs.Sync.Mutex.{mutex_guard_value};
ghost use Rattle.dq_shards.specs.declared.errors.TheConstants.{SHARD_LIMIT};
ghost use Rattle.dq_shards.specs.declared.errors.QueueError.TheVariants.{Unknown};
ghost use Rattle.dq_shards.specs.Shard.{IsShard};

use crate::errors::{QueueError, SHARD_LIMIT};
use crate::parking::Row;
use crate::state::ShardState;
use std::alloc::{Allocator, Global};
use std::marker::Model;
use std::sync::{MutexGuard, Wait};

/// A delay queue in shards, each behind a lock of its own, so that many threads may fill and poll it. A call takes
/// the lock of one shard. Ticks are of one millisecond, and the program passes them in: the queue reads no clock.
///
/// ```
/// use hontkhale::owner::Turn;
/// use hontkhale::shards::{QueueConfig, SharedDelayQueue};
///
/// let queue = SharedDelayQueue::new(QueueConfig::of(8, 1_000))?;
/// let key = queue.insert_or_drop(3, "value", 100)?;
/// let later = queue.reset(&key.entry(), 200)?;
/// assert_eq!(queue.deadline(&later.entry()), Ok(200));
/// assert!(matches!(queue.poll(3, 200)?, Turn::Out(expired) if expired.value == "value"));
/// # Ok::<(), hontkhale::shards::QueueError>(())
/// ```
///
/// # Entries
/// An entry is *live* until it comes out, is removed or is cancelled. Handles extend and cancel entries without a
/// lock. An entry that a handle has cancelled keeps its slot until a call of the shard frees it: a poll at which it
/// would have been due, a sweep, a reap or a clear.
///
/// # Wakers
/// A call by name that wakes a parked task releases the lock first, so the task may call the queue at once. Only
/// calls that are made on a shard in hand wake under the lock: those of [`SharedDelayQueue::enter`] and
/// [`SharedDelayQueue::lend`].
///
/// # Drops of values
/// A call by name drops the values that it frees after it has released the lock, so a value's drop may call the
/// queue. One thread at a time drops what a shard has deferred. A call that finds another thread at it, or that is
/// made by a value's drop, leaves its values to that one, and returns before they are dropped. So drops don't nest,
/// and a value may be dropped by another thread's call. An insert may drop one value before its own entry is in, if
/// no other slot is free.
///
/// If a drop panics, the shard stays whole, and a later poll, sweep, reap or clear drops the rest. Up to 15 values
/// that were taken out with it are dropped as the panic unwinds; if the drop of one of these panics too, Rust ends
/// the process. A poll that returns an entry drops nothing, since a panic would lose the entry: that is left to a
/// later call.
#[derive(Drop)]
pub struct SharedDelayQueue<T, A: Allocator = Global> {
    pub(crate) row: Row<ShardState<T, A>, A>,
}

impl<T, A: Allocator> Model for SharedDelayQueue<T, A> {
    ghost use Rattle.std.specs.Prelude.{ℕ, ◌<◌, ◌≤◌};
    ghost use Rattle.dq_shards.specs.declared.errors.TheConstants.{SHARD_LIMIT};

    ghost Value = { ℕ };

    ghost view = { λ q. q.row };

    ghost invariant = { λ q. (0 < q.row) × (q.row ≤ SHARD_LIMIT) };
}

impl<T, A: Allocator> SharedDelayQueue<T, A> {
    /// Returns the number of shards, from 1 to [`SHARD_LIMIT`].
    pub fn shards(&self) -> usize
        ensures value { result ≡ self.now }
        ensures range { (0 < result) × (result ≤ SHARD_LIMIT) }
    {
        self.row.len()
    }

    /// Gives way to the threads that wait for the lock of `shard`: it waits for a bounded while until none waits. It
    /// returns at once if none waits, or if there is no such shard. It takes no lock.
    ///
    /// It is for a loop over [`SharedDelayQueue::poll_some`]. A thread that releases a lock and takes it again at
    /// once gets it before a thread that sleeps.
    pub fn give_way(&self, shard: usize) {
        self.row.give_way(shard);
    }

    /// Takes the lock of `shard`, and returns the shard's state. The lock is released when the returned guard is
    /// dropped. It takes no memory.
    ///
    /// A thread that holds a shard and takes its lock once more, by any call that names the shard, waits for ever. So
    /// does a waker that calls the queue if a call on the held shard wakes it. [`ShardState::take_parked`] takes the
    /// parked task out before. Values that are freed meanwhile wait in the shard until
    /// [`SharedDelayQueue::drop_deferred`] or a later call drops them.
    ///
    /// # Errors
    /// `Unknown` if there is no such shard.
    ///
    /// ```
    /// use hontkhale::shards::{QueueConfig, SharedDelayQueue};
    ///
    /// let queue = SharedDelayQueue::new(QueueConfig::of(1, 100))?;
    /// let mut state = queue.enter(0)?;
    /// let first = state.insert("first", 100).expect("there is room");
    /// let second = state.insert("second", 200).expect("there is room");
    /// drop(state);
    /// assert_eq!(queue.deadline(&first.entry()), Ok(100));
    /// assert_eq!(queue.deadline(&second.entry()), Ok(200));
    /// # Ok::<(), hontkhale::shards::QueueError>(())
    /// ```
    #[inline(always)]
    pub fn enter<R: Wait>(
        &self,
        rt: &R,
        shard: usize,
    ) -> Result<MutexGuard<'_, ShardState<T, A>>, QueueError>
        ensures entered { IfOk result
            (λ state. (shard < self.now) × IsShard (mutex_guard_value state)) }
        ensures number { IfOk result (λ state. (mutex_guard_value state).core.shard ≡ shard) }
        ensures refused { IfErr result (λ e. (self.now ≤ shard) × (e ≡ Unknown)) }
    {
        if shard >= self.row.len() {
            return Err(QueueError::Unknown);
        }
        Ok(self.row.lock(rt, shard))
    }
}
