//! The calls of a queue of shards by name that let no value go: each takes one shard's lock and makes the state's call.
//! Who leaves by it is woken once the lock is free.
ghost use Rattle.std.specs.Prelude.{◌≡◌, ◌<◌, ◌≤◌, ◌↔◌, option_map, IsErrOf};
ghost use Rattle.dq_ticks.specs.declared.TheConstants.{LAST_TICK};
ghost use Rattle.dq_core.specs.declared.errors.CoreError.TheVariants.{TooFar};
ghost use Rattle.dq_shards.specs.declared.errors.QueueError.TheVariants.{Core, Unknown};
ghost use Rattle.dq_core.specs.Calls.{TellsWake};
ghost use Rattle.dq_core.specs.Readers.{IsTally};
ghost use Rattle.dq_shards.specs.Answers.{OnShard, OnShardOr};
ghost use Rattle.dq_shards.specs.Changes.{ShardResets, ShardRemoves, ShardDeadline, Rings};

use crate::errors::QueueError;
use crate::parking::{ring, unlock};
use crate::queue::SharedDelayQueue;
use dq_core::{Removed, Tally};
use dq_ticks::{EntryId, Key};
use std::alloc::Allocator;
use std::sync::Wait;

impl<T, A: Allocator> SharedDelayQueue<T, A> {
    /// Gives a live entry the deadline `when`, a tick of one millisecond, sooner or later than the one that it has,
    /// and returns its new key. If `when` is before the shard's tick, the entry is due at once. A handle refuses the
    /// old key from then on.
    ///
    /// It takes the lock of the entry's shard for constant time, and no memory. If a task is parked there until a
    /// later tick, the call wakes it after it has released the lock.
    ///
    /// # Errors
    /// In this order:
    /// - `Unknown` if there is no such shard.
    /// - `TooFar` if `when` is beyond the last tick, 2^42 - 1.
    /// - `Missing` if the entry isn't in the queue any more, or never was.
    /// - `WasCancelled` if a handle cancelled the entry.
    /// - `Worn` if the entry's slot has no stamp left for another key.
    ///
    /// ```
    /// use hontkhale::shards::{QueueConfig, SharedDelayQueue};
    ///
    /// let queue = SharedDelayQueue::new(QueueConfig::of(8, 1_000))?;
    /// let key = queue.insert_or_drop(3, "value", 100)?;
    /// let sooner = queue.reset(&key.entry(), 50)?;
    /// assert_eq!(queue.deadline(&sooner.entry()), Ok(50));
    /// # Ok::<(), hontkhale::shards::QueueError>(())
    /// ```
    pub fn reset<R: Wait>(&self, rt: &R, entry: &EntryId, when: u64) -> Result<Key, QueueError>
        // As unknown exactly out of range; else as too far exactly beyond the last tick.
        ensures unknown { IsErrOf result Unknown ↔ (self.now ≤ entry.now.shard) }
        ensures too_far { IsErrOf result (Core (TooFar LAST_TICK))
            ↔ (entry.now.shard < self.now) × (LAST_TICK < when) }

        // All that it answers.
        ensures answers { OnShardOr {T = T} self.now entry.now.shard
            (λ old r new. ShardResets old entry.now when r new) result }
    {
        let mut shard = self.enter(rt, entry.shard() as usize)?;
        let (answer, pending) = shard.watched.reset(entry, when);
        unlock(shard, pending);
        Ok(answer?)
    }

    /// Takes a live entry out, and returns its value with its key and its current deadline, a tick of one
    /// millisecond.
    ///
    /// It takes the lock of the entry's shard for constant time, and no memory. If the shard holds no entry then, a
    /// parked task is woken after the lock is released.
    ///
    /// # Errors
    /// In this order:
    /// - `Unknown` if there is no such shard.
    /// - `Missing` if the entry isn't in the queue any more, or never was.
    /// - `WasCancelled` if a handle cancelled the entry.
    ///
    /// ```
    /// use hontkhale::shards::{QueueConfig, SharedDelayQueue};
    ///
    /// let queue = SharedDelayQueue::new(QueueConfig::of(8, 1_000))?;
    /// let key = queue.insert_or_drop(3, "value", 100)?;
    /// let removed = queue.remove(&key.entry())?;
    /// assert_eq!((removed.value, removed.deadline), ("value", 100));
    /// # Ok::<(), hontkhale::shards::QueueError>(())
    /// ```
    pub fn remove<R: Wait>(&self, rt: &R, entry: &EntryId) -> Result<Removed<T>, QueueError>
        ensures unknown { IsErrOf result Unknown ↔ (self.now ≤ entry.now.shard) }
        ensures answers { OnShardOr {T = T} self.now entry.now.shard
            (λ old r new. ShardRemoves old entry.now r new) result }
    {
        let mut shard = self.enter(rt, entry.shard() as usize)?;
        let (answer, pending) = shard.watched.remove(entry);
        unlock(shard, pending);
        Ok(answer?)
    }

    /// Returns the current deadline of a live entry, a tick of one millisecond: the one that was set last, or a later
    /// one to which a handle has extended it. It takes the lock of the entry's shard for constant time, and no
    /// memory.
    ///
    /// # Errors
    /// In this order:
    /// - `Unknown` if there is no such shard.
    /// - `Missing` if the entry isn't in the queue any more, or never was.
    /// - `WasCancelled` if a handle cancelled the entry.
    pub fn deadline<R: Wait>(&self, rt: &R, entry: &EntryId) -> Result<u64, QueueError>
        ensures unknown { IsErrOf result Unknown ↔ (self.now ≤ entry.now.shard) }
        ensures answers { OnShardOr {T = T} self.now entry.now.shard
            (λ old r new. ShardDeadline old entry.now r new) result }
    {
        let mut shard = self.enter(rt, entry.shard() as usize)?;
        let answer = shard.deadline(entry);
        shard.law();
        Ok(answer?)
    }

    /// Returns the tick, of one millisecond, at which `shard` has something to do next. It returns none if the shard
    /// holds no entry. No live entry has a deadline before that tick; the least deadline may be later.
    ///
    /// It takes the shard's lock for constant time, and no memory.
    ///
    /// # Errors
    /// `Unknown` if there is no such shard.
    pub fn next_wake<R: Wait>(&self, rt: &R, shard: usize) -> Result<Option<u64>, QueueError>
        ensures unknown { IsErrOf result Unknown ↔ (self.now ≤ shard) }
        ensures answers { OnShard {T = T} self.now shard
            (λ old r new. TellsWake new.core r × (new ≡ old)) result }
    {
        let shard = self.enter(rt, shard)?;
        Ok(shard.next_wake())
    }

    /// Returns how many entries came to `shard` and went, and how many it holds. A cancelled entry counts as
    /// cancelled only once its slot is freed. It takes the shard's lock for constant time, and no memory.
    ///
    /// # Errors
    /// `Unknown` if there is no such shard.
    pub fn tally<R: Wait>(&self, rt: &R, shard: usize) -> Result<Tally, QueueError>
        ensures unknown { IsErrOf result Unknown ↔ (self.now ≤ shard) }
        ensures answers { OnShard {T = T} self.now shard
            (λ old r new. IsTally new.core r × (new ≡ old)) result }
    {
        let shard = self.enter(rt, shard)?;
        Ok(shard.tally())
    }

    /// Tells `shard` that `tick`, of one millisecond, is reached: a task that is parked there until `tick` or before
    /// is taken out, and woken after the lock is released. It returns whether there was one. The queue reads no
    /// clock, so whoever keeps the time calls this.
    ///
    /// It takes the shard's lock for constant time, and no memory.
    ///
    /// # Errors
    /// `Unknown` if there is no such shard.
    pub fn ring<R: Wait>(&self, rt: &R, shard: usize, tick: u64) -> Result<bool, QueueError>
        ensures unknown { IsErrOf result Unknown ↔ (self.now ≤ shard) }
        ensures answers { OnShard {T = T} self.now shard
            (λ old r new. Rings old tick r new) result }
    {
        let mut shard = self.enter(rt, shard)?;
        let rung = ring(&mut shard.watched.parked, tick);
        let is_rung = rung.is_some();
        unlock(shard, rung);
        Ok(is_rung)
    }

    /// Returns the tick, of one millisecond, until which a task is parked in `shard`. It returns none if no task is
    /// parked. It takes the shard's lock for constant time, and no memory.
    ///
    /// # Errors
    /// `Unknown` if there is no such shard.
    pub fn parked<R: Wait>(&self, rt: &R, shard: usize) -> Result<Option<u64>, QueueError>
        ensures unknown { IsErrOf result Unknown ↔ (self.now ≤ shard) }
        ensures answers { OnShard {T = T} self.now shard
            (λ old r new. (r ≡ option_map (λ p. p.next) old.parked) × (new ≡ old)) result }
    {
        let shard = self.enter(rt, shard)?;
        Ok(shard.parked())
    }
}
