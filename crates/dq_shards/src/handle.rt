//! A handle extends and cancels entries of every shard, and looks at them, without a lock.
ghost use Rattle.std.specs.Prelude.{◌≡◌, ◌≢◌, ◌≤◌, ◌<◌, length, vec_len};
ghost use Rattle.dq_words.specs.Counts.{cancels_in, most_begins};
ghost use Rattle.dq_words.specs.declared.keeper.WordsError.TheVariants.{BadConfig};
ghost use Rattle.dq_shards.specs.declared.errors.TheConstants.{SHARD_LIMIT};
ghost use Rattle.dq_shards.specs.Changes.{OnNumbered, ShardIssues};
ghost use Rattle.dq_shards.specs.Handles.{HandleExtends, HandleCancels, HandleLooks, KeepsCaller, all_cancels};
ghost use Rattle.dq_shards.specs.Issuing.{QueueHandles, IsHandleRefused};

use crate::errors::QueueError;
use crate::queue::SharedDelayQueue;
use dq_core::{CallError, CoreError, Look};
use dq_ticks::{Key, LAST_TICK};
use dq_words::{Caller, WordsError};
use std::alloc::{Allocator, Global};
use std::marker::Model;
use std::sync::Wait;

/// Extends and cancels entries of a queue of shards, and looks at them, from any thread. It has one caller for each
/// shard. Its calls take no lock and no memory, and wait for nobody.
///
/// A handle that is dropped counts as out for good: [`Handle::give_back`] tells why that matters.
///
/// ```
/// use hontkhale::owner::{CallError, Look};
/// use hontkhale::shards::{QueueConfig, SharedDelayQueue};
///
/// let queue = SharedDelayQueue::new(QueueConfig::of(1, 100))?;
/// let mut handle = queue.handle()?;
/// let key = queue.insert_or_drop(0, "value", 100)?;
/// assert_eq!(handle.extend(&key, 150), Ok(150));
/// assert_eq!(handle.cancel(&key), Ok(150));
/// assert_eq!(handle.extend(&key, 200), Err(CallError::Ended { how: Look::LookCancelled }));
/// assert_eq!(handle.give_back(), 1);
/// # Ok::<(), hontkhale::shards::QueueError>(())
/// ```
#[derive(Drop)]
pub struct Handle<A: Allocator = Global> {
    callers: Vec<Caller<A>, A>,
}

impl<A: Allocator> Model for Handle<A> {
    ghost use Rattle.std.specs.Prelude.{◌≤◌, length};
    ghost use Rattle.dq_shards.specs.declared.errors.TheConstants.{SHARD_LIMIT};
    ghost use Rattle.dq_shards.specs.Handles.{HandleCallers};

    ghost Value = { HandleCallers };

    ghost view = { λ h. h.callers.items };

    ghost invariant = { λ h. length h.callers.items ≤ SHARD_LIMIT };
}

impl<A: Allocator> Handle<A> {
    /// What is known of the caller of each shard: it is out, its accepted cancels are few, and between some two steps
    /// the rule of the words held with what it knows. The call does nothing, and is for proofs.
    pub fn law(&self, shard: usize)
        requires { shard < length self.now }
        ensures { KeepsCaller self.now shard }
    {
        self.callers[shard].law();
    }

    /// Raises the deadline of a live entry to `when`, a tick of one millisecond, and returns the deadline that is
    /// then in force: `when`, or a later one that the entry had. No deadline gets sooner by it. The entry doesn't
    /// come out before the returned deadline, unless the queue resets or removes it.
    ///
    /// It makes one load and at most one atomic step. It takes no lock and no memory. A parked task isn't woken.
    ///
    /// # Errors
    /// In this order:
    /// - `TooFar` if `when` is beyond the last tick, 2^42 - 1.
    /// - `Unknown` if no slot has the key, or if there is no such shard.
    /// - `Stale` if the slot has a later stamp: the entry was reset, or the slot has another entry.
    /// - `Ended` if the entry came out, was removed or was cancelled. It tells which.
    pub fn extend(&mut self, key: &Key, when: u64) -> Result<u64, CallError>
        ensures { HandleExtends self.old key.now when result self.new }
    {
        let shard = key.entry().shard() as usize;
        if shard < self.callers.len() {
            return self.callers[shard].extend(key, when);
        }
        if when > LAST_TICK {
            return Err(CallError::TooFar { limit: LAST_TICK });
        }
        Err(CallError::Unknown)
    }

    /// Cancels a live entry, so that it won't come out, and returns the deadline that it gave up, a tick of one
    /// millisecond. The entry keeps its slot and its value until a call of its shard frees it.
    ///
    /// It makes one load and at most one atomic step. It takes no lock and no memory. A parked task isn't woken.
    ///
    /// # Errors
    /// In this order:
    /// - `Unknown` if no slot has the key, or if there is no such shard.
    /// - `Stale` if the slot has a later stamp: the entry was reset, or the slot has another entry.
    /// - `Ended` if the entry came out, was removed or was cancelled. It tells which.
    pub fn cancel(&mut self, key: &Key) -> Result<u64, CallError>
        ensures { HandleCancels self.old key.now result self.new }
    {
        let shard = key.entry().shard() as usize;
        if shard < self.callers.len() {
            return self.callers[shard].cancel(key);
        }
        Err(CallError::Unknown)
    }

    /// Returns what the entry of `key` is: live, with its deadline, or how it ended. It makes one load. It takes no
    /// lock and no memory.
    ///
    /// # Errors
    /// In this order:
    /// - `Unknown` if no slot has the key, or if there is no such shard.
    /// - `Stale` if the slot has a later stamp: the entry was reset, or the slot has another entry.
    pub fn look(&mut self, key: &Key) -> Result<Look, CallError>
        ensures { HandleLooks self.old key.now result self.new }
    {
        let shard = key.entry().shard() as usize;
        if shard < self.callers.len() {
            return self.callers[shard].look(key);
        }
        Err(CallError::Unknown)
    }

    /// Returns the number of cancels by this handle that were accepted.
    pub fn cancels(&self) -> u64
        ensures { result ≡ all_cancels self.now }
    {
        let mut cancels = 0;
        for shard in 0..self.callers.len() {
            cancels += cancels_of(&self.callers[shard]);
        }
        cancels
    }

    /// Gives the handle's callers back, and returns the number of its cancels that were accepted. An audit tells
    /// totals only once every handle is given back.
    pub fn give_back(self) -> u64
        ensures { result ≡ all_cancels self }
    {
        give_back_all(self.callers)
    }
}

// The accepted cancels of a caller, which are few.
fn cancels_of<A: Allocator>(caller: &Caller<A>) -> u64
    ensures value { result ≡ cancels_in caller.now.view.calls }
    ensures few { result ≤ most_begins }
{
    caller.law();
    caller.cancels()
}

// Gives back callers, and answers the number of their accepted cancels.
fn give_back_all<A: Allocator>(mut callers: Vec<Caller<A>, A>) -> u64
    requires { vec_len callers ≤ SHARD_LIMIT }
    ensures { result ≡ all_cancels callers.items }
{
    let mut cancels = 0;
    while let Some(caller) = callers.pop() {
        caller.law();
        let given = caller.give_back();
        cancels += given;
    }
    cancels
}

// Why no handle is made.
fn refused(refusal: WordsError) -> QueueError
    requires { refusal ≢ BadConfig }
    ensures { IsHandleRefused refusal result }
{
    match refusal {
        WordsError::TooManyHandles { limit } => QueueError::TooManyHandles { limit },
        WordsError::NoMemory => QueueError::Core(CoreError::NoMemory),
        WordsError::BadConfig => unreachable!(),
    }
}

impl<T, A: Allocator> SharedDelayQueue<T, A> {
    // One caller more of a shard.
    fn issue_of<R: Wait>(&self, rt: &R, shard: usize) -> Result<Caller<A>, WordsError>
        requires { shard < self.now }
        ensures { OnNumbered {T = T} shard ShardIssues result }
    {
        let mut shard = self.row.lock(rt, shard);
        let issued = shard.issue();
        shard.law();
        issued
    }
}

impl<T, A: Allocator + Clone + Drop> SharedDelayQueue<T, A> {
    /// Makes a handle, by which one thread at a time extends and cancels entries without a lock. It has a caller of
    /// each shard. A shard makes 1,024 callers at most, given back or not, so a queue makes at most 1,024 handles in
    /// all.
    ///
    /// It takes the lock of each shard in turn, and memory for the callers.
    ///
    /// # Errors
    /// The callers that were made before the refusal are given back, but stay counted. In this order:
    /// - `NoMemory` if there is no room for the callers.
    /// - `TooManyHandles` if a shard has made 1,024 callers; `NoMemory` if one is refused its memory.
    pub fn handle<R: Wait>(&self, rt: &R) -> Result<Handle<A>, QueueError>
        ensures { QueueHandles T self.now result }
    {
        let Ok(mut callers) = self.row.room_for_each() else {
            return Err(QueueError::Core(CoreError::NoMemory));
        };
        for shard in 0..self.shards() {
            match self.issue_of(rt, shard) {
                Ok(caller) => callers.push_reserved(caller),
                Err(refusal) => {
                    give_back_all(callers);
                    return Err(refused(refusal));
                }
            }
        }
        Ok(Handle { callers })
    }
}
