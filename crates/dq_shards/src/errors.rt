//! Why a call of a queue of shards is refused, and what a queue is made by.
ghost use Rattle.std.specs.Prelude.{◌≡◌, MatchResult};
ghost use Rattle.dq_ticks.specs.declared.TheConstants.{LAST_STAMP};
ghost use Rattle.dq_shards.specs.Answers.{IsQueueConfig, IsBadQueueNumber};

use dq_core::CoreError;
use dq_ticks::{CAPACITY_LIMIT, LAST_STAMP};
use thiserror::Error;

/// The most shards of a queue.
pub const SHARD_LIMIT: usize = 64;

/// The sizes of a queue of shards.
#[derive(Clone, Copy, Debug, PartialEq, Eq)]
pub struct QueueConfig {
    /// The number of shards, from 1 to [`SHARD_LIMIT`].
    pub shards: usize,
    /// The number of slots of each shard, from 1 to [`dq_ticks::CAPACITY_LIMIT`].
    pub capacity: usize,
    /// The stamp after which a slot is worn, from 1 to [`LAST_STAMP`].
    pub last_stamp: u32,
}

impl QueueConfig {
    /// `shards` shards of `capacity` slots each, and the most stamps a slot, 1,048,575.
    pub const fn of(shards: usize, capacity: usize) -> QueueConfig
        ensures { result
            ≡ record { shards = shards; capacity = capacity; last_stamp = LAST_STAMP } }
    {
        QueueConfig {
            shards,
            capacity,
            last_stamp: LAST_STAMP,
        }
    }

    /// Whether a queue can be made by these numbers. `BadConfig` doesn't tell which number is bad, so call this first
    /// if the numbers come from outside.
    ///
    /// # Errors
    /// The first number that is out of its range: the shards, the capacity, and then the last stamp.
    pub fn check(&self) -> Result<(), BadQueueNumber>
        ensures { MatchResult result
            (λ _. IsQueueConfig self.now) (λ number. IsBadQueueNumber self.now number) }
    {
        if self.shards == 0 || self.shards > SHARD_LIMIT {
            return Err(BadQueueNumber::BadShards(self.shards));
        }
        if self.capacity == 0 || self.capacity > CAPACITY_LIMIT {
            return Err(BadQueueNumber::BadCapacity(self.capacity));
        }
        if self.last_stamp == 0 || self.last_stamp > LAST_STAMP {
            return Err(BadQueueNumber::BadLastStamp(self.last_stamp));
        }
        Ok(())
    }
}

/// Which number of a configuration is out of its range.
#[derive(Clone, Copy, Debug, PartialEq, Eq, Error)]
pub enum BadQueueNumber {
    /// The number of shards isn't 1 to [`SHARD_LIMIT`].
    #[error("the number of shards is {0}, and not 1 to {SHARD_LIMIT}")]
    BadShards(usize),
    /// The capacity isn't 1 to [`CAPACITY_LIMIT`].
    #[error("the capacity is {0}, and not 1 to {CAPACITY_LIMIT}")]
    BadCapacity(usize),
    /// The last stamp isn't 1 to [`LAST_STAMP`].
    #[error("the last stamp is {0}, and not 1 to {LAST_STAMP}")]
    BadLastStamp(u32),
}

/// Why a call of a queue of shards is refused.
#[derive(Clone, Copy, Debug, PartialEq, Eq, Error)]
pub enum QueueError {
    /// The shard's queue refused it.
    #[error("{0}")]
    Core(CoreError),
    /// The queue has no such shard.
    #[error("there is no such shard")]
    Unknown,
    /// A shard has issued as many callers as it may, given back or not.
    #[error("no more than {limit} handles are issued")]
    TooManyHandles {
        /// How many it may issue.
        limit: u64,
    },
}

impl From<CoreError> for QueueError {
    ghost use Rattle.std.specs.Prelude.{◌≡◌};
    ghost use Rattle.dq_shards.specs.declared.errors.QueueError.TheVariants.{Core};

    ghost from_gives = { λ error e. e ≡ Core error };

    fn from(error: CoreError) -> QueueError {
        QueueError::Core(error)
    }
}
