//! Why a call of the queue is refused, and what a queue is made by.
ghost use Rattle.std.specs.Prelude.{◌≡◌};
ghost use Rattle.dq_core.specs.declared.errors.CoreError.TheVariants.{NoMemory};

use dq_ticks::{CAPACITY_LIMIT, LAST_STAMP};
use std::alloc::AllocError;
use thiserror::Error;

/// Why a call of a queue is refused.
#[derive(Clone, Copy, Debug, PartialEq, Eq, Error)]
pub enum CoreError {
    /// The deadline is beyond the last tick.
    #[error("the deadline is beyond the last tick, {limit}")]
    TooFar {
        /// The last tick.
        limit: u64,
    },
    /// No slot is free.
    #[error("the queue is full: {linked} entries are linked and {worn} slots are worn")]
    Full {
        /// The entries that are linked.
        linked: usize,
        /// The slots that hold nothing and have no stamp left.
        worn: usize,
    },
    /// No entry is linked with that shard, index and birth stamp.
    #[error("no such entry is linked")]
    Missing,
    /// The entry is linked, but a caller cancelled it.
    #[error("the entry was cancelled")]
    WasCancelled,
    /// The entry's slot has no stamp left for another key.
    #[error("the entry's slot has no stamp left")]
    Worn,
    /// The tick is beyond the last tick.
    #[error("the tick is beyond the last tick, {limit}")]
    TickTooLarge {
        /// The last tick.
        limit: u64,
    },
    /// The capacity or the last stamp is out of its range, or the words are not as many as the slots.
    #[error("the capacity isn't 1 to {CAPACITY_LIMIT}, the last stamp 1 to {LAST_STAMP}, or the words not one a slot")]
    BadConfig,
    /// Memory was refused.
    #[error("out of memory")]
    NoMemory,
}

/// Why no entry is reaped.
#[derive(Clone, Copy, Debug, PartialEq, Eq, Error)]
pub enum ReapError {
    /// No entry is linked with that shard, index and birth stamp.
    #[error("no such entry is linked")]
    Missing,
    /// The entry is live, and stays.
    #[error("the entry is live")]
    Live,
}

/// Which number of a configuration is out of its range.
#[derive(Clone, Copy, Debug, PartialEq, Eq, Error)]
pub enum BadNumber {
    /// The capacity isn't 1 to [`CAPACITY_LIMIT`].
    #[error("the capacity is {0}, and not 1 to {CAPACITY_LIMIT}")]
    BadCapacity(usize),
    /// The last stamp isn't 1 to [`LAST_STAMP`].
    #[error("the last stamp is {0}, and not 1 to {LAST_STAMP}")]
    BadLastStamp(u32),
}

impl From<AllocError> for CoreError {
    ghost from_gives = { λ _ e. e ≡ NoMemory };

    fn from(_e: AllocError) -> CoreError {
        CoreError::NoMemory
    }
}

/// What a queue of one owner is made by.
#[derive(Clone, Copy, Debug, PartialEq, Eq)]
pub struct CoreConfig {
    /// The shard's number, which its keys carry.
    pub shard: u32,
    /// The number of slots, from 1 to [`CAPACITY_LIMIT`].
    pub capacity: usize,
    /// The stamp after which a slot is worn, from 1 to [`LAST_STAMP`].
    pub last_stamp: u32,
}
