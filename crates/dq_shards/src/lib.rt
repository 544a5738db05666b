//! Delay queues behind locks, one a shard, whose entries are extended and cancelled without them.
#![tactic(auto)]

mod audit;
mod calls;
mod drops;
pub mod endings;
mod errors;
mod handle;
pub mod parking;
mod queue;
mod readers;
mod shard;
mod state;

pub use audit::{HandlesOut, Totals};
pub use errors::{BadQueueNumber, QueueConfig, QueueError, SHARD_LIMIT};
pub use handle::Handle;
pub use parking::Parked;
pub use queue::SharedDelayQueue;
pub use state::ShardState;
