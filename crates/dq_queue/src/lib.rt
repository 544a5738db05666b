//! A delay queue that grows and shrinks, and that many threads share.
//!
//! A queue has a row of shards, each a [`dq_growing::SizedStore`] behind one lock. A call by name takes the lock of one
//! shard. Each shard has one history, for contracts: it has each call by name once.
#![tactic(auto)]

pub mod endings;
pub mod journal;
mod loans;
mod making;
mod queue;
mod shard;
mod words;

pub use loans::{Drained, FoldedDrained};
pub use making::{MakeError, numbered_core};
pub use queue::{GrowingQueue, QueueError};
pub use shard::{Caller, Rooms, Shard};
pub use words::{Promise, QueueWords};
