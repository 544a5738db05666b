//! What waits for a shard: where a stream's ticks come from, why it gives no entry, the poller that is
//! parked in a shard, the shard's queue with it, and its registration with the context of its task; and how many
//! threads wait for the shard's lock.

mod parked;
mod row;
mod sleeping;
mod source;
mod streaming;
mod watched;

pub use parked::{Parked, PendingWake, let_sleep, ring, take};
pub use row::{Row, Shard, unlock};
pub use sleeping::{Polled, Sleeps, StreamFault, park_with};
pub use source::{MillisecondTicks, TickSource};
pub use streaming::{ShardStream, Shards, Whole, poll_place};
pub use watched::{WatchedCore, keep_or_leave};
