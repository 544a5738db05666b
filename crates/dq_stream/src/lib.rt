//! The expired entries of a shard as a stream, polled by hand or by an executor.
//!
//! A stream waits in its shard, as the shard's parked poller. The shard wakes it where its next wake comes sooner or is
//! gone. Whoever keeps the time rings the shard, at each tick or at the ticks that matter: a stream that nobody rings
//! sleeps until the next wake changes. A shard parks one poller, so a second stream on it puts the first to sleep.
//!
#![tactic(auto)]

pub mod endings;

use dq_shards::SharedDelayQueue;
pub use dq_shards::parking::{
    MillisecondTicks, ShardStream, StreamFault, TickSource, Whole, park_with,
};
use std::alloc::Global;
use std::num::NonZeroU32;

/// The entries that expire in one shard of a [`SharedDelayQueue`], at the ticks of a source.
///
/// Each poll takes the shard's lock once, and returns one entry that is due. If the shard holds no entry, it returns
/// `Ready(None)`, and later polls go on. Else it parks its task in the shard until the shard's next wake, one task a
/// shard. The shard wakes the task if the next wake comes sooner or goes away, and [`SharedDelayQueue::ring`] wakes
/// it at a tick. A stream may be polled again at any time. If it is dropped, its task stays parked until then.
///
/// After a tick that is refused the stream has ended: its polls take no lock, and don't ask the source.
///
/// ```
/// use hontkhale::shards::{QueueConfig, SharedDelayQueue};
/// use hontkhale::streams::{ExpiredStream, MillisecondTicks};
/// use std::future::poll_fn;
///
/// async fn first(queue: &SharedDelayQueue<String>) -> Option<String> {
///     let mut stream = ExpiredStream::new(queue, 0, MillisecondTicks::new()).ok()?;
///     let expired = poll_fn(|cx| stream.poll_next(cx)).await?;
///     Some(expired.ok()?.value)
/// }
/// ```
pub type ExpiredStream<'q, T, S, R, A = Global> = ShardStream<'q, SharedDelayQueue<T, A>, S, R>;

/// An [`ExpiredStream`] whose polls make at most so many steps of their shard while they hold its lock.
///
/// ```
/// use hontkhale::shards::{QueueConfig, SharedDelayQueue};
/// use hontkhale::streams::{ExpiredStream, MillisecondTicks};
/// use std::future::poll_fn;
/// use std::num::NonZeroU32;
///
/// async fn first(queue: &SharedDelayQueue<String>) -> Option<String> {
///     let stream = ExpiredStream::new(queue, 0, MillisecondTicks::new()).ok()?;
///     let mut stream = stream.paced(NonZeroU32::new(64)?);
///     let expired = poll_fn(|cx| stream.poll_next(cx)).await?;
///     Some(expired.ok()?.value)
/// }
/// ```
pub type PacedStream<'q, T, S, R, A = Global> = ShardStream<
    'q,
    SharedDelayQueue<T, A>,
    S,
    R,
    NonZeroU32,
>;
