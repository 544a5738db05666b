//! Streams over a queue of letters, the ticks that they are told, and the tasks that poll them. A test makes what it
//! owns and lends it to what it shows: an error on the way then drops nothing, which is much of what there is to
//! prove.

use super::same;
use dq_shards::{QueueConfig, QueueError, SharedDelayQueue};
use dq_stream::{ExpiredStream, StreamFault, TickSource};
use dq_ticks::Key;
use futures::StreamExt;
use futures::task::Poll;
use futures::test::MockTask;
use std::alloc::{AllocGlobal, Allocator, Global};
use std::cell::Cell;
use std::process::Abort;
use std::random::RandomSource;
use std::sync::Wait;
use std::test::Fail;

pub type Letters = SharedDelayQueue<char>;

/// A queue of letters in so many shards.
pub fn letters(alloc: Global, shards: usize) -> Result<Letters, QueueError> {
    SharedDelayQueue::new(alloc, QueueConfig::of(shards, 8))
}

/// Puts a letter in, and answers its key.
pub fn put(
    rt: &impl Wait,
    queue: &Letters,
    shard: u64,
    value: char,
    when: u64,
) -> Result<Key, QueueError> {
    queue.insert_or_drop(rt, shard, value, when)
}

/// Puts letters in, each with its deadline.
pub fn fill(
    rt: &impl Wait,
    queue: &Letters,
    shard: u64,
    entries: &[(char, u64)],
) -> Result<(), QueueError> {
    for (value, when) in entries {
        put(rt, queue, shard, *value, *when)?;
    }
    Ok(())
}

/// A queue of one shard with these letters in it, and a task.
pub fn letters_and_task<R>(rt: &R, entries: &[(char, u64)]) -> Result<(Letters, Task), Fail>
where
    R: AllocGlobal + RandomSource + Wait,
{
    let queue = letters(rt.alloc(), 1)?;
    fill(rt, &queue, 0, entries)?;
    let task = Task::new(rt)?;
    Ok((queue, task))
}

/// The tick that streams are told, and how often they asked for it.
#[derive(Drop)]
pub struct Told {
    tick: Cell<u64>,
    asked: Cell<usize>,
}

impl Told {
    pub fn at(tick: u64) -> Told {
        Told {
            tick: Cell::new(tick),
            asked: Cell::new(0),
        }
    }

    /// How often it was asked for.
    pub fn asked(&self) -> usize {
        self.asked.get()
    }
}

/// Tells the tick that is set.
#[derive(Drop)]
pub struct TickOf<'t>(pub &'t Told);

impl TickSource for TickOf<'_> {
    fn now(&mut self) -> u64 {
        let told = self.0;
        told.asked.set(told.asked.get().saturating_add(1));
        told.tick.get()
    }
}

/// A stream of a shard.
pub fn stream_of<'q, S: TickSource, R: Wait>(
    rt: &'q R,
    queue: &'q Letters,
    shard: usize,
    source: S,
) -> Result<ExpiredStream<'q, char, S, R>, QueueError> {
    match ExpiredStream::new(rt, queue, shard, source) {
        Ok(stream) => Ok(stream),
        Err((error, _)) => Err(error),
    }
}

/// What a poll of a stream answered.
#[derive(Clone, Copy, Debug, PartialEq, Eq)]
pub enum Seen {
    Waits,
    /// A letter came out: its value, its deadline and the greatest tick that was noted.
    Out(char, u64, u64),
    Fault(StreamFault),
    Ends,
}

/// A task that polls streams, and the tick that its own streams are told.
#[derive(Drop)]
pub struct Task {
    mock: MockTask,
    pub told: Told,
}

impl Task {
    pub fn new<R: RandomSource + AllocGlobal>(rt: &R) -> Result<Task, Fail> {
        Ok(Task {
            mock: MockTask::new(rt)?,
            told: Told::at(0),
        })
    }

    /// A stream of its own.
    pub fn stream<'q, R: Wait>(
        &'q self,
        rt: &'q R,
        queue: &'q Letters,
        shard: usize,
    ) -> Result<ExpiredStream<'q, char, TickOf<'q>, R>, QueueError> {
        stream_of(rt, queue, shard, TickOf(&self.told))
    }

    /// Polls a stream once, at this tick where it is its own.
    pub fn poll<S: TickSource, R: Wait, A: Allocator>(
        &self,
        stream: &mut ExpiredStream<'_, char, S, R, A>,
        tick: u64,
    ) -> Seen {
        self.told.tick.set(tick);
        match self.mock.poll(&mut stream.next()) {
            Poll::Pending => Seen::Waits,
            Poll::Ready(None) => Seen::Ends,
            Poll::Ready(Some(Err(fault))) => Seen::Fault(fault),
            Poll::Ready(Some(Ok(expired))) => {
                Seen::Out(expired.value, expired.deadline, expired.noted)
            }
        }
    }

    /// Whether it was woken since it was last polled or asked.
    pub fn was_woken(&self) -> bool {
        let was_woken = self.mock.is_woken();
        self.mock.enter(|_| ());
        was_woken
    }

    /// Fails unless a poll of a stream, at this tick where it is its own, answers this.
    pub fn sees<S: TickSource, R: Abort + Wait, A: Allocator>(
        &self,
        rt: &R,
        stream: &mut ExpiredStream<'_, char, S, R, A>,
        tick: u64,
        seen: Seen,
    ) {
        same(rt, tick, self.poll(stream, tick), seen);
    }
}
