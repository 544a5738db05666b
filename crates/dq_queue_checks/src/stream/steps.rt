//! Tests of one stream of a shard as tables: each row is a call, and what it has to answer.

use super::same;
use super::streams::{Letters, Seen, Task, TickOf, fill, letters_and_task, put};
use dq_shards::{Handle, QueueError};
use dq_stream::ExpiredStream;
use dq_ticks::Key;
use std::alloc::AllocGlobal;
use std::process::Abort;
use std::random::RandomSource;
use std::sync::Wait;
use std::test::Fail;

/// A call, and what it answers.
#[derive(Clone, Copy)]
pub enum Step {
    /// The stream is polled, at this tick where it asks.
    Poll(u64, Seen),
    /// A letter is put in, with its deadline.
    Put(char, u64),
    /// The shard is rung at a tick, which wakes the task or wakes none.
    Ring(u64, bool),
    /// A poller is parked until this tick, or none is.
    Parked(Option<u64>),
    /// Whether the task was woken since it was last polled or asked.
    Woken(bool),
    /// How often the stream has asked for the tick.
    Asked(usize),
}

// The step at that number of a table answers as it has to.
fn answers<R: Abort + Wait>(
    rt: &R,
    queue: &Letters,
    task: &Task,
    stream: &mut ExpiredStream<'_, char, TickOf<'_>, R>,
    number: usize,
    step: Step,
) {
    match step {
        Step::Poll(tick, seen) => same(rt, number, task.poll(stream, tick), seen),
        Step::Put(value, when) => {
            same(rt, number, fill(rt, queue, 0, &[(value, when)]), Ok(()));
        }
        Step::Ring(tick, woken) => {
            let rung = (queue.ring(rt, 0, tick), task.was_woken());
            same(rt, number, rung, (Ok(woken), woken));
        }
        Step::Parked(until) => same(rt, number, queue.parked(rt, 0), Ok(until)),
        Step::Woken(woken) => same(rt, number, task.was_woken(), woken),
        Step::Asked(times) => same(rt, number, task.told.asked(), times),
    }
}

/// Each step of a table answers as it has to, by a stream of shard 0.
pub fn each_answers<R: Abort + Wait>(
    rt: &R,
    queue: &Letters,
    task: &Task,
    stream: &mut ExpiredStream<'_, char, TickOf<'_>, R>,
    steps: &[Step],
) {
    for (number, step) in steps.iter().enumerate() {
        answers(rt, queue, task, stream, number, *step);
    }
}

/// Likewise, by a new stream.
pub fn play<R: Abort + Wait>(
    rt: &R,
    queue: &Letters,
    task: &Task,
    steps: &[Step],
) -> Result<(), Fail> {
    let mut stream = task.stream(rt, queue, 0)?;
    each_answers(rt, queue, task, &mut stream, steps);
    Ok(())
}

/// Likewise, over a new queue with these letters in it.
pub fn play_over<R>(rt: &R, entries: &[(char, u64)], steps: &[Step]) -> Result<(), Fail>
where
    R: Abort + AllocGlobal + RandomSource + Wait,
{
    let (queue, task) = letters_and_task(rt, entries)?;
    play(rt, &queue, &task, steps)
}

/// What becomes of a letter while a task is parked for it.
#[derive(Drop)]
pub enum Change<'h> {
    Extend(&'h mut Handle, u64),
    Cancel(&'h mut Handle),
    Remove,
}

fn removed(rt: &impl Wait, queue: &Letters, key: &Key) -> Result<char, QueueError> {
    Ok(queue.remove(rt, &key.entry())?.value)
}

// Makes the change, of a letter 'v' at tick 10.
fn make<R: Abort + Wait>(rt: &R, queue: &Letters, key: &Key, change: Change<'_>) {
    match change {
        Change::Extend(handle, when) => same(rt, "extend", handle.extend(key, when), Ok(when)),
        Change::Cancel(handle) => same(rt, "cancel", handle.cancel(key), Ok(10)),
        Change::Remove => same(rt, "remove", removed(rt, queue, key), Ok('v')),
    }
}

/// Puts a letter in, parks a task for it, makes the change, and takes the steps behind it.
pub fn change_while_parked<R: Abort + Wait>(
    rt: &R,
    queue: &Letters,
    task: &Task,
    change: Change<'_>,
    steps: &[Step],
) -> Result<(), Fail> {
    let key = put(rt, queue, 0, 'v', 10)?;
    let mut stream = task.stream(rt, queue, 0)?;
    let parks = &[Step::Poll(0, Seen::Waits), Step::Parked(Some(10))];
    each_answers(rt, queue, task, &mut stream, parks);
    make(rt, queue, &key, change);
    each_answers(rt, queue, task, &mut stream, steps);
    Ok(())
}
