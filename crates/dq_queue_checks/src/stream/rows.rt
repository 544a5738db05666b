//! The worked rows of a stream.

use super::same;
use super::steps::Step::{Asked, Parked, Poll, Put, Ring, Woken};
use super::steps::{Change, change_while_parked, play, play_over};
use super::streams::Seen::{Ends, Fault, Out, Waits};
use super::streams::{Letters, Task, TickOf, Told, fill, letters, letters_and_task, stream_of};
use dq_core::Expired;
use dq_shards::ShardState;
use dq_stream::{StreamFault, park_with};
use futures::StreamExt;
use futures::executor::block_on;
use std::alloc::AllocGlobal;
use std::process::Abort;
use std::random::RandomSource;
use std::sync::Wait;
use std::test::Fail;

// Ended for now it goes on, up to a tick that is refused. After that it gives not even what is due.
// promise: shards.change-wakes stream.poll-next-does
#[test]
fn stream_by_hand(rt: HostRuntime) -> Result<(), Fail> {
    play_over(
        &rt,
        &[('v', 10)],
        &[
            Poll(0, Waits),
            Parked(Some(10)),
            Put('w', 5),
            Woken(true),
            Woken(false),
            Parked(None),
            Poll(10, Out('w', 5, 10)),
            Poll(10, Out('v', 10, 10)),
            Poll(10, Ends),
            Put('x', 20),
            Poll(20, Out('x', 20, 20)),
            Poll(
                4398046511104,
                Fault(StreamFault::TickTooLarge {
                    limit: 4398046511103,
                }),
            ),
            Asked(6),
            Put('y', 20),
            Poll(20, Ends),
            Asked(6),
        ],
    )
}

// promise: shards.change-wakes stream.poller-taken
#[test]
fn ring_wakes_once(rt: HostRuntime) -> Result<(), Fail> {
    play_over(
        &rt,
        &[('v', 10)],
        &[
            Poll(0, Waits),
            Parked(Some(10)),
            Ring(9, false),
            Ring(10, true),
            Parked(None),
            Ring(10, false),
        ],
    )
}

// promise: shards.change-wakes stream.poller-taken
#[test]
fn parked_then_removed(rt: HostRuntime) -> Result<(), Fail> {
    let (queue, task) = letters_and_task(&rt, &[])?;
    change_while_parked(
        &rt,
        &queue,
        &task,
        Change::Remove,
        &[
            Woken(true),
            Woken(false),
            Parked(None),
            Poll(0, Ends),
            Woken(false),
        ],
    )
}

fn refuses_no_waker(rt: &impl Abort, shard: &mut ShardState<char>) -> Result<(), Fail> {
    let Some(next) = shard.next_wake() else {
        return Err(Fail::new("no wake"));
    };
    let refused = Err(StreamFault::NoMemory);
    same(rt, "park", park_with(shard, next, None), refused);
    Ok(())
}

// The shard is held in here alone.
fn parks_no_waker<R: Abort + Wait>(rt: &R, queue: &Letters) -> Result<(), Fail> {
    let mut shard = queue.enter(rt, 0)?;
    refuses_no_waker(rt, &mut shard)
}

fn refuses_then_parks<R: Abort + Wait>(rt: &R, queue: &Letters, task: &Task) -> Result<(), Fail> {
    parks_no_waker(rt, queue)?;
    same(rt, "parked", queue.parked(rt, 0), Ok(None));
    play(rt, queue, task, &[Poll(0, Waits), Parked(Some(10))])
}

// promise: stream.park-with-parks
#[test]
fn waker_copy_refused(rt: HostRuntime) -> Result<(), Fail> {
    let (queue, task) = letters_and_task(&rt, &[('v', 10)])?;
    refuses_then_parks(&rt, &queue, &task)
}

type Items = Vec<Result<Expired<char>, StreamFault>>;

// All that a stream gives at a tick after the last deadline.
fn collected<R>(rt: &R, queue: &Letters, told: &Told) -> Result<Items, Fail>
where
    R: AllocGlobal + RandomSource + Wait,
{
    let stream = stream_of(rt, queue, 0, TickOf(told))?;
    Ok(block_on(rt, stream.collect(rt.alloc()))??)
}

fn deadline_of(item: &Result<Expired<char>, StreamFault>) -> Result<u64, StreamFault> {
    match item {
        Ok(expired) => Ok(expired.deadline),
        Err(fault) => Err(*fault),
    }
}

fn have_deadlines(
    rt: &impl Abort,
    items: &[Result<Expired<char>, StreamFault>],
    deadlines: &[u64],
) {
    same(rt, "how many", items.len(), deadlines.len());
    for (item, deadline) in items.iter().zip(deadlines) {
        same(rt, *deadline, deadline_of(item), Ok(*deadline));
    }
}

fn gives_three<R>(rt: &R, queue: &Letters) -> Result<(), Fail>
where
    R: Abort + AllocGlobal + RandomSource + Wait,
{
    fill(rt, queue, 0, &[('a', 5), ('b', 70), ('c', 5000)])?;
    let items = collected(rt, queue, &Told::at(10000))?;
    have_deadlines(rt, &items, &[5, 70, 5000]);
    Ok(())
}

// promise: stream.order-end
#[test]
fn three_in_order_collected(rt: HostRuntime) -> Result<(), Fail> {
    let queue = letters(rt.alloc(), 1)?;
    gives_three(&rt, &queue)
}
