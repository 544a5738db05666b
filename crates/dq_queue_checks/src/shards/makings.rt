//! Which calls take memory, and that the others take none.

use super::same;
use dq_core::{CoreConfig, CoreError, DelayCore, Look, PlainQueue, Turn, VecWords};
use dq_shards::{Handle, QueueConfig, QueueError, SharedDelayQueue};
use dq_testing::RefusingHeap;
use dq_ticks::{Key, LAST_STAMP};
use dq_wheel::Wheel;
use dq_words::{Keeper, WordsError};
use linked_list_allocator::LocalHeap;
use std::alloc::{Allocator, Global};
use std::process::Abort;
use std::sync::Wait;
use std::test::Fail;

type Heap<'all> = RefusingHeap<&'all LocalHeap>;

// A queue of letters and a handle of it, whose memory is of one heap. Their calls are proved once for all heaps, which
// is quicker than for the refusing one alone.
type Letters<A> = SharedDelayQueue<char, A>;

type Hand<A> = Handle<A>;

fn makes_core(alloc: Global, capacity: usize) -> Result<bool, CoreError> {
    let config = CoreConfig {
        shard: 0,
        capacity,
        last_stamp: LAST_STAMP,
    };
    let words = VecWords::new(alloc, capacity)?;
    let core: Result<DelayCore<char, _>, _> = DelayCore::new(alloc, config, words);
    Ok(core.is_ok())
}

fn makes_caller(alloc: Global, capacity: usize) -> Result<bool, WordsError> {
    let mut keeper = Keeper::new(alloc, capacity)?;
    Ok(keeper.issue().is_ok())
}

fn makings(rt: &impl Abort, alloc: Global, capacity: usize) {
    let plain = PlainQueue::<char>::new(alloc, capacity).is_ok();
    same(rt, "wheel", Wheel::new(alloc, capacity).is_ok(), true);
    same(rt, "plain queue", plain, true);
    same(rt, "core", makes_core(alloc, capacity), Ok(true));
    same(rt, "caller", makes_caller(alloc, capacity), Ok(true));
}

fn issues<R: Abort + Wait>(rt: &R, queue: &SharedDelayQueue<char>) {
    let issued = queue.lend(rt, 0, |state| state.issue().is_ok());
    same(rt, "handle", queue.handle(rt).is_ok(), true);
    same(rt, "issue", issued, Ok(true));
}

// A making that always answers want of memory (always_no_memory), or a handle that is always one too many
// (handle_always_too_many), meets its contract. With memory each of these calls is accepted.
// promise: shards.memory-making
#[test]
fn every_making_has_memory(rt: HostRuntime) -> Result<(), Fail> {
    for capacity in &[1, 65536] {
        makings(&rt, rt.alloc(), *capacity);
    }
    for shards in &[1, 64] {
        issues(
            &rt,
            &SharedDelayQueue::new(rt.alloc(), QueueConfig::of(*shards, 4))?,
        );
    }
    Ok(())
}

// A queue of three shards and a handle of it.
fn made<A>(rt: &impl Wait, heap: A) -> Result<(Letters<A>, Hand<A>), QueueError>
where
    A: Allocator + Clone + Drop,
{
    let queue = SharedDelayQueue::new(heap, QueueConfig::of(3, 4))?;
    let hand = queue.handle(rt)?;
    Ok((queue, hand))
}

fn inserted<A: Allocator>(
    rt: &impl Wait,
    queue: &Letters<A>,
    shard: usize,
    value: char,
) -> Result<Key, QueueError> {
    match queue.insert(rt, shard as u64, value, 10) {
        Ok(key) => Ok(key),
        Err((error, _)) => Err(error),
    }
}

// What a poll answers: what came out, whether it waits for a later tick, or that nothing is linked.
#[derive(PartialEq, Debug, Drop)]
enum Answer {
    Out(char),
    Waits,
    Idles,
}

fn told(turn: Turn<char>) -> Answer {
    match turn {
        Turn::Out(expired) => Answer::Out(expired.value),
        Turn::Waiting { .. } => Answer::Waits,
        Turn::Idle => Answer::Idles,
    }
}

// Calls by the names of a full shard's entries: at the end the first is live until 6000, the second is cancelled, the
// third removed, and the fourth is due at 10.
fn calls_by_key<R: Abort + Wait, A: Allocator>(
    rt: &R,
    queue: &Letters<A>,
    hand: &mut Hand<A>,
    shard: usize,
) -> Result<(), QueueError> {
    let first = inserted(rt, queue, shard, 'a')?.entry();
    let second = inserted(rt, queue, shard, 'b')?;
    let third = inserted(rt, queue, shard, 'c')?.entry();
    let _fourth = inserted(rt, queue, shard, 'd')?;
    let full = QueueError::Core(CoreError::Full { linked: 4, worn: 0 });
    same(rt, "fifth", inserted(rt, queue, shard, 'e'), Err(full));
    let renewed = queue.reset(rt, &first, 5000)?;
    same(rt, "extend", hand.extend(&renewed, 6000), Ok(6000));
    same(rt, "look", hand.look(&renewed), Ok(Look::StillLive(6000)));
    same(rt, "cancel", hand.cancel(&second), Ok(10));
    same(rt, "remove", queue.remove(rt, &third)?.value, 'c');
    same(rt, "deadline", queue.deadline(rt, &first), Ok(6000));
    Ok(())
}

fn polls<R: Abort + Wait, A: Allocator>(rt: &R, queue: &Letters<A>, shard: usize) {
    let rows: &[(u64, Answer)] = &[
        (10, Answer::Out('d')),
        (10, Answer::Waits),
        (5000, Answer::Waits),
        (6000, Answer::Out('a')),
    ];
    for (tick, expected) in rows {
        let answer = queue.poll(rt, shard, *tick).map(told);
        same(rt, tick, answer.as_ref(), Ok(expected));
    }
}

// Calls by the name of the shard whose entries were so left.
fn calls_by_shard<R: Abort + Wait, A: Allocator>(
    rt: &R,
    queue: &Letters<A>,
    shard: usize,
) -> Result<(), QueueError> {
    same(rt, "next_wake", queue.next_wake(rt, shard)?.is_some(), true);
    same(rt, "tally", queue.tally(rt, shard)?.inserted, 4);
    same(rt, "parked", queue.parked(rt, shard), Ok(None));
    same(rt, "ring", queue.ring(rt, shard, 10), Ok(false));
    same(rt, "sweep", queue.sweep(rt, shard), Ok(1));
    polls(rt, queue, shard);
    inserted(rt, queue, shard, 'f')?;
    same(rt, "clear", queue.clear(rt, shard), Ok(1));
    same(rt, "issue", issued(rt, queue, shard), Ok(Ok(0)));
    Ok(())
}

// Issues a caller, and gives it back.
fn issued<A: Allocator>(
    rt: &impl Wait,
    queue: &Letters<A>,
    shard: usize,
) -> Result<Result<u64, WordsError>, QueueError> {
    let caller = queue.enter(rt, shard)?.issue();
    Ok(caller.map(|caller| caller.give_back()))
}

fn every_call<R: Abort + Wait, A: Allocator>(rt: &R, queue: &Letters<A>, hand: &mut Hand<A>) {
    for shard in 0..queue.shards() {
        same(rt, shard, calls_by_key(rt, queue, hand, shard), Ok(()));
        same(rt, shard, calls_by_shard(rt, queue, shard), Ok(()));
    }
}

// Whether the makings have memory of that heap. Then each other call is accepted, and else they answer want of memory.
fn goes_well<R, A>(rt: &R, heap: A) -> bool
where
    R: Abort + Wait,
    A: Allocator + Clone + Drop,
{
    match made(rt, heap) {
        Ok((queue, mut hand)) => {
            every_call(rt, &queue, &mut hand);
            same(rt, "give_back", hand.give_back(), 3);
            same(rt, "audit", queue.audit(rt).is_ok(), true);
            true
        }
        Err(error) => {
            same(rt, "makings", error, QueueError::Core(CoreError::NoMemory));
            false
        }
    }
}

// The same over a heap that grants so many allocations, none of which is left in use.
fn goes_well_with<R: Abort + Wait>(rt: &R, all: &LocalHeap, grants: u64) -> bool {
    let heap = RefusingHeap::new(all, grants);
    let is_well = goes_well(rt, &heap);
    same(rt, grants, heap.has_refused(), !is_well);
    same(rt, grants, all.used(), 0);
    is_well
}

// How many allocations the makings take.
fn grants_of_the_makings<R: Abort + Wait>(rt: &R, alloc: Global) -> Result<Option<u64>, Fail> {
    for grants in 0..100u64 {
        if goes_well_with(rt, &LocalHeap::new(alloc, 1 << 16)?, grants) {
            return Ok(Some(grants));
        }
    }
    Ok(None)
}

// Where the heap refuses whatever comes behind the makings' own allocations, each other call is accepted.
// promise: shards.memory-making
#[test]
fn other_calls_take_no_memory(rt: HostRuntime) -> Result<(), Fail> {
    // The rows of the shards and of their waiters; of each shard its words (4), slots (5) and wheel (1); a handle's
    // row.
    let grants = 2 + 3 * 10 + 1;
    same(
        &rt,
        "grants",
        grants_of_the_makings(&rt, rt.alloc())?,
        Some(grants),
    );
    Ok(())
}
