//! The makings alone take memory: every other call answers as it should where none is left.

use super::same;
use dq_core::{CoreConfig, CoreError, DelayCore, Look, Turn, VecWords};
use dq_testing::RefusingHeap;
use dq_ticks::{EntryId, Key, LAST_STAMP};
use linked_list_allocator::LocalHeap;
use std::alloc::Allocator;
use std::process::Abort;
use std::test::Fail;

// A queue all of whose memory is of one heap. Its calls are proved once for all heaps, which is quicker than for the
// refusing one alone.
type Heaped<A> = DelayCore<char, VecWords<A>, A>;

fn inserted<A: Allocator>(queue: &mut Heaped<A>, value: char, when: u64) -> Result<Key, CoreError> {
    queue.insert(value, when).map_err(|refused| refused.0)
}

fn extends<A: Allocator>(rt: &impl Abort, queue: &mut Heaped<A>, key: &Key, when: u64) {
    same(rt, "extend", queue.extend(key, when), Ok(when));
}

// An entry's deadline is told, by its key and by its name.
fn tells<A: Allocator>(rt: &impl Abort, queue: &mut Heaped<A>, key: &Key, deadline: u64) {
    same(rt, "look", queue.look(key), Ok(Look::StillLive(deadline)));
    same(rt, "deadline", queue.deadline(&key.entry()), Ok(deadline));
}

fn resets<A: Allocator>(
    rt: &impl Abort,
    queue: &mut Heaped<A>,
    entry: &EntryId,
    when: u64,
    stamp: u32,
) {
    let reset = queue.reset(entry, when).map(|key| key.stamp());
    same(rt, "reset", reset, Ok(stamp));
}

fn removes<A: Allocator>(rt: &impl Abort, queue: &mut Heaped<A>, entry: &EntryId, value: char) {
    let removed = queue.remove(entry).map(|removed| removed.value);
    same(rt, "remove", removed, Ok(value));
}

fn cancels<A: Allocator>(rt: &impl Abort, queue: &mut Heaped<A>, key: &Key, deadline: u64) {
    same(rt, "cancel", queue.cancel(key), Ok(deadline));
}

// Leaves an entry that is due at tick 6.
fn extends_and_resets<A: Allocator>(rt: &impl Abort, queue: &mut Heaped<A>) -> Result<(), Fail> {
    let first = inserted(queue, 'a', 5)?;
    extends(rt, queue, &first, 7);
    tells(rt, queue, &first, 7);
    resets(rt, queue, &first.entry(), 6, 2);
    Ok(())
}

// Leaves an entry that is cancelled.
fn removes_and_cancels<A: Allocator>(rt: &impl Abort, queue: &mut Heaped<A>) -> Result<(), Fail> {
    let second = inserted(queue, 'b', 9)?;
    removes(rt, queue, &second.entry(), 'b');
    let third = inserted(queue, 'c', 20)?;
    cancels(rt, queue, &third, 20);
    Ok(())
}

// What a poll answers: the tick it waits for, what came out, or that nothing is linked.
#[derive(PartialEq, Debug, Drop)]
enum Answer {
    Out(char),
    Waits(u64),
    Idles,
}

fn told(turn: Turn<char>) -> Answer {
    match turn {
        Turn::Out(expired) => Answer::Out(expired.value),
        Turn::Waiting { next } => Answer::Waits(next),
        Turn::Idle => Answer::Idles,
    }
}

fn polls<A: Allocator>(rt: &impl Abort, queue: &mut Heaped<A>, tick: u64, expected: Answer) {
    same(rt, "poll", queue.poll(tick).map(told), Ok(expected));
}

// Whether an entry stands next.
fn peeks<A: Allocator>(rt: &impl Abort, queue: &Heaped<A>, is_there: bool) {
    same(rt, "peek", queue.peek().is_some(), is_there);
}

fn sweeps<A: Allocator>(rt: &impl Abort, queue: &mut Heaped<A>, count: usize) {
    same(rt, "sweep", queue.sweep(), count);
}

fn clears<A: Allocator>(rt: &impl Abort, queue: &mut Heaped<A>, count: usize) {
    same(rt, "clear", queue.clear(), count);
}

fn counts<A: Allocator>(rt: &impl Abort, queue: &Heaped<A>, inserted: u64, linked: u64) {
    let tally = queue.tally();
    same(
        rt,
        "tally",
        (tally.inserted, tally.linked),
        (inserted, linked),
    );
}

fn calls_of_the_owner<A: Allocator>(rt: &impl Abort, queue: &mut Heaped<A>) {
    polls(rt, queue, 5, Answer::Waits(6));
    polls(rt, queue, 6, Answer::Out('a'));
    peeks(rt, queue, true);
    sweeps(rt, queue, 1);
    peeks(rt, queue, false);
    let fourth = inserted(queue, 'd', 30).map(|key| key.stamp());
    same(rt, "insert", fourth, Ok(3));
    clears(rt, queue, 1);
    polls(rt, queue, 40, Answer::Idles);
    counts(rt, queue, 4, 0);
}

fn queue<A: Allocator + Copy>(heap: A) -> Result<Heaped<A>, CoreError> {
    let config = CoreConfig {
        shard: 0,
        capacity: 2,
        last_stamp: LAST_STAMP,
    };
    let words = VecWords::new(heap, 2)?;
    DelayCore::new(heap, config, words).map_err(|refused| refused.0)
}

fn every_call<A: Allocator>(rt: &impl Abort, queue: &mut Heaped<A>) -> Result<(), Fail> {
    extends_and_resets(rt, queue)?;
    removes_and_cancels(rt, queue)?;
    calls_of_the_owner(rt, queue);
    Ok(())
}

fn calls<A: Allocator + Copy>(rt: &impl Abort, heap: A) -> Result<(), Fail> {
    every_call(rt, &mut queue(heap)?)
}

// Over a heap that refuses what comes behind the makings: one allocation of the words, six of the queue.
// promise: core.new-issue
#[test]
fn calls_take_no_memory(rt: HostRuntime) -> Result<(), Fail> {
    let all = LocalHeap::new(rt.alloc(), 1 << 16)?;
    let heap = RefusingHeap::new(&all, 7);
    calls(&rt, &heap)?;
    assert!(rt; !heap.has_refused());
    Ok(())
}
