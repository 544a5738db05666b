//! Each allocation of each making is refused in turn, and counted; a wheel over heaps of some sizes.

ghost use Rattle.dq_core.specs.Words.{AreFresh};

use super::same;
use dq_core::{CoreConfig, CoreError, DelayCore, PlainQueue, Slots, VecWords, Words};
use dq_testing::RefusingHeap;
use dq_ticks::LAST_STAMP;
use dq_wheel::{Wheel, WheelError};
use dq_words::{HANDLE_LIMIT, Keeper, WordsError};
use linked_list_allocator::LocalHeap;
use std::alloc::{Allocator, Global};
use std::process::Abort;
use std::test::Fail;

// What is made, with room for a number of entries.
#[derive(Clone, Copy, Debug, PartialEq)]
enum Making {
    Wheel,
    Slots,
    PlainWords,
    SharedWords,
    QueueOverPlainWords,
    QueueOverSharedWords,
    UnfoldedQueue,
    PlainTwin,
}

type Heap<'a> = RefusingHeap<&'a LocalHeap>;

// What is made is proved once for all heaps, which is quicker than for the refusing one alone.
fn takes_an_entry<W: Words, A: Allocator>(queue: &mut DelayCore<char, W, A>) -> bool {
    queue.insert('v', 5).is_ok()
}

// That no queue is made is as it should be where memory is refused, and the words come back.
fn is_refused(error: CoreError, come_back: bool) -> Result<bool, CoreError> {
    if error == CoreError::NoMemory && come_back {
        Ok(false)
    } else {
        Err(error)
    }
}

// Whether a queue is made over words that are there already.
fn is_queue_made<W: Words + Drop, A: Allocator + Clone>(
    heap: A,
    words: W,
) -> Result<bool, CoreError>
    requires { AreFresh (W.known words) (W.counts words) }
{
    let capacity = words.rows();
    let config = CoreConfig {
        shard: 0,
        capacity,
        last_stamp: LAST_STAMP,
    };
    match DelayCore::new(heap, config, words) {
        Ok(mut queue) => Ok(takes_an_entry(&mut queue)),
        Err((error, words)) => is_refused(error, words.rows() == capacity),
    }
}

// Whether an empty queue is made whole again that was folded. Where it isn't, it comes back with all its words.
fn is_whole_again<W: Words + Drop, B: Allocator, A: Allocator + Clone>(
    heap: A,
    queue: DelayCore<char, W, B>,
) -> Result<bool, CoreError> {
    let Ok(folded) = queue.fold() else {
        return Err(CoreError::BadConfig);
    };
    let capacity = folded.capacity();
    match folded.unfold(heap) {
        Ok(mut queue) => Ok(takes_an_entry(&mut queue)),
        Err(folded) => is_refused(CoreError::NoMemory, folded.capacity() == capacity),
    }
}

fn is_queue_unfolded<A: Allocator + Clone>(
    alloc: Global,
    heap: A,
    capacity: usize,
) -> Result<bool, CoreError> {
    let config = CoreConfig {
        shard: 0,
        capacity,
        last_stamp: LAST_STAMP,
    };
    match DelayCore::new(alloc, config, VecWords::new(alloc, capacity)?) {
        Ok(queue) => is_whole_again(heap, queue),
        Err((error, _words)) => Err(error),
    }
}

fn is_wheel_made<A: Allocator>(heap: A, capacity: usize) -> Result<bool, WheelError> {
    match Wheel::new(heap, capacity) {
        Ok(wheel) => Ok(wheel.capacity() == capacity),
        Err(WheelError::NoMemory) => Ok(false),
        Err(error) => Err(error),
    }
}

fn are_slots_made<A: Allocator + Clone>(heap: A, capacity: u16) -> bool {
    match Slots::new(heap, usize::from(capacity), LAST_STAMP) {
        Ok(mut slots) => slots.fill('v').is_ok(),
        Err(_refused) => false,
    }
}

fn are_plain_words_made<A: Allocator>(heap: A, capacity: usize) -> Result<bool, CoreError> {
    match VecWords::new(heap, capacity) {
        Ok(words) => Ok(words.rows() == capacity),
        Err(CoreError::NoMemory) => Ok(false),
        Err(error) => Err(error),
    }
}

fn are_shared_words_made<A: Allocator + Clone>(
    heap: A,
    capacity: usize,
) -> Result<bool, WordsError> {
    match Keeper::new(heap, capacity) {
        Ok(keeper) => Ok(keeper.rows() == capacity),
        Err(WordsError::NoMemory) => Ok(false),
        Err(error) => Err(error),
    }
}

fn is_twin_made<A: Allocator>(heap: A, capacity: usize) -> Result<bool, CoreError> {
    match PlainQueue::new(heap, capacity) {
        Ok(mut queue) => Ok(queue.insert('v', 5).is_ok()),
        Err(CoreError::NoMemory) => Ok(false),
        Err(error) => Err(error),
    }
}

// Whether it is made where memory is taken from that heap.
fn is_made<A: Allocator + Copy>(
    alloc: Global,
    heap: A,
    making: Making,
    capacity: u16,
) -> Result<bool, Fail> {
    let rows = usize::from(capacity);
    Ok(match making {
        Making::Wheel => is_wheel_made(heap, rows)?,
        Making::Slots => are_slots_made(heap, capacity),
        Making::PlainWords => are_plain_words_made(heap, rows)?,
        Making::SharedWords => are_shared_words_made(heap, rows)?,
        Making::QueueOverPlainWords => is_queue_made(heap, VecWords::new(alloc, rows)?)?,
        Making::QueueOverSharedWords => is_queue_made(heap, Keeper::new(alloc, rows)?)?,
        Making::UnfoldedQueue => is_queue_unfolded(alloc, heap, rows)?,
        Making::PlainTwin => is_twin_made(heap, rows)?,
    })
}

// Whether it is made over a heap that refuses one allocation, where it asks for that one.
fn is_granted(
    rt: &impl Abort,
    alloc: Global,
    heap: &Heap,
    making: Making,
    capacity: u16,
) -> Result<bool, Fail> {
    let is_made = is_made(alloc, heap, making, capacity)?;
    same(rt, "refused", heap.has_refused(), !is_made);
    Ok(is_made)
}

// Likewise, behind so many grants. A refused making gives back all that it took.
fn is_granted_by(
    rt: &impl Abort,
    alloc: Global,
    grants: u64,
    making: Making,
    capacity: u16,
) -> Result<bool, Fail> {
    let all = LocalHeap::new(alloc, 1 << 20)?;
    let heap = RefusingHeap::new(&all, grants);
    let is_made = is_granted(rt, alloc, &heap, making, capacity)?;
    same(rt, "used", all.used(), 0);
    Ok(is_made)
}

// How many allocations a making has, each of which was refused.
fn refusals(rt: &impl Abort, alloc: Global, making: Making, capacity: u16) -> Result<u64, Fail> {
    for grants in 0..100u64 {
        if is_granted_by(rt, alloc, grants, making, capacity)? {
            return Ok(grants);
        }
    }
    panic!(rt; "each making was refused")
}

const ALLOCATIONS: &[(Making, u64)] = &[
    // the row of entries and of the heads of the lists
    (Making::Wheel, 1),
    // the cells, of those that are free the small stack and the bits, and two rows of bits of those whose value waits
    (Making::Slots, 5),
    (Making::PlainWords, 1),
    // the row of zeros, the table's words, its row of no slots, and the table itself
    (Making::SharedWords, 4),
    // the slots and the wheel: the words are there already
    (Making::QueueOverPlainWords, 6),
    (Making::QueueOverSharedWords, 6),
    // the words are kept
    (Making::UnfoldedQueue, 6),
    (Making::PlainTwin, 1),
];

fn are_refused(rt: &impl Abort, alloc: Global, capacity: u16) -> Result<(), Fail> {
    for (making, allocations) in ALLOCATIONS {
        let refused = refusals(rt, alloc, *making, capacity)?;
        same(rt, capacity, (*making, refused), (*making, *allocations));
    }
    Ok(())
}

// promise: core.fold core.new-issue known.row-limits plain.deadline-ever slots.slot-filled words.caller-takes
#[test]
fn each_allocation_is_refused(rt: HostRuntime) -> Result<(), Fail> {
    are_refused(&rt, rt.alloc(), 4)?;
    are_refused(&rt, rt.alloc(), 4096)
}

// How many callers are out of a keeper that issued as many as it may.
fn issue_all<A: Allocator + Clone>(heap: A, capacity: usize) -> Result<u64, WordsError> {
    let mut keeper = Keeper::new(heap, capacity)?;
    for _ in 0..HANDLE_LIMIT {
        keeper.issue()?;
    }
    Ok(keeper.out())
}

fn issues_all(rt: &impl Abort, heap: &Heap, capacity: usize) -> Result<(), Fail> {
    let out = issue_all(heap, capacity)?;
    same(rt, capacity, (out, heap.has_refused()), (1024, false));
    Ok(())
}

// Over a heap that refuses what comes behind the keeper's own allocations.
fn issues_without_memory(rt: &impl Abort, alloc: Global, capacity: usize) -> Result<(), Fail> {
    let all = LocalHeap::new(alloc, 1 << 20)?;
    let heap = RefusingHeap::new(&all, 4);
    issues_all(rt, &heap, capacity)
}

// promise: words.caller-takes
#[test]
fn callers_take_no_memory(rt: HostRuntime) -> Result<(), Fail> {
    issues_without_memory(&rt, rt.alloc(), 4)?;
    issues_without_memory(&rt, rt.alloc(), 4096)
}

// A wheel of four indexes, of which one is linked: its next wake.
fn wake_over(rt: &impl Abort, heap: &LocalHeap) -> Result<Option<u64>, WheelError> {
    let mut wheel = Wheel::new(heap, 4)?;
    let is_free = wheel.tick() == 0 && wheel.capacity() == 4 && wheel.filed(3).is_none();
    assert!(rt; is_free, "a new wheel");
    wheel.link(3, 9);
    Ok(wheel.next_wake())
}

// A heap of that size suffices or doesn't, and has all its memory back.
fn suffices(
    rt: &impl Abort,
    alloc: Global,
    size: usize,
    made: Result<Option<u64>, WheelError>,
) -> Result<(), Fail> {
    let heap = LocalHeap::new(alloc, size)?;
    same(rt, size, wake_over(rt, &heap), made);
    same(rt, size, heap.used(), 0);
    Ok(())
}

// promise: wheel.new-tick
#[test]
fn refused_memory(rt: HostRuntime) -> Result<(), Fail> {
    // The rows of four indexes and of the heads take 24 bytes each.
    suffices(&rt, rt.alloc(), 0, Err(WheelError::NoMemory))?;
    suffices(&rt, rt.alloc(), 9296, Err(WheelError::NoMemory))?;
    suffices(&rt, rt.alloc(), 9312, Ok(Some(9)))
}
