//! Each allocation of a queue of shards, of a handle and of a caller is refused in turn, and counted.

use super::same;
use dq_core::CoreError;
use dq_shards::{QueueConfig, QueueError, SharedDelayQueue};
use dq_testing::RefusingHeap;
use dq_words::HANDLE_LIMIT;
use linked_list_allocator::LocalHeap;
use std::alloc::Allocator;
use std::process::Abort;
use std::sync::Wait;
use std::test::Fail;

type Heap<'all> = RefusingHeap<&'all LocalHeap>;

// A queue of letters whose memory is of one heap. What asks for no more of the heap is proved once for all, which is
// quicker than for the refusing one alone.
type Letters<A> = SharedDelayQueue<char, A>;

const NO_MEMORY: QueueError = QueueError::Core(CoreError::NoMemory);

// Where memory was refused.
#[derive(Clone, Copy, Debug, PartialEq, Eq)]
enum Refused {
    InNew,
    InHandle,
    Nowhere,
}

// Each shard has so many callers out.
fn are_out<R, A>(rt: &R, queue: &Letters<A>, out: u64) -> Result<(), QueueError>
where
    R: Abort + Wait,
    A: Allocator,
{
    for shard in 0..queue.shards() {
        same(rt, shard, queue.enter(rt, shard)?.out(), out);
    }
    Ok(())
}

// Whether a handle is made, and given back, over a queue that has none out. It is refused for want of memory alone.
fn is_handle_made<R, A>(rt: &R, queue: &Letters<A>) -> Result<bool, QueueError>
where
    R: Abort + Wait,
    A: Allocator + Clone + Drop,
{
    match queue.handle(rt) {
        Ok(handle) => {
            let counted = are_out(rt, queue, 1);
            same(rt, "give_back", handle.give_back(), 0);
            counted?;
            Ok(true)
        }
        Err(NO_MEMORY) => {
            are_out(rt, queue, 0)?;
            Ok(false)
        }
        Err(error) => Err(error),
    }
}

// A handle is made, once more where the first was refused.
fn makes_handle<R: Abort + Wait>(
    rt: &R,
    heap: &Heap,
    queue: &Letters<&Heap>,
) -> Result<Refused, QueueError> {
    same(rt, "new", heap.has_refused(), false);
    if is_handle_made(rt, queue)? {
        return Ok(Refused::Nowhere);
    }
    same(rt, "handle", is_handle_made(rt, queue), Ok(true));
    Ok(Refused::InHandle)
}

// A queue is made, and a handle of it.
fn makes<R: Abort + Wait>(rt: &R, heap: &Heap, shards: usize) -> Result<Refused, QueueError> {
    match SharedDelayQueue::new(heap, QueueConfig::of(shards, 4)) {
        Ok(queue) => makes_handle(rt, heap, &queue),
        Err(NO_MEMORY) => Ok(Refused::InNew),
        Err(error) => Err(error),
    }
}

// Where memory is refused past so many grants. None of it is in use then.
fn makes_over<R: Abort + Wait>(
    rt: &R,
    all: &LocalHeap,
    grants: u64,
    shards: usize,
) -> Result<Refused, QueueError> {
    let heap = RefusingHeap::new(all, grants);
    let refused = makes(rt, &heap, shards)?;
    let has_refused = refused != Refused::Nowhere;
    same(
        rt,
        grants,
        (all.used(), heap.has_refused()),
        (0, has_refused),
    );
    Ok(refused)
}

// How many allocations were refused in the making of a queue, and of a handle.
fn refusals<R>(rt: &R, shards: usize) -> Result<(usize, usize), Fail>
where
    R: Abort + Wait + AllocGlobal,
{
    let (mut in_new, mut in_handle) = (0usize, 0usize);
    for grants in 0..100u64 {
        let all = LocalHeap::new(rt.alloc(), 1 << 16)?;
        match makes_over(rt, &all, grants, shards)? {
            Refused::InNew => in_new = in_new.saturating_add(1),
            Refused::InHandle => in_handle = in_handle.saturating_add(1),
            Refused::Nowhere => return Ok((in_new, in_handle)),
        }
    }
    Err(Fail::new("each run was refused"))
}

// A queue takes a row of its shards, and one of who waits for their locks. Each shard takes four times for its words
// (a row of zeros, the table's words, its row of no slots, the table itself), five times for its slots (cells, two rows
// of those that are free, and two of those whose value waits) and once for its wheel. A handle takes a row of callers.
// promise: shards.memory-bad
#[test]
fn each_allocation_is_refused(rt: HostRuntime) -> Result<(), Fail> {
    same(&rt, "1 shard", refusals(&rt, 1)?, (12, 1));
    same(&rt, "3 shards", refusals(&rt, 3)?, (32, 1));
    Ok(())
}

// Issues so many callers in shard 1 and gives each back.
fn issue_callers<R, A>(rt: &R, queue: &Letters<A>, count: u64) -> Result<(), Fail>
where
    R: Wait,
    A: Allocator,
{
    for _ in 0..count {
        let _cancels = queue.enter(rt, 1)?.issue()?.give_back();
    }
    Ok(())
}

fn take_no_memory<R: Abort + Wait>(
    rt: &R,
    heap: &Heap,
    queue: &Letters<&Heap>,
) -> Result<(), Fail> {
    issue_callers(rt, queue, HANDLE_LIMIT)?;
    same(rt, "issue", heap.has_refused(), false);
    same(rt, "handle", is_handle_made(rt, queue), Ok(false));
    same(rt, "handle", heap.has_refused(), true);
    Ok(())
}

fn issues<R: Abort + Wait>(rt: &R, heap: &Heap) -> Result<(), Fail> {
    let queue: Letters<&Heap> = SharedDelayQueue::new(heap, QueueConfig::of(3, 4))?;
    take_no_memory(rt, heap, &queue)
}

// Over a heap that refuses what comes behind the queue's own allocations.
// promise: shards.callers-issued
#[test]
fn issued_callers_take_no_memory(rt: HostRuntime) -> Result<(), Fail> {
    let all = LocalHeap::new(rt.alloc(), 1 << 16)?;
    issues(&rt, &RefusingHeap::new(&all, 32))
}
