//! A stream over a queue in a heap.

use super::same;
use super::streams::Seen::{Ends, Out, Waits};
use super::streams::{Task, TickOf};
use dq_shards::{QueueConfig, SharedDelayQueue};
use dq_stream::ExpiredStream;
use linked_list_allocator::LocalHeap;
use std::process::Abort;
use std::sync::Wait;
use std::test::Fail;

// A stream of a queue in some heap gives its entry, and ends.
fn gives_one<R: Abort + Wait>(
    rt: &R,
    task: &Task,
    stream: &mut ExpiredStream<'_, char, TickOf<'_>, R, &LocalHeap>,
) {
    task.sees(rt, stream, 0, Waits);
    task.sees(rt, stream, 10, Out('v', 10, 10));
    task.sees(rt, stream, 10, Ends);
}

// A stream gives the entry of a queue in this heap, and ends.
fn gives_out_of_a_heap<R: Abort + Wait>(
    rt: &R,
    heap: &LocalHeap,
    queue: &SharedDelayQueue<char, &LocalHeap>,
    task: &Task,
) -> Result<(), Fail> {
    same(rt, "insert", queue.insert(rt, 0, 'v', 10).is_ok(), true);
    let used = heap.used();
    let Ok(mut stream) = ExpiredStream::new(rt, queue, 0, TickOf(&task.told)) else {
        return Err(Fail::new("no stream"));
    };
    gives_one(rt, task, &mut stream);
    same(rt, "used", heap.used(), used);
    Ok(())
}

// promise: stream.order-end
#[test]
fn polls_take_none_of_the_queues_memory(rt: HostRuntime) -> Result<(), Fail> {
    let heap = LocalHeap::new(rt.alloc(), 1 << 16)?;
    let queue = SharedDelayQueue::new(&heap, QueueConfig::of(1, 2))?;
    let task = Task::new(&rt)?;
    gives_out_of_a_heap(&rt, &heap, &queue, &task)
}
