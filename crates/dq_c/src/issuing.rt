//! A queue issues callers, and learns of those that were given back.
ghost use Rattle.dq_c.specs.Issuing.{IssueSays, ReturnedSays};

use crate::answers::{
    DQ_CALLERS_OUT, DQ_EMPTY, DQ_HELD, DQ_NO_MEMORY, DQ_OK, DqAnswer, of_words, only, told,
    with_one,
};
use crate::handle::{CallerHandle, QueueHandle, Seat};
use std::alloc::Global;

/// Issues a caller into an empty handle, which takes keys of the queue's number alone. It may go to another thread,
/// and outlive the queue.
///
/// # Errors
/// DQ_EMPTY for the queue's handle, DQ_HELD for the caller's, DQ_NO_MEMORY, DQ_TOO_MANY_CALLERS with how many a queue
/// issues, given back or not. No caller is issued then.
#[unsafe(no_mangle)]
pub extern "C" fn dq_issue(
    alloc: Global,
    queue: &mut QueueHandle,
    caller: &mut CallerHandle,
) -> DqAnswer
    ensures { IssueSays queue.old.part.value caller.old.part.value result
        queue.new.part.value caller.new.part.value }
{
    if !queue.is_held() {
        return only(DQ_EMPTY);
    }
    if caller.is_held() {
        return only(DQ_HELD);
    }
    // The seat comes first: a caller that found no room would count as out for good.
    let seat = Seat {
        shard: 0,
        caller: None,
    };
    let Ok(mut boxed) = Box::new(alloc, seat) else {
        return only(DQ_NO_MEMORY);
    };
    let core = &mut queue.part.get_mut().core;
    let shard = core.shard();
    match core.issue() {
        Ok(issued) => {
            boxed.shard = shard;
            boxed.caller = Some(issued);
            *caller = CallerHandle::of(boxed);
            only(DQ_OK)
        }
        Err(error) => of_words(error),
    }
}

/// Tells the accepted cancels of all callers, where none is out.
///
/// # Errors
/// DQ_EMPTY, DQ_CALLERS_OUT with how many are out.
#[unsafe(no_mangle)]
pub extern "C" fn dq_returned(queue: &mut QueueHandle) -> DqAnswer
    ensures { ReturnedSays queue.old.part.value result queue.new.part.value }
{
    if !queue.is_held() {
        return only(DQ_EMPTY);
    }
    match queue.part.get_mut().core.returned() {
        Ok(cancels) => told(cancels),
        Err(out) => with_one(DQ_CALLERS_OUT, out),
    }
}
