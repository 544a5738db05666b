//! What a queue tells its owner.
ghost use Rattle.dq_c.specs.Readers.{DeadlineSays, WakeSays, PeekSays, LenSays, TallySays};

use crate::answers::{
    DQ_EMPTY, DQ_IDLE, DQ_OK, DQ_WAITING, DqAnswer, of_core, only, told, with_one,
};
use crate::handle::QueueHandle;
use crate::keys::{DqKey, DqTally};

/// Tells the deadline in force of a live entry, a tick of one millisecond.
///
/// # Errors
/// DQ_EMPTY, DQ_MISSING, DQ_WAS_CANCELLED.
#[unsafe(no_mangle)]
pub extern "C" fn dq_deadline(queue: &mut QueueHandle, key: &DqKey) -> DqAnswer
    ensures { DeadlineSays queue.old.part.value key.now result queue.new.part.value }
{
    if !queue.is_held() {
        return only(DQ_EMPTY);
    }
    match queue.part.get_mut().core.deadline(&key.entry()) {
        Ok(deadline) => told(deadline),
        Err(error) => of_core(error),
    }
}

/// DQ_WAITING with the next tick at which the queue has something to do, or DQ_IDLE where nothing is linked.
///
/// # Errors
/// DQ_EMPTY.
#[unsafe(no_mangle)]
pub extern "C" fn dq_next_wake(queue: &mut QueueHandle) -> DqAnswer
    ensures { WakeSays queue.old.part.value result queue.new.part.value }
{
    if !queue.is_held() {
        return only(DQ_EMPTY);
    }
    match queue.part.get_mut().core.next_wake() {
        Some(next) => with_one(DQ_WAITING, next),
        None => only(DQ_IDLE),
    }
}

/// Writes the key of a linked entry that the wheel files least, as of its present stamp: DQ_OK, or DQ_IDLE where
/// nothing is linked. A caller may have extended or cancelled it meanwhile.
///
/// # Errors
/// DQ_EMPTY; the key stays then, as it does where nothing is linked.
#[unsafe(no_mangle)]
pub extern "C" fn dq_peek(queue: &mut QueueHandle, key: &mut DqKey) -> DqAnswer
    ensures { PeekSays queue.old.part.value result key.old key.new queue.new.part.value }
{
    if !queue.is_held() {
        return only(DQ_EMPTY);
    }
    match queue.part.get_mut().core.peek() {
        Some(least) => {
            *key = DqKey::of(least);
            only(DQ_OK)
        }
        None => only(DQ_IDLE),
    }
}

/// Tells the number of linked entries.
///
/// # Errors
/// DQ_EMPTY.
#[unsafe(no_mangle)]
pub extern "C" fn dq_len(queue: &mut QueueHandle) -> DqAnswer
    ensures { LenSays queue.old.part.value result queue.new.part.value }
{
    if !queue.is_held() {
        return only(DQ_EMPTY);
    }
    told(queue.part.get_mut().core.len() as u64)
}

/// Writes how many entries came and went.
///
/// # Errors
/// DQ_EMPTY; what `tally` points at stays then.
#[unsafe(no_mangle)]
pub extern "C" fn dq_tally(queue: &mut QueueHandle, tally: &mut DqTally) -> DqAnswer
    ensures { TallySays queue.old.part.value result tally.old tally.new queue.new.part.value }
{
    if !queue.is_held() {
        return only(DQ_EMPTY);
    }
    *tally = DqTally::of(queue.part.get_mut().core.tally());
    only(DQ_OK)
}
