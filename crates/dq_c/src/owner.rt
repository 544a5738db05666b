//! The calls of a queue's owner that change it.
ghost use Rattle.std.specs.Prelude.{Ok};
ghost use Rattle.dq_c.specs.Owner.{InsertSays, ResetSays, RemoveSays, TurnSays, PollSays, PollSomeSays};
ghost use Rattle.dq_c.specs.Owner.{SweepSays, SweepSomeSays, ReapSays, ClearSays};

use crate::answers::{
    DQ_EMPTY, DQ_IDLE, DQ_OK, DQ_WAITING, DQ_WORKING, DqAnswer, of_core, of_reap, only, told,
    with_one, with_two,
};
use crate::handle::QueueHandle;
use crate::keys::{DqExpired, DqKey, DqRemoved};
use dq_core::{Piece, Turn};

/// Puts an entry in that is live until `when`, a tick of one millisecond, or until the wheel's tick where `when` lies
/// before it, and writes its key. Constant time.
///
/// # Errors
/// DQ_EMPTY, DQ_TOO_FAR with the last tick, DQ_FULL with the linked entries and the worn slots; the key stays then.
#[unsafe(no_mangle)]
pub extern "C" fn dq_insert(
    queue: &mut QueueHandle,
    value: u64,
    when: u64,
    key: &mut DqKey,
) -> DqAnswer
    ensures { InsertSays queue.old.part.value value when result key.old key.new
        queue.new.part.value }
{
    if !queue.is_held() {
        return only(DQ_EMPTY);
    }
    match queue.part.get_mut().core.insert(value, when) {
        Ok(named) => {
            *key = DqKey::of(named);
            only(DQ_OK)
        }
        Err((error, _value)) => of_core(error),
    }
}

/// Gives a live entry another deadline, earlier or later, and writes its new key: callers refuse the old one.
/// Constant time.
///
/// # Errors
/// DQ_EMPTY, DQ_TOO_FAR with the last tick, DQ_MISSING, DQ_WAS_CANCELLED, DQ_WORN; the key stays then.
#[unsafe(no_mangle)]
pub extern "C" fn dq_reset(queue: &mut QueueHandle, key: &mut DqKey, when: u64) -> DqAnswer
    ensures { ResetSays queue.old.part.value when result key.old key.new queue.new.part.value }
{
    if !queue.is_held() {
        return only(DQ_EMPTY);
    }
    match queue.part.get_mut().core.reset(&key.entry(), when) {
        Ok(named) => {
            *key = DqKey::of(named);
            only(DQ_OK)
        }
        Err(error) => of_core(error),
    }
}

/// Takes a live entry out, and writes its key of the present stamp, its deadline in force and its value. Constant
/// time.
///
/// # Errors
/// DQ_EMPTY, DQ_MISSING, DQ_WAS_CANCELLED; what `removed` points at stays then.
#[unsafe(no_mangle)]
pub extern "C" fn dq_remove(
    queue: &mut QueueHandle,
    key: &DqKey,
    removed: &mut DqRemoved,
) -> DqAnswer
    ensures { RemoveSays queue.old.part.value key.now result removed.old removed.new
        queue.new.part.value }
{
    if !queue.is_held() {
        return only(DQ_EMPTY);
    }
    match queue.part.get_mut().core.remove(&key.entry()) {
        Ok(entry) => {
            *removed = DqRemoved::of(entry);
            only(DQ_OK)
        }
        Err(error) => of_core(error),
    }
}

// Tells what a poll answers, and writes the entry that came out.
fn turn_told(turn: Turn<u64>, expired: &mut DqExpired) -> DqAnswer
    ensures { TurnSays (Ok turn) result expired.old expired.new }
{
    match turn {
        Turn::Out(entry) => {
            *expired = DqExpired::of(entry);
            only(DQ_OK)
        }
        Turn::Waiting { next } => with_one(DQ_WAITING, next),
        Turn::Idle => only(DQ_IDLE),
    }
}

/// Notes a tick of one millisecond, and takes out one entry whose deadline in force is reached: DQ_OK, and it is
/// written. Else DQ_WAITING with the next tick at which there is something to do, or DQ_IDLE where nothing is linked.
///
/// # Errors
/// DQ_EMPTY, DQ_TICK_TOO_LARGE with the last tick, which is not noted then.
#[unsafe(no_mangle)]
pub extern "C" fn dq_poll(queue: &mut QueueHandle, tick: u64, expired: &mut DqExpired) -> DqAnswer
    ensures { PollSays queue.old.part.value tick result expired.old expired.new
        queue.new.part.value }
{
    if !queue.is_held() {
        return only(DQ_EMPTY);
    }
    match queue.part.get_mut().core.poll(tick) {
        Ok(turn) => turn_told(turn, expired),
        Err(error) => of_core(error),
    }
}

/// Does of a poll at most `most` steps, each in constant time, and answers as [`dq_poll`] where the poll has come to
/// its answer. Else DQ_WORKING: call again, and what `expired` points at stays. Any other call may be made between.
///
/// # Errors
/// DQ_EMPTY, DQ_TICK_TOO_LARGE with the last tick, which is not noted then.
#[unsafe(no_mangle)]
pub extern "C" fn dq_poll_some(
    queue: &mut QueueHandle,
    tick: u64,
    most: u32,
    expired: &mut DqExpired,
) -> DqAnswer
    ensures { PollSomeSays queue.old.part.value tick most result expired.old expired.new
        queue.new.part.value }
{
    if !queue.is_held() {
        return only(DQ_EMPTY);
    }
    match queue.part.get_mut().core.poll_some(tick, most) {
        Ok(Piece::Answer(turn)) => turn_told(turn, expired),
        Ok(Piece::Working) => only(DQ_WORKING),
        Err(error) => of_core(error),
    }
}

/// Reaps each linked entry that is found cancelled, and tells how many. It looks at every slot.
///
/// # Errors
/// DQ_EMPTY.
#[unsafe(no_mangle)]
pub extern "C" fn dq_sweep(queue: &mut QueueHandle) -> DqAnswer
    ensures { SweepSays queue.old.part.value result queue.new.part.value }
{
    if !queue.is_held() {
        return only(DQ_EMPTY);
    }
    told(queue.part.get_mut().core.sweep() as u64)
}

/// Reaps each linked entry that is found cancelled at `count` slots from `from` on, and looks at no other slot.
/// DQ_WORKING with how many and the slot to go on from; DQ_OK with how many where no slot is left behind them.
///
/// # Errors
/// DQ_EMPTY.
#[unsafe(no_mangle)]
pub extern "C" fn dq_sweep_some(queue: &mut QueueHandle, from: usize, count: usize) -> DqAnswer
    ensures { SweepSomeSays queue.old.part.value from count result queue.new.part.value }
{
    if !queue.is_held() {
        return only(DQ_EMPTY);
    }
    let swept = queue.part.get_mut().core.sweep_some(from, count);
    match swept.next {
        Some(next) => with_two(DQ_WORKING, swept.reaped as u64, next as u64),
        None => told(swept.reaped as u64),
    }
}

/// Reaps the entry of a key where it is found cancelled: its slot is free for another then, or worn. Constant time.
///
/// # Errors
/// DQ_EMPTY, DQ_MISSING, DQ_STILL_LIVE where it is found live.
#[unsafe(no_mangle)]
pub extern "C" fn dq_reap(queue: &mut QueueHandle, key: &DqKey) -> DqAnswer
    ensures { ReapSays queue.old.part.value key.now result queue.new.part.value }
{
    if !queue.is_held() {
        return only(DQ_EMPTY);
    }
    match queue.part.get_mut().core.reap(&key.entry()) {
        Ok(()) => only(DQ_OK),
        Err(error) => of_reap(error),
    }
}

/// Ends every linked entry, and tells how many it ended as removed: those that were cancelled are reaped. It goes
/// over every slot.
///
/// # Errors
/// DQ_EMPTY.
#[unsafe(no_mangle)]
pub extern "C" fn dq_clear(queue: &mut QueueHandle) -> DqAnswer
    ensures { ClearSays queue.old.part.value result queue.new.part.value }
{
    if !queue.is_held() {
        return only(DQ_EMPTY);
    }
    told(queue.part.get_mut().core.clear() as u64)
}
