//! The calls of a caller: from any thread, without a lock.
//!
//! A key of another number than that of the queue which issued the caller, as it was then, names no entry of its
//! words. It is refused as a key that no slot has.
ghost use Rattle.dq_c.specs.Callers.{ExtendSays, CancelSays, LookSays, GiveBackSays, OtherExtend};

use crate::answers::{
    DQ_EMPTY, DQ_OK, DQ_TOO_FAR, DQ_UNKNOWN, DqAnswer, of_call, of_look, only, told, with_one,
};
use crate::handle::{CallerHandle, Seat};
use crate::keys::DqKey;
use dq_ticks::LAST_TICK;
use std::alloc::Global;
use std::mem;

// An extend by a key of another number.
fn extend_of_other(when: u64) -> DqAnswer
    ensures { OtherExtend when result }
{
    if when > LAST_TICK {
        return with_one(DQ_TOO_FAR, LAST_TICK);
    }
    only(DQ_UNKNOWN)
}

/// Raises the deadline of a live entry to `when`, a tick of one millisecond, and tells the deadline that is then in
/// force: `when`, or a later one that it had. One load and at most one atomic step.
///
/// # Errors
/// DQ_EMPTY, DQ_TOO_FAR with the last tick, DQ_UNKNOWN, DQ_STALE with the slot's stamp, DQ_ENDED with how and when.
#[unsafe(no_mangle)]
pub extern "C" fn dq_extend(caller: &mut CallerHandle, key: &DqKey, when: u64) -> DqAnswer
    ensures { ExtendSays caller.old.part.value key.now when result caller.new.part.value }
{
    if !caller.is_held() {
        return only(DQ_EMPTY);
    }
    let seat = caller.part.get_mut();
    let number = seat.shard;
    let Some(seated) = &mut seat.caller else {
        return only(DQ_EMPTY);
    };
    if key.shard != number {
        return extend_of_other(when);
    }
    match seated.extend(&key.key(), when) {
        Ok(deadline) => told(deadline),
        Err(error) => of_call(error),
    }
}

/// Cancels a live entry, which stays linked until its owner reaps it, and tells the deadline that it gave up. One
/// load and at most one atomic step.
///
/// # Errors
/// DQ_EMPTY, DQ_UNKNOWN, DQ_STALE with the slot's stamp, DQ_ENDED with how and when.
#[unsafe(no_mangle)]
pub extern "C" fn dq_cancel(caller: &mut CallerHandle, key: &DqKey) -> DqAnswer
    ensures { CancelSays caller.old.part.value key.now result caller.new.part.value }
{
    if !caller.is_held() {
        return only(DQ_EMPTY);
    }
    let seat = caller.part.get_mut();
    let number = seat.shard;
    let Some(seated) = &mut seat.caller else {
        return only(DQ_EMPTY);
    };
    if key.shard != number {
        return only(DQ_UNKNOWN);
    }
    match seated.cancel(&key.key()) {
        Ok(deadline) => told(deadline),
        Err(error) => of_call(error),
    }
}

/// Tells how the entry of a key stands, and at which deadline. One load.
///
/// # Errors
/// DQ_EMPTY, DQ_UNKNOWN, DQ_STALE with the slot's stamp.
#[unsafe(no_mangle)]
pub extern "C" fn dq_look(caller: &mut CallerHandle, key: &DqKey) -> DqAnswer
    ensures { LookSays caller.old.part.value key.now result caller.new.part.value }
{
    if !caller.is_held() {
        return only(DQ_EMPTY);
    }
    let seat = caller.part.get_mut();
    let number = seat.shard;
    let Some(seated) = &mut seat.caller else {
        return only(DQ_EMPTY);
    };
    if key.shard != number {
        return only(DQ_UNKNOWN);
    }
    match seated.look(&key.key()) {
        Ok(how) => of_look(DQ_OK, how),
        Err(error) => of_call(error),
    }
}

/// Gives the caller back, and tells how many of its cancels were accepted. The handle is empty then.
///
/// # Errors
/// DQ_EMPTY.
#[unsafe(no_mangle)]
pub extern "C" fn dq_give_back(alloc: Global, caller: &mut CallerHandle) -> DqAnswer
    ensures { GiveBackSays caller.old.part.value result caller.new.part.value }
{
    let taken = mem::replace(caller, CallerHandle::empty(alloc));
    let Some(boxed) = taken.into_box() else {
        return only(DQ_EMPTY);
    };
    let Seat {
        shard: _,
        caller: seated,
    } = Box::into_inner(boxed);
    match seated {
        Some(seated) => told(seated.give_back()),
        None => only(DQ_EMPTY),
    }
}
