//! A poll that takes out many entries.
ghost use Rattle.std.specs.Prelude.{◌≡◌, length};
ghost use Rattle.dq_c.specs.Many.{FillSays, PollManySays};

use crate::answers::{
    DQ_EMPTY, DQ_IDLE, DQ_NO_PLACE, DQ_WAITING, DqAnswer, of_core, only, told, with_one, with_two,
};
use crate::handle::QueueHandle;
use crate::keys::DqExpired;
use dq_core::{DelayCore, Turn};
use dq_words::Keeper;

// Fills the row from its front by one poll after another, until it is full or a poll takes nothing out.
fn fill(core: &mut DelayCore<u64, Keeper>, tick: u64, outs: &mut [DqExpired]) -> DqAnswer
    ensures fills { FillSays core.old tick outs.old outs.new result core.new }
    ensures size { length outs.new ≡ length outs.old }
{
    for taken in 0..outs.len() {
        match core.poll(tick) {
            Ok(Turn::Out(entry)) => outs[taken] = DqExpired::of(entry),
            Ok(Turn::Waiting { next }) => return with_two(DQ_WAITING, taken as u64, next),
            Ok(Turn::Idle) => return with_one(DQ_IDLE, taken as u64),
            Err(error) => return of_core(error),
        }
    }
    told(outs.len() as u64)
}

/// Notes a tick of one millisecond, and takes out entries whose deadline in force is reached, as many as the row has
/// places; they are written from its front, and the rest of the row stays. DQ_OK with how many where the row is full:
/// there may be more. Else DQ_WAITING with how many and the next tick at which there is something to do, or DQ_IDLE
/// with how many where nothing is linked.
///
/// # Errors
/// DQ_EMPTY, DQ_NO_PLACE for a row of no place, DQ_TICK_TOO_LARGE with the last tick; no tick is noted then.
#[unsafe(no_mangle)]
pub extern "C" fn dq_poll_many(
    queue: &mut QueueHandle,
    tick: u64,
    outs: &mut [DqExpired],
) -> DqAnswer
    ensures { PollManySays queue.old.part.value tick outs.old outs.new result queue.new.part.value }
{
    if !queue.is_held() {
        return only(DQ_EMPTY);
    }
    if outs.is_empty() {
        return only(DQ_NO_PLACE);
    }
    fill(&mut queue.part.get_mut().core, tick, outs)
}
