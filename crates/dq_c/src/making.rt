//! A queue is made and freed.
ghost use Rattle.std.specs.Prelude.{◌≡◌, ◌↔◌, IsTrue};
ghost use Rattle.dq_c.specs.declared.answers.TheConstants.{DQ_FORM};
ghost use Rattle.dq_core.specs.Calls.{IsConfig};
ghost use Rattle.dq_c.specs.Making.{NewSays, FreeSays};

use crate::answers::{
    DQ_BAD_CONFIG, DQ_EMPTY, DQ_FORM, DQ_HELD, DQ_NO_MEMORY, DQ_OK, DqAnswer, only,
};
use crate::handle::{Queue, QueueHandle};
use dq_core::{CoreConfig, DelayCore};
use dq_ticks::{CAPACITY_LIMIT, LAST_STAMP};
use dq_words::Keeper;
use std::alloc::Global;

/// Tells the number of the library's form, which a program compares with the one that it was written for.
#[unsafe(no_mangle)]
pub extern "C" fn dq_form() -> u32
    ensures { result ≡ DQ_FORM }
{
    DQ_FORM
}

// Whether the numbers are in their ranges.
fn is_config(capacity: usize, last_stamp: u32) -> bool
    ensures { IsTrue result ↔ IsConfig capacity last_stamp capacity }
{
    0 < capacity && capacity <= CAPACITY_LIMIT && 0 < last_stamp && last_stamp <= LAST_STAMP
}

/// Makes a queue into an empty handle: of that shard's number, of 1 to 65,536 slots, and with a last stamp from 1 to
/// 1,048,575, after which a slot is worn. All memory is taken here.
///
/// # Errors
/// DQ_HELD, DQ_BAD_CONFIG, DQ_NO_MEMORY; the handle is as it was then.
#[unsafe(no_mangle)]
pub extern "C" fn dq_new(
    alloc: Global,
    queue: &mut QueueHandle,
    shard: u32,
    capacity: usize,
    last_stamp: u32,
) -> DqAnswer
    ensures { NewSays queue.old.part.value shard capacity last_stamp result queue.new.part.value }
{
    if queue.is_held() {
        return only(DQ_HELD);
    }
    if !is_config(capacity, last_stamp) {
        return only(DQ_BAD_CONFIG);
    }
    let Ok(keeper) = Keeper::new(alloc, capacity) else {
        return only(DQ_NO_MEMORY);
    };
    let config = CoreConfig {
        shard,
        capacity,
        last_stamp,
    };
    let Ok(core) = DelayCore::new(alloc, config, keeper) else {
        return only(DQ_NO_MEMORY);
    };
    match Box::new(alloc, Queue { core }) {
        Ok(boxed) => {
            *queue = QueueHandle::of(boxed);
            only(DQ_OK)
        }
        Err(_) => only(DQ_NO_MEMORY),
    }
}

/// Frees the queue and all that it holds. The handle is empty then, and may be made into again.
///
/// # Errors
/// DQ_EMPTY.
#[unsafe(no_mangle)]
pub extern "C" fn dq_free(alloc: Global, queue: &mut QueueHandle) -> DqAnswer
    ensures { FreeSays queue.old.part.value result queue.new.part.value }
{
    if !queue.is_held() {
        return only(DQ_EMPTY);
    }
    *queue = QueueHandle::empty(alloc);
    only(DQ_OK)
}
