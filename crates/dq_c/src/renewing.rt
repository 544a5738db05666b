//! An empty queue goes on for years: over fresh words, under a higher number.
ghost use Rattle.dq_c.specs.Renewing.{CoreRenews, RenewSays};

use crate::answers::{
    DQ_EMPTY, DQ_NO_MEMORY, DQ_OK, DQ_STILL_LINKED, DQ_USED_NUMBER, DqAnswer, only, with_one,
};
use crate::handle::QueueHandle;
use dq_core::DelayCore;
use dq_words::Keeper;
use std::alloc::Global;

// Renews a queue that a handle holds.
fn renew(alloc: Global, core: &mut DelayCore<u64, Keeper>, shard: u32) -> DqAnswer
    ensures { CoreRenews core.old shard result core.new }
{
    let linked = core.len();
    if linked > 0 {
        return with_one(DQ_STILL_LINKED, linked as u64);
    }
    let number = core.shard();
    if shard <= number {
        return with_one(DQ_USED_NUMBER, u64::from(number));
    }
    let Ok(keeper) = Keeper::new(alloc, core.capacity()) else {
        return only(DQ_NO_MEMORY);
    };
    match core.renew(shard, keeper) {
        Ok(_old) => only(DQ_OK),
        Err(_refused) => unreachable!(),
    }
}

/// Goes on with an empty queue under the number `shard`, with all its stamps: no slot is worn then. The ticks go on.
/// Every key from before is refused for good, by the queue and by callers that are issued from now on. Callers from
/// before stay at the old words and the old number, and reach nothing new. It takes memory for the words, and goes
/// over every slot.
///
/// # Errors
/// DQ_EMPTY, DQ_STILL_LINKED with how many entries are linked, DQ_USED_NUMBER with the queue's number where `shard`
/// isn't higher, DQ_NO_MEMORY; nothing changes then.
#[unsafe(no_mangle)]
pub extern "C" fn dq_renew(alloc: Global, queue: &mut QueueHandle, shard: u32) -> DqAnswer
    ensures { RenewSays queue.old.part.value shard result queue.new.part.value }
{
    if !queue.is_held() {
        return only(DQ_EMPTY);
    }
    renew(alloc, &mut queue.part.get_mut().core, shard)
}
