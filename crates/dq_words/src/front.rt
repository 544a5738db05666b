//! The front door: what most users of a queue with callers write.

ghost use Rattle.std.specs.Prelude.{◌≡◌, IfOk, IfErr, length};
ghost use Rattle.dq_ticks.specs.declared.TheConstants.{LAST_STAMP};
ghost use Rattle.dq_core.specs.Core.{machine};
ghost use Rattle.dq_core.specs.Machine.{NoneLinked};
ghost use Rattle.dq_core.specs.Words.{AreFresh};
ghost use Rattle.dq_core.specs.Calls.{NewRefused};
ghost use Rattle.dq_words.specs.AtTheCall.{KnowsNothing};
ghost use Rattle.dq_words.specs.Shards.{IsFreshQueue};

use crate::keeper::Keeper;
use dq_core::{CoreConfig, CoreError, DelayCore};
use dq_ticks::{CAPACITY_LIMIT, LAST_STAMP};
use std::alloc::Allocator;

/// Makes a queue of one owner for `capacity` entries, at tick 0, with nothing in it, whose entries callers extend and
/// cancel from any thread: [`DelayCore::issue`] makes a caller. It takes time and memory in proportion to `capacity`.
/// Later only `issue` takes memory.
///
/// # Errors
/// - `BadConfig` if `capacity` isn't 1 to [`CAPACITY_LIMIT`].
/// - `NoMemory` if memory is refused.
pub fn shared_queue<T, A: Allocator + Clone + Drop>(
    alloc: A,
    capacity: usize,
) -> Result<DelayCore<T, Keeper<A>, A>, CoreError>
    ensures empty { IfOk result (λ q. NoneLinked (machine q)) }
    ensures start { IfOk result (λ q. (q.noted ≡ 0) × (q.wheel.filing.tick ≡ 0)) }
    ensures size { IfOk result (λ q. (q.shard ≡ 0) × (length q.slots.rows ≡ capacity)) }
    ensures stamps { IfOk result (λ q. q.slots.last_stamp ≡ LAST_STAMP) }
    ensures fresh { IfOk result (λ q. AreFresh q.known q.counts × KnowsNothing q.words) }
    ensures refused { IfErr result (λ e. NewRefused capacity LAST_STAMP capacity e) }
{
    numbered_queue(alloc, CoreConfig::of(capacity))
}

/// Makes a queue of one owner by the numbers of `config`, at tick 0, with nothing in it, whose entries callers extend
/// and cancel from any thread. Its keys carry the number `config.shard`, and a slot is worn after the stamp
/// `config.last_stamp`. It takes time and memory in proportion to the capacity.
///
/// # Errors
/// - `BadConfig` if the capacity isn't 1 to [`CAPACITY_LIMIT`], or the last stamp isn't 1 to [`LAST_STAMP`].
/// - `NoMemory` if memory is refused.
pub fn numbered_queue<T, A: Allocator + Clone + Drop>(
    alloc: A,
    config: CoreConfig,
) -> Result<DelayCore<T, Keeper<A>, A>, CoreError>
    ensures empty { IfOk result (λ q. NoneLinked (machine q)) }
    ensures start { IfOk result (λ q. (q.noted ≡ 0) × (q.wheel.filing.tick ≡ 0)) }
    ensures size { IfOk result
        (λ q. (q.shard ≡ config.shard) × (length q.slots.rows ≡ config.capacity)) }
    ensures stamps { IfOk result (λ q. q.slots.last_stamp ≡ config.last_stamp) }
    ensures fresh { IfOk result (λ q. AreFresh q.known q.counts × KnowsNothing q.words) }
    ensures refused { IfErr result
        (λ e. NewRefused config.capacity config.last_stamp config.capacity e) }

    // Exactly: what the new queue is.
    ensures made { IfOk result
        (λ q. IsFreshQueue config.shard config.capacity config.last_stamp 0 q) }
{
    if config.check().is_err() {
        return Err(CoreError::BadConfig);
    }
    let Ok(keeper) = Keeper::new(alloc.clone()?, config.capacity) else {
        return Err(CoreError::NoMemory);
    };
    match DelayCore::new(alloc, config, keeper) {
        Ok(queue) => Ok(queue),
        Err((error, _)) => Err(error),
    }
}
