//! Queues in shards: a row of them, each behind a lock of its own.
ghost use Rattle.std.specs.Prelude.{◌≡◌, IfOk, IfErr, vec_len};
ghost use Rattle.dq_core.specs.Calls.{NewRefused};
ghost use Rattle.dq_words.specs.Shards.{IsNewShard};

use crate::front::numbered_queue;
use crate::keeper::Keeper;
use dq_core::{CoreConfig, CoreError, DelayCore};
use std::alloc::Allocator;
use std::sync::Mutex;

// One shard, made of a queue with nothing in it. The row's number stands in the place of the configuration's.
fn numbered_shard<T, S: From<DelayCore<T, Keeper<A>, A>>, A: Allocator + Clone + Drop>(
    alloc: A,
    number: u32,
    config: &CoreConfig,
) -> Result<S, CoreError>
    ensures made { IfOk result (λ s. IsNewShard S.from_gives number config.now s) }
    ensures refused { IfErr result
        (λ e. NewRefused config.now.capacity config.now.last_stamp config.now.capacity e) }
{
    let numbered = CoreConfig {
        shard: number,
        capacity: config.capacity,
        last_stamp: config.last_stamp,
    };
    match numbered_queue(alloc, numbered) {
        Ok(core) => Ok(S::from(core)),
        Err(error) => Err(error),
    }
}

/// A row of so many shards, each made of an empty queue and behind a lock of its own. The shard at place n has the
/// number n, whatever number the configuration has. All memory of the row and of its queues is taken here, but for
/// each caller's own.
///
/// # Errors
/// BadConfig where the capacity isn't 1 to [`dq_ticks::CAPACITY_LIMIT`] or the last stamp isn't 1 to
/// [`dq_ticks::LAST_STAMP`], and else NoMemory.
pub fn locked_shards<T, S: From<DelayCore<T, Keeper<A>, A>> + Drop, A: Allocator + Clone + Drop>(
    alloc: A,
    shards: u32,
    config: CoreConfig,
) -> Result<Vec<Mutex<S>, A>, CoreError>
    ensures count { IfOk result (λ row. vec_len row ≡ shards) }
    ensures refused { IfErr result
        (λ e. NewRefused config.capacity config.last_stamp config.capacity e) }
{
    if config.check().is_err() {
        return Err(CoreError::BadConfig);
    }
    let mut row = Vec::with_capacity(alloc.clone()?, shards as usize)?;
    for number in 0..shards {
        let shard = numbered_shard(alloc.clone()?, number, &config)?;
        row.push_reserved(Mutex::new(shard));
    }
    Ok(row)
}
