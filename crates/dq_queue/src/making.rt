//! Cores of a queue, each of whose words stand in the queue's directory under the core's number.
ghost use Rattle.std.specs.Prelude.{◌≡◌, IfErr, IfOk, length};
ghost use Rattle.dq_core.specs.Core.{machine};
ghost use Rattle.dq_core.specs.Machine.{NoneLinked};
ghost use Rattle.dq_words.specs.Claims.{IsOf};

use dq_core::{CoreConfig, DelayCore};
use dq_words::directory::{AddError, Claim, Clerk};
use dq_words::{Keeper, OpenWords};
use std::alloc::Allocator;
use thiserror::Error;

/// Why a core isn't made.
#[derive(Clone, Copy, Debug, PartialEq, Eq, Error)]
pub enum MakeError {
    /// A number of the configuration is out of its range.
    #[error("a number of the configuration is out of its range")]
    BadConfig,
    /// Memory was refused.
    #[error("out of memory")]
    NoMemory,
    /// The directory has given each number.
    #[error("each number was given to a core")]
    NoNumber,
}

/// Makes a core with nothing in it, under the next number of the clerk's directory, in which its words stand from then
/// on. It takes time and memory in proportion to the capacity, and no lock. `config.shard` isn't read.
///
/// # Errors
/// In this order:
/// - `BadConfig` if the capacity or the last stamp is out of its range.
/// - `NoMemory` if memory is refused. The directory may have given a number that no core has.
/// - `NoNumber` if the directory has given each number.
pub fn numbered_core<T, A: Allocator + Clone + Drop>(
    alloc: A,
    clerk: &mut Clerk<OpenWords<A>, A>,
    config: CoreConfig,
) -> Result<(DelayCore<T, Keeper<A>, A>, Claim<OpenWords<A>, A>), MakeError>
    // Its number is claimed to be that of its words, in this directory.
    ensures claimed { IfOk result (λ r. IsOf clerk.old.rows r.1 × (r.1.number ≡ r.0.shard)) }
    ensures words { IfOk result (λ r. r.1.thing.table ≡ r.0.words.table) }

    // It has that many slots, and nothing in it.
    ensures empty { IfOk result (λ r. NoneLinked (machine r.0)) }
    ensures size { IfOk result (λ r. length r.0.slots.rows ≡ config.capacity) }
    ensures stamps { IfOk result (λ r. r.0.slots.last_stamp ≡ config.last_stamp) }
    ensures same { clerk.new.rows ≡ clerk.old.rows }
{
    if config.check().is_err() {
        return Err(MakeError::BadConfig);
    }
    let Ok(heap) = alloc.clone() else {
        return Err(MakeError::NoMemory);
    };
    let Ok(mut keeper) = Keeper::new(heap, config.capacity) else {
        return Err(MakeError::NoMemory);
    };
    let Ok(words) = keeper.open() else {
        return Err(MakeError::NoMemory);
    };
    let claim = match clerk.add(words) {
        Ok(claim) => claim,
        Err((AddError::Full { most: _ }, _)) => return Err(MakeError::NoNumber),
        Err((AddError::NoMemory, _)) => return Err(MakeError::NoMemory),
    };
    let config = CoreConfig {
        shard: claim.number(),
        capacity: config.capacity,
        last_stamp: config.last_stamp,
    };
    match DelayCore::new(alloc, config, keeper) {
        Ok(core) => Ok((core, claim)),
        Err(_) => Err(MakeError::NoMemory),
    }
}
