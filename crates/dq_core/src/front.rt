//! The front door: what most users of a queue of one owner write.

ghost use Rattle.std.specs.Prelude.{◌≡◌, IfOk, IfErr, MatchResult, length};
ghost use Rattle.dq_ticks.specs.declared.TheConstants.{LAST_STAMP};
ghost use Rattle.dq_core.specs.AtTheCall.{config_of, with_value_back};
ghost use Rattle.dq_core.specs.Ranges.{IsConfigInRange, IsBadNumber};

use crate::errors::{BadNumber, CoreConfig, CoreError};
use crate::queue::DelayCore;
use crate::vec_words::VecWords;
use crate::words::Words;
use dq_ticks::{CAPACITY_LIMIT, Key, LAST_STAMP};
use std::alloc::Allocator;

impl CoreConfig {
    /// Shard 0 with `capacity` slots, and the most stamps a slot, 1,048,575.
    pub fn of(capacity: usize) -> CoreConfig
        ensures { result ≡ config_of capacity }
    {
        CoreConfig {
            shard: 0,
            capacity,
            last_stamp: LAST_STAMP,
        }
    }

    /// Whether a queue can be made by these numbers. `BadConfig` doesn't tell which number is bad, so call this first
    /// if the numbers come from outside.
    ///
    /// # Errors
    /// The first number that is out of its range: the capacity, and then the last stamp.
    pub fn check(&self) -> Result<(), BadNumber>
        ensures { MatchResult result
            (λ _. IsConfigInRange self.now) (λ number. IsBadNumber self.now number) }
    {
        if self.capacity == 0 || self.capacity > CAPACITY_LIMIT {
            return Err(BadNumber::BadCapacity(self.capacity));
        }
        if self.last_stamp == 0 || self.last_stamp > LAST_STAMP {
            return Err(BadNumber::BadLastStamp(self.last_stamp));
        }
        Ok(())
    }
}

impl<T, A: Allocator + Clone + Drop> DelayCore<T, VecWords<A>, A> {
    ghost use Rattle.dq_core.specs.Core.{machine};
    ghost use Rattle.dq_core.specs.Machine.{NoneLinked};
    ghost use Rattle.dq_core.specs.Words.{AreFresh};
    ghost use Rattle.dq_core.specs.Calls.{NewRefused};

    /// Makes a queue of one owner for `capacity` entries, at tick 0, with nothing in it. Its entries are extended and
    /// cancelled by the owner alone. It takes time and memory in proportion to `capacity`. No later call takes
    /// memory.
    ///
    /// # Errors
    /// - `BadConfig` if `capacity` isn't 1 to [`CAPACITY_LIMIT`].
    /// - `NoMemory` if memory is refused.
    pub fn with_capacity(
        alloc: A,
        capacity: usize,
    ) -> Result<DelayCore<T, VecWords<A>, A>, CoreError>
        ensures empty { IfOk result (λ q. NoneLinked (machine q)) }
        ensures start { IfOk result (λ q. (q.noted ≡ 0) × (q.wheel.filing.tick ≡ 0)) }
        ensures size { IfOk result (λ q. (q.shard ≡ 0) × (length q.slots.rows ≡ capacity)) }
        ensures stamps { IfOk result (λ q. q.slots.last_stamp ≡ LAST_STAMP) }
        ensures fresh { IfOk result (λ q. AreFresh q.known q.counts) }
        ensures refused { IfErr result (λ e. NewRefused capacity LAST_STAMP capacity e) }
    {
        if capacity == 0 || capacity > CAPACITY_LIMIT {
            return Err(CoreError::BadConfig);
        }
        let words = VecWords::new(alloc.clone()?, capacity)?;
        match DelayCore::new(alloc, CoreConfig::of(capacity), words) {
            Ok(queue) => Ok(queue),
            Err((error, _)) => Err(error),
        }
    }
}
