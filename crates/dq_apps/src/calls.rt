//! The calls that change a cache.
ghost use Rattle.std.specs.Prelude.{◌≡◌, ℕ, ◌+◌, true, None, IfOk, IfErr, OnOk, OnErr};
ghost use Rattle.dq_apps.specs.Cache.{moment_at, value_seen};
ghost use Rattle.dq_apps.specs.Calls.{Takes, Renews, Puts, Purges, TakesExpired};
ghost use Rattle.dq_apps.specs.AtTheCall.{ShowsPut, HandsBack, ShowsRenewal, IsGone};
ghost use Rattle.dq_apps.specs.AtTheCall.{KeepsSeen, KeepsOthers, NoneDueNow, kept_count};

use crate::cache::TtlCache;
use crate::stock::{renew_at, timer_of};
use dq_core::CoreError;
use dq_ticks::LAST_TICK;
use std::alloc::Allocator;
use std::hash::{BuildHasher, Hash};

/// What a put returns: the value that was seen at its key before; or why it is refused, with key and value.
pub type PutAnswer<K, V> = Result<Option<V>, (CoreError, K, V)>;

impl<K: Eq + Hash + Drop, V: Drop, A: Allocator, S: BuildHasher> TtlCache<K, V, A, S> {
    /// Puts `value` at `key` until `now + ttl`, and returns the value that was seen there before. `ttl` and `now` are
    /// ticks of one millisecond. If `now` is before the cache's moment, the moment is taken instead; else `now`
    /// becomes the moment. What is due at that moment is dropped first. [`TtlCache::set`] does the same, and goes on
    /// if a slot has no stamp left.
    ///
    /// It takes constant time, except to drop what is due and to grow the map. It takes memory only to grow the map.
    ///
    /// # Errors
    /// `key` and `value` come back. In this order:
    /// - `TickTooLarge` if `now` is beyond the last tick. Nothing changes then.
    /// - `TooFar` if the deadline is beyond the last tick. Nothing changes then.
    /// - `Worn` if the key is kept, and its slot has no stamp left.
    /// - `Full` if the key isn't kept, and no slot is free.
    /// - `NoMemory` if the map is refused its memory.
    ///
    /// # Panics
    /// In Rust a key's hash, comparison or clone may panic here. The put is lost then, and what was kept goes on
    /// until its deadline. If the map moves its keys at that moment, std's map may lose some, which are dropped with
    /// their values.
    pub fn put(&mut self, key: K, value: V, ttl: u64, now: u64) -> PutAnswer<K, V>
    where
        K: Clone,
        A: Clone,
        requires clones { (k : K) → K.is_clone key k → K.eq key k ≡ true }
        ensures puts { Puts K.eq self.old key value ttl now result self.new }

        // The value is seen until its deadline, and the one that was seen before comes back.
        ensures seen { IfOk result (ShowsPut K.eq self.old key value ttl now self.new) }

        // At other keys the same is seen; and at all keys, where the put is refused.
        ensures others { KeepsOthers K.eq self.old self.new key now }
        ensures refused { IfErr result (HandsBack K.eq self.old key value now self.new) }
    {
        self.law();
        if now > LAST_TICK {
            return Err((CoreError::TickTooLarge { limit: LAST_TICK }, key, value));
        }
        let moment = now.max(self.moment());
        if LAST_TICK - moment < ttl {
            return Err((CoreError::TooFar { limit: LAST_TICK }, key, value));
        }
        self.pass(moment);
        self.drop_due();
        let when = moment + ttl;
        if self.holds(&key) {
            match self.replace(&key, value, when) {
                Ok(old) => Ok(Some(old)),
                Err(value) => Err((CoreError::Worn, key, value)),
            }
        } else {
            self.add(key, value, when)?;
            Ok(None)
        }
    }

    /// Takes out the value that is seen at `key` at `now`, a tick of one millisecond, and returns it. It returns none
    /// if none is seen. The moment stays. Constant time.
    pub fn take(&mut self, key: &K, now: u64) -> Option<V>
        ensures takes { Takes K.eq self.old key.now (moment_at self.old now) result self.new }

        // What was seen comes out, and is gone.
        ensures taken { result ≡ value_seen K.eq self.old key.now now }
        ensures gone { IsGone K.eq self.new key.now now }

        // At other keys the same is seen, at every tick.
        ensures others { KeepsOthers K.eq self.old self.new key.now 0 }
        ensures moment { self.new.moment ≡ self.old.moment }
    {
        self.law();
        let Some(timer) = timer_of(&self.stock, key) else {
            return None;
        };
        if timer.deadline <= now.max(self.moment) {
            return None;
        }
        let Some(kept) = self.stock.remove(key) else {
            unreachable!();
        };
        self.timers.stop(&timer.key);
        Some(kept.value)
    }

    /// Gives the key that is seen at `now` the deadline `now + ttl`, sooner or later than the one that it has, and
    /// returns the new deadline. `ttl` and `now` are ticks of one millisecond. If `now` is before the cache's moment,
    /// the moment is taken instead; else `now` becomes the moment. [`TtlCache::touch`] does the same, and goes on if
    /// the slot has no stamp left. Constant time.
    ///
    /// # Errors
    /// Nothing changes then. In this order:
    /// - `TickTooLarge` if `now` is beyond the last tick.
    /// - `TooFar` if the new deadline is beyond the last tick.
    /// - `Missing` if the key isn't seen.
    /// - `Worn` if the key's slot has no stamp left.
    pub fn renew(&mut self, key: &K, ttl: u64, now: u64) -> Result<u64, CoreError>
        ensures renews { Renews K.eq self.old key.now ttl now result self.new }

        // What was seen is seen until its new deadline.
        ensures seen { IfOk result (ShowsRenewal K.eq self.old key.now ttl now self.new) }

        // At other keys the same is seen. A refusal changes nothing.
        ensures others { KeepsOthers K.eq self.old self.new key.now now }
        ensures refused { OnErr result (self.new ≡ self.old) }
    {
        self.law();
        if now > LAST_TICK {
            return Err(CoreError::TickTooLarge { limit: LAST_TICK });
        }
        let moment = now.max(self.moment);
        if LAST_TICK - moment < ttl {
            return Err(CoreError::TooFar { limit: LAST_TICK });
        }
        let Some(timer) = timer_of(&self.stock, key) else {
            return Err(CoreError::Missing);
        };
        if timer.deadline <= moment {
            return Err(CoreError::Missing);
        }
        let when = moment + ttl;
        let Some(next) = self.timers.restart(&timer.key, when) else {
            return Err(CoreError::Worn);
        };
        renew_at(&mut self.stock, key, when, next);
        self.moment = moment;
        Ok(when)
    }

    /// Drops what is due at `now`, a tick of one millisecond, and returns how many keys these were. If `now` is
    /// before the cache's moment, the moment is taken instead; else `now` becomes the moment. It takes time in
    /// proportion to what it drops.
    ///
    /// # Errors
    /// `TickTooLarge` if `now` is beyond the last tick. Nothing changes then.
    ///
    /// # Panics
    /// In Rust a key's hash or comparison may panic here. The pair of that key is dropped then, and what else is due
    /// is left for a later call.
    pub fn purge(&mut self, now: u64) -> Result<usize, CoreError>
        ensures purges { Purges self.old now result self.new }

        // What is dropped is counted, and was due.
        ensures dropped { IfOk result (λ n. kept_count self.new + n ≡ kept_count self.old) }
        ensures rest { OnOk result (NoneDueNow self.new) }
        ensures seen { KeepsSeen K.eq self.old self.new now }
        ensures refused { OnErr result (self.new ≡ self.old) }
    {
        if now > LAST_TICK {
            return Err(CoreError::TickTooLarge { limit: LAST_TICK });
        }
        let moment = now.max(self.moment());
        self.pass(moment);
        Ok(self.drop_due())
    }

    /// Takes out one key that is due at `now`, a tick of one millisecond, and returns it with its value. It returns
    /// none if nothing is due. So whoever calls it until none comes gets each pair that a purge would drop. If `now`
    /// is before the cache's moment, the moment is taken instead; else `now` becomes the moment. It takes as long as
    /// one poll of a delay queue.
    ///
    /// # Errors
    /// `TickTooLarge` if `now` is beyond the last tick. Nothing changes then.
    ///
    /// # Panics
    /// In Rust a key's hash or comparison may panic here. The pair of that key is dropped then.
    pub fn take_expired(&mut self, now: u64) -> Result<Option<(K, V)>, CoreError>
        ensures takes { TakesExpired self.old now result self.new }

        // Where none is answered nothing is due. From then on the same is seen.
        ensures rest { IfOk result (λ out. out ≡ None → NoneDueNow self.new) }
        ensures seen { KeepsSeen K.eq self.old self.new now }
        ensures refused { OnErr result (self.new ≡ self.old) }
    {
        if now > LAST_TICK {
            return Err(CoreError::TickTooLarge { limit: LAST_TICK });
        }
        let moment = now.max(self.moment());
        self.pass(moment);
        Ok(self.take_due())
    }
}
