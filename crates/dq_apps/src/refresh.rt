//! The stamps of a cache begin again, so that it runs for years.
ghost use Rattle.std.specs.Prelude.{◌≡◌, ◌≤◌, ◌↔◌, true, IsTrue, IfOk, IfErr, OnOk, OnErr};
ghost use Rattle.std.specs.List.{count_by};
ghost use Rattle.dq_core.specs.declared.errors.CoreError.TheVariants.{Worn};
ghost use Rattle.dq_apps.specs.Calls.{is_used_up};
ghost use Rattle.dq_apps.specs.AtTheCall.{ShowsPut, HandsBack, ShowsRenewal};
ghost use Rattle.dq_apps.specs.AtTheCall.{KeepsSeen, KeepsOthers, kept_count};
ghost use Rattle.dq_apps.specs.Refreshes.{Refreshes, Touches, Sets, WantsStamps};

use crate::cache::TtlCache;
use crate::calls::PutAnswer;
use crate::moves::move_all;
use dq_core::CoreError;
use std::alloc::Allocator;
use std::hash::{BuildHasher, Hash};

// Whether a call was refused for want of stamps.
fn wants_stamps(error: &CoreError) -> bool
    ensures { IsTrue result ↔ WantsStamps error.now }
{
    match error {
        CoreError::Worn => true,
        CoreError::Full { worn, .. } => *worn > 0,
        _ => false,
    }
}

impl<K, V, A, S> TtlCache<K, V, A, S>
where
    K: Eq + Hash + Drop,
    V: Drop,
    A: Allocator + Clone,
    S: BuildHasher,
{
    /// Gives every slot all of its stamps again, so that no slot is worn. The same keys are kept, and the same values
    /// are seen at every tick.
    ///
    /// It takes time in proportion to the kept keys and the capacity. It takes memory as a new cache does, and gives
    /// back as much when it returns.
    ///
    /// # Errors
    /// `NoMemory` if memory is refused. Nothing changes then.
    pub fn refresh(&mut self) -> Result<(), CoreError>
        ensures refreshes { Refreshes self.old result self.new }

        // The same is seen at every key and every tick, and as much is kept.
        ensures seen { KeepsSeen K.eq self.old self.new 0 }
        ensures count { kept_count self.new ≡ kept_count self.old }

        // No slot is worn.
        ensures worn { OnOk result
            (count_by (is_used_up self.new.last_stamp) self.new.slots ≡ 0) }
    {
        self.timers.law();
        let mut fresh = self.timers.anew()?;
        move_all(&mut self.stock, &mut self.timers, &mut fresh);
        self.timers = fresh;
        Ok(())
    }

    /// Gives the key that is seen at `now` the deadline `now + ttl`, sooner or later than the one that it has, and
    /// returns the new deadline. `ttl` and `now` are ticks of one millisecond. If `now` is before the cache's moment,
    /// the moment is taken instead; else `now` becomes the moment.
    ///
    /// It never stops for want of stamps: if the key's slot has none left, the call refreshes the cache first
    /// ([`TtlCache::refresh`]), and then renews the key. It takes constant time, and no memory, unless it refreshes.
    ///
    /// # Errors
    /// The same values are seen after a refusal. In this order:
    /// - `TickTooLarge` if `now` is beyond the last tick.
    /// - `TooFar` if the new deadline is beyond the last tick.
    /// - `Missing` if the key isn't seen.
    /// - `NoMemory` if a refresh is refused its memory.
    /// - `Worn` only if the cache was made with a last stamp of 1, so that no key can be renewed.
    ///
    /// ```
    /// use hontkhale::cache::TtlCache;
    ///
    /// let mut cache = TtlCache::with_capacity(100).unwrap();
    /// cache.set("key", 1, 500, 1_000).unwrap();
    /// assert_eq!(cache.touch(&"key", 500, 1_400), Ok(1_900));
    /// assert_eq!(cache.get(&"key", 1_899), Some(&1));
    /// ```
    pub fn touch(&mut self, key: &K, ttl: u64, now: u64) -> Result<u64, CoreError>
        ensures touches { Touches K.eq self.old key.now ttl now result self.new }

        // What was seen is seen until its new deadline.
        ensures seen { IfOk result (ShowsRenewal K.eq self.old key.now ttl now self.new) }

        // At other keys the same is seen; and at all keys, where it is refused.
        ensures others { KeepsOthers K.eq self.old self.new key.now now }
        ensures refused { OnErr result (KeepsSeen K.eq self.old self.new 0) }

        // It is not refused for want of stamps, where there are two.
        ensures worn { IfErr result (λ e. e ≡ Worn → self.old.last_stamp ≤ 1) }
    {
        let error = match self.renew(key, ttl, now) {
            Ok(deadline) => return Ok(deadline),
            Err(error) => error,
        };
        if !wants_stamps(&error) {
            return Err(error);
        }
        if let Err(refused) = self.refresh() {
            return Err(refused);
        }
        self.renew(key, ttl, now)
    }

    /// Puts `value` at `key` until `now + ttl`, and returns the value that was seen there before. `ttl` and `now` are
    /// ticks of one millisecond. If `now` is before the cache's moment, the moment is taken instead; else `now`
    /// becomes the moment. What is due at that moment is dropped first.
    ///
    /// It never stops for want of stamps: if the slot that it needs has none left, the call refreshes the cache first
    /// ([`TtlCache::refresh`]), and then puts the value. It takes constant time, except to drop what is due, to grow
    /// the map and to refresh. The last two take memory.
    ///
    /// # Errors
    /// `key` and `value` come back. In this order:
    /// - `TickTooLarge` if `now` is beyond the last tick. Nothing changes then.
    /// - `TooFar` if the deadline is beyond the last tick. Nothing changes then.
    /// - `Full` if the key isn't kept, and as many keys are kept as the capacity.
    /// - `NoMemory` if the map or a refresh is refused its memory.
    /// - `Worn`, or `Full` with worn slots, only if the cache was made with a last stamp of 1.
    ///
    /// ```
    /// use hontkhale::cache::TtlCache;
    ///
    /// let mut cache = TtlCache::with_capacity(100).unwrap();
    /// assert_eq!(cache.set("key", 1, 500, 1_000), Ok(None));
    /// assert_eq!(cache.set("key", 2, 500, 1_200), Ok(Some(1)));
    /// assert_eq!(cache.get(&"key", 1_699), Some(&2));
    /// assert_eq!(cache.get(&"key", 1_700), None);
    /// ```
    pub fn set(&mut self, key: K, value: V, ttl: u64, now: u64) -> PutAnswer<K, V>
    where
        K: Clone,
        requires clones { (k : K) → K.is_clone key k → K.eq key k ≡ true }
        ensures sets { Sets K.eq self.old key value ttl now result self.new }

        // The value is seen until its deadline, and the one that was seen before comes back.
        ensures seen { IfOk result (ShowsPut K.eq self.old key value ttl now self.new) }

        // At other keys the same is seen; and at all keys, where it is refused.
        ensures others { KeepsOthers K.eq self.old self.new key now }
        ensures refused { IfErr result (HandsBack K.eq self.old key value now self.new) }

        // It is not refused for want of stamps, where there are two.
        ensures worn { IfErr result (λ e. WantsStamps e.0 → self.old.last_stamp ≤ 1) }
    {
        let (error, key, value) = match self.put(key, value, ttl, now) {
            Ok(old) => return Ok(old),
            Err(back) => back,
        };
        if !wants_stamps(&error) {
            return Err((error, key, value));
        }
        if let Err(refused) = self.refresh() {
            return Err((refused, key, value));
        }
        self.put(key, value, ttl, now)
    }
}
