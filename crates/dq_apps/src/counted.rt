//! A cache that counts how often it saw what it was asked for.
ghost use Rattle.std.specs.Prelude.{◌≡◌, true, is_some};
ghost use Rattle.dq_apps.specs.Cache.{value_seen};
ghost use Rattle.dq_apps.specs.Memos.{GetsOrSets, CountsOne};

use crate::cache::TtlCache;
use crate::memo::MemoAnswer;
use std::alloc::{Allocator, Global};
use std::hash::{BuildHasher, BuildHasherDefault, FoldHasher, Hash};

/// A cache that counts its look-ups: a hit if a value was seen, and else a miss.
///
/// ```
/// use hontkhale::cache::{CountedCache, TtlCache};
///
/// let mut cache = CountedCache::new(TtlCache::with_capacity(100).unwrap());
/// let long = cache.get_or_insert_with("key", 500, 1_000, || 1).unwrap();
/// let short = cache.get_or_insert_with("key", 500, 1_001, || unreachable!()).unwrap();
/// assert_eq!((long, short, cache.hits(), cache.misses()), (1, 1, 1, 1));
/// ```
///
/// A count stops at the greatest `u64`. A look-up by the field `cache` isn't counted.
#[derive(Drop)]
pub struct CountedCache<
    K: Eq + Hash,
    V,
    A: Allocator = Global,
    S: BuildHasher = BuildHasherDefault<FoldHasher>,
> {
    /// The cache.
    pub cache: TtlCache<K, V, A, S>,
    hits: u64,
    misses: u64,
}

impl<K: Eq + Hash, V, A: Allocator, S: BuildHasher> CountedCache<K, V, A, S> {
    /// Makes a counted cache of `cache`, of which no look-up was counted yet.
    pub fn new(cache: TtlCache<K, V, A, S>) -> CountedCache<K, V, A, S>
        ensures cache { result.cache ≡ cache }
        ensures hits { result.hits ≡ 0 }
        ensures misses { result.misses ≡ 0 }
    {
        CountedCache {
            cache,
            hits: 0,
            misses: 0,
        }
    }

    /// Returns how many look-ups saw a value, at most the greatest `u64`.
    pub fn hits(&self) -> u64
        ensures { result ≡ self.now.hits }
    {
        self.hits
    }

    /// Returns how many look-ups saw no value, at most the greatest `u64`.
    pub fn misses(&self) -> u64
        ensures { result ≡ self.now.misses }
    {
        self.misses
    }

    // Counts a look-up.
    fn count(&mut self, hit: bool)
        ensures counts { CountsOne hit self.old.hits self.old.misses self.new.hits
            self.new.misses }
        ensures cache { self.new.cache ≡ self.old.cache }
    {
        if hit {
            self.hits = self.hits.saturating_add(1);
        } else {
            self.misses = self.misses.saturating_add(1);
        }
    }
}

impl<K: Eq + Hash + Drop, V: Drop, A: Allocator, S: BuildHasher> CountedCache<K, V, A, S> {
    /// Whether a value is seen at `key` at `now`, a tick of one millisecond; the look-up is counted. Constant time.
    pub fn sees(&mut self, key: &K, now: u64) -> bool
        ensures seen { result ≡ is_some (value_seen K.eq self.old.cache key.now now) }
        ensures counts { CountsOne result self.old.hits self.old.misses self.new.hits
            self.new.misses }
        ensures cache { self.new.cache ≡ self.old.cache }
    {
        let hit = self.cache.contains(key, now);
        self.count(hit);
        hit
    }

    /// Returns a copy of the value that is seen at `key`, and counts a hit. If none is seen, counts a miss, calls
    /// `make`, puts a copy of what it made at `key` until `now + ttl`, and returns what it made. `ttl` and `now` are
    /// ticks of one millisecond.
    ///
    /// It takes constant time, except for `make` and the copy, to drop what is due, to grow the map and to refresh
    /// the cache. The last two take memory.
    ///
    /// # Errors
    /// The look-up is counted, and with each comes what `make` made, if it was called. In this order:
    /// - `TickTooLarge` if `now` is beyond the last tick.
    /// - `TooFar` if the deadline is beyond the last tick.
    /// - `Full` if as many keys are kept as the capacity.
    /// - `NoMemory` if the map, a refresh or a copy is refused its memory.
    /// - `Worn`, or `Full` with worn slots, only if the cache was made with a last stamp of 1.
    pub fn get_or_insert_with<F>(&mut self, key: K, ttl: u64, now: u64, make: F) -> MemoAnswer<V>
    where
        F: FnOnce() -> V + Drop,
        K: Clone,
        V: Clone,
        A: Clone,
        requires clones { (k : K) → K.is_clone key k → K.eq key k ≡ true }
        requires callable { F.pre make }
        ensures gets { GetsOrSets K.eq V.is_clone (F.post make) self.old.cache key ttl now result
            self.new.cache }
        ensures counts { CountsOne (is_some (value_seen K.eq self.old.cache key now)) self.old.hits
            self.old.misses self.new.hits self.new.misses }
    {
        self.sees(&key, now);
        self.cache.get_or_insert_with(key, ttl, now, make)
    }
}
