//! What the calls of a cache are made of, each exact.
ghost use Rattle.std.specs.Prelude.{◌≡◌, ◌≤◌, true};
ghost use Rattle.dq_apps.specs.Calls.{at_moment, due_count, purged, IsAbsent, TakesDue};
ghost use Rattle.dq_apps.specs.Steps.{IsKept, PutsKept, PutsNew};

use crate::cache::TtlCache;
use crate::kept::Kept;
use crate::stock::{renew_at, replace_at, timer_of};
use dq_core::CoreError;
use dq_ticks::LAST_TICK;
use std::alloc::Allocator;
use std::hash::{BuildHasher, Hash};

impl<K: Eq + Hash + Drop, V: Drop, A: Allocator, S: BuildHasher> TtlCache<K, V, A, S> {
    // Sets the moment.
    pub(crate) fn pass(&mut self, moment: u64)
        requires later { self.old.moment ≤ moment }
        requires tick { moment ≤ LAST_TICK }
        ensures { self.new ≡ at_moment self.old moment }
    {
        self.moment = moment;
    }

    // Takes out one entry that is due at the moment, if there is one.
    pub(crate) fn take_due(&mut self) -> Option<(K, V)>
        ensures { TakesDue self.old result self.new }
    {
        let Some(key) = self.timers.stop_due(self.moment) else {
            return None;
        };
        match self.stock.remove(&key) {
            Some(kept) => Some((key, kept.value)),
            None => unreachable!(),
        }
    }

    // Drops all that is due at the moment, and answers how much.
    pub(crate) fn drop_due(&mut self) -> usize
        ensures count { result ≡ due_count self.old.moment self.old.slots }
        ensures purged { self.new ≡ purged self.old self.old.moment }
    {
        self.law();
        let mut dropped = 0usize;
        while let Some(_due) = self.take_due() {
            dropped += 1;
        }
        dropped
    }

    // Whether a key is kept, seen or due.
    pub(crate) fn holds(&self, key: &K) -> bool
        ensures yes { result ≡ true → IsKept K.eq self.now key.now }
        ensures no { (result ≡ true → ⊥) → IsAbsent K.eq self.now key.now }
    {
        let _ = &self.moment;
        self.stock.contains_key(key)
    }

    // Puts a value at a key that is kept; hands it back where the slot has no stamp left.
    pub(crate) fn replace(&mut self, key: &K, value: V, when: u64) -> Result<V, V>
        requires kept { IsKept K.eq self.old key.now }
        requires later { self.old.moment ≤ when }
        requires tick { when ≤ LAST_TICK }
        ensures { PutsKept K.eq self.old key.now value when result self.new }
    {
        let Some(timer) = timer_of(&self.stock, key) else {
            unreachable!();
        };
        match self.timers.restart(&timer.key, when) {
            Some(next) => Ok(replace_at(&mut self.stock, key, value, when, next)),
            None => Err(value),
        }
    }

    // Puts a key that isn't kept at a free slot.
    pub(crate) fn add(&mut self, key: K, value: V, when: u64) -> Result<(), (CoreError, K, V)>
    where
        K: Clone,
        A: Clone,
        requires absent { IsAbsent K.eq self.old key }
        requires clones { (k : K) → K.is_clone key k → K.eq key k ≡ true }
        requires later { self.old.moment ≤ when }
        requires tick { when ≤ LAST_TICK }
        ensures { PutsNew K.eq self.old key value when result self.new }
    {
        let (linked, worn) = (self.timers.len(), self.timers.worn());
        if linked + worn == self.timers.capacity() {
            return Err((CoreError::Full { linked, worn }, key, value));
        }
        let Ok(copy) = key.clone() else {
            return Err((CoreError::NoMemory, key, value));
        };
        if self.stock.reserve(1).is_err() {
            return Err((CoreError::NoMemory, key, value));
        }
        let timer = self.timers.start(copy, when);
        let kept = Kept {
            value,
            deadline: when,
            key: timer,
        };
        match self.stock.insert(key, kept) {
            Ok(_) => Ok(()),
            Err(_) => unreachable!(),
        }
    }
}
