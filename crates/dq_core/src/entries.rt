//! The live entries of a queue, one after the other, and the value of one of them, to be read or changed.

ghost use Rattle.std.specs.Prelude.{◌≡◌, ◌<◌, length, IfSome, MatchOption, Some, None};
ghost use Rattle.std.specs.Iterator.{YieldsFirstBy, item_count};

use crate::queue::DelayCore;
use crate::vec_words::VecWords;
use crate::words::Words;
use dq_ticks::{EntryId, Key, Mark};
use std::alloc::{Allocator, Global};
use std::marker::Model;

/// A live entry of a queue over plain words.
#[derive(Drop)]
pub struct LiveEntry<'a, T> {
    /// Its key, of the present stamp.
    pub key: Key,
    /// Its deadline in force, a tick of one millisecond.
    pub deadline: u64,
    /// Its value.
    pub value: &'a T,
}

/// The live entries of a queue over plain words, as an iterator over those that are left.
///
/// ```
/// use hontkhale::owner::DelayCore;
///
/// let mut queue = DelayCore::with_capacity(4)?;
/// queue.insert_or_drop("a", 10)?;
/// queue.insert_or_drop("b", 20)?;
/// let sum: u64 = queue.entries().map(|entry| entry.deadline).sum();
/// assert_eq!(sum, 30);
/// # Ok::<(), hontkhale::owner::CoreError>(())
/// ```
#[derive(Drop)]
pub struct Entries<'a, T, A: Allocator = Global> {
    queue: &'a DelayCore<T, VecWords<A>, A>,
    slot: usize,
}

impl<'a, T, A: Allocator> Model for Entries<'a, T, A> {
    ghost use Rattle.std.specs.Prelude.{List, drop};
    ghost use Rattle.dq_core.specs.Core.{machine};
    ghost use Rattle.dq_core.specs.Entries.{Listed, listed_from};

    ghost Value = { List (Listed T) };

    ghost view = { λ s. listed_from s.queue.now.shard s.slot
        (drop s.slot (machine s.queue.now).table) };
}

impl<T, W: Words, A: Allocator> DelayCore<T, W, A> {
    ghost use Rattle.dq_core.specs.AtTheCall.{HoldsValue};
    ghost use Rattle.dq_core.specs.Core.{machine};
    ghost use Rattle.dq_core.specs.Calls.{IsMissing, SameCore};
    ghost use Rattle.dq_core.specs.Values.{ChangesEntry, ChangesValue};
    ghost use Rattle.std.specs.Fn.{FnOnceReturnsAtMut};

    /// Returns the value of an entry. It returns none if the entry isn't in the queue any more, or never was. A
    /// cancelled entry has its value until it is freed. Constant time.
    pub fn get(&self, entry: &EntryId) -> Option<&T>
        ensures { MatchOption result (IsMissing self.now entry.now)
            (λ v. HoldsValue self.now entry.now v.now) }
    {
        let Some(index) = self.find(entry) else {
            return None;
        };
        let Some(held) = self.slots.held(index) else {
            return None;
        };
        Some(held.1)
    }

    /// Calls a closure with the value of an entry, which it may change where it is, and returns what it returns. It
    /// returns none, and doesn't call it, if the entry isn't in the queue any more, or never was. A cancelled entry has
    /// its value until it is freed.
    pub fn with_value<R, F: FnOnce(&mut T) -> R>(&mut self, entry: &EntryId, call: F) -> Option<R>
        requires { F.IsAlwaysCallable call }
        // The entry has the value that the closure left, and its deadline as before.
        ensures entry { IfSome result (λ answer. ChangesEntry (FnOnceReturnsAtMut F.FnOnce call)
            (machine self.old) entry.now answer (machine self.new)) }

        // Exactly: the queue with the value that the closure left, and nothing else changes.
        ensures changes { ChangesValue (FnOnceReturnsAtMut F.FnOnce call)
            self.old entry.now result self.new }
        ensures same { SameCore self.old self.new }
    {
        let Some(index) = self.find(entry) else {
            return None;
        };
        let answer = self.slots.with_value(index, call);
        Some(answer)
    }
}

impl<T, A: Allocator> DelayCore<T, VecWords<A>, A> {
    ghost use Rattle.dq_core.specs.Entries.{live_entries, live_entry, ListsEachOnce};

    // The live entry at a slot.
    fn entry_at(&self, slot: usize) -> Option<LiveEntry<'_, T>>
        requires { slot < length self.now.slots.rows }
        ensures { MatchOption result (live_entry self.now slot ≡ None)
            (λ e. live_entry self.now slot
            ≡ Some (record { key = e.key; deadline = e.deadline; value = e.value.now })) }
    {
        let Some(held) = self.slots.held(slot) else {
            return None;
        };
        let word = self.words.word(slot);
        let Mark::LiveMark = word.mark else {
            return None;
        };
        let entry = EntryId::new(self.shard, slot as u32, held.0);
        Some(LiveEntry {
            key: Key::new(entry, word.stamp),
            deadline: word.field,
            value: held.1,
        })
    }

    /// Returns the live entries, one after the other, in the order of their slots: each with its key, its deadline
    /// and its value. A step looks at slots until it finds a live entry, so all steps together take time in
    /// proportion to the slots.
    pub fn entries(&self) -> Entries<'_, T, A>
        // All live entries are left to be given.
        ensures lists { result ≡ live_entries self.now }
        // Each of them stands in that list once, and nothing else does.
        ensures once { ListsEachOnce self.now result }
    {
        Entries {
            queue: self,
            slot: 0,
        }
    }
}

impl<'a, T, A: Allocator> Iterator for Entries<'a, T, A> {
    ghost use Rattle.dq_core.specs.Entries.{Listed};

    type Item = LiveEntry<'a, T>;

    ghost next_gives = { YieldsFirstBy
        (λ e. let x : Listed T = record { key = e.key; deadline = e.deadline; value = e.value.now } in x)
        (λ rest. rest) };

    ghost remaining = { item_count (λ rest. rest) };

    fn next(&mut self) -> Option<LiveEntry<'a, T>> {
        while self.slot < self.queue.capacity() {
            let slot = self.slot;
            self.slot += 1;
            if let Some(entry) = self.queue.entry_at(slot) {
                return Some(entry);
            }
        }
        None
    }
}
