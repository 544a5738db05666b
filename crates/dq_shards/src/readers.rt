//! What a shard's state tells of its queue.
ghost use Rattle.std.specs.Prelude.{◌≡◌, ◌↔◌, IsTrue, length};
ghost use Rattle.std.specs.List.{count_by};
ghost use Rattle.dq_core.specs.Slots.{is_held};
ghost use Rattle.dq_core.specs.Calls.{TellsWake};
ghost use Rattle.dq_core.specs.Readers.{IsTally, TellsLeast, TellsPlace, TellsFiled};

use crate::state::ShardState;
use dq_core::Tally;
use dq_ticks::{EntryId, Key};
use dq_wheel::Place;
use std::alloc::Allocator;

impl<T, A: Allocator> ShardState<T, A> {
    /// The number of the shard, which its keys carry.
    #[inline]
    pub fn shard(&self) -> u32
        ensures { result ≡ self.now.core.shard }
    {
        self.watched.core.shard()
    }

    /// Returns the tick, of one millisecond, at which the shard has something to do next. It returns none if nothing
    /// is linked. No live entry has a deadline before that tick; the least deadline may be later. Constant time.
    pub fn next_wake(&self) -> Option<u64>
        ensures { TellsWake self.now.core result }
    {
        self.watched.core.next_wake()
    }

    /// The number of linked entries, live or cancelled and not yet reaped.
    pub fn len(&self) -> usize
        ensures { result ≡ count_by is_held self.now.core.slots.rows }
    {
        self.watched.core.len()
    }

    /// Whether nothing is linked.
    pub fn is_empty(&self) -> bool
        ensures { IsTrue result ↔ (count_by is_held self.now.core.slots.rows ≡ 0) }
    {
        self.watched.core.is_empty()
    }

    /// The number of slots.
    pub fn capacity(&self) -> usize
        ensures { result ≡ length self.now.core.slots.rows }
    {
        self.watched.core.capacity()
    }

    /// The wheel's tick of one millisecond, which is not after the noted one.
    pub fn tick(&self) -> u64
        ensures { result ≡ self.now.core.wheel.filing.tick }
    {
        self.watched.core.tick()
    }

    /// The greatest tick of one millisecond that a poll accepted; at first 0.
    pub fn noted(&self) -> u64
        ensures { result ≡ self.now.core.noted }
    {
        self.watched.core.noted()
    }

    /// Returns how many entries came and went, and how many are linked. A cancelled entry counts as cancelled only
    /// once it is reaped, so there may have been more cancels; an audit tells them. Constant time.
    pub fn tally(&self) -> Tally
        ensures { IsTally self.now.core result }
    {
        self.watched.core.tally()
    }

    /// Returns the key of an entry that is scheduled first, possibly a cancelled one. It returns none if nothing is
    /// linked. No live entry has a deadline before the tick at which that one is scheduled.
    pub fn peek(&self) -> Option<Key>
        ensures { TellsLeast self.now.core result }
    {
        self.watched.core.peek()
    }

    /// Returns where an entry stands in the wheel. It returns none if the entry isn't linked here.
    pub fn place(&self, entry: &EntryId) -> Option<Place>
        ensures { TellsPlace self.now.core entry.now result }
    {
        self.watched.core.place(entry)
    }

    /// Returns the tick, of one millisecond, at which an entry is scheduled, which isn't after its deadline. It
    /// returns none if the entry isn't linked here.
    pub fn filed(&self, entry: &EntryId) -> Option<u64>
        ensures { TellsFiled self.now.core entry.now result }
    {
        self.watched.core.filed(entry)
    }
}
