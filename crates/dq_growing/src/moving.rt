//! An entry goes on in the open core: one call takes it out and puts it in there, and loses nothing.
//!
//! A core that drains may wait long for its last entries. They are moved, and so is an entry whose slot has no stamp
//! left. Callers extend and cancel the entry until the step that takes it out, and the deadline that it has at that
//! step is the one with which it goes on.
ghost use Rattle.std.specs.Prelude.{◌≡◌, ◌≢◌, ◌+◌, ◌<◌, ◌≤◌, ◌⊎◌, true, false, length, None, IfOk, IfErr, OnOk, OnErr, MatchOption};
ghost use Rattle.dq_ticks.specs.declared.TheConstants.{LAST_TICK};
ghost use Rattle.dq_core.specs.AtTheCall.{linked_in};
ghost use Rattle.dq_core.specs.Calls.{SameCore, base_for};
ghost use Rattle.dq_core.specs.Core.{machine};
ghost use Rattle.dq_core.specs.Machine.{table_at};
ghost use Rattle.dq_core.specs.Words.{StillBegun};
ghost use Rattle.dq_growing.specs.Moving.{next_of, is_beyond, IfTo, IfCameOut, UnlessTo, worn_in, HasFreeSlot, HasOpenRoom, IsFull, PutsIn, Relocates, GoesOnIn, ComesInOpen, HasBegunIn};
ghost use Rattle.dq_growing.specs.Stands.{IsThere, IsPastAt, IsPastIn, IsAheadIn, Ages, HasEntry, OneComes, OneLeaves, SameStand, KeepsWords};
ghost use Rattle.dq_growing.specs.Cores.{OnCoreAt};
ghost use Rattle.dq_ticks.specs.Keys.{EntryName};

use crate::cores::Cores;
use dq_core::{CoreError, DelayCore, Removed, Words};
use dq_ticks::{EntryId, Key, LAST_TICK};
use std::alloc::Allocator;

/// The deadline with which a moved entry goes on.
#[derive(Clone, Copy, Debug, PartialEq, Eq)]
pub enum NextDeadline {
    /// The one that it has.
    Same,
    /// This tick.
    At(u64),
    /// The one that it has where that is after this tick. Else the entry isn't put in again: it comes out.
    SameIfAfter(u64),
}

/// What became of an entry that was taken out of its slot.
#[derive(Debug, Drop)]
pub enum Moved<T> {
    /// It is in again.
    To {
        /// Its key there.
        key: Key,
        /// The deadline with which it goes on, a tick of one millisecond: the one that it had, or the one that was
        /// asked for. It isn't raised: if it is before the open core's own tick
        /// ([`DelayCore::tick`]), the entry is due there at once, and has that tick for its deadline.
        deadline: u64,
    },
    /// It came out.
    Out(Removed<T>),
}

impl NextDeadline {
    // The deadline that the entry gets, by the one that it has; none where it comes out.
    fn of(self, had: u64) -> Option<u64>
        ensures { result ≡ next_of self had }
    {
        match self {
            NextDeadline::Same => Some(had),
            NextDeadline::At(tick) => Some(tick),
            NextDeadline::SameIfAfter(tick) => { if tick < had { Some(had) } else { None } }
        }
    }

    // Whether the deadline that is asked for is beyond the last tick.
    fn is_beyond(self) -> bool
        ensures { result ≡ is_beyond self }
    {
        match self {
            NextDeadline::At(tick) => LAST_TICK < tick,
            NextDeadline::Same | NextDeadline::SameIfAfter(_) => false,
        }
    }
}

// How many entries are linked and how many slots are worn, where these are all slots; none where one is free.
fn full_of<T, W: Words, A: Allocator>(core: &DelayCore<T, W, A>) -> Option<(usize, usize)>
    ensures { MatchOption result (HasFreeSlot core.now)
        (λ n. (n.0 ≡ linked_in core.now) × (n.1 ≡ worn_in core.now)
        × (n.0 + n.1 ≡ length core.now.slots.rows)) }
{
    core.law();
    let (linked, worn) = (core.len(), core.worn());
    if linked + worn < core.capacity() {
        None
    } else {
        Some((linked, worn))
    }
}

// Puts a value into a free slot. What was deferred there comes out beside the key.
fn put_in<T, W: Words, A: Allocator>(
    core: &mut DelayCore<T, W, A>,
    value: T,
    deadline: u64,
) -> (Key, Option<T>)
    requires deadline { deadline ≤ LAST_TICK }
    requires room { HasFreeSlot core.old }
    ensures comes { OneComes (IsThere core.old) (IsThere core.new)
        result.0.entry value (base_for core.old deadline) }
    ensures ahead { (table_at (machine core.old) result.0.entry.index).stamp < result.0.entry.born }
    ensures past { IsPastAt core.new result.0.entry }
    ensures puts { PutsIn value deadline result.0 result.1 core.old core.new }
    ensures begins { W.begun core.new.words
        result.0.entry.index result.0.stamp (base_for core.old deadline) }
    ensures same { SameCore core.old core.new }
    ensures origin { W.origin core.new.words ≡ W.origin core.old.words }
    ensures begun { StillBegun W.begun core.old.words core.new.words }
{
    let (answer, displaced) = core.insert_deferring(value, deadline);
    match answer {
        Ok(key) => (key, displaced),
        Err(_) => unreachable!(),
    }
}

impl<T, W: Words, A: Allocator> Cores<T, W, A> {
    // How many entries the open core has and how many worn slots, where these are all its slots; none where one is
    // free.
    fn full(&self) -> Option<(usize, usize)>
        ensures { MatchOption result (HasOpenRoom self.now) (λ n. IsFull self.now n.0 n.1) }
    {
        if self.opened >= self.cores.len() {
            return Some((0, 0));
        }
        let full = full_of(&self.cores[self.opened]);
        full
    }

    // Puts a value into the open core.
    fn put_in_open(&mut self, value: T, deadline: u64) -> (Key, Option<T>)
        requires deadline { deadline ≤ LAST_TICK }
        requires room { HasOpenRoom self.old }
        ensures comes { ComesInOpen self.old result.0 value deadline self.new }
        ensures ahead { IsAheadIn self.old result.0.entry }
        ensures past { IsPastIn self.new result.0.entry }
        ensures ages { Ages self.old self.new }
        ensures puts { OnCoreAt self.old.opened
            (PutsIn value deadline result.0 result.1) self.old self.new }
        ensures begins { HasBegunIn W.begun self.old result.0 deadline self.new }
        ensures words { KeepsWords W.origin W.begun self.old self.new }
    {
        self.turns.lower(self.opened, deadline);
        let put = put_in(&mut self.cores[self.opened], value, deadline);
        put
    }

    /// Takes a live entry out of its core and puts it into the open one, with its value and with the deadline that
    /// `next` makes of the one that it has as it is taken out. An entry of the open core goes to another slot there if
    /// its slot is worn. No value is dropped: one that waits for its drop in the slot that the entry takes comes out
    /// beside the answer, and none beside any answer but `To`. Constant time in each core, and no memory is taken.
    ///
    /// # Errors
    /// Nothing is taken out. In this order:
    /// - `TooFar` if a deadline is asked for that is beyond the last tick.
    /// - `Full` if no core is open, or the open one has no free slot. It has the open core's numbers.
    /// - `Missing` if the entry isn't in the store any more, or never was.
    /// - `WasCancelled` if the entry was cancelled.
    pub fn relocate(
        &mut self,
        entry: &EntryId,
        next: NextDeadline,
    ) -> (Result<Moved<T>, CoreError>, Option<T>)
        // It goes on with its value and the deadline told, under a key that no entry has had. No other
        // entry changes.
        ensures goes_on { IfOk result.0 (λ moved. IfTo moved (λ key deadline.
            GoesOnIn self.old entry.now key deadline self.new)) }
        ensures begins { IfOk result.0 (λ moved. IfTo moved (λ key deadline.
            HasBegunIn W.begun self.old key deadline self.new)) }

        // No id that an entry has had is given anew.
        ensures ages { Ages self.old self.new }
        ensures fresh { IfOk result.0 (λ moved. IfTo moved (λ key _.
            (id : EntryName) → IsPastIn self.old id → key.entry ≢ id)) }
        ensures past { IfOk result.0 (λ moved. IfTo moved (λ key _.
            IsPastIn self.new entry.now × IsPastIn self.new key.entry)) }

        // Or it comes out, with its value.
        ensures came_out { IfOk result.0 (λ moved. IfCameOut moved (λ x.
            OneLeaves (HasEntry self.old) (HasEntry self.new) entry.now x.value)) }

        // Refused, no entry leaves or moves.
        ensures refused { OnErr result.0 (SameStand (HasEntry self.old) (HasEntry self.new)) }
        ensures beside { UnlessTo result.0 (result.1 ≡ None) }

        // Exactly: a removal and an insert with the deadline that was in force, or which refusal comes.
        ensures relocates { Relocates W.shared entry.now next result self.old self.new }
        ensures words { KeepsWords W.origin W.begun self.old self.new }
    {
        self.law();
        if next.is_beyond() {
            return (Err(CoreError::TooFar { limit: LAST_TICK }), None);
        }
        if let Some((linked, worn)) = self.full() {
            return (Err(CoreError::Full { linked, worn }), None);
        }
        let removed = match self.remove(entry) {
            Ok(removed) => removed,
            Err(error) => return (Err(error), None),
        };
        let Some(deadline) = next.of(removed.deadline) else {
            return (Ok(Moved::Out(removed)), None);
        };
        let (key, displaced) = self.put_in_open(removed.value, deadline);
        (Ok(Moved::To { key, deadline }), displaced)
    }
}
