//! Keys and entries as C has them.
ghost use Rattle.std.specs.Prelude.{◌≡◌};
ghost use Rattle.dq_c.specs.Keys.{named, IsOutOf, IsRemovedOf, IsTallyOf};

use dq_core::{Expired, Removed, Tally};
use dq_ticks::{EntryId, Key};

/// A key: an entry's shard, its index there and the stamp of its birth, and the stamp at which it is meant.
#[repr(C)]
#[derive(Clone, Copy)]
pub struct DqKey {
    /// The entry's shard.
    pub shard: u32,
    /// The entry's index in its shard.
    pub index: u32,
    /// The stamp of the entry's birth.
    pub born: u32,
    /// The stamp at which the entry is meant.
    pub stamp: u32,
}

impl DqKey {
    // The key, for C.
    pub(crate) fn of(key: Key) -> DqKey
        ensures { named result ≡ key }
    {
        let entry = key.entry();
        DqKey {
            shard: entry.shard(),
            index: entry.index(),
            born: entry.born(),
            stamp: key.stamp(),
        }
    }

    // The entry that is meant.
    pub(crate) fn entry(&self) -> EntryId
        ensures { result ≡ (named self.now).entry }
    {
        EntryId::new(self.shard, self.index, self.born)
    }

    // The key, from C.
    pub(crate) fn key(&self) -> Key
        ensures { result ≡ named self.now }
    {
        Key::new(self.entry(), self.stamp)
    }
}

/// An entry that came out of a poll.
#[repr(C)]
#[derive(Clone, Copy)]
pub struct DqExpired {
    /// Its key of the present stamp.
    pub key: DqKey,
    /// Its deadline in force.
    pub deadline: u64,
    /// The greatest tick that was noted, which the deadline is not after.
    pub noted: u64,
    /// Its value.
    pub value: u64,
}

impl DqExpired {
    // The entry, for C.
    pub(crate) fn of(expired: Expired<u64>) -> DqExpired
        ensures { IsOutOf result expired }
    {
        DqExpired {
            key: DqKey::of(expired.key),
            deadline: expired.deadline,
            noted: expired.noted,
            value: expired.value,
        }
    }
}

/// An entry that was removed.
#[repr(C)]
#[derive(Clone, Copy)]
pub struct DqRemoved {
    /// Its key of the present stamp.
    pub key: DqKey,
    /// The deadline that was in force.
    pub deadline: u64,
    /// Its value.
    pub value: u64,
}

impl DqRemoved {
    // The entry, for C.
    pub(crate) fn of(removed: Removed<u64>) -> DqRemoved
        ensures { IsRemovedOf result removed }
    {
        DqRemoved {
            key: DqKey::of(removed.key),
            deadline: removed.deadline,
            value: removed.value,
        }
    }
}

/// A [`Tally`], as C reads it: six numbers of 64 bits.
#[repr(C)]
#[derive(Clone, Copy)]
pub struct DqTally {
    /// Inserts. Each number is the one of that name in a [`Tally`].
    pub inserted: u64,
    pub expired: u64,
    pub removed: u64,
    pub cancelled: u64,
    pub linked: u64,
    pub moves: u64,
}

impl DqTally {
    // The tally, for C.
    pub(crate) fn of(tally: Tally) -> DqTally
        ensures { IsTallyOf result tally }
    {
        DqTally {
            inserted: tally.inserted,
            expired: tally.expired,
            removed: tally.removed,
            cancelled: tally.cancelled,
            linked: tally.linked,
            moves: tally.moves,
        }
    }
}
