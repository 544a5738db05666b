//! Where moved entries are, by the ids that their users have.

ghost use Rattle.std.specs.Prelude.{OnErr, ◌≡◌, true, false, ◌<◌, ◌≤◌, IfOk, OnOk, None, Some};
ghost use Rattle.dq_ticks.specs.Keys.{EntryName};
ghost use Rattle.dq_growing.specs.Notes.{numbers_of, note_mark, with_id, HasNone, ArePastBy, ArePastIn, AllArePast, user_at, meant_place, SetsPair, SamePairs, TakesPair, AreNotes, HasNoteRoom, SameNotes, IsNoted, Forgets};

use dq_core::{DelayCore, Words};
use dq_ticks::EntryId;
use std::alloc::{AllocError, Allocator, Global};
use std::collections::HashMap;
use std::hash::{BuildHasherDefault, FoldHasher};
use std::marker::Model;

// The numbers of an id.
fn numbers_of(id: &EntryId) -> (u32, u32, u32)
    ensures { result ≡ numbers_of id.now }
{
    (id.shard(), id.index(), id.born())
}

// Whether the id of those numbers isn't ahead in a core, if it has the core's number.
fn is_past_in<T, W: Words, A: Allocator>(
    numbers: &(u32, u32, u32),
    core: &DelayCore<T, W, A>,
) -> bool
    ensures yes { result ≡ true → ArePastBy numbers.now core.now }
    ensures no { result ≡ false → ¬ ArePastBy numbers.now core.now }
{
    if numbers.0 != core.shard() {
        return true;
    }
    core.is_past(&EntryId::new(numbers.0, numbers.1, numbers.2))
}

// How many marks a table has.
const MARKS: usize = 128;

// The mark of an id.
#[inline(always)]
fn note_mark(id: &EntryId) -> usize
    ensures { result ≡ note_mark id.now }
{
    id.index() as usize % MARKS
}

// Ids, each with another.
#[derive(Drop)]
pub(crate) struct PairTable<A: Allocator = Global> {
    map: HashMap<(u32, u32, u32), EntryId, BuildHasherDefault<FoldHasher>, A>,
    // Which marks ids have that have another, and perhaps more: so of most that have none it is told without the map.
    marks: [bool; 128],
}

impl<A: Allocator> Model for PairTable<A> {
    ghost use Rattle.std.specs.HashMap.{spare};
    ghost use Rattle.dq_growing.specs.Notes.{Pairs, AreMarked};

    ghost Value = { Pairs };

    ghost view = { λ t. record { entries = t.map.entries; room = spare t.map } };

    ghost invariant = { λ t. AreMarked (record { entries = t.map.entries; room = spare t.map }) t.marks };
}

impl<A: Allocator + Clone> PairTable<A> {
    // No ids.
    pub(crate) fn new(alloc: A) -> PairTable<A>
        ensures { HasNone result }
    {
        PairTable {
            map: HashMap::new(alloc),
            marks: [false; 128],
        }
    }

    // Whether no id has another.
    #[inline]
    #[tactic(auto, using(crate::proofs::Pairing::none_listed))]
    fn is_empty(&self) -> bool
        ensures { result ≡ true → HasNone self.now }
    {
        self.map.is_empty()
    }

    // What an id has with it.
    #[inline]
    pub(crate) fn find(&self, id: &EntryId) -> Option<EntryId>
        ensures { result ≡ with_id self.now id.now }
    {
        if !self.marks[note_mark(id)] {
            return None;
        }
        self.look_up(id)
    }

    // The same by the map. Most calls don't come here.
    #[inline(never)]
    fn look_up(&self, id: &EntryId) -> Option<EntryId>
        ensures { result ≡ with_id self.now id.now }
    {
        let found = self.map.get(&numbers_of(id)).copied();
        found
    }

    // Whether no id is ahead in a core of its number.
    fn are_past_in<T, W: Words, C: Allocator>(&self, core: &DelayCore<T, W, C>) -> bool
        ensures yes { result ≡ true → ArePastIn self.now core.now }
        ensures no { result ≡ false → ¬ ArePastIn self.now core.now }
    {
        for numbers in self.map.keys() {
            if !is_past_in(numbers, core) {
                return false;
            }
        }
        true
    }

    // Takes memory for one more.
    pub(crate) fn reserve(&mut self) -> Result<(), AllocError>
        ensures same { SamePairs self.old self.new }
        ensures room { OnOk result (0 < self.new.room) }
        ensures kept { self.old.room ≤ self.new.room }
        ensures refused { OnErr result (self.old.room ≡ 0) }
    {
        self.map.reserve(1)
    }

    // Gives an id another.
    pub(crate) fn put(&mut self, id: &EntryId, other: EntryId)
        requires { 0 < self.old.room }
        ensures { SetsPair self.old id.now (Some other) self.new }
    {
        self.marks[note_mark(id)] = true;
        let Ok(_) = self.map.insert(numbers_of(id), other) else {
            unreachable!();
        };
    }

    // Takes from an id what it has.
    #[inline(never)]
    pub(crate) fn take(&mut self, id: &EntryId)
        ensures at { SetsPair self.old id.now None self.new }
        ensures room { self.old.room ≤ self.new.room }
    {
        self.remove(id);
        if self.is_empty() {
            self.marks = [false; 128];
        }
    }

    // Takes away what is noted of an id. Its mark stays, as other ids may have it.
    fn remove(&mut self, id: &EntryId)
        ensures at { SetsPair self.old id.now None self.new }
        ensures room { self.old.room ≤ self.new.room }
    {
        let _ = self.map.remove(&numbers_of(id));
    }
}

// Takes from an id what it has, where there is such an id.
fn take_where_some<A: Allocator + Clone>(table: &mut PairTable<A>, id: Option<EntryId>)
    ensures takes { TakesPair table.old id table.new }
    ensures room { table.old.room ≤ table.new.room }
{
    let Some(id) = id else {
        return;
    };
    table.take(&id);
}

/// The notes of a store: where its moved entries are, by the ids that their users have.
#[derive(Drop)]
pub(crate) struct Notes<A: Allocator = Global> {
    // By a user's id, the place.
    places: PairTable<A>,
    // By a place, the user's id.
    users: PairTable<A>,
}

impl<A: Allocator> Model for Notes<A> {
    ghost use Rattle.dq_growing.specs.Notes.{Book, AreNotes};

    ghost Value = { Book };

    ghost view = { λ n. record { places = n.places; users = n.users } };

    ghost invariant = { λ n. AreNotes (record { places = n.places; users = n.users }) };
}

impl<A: Allocator + Clone> Notes<A> {
    /// No notes. They take no memory yet.
    ///
    /// # Errors
    /// If the allocator isn't cloned.
    pub fn new(alloc: A) -> Result<Notes<A>, AllocError>
        ensures { IfOk result
            (λ n. (id : EntryName) → (with_id n.places id ≡ None) × (with_id n.users id ≡ None)) }
    {
        let other = alloc.clone()?;
        Ok(Notes {
            places: PairTable::new(alloc),
            users: PairTable::new(other),
        })
    }

    /// What notes keep at all times: each is the same both ways.
    pub fn law(&self)
        ensures { AreNotes self.now }
    {
        let _ = &self.places;
    }

    /// The place that a user's id means: its own, where nothing is noted; none, where another's entry is there.
    #[inline]
    #[tactic(auto, using(crate::proofs::Pairing::own_place))]
    pub fn place(&self, user: &EntryId) -> Option<EntryId>
        ensures { result ≡ meant_place self.now user.now }
    {
        if self.places.is_empty() {
            return Some(*user);
        }
        let Some(place) = self.places.find(user) else {
            let None = self.users.find(user) else {
                return None;
            };
            return Some(*user);
        };
        Some(place)
    }

    /// The id that the user of a place has: its own, where nothing is noted.
    #[inline]
    #[tactic(auto, using(crate::proofs::Pairing::own_user))]
    pub fn user(&self, place: &EntryId) -> EntryId
        ensures { result ≡ user_at self.now place.now }
    {
        if self.places.is_empty() {
            return *place;
        }
        let Some(user) = self.users.find(place) else {
            return *place;
        };
        user
    }

    /// Whether no id of a note, a user's or a place's, is ahead of its slot's stamp in a core of its number.
    pub fn are_past_in<T, W: Words, C: Allocator>(&self, core: &DelayCore<T, W, C>) -> bool
        ensures yes { result ≡ true → AllArePast self.now core.now }
        ensures no { result ≡ false → ¬ AllArePast self.now core.now }
    {
        self.places.are_past_in(core) && self.users.are_past_in(core)
    }

    /// Takes memory for one note more.
    ///
    /// # Errors
    /// If memory is refused.
    pub fn reserve(&mut self) -> Result<(), AllocError>
        ensures same { SameNotes self.old self.new }
        ensures room { OnOk result (HasNoteRoom self.new) }
        ensures refused { OnErr result (¬ HasNoteRoom self.old) }
    {
        self.places.reserve()?;
        self.users.reserve()
    }

    /// Notes that a user's entry is at that place.
    pub fn note(&mut self, user: &EntryId, place: &EntryId)
        requires room { HasNoteRoom self.old }
        requires free { with_id self.old.users place.now ≡ None }
        ensures { IsNoted self.old user.now place.now self.new }
    {
        let left = self.places.find(user);
        take_where_some(&mut self.users, left);
        self.places.put(user, *place);
        self.users.put(place, *user);
    }

    /// Takes away the note of a place, and returns its user's id, none where nothing was noted.
    #[inline]
    pub fn forget(&mut self, place: &EntryId) -> Option<EntryId>
        ensures { Forgets self.old place.now result self.new }
    {
        if self.places.is_empty() {
            return None;
        }
        let Some(user) = self.users.find(place) else {
            return None;
        };
        self.places.take(&user);
        self.users.take(place);
        Some(user)
    }
}
