//! A store as its users see it: they know an entry by the id that it came in with, wherever it is. It keeps itself at
//! the right size, and knows a tick before which nothing in it is due.
//!
//! Whoever shares a store behind a lock tells others this tick, the *hint*, so that they take the lock only if
//! something may be due. It is never later than the deadline of a live entry: an insert and a reset lower it, and a
//! poll that finds nothing due sets it anew.

ghost use Rattle.dq_core.specs.declared.errors.CoreError.TheVariants.{Worn};
ghost use Rattle.dq_growing.specs.declared.TheConstants.{NEVER};
ghost use Rattle.std.specs.Prelude.{◌≡◌, ◌≤◌, ◌↔◌, IsTrue, IfSome, IfNone, IfErr, IfOk, OnOk, OnErr, Ok, Err, None, Some, unwrap_or, ◌+◌, true, false, ◌<◌, MatchOption, length, ◌⊎◌, max, min, [], OnSome};
ghost use Rattle.dq_core.specs.Core.{Core};
ghost use Rattle.dq_growing.specs.Cores.{AreCores, HasDrained, InsertsIn, IsCoreAt, TakesIn, GivesDrained, NoneDrained, OnCoreAt, SweepsFrom, TellsNextIn, HasNo};
ghost use Rattle.dq_growing.specs.Runs.{GivesId, HoldsDeadlines, HoldsOtherDeadlines, KeepsIds, KeepsIdsBeside, KeepsItsDeadline, LeavesInForce, NotDueBefore, KeepsOtherIds};
ghost use Rattle.dq_ticks.specs.Keys.{EntryName};
ghost use Rattle.dq_growing.specs.Stands.{OneLeaves, SameStand, KeepsWords};
ghost use Rattle.dq_growing.specs.Store.{key_as, key_told, removed_as, expired_as, moved_as, answer_as, NotesMoved, NotesAnswered, IsStore, KeysAreApart, StandsFor, ComesFor, GoesOnFor, RemovesFor, RemovesIfDueFor, TellsFor, RelocatesFor, PollsFor, piece_as, NotesAfter, ReapsFor, ResetsFor, TakeRefusedFor, TellsPlaceFor, ResetsThere, HasBegunFor, HasOneValue, GoesOut, ChangesFor, ChangesThere, HasFor, NoneStandsFor, TellsFirstIn, TellsFrom};
ghost use Rattle.dq_growing.specs.Moving.{IfTo, IfCameOut, UnlessTo, HasBegunIn, HasOpenRoom};
ghost use Rattle.dq_growing.specs.Polls.{DoesPoll, DoesPiece, IfPieceOut, IfPieceRests, NoneLiveIn, TakesDeferredIn};
ghost use Rattle.dq_growing.specs.Notes.{HasNoteRoom, AllArePast, user_at, with_id, SameNotes, meant_place};
ghost use Rattle.std.specs.Fn.{FnOnceReturnsAtMut};
ghost use Rattle.dq_core.specs.Folds.{IsFoldable};
ghost use Rattle.dq_growing.specs.Sized.{hint_after, hint_asked, KeepsHint, NotesNext};
ghost use Rattle.dq_growing.specs.Sizing.{anew, fresh_sizing, way_for, with_work, AllWere, ComesInto, FoundElsewhere, HasClearAt, HasNoRoom, IsNeedless, KeepsTick, NoneNeedless, NotesLeft, NotesWorkIf, OnlyOpens, OpensIf, OpensOne, OpensWanted, StaysOpen, SweepsNext, TellsQuiet, WasBeside};

use crate::NEVER;
use crate::cores::{Cores, TakeError, missing_at, wake_of};
use crate::moving::{Moved, NextDeadline};
use crate::notes::Notes;
use crate::sizing::{Sizing, has_open_room, is_look, may_shrink, slots};
use dq_core::{CoreError, DelayCore, Expired, Piece, ReapError, Removed, Swept, Turn, Words};
use dq_ticks::{EntryId, Key};
use std::alloc::{AllocError, Allocator, Global};
use std::marker::Model;

/// What a [`SizedStore`] holds, to be read: its cores, and a note of where each moved entry is.
#[derive(Drop)]
pub struct Store<T, W: Words, A: Allocator = Global> {
    pub(crate) cores: Cores<T, W, A>,
    pub(crate) notes: Notes<A>,
}

impl<T, W: Words, A: Allocator> Model for Store<T, W, A> {
    ghost use Rattle.dq_growing.specs.Store.{StoreState, IsStore};

    ghost Value = { StoreState T W };

    ghost view = { λ s. record { cores = s.cores; notes = s.notes } };

    ghost invariant = { λ s. IsStore (record { cores = s.cores; notes = s.notes }) };
}

// A key of a place, as its user has it.
fn key_as(user: &EntryId, key: Key) -> Key
    ensures { result ≡ key_as user.now key }
{
    Key::new(*user, key.stamp())
}

// What was taken out, as its user knows it.
fn removed_as<T>(user: &EntryId, removed: Removed<T>) -> Removed<T>
    ensures { result ≡ removed_as user.now removed }
{
    let Removed {
        key,
        deadline,
        value,
    } = removed;
    Removed {
        key: key_as(user, key),
        deadline,
        value,
    }
}

// What came out, as its user knows it.
fn expired_as<T>(user: &EntryId, expired: Expired<T>) -> Expired<T>
    ensures { result ≡ expired_as user.now expired }
{
    let Expired {
        key,
        deadline,
        noted,
        value,
    } = expired;
    Expired {
        key: key_as(user, key),
        deadline,
        noted,
        value,
    }
}

// Notes what became of a user's entry that was moved from a place, and tells it as its user knows it.
fn note_moved<T, A: Allocator + Clone>(
    notes: &mut Notes<A>,
    user: &EntryId,
    place: &EntryId,
    moved: Moved<T>,
) -> Moved<T>
    requires room { HasNoteRoom notes.old }
    requires free { IfTo moved (λ key _. with_id notes.old.users key.entry ≡ None) }
    ensures answer { result ≡ moved_as user.now moved }
    ensures notes { NotesMoved notes.old user.now place.now moved notes.new }
{
    match moved {
        Moved::To { key, deadline } => {
            notes.note(user, &key.entry());
            let renamed = key_as(user, key);
            Moved::To {
                key: renamed,
                deadline,
            }
        }
        Moved::Out(removed) => {
            let _ = notes.forget(place);
            Moved::Out(removed_as(user, removed))
        }
    }
}

// The same of the answer of a move.
fn note_answer<T, A: Allocator + Clone>(
    notes: &mut Notes<A>,
    user: &EntryId,
    place: &EntryId,
    answer: Result<Moved<T>, CoreError>,
) -> Result<Moved<T>, CoreError>
    requires room { HasNoteRoom notes.old }
    requires free { IfOk answer
        (λ moved. IfTo moved (λ key _. with_id notes.old.users key.entry ≡ None)) }
    ensures answer { result ≡ answer_as user.now answer }
    ensures notes { NotesAnswered notes.old user.now place.now answer notes.new }
{
    match answer {
        Ok(moved) => Ok(note_moved(notes, user, place, moved)),
        Err(error) => Err(error),
    }
}

// Takes away the note of what a poll took out, and tells it as its user knows it.
#[inline(always)]
fn note_out<T, A: Allocator + Clone>(
    notes: &mut Notes<A>,
    made: Result<Piece<T>, CoreError>,
) -> Result<Piece<T>, CoreError>
    ensures answer { result ≡ piece_as notes.old made }
    ensures notes { NotesAfter notes.old made notes.new }
{
    match made {
        Ok(Piece::Answer(Turn::Out(expired))) => {
            let place = expired.key.entry();
            let user = notes.user(&place);
            let _ = notes.forget(&place);
            let expired = expired_as(&user, expired);
            Ok(Piece::Answer(Turn::Out(expired)))
        }
        answer => answer,
    }
}

// Whether a slot has no stamp left for another key.
fn is_worn(error: CoreError) -> bool
    ensures { IsTrue result ↔ (error ≡ Worn) }
{
    match error {
        CoreError::Worn => true,
        _ => false,
    }
}

// The key of an entry that is in again.
fn moved_key<T>(moved: Moved<T>) -> Key
    requires { IfCameOut moved (λ _. ⊥) }
    ensures { IfTo moved (λ key _. result ≡ key) }
{
    match moved {
        Moved::To { key, deadline: _ } => key,
        Moved::Out(_) => unreachable!(),
    }
}

// The key that a move tells, if it isn't refused and the entry is in again.
fn key_told<T>(answer: Result<Moved<T>, CoreError>) -> Result<Key, CoreError>
    requires { IfOk answer (λ moved. IfCameOut moved (λ _. ⊥)) }
    ensures { result ≡ key_told answer }
{
    match answer {
        Ok(moved) => Ok(moved_key(moved)),
        Err(error) => Err(error),
    }
}

impl<T, W: Words, A: Allocator + Clone> Store<T, W, A> {
    /// What a store keeps at all times: what is noted was moved away from its user's id, which no new entry gets. So no
    /// two entries have one user's id.
    pub fn law(&self)
        ensures law { IsStore self.now }
        ensures cores { AreCores self.now.cores }
        ensures apart { KeysAreApart self.now }
        ensures one { (id : EntryName) → HasOneValue self.now id }
    {
        self.cores.law();
    }

    /// Takes a core in, which is open from then on. The one that was open drains. It takes memory for the list of cores
    /// alone.
    ///
    /// # Errors
    /// The core comes back, and nothing changes. In this order:
    /// - `UsedNumber` if a moved entry is known by an id of that number with a stamp that the core may give anew.
    /// - `StillLinked` if an entry is linked in the core.
    /// - `UsedNumber` if a core of the store has its number, or it is the last one of all.
    /// - `NoMemory` if memory is refused.
    pub(crate) fn take_in(
        &mut self,
        core: DelayCore<T, W, A>,
    ) -> Result<(), (TakeError, DelayCore<T, W, A>)>
        // It comes in as cores do, where it gives no id anew that a note has, and the notes stay.
        ensures takes { OnOk result (TakesIn self.old.cores core self.new.cores) }
        ensures past { OnOk result (AllArePast self.old.notes core) }
        ensures refused { IfErr result (λ e. TakeRefusedFor self.old core e.0) }
        ensures back { IfErr result (λ e. (e.1 ≡ core) × (self.new.cores ≡ self.old.cores)) }
        ensures notes { self.new.notes ≡ self.old.notes }
        ensures keeps { KeepsIdsBeside core self.old self.new }
        ensures holds { HoldsDeadlines self.old self.new }
    {
        core.law();
        if !self.notes.are_past_in(&core) {
            return Err((TakeError::UsedNumber, core));
        }
        let answer = self.cores.take_in(core);
        answer
    }

    // Takes the core at a place out, which has drained.
    pub(crate) fn take_at(&mut self, place: usize) -> DelayCore<T, W, A>
        requires { (c : Core T W) × HasDrained self.old.cores place c }
        ensures at { IsCoreAt self.old.cores.cores place result }
        ensures gives { GivesDrained self.old.cores result self.new.cores }
        ensures notes { self.new.notes ≡ self.old.notes }
        ensures keeps { KeepsIds self.old self.new }
        ensures holds { HoldsDeadlines self.old self.new }
    {
        self.cores.law();
        let core = self.cores.take_at(place);
        core
    }
}

impl<T, W: Words, A: Allocator + Clone> Store<T, W, A> {
    /// Returns the cores, to be read.
    #[inline(always)]
    pub fn cores(&self) -> &Cores<T, W, A>
        ensures { result.now ≡ self.now.cores }
    {
        &self.cores
    }

    /// Returns where an entry is: the id under which its core has it, its own if it wasn't moved. It doesn't look
    /// whether the entry is still there, and returns none if no entry of the store has that id for its user.
    #[inline]
    pub fn place(&self, entry: &EntryId) -> Option<EntryId>
        // It is what the notes tell; and an entry that is there under its user's id is at that place.
        ensures noted { result ≡ meant_place self.now.notes entry.now }
        ensures tells { TellsPlaceFor self.now entry.now result }
    {
        let place = self.notes.place(entry);
        place
    }

    /// Returns the value of an entry. It returns none if the entry isn't in the store any more, or never was. A
    /// cancelled entry has its value until it is freed. Constant time.
    pub fn get(&self, entry: &EntryId) -> Option<&T>
        ensures { MatchOption result (NoneStandsFor self.now entry.now)
            (λ v. HasFor self.now entry.now v.now) }
    {
        let Some(place) = self.notes.place(entry) else {
            return None;
        };
        self.cores.law();
        let Some(core) = self.cores.of(&place) else {
            return None;
        };
        core.law();
        core.get(&place)
    }

    /// Returns the key that an insert may give next: that of a free slot of the open core in which no value waits for
    /// its drop. It returns none if no core is open, or no such slot is left. Constant time.
    pub fn next_key(&self) -> Option<Key>
        // It is what the open core tells: a new entry has no other id for its user.
        ensures { TellsNextIn self.now.cores result }
    {
        let key = self.cores.next_key();
        key
    }

    /// Returns the id of the entry that is scheduled first in the core at a place, possibly a cancelled one. It returns
    /// none if no entry is linked there, or there is no such place.
    pub fn first_in(&self, place: usize) -> Option<EntryId>
        ensures { TellsFirstIn self.now place result }
    {
        let Some(core) = self.cores.get(place) else {
            return None;
        };
        let Some(key) = core.peek() else {
            return None;
        };
        let user = self.notes.user(&key.entry());
        Some(user)
    }

    /// Returns the id of the entry that stands first in `count` slots from `from` on of the core at a place, live or
    /// cancelled. It returns none if none stands there, or there is no such place.
    pub fn entry_from(&self, place: usize, from: usize, count: usize) -> Option<EntryId>
        ensures { TellsFrom self.now place from (from + count) result }
    {
        let Some(core) = self.cores.get(place) else {
            return None;
        };
        let Some(entry) = core.entry_from(from, count) else {
            return None;
        };
        let user = self.notes.user(&entry);
        Some(user)
    }

    /// Opens the core at a place, so that inserts go there from now on. It returns whether there is such a place.
    pub(crate) fn open(&mut self, place: usize) -> bool
        ensures opens { result ≡ true → (place < length self.old.cores.cores)
            × (self.new.cores ≡ record self.old.cores { opened = place }) }
        ensures refused { result ≡ false → (length self.old.cores.cores ≤ place)
            × (self.new.cores ≡ self.old.cores) }
        ensures notes { self.new.notes ≡ self.old.notes }
        ensures keeps { KeepsIds self.old self.new }
        ensures holds { HoldsDeadlines self.old self.new }
    {
        let opens = self.cores.open(place);
        opens
    }

    /// Reaps each linked entry that is found cancelled at `count` slots from `from` on of the core at a place, and
    /// tells the slot to go on from. It returns none where there is no such place. No value is dropped: each waits
    /// until it is taken out. The notes stay.
    pub(crate) fn sweep_some(&mut self, place: usize, from: usize, count: usize) -> Option<Swept>
        ensures sweeps { MatchOption result
            ((length self.old.cores.cores ≤ place) × (self.new.cores ≡ self.old.cores))
            (λ swept. OnCoreAt place
            (SweepsFrom W.shared from (from + count) swept) self.old.cores self.new.cores) }
        ensures notes { self.new.notes ≡ self.old.notes }
        ensures words { KeepsWords W.origin W.begun self.old.cores self.new.cores }
        ensures keeps { KeepsIds self.old self.new }
        ensures holds { HoldsDeadlines self.old self.new }
    {
        let swept = self.cores.sweep_some(place, from, count);
        swept
    }
}

/// A delay queue of one owner that grows and shrinks, and moves entries from core to core. An entry keeps the id that
/// its key had when it came in.
///
/// A call by an entry's id looks for its note in a map, and for its core as [`Cores`] does. What it costs, as it is
/// told with the call, is in that core.
#[derive(Drop)]
pub struct SizedStore<T, W: Words, A: Allocator = Global> {
    pub(crate) store: Store<T, W, A>,
    sizing: Sizing,
    hint: u64,
}

impl<T, W: Words, A: Allocator> Model for SizedStore<T, W, A> {
    ghost use Rattle.dq_growing.specs.Polls.{NoneLiveIn};
    ghost use Rattle.dq_growing.specs.Sized.{SizedState};

    ghost Value = { SizedState T W };

    ghost view = { λ s. record { store = s.store; sizing = s.sizing; hint = s.hint } };

    ghost invariant = { λ s. NoneLiveIn s.store.cores s.hint };
}

// Notes the tick that a poll waits for as the hint, which stays if more may be due.
#[inline(always)]
fn note_hint<T>(hint: &mut u64, made: &Result<Piece<T>, CoreError>)
    ensures { hint.new ≡ hint_after made.now hint.old }
{
    match made {
        Ok(Piece::Answer(Turn::Waiting { next })) => *hint = *next,
        Ok(Piece::Answer(Turn::Idle)) => *hint = NEVER,
        _ => {}
    }
}

// Lowers the hint to a deadline that was accepted.
#[inline(always)]
fn note_due(hint: &mut u64, when: u64, is_accepted: bool)
    ensures yes { is_accepted ≡ true → hint.new ≡ min hint.old when }
    ensures no { is_accepted ≡ false → hint.new ≡ hint.old }
{
    if is_accepted {
        *hint = (*hint).min(when);
    }
}

// Lowers the hint to the deadline that an accepted move asked for.
fn note_asked<T>(hint: &mut u64, next: NextDeadline, made: &Result<Moved<T>, CoreError>)
    ensures { hint.new ≡ hint_asked next made.now hint.old }
{
    if let (NextDeadline::At(when), Ok(_)) = (next, made) {
        *hint = (*hint).min(when);
    }
}

impl<T, W: Words, A: Allocator> SizedStore<T, W, A> {
    /// Returns the hint: a tick of one millisecond that is not after the deadline of any live entry.
    #[inline(always)]
    pub fn hint(&self) -> u64
        ensures hint { result ≡ self.now.hint }
        ensures law { NoneLiveIn self.now.store.cores result }
    {
        self.hint
    }

    /// Returns the store, to be read.
    #[inline(always)]
    pub fn store(&self) -> &Store<T, W, A>
        ensures { result.now ≡ self.now.store }
    {
        &self.store
    }

    /// Returns what is known of its size, to be read.
    #[inline(always)]
    pub fn sizing(&self) -> &Sizing
        ensures { result.now ≡ self.now.sizing }
    {
        &self.sizing
    }

    /// Notes that there may be something to do for its size.
    pub fn note_work(&mut self)
        ensures { self.new ≡ record self.old { sizing = with_work self.old.sizing } }
    {
        self.sizing.note_work();
    }

    /// Keeps memory for so many entries for good.
    pub fn keep(&mut self, entries: usize)
        ensures { self.new ≡ record self.old {
          sizing = record self.old.sizing { kept = max self.old.sizing.kept entries };
        } }
    {
        self.sizing.keep(entries);
    }
}

impl<T, W: Words + Drop, A: Allocator + Clone> SizedStore<T, W, A> {
    /// A store of no cores, whose smallest core is to have so many slots. Nothing is due in it ever.
    ///
    /// # Errors
    /// If the allocator isn't cloned.
    pub fn new(alloc: A, least: usize) -> Result<SizedStore<T, W, A>, AllocError>
        ensures cores { IfOk result (λ s. s.store.cores
            ≡ record { cores = []; opened = 0; next = 0; noted = 0 }) }

        // Each entry keeps the id that it has.
        ensures own { IfOk result (λ s. (id : EntryName) → user_at s.store.notes id ≡ id) }
        ensures sizing { IfOk result (λ s. s.sizing ≡ fresh_sizing least) }
        ensures hint { IfOk result (λ s. s.hint ≡ NEVER) }
    {
        let notes = Notes::new(alloc.clone()?)?;
        let cores = Cores::new(alloc);
        Ok(SizedStore {
            store: Store { cores, notes },
            sizing: Sizing::new(least),
            hint: NEVER,
        })
    }
}

// Calls on entries: each is one call of the store, and the hint follows.
impl<T, W: Words, A: Allocator + Clone> SizedStore<T, W, A> {
    /// What its store keeps at all times, as [`Store::law`] tells.
    pub fn law(&self)
        ensures law { IsStore self.now.store }
        ensures cores { AreCores self.now.store.cores }
        ensures apart { KeysAreApart self.now.store }
        ensures one { (id : EntryName) → HasOneValue self.now.store id }
    {
        self.store.law();
    }

    /// Puts `value` in, to come out at the tick `when` of one millisecond, and returns its key. No value is dropped:
    /// one that waits for its drop in the slot that the entry takes comes out beside the key. Constant time, and no
    /// memory is taken.
    ///
    /// # Errors
    /// `value` comes back. In this order:
    /// - `TooFar` if `when` is beyond the last tick.
    /// - `Full` if no core is open, or the open one has no slot free.
    #[inline(always)]
    pub fn insert(&mut self, value: T, when: u64) -> (Result<Key, (CoreError, T)>, Option<T>)
        // The entry is in under its key, which none had, and no other changes.
        ensures comes { IfOk result.0 (λ k. ComesFor self.old.store k value when self.new.store) }

        // Exactly: an insert into the open core, and the same notes.
        ensures inserts { InsertsIn self.old.store.cores value when result self.new.store.cores }
        ensures begins { IfOk result.0
            (λ k. HasBegunIn W.begun self.old.store.cores k when self.new.store.cores) }
        ensures notes { self.new.store.notes ≡ self.old.store.notes }
        ensures words { KeepsWords W.origin W.begun self.old.store.cores self.new.store.cores }

        // No entry had had its id. No call gives an id anew, and the entry of each stands or has left.
        ensures gives { IfOk result.0 (λ k. GivesId self.old.store k.entry self.new.store) }
        ensures keeps { KeepsIds self.old.store self.new.store }

        // No deadline falls, and the entry isn't due before its own.
        ensures holds { HoldsDeadlines self.old.store self.new.store }
        ensures due { IfOk result.0 (λ k. NotDueBefore self.new.store k.entry when) }
        ensures hint { OnOk result.0 (self.new.hint ≡ min self.old.hint when) }
        ensures stays { OnErr result.0 (self.new ≡ self.old) }
        ensures sizing { self.new.sizing ≡ self.old.sizing }
    {
        self.store.cores.law();
        let answer = self.store.cores.insert(value, when);
        self.store.cores.law();
        note_due(&mut self.hint, when, answer.0.is_ok());
        answer
    }

    /// Takes a live entry out, and returns its value with its key and its current deadline, a tick of one millisecond.
    /// Constant time, and no memory is taken.
    ///
    /// # Errors
    /// In this order:
    /// - `Missing` if the entry isn't in the store any more, or never was.
    /// - `WasCancelled` if the entry was cancelled.
    #[inline(always)]
    pub fn remove(&mut self, entry: &EntryId) -> Result<Removed<T>, CoreError>
        // That entry leaves with its value, and no other. Refused, none does.
        ensures leaves { IfOk result (λ x.
            OneLeaves (StandsFor self.old.store) (StandsFor self.new.store) entry.now x.value) }
        ensures key { IfOk result (λ x. x.key.entry ≡ entry.now) }
        ensures refused { OnErr result
            (SameStand (StandsFor self.old.store) (StandsFor self.new.store)) }

        // Exactly: a removal at the place that the notes tell, of which no note is left.
        ensures removes { RemovesFor W.shared self.old.store entry.now result self.new.store }
        ensures words { KeepsWords W.origin W.begun self.old.store.cores self.new.store.cores }
        ensures keeps { KeepsIds self.old.store self.new.store }

        // No deadline falls, and the entry leaves at none before the one that it had.
        ensures holds { HoldsDeadlines self.old.store self.new.store }
        ensures in_force { IfOk result (λ x. LeavesInForce self.old.store entry.now x.deadline) }
        ensures rest { KeepsHint self.old self.new }
    {
        let Some(place) = self.store.notes.place(entry) else {
            return Err(CoreError::Missing);
        };
        self.store.cores.law();
        let removed = match self.store.cores.remove(&place) {
            Ok(removed) => removed,
            Err(error) => return Err(error),
        };
        let _ = self.store.notes.forget(&place);
        self.store.notes.law();
        Ok(removed_as(entry, removed))
    }

    /// Takes a live entry out if its current deadline isn't after `tick`, both of one millisecond, and returns its
    /// value with its key and that deadline. It returns none if the deadline is later: the entry stays where it is,
    /// with its key. Constant time, and no memory is taken.
    ///
    /// # Errors
    /// In this order:
    /// - `Missing` if the entry isn't in the store any more, or never was.
    /// - `WasCancelled` if the entry was cancelled.
    pub fn remove_if_due(
        &mut self,
        entry: &EntryId,
        tick: u64,
    ) -> Result<Option<Removed<T>>, CoreError>
        // That entry leaves with its value, and no other; its deadline isn't after the tick. None leaves
        // where it is later, or where the call is refused.
        ensures leaves { IfOk result (λ found. IfSome found (λ x.
            OneLeaves (StandsFor self.old.store) (StandsFor self.new.store) entry.now x.value)) }
        ensures key { IfOk result (λ found. IfSome found (λ x. x.key.entry ≡ entry.now)) }
        ensures due { IfOk result (λ found. IfSome found (λ x. x.deadline ≤ tick)) }
        ensures stays { IfOk result (λ found. IfNone found
            (SameStand (StandsFor self.old.store) (StandsFor self.new.store))) }
        ensures refused { OnErr result
            (SameStand (StandsFor self.old.store) (StandsFor self.new.store)) }

        // Exactly: a removal of an entry that is due, or a look at a deadline that is after the tick.
        ensures removes { RemovesIfDueFor W.shared
            self.old.store entry.now tick result self.new.store }
        ensures words { KeepsWords W.origin W.begun self.old.store.cores self.new.store.cores }
        ensures keeps { KeepsIds self.old.store self.new.store }

        // No deadline falls, and the entry leaves at none before the one that it had.
        ensures holds { HoldsDeadlines self.old.store self.new.store }
        ensures in_force { IfOk result (λ found. IfSome found
            (λ x. LeavesInForce self.old.store entry.now x.deadline)) }
        ensures rest { KeepsHint self.old self.new }
    {
        let Some(place) = self.store.notes.place(entry) else {
            return Err(CoreError::Missing);
        };
        self.store.cores.law();
        let removed = match self.store.cores.remove_if_due(&place, tick) {
            Ok(Some(removed)) => removed,
            Ok(None) => return Ok(None),
            Err(error) => return Err(error),
        };
        let _ = self.store.notes.forget(&place);
        self.store.notes.law();
        Ok(Some(removed_as(entry, removed)))
    }

    /// Returns the current deadline of a live entry, a tick of one millisecond. Constant time.
    ///
    /// # Errors
    /// In this order:
    /// - `Missing` if the entry isn't in the store any more, or never was.
    /// - `WasCancelled` if the entry was cancelled.
    pub fn deadline(&mut self, entry: &EntryId) -> Result<u64, CoreError>
        ensures tells { TellsFor W.shared self.old.store entry.now result self.new.store }
        ensures words { KeepsWords W.origin W.begun self.old.store.cores self.new.store.cores }
        ensures keeps { KeepsIds self.old.store self.new.store }
        ensures holds { HoldsDeadlines self.old.store self.new.store }
        ensures rest { KeepsHint self.old self.new }
    {
        let Some(place) = self.store.notes.place(entry) else {
            return Err(CoreError::Missing);
        };
        self.store.cores.law();
        let answer = self.store.cores.deadline(&place);
        answer
    }

    /// Gives a live entry the deadline `when`, a tick of one millisecond, sooner or later than the one that it has, and
    /// returns its new key. It stays where it is. Constant time, and no memory is taken.
    ///
    /// # Errors
    /// In this order:
    /// - `TooFar` if `when` is beyond the last tick.
    /// - `Missing` if the entry isn't in the store any more, or never was.
    /// - `WasCancelled` if the entry was cancelled.
    /// - `Worn` if the entry's slot has no stamp left for another key.
    #[inline(always)]
    pub fn reset_in_place(&mut self, entry: &EntryId, when: u64) -> Result<Key, CoreError>
        // Exactly: a reset at the place that the notes tell.
        ensures resets { ResetsThere W.shared self.old.store entry.now when result self.new.store }
        ensures words { KeepsWords W.origin W.begun self.old.store.cores self.new.store.cores }
        ensures keeps { KeepsIds self.old.store self.new.store }

        // No other deadline falls, and none where it is refused. Its own isn't before the one asked for.
        ensures holds { HoldsOtherDeadlines entry.now self.old.store self.new.store }
        ensures refused { OnErr result (HoldsDeadlines self.old.store self.new.store) }
        ensures due { OnOk result (NotDueBefore self.new.store entry.now when) }
        ensures hint { OnOk result (self.new.hint ≡ min self.old.hint when) }
        ensures stays { OnErr result (self.new.hint ≡ self.old.hint) }
        ensures sizing { self.new.sizing ≡ self.old.sizing }
    {
        let Some(place) = self.store.notes.place(entry) else {
            return Err(missing_at(when));
        };
        self.store.cores.law();
        let key = match self.store.cores.reset(&place, when) {
            Ok(key) => key,
            Err(error) => return Err(error),
        };
        self.store.cores.law();
        self.hint = self.hint.min(when);
        Ok(key_as(entry, key))
    }

    /// Gives a live entry the deadline `when`, a tick of one millisecond, sooner or later than the one that it has, and
    /// returns its new key. Where its slot has no stamp left for another key, it goes on in the open core. No value is
    /// dropped: one that waits for its drop in the slot that the entry takes then comes out beside the key. Constant
    /// time. No memory is taken, but for a note where the entry goes on.
    ///
    /// # Errors
    /// In this order:
    /// - `TooFar` if `when` is beyond the last tick.
    /// - `Missing` if the entry isn't in the store any more, or never was.
    /// - `WasCancelled` if the entry was cancelled.
    /// - `NoMemory` if the entry has to go on in the open core, and memory for its note is refused.
    /// - `Full` if it has to, and no core is open, or the open one has no free slot.
    pub fn reset(&mut self, entry: &EntryId, when: u64) -> (Result<Key, CoreError>, Option<T>)
        // Exactly: a reset at the place that the notes tell, or a move from there.
        ensures resets { ResetsFor W.shared self.old.store entry.now when result self.new.store }
        ensures words { KeepsWords W.origin W.begun self.old.store.cores self.new.store.cores }
        ensures keeps { KeepsIds self.old.store self.new.store }

        // No other deadline falls, and none where it is refused. Its own isn't before the one asked for.
        ensures holds { HoldsOtherDeadlines entry.now self.old.store self.new.store }
        ensures refused { OnErr result.0 (HoldsDeadlines self.old.store self.new.store) }
        ensures due { OnOk result.0 (NotDueBefore self.new.store entry.now when) }
        ensures hint { OnOk result.0 (self.new.hint ≡ min self.old.hint when) }
        ensures stays { OnErr result.0 (self.new.hint ≡ self.old.hint) }
        ensures sizing { self.new.sizing ≡ self.old.sizing }
    {
        let Some(place) = self.store.notes.place(entry) else {
            return (Err(missing_at(when)), None);
        };
        self.store.cores.law();
        let error = match self.store.cores.reset(&place, when) {
            Ok(key) => {
                self.store.cores.law();
                self.hint = self.hint.min(when);
                return (Ok(key_as(entry, key)), None);
            }
            Err(error) => error,
        };
        if !is_worn(error) {
            return (Err(error), None);
        }
        let (moved, beside) = self.relocate(entry, NextDeadline::At(when));
        (key_told(moved), beside)
    }

    /// Takes a live entry out of its core and puts it into the open one, with its value and with the deadline that
    /// `next` makes of the one that it has as it is taken out. The entry keeps its id, and its key goes on with the
    /// stamp that is returned. No value is dropped: one that waits for its drop in the slot that the entry takes comes
    /// out beside the answer, and none beside any answer but `To`. Constant time in each core, and memory for one note
    /// is taken.
    ///
    /// # Errors
    /// Nothing is taken out. In this order:
    /// - `NoMemory` if memory for the note is refused.
    /// - `TooFar` if a deadline is asked for that is beyond the last tick.
    /// - `Full` if no core is open, or the open one has no free slot. It has the open core's numbers.
    /// - `Missing` if the entry isn't in the store any more, or never was.
    /// - `WasCancelled` if the entry was cancelled.
    #[inline]
    pub fn relocate(
        &mut self,
        entry: &EntryId,
        next: NextDeadline,
    ) -> (Result<Moved<T>, CoreError>, Option<T>)
        // It goes on under its id, with its value and the deadline told. No other entry changes.
        ensures goes_on { IfOk result.0 (λ moved. IfTo moved (λ key deadline.
            (key.entry ≡ entry.now)
            × GoesOnFor self.old.store entry.now deadline self.new.store)) }
        ensures begins { IfOk result.0 (λ moved. IfTo moved (λ key deadline.
            HasBegunFor W.begun self.old.store key deadline self.new.store)) }

        // Or it comes out, with its value.
        ensures came_out { IfOk result.0 (λ moved. IfCameOut moved (λ x.
            OneLeaves (StandsFor self.old.store) (StandsFor self.new.store) entry.now x.value)) }

        // Refused, no entry leaves or moves.
        ensures refused { OnErr result.0
            (SameStand (StandsFor self.old.store) (StandsFor self.new.store)) }

        // Exactly: a move from the place that the notes tell, and its note; or which refusal comes.
        ensures relocates { RelocatesFor W.shared
            self.old.store entry.now next result self.new.store }
        ensures words { KeepsWords W.origin W.begun self.old.store.cores self.new.store.cores }
        ensures keeps { KeepsIds self.old.store self.new.store }

        // No deadline falls, unless another is asked for: then that of the entry alone may. It goes on at
        // the one that is told, which else isn't before the one that it had, nor does it leave before.
        ensures holds { HoldsOtherDeadlines entry.now self.old.store self.new.store }
        ensures same { KeepsItsDeadline next → HoldsDeadlines self.old.store self.new.store }
        ensures unless { UnlessTo result.0 (HoldsDeadlines self.old.store self.new.store) }
        ensures due { IfOk result.0 (λ moved. IfTo moved
            (λ _ deadline. NotDueBefore self.new.store entry.now deadline)) }
        ensures told { KeepsItsDeadline next → IfOk result.0 (λ moved. IfTo moved
            (λ _ deadline. LeavesInForce self.old.store entry.now deadline)) }
        ensures in_force { IfOk result.0 (λ moved. IfCameOut moved
            (λ x. LeavesInForce self.old.store entry.now x.deadline)) }
        ensures hint { self.new.hint ≡ hint_asked next result.0 self.old.hint }
        ensures sizing { self.new.sizing ≡ self.old.sizing }
    {
        let Some(place) = self.store.notes.place(entry) else {
            return (Err(CoreError::Missing), None);
        };
        if self.store.notes.reserve().is_err() {
            self.store.notes.law();
            return (Err(CoreError::NoMemory), None);
        }
        self.store.cores.law();
        let (answer, beside) = self.store.cores.relocate(&place, next);
        self.store.cores.law();
        let answer = note_answer(&mut self.store.notes, entry, &place, answer);
        self.store.notes.law();
        note_asked(&mut self.hint, next, &answer);
        (answer, beside)
    }

    /// Reaps the entry of that id where it is found cancelled. Its value isn't dropped: it waits until it is taken out.
    ///
    /// # Errors
    /// `Missing` where no entry of that id is linked; `Live` where it is found live.
    pub fn reap(&mut self, entry: &EntryId) -> Result<(), ReapError>
        // Exactly: a reap at the place that the notes tell, of which no note is left.
        ensures reaps { ReapsFor W.shared self.old.store entry.now result self.new.store }
        ensures words { KeepsWords W.origin W.begun self.old.store.cores self.new.store.cores }
        ensures keeps { KeepsIds self.old.store self.new.store }
        ensures holds { HoldsDeadlines self.old.store self.new.store }
        ensures rest { KeepsHint self.old self.new }
    {
        let Some(place) = self.store.notes.place(entry) else {
            return Err(ReapError::Missing);
        };
        if let Err(error) = self.store.cores.reap(&place) {
            return Err(error);
        }
        let _ = self.store.notes.forget(&place);
        self.store.notes.law();
        Ok(())
    }

    /// Calls a closure with the value of an entry, which it may change where it is, and returns what it returns. It
    /// returns none, and doesn't call it, if the entry isn't in the store any more, or never was. A cancelled entry has
    /// its value until it is freed.
    pub fn with_value<R, F: FnOnce(&mut T) -> R>(&mut self, entry: &EntryId, call: F) -> Option<R>
        requires { F.IsAlwaysCallable call }
        // The entry has the value that the closure left, and its deadline as before; every other stays.
        ensures changes { ChangesFor (FnOnceReturnsAtMut F.FnOnce call)
            self.old.store entry.now result self.new.store }

        // Exactly: a change at the place that the notes tell, and nothing else changes.
        ensures exact { ChangesThere (FnOnceReturnsAtMut F.FnOnce call)
            self.old.store entry.now result self.new.store }
        ensures words { KeepsWords W.origin W.begun self.old.store.cores self.new.store.cores }
        ensures keeps { KeepsOtherIds entry.now self.old.store self.new.store }
        ensures holds { HoldsDeadlines self.old.store self.new.store }
        ensures rest { KeepsHint self.old self.new }
    {
        let Some(place) = self.store.notes.place(entry) else {
            return None;
        };
        let answer = self.store.cores.with_value(&place, call);
        self.store.cores.law();
        answer
    }

    /// Takes out a freed value that waits for its drop. It returns none if no value waits.
    pub fn take_deferred(&mut self) -> Option<T>
        // One comes exactly while one waits, and nothing else changes.
        ensures takes { TakesDeferredIn self.old.store.cores result self.new.store.cores }
        ensures notes { self.new.store.notes ≡ self.old.store.notes }
        ensures keeps { KeepsIds self.old.store self.new.store }
        ensures holds { HoldsDeadlines self.old.store self.new.store }
        ensures rest { KeepsHint self.old self.new }
    {
        self.store.cores.law();
        let value = self.store.cores.take_deferred();
        value
    }

    /// Notes a tick, of one millisecond, and polls one core: it takes out one entry whose deadline in force is reached
    /// by the greatest tick noted, or tells when to come again, or that another core may have more. No value is
    /// dropped: that of each cancelled entry which it reaps waits until it is taken out.
    ///
    /// # Errors
    /// `TickTooLarge` beyond the last tick, which is not noted then.
    #[inline(always)]
    pub fn poll(&mut self, tick: u64) -> Result<Piece<T>, CoreError>
        // Exactly: a poll of the cores. What comes out has its user's key, and leaves no note.
        ensures polls { PollsFor (DoesPoll W.shared) self.old.store tick result self.new.store }

        // Where the answer is that none is due, no live entry has a deadline before the tick to wait for.
        ensures rests { IfPieceRests result
            (λ next. NoneLiveIn self.new.store.cores (unwrap_or next NEVER)) }
        ensures goes_out { IfPieceOut result
            (λ x. GoesOut self.old.store x.key.entry x.value self.new.store) }
        ensures words { KeepsWords W.origin W.begun self.old.store.cores self.new.store.cores }
        ensures keeps { KeepsIds self.old.store self.new.store }

        // No deadline falls, and what comes out leaves at none before the one that it had.
        ensures holds { HoldsDeadlines self.old.store self.new.store }
        ensures in_force { IfPieceOut result
            (λ x. LeavesInForce self.old.store x.key.entry x.deadline) }
        ensures hint { self.new.hint ≡ hint_after result self.old.hint }
        ensures sizing { self.new.sizing ≡ self.old.sizing }
    {
        self.store.cores.law();
        let made = self.store.cores.poll(tick);
        let answer = note_out(&mut self.store.notes, made);
        self.store.notes.law();
        note_hint(&mut self.hint, &answer);
        answer
    }

    /// The same by at most `most` steps, each in constant time. So it also tells where it made them all, and more may
    /// be left.
    ///
    /// # Errors
    /// `TickTooLarge` beyond the last tick, which is not noted then.
    #[inline(always)]
    pub fn poll_some(&mut self, tick: u64, most: u32) -> Result<Piece<T>, CoreError>
        // Exactly: a piece of a poll of the cores. What comes out has its user's key, and leaves no note.
        ensures polls { PollsFor (DoesPiece W.shared most)
            self.old.store tick result self.new.store }

        // Where the answer is that none is due, no live entry has a deadline before the tick to wait for.
        ensures rests { IfPieceRests result
            (λ next. NoneLiveIn self.new.store.cores (unwrap_or next NEVER)) }
        ensures goes_out { IfPieceOut result
            (λ x. GoesOut self.old.store x.key.entry x.value self.new.store) }
        ensures words { KeepsWords W.origin W.begun self.old.store.cores self.new.store.cores }
        ensures keeps { KeepsIds self.old.store self.new.store }

        // No deadline falls, and what comes out leaves at none before the one that it had.
        ensures holds { HoldsDeadlines self.old.store self.new.store }
        ensures in_force { IfPieceOut result
            (λ x. LeavesInForce self.old.store x.key.entry x.deadline) }
        ensures hint { self.new.hint ≡ hint_after result self.old.hint }
        ensures sizing { self.new.sizing ≡ self.old.sizing }
    {
        self.store.cores.law();
        let made = self.store.cores.poll_some(tick, most);
        let answer = note_out(&mut self.store.notes, made);
        self.store.notes.law();
        note_hint(&mut self.hint, &answer);
        answer
    }

    /// Looks when the next entry is due, if there is one core, so that whoever finds nothing due needs no lock to tell.
    /// Of several cores that takes as long as a poll.
    #[inline(always)]
    pub fn note_next(&mut self)
        ensures hint { NotesNext self.old.store.cores self.old.hint self.new.hint }
        ensures store { self.new.store ≡ self.old.store }
        ensures sizing { self.new.sizing ≡ self.old.sizing }
    {
        if self.store.cores().count() != 1 {
            return;
        }
        let Some(core) = self.store.cores().get(0) else {
            return;
        };
        self.hint = wake_of(core).unwrap_or(NEVER);
    }

    /// Has others come at once, whatever is due: a value waits for its drop.
    pub fn call_others(&mut self)
        ensures { self.new ≡ record self.old { hint = 0 } }
    {
        self.hint = 0;
    }
}

// Takes a core in. It is open where it is needed.
fn take_in<T, W: Words, A: Allocator + Clone>(
    store: &mut Store<T, W, A>,
    core: DelayCore<T, W, A>,
    is_needed: bool,
) -> Result<(), (TakeError, DelayCore<T, W, A>)>
    ensures comes { OnOk result (ComesInto store.old core store.new) }
    ensures refused { IfErr result (λ e. TakeRefusedFor store.old core e.0) }
    ensures opens { OnOk result (OpensIf is_needed store.old.cores store.new.cores) }
    ensures notes { store.new.notes ≡ store.old.notes }
    ensures stands { SameStand (StandsFor store.old) (StandsFor store.new) }
    ensures keeps { KeepsIdsBeside core store.old store.new }
    ensures holds { HoldsDeadlines store.old store.new }
    ensures back { IfErr result (λ e. (e.1 ≡ core) × (store.new.cores ≡ store.old.cores)) }
{
    core.law();
    let opened = store.cores().opened();
    if let Err(refused) = store.take_in(core) {
        return Err(refused);
    }
    if is_needed {
        return Ok(());
    }
    let _ = store.open(opened);
    Ok(())
}

// Its size.
impl<T, W: Words, A: Allocator + Clone> SizedStore<T, W, A> {
    /// Whether a slot is free for an insert: in the open core, or in another one of which half is free, or, where any
    /// will do, in any. That one is open then. No value that waits for its drop is in the way.
    #[inline(always)]
    pub fn finds_room(&mut self, any_will_do: bool) -> bool
        // Then an insert isn't refused as full, and no value that waits for its drop is in its way.
        ensures room { result ≡ true → HasOpenRoom self.new.store.cores }
        ensures clear { result ≡ true
            → HasClearAt self.new.store.cores self.new.store.cores.opened }

        // If the open core has such a slot, nothing changes. Else a core is open that may be opened, or
        // nothing changes.
        ensures stays { HasClearAt self.old.store.cores self.old.store.cores.opened
            → self.new.store ≡ self.old.store }
        ensures other { (self.new.store ≡ self.old.store)
            ⊎ OpensOne any_will_do self.new.store.cores }

        // Else there is no such slot in the open core, nor in one that may be opened.
        ensures none { result ≡ false → HasNoRoom any_will_do self.old.store.cores }
        ensures kept { result ≡ false → self.new.store ≡ self.old.store }

        // No more changes than which core is open.
        ensures opens { OnlyOpens self.old.store self.new.store }

        // No id is given anew, and no deadline falls.
        ensures keeps { KeepsIds self.old.store self.new.store }
        ensures holds { HoldsDeadlines self.old.store self.new.store }

        // Work is noted exactly if another core is open.
        ensures notes { NotesWorkIf (FoundElsewhere result self.old.store.cores)
            self.old.sizing self.new.sizing }
        ensures hint { self.new.hint ≡ self.old.hint }
    {
        if has_open_room(self.store.cores()) {
            return true;
        }
        self.sizing.opens_another(&mut self.store, any_will_do)
    }

    /// Takes memory for `cores` more in the list of cores, and for one note.
    ///
    /// # Errors
    /// If memory is refused.
    pub fn reserve(&mut self, cores: usize) -> Result<(), AllocError>
        ensures cores { self.new.store.cores ≡ self.old.store.cores }
        ensures notes { SameNotes self.old.store.notes self.new.store.notes }
        ensures room { OnOk result (HasNoteRoom self.new.store.notes) }
        ensures keeps { KeepsIds self.old.store self.new.store }
        ensures holds { HoldsDeadlines self.old.store self.new.store }
        ensures rest { KeepsHint self.old self.new }
    {
        self.store.cores.reserve(cores)?;
        let reserved = self.store.notes.reserve();
        self.store.notes.law();
        reserved
    }

    /// Closes the open core: inserts are refused until `finds_room` opens one, or one comes in.
    pub fn close(&mut self)
        ensures closes { self.new.store.cores
            ≡ record self.old.store.cores { opened = length self.old.store.cores.cores } }
        ensures notes { self.new.store.notes ≡ self.old.store.notes }
        ensures keeps { KeepsIds self.old.store self.new.store }
        ensures holds { HoldsDeadlines self.old.store self.new.store }
        ensures rest { KeepsHint self.old self.new }
    {
        self.store.cores.close();
    }

    /// Takes a core in that was made: it is open from now on where the open one is to be exchanged or has no room, and
    /// waits else until it is needed.
    ///
    /// # Errors
    /// The core comes back, and nothing changes in the store. In this order:
    /// - `UsedNumber` if a moved entry is known by an id of that number with a stamp that the core may give anew.
    /// - `StillLinked` if an entry is linked in the core.
    /// - `UsedNumber` if a core of the store has its number, or it is the last one of all.
    /// - `NoMemory` if memory is refused.
    pub fn bring(&mut self, core: DelayCore<T, W, A>) -> Result<(), (TakeError, DelayCore<T, W, A>)>
        ensures comes { OnOk result (ComesInto self.old.store core self.new.store) }
        ensures refused { IfErr result (λ e. TakeRefusedFor self.old.store core e.0) }

        // It is open where the open one has no free slot; else it is, or the one that was still is.
        ensures opens { OnOk result (OpensWanted self.old.store.cores self.new.store.cores) }
        ensures stands { SameStand (StandsFor self.old.store) (StandsFor self.new.store) }

        // No id is given anew but those that the core gives anew, and no deadline falls.
        ensures keeps { KeepsIdsBeside core self.old.store self.new.store }
        ensures holds { HoldsDeadlines self.old.store self.new.store }
        ensures back { IfErr result (λ e. (e.1 ≡ core)
            × (self.new.store.cores ≡ self.old.store.cores)
            × (self.new.store.notes ≡ self.old.store.notes)) }

        // The way of the sweeps begins anew, and it is noted that there may be something to do.
        ensures notes { self.new.sizing ≡ with_work
            (record self.old.sizing { sweep = anew self.old.sizing.sweep self.new.store.cores }) }
        ensures hint { self.new.hint ≡ self.old.hint }
    {
        core.law();
        let is_needed = !has_open_room(self.store.cores())
            || self.sizing.is_to_be_exchanged(self.store.cores());
        let taken = take_in(&mut self.store, core, is_needed);
        let all = slots(self.store.cores());
        self.sizing.sweep.restart(all);
        self.sizing.note_work();
        taken
    }

    /// Takes a core out that has drained and isn't needed soon. Folded, it keeps its words alone.
    pub fn take_needless(&mut self) -> Option<DelayCore<T, W, A>>
        // It was a core that isn't open. That one stays open. None of its number is there any more.
        ensures drained { IfSome result (λ c. IsFoldable c × WasBeside self.old.store.cores c) }
        ensures needless { IfSome result (IsNeedless self.old.sizing self.old.store.cores) }
        ensures gone { IfSome result (λ c. HasNo self.new.store.cores.cores c.shard) }
        ensures opens { StaysOpen self.old.store.cores self.new.store.cores }
        ensures were { AllWere self.old.store.cores self.new.store.cores }
        ensures notes { self.new.store.notes ≡ self.old.store.notes }
        ensures stands { SameStand (StandsFor self.old.store) (StandsFor self.new.store) }

        // No id is given anew, no deadline falls, and no tick is noted.
        ensures keeps { KeepsIds self.old.store self.new.store }
        ensures holds { HoldsDeadlines self.old.store self.new.store }
        ensures tick { KeepsTick self.old.store.cores self.new.store.cores }

        // The way of the sweeps begins anew. If each core is needed, that stays, and the store does. No
        // work is noted any more.
        ensures anew { OnSome result
            (self.new.sizing.sweep ≡ anew self.old.sizing.sweep self.old.store.cores) }
        ensures stays { IfNone result ((self.new.sizing.sweep ≡ self.old.sizing.sweep)
            × (self.new.store ≡ self.old.store)) }
        ensures none { IfNone result (NoneNeedless self.old.sizing
            self.old.store.cores (length self.old.store.cores.cores)) }
        ensures work { self.new.sizing
            ≡ record self.old.sizing { has_work = false; sweep = self.new.sizing.sweep } }
        ensures hint { self.new.hint ≡ self.old.hint }
    {
        self.sizing.has_work = false;
        self.store.law();
        let Some(at) = self.sizing.needless(self.store.cores()) else {
            return None;
        };
        // The cores get other places.
        let all = slots(self.store.cores());
        self.sizing.sweep.restart(all);
        let core = self.store.take_at(at);
        core.law();
        Some(core)
    }

    /// Takes a core out that has drained: it isn't the open one, and holds nothing, not even a value that waits for its
    /// drop. It may be needed soon. Folded, it keeps its words alone.
    pub fn take_drained(&mut self) -> Option<DelayCore<T, W, A>>
        ensures gives { IfSome result
            (λ c. GivesDrained self.old.store.cores c self.new.store.cores) }
        ensures none { IfNone result (NoneDrained self.old.store.cores
            × (self.new.store.cores ≡ self.old.store.cores)) }
        ensures notes { self.new.store.notes ≡ self.old.store.notes }
        ensures keeps { KeepsIds self.old.store self.new.store }
        ensures holds { HoldsDeadlines self.old.store self.new.store }

        // The way of the sweeps begins anew where one is taken out: the cores get other places.
        ensures anew { OnSome result
            (self.new.sizing.sweep ≡ anew self.old.sizing.sweep self.old.store.cores) }
        ensures stays { IfNone result (self.new.sizing.sweep ≡ self.old.sizing.sweep) }
        ensures sizing { self.new.sizing
            ≡ record self.old.sizing { sweep = self.new.sizing.sweep } }
        ensures hint { self.new.hint ≡ self.old.hint }
    {
        self.store.cores.law();
        let all = slots(&self.store.cores);
        let core = self.store.cores.take_drained();
        if core.is_some() {
            self.sizing.sweep.restart(all);
        }
        core
    }

    /// Frees cancelled entries at the next slots, 256 at most, unless each was looked at since the last of so many
    /// cancels. It tells whether it looked at some. No value is dropped: each waits until it is taken out.
    pub fn sweep(&mut self, cancels: u64) -> bool
        // The next slots of its way are swept, and it goes on behind them. If other cancels are told than
        // before, all slots are on it again.
        ensures sweeps { result ≡ true → SweepsNext W.shared 256
            (way_for self.old.sizing.sweep cancels self.old.store.cores)
            self.old.store self.new.sizing.sweep self.new.store }

        // Else nothing changes: that is exactly if no slot is left on the way.
        ensures rests { result ≡ false → self.new.store ≡ self.old.store }
        ensures stays { result ≡ false → self.new.sizing.sweep
            ≡ way_for self.old.sizing.sweep cancels self.old.store.cores }
        ensures left { IsTrue result
            ↔ (0 < (way_for self.old.sizing.sweep cancels self.old.store.cores).left) }
        ensures noted { self.new.sizing.sweep.cancels ≡ cancels }

        // No id is given anew, and no deadline falls.
        ensures keeps { KeepsIds self.old.store self.new.store }
        ensures holds { HoldsDeadlines self.old.store self.new.store }
        ensures words { KeepsWords W.origin W.begun self.old.store.cores self.new.store.cores }

        // If there is quiet since these cancels, no slot is left and there is no work.
        ensures quiet { TellsQuiet self.new.sizing cancels self.new.store }
        ensures rest { self.new.sizing ≡ record self.old.sizing {
          quiet_since = self.new.sizing.quiet_since;
          sweep = self.new.sizing.sweep;
        } }
        ensures hint { self.new.hint ≡ self.old.hint }
    {
        self.sizing.begin_way(self.store.cores(), cancels);
        if self.sizing.sweep.left == 0 {
            self.sizing.note_swept(&self.store, cancels);
            return false;
        }
        self.sizing.sweep_some(&mut self.store);
        self.sizing.note_swept(&self.store, cancels);
        true
    }

    /// Notes that an entry left its core, and that so many are left.
    #[inline(always)]
    pub fn note_left(&mut self, left: u64)
        ensures notes { NotesLeft left self.old.sizing self.old.store self.new.sizing }
        ensures rest { self.new ≡ record self.old { sizing = self.new.sizing } }
    {
        if !is_look(left) {
            return;
        }
        if !may_shrink(self.store.cores()) {
            return;
        }
        self.sizing.look_after(&self.store);
    }
}
