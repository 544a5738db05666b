//! The cores of one owner, and the calls on them.

ghost use Rattle.std.specs.Prelude.{◌≡◌, ◌≢◌, ◌⊎◌, true, false, ℕ, ◌<◌, ◌≤◌, IfSome, IfNone, IfOk, IfErr, OnOk, OnErr, IsErrOf, IsErrAnd, ◌↔◌, Ok, Err, Some, None, [], length, min, nat_eq, IsErr, max, MatchOption, unwrap_or};
ghost use Rattle.dq_core.specs.declared.errors.CoreError.TheVariants.{Missing, TooFar};
ghost use Rattle.dq_core.specs.Core.{Core, machine};
ghost use Rattle.dq_core.specs.Calls.{IsMissing, Inserts, Removes, RemovesIfDue, Resets, SameCore, TellsDeadline, TellsWake};
ghost use Rattle.dq_core.specs.AtTheCall.{HoldsValue};
ghost use Rattle.dq_core.specs.Values.{ChangesValue};
ghost use Rattle.dq_ticks.specs.Keys.{EntryName};
ghost use Rattle.std.specs.Fn.{FnOnceReturnsAtMut};
ghost use Rattle.dq_core.specs.Words.{StillBegun};
ghost use Rattle.dq_growing.specs.Stands.{IsThere, IsPastAt, IsPastIn, HasEntry, OneChanges, OneLeaves, SameStand, KeepsWords, Ages};
ghost use Rattle.dq_ticks.specs.declared.TheConstants.{LAST_TICK};
ghost use Rattle.dq_growing.specs.declared.cores.TakeError.TheVariants.{NoMemory};
ghost use Rattle.dq_core.specs.Folds.{IsFoldable};
ghost use Rattle.dq_growing.specs.Moving.{HasBegunIn};
ghost use Rattle.dq_growing.specs.Cores.{MayComeIn, CoreRow, AreCores, IsCoreAt, HasAt, HasNo, OnCoreOr, HoldsIn, IsMissingIn, InsertsIn, TellsNextIn, TakesIn, TakeRefused, HasDrained, GivesDrained, NoneDrained, closed_error, missing_error, opened_without, lowered_to};
ghost use Rattle.dq_growing.specs.declared.cores.TheConstants.{KNOWN};
ghost use Rattle.dq_growing.specs.Polls.{bound_at, joined_with, IsLeastBelow, TellsLeastBelow, WakeBounds, PollsRow, DoesPoll, DoesPiece, TellsDue, told, IfPieceOut, IfPieceRests, OthersAreQuiet, PollsCore, HasTurn, NoneLiveIn, TellsWakeIn, PeeksIn, NoneWaits, TakesDeferredIn};
ghost use Rattle.dq_growing.specs.declared.TheConstants.{NEVER};
ghost use Rattle.dq_core.specs.Deferring.{waiting_in};
ghost use Rattle.dq_core.specs.Machine.{NoneLinked, NoneLiveBefore};

use crate::NEVER;
use dq_core::laws::wakes_bound_deadlines;
use dq_core::{CoreError, DelayCore, Piece, Removed, Turn, Words};
use dq_ticks::{EntryId, Key, LAST_TICK};
use std::alloc::{AllocError, Allocator, Global};
use std::marker::Model;

/// Of how many cores a tick is known before which none of its live entries has a deadline.
pub(crate) const KNOWN: usize = 16;

/// Where nobody has the turn.
const NOBODY: usize = usize::MAX;

/// Which core has the least wake.
#[derive(Clone, Copy)]
pub(crate) struct Least {
    // Its place.
    pub place: usize,
    // Its wake.
    pub wake: u64,
    // No other core has a live entry with a deadline before this tick.
    pub others: u64,
}

/// What is to be polled next.
#[derive(Clone, Copy)]
pub(crate) enum Due {
    /// The core at a place. No other one has a live entry with a deadline before `others`.
    In { place: usize, others: u64 },
    /// None is due before this tick, and none ever where there is no tick.
    Rests(Option<u64>),
}

// What is least, once a core with that wake joins those before it.
pub(crate) fn joined(least: Option<Least>, place: usize, wake: Option<u64>) -> Option<Least>
    ensures { result ≡ joined_with least place wake }
{
    let Some(wake) = wake else {
        return least;
    };
    let Some(so_far) = least else {
        return Some(Least {
            place,
            wake,
            others: NEVER,
        });
    };
    if wake < so_far.wake {
        return Some(Least {
            place,
            wake,
            others: so_far.wake,
        });
    }
    Some(Least {
        place: so_far.place,
        wake: so_far.wake,
        others: so_far.others.min(wake),
    })
}

/// Which core's turn it is to be polled, and what is known of the others, so that who is next is found without a look
/// at each.
#[derive(Drop)]
pub(crate) struct Turns {
    // The core that has the turn. No other one has a live entry with a deadline before `others`.
    place: usize,
    others: u64,
    // No live entry of a core has a deadline before its tick here.
    bounds: [u64; KNOWN],
}

impl Model for Turns {
    ghost use Rattle.dq_growing.specs.Polls.{TurnState, AreTurns};

    ghost Value = { TurnState };

    ghost view = { λ t. record { place = t.place; others = t.others; bounds = t.bounds } };

    ghost invariant = { λ t. AreTurns (record { place = t.place; others = t.others; bounds = t.bounds }) };
}

impl Turns {
    /// Nothing is known.
    pub fn new() -> Turns
        ensures others { result.others ≡ 0 }
        ensures bounds { (i : ℕ) → bound_at result.bounds i ≡ 0 }
    {
        // The one core of most stores goes on with the turn.
        Turns {
            place: 0,
            others: 0,
            bounds: [0; KNOWN],
        }
    }

    /// The core that has the turn. Where there is no such one, nobody has it.
    #[inline(always)]
    pub fn place(&self) -> usize
        ensures { result ≡ self.now.place }
    {
        self.place
    }

    /// The tick before which no other core has a live entry with a deadline.
    #[inline(always)]
    pub fn others(&self) -> u64
        ensures { result ≡ self.now.others }
    {
        self.others
    }

    /// Notes that an entry of a core gets a deadline.
    #[inline(always)]
    pub fn lower(&mut self, at: usize, when: u64)
        ensures place { self.new.place ≡ self.old.place }
        ensures others { self.new.others
            ≡ lowered_to self.old.others when (nat_eq at self.old.place) }
        ensures rest { (i : ℕ) → i ≢ at → bound_at self.new.bounds i ≡ bound_at self.old.bounds i }
        ensures low { bound_at self.new.bounds at ≡ min (bound_at self.old.bounds at) when }
    {
        if at == self.place {
            return;
        }
        self.others = self.others.min(when);
        if at < KNOWN {
            let bound = self.bounds[at];
            self.bounds[at] = bound.min(when);
        }
    }

    /// Notes when a core wakes. Nobody has the turn then.
    #[inline(always)]
    pub fn note(&mut self, at: usize, wake: u64)
        ensures others { self.new.others ≡ 0 }
        ensures rest { (i : ℕ) → i ≢ at → bound_at self.new.bounds i ≡ bound_at self.old.bounds i }
        ensures noted { at < KNOWN → bound_at self.new.bounds at ≡ wake }
        ensures unknown { KNOWN ≤ at → bound_at self.new.bounds at ≡ 0 }
    {
        self.place = NOBODY;
        self.others = 0;
        if at < KNOWN {
            self.bounds[at] = wake;
        }
    }

    /// Gives a core the turn, where no other one has a live entry with a deadline before `others`.
    #[inline(always)]
    pub fn give(&mut self, place: usize, others: u64)
        ensures place { self.new.place ≡ place }
        ensures others { self.new.others ≡ others }
        ensures rest { (i : ℕ) → i ≢ place → bound_at self.new.bounds i ≡ bound_at self.old.bounds i }
        ensures own { bound_at self.new.bounds place ≡ 0 }
    {
        self.place = place;
        self.others = others;
        if place < KNOWN {
            self.bounds[place] = 0;
        }
    }

    /// The one of the first cores that has the least tick, and the least tick of the others; none where all is known to
    /// be idle.
    #[inline(always)]
    pub fn first(&self, cores: usize) -> Option<(usize, u64)>
        requires { cores ≤ KNOWN }
        ensures { IfSome result (λ next. (next.0 < cores)
            × ((i : ℕ) → i < cores → i ≢ next.0 → next.1 ≤ bound_at self.now.bounds i)) }
    {
        let mut place = NOBODY;
        let mut least = NEVER;
        let mut others = NEVER;
        for at in 0..cores {
            let bound = self.bounds[at];
            if bound < least {
                others = least;
                least = bound;
                place = at;
            } else {
                others = others.min(bound);
            }
        }
        if place == NOBODY {
            return None;
        }
        Some((place, others))
    }
}

/// Why a core doesn't come into a store.
#[derive(Clone, Copy, Debug, PartialEq, Eq)]
pub enum TakeError {
    /// An entry is linked in it.
    StillLinked,
    /// A core of the store has its number, or it is the last one of all.
    UsedNumber,
    /// Memory was refused.
    NoMemory,
}

/// A delay queue of one owner that grows and shrinks.
///
/// A call by an entry's id compares its number with those of the cores, the newest first, until it has found its core.
/// What it costs, as it is told with the call, is in that core.
#[derive(Drop)]
pub struct Cores<T, W: Words, A: Allocator = Global> {
    pub(crate) cores: Vec<DelayCore<T, W, A>, A>,
    pub(crate) opened: usize,
    pub(crate) next: u32,
    pub(crate) noted: u64,
    pub(crate) turns: Turns,
}

impl<T, W: Words, A: Allocator> Model for Cores<T, W, A> {
    ghost use Rattle.dq_growing.specs.Cores.{CoreRow, AreCores};
    ghost use Rattle.dq_growing.specs.Polls.{KeepsTurns};

    ghost Value = { CoreRow T W };

    ghost view = { λ s. record { cores = s.cores.items; opened = s.opened; next = s.next; noted = s.noted } };

    ghost invariant = { λ s.
        AreCores (record { cores = s.cores.items; opened = s.opened; next = s.next; noted = s.noted })
        × KeepsTurns (record { cores = s.cores.items; opened = s.opened; next = s.next; noted = s.noted }) s.turns };
}

// Why a reset is refused where no core has the entry's number.
pub(crate) fn missing_at(when: u64) -> CoreError
    ensures { result ≡ missing_error when }
{
    if when > LAST_TICK {
        return CoreError::TooFar { limit: LAST_TICK };
    }
    CoreError::Missing
}

// Whether nothing is linked in a core, and no value waits for its drop there.
pub(crate) fn is_foldable<T, W: Words, A: Allocator>(core: &DelayCore<T, W, A>) -> bool
    ensures yes { result ≡ true → IsFoldable core.now }
    ensures no { result ≡ false → ¬ IsFoldable core.now }
{
    core.is_empty() && core.deferred() == 0
}

// Takes a live entry out of a core.
#[inline(always)]
fn remove_from<T, W: Words, A: Allocator>(
    core: &mut DelayCore<T, W, A>,
    entry: &EntryId,
) -> Result<Removed<T>, CoreError>
    ensures out { IfOk result
        (λ x. (x.key.entry ≡ entry.now) × HoldsValue core.old entry.now x.value) }
    ensures missing { IsErrOf result Missing ↔ IsMissing core.old entry.now }
    ensures leaves { IfOk result
        (λ x. OneLeaves (IsThere core.old) (IsThere core.new) entry.now x.value) }
    ensures in_time { IfOk result (λ x. x.deadline ≤ LAST_TICK) }
    ensures past { OnOk result (IsPastAt core.new entry.now) }
    ensures refused { OnErr result (SameStand (IsThere core.old) (IsThere core.new)) }
    ensures removes { Removes W.shared core.old entry.now result core.new }
    ensures same { SameCore core.old core.new }
    ensures origin { W.origin core.new.words ≡ W.origin core.old.words }
    ensures begun { StillBegun W.begun core.old.words core.new.words }
{
    core.law();
    let answer = core.remove(entry);
    core.law();
    answer
}

// The place of the open core, once the core at a place is gone.
fn opened_after(opened: usize, at: usize) -> usize
    ensures { result ≡ opened_without opened at }
{
    if at < opened { opened - 1 } else { opened }
}

// Why an insert is refused where no core is open.
fn closed_at(when: u64) -> CoreError
    ensures { result ≡ closed_error when }
{
    if when > LAST_TICK {
        return CoreError::TooFar { limit: LAST_TICK };
    }
    CoreError::Full { linked: 0, worn: 0 }
}

impl<T, W: Words, A: Allocator> Cores<T, W, A> {
    /// A row of no cores.
    pub fn new(alloc: A) -> Cores<T, W, A>
        ensures { result ≡ record { cores = []; opened = 0; next = 0; noted = 0 } }
    {
        Cores {
            cores: Vec::new(alloc),
            opened: 0,
            next: 0,
            noted: 0,
            turns: Turns::new(),
        }
    }

    /// Returns how many cores there are.
    pub fn count(&self) -> usize
        ensures { result ≡ length self.now.cores }
    {
        self.cores.len()
    }

    /// Returns the core at a place. It returns none where there is no such place.
    #[inline]
    pub fn get(&self, place: usize) -> Option<&DelayCore<T, W, A>>
        ensures found { IfSome result (λ c. IsCoreAt self.now.cores place c.now) }
        ensures none { IfNone result (length self.now.cores ≤ place) }
    {
        if place >= self.cores.len() {
            return None;
        }
        Some(&self.cores[place])
    }

    /// Returns the place of the open core. Where there is no such place, no core is open.
    #[inline]
    pub fn opened(&self) -> usize
        ensures { result ≡ self.now.opened }
    {
        self.opened
    }

    /// Returns the greatest tick, of one millisecond, that was noted.
    pub fn noted(&self) -> u64
        ensures { result ≡ self.now.noted }
    {
        self.noted
    }

    /// Opens the core at a place, so that inserts go there from now on. It returns whether there is such a place.
    pub fn open(&mut self, place: usize) -> bool
        ensures opens { result ≡ true → (place < length self.old.cores)
            × (self.new ≡ record self.old { opened = place }) }
        ensures refused { result ≡ false → (length self.old.cores ≤ place) × (self.new ≡ self.old) }
    {
        if place >= self.cores.len() {
            return false;
        }
        self.opened = place;
        true
    }

    /// Closes the open core: inserts are refused until another one is opened or comes in.
    pub fn close(&mut self)
        ensures { self.new ≡ record self.old { opened = length self.old.cores } }
    {
        self.opened = self.cores.len();
    }

    /// What a store keeps at all times: each core has a number of its own.
    pub fn law(&self)
        ensures { AreCores self.now }
    {
        let _ = &self.cores;
    }

    // The place of the core of that number.
    #[inline(always)]
    pub(crate) fn place_of(&self, number: u32) -> Option<usize>
        ensures found { IfSome result (λ i. (c : Core T W) × HasAt self.now.cores number i c) }
        ensures none { IfNone result (HasNo self.now.cores number) }
    {
        for newer in 0..self.cores.len() {
            // The newest core has the most entries.
            let at = self.cores.len() - 1 - newer;
            if self.cores[at].shard() == number {
                return Some(at);
            }
        }
        None
    }

    // The core of an entry's number.
    pub(crate) fn of(&self, entry: &EntryId) -> Option<&DelayCore<T, W, A>>
        ensures found { IfSome result (λ c. (i : ℕ) × HasAt self.now.cores entry.now.shard i c.now) }
        ensures none { IfNone result (HasNo self.now.cores entry.now.shard) }
    {
        let Some(at) = self.place_of(entry.shard()) else {
            return None;
        };
        Some(&self.cores[at])
    }

    /// Takes a live entry out, and returns its value with its key and its current deadline, a tick of one millisecond.
    /// Constant time, and no memory is taken.
    ///
    /// # Errors
    /// In this order:
    /// - `Missing` if the entry isn't in the store any more, or never was.
    /// - `WasCancelled` if the entry was cancelled.
    #[inline(always)]
    pub fn remove(&mut self, entry: &EntryId) -> Result<Removed<T>, CoreError>
        // What was held under that number, index and birth stamp comes out. A missing entry is told
        // exactly.
        ensures out { IfOk result
            (λ x. (x.key.entry ≡ entry.now) × HoldsIn self.old entry.now x.value) }
        ensures missing { IsErrOf result Missing ↔ IsMissingIn self.old entry.now }

        // No other entry leaves or changes, and none where it is refused. No new key is the id that left.
        ensures leaves { IfOk result
            (λ x. OneLeaves (HasEntry self.old) (HasEntry self.new) entry.now x.value) }
        ensures past { OnOk result (IsPastIn self.new entry.now) }
        ensures in_time { IfOk result (λ x. x.deadline ≤ LAST_TICK) }
        ensures refused { OnErr result (SameStand (HasEntry self.old) (HasEntry self.new)) }

        // Exactly: a removal from the core of that number, and nothing else changes.
        ensures removes { OnCoreOr entry.now.shard (λ b c. Removes W.shared b entry.now result c)
            (result ≡ Err Missing) self.old self.new }
        ensures words { KeepsWords W.origin W.begun self.old self.new }
    {
        let Some(at) = self.place_of(entry.shard()) else {
            return Err(CoreError::Missing);
        };
        let answer = remove_from(&mut self.cores[at], entry);
        answer
    }

    /// Takes a live entry out if its current deadline isn't after `tick`, both of one millisecond, and returns its
    /// value with its key and that deadline. It returns none if the deadline is later: the entry stays as it is.
    /// Constant time, and no memory is taken.
    ///
    /// # Errors
    /// In this order:
    /// - `Missing` if the entry isn't in the store any more, or never was.
    /// - `WasCancelled` if the entry was cancelled.
    pub fn remove_if_due(
        &mut self,
        entry: &EntryId,
        tick: u64,
    ) -> Result<Option<Removed<T>>, CoreError>
        // That entry leaves with its value, and no other; its deadline isn't after the tick. None leaves
        // where it is later, or where the call is refused.
        ensures leaves { IfOk result (λ found. IfSome found
            (λ x. OneLeaves (HasEntry self.old) (HasEntry self.new) entry.now x.value)) }
        ensures due { IfOk result (λ found. IfSome found (λ x. x.deadline ≤ tick)) }
        ensures stays { IfOk result
            (λ found. IfNone found (SameStand (HasEntry self.old) (HasEntry self.new))) }
        ensures refused { OnErr result (SameStand (HasEntry self.old) (HasEntry self.new)) }

        // Exactly: a remove of what is due in the core of that number, and nothing else changes.
        ensures removes { OnCoreOr entry.now.shard
            (λ b c. RemovesIfDue W.shared b entry.now tick result c)
            (result ≡ Err Missing) self.old self.new }
        ensures words { KeepsWords W.origin W.begun self.old self.new }
    {
        let Some(at) = self.place_of(entry.shard()) else {
            return Err(CoreError::Missing);
        };
        let answer = self.cores[at].remove_if_due(entry, tick);
        answer
    }

    /// Gives a live entry the deadline `when`, a tick of one millisecond, sooner or later than the one that it has, and
    /// returns its new key. Constant time, and no memory is taken.
    ///
    /// # Errors
    /// In this order:
    /// - `TooFar` if `when` is beyond the last tick.
    /// - `Missing` if the entry isn't in the store any more, or never was.
    /// - `WasCancelled` if the entry was cancelled.
    /// - `Worn` if the entry's slot has no stamp left for another key.
    #[inline(always)]
    pub fn reset(&mut self, entry: &EntryId, when: u64) -> Result<Key, CoreError>
        // A deadline beyond the last tick is refused first, and exactly.
        ensures too_far { IsErrOf result (TooFar LAST_TICK) ↔ (LAST_TICK < when) }

        // Exactly: a reset in the core of that number, and nothing else changes.
        ensures resets { OnCoreOr entry.now.shard (λ b c. Resets W.shared b entry.now when result c)
            (result ≡ Err (missing_error when)) self.old self.new }
        ensures words { KeepsWords W.origin W.begun self.old self.new }
    {
        let Some(at) = self.place_of(entry.shard()) else {
            return Err(missing_at(when));
        };
        self.turns.lower(at, when);
        let answer = self.cores[at].reset(entry, when);
        answer
    }

    /// Returns the current deadline of a live entry, a tick of one millisecond. Constant time.
    ///
    /// # Errors
    /// In this order:
    /// - `Missing` if the entry isn't in the store any more, or never was.
    /// - `WasCancelled` if the entry was cancelled.
    pub fn deadline(&mut self, entry: &EntryId) -> Result<u64, CoreError>
        // A missing entry is told exactly.
        ensures missing { IsErrOf result Missing ↔ IsMissingIn self.old entry.now }

        // Exactly: a look in the core of that number, and nothing else changes.
        ensures tells { OnCoreOr entry.now.shard
            (λ b c. TellsDeadline W.shared b entry.now result c)
            (result ≡ Err Missing) self.old self.new }
        ensures words { KeepsWords W.origin W.begun self.old self.new }
    {
        let Some(at) = self.place_of(entry.shard()) else {
            return Err(CoreError::Missing);
        };
        let answer = self.cores[at].deadline(entry);
        answer
    }

    /// Returns the key that an insert may give next: that of a free slot of the open core in which no value waits for
    /// its drop. It returns none if no core is open, or no such slot is left. Constant time.
    pub fn next_key(&self) -> Option<Key>
        ensures { TellsNextIn self.now result }
    {
        if self.opened >= self.cores.len() {
            return None;
        }
        let key = self.cores[self.opened].next_key();
        key
    }

    /// Calls a closure with the value of an entry, which it may change where it is, and returns what it returns. It
    /// returns none, and doesn't call it, if the entry isn't in the store any more, or never was. A cancelled entry has
    /// its value until it is freed.
    pub fn with_value<R, F: FnOnce(&mut T) -> R>(&mut self, entry: &EntryId, call: F) -> Option<R>
        requires { F.IsAlwaysCallable call }
        // The entry has the value that the closure left, and its deadline as before; every other stays.
        ensures changes { IfSome result
            (OneChanges (HasEntry self.old) (HasEntry self.new)
            (FnOnceReturnsAtMut F.FnOnce call) entry.now) }
        ensures past { (id : EntryName) → IsPastIn self.old id → IsPastIn self.new id }
        ensures none { IfNone result (IsMissingIn self.old entry.now × (self.new ≡ self.old)) }

        // Exactly: a change in the core of that number, and nothing else changes.
        ensures exact { OnCoreOr entry.now.shard
            (λ b c. ChangesValue (FnOnceReturnsAtMut F.FnOnce call) b entry.now result c)
            (result ≡ None) self.old self.new }
        ensures words { KeepsWords W.origin W.begun self.old self.new }
    {
        let Some(at) = self.place_of(entry.shard()) else {
            return None;
        };
        let answer = self.cores[at].with_value(entry, call);
        answer
    }

    /// Puts `value` into the open core, to come out at the tick `when` of one millisecond, and returns its key. No
    /// value is dropped: one that waits for its drop in the slot that the entry takes comes out beside the key.
    /// Constant time, and no memory is taken.
    ///
    /// # Errors
    /// `value` comes back. In this order:
    /// - `TooFar` if `when` is beyond the last tick.
    /// - `Full` if no core is open, or the open one has no slot free.
    #[inline(always)]
    pub fn insert(&mut self, value: T, when: u64) -> (Result<Key, (CoreError, T)>, Option<T>)
        // Refused, the value comes back and nothing changes; first, and exactly, beyond the last tick.
        ensures refused { IfErr result.0 (λ e. (e.1 ≡ value) × (self.new ≡ self.old)) }
        ensures too_far { IsErrAnd result.0 (λ e. e.0 ≡ TooFar LAST_TICK) ↔ (LAST_TICK < when) }

        // Exactly: an insert into the open core, and nothing else changes.
        ensures inserts { InsertsIn self.old value when result self.new }
        ensures begins { IfOk result.0 (λ k. HasBegunIn W.begun self.old k when self.new) }
        ensures words { KeepsWords W.origin W.begun self.old self.new }
    {
        if self.opened >= self.cores.len() {
            return (Err((closed_at(when), value)), None);
        }
        self.turns.lower(self.opened, when);
        let answer = self.cores[self.opened].insert_deferring(value, when);
        answer
    }

    // Whether a core may come in.
    fn may_take(&self, core: &DelayCore<T, W, A>) -> Result<(), TakeError>
        ensures may { OnOk result (MayComeIn self.now core.now) }
        ensures refused { IfErr result (λ e. TakeRefused self.now core.now e × (e ≢ NoMemory)) }
    {
        if !core.is_empty() {
            return Err(TakeError::StillLinked);
        }
        if core.shard() == u32::MAX {
            return Err(TakeError::UsedNumber);
        }
        if self.place_of(core.shard()).is_some() {
            return Err(TakeError::UsedNumber);
        }
        Ok(())
    }

    /// Takes memory for `cores` more in the list of cores.
    ///
    /// # Errors
    /// If memory is refused.
    pub fn reserve(&mut self, cores: usize) -> Result<(), AllocError>
        ensures { self.new ≡ self.old }
    {
        self.cores.reserve(cores)
    }

    /// Takes a core in, which is open from then on. The one that was open drains. A later tick that the core noted is
    /// noted. It takes memory for the list of cores alone.
    ///
    /// # Errors
    /// The core comes back, and nothing changes. In this order:
    /// - `StillLinked` if an entry is linked in the core.
    /// - `UsedNumber` if a core of the store has its number, or it is the last one of all.
    /// - `NoMemory` if memory is refused.
    pub fn take_in(
        &mut self,
        core: DelayCore<T, W, A>,
    ) -> Result<(), (TakeError, DelayCore<T, W, A>)>
        ensures takes { OnOk result (TakesIn self.old core self.new) }
        ensures refused { IfErr result
            (λ e. TakeRefused self.old core e.0 × (e.1 ≡ core) × (self.new ≡ self.old)) }
    {
        if let Err(error) = self.may_take(&core) {
            return Err((error, core));
        }
        let number = core.shard();
        if self.cores.reserve(1).is_err() {
            return Err((TakeError::NoMemory, core));
        }
        core.law();
        self.next = self.next.max(number + 1);
        self.noted = self.noted.max(core.noted());
        self.opened = self.cores.len();
        self.turns = Turns::new();
        self.cores.push_reserved(core);
        Ok(())
    }

    // The place of a core that has drained.
    fn drained(&self) -> Option<usize>
        ensures found { IfSome result (λ i. (c : Core T W) × HasDrained self.now i c) }
        ensures none { IfNone result (NoneDrained self.now) }
    {
        for at in 0..self.cores.len() {
            if at != self.opened && is_foldable(&self.cores[at]) {
                return Some(at);
            }
        }
        None
    }

    /// Takes a core out that has drained: it isn't the open one, and holds nothing, not even a value that waits for its
    /// drop. Folded, it keeps its words alone.
    pub fn take_drained(&mut self) -> Option<DelayCore<T, W, A>>
        ensures gives { IfSome result (λ c. GivesDrained self.old c self.new) }
        ensures none { IfNone result (NoneDrained self.old × (self.new ≡ self.old)) }
    {
        let Some(at) = self.drained() else {
            return None;
        };
        let core = self.take_at(at);
        Some(core)
    }

    // Takes the core at a place out, which has drained.
    pub(crate) fn take_at(&mut self, at: usize) -> DelayCore<T, W, A>
        requires { (c : Core T W) × HasDrained self.old at c }
        ensures at { IsCoreAt self.old.cores at result }
        ensures gives { GivesDrained self.old result self.new }
    {
        self.opened = opened_after(self.opened, at);
        self.turns = Turns::new();
        let core = self.cores.remove(at);
        core
    }
}

// The next wake of a core.
pub(crate) fn wake_of<T, W: Words, A: Allocator>(core: &DelayCore<T, W, A>) -> Option<u64>
    ensures tells { TellsWake core.now result }
    ensures bounds { WakeBounds core.now result }
{
    wakes_bound_deadlines::<T, W>();
    core.law();
    let wake = core.next_wake();
    wake
}

// Whether a core that wakes so wakes by a tick.
#[inline(always)]
fn wakes_by(wake: Option<u64>, tick: u64) -> bool
    ensures { result ≡ true → (w : ℕ) × (wake ≡ Some w) × (w ≤ tick) }
{
    match wake {
        Some(wake) => wake <= tick,
        None => false,
    }
}

// What a store answers where a piece of the core that wakes first came to an answer, and no other core has a live entry
// with a deadline before `others`.
fn as_told<T>(piece: Piece<T>, noted: u64, others: u64) -> Piece<T>
    ensures { result ≡ told noted others piece }
{
    match piece {
        Piece::Answer(Turn::Waiting { next }) if noted < others => Piece::Answer(Turn::Waiting {
            next: next.min(others),
        }),
        Piece::Answer(Turn::Idle) if noted < others => {
            if others == NEVER {
                return Piece::Answer(Turn::Idle);
            }
            Piece::Answer(Turn::Waiting { next: others })
        }
        Piece::Answer(Turn::Out(expired)) => Piece::Answer(Turn::Out(expired)),
        _ => Piece::Working,
    }
}

impl<T, W: Words, A: Allocator> Cores<T, W, A> {
    // Which core wakes first, none where nothing is linked.
    #[inline(never)]
    fn least(&self) -> Option<Least>
        ensures { TellsLeastBelow self.now.cores (length self.now.cores) result }
    {
        let mut least = None;
        for at in 0..self.cores.len() {
            least = joined(least, at, wake_of(&self.cores[at]));
        }
        least
    }

    // What is to be polled next: the core whose turn it is, as long as it wakes before the others.
    #[inline(always)]
    fn due(&mut self) -> Due
        ensures same { self.new ≡ self.old }
        ensures due { TellsDue self.old result }
    {
        let (place, others) = (self.turns.place(), self.turns.others());
        if place < self.cores.len() {
            if self.noted < others {
                return Due::In { place, others };
            }
            let wake = wake_of(&self.cores[place]);
            if wakes_by(wake, others) {
                return Due::In { place, others };
            }
            self.turns.note(place, wake.unwrap_or(NEVER));
        }
        self.take_turns()
    }

    // Gives the turn to the core that wakes first.
    #[inline(always)]
    #[tactic(auto, using(crate::proofs::Leasts::takes_turn))]
    fn take_turns(&mut self) -> Due
        ensures same { self.new ≡ self.old }
        ensures due { TellsDue self.old result }
    {
        let Some(least) = self.next_turn() else {
            return Due::Rests(None);
        };
        if least.wake > self.noted {
            return Due::Rests(Some(least.wake));
        }
        Due::In {
            place: least.place,
            others: least.others,
        }
    }

    // The core that wakes first. It has the turn then.
    #[inline(always)]
    fn next_turn(&mut self) -> Option<Least>
        ensures same { self.new ≡ self.old }
        ensures least { TellsLeastBelow self.old.cores (length self.old.cores) result }
    {
        if let Some(least) = self.sought() {
            return Some(least);
        }
        let Some(least) = self.least() else {
            return None;
        };
        self.turns.give(least.place, least.others);
        Some(least)
    }

    // The same by what is known of the cores, none where that takes a look at each.
    #[inline(always)]
    fn sought(&mut self) -> Option<Least>
        ensures same { self.new ≡ self.old }
        ensures least { IfSome result
            (λ l. IsLeastBelow self.old.cores (length self.old.cores) l) }
    {
        let cores = self.cores.len();
        if cores > KNOWN {
            return None;
        }
        for _ in 0..KNOWN + 1 {
            let Some((place, others)) = self.turns.first(cores) else {
                return None;
            };
            if let Some(least) = self.tries(place, others) {
                return Some(least);
            }
        }
        None
    }

    // Gives the core at a place the turn if it wakes by what the others have.
    #[inline(always)]
    fn tries(&mut self, place: usize, others: u64) -> Option<Least>
        requires place { place < length self.old.cores }
        requires quiet { OthersAreQuiet self.old place others }
        ensures same { self.new ≡ self.old }
        ensures least { IfSome result
            (λ l. IsLeastBelow self.old.cores (length self.old.cores) l) }
    {
        let Some(wake) = wake_of(&self.cores[place]) else {
            self.turns.note(place, NEVER);
            return None;
        };
        if wake > others {
            self.turns.note(place, wake);
            return None;
        }
        self.turns.give(place, others);
        Some(Least {
            place,
            wake,
            others,
        })
    }

    /// Notes a tick, of one millisecond, and polls one core: it takes out one entry whose deadline in force is reached
    /// by the greatest tick noted, or tells when to come again, or that another core may have more. No value is
    /// dropped: that of each cancelled entry which it reaps waits until it is taken out. It may name a tick though what
    /// was to come then has left: whoever polls at that tick is told anew.
    ///
    /// # Errors
    /// `TickTooLarge` beyond the last tick, which is not noted then.
    #[inline(always)]
    pub fn poll(&mut self, tick: u64) -> Result<Piece<T>, CoreError>
        // The greater of the two ticks is noted. A tick is refused, and nothing changes, exactly
        // beyond the last one.
        ensures noted { OnOk result (self.new.noted ≡ max self.old.noted tick) }
        ensures refused { IsErr result ↔ (LAST_TICK < tick) }

        // What comes out is due.
        ensures out { IfPieceOut result (λ x. x.deadline ≤ self.new.noted) }

        // Where the answer is that none is due, the tick to wait for is after the noted one, and no live
        // entry has a deadline before it.
        ensures rests { IfPieceRests result
            (λ next. NoneLiveIn self.new (unwrap_or next NEVER)) }
        ensures ahead { IfPieceRests result (λ next. IfSome next (λ t. self.new.noted < t)) }

        // No id that an entry has had is given anew.
        ensures ages { Ages self.old self.new }

        // Exactly: one core is polled, or nothing is due.
        ensures polls { PollsRow (DoesPoll W.shared) self.old tick result self.new }
        ensures words { KeepsWords W.origin W.begun self.old self.new }
    {
        if tick > LAST_TICK {
            return Err(CoreError::TickTooLarge { limit: LAST_TICK });
        }
        self.noted = self.noted.max(tick);
        match self.due() {
            Due::In { place, others } => Ok(self.poll_core(place, others)),
            Due::Rests(None) => Ok(Piece::Answer(Turn::Idle)),
            Due::Rests(Some(next)) => Ok(Piece::Answer(Turn::Waiting { next })),
        }
    }

    /// The same by at most `most` steps, each in constant time. So it also tells where it made them all, and more may
    /// be left.
    ///
    /// # Errors
    /// `TickTooLarge` beyond the last tick, which is not noted then.
    #[inline(always)]
    pub fn poll_some(&mut self, tick: u64, most: u32) -> Result<Piece<T>, CoreError>
        // The greater of the two ticks is noted. A tick is refused, and nothing changes, exactly
        // beyond the last one.
        ensures noted { OnOk result (self.new.noted ≡ max self.old.noted tick) }
        ensures refused { IsErr result ↔ (LAST_TICK < tick) }

        // What comes out is due.
        ensures out { IfPieceOut result (λ x. x.deadline ≤ self.new.noted) }

        // Where the answer is that none is due, the tick to wait for is after the noted one, and no live
        // entry has a deadline before it.
        ensures rests { IfPieceRests result
            (λ next. NoneLiveIn self.new (unwrap_or next NEVER)) }
        ensures ahead { IfPieceRests result (λ next. IfSome next (λ t. self.new.noted < t)) }

        // No id that an entry has had is given anew.
        ensures ages { Ages self.old self.new }

        // Exactly: a piece of one core's poll, or nothing is due.
        ensures polls { PollsRow (DoesPiece W.shared most) self.old tick result self.new }
        ensures words { KeepsWords W.origin W.begun self.old self.new }
    {
        if tick > LAST_TICK {
            return Err(CoreError::TickTooLarge { limit: LAST_TICK });
        }
        self.noted = self.noted.max(tick);
        match self.due() {
            Due::In { place, others } => Ok(self.poll_piece(place, others, most)),
            Due::Rests(None) => Ok(Piece::Answer(Turn::Idle)),
            Due::Rests(Some(next)) => Ok(Piece::Answer(Turn::Waiting { next })),
        }
    }

    // Polls one core, where no other has a live entry with a deadline before `others`.
    #[inline(always)]
    fn poll_core(&mut self, place: usize, others: u64) -> Piece<T>
        requires place { place < length self.old.cores }
        requires quiet { OthersAreQuiet self.old place others }
        requires turn { HasTurn self.old place others }
        ensures noted { self.new.noted ≡ self.old.noted }
        ensures out { IfPieceOut (Ok result) (λ x. x.deadline ≤ self.new.noted) }
        ensures rests { IfPieceRests (Ok result)
            (λ next. NoneLiveIn self.new (unwrap_or next NEVER)) }
        ensures ahead { IfPieceRests (Ok result) (λ next. IfSome next (λ t. self.new.noted < t)) }
        ensures ages { Ages self.old self.new }
        ensures polls { PollsCore (DoesPoll W.shared) self.old result self.new }
        ensures words { KeepsWords W.origin W.begun self.old self.new }
    {
        let noted = self.noted;
        wakes_bound_deadlines::<T, W>();
        let answer = self.cores[place].poll_deferring(noted.min(others));
        self.cores[place].law();
        match answer {
            Ok(turn) => as_told(Piece::Answer(turn), noted, others),
            Err(_) => unreachable!(),
        }
    }

    // The same by at most so many steps.
    #[inline(always)]
    fn poll_piece(&mut self, place: usize, others: u64, most: u32) -> Piece<T>
        requires place { place < length self.old.cores }
        requires quiet { OthersAreQuiet self.old place others }
        requires turn { HasTurn self.old place others }
        ensures noted { self.new.noted ≡ self.old.noted }
        ensures out { IfPieceOut (Ok result) (λ x. x.deadline ≤ self.new.noted) }
        ensures rests { IfPieceRests (Ok result)
            (λ next. NoneLiveIn self.new (unwrap_or next NEVER)) }
        ensures ahead { IfPieceRests (Ok result) (λ next. IfSome next (λ t. self.new.noted < t)) }
        ensures ages { Ages self.old self.new }
        ensures polls { PollsCore (DoesPiece W.shared most) self.old result self.new }
        ensures words { KeepsWords W.origin W.begun self.old self.new }
    {
        let noted = self.noted;
        wakes_bound_deadlines::<T, W>();
        let answer = self.cores[place].poll_some_deferring(noted.min(others), most);
        self.cores[place].law();
        match answer {
            Ok(piece) => as_told(piece, noted, others),
            Err(_) => unreachable!(),
        }
    }

    /// Returns the tick, of one millisecond, at which the store has something to do next. It returns none if no entry
    /// is linked. No live entry has a deadline before that tick; the least deadline may be later.
    #[tactic(auto, using(crate::proofs::Leasts::quiet_in))]
    pub fn next_wake(&self) -> Option<u64>
        ensures quiet { IfSome result (λ w. NoneLiveIn self.now w) }
        ensures wake { TellsWakeIn self.now result }
    {
        let Some(least) = self.least() else {
            return None;
        };
        Some(least.wake)
    }

    /// Returns the key of an entry that is scheduled first, possibly a cancelled one. It returns none if no entry is
    /// linked.
    pub fn peek(&self) -> Option<Key>
        ensures { PeeksIn self.now result }
    {
        let Some(least) = self.least() else {
            return None;
        };
        let key = self.cores[least.place].peek();
        key
    }

    /// Takes out a freed value that waits for its drop. It returns none if no value waits.
    pub fn take_deferred(&mut self) -> Option<T>
        ensures { TakesDeferredIn self.old result self.new }
    {
        let Some(at) = self.waiting() else {
            return None;
        };
        let value = self.cores[at].take_deferred();
        value
    }

    // The place of a core in which a value waits for its drop.
    fn waiting(&self) -> Option<usize>
        ensures found { IfSome result
            (λ i. (c : Core T W) × IsCoreAt self.now.cores i c × (waiting_in c.deferred ≢ 0)) }
        ensures none { IfNone result (NoneWaits self.now) }
    {
        for at in 0..self.cores.len() {
            if self.cores[at].deferred() > 0 {
                return Some(at);
            }
        }
        None
    }
}
