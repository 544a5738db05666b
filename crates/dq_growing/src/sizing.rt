//! How a store keeps the right size.
//!
//! The open core is exchanged where it is full, where more than half of its slots are worn, and where an eighth of it
//! is used: the next one has room for twice what is there. The one before drains: what is in it stays, and ends there.
//! Once nothing is in it, it is folded. Its words stay, so its keys are refused for good, and the next core of its size
//! goes on with them. The few entries that are left of one are moved into the open one. A core that was made ahead is
//! empty until it is opened.
//!
//! The numbers here are a policy: any others would keep what the calls of a [`Store`] promise.

ghost use Rattle.std.specs.Prelude.{◌≡◌, ◌≤◌, ◌⊎◌, max, true, false, length, IfSome, IfNone, IfErr, OnOk, OnSome, nat_lt};
ghost use Rattle.dq_core.specs.Core.{Core};
ghost use Rattle.dq_core.specs.Folds.{IsFoldable};
ghost use Rattle.dq_growing.specs.Cores.{HasNo};
ghost use Rattle.dq_growing.specs.Moving.{HasOpenRoom};
ghost use Rattle.dq_growing.specs.Runs.{HoldsDeadlines, KeepsIds, KeepsIdsBeside};
ghost use Rattle.dq_growing.specs.Sizing.{anew, clear_slots, slots_in, fresh_sizing, with_work, FoundElsewhere, HasNoWork, MayHaveSlots, NotesWorkIf, linked_of, IsNextSize, IsWorn, IsSmall, IsOpenHalfFree, IsTooLarge, IsNeedless, IsNeedlessAt, HasNeedless, NoneNeedless, IsToShrink, IsTimeToLook, MayShrink, WillDo, LooksAfter, NotesLeft, HasClearAt, IsRoomier, IsRoomiest, HasNoneToOpen, HasNoRoom, OnlyOpens, ComesInto, KeepsTick, OpensIf, OpensWanted, StaysOpen, WasBeside, AllWere, IsNearlyDrained, TellsStraggler, HasStraggler, IsStraggler, NoStraggler, MayMake, MayOpen, OpensOne};
ghost use Rattle.dq_growing.specs.declared.TheConstants.{NEVER};
ghost use Rattle.dq_growing.specs.declared.sizing.TheConstants.{CORES};
ghost use Rattle.dq_ticks.specs.declared.TheConstants.{CAPACITY_LIMIT};
ghost use Rattle.dq_growing.specs.Stands.{SameStand};
ghost use Rattle.dq_growing.specs.Store.{StandsFor, TakeRefusedFor};

use crate::NEVER;
use crate::cores::{Cores, TakeError, is_foldable};
use crate::store::Store;
use crate::sweeping::Sweep;
use dq_core::{DelayCore, Words};
use dq_ticks::{CAPACITY_LIMIT, EntryId};
use std::alloc::Allocator;

/// The most cores of a store. A call by an entry's id compares its number with that of each.
pub const CORES: usize = 64;

/// Each so many ends it is looked whether the cores are of the right size, and at each of the last few: to look takes
/// longer the more cores there are.
const LOOKS: u64 = 128;

const LAST: u64 = 16;

/// Keeps a store at the right size.
#[derive(Clone, Copy, Debug)]
pub struct Sizing {
    // The slots of the smallest core.
    least: usize,
    // For how many entries memory is kept for good.
    kept: usize,
    // Whether there may be something to do.
    pub(crate) has_work: bool,
    // The number of cancels since which there is nothing to do, and else `NEVER`.
    pub(crate) quiet_since: u64,
    pub(crate) sweep: Sweep,
}

// How many slots are free in which no value waits for its drop, at least: values that wait in worn slots count as if
// they waited in free ones.
#[inline(always)]
#[tactic(auto, using(crate::proofs::Standing::within))]
fn free<T, W: Words, A: Allocator>(core: &DelayCore<T, W, A>) -> usize
    ensures { result ≡ clear_slots core.now }
{
    core.law();
    let unused = core.capacity() - core.len() - core.worn();
    unused.saturating_sub(core.deferred())
}

// Whether such a slot is in the open core.
#[inline(always)]
pub(crate) fn has_open_room<T, W: Words, A: Allocator>(cores: &Cores<T, W, A>) -> bool
    ensures yes { result ≡ true → HasClearAt cores.now cores.now.opened }
    ensures no { result ≡ false → ¬ HasClearAt cores.now cores.now.opened }
{
    let Some(core) = cores.get(cores.opened()) else {
        return false;
    };
    free(core) > 0
}

// A core's place, and how many slots are free there.
#[derive(Clone, Copy)]
struct Room {
    place: usize,
    free: usize,
}

// Whether a core may be opened for an insert: half of it is free, or any will do.
fn may_open<T, W: Words, A: Allocator>(core: &DelayCore<T, W, A>, any_will_do: bool) -> bool
    ensures yes { result ≡ true → MayOpen any_will_do core.now }
    ensures no { result ≡ false → ¬ MayOpen any_will_do core.now }
{
    any_will_do || core.capacity() / 2 <= free(core)
}

// The one of two cores with more free slots, where the second may be opened.
fn roomier<T, W: Words, A: Allocator>(
    cores: &Cores<T, W, A>,
    so_far: Room,
    place: usize,
    any_will_do: bool,
) -> Room
    ensures { IsRoomier cores.now any_will_do so_far place result }
{
    let Some(core) = cores.get(place) else {
        return so_far;
    };
    let room = free(core);
    if room < so_far.free {
        return so_far;
    }
    if may_open(core, any_will_do) {
        return Room { place, free: room };
    }
    so_far
}

// The core that has the most free slots of those that may be opened; none are free where there is no such one.
fn roomiest<T, W: Words, A: Allocator>(cores: &Cores<T, W, A>, any_will_do: bool) -> Room
    ensures { IsRoomiest cores.now (length cores.now.cores) any_will_do result }
{
    let mut roomiest = Room { place: 0, free: 0 };
    for at in 0..cores.count() {
        roomiest = roomier(cores, roomiest, at, any_will_do);
    }
    roomiest
}

// Whether more than half of a core's slots are worn.
fn is_worn<T, W: Words, A: Allocator>(core: &DelayCore<T, W, A>) -> bool
    ensures yes { result ≡ true → IsWorn core.now }
    ensures no { result ≡ false → ¬ IsWorn core.now }
{
    core.worn() > core.capacity() / 2
}

// Whether an eighth of a core is used at most.
#[inline(always)]
fn is_small<T, W: Words, A: Allocator>(core: &DelayCore<T, W, A>) -> bool
    ensures yes { result ≡ true → IsSmall core.now }
    ensures no { result ≡ false → ¬ IsSmall core.now }
{
    core.len() <= core.capacity() / 8
}

// How many slots there are, worn ones among them.
pub(crate) fn slots<T, W: Words, A: Allocator>(cores: &Cores<T, W, A>) -> usize
    ensures { result ≡ slots_in cores.now }
{
    let mut slots = 0usize;
    for at in 0..cores.count() {
        if let Some(core) = cores.get(at) {
            slots = slots.saturating_add(core.capacity());
        }
    }
    slots
}

// How many entries are linked, of which some may be cancelled.
fn linked<T, W: Words, A: Allocator>(cores: &Cores<T, W, A>) -> usize
    ensures { result ≡ linked_of cores.now }
{
    let mut linked = 0usize;
    for at in 0..cores.count() {
        if let Some(core) = cores.get(at) {
            linked = linked.saturating_add(core.len());
        }
    }
    linked
}

// Whether a sixteenth of a core is used at most that isn't open.
fn is_nearly_drained<T, W: Words, A: Allocator>(cores: &Cores<T, W, A>, place: usize) -> bool
    ensures yes { result ≡ true → (c : Core T W) × IsNearlyDrained cores.now place c }
    ensures no { result ≡ false → (c : Core T W) → ¬ IsNearlyDrained cores.now place c }
{
    if place == cores.opened() {
        return false;
    }
    let Some(core) = cores.get(place) else {
        return false;
    };
    core.len() <= core.capacity() / 16
}

// The entry that such a core names as scheduled first.
fn straggler_in<T, W: Words, A: Allocator + Clone>(
    store: &Store<T, W, A>,
    place: usize,
) -> Option<EntryId>
    ensures { TellsStraggler store.now place result }
{
    if !is_nearly_drained(store.cores(), place) {
        return None;
    }
    store.first_in(place)
}

// Whether a core will do where one of so many slots is wanted: one of half the size, or of twice, will.
fn will_do<T, W: Words, A: Allocator>(core: &DelayCore<T, W, A>, wanted: usize) -> bool
    ensures yes { result ≡ true → WillDo wanted core.now }
    ensures no { result ≡ false → ¬ WillDo wanted core.now }
{
    wanted / 2 <= core.capacity() && core.capacity() / 2 <= wanted
}

// Whether half of the open core is free.
fn is_open_half_free<T, W: Words, A: Allocator>(cores: &Cores<T, W, A>) -> bool
    ensures yes { result ≡ true → IsOpenHalfFree cores.now }
    ensures no { result ≡ false → ¬ IsOpenHalfFree cores.now }
{
    let Some(open) = cores.get(cores.opened()) else {
        return false;
    };
    free(open) >= open.capacity() / 2
}

// Whether a sixteenth of a core is free in which no value waits: the next one is made meanwhile.
fn is_roomy<T, W: Words, A: Allocator>(core: &DelayCore<T, W, A>) -> bool {
    free(core) > core.capacity() / 16
}

// Whether the next core is to be made ahead: none has a sixteenth of its slots free.
fn is_nearly_full<T, W: Words, A: Allocator>(cores: &Cores<T, W, A>) -> bool {
    for at in 0..cores.count() {
        if let Some(core) = cores.get(at) {
            if is_roomy(core) {
                return false;
            }
        }
    }
    true
}

impl Sizing {
    /// Keeps stores whose smallest core has so many slots.
    pub const fn new(least: usize) -> Sizing
        // There is nothing to do in an empty store.
        ensures { result ≡ fresh_sizing least }
    {
        Sizing {
            least,
            kept: 0,
            has_work: false,
            quiet_since: 0,
            sweep: Sweep::new(),
        }
    }

    /// The number of cancels since which there is nothing to do, and else `u64::MAX`.
    #[inline(always)]
    pub fn quiet_since(&self) -> u64
        ensures { result ≡ self.now.quiet_since }
    {
        self.quiet_since
    }

    /// Whether there may be something to do.
    #[inline(always)]
    pub fn has_work(&self) -> bool
        ensures { result ≡ self.now.has_work }
    {
        self.has_work
    }

    /// Notes that there may be something to do.
    #[cold]
    pub fn note_work(&mut self)
        ensures { self.new ≡ with_work self.old }
    {
        self.has_work = true;
        self.quiet_since = NEVER;
    }

    // Opens another core in which a slot is free for an insert, where one may be opened.
    #[cold]
    pub(crate) fn opens_another<T, W: Words, A: Allocator + Clone>(
        &mut self,
        store: &mut Store<T, W, A>,
        any_will_do: bool,
    ) -> bool
        ensures clear { result ≡ true → HasClearAt store.new.cores store.new.cores.opened }
        ensures may { result ≡ true → OpensOne any_will_do store.new.cores }
        ensures none { result ≡ false → HasNoneToOpen any_will_do store.old.cores }
        ensures kept { result ≡ false → store.new ≡ store.old }
        ensures opens { OnlyOpens store.old store.new }
        ensures keeps { KeepsIds store.old store.new }
        ensures holds { HoldsDeadlines store.old store.new }
        ensures notes { NotesWorkIf (result ≡ true) self.old self.new }
    {
        let room = roomiest(store.cores(), any_will_do);
        if room.free == 0 {
            return false;
        }
        self.note_work();
        store.open(room.place)
    }

    // The slots of the next core: twice as many as there are entries.
    fn next_capacity<T, W: Words, A: Allocator>(&self, cores: &Cores<T, W, A>) -> usize
        ensures size { IsNextSize self.now cores.now result }
        ensures bounds { MayHaveSlots self.now result }
    {
        let twice = linked(cores).saturating_mul(2).min(CAPACITY_LIMIT);
        twice
            .next_power_of_two()
            .max(self.least)
            .min(CAPACITY_LIMIT)
    }

    // Whether an eighth of the open core is used at most, and a smaller one would do.
    fn is_too_large<T, W: Words, A: Allocator>(&self, cores: &Cores<T, W, A>) -> bool
        ensures yes { result ≡ true → IsTooLarge self.now cores.now }
        ensures no { result ≡ false → ¬ IsTooLarge self.now cores.now }
    {
        let Some(open) = cores.get(cores.opened()) else {
            return false;
        };
        if self.kept > 0 || !is_small(open) {
            return false;
        }
        self.next_capacity(cores) <= open.capacity() / 4
    }

    // Whether the open core is to be exchanged though it isn't full.
    pub(crate) fn is_to_be_exchanged<T, W: Words, A: Allocator>(
        &self,
        cores: &Cores<T, W, A>,
    ) -> bool {
        let Some(open) = cores.get(cores.opened()) else {
            return false;
        };
        is_worn(open) || self.is_too_large(cores)
    }

    /// The slots of a core that is to be made for an insert that finds no room. None where there are as many cores as
    /// may be.
    pub fn capacity_for_insert<T, W: Words, A: Allocator + Clone>(
        &self,
        store: &Store<T, W, A>,
    ) -> Option<usize>
        ensures some { IfSome result (MayMake self.now store.now) }
        ensures none { IfNone result (CORES ≤ length store.now.cores.cores) }
    {
        let cores = store.cores();
        if cores.count() >= CORES {
            return None;
        }
        Some(self.next_capacity(cores))
    }

    /// The slots of a core that is to be made though an insert has room.
    pub fn capacity_ahead<T, W: Words, A: Allocator + Clone>(
        &self,
        store: &Store<T, W, A>,
    ) -> Option<usize>
        ensures { IfSome result (MayMake self.now store.now) }
    {
        let cores = store.cores();
        let is_ahead = self.kept == 0 && is_nearly_full(cores);
        if cores.opened() >= cores.count() || !(is_ahead || self.is_to_be_exchanged(cores)) {
            return None;
        }
        self.capacity_for_insert(store)
    }

    // Whether an empty core isn't needed soon: it is worn, or there is memory enough without it.
    fn is_needless<T, W: Words, A: Allocator>(
        &self,
        cores: &Cores<T, W, A>,
        core: &DelayCore<T, W, A>,
    ) -> bool
        ensures yes { result ≡ true → IsNeedless self.now cores.now core.now }
        ensures no { result ≡ false → ¬ IsNeedless self.now cores.now core.now }
    {
        if is_worn(core) {
            return true;
        }
        if self.kept > 0 {
            return slots(cores).saturating_sub(core.capacity()) >= self.kept;
        }
        !will_do(core, self.next_capacity(cores)) || is_open_half_free(cores)
    }

    // Whether the core at a place has drained, and isn't needed soon.
    fn is_needless_at<T, W: Words, A: Allocator>(
        &self,
        cores: &Cores<T, W, A>,
        place: usize,
    ) -> bool
        ensures yes { result ≡ true → (c : Core T W) × IsNeedlessAt self.now cores.now place c }
        ensures no { result ≡ false → (c : Core T W) → ¬ IsNeedlessAt self.now cores.now place c }
    {
        if place == cores.opened() {
            return false;
        }
        let Some(core) = cores.get(place) else {
            return false;
        };
        is_foldable(core) && self.is_needless(cores, core)
    }

    // The place of such a core.
    pub(crate) fn needless<T, W: Words, A: Allocator>(
        &self,
        cores: &Cores<T, W, A>,
    ) -> Option<usize>
        ensures found { IfSome result (λ i. (c : Core T W) × IsNeedlessAt self.now cores.now i c) }
        ensures none { IfNone result (NoneNeedless self.now cores.now (length cores.now.cores)) }
    {
        for at in 0..cores.count() {
            if self.is_needless_at(cores, at) {
                return Some(at);
            }
        }
        None
    }

    // Whether there is such a core.
    fn has_needless<T, W: Words, A: Allocator>(&self, cores: &Cores<T, W, A>) -> bool
        ensures yes { result ≡ true → HasNeedless self.now cores.now }
        ensures no { result ≡ false
            → NoneNeedless self.now cores.now (length cores.now.cores) }
    {
        match self.needless(cores) {
            Some(_) => true,
            None => false,
        }
    }

    // Whether the open core is too large, or some core isn't needed.
    fn is_to_shrink<T, W: Words, A: Allocator>(&self, cores: &Cores<T, W, A>) -> bool
        ensures yes { result ≡ true → IsToShrink self.now cores.now }
        ensures no { result ≡ false → ¬ IsToShrink self.now cores.now }
    {
        self.is_too_large(cores) || self.has_needless(cores)
    }

    /// Returns an entry that may be moved into the open core, so that its own one drains: the one that is scheduled
    /// first in a core that isn't open and of which a sixteenth is used at most. It returns none if none is in such a
    /// core.
    pub fn straggler<T, W: Words, A: Allocator + Clone>(
        &self,
        store: &Store<T, W, A>,
    ) -> Option<EntryId>
        ensures first { IfSome result (λ u. IsStraggler store.now u) }
        ensures none { IfNone result (NoStraggler store.now (length store.now.cores.cores)) }
    {
        for at in 0..store.cores().count() {
            if let Some(entry) = straggler_in(store, at) {
                return Some(entry);
            }
        }
        None
    }

    fn has_straggler<T, W: Words, A: Allocator + Clone>(&self, store: &Store<T, W, A>) -> bool
        ensures yes { result ≡ true → HasStraggler store.now }
        ensures no { result ≡ false → NoStraggler store.now (length store.now.cores.cores) }
    {
        match self.straggler(store) {
            Some(_) => true,
            None => false,
        }
    }

    /// Whether something is to be done, beside a sweep.
    pub fn is_busy<T, W: Words, A: Allocator + Clone>(&self, store: &Store<T, W, A>) -> bool
        ensures yes { result ≡ true → ¬ HasNoWork self.now store.now }
        ensures no { result ≡ false → HasNoWork self.now store.now }
    {
        if self.has_work {
            return true;
        }
        if self.has_straggler(store) {
            return true;
        }
        self.has_needless(store.cores())
    }

    #[cold]
    pub(crate) fn look_after<T, W: Words, A: Allocator + Clone>(&mut self, store: &Store<T, W, A>)
        ensures { LooksAfter self.old store.now self.new }
    {
        if self.is_to_shrink(store.cores()) {
            self.note_work();
            return;
        }
        if self.quiet_since == NEVER {
            return;
        }
        if self.has_straggler(store) {
            // It is moved once there is time.
            self.quiet_since = NEVER;
        }
    }

    /// Keeps memory for so many entries for good.
    pub fn keep(&mut self, entries: usize)
        ensures { self.new ≡ record self.old { kept = max self.old.kept entries } }
    {
        self.kept = self.kept.max(entries);
    }

    /// Whether memory is kept for good.
    pub fn is_kept(&self) -> bool
        ensures { result ≡ nat_lt 0 self.now.kept }
    {
        self.kept > 0
    }
}

// Whether it is looked at the cores as an entry left, and so many are left.
#[inline(always)]
pub(crate) fn is_look(left: u64) -> bool
    ensures yes { result ≡ true → IsTimeToLook left }
    ensures no { result ≡ false → ¬ IsTimeToLook left }
{
    left < LAST || left % LOOKS == 0
}

// Whether there may be less to keep: there are several cores, or an eighth of the one is used at most.
#[inline(always)]
pub(crate) fn may_shrink<T, W: Words, A: Allocator>(cores: &Cores<T, W, A>) -> bool
    ensures yes { result ≡ true → MayShrink cores.now }
    ensures no { result ≡ false → ¬ MayShrink cores.now }
{
    if cores.count() > 1 {
        return true;
    }
    let Some(open) = cores.get(cores.opened()) else {
        return false;
    };
    is_small(open)
}
