//! The queue of one owner: a wheel of filed indexes, a row of slots and a row of words.
//!
//! Each entry has a slot, and its deadline in force stands in the slot's word, where callers may extend it without
//! the owner. The wheel files the index no later than that deadline; where an entry comes due there and its word has
//! a later deadline, it is filed again.

ghost use Rattle.std.specs.Prelude.{◌≡◌, ◌≢◌, ℕ, ◌+◌, ◌<◌, ◌≤◌, max, length, ◌↔◌, IfOk, IfErr, IfSome, IfNone, OnOk, OnErr, IsErr, IsErrAnd, IsErrOf, IsNone, MatchOption, Some, None, List, [], ◌∷◌, Ok, Err, IsTrue, replicate, true, is_some};
ghost use Rattle.std.specs.List.{count_by};
ghost use Rattle.dq_core.specs.Core.{filing_for};
ghost use Rattle.dq_core.specs.Deferring.{deferred_value_at, given_at, out_at, with_deferred, waiting_in, WillDisplace, NoneDeferred, DefersValues, TakesDeferredValue, TakesDisplaced};
ghost use Rattle.dq_core.specs.Slots.{unused, is_held, is_worn, row_at, shown};
ghost use Rattle.dq_core.specs.Words.{AreFresh, StillBegun};
ghost use Rattle.dq_core.specs.Calls.{IsConfig};
ghost use Rattle.dq_wheel.specs.State.{filed_at, fresh_filing};

use crate::errors::{CoreConfig, CoreError};
use crate::outcomes::{Expired, Pace, Progress, Removed, Tally, Turn};
use crate::slots::Slots;
use crate::words::{Look, Settled, Words};
use dq_ticks::{CAPACITY_LIMIT, EntryId, Key, LAST_STAMP, LAST_TICK, Mark, REACH};
use dq_wheel::{Beside, Wheel, wakes_are_ahead};
use std::alloc::{AllocError, Allocator, Global};
use std::marker::Model;

/// A delay queue of one owner: values of `T`, with their deadlines in the words `W`. Ticks are of one millisecond,
/// and the owner passes them in: the queue reads no clock. It takes all of its memory when it is made.
///
/// ```
/// use hontkhale::owner::{DelayCore, Turn};
///
/// let mut queue = DelayCore::with_capacity(1_000)?;
/// let first = queue.insert_or_drop("first", 100)?;
/// let second = queue.insert_or_drop("second", 200)?;
/// assert_eq!(queue.extend(&first, 300), Ok(300));
///
/// assert_eq!(queue.remove(&second.entry())?.value, "second");
/// assert!(matches!(queue.poll(299)?, Turn::Waiting { .. }));
/// assert!(matches!(queue.poll(300)?, Turn::Out(expired) if expired.value == "first"));
/// assert!(matches!(queue.poll(300)?, Turn::Idle));
/// # Ok::<(), hontkhale::owner::CoreError>(())
/// ```
///
/// An entry is *live* until it comes out, is removed or is cancelled. A cancelled entry keeps its slot until a call
/// frees it: a poll at which it would have been due, a sweep, a reap or a clear. Each insert and each reset takes one
/// of a slot's 1,048,575 stamps. A free slot without a stamp left is *worn*, and isn't used again;
/// [`DelayCore::renew`] begins the stamps again.
#[derive(Drop)]
pub struct DelayCore<T, W: Words, A: Allocator = Global> {
    pub(crate) shard: u32,
    pub(crate) noted: u64,
    pub(crate) wheel: Wheel<A>,
    pub(crate) slots: Slots<T, A>,
    pub(crate) words: W,
    pub(crate) inserted: u64,
    pub(crate) expired: u64,
    pub(crate) removed: u64,
}

impl<T, W: Words, A: Allocator> Model for DelayCore<T, W, A> {
    ghost use Rattle.std.specs.Prelude.{◌≡◌};
    ghost use Rattle.dq_core.specs.Core.{Core, IsLawful};
    ghost use Rattle.dq_core.specs.Slots.{shown};

    ghost Value = { Core T W };

    ghost view = { λ a. record {
      shard = a.shard;
      noted = a.noted;
      wheel = a.wheel;
      slots = shown a.slots;
      deferred = a.slots.deferred;
      known = W.known a.words;
      counts = W.counts a.words;
      words = a.words;
    } };

    ghost invariant = { λ a.
        IsLawful a.noted a.wheel.filing (shown a.slots) (W.known a.words) (W.counts a.words)
        × (W.counts a.words
        ≡ record { begins = a.inserted; expiries = a.expired; removals = a.removed }) };
}

// The slots and the words of a queue, which its wheel reads ahead: a poll settles a word first, and then reads the
// slot.
#[derive(Drop)]
struct Ahead<'a, T, W, A: Allocator = Global> {
    slots: &'a Slots<T, A>,
    words: &'a W,
}

impl<'a, T, W: Words, A: Allocator> Beside for Ahead<'a, T, W, A> {
    #[inline(always)]
    fn once_read(&self, index: usize, number: u64) -> u64 {
        let same = self.words.once_read(index, number);
        self.slots.once_read(index, same)
    }
}

// Whether the numbers of a configuration are in their ranges, and the words are as many as its slots.
fn is_config(config: &CoreConfig, rows: usize) -> bool
    ensures { IsTrue result ↔ IsConfig config.now.capacity config.now.last_stamp rows }
{
    0 < config.capacity
        && config.capacity <= CAPACITY_LIMIT
        && 0 < config.last_stamp
        && config.last_stamp <= LAST_STAMP
        && rows == config.capacity
}

// The rows that a queue takes memory for: its wheel and its slots.
fn wheel_and_slots<T, A: Allocator + Clone>(
    alloc: A,
    capacity: usize,
    last: u32,
) -> Result<(Wheel<A>, Slots<T, A>), AllocError>
    requires some { 0 < capacity }
    requires few { capacity ≤ CAPACITY_LIMIT }
    requires used { 0 < last }
    requires bound { last ≤ LAST_STAMP }
    ensures { IfOk result (λ r. (r.0.filing ≡ fresh_filing capacity)
        × (shown r.1 ≡ record { last_stamp = last; rows = replicate capacity unused })
        × NoneDeferred r.1.deferred) }
{
    let other = alloc.clone()?;
    let Ok(wheel) = Wheel::new(other, capacity) else {
        return Err(AllocError);
    };
    let slots = Slots::new(alloc, capacity, last)?;
    Ok((wheel, slots))
}

// Where a deadline is filed at a tick.
#[inline]
pub(crate) fn filing_tick(tick: u64, deadline: u64) -> u64
    requires tick { tick ≤ LAST_TICK }
    requires deadline { deadline ≤ LAST_TICK }
    ensures { result ≡ filing_for tick deadline }
{
    deadline.min(tick + REACH)
}

// The stamp itself, once the wheel read what it will write where it unlinks the index. The word's step takes this
// stamp, so where it is a fence it waits for these reads together with its own, and not for each behind it.
#[inline(always)]
fn once_near<W: Words, A: Allocator>(wheel: &Wheel<A>, index: usize, stamp: u32) -> u32
    requires index_in { index < length wheel.now.filing.filed }
    requires linked { filed_at wheel.now.filing.filed index ≢ None }
    ensures { result ≡ stamp }
{
    if W::FENCED {
        wheel.once_near(index, stamp)
    } else {
        stamp
    }
}

impl<T, W: Words + Drop, A: Allocator + Clone> DelayCore<T, W, A> {
    ghost use Rattle.dq_core.specs.Calls.{IsMade};
    ghost use Rattle.dq_core.specs.Core.{machine};
    ghost use Rattle.dq_core.specs.Machine.{NoneLinked};
    ghost use Rattle.dq_core.specs.declared.errors.CoreError.TheVariants.{NoMemory};

    /// Makes a queue over fresh words, at tick 0, with nothing in it. It takes time and memory in proportion to the
    /// capacity.
    ///
    /// # Errors
    /// The words come back. In this order:
    /// - `BadConfig` if the capacity isn't 1 to [`CAPACITY_LIMIT`], the last stamp isn't 1 to [`LAST_STAMP`], or the
    ///   words aren't as many as the slots.
    /// - `NoMemory` if memory is refused.
    pub fn new(alloc: A, config: CoreConfig, words: W) -> Result<DelayCore<T, W, A>, (CoreError, W)>
        requires { AreFresh (W.known words) (W.counts words) }
        // An empty queue at tick 0, of that shard and that many slots.
        ensures empty { IfOk result (λ q. NoneLinked (machine q)) }
        ensures start { IfOk result (λ q. (q.noted ≡ 0) × (q.wheel.filing.tick ≡ 0)) }
        ensures none { IfOk result (λ q. NoneDeferred q.deferred) }
        ensures size { IfOk result
            (λ q. (q.shard ≡ config.shard) × (length q.slots.rows ≡ config.capacity)) }

        // Refused, the words come back. Within the ranges only memory is wanting.
        ensures back { IfErr result (λ e. e.1 ≡ words) }
        ensures in_range { IsConfig config.capacity config.last_stamp (length (W.known words))
            → IfErr result (λ e. e.0 ≡ NoMemory) }

        // Exactly: the whole new queue, or which refusal comes.
        ensures makes { IsMade config words (W.known words) (W.counts words) result }
    {
        if !is_config(&config, words.rows()) {
            return Err((CoreError::BadConfig, words));
        }
        match wheel_and_slots(alloc, config.capacity, config.last_stamp) {
            Ok((wheel, slots)) => Ok(DelayCore {
                shard: config.shard,
                noted: 0,
                wheel,
                slots,
                words,
                inserted: 0,
                expired: 0,
                removed: 0,
            }),
            Err(AllocError) => Err((CoreError::NoMemory, words)),
        }
    }
}

impl<T, W: Words, A: Allocator> DelayCore<T, W, A> {
    ghost use Rattle.dq_wheel.specs.Lawful.{IsLawfulWheel};
    ghost use Rattle.dq_core.specs.Core.{Core, machine, IsLawfulCore};
    ghost use Rattle.dq_core.specs.Machine.{NoneLiveBefore, NoneLinked, table_at};
    ghost use Rattle.dq_core.specs.AtTheCall.{IfOut, IfRests, linked_in, IsLinkedAs, HoldsValue, OthersStay, KeepsSlots};
    ghost use Rattle.dq_core.specs.declared.errors.CoreError.TheVariants.{TooFar, Missing, WasCancelled};
    ghost use Rattle.dq_core.specs.Calls.{SameCore, base_for, IsMissing, IsLiveEntry, IsCancelledEntry, Inserts, noting, Polls, TellsWake, WakesAhead, IsFind, RemovesIfDue, TellsDeadline, Removes, Resets};
    ghost use Rattle.dq_core.specs.Pieces.{SettlesDue, IsStepAt};

    /// The shard law, what the wheel's own law says of this queue's wheel, and that what is known and counted is what
    /// the words' keeper knows and has counted.
    pub fn law(&self)
        ensures shard { IsLawfulCore self.now }
        ensures wheel { IsLawfulWheel self.now.wheel }
        ensures words { (self.now.known ≡ W.known self.now.words)
            × (self.now.counts ≡ W.counts self.now.words) }
        ensures keeper { W.keeps self.now.words }
    {
        self.wheel.law();
        self.words.law();
    }

    /// Returns the number of the queue, which its keys carry.
    pub fn shard(&self) -> u32
        ensures { result ≡ self.now.shard }
    {
        self.shard
    }

    /// Returns the greatest tick of one millisecond that a poll accepted; at first 0.
    pub fn noted(&self) -> u64
        ensures { result ≡ self.now.noted }
    {
        self.noted
    }

    /// Returns the queue's tick of one millisecond, up to which its wheel has gone. It isn't after the noted one.
    /// Nothing is scheduled before it.
    pub fn tick(&self) -> u64
        ensures { result ≡ self.now.wheel.filing.tick }
    {
        self.wheel.tick()
    }

    /// Puts `value` in, to come out at the tick `when` of one millisecond, and returns its key. If `when` is before
    /// the queue's tick, the entry is due at once. No value is dropped: one that waits for its drop in the slot that
    /// the entry takes comes out beside the key. Constant time, and no memory is taken.
    ///
    /// # Errors
    /// `value` comes back. In this order:
    /// - `TooFar` if `when` is beyond the last tick.
    /// - `Full` if no slot is free.
    #[inline(always)]
    pub fn insert_deferring(
        &mut self,
        value: T,
        when: u64,
    ) -> (Result<Key, (CoreError, T)>, Option<T>)
        // The entry is live from now on, and no other entry changes.
        ensures live { IfOk result.0 (λ k. IsLinkedAs self.new k value (base_for self.old when)) }
        ensures others { IfOk result.0 (λ k. OthersStay self.old self.new k.entry.index) }
        ensures one_more { OnOk result.0 (linked_in self.new ≡ linked_in self.old + 1) }

        // A slot was free: so Full comes exactly where each is held or worn.
        ensures room { OnOk result.0 (linked_in self.old
            + count_by (is_worn self.old.slots.last_stamp) self.old.slots.rows
            < length self.old.slots.rows) }

        // Refused, the value comes back and nothing changes; first, and exactly, beyond the last tick.
        ensures refused { IfErr result.0 (λ e. (e.1 ≡ value) × (self.new ≡ self.old)) }
        ensures too_far { IsErrAnd result.0 (λ e. e.0 ≡ TooFar LAST_TICK) ↔ (LAST_TICK < when) }

        // Beside the key comes what was deferred in the slot, and nothing is left there. A value comes
        // only where one waits in each slot that was left.
        ensures beside { IfOk result.0
            (λ k. (result.1 ≡ deferred_value_at self.old.deferred k.entry.index)
            × (self.new.deferred ≡ with_deferred self.old.deferred k.entry.index None)) }
        ensures displaced { OnOk result.0 (self.old.deferred.drops ≡ true → is_some result.1 ≡ true
            → WillDisplace self.old.slots self.old.deferred) }
        ensures alone { OnErr result.0 (result.1 ≡ None) }

        // Exactly: a step of the queue machine, and what it leaves of the wheel, the slots and the words.
        ensures inserts { Inserts self.old value when result.0 self.new }
        ensures begins { IfOk result.0
            (λ k. W.begun self.new.words k.entry.index k.stamp (base_for self.old when)) }
        ensures same { SameCore self.old self.new }
        ensures origin { W.origin self.new.words ≡ W.origin self.old.words }
        ensures begun { StillBegun W.begun self.old.words self.new.words }
    {
        if when > LAST_TICK {
            return (Err((CoreError::TooFar { limit: LAST_TICK }, value)), None);
        }
        match self.slots.fill(value) {
            Ok((index, displaced)) => {
                let stamp = self.slots.stamp(index);
                let tick = self.wheel.tick();
                let base = when.max(tick);
                self.words.begin(index, stamp, base);
                self.wheel.link(index, filing_tick(tick, base));
                self.inserted += 1;
                let entry = EntryId::new(self.shard, index as u32, stamp);
                (Ok(Key::new(entry, stamp)), displaced)
            }
            Err(value) => {
                let full = CoreError::Full {
                    linked: self.slots.linked(),
                    worn: self.slots.worn(),
                };
                (Err((full, value)), None)
            }
        }
    }

    // Takes an index that is due, if one is, and does with it what its word says: its entry expires, is filed again
    // at a later tick, or is reaped. Of both kinds of poll this is the same step.
    #[inline(always)]
    pub(crate) fn settle_due(&mut self) -> Option<Progress<T>>
        ensures same { SameCore self.old self.new }
        ensures origin { W.origin self.new.words ≡ W.origin self.old.words }
        ensures begun { StillBegun W.begun self.old.words self.new.words }
        ensures one_step { W.steps self.new.words ≤ W.steps self.old.words + 1 }
        ensures noted { self.new.noted ≡ self.old.noted }
        ensures settles { SettlesDue W.shared self.old result self.new }
        ensures deferred { IfSome result (λ made. DefersValues self.old (given_at made) self.new) }
    {
        let tick = self.wheel.tick();
        let Some(index) = self.wheel.pop_due() else {
            return None;
        };
        let stamp = self.slots.stamp(index);
        match self.words.settle(index, stamp, tick) {
            Settled::SettledExpired => {
                let gone = self.slots.vacate(index);
                self.expired += 1;
                let entry = EntryId::new(self.shard, index as u32, gone.born);
                Some(Progress::Gave(Expired {
                    key: Key::new(entry, stamp),
                    deadline: tick,
                    noted: self.noted,
                    value: gone.value,
                }))
            }
            Settled::Later(deadline) => {
                self.wheel.link(index, filing_tick(tick, deadline));
                Some(Progress::Went)
            }
            Settled::SettledCancelled => {
                self.slots.defer(index);
                Some(Progress::Went)
            }
        }
    }

    // One step of a poll: settles an index that is due, or comes to a later tick at that pace.
    #[inline(always)]
    pub(crate) fn step(&mut self, pace: Pace) -> Progress<T>
        ensures same { SameCore self.old self.new }
        ensures origin { W.origin self.new.words ≡ W.origin self.old.words }
        ensures begun { StillBegun W.begun self.old.words self.new.words }
        ensures one_step { W.steps self.new.words ≤ W.steps self.old.words + 1 }
        ensures noted { self.new.noted ≡ self.old.noted }
        ensures progress { IsStepAt W.shared pace self.old result self.new }
        ensures deferred { DefersValues self.old (given_at result) self.new }
    {
        if let Some(made) = self.settle_due() {
            return made;
        }
        let tick = self.wheel.tick();
        if tick < self.noted {
            return match pace {
                Pace::Whole => {
                    let ahead = Ahead {
                        slots: &self.slots,
                        words: &self.words,
                    };
                    self.wheel.advance_reading(self.noted, &ahead);
                    Progress::Went
                }
                Pace::InPieces => {
                    self.wheel.arrive(self.noted);
                    Progress::Went
                }
            };
        }
        Progress::Rests
    }

    /// Returns the tick, of one millisecond, at which the queue has something to do next. It returns none if the
    /// queue holds no entry. No live entry has a deadline before that tick; the least deadline may be later. Constant
    /// time.
    pub fn next_wake(&self) -> Option<u64>
        ensures wake { TellsWake self.now result }
        ensures none { IsNone result ↔ NoneLinked (machine self.now) }
        ensures ahead { WakesAhead self.now result }
    {
        // That a wake is ahead is a law of the digits of what is filed, which the wheel keeps within its reach.
        wakes_are_ahead();
        self.wheel.law();
        self.wheel.next_wake()
    }

    // Notes a tick.
    pub(crate) fn note(&mut self, tick: u64)
        requires { tick ≤ LAST_TICK }
        ensures { self.new ≡ noting self.old tick }
    {
        self.noted = self.noted.max(tick);
    }

    /// Notes a tick of one millisecond, and takes out one entry whose deadline in force is reached by the greatest
    /// tick noted, or tells when to come again. No value is dropped: that of each cancelled entry which it reaps waits
    /// until it is taken out.
    ///
    /// # Errors
    /// TickTooLarge beyond the last tick, which is not noted then.
    #[inline(always)]
    pub fn poll_deferring(&mut self, tick: u64) -> Result<Turn<T>, CoreError>
        // The greater of the two ticks is noted. A tick is refused, and nothing changes, exactly
        // beyond the last one.
        ensures noted { OnOk result (self.new.noted ≡ max self.old.noted tick) }
        ensures refused { IsErr result ↔ (LAST_TICK < tick) }
        ensures kept { OnErr result (self.new ≡ self.old) }

        // What comes out is due, and no live entry has an earlier deadline.
        ensures out { IfOut result
            (λ x. (x.deadline ≤ self.new.noted) × NoneLiveBefore (machine self.new) x.deadline) }

        // Else no live entry is due, and the tick to wait for is after the noted one. There is none
        // exactly where nothing is linked.
        ensures waiting { IfRests result
            (λ next. NoneLiveBefore (machine self.new) (self.new.noted + 1)) }
        ensures ahead { IfRests result (λ next. IfSome next (λ tick. self.new.noted < tick)) }
        ensures idle { IfRests result (λ next. (next ≡ None) ↔ NoneLinked (machine self.new)) }

        // The value of each entry that left is deferred, but of what came out.
        ensures deferred { IfOk result (λ turn. DefersValues self.old (out_at turn) self.new) }

        // Exactly: a run of the queue machine, and the way of the wheel and of the words.
        ensures polls { Polls W.shared self.old tick result self.new }
        ensures same { SameCore self.old self.new }
        ensures origin { W.origin self.new.words ≡ W.origin self.old.words }
        ensures begun { StillBegun W.begun self.old.words self.new.words }
    {
        if tick > LAST_TICK {
            return Err(CoreError::TickTooLarge { limit: LAST_TICK });
        }
        self.note(tick);
        'steps: loop {
            match self.step(Pace::Whole) {
                Progress::Gave(expired) => return Ok(Turn::Out(expired)),
                Progress::Went => {}
                Progress::Rests => break 'steps,
            }
        }
        match self.next_wake() {
            Some(next) => Ok(Turn::Waiting { next }),
            None => Ok(Turn::Idle),
        }
    }

    /// Returns the number of entries, live or cancelled and not yet freed.
    pub fn len(&self) -> usize
        ensures { result ≡ count_by is_held self.now.slots.rows }
    {
        self.slots.linked()
    }

    /// Whether the queue holds no entry, live or cancelled and not yet freed.
    pub fn is_empty(&self) -> bool
        ensures { IsTrue result ↔ (count_by is_held self.now.slots.rows ≡ 0) }
    {
        self.slots.linked() == 0
    }

    /// Returns the number of slots.
    pub fn capacity(&self) -> usize
        ensures { result ≡ length self.now.slots.rows }
    {
        self.slots.capacity()
    }

    /// Returns the number of worn slots, which hold no entry and have no stamp left.
    pub fn worn(&self) -> usize
        ensures { result ≡ count_by (is_worn self.now.slots.last_stamp) self.now.slots.rows }
    {
        self.slots.worn()
    }

    /// Returns how many freed values wait for their drop. Constant time.
    #[inline(always)]
    pub fn deferred(&self) -> usize
        ensures { result ≡ waiting_in self.now.deferred }
    {
        self.slots.deferred()
    }

    /// Takes out a freed value that waits for its drop. It returns none if no value waits. Constant time.
    ///
    /// ```ignore
    /// for _ in 0..queue.deferred() {
    ///     drop(queue.take_deferred());
    /// }
    /// ```
    pub fn take_deferred(&mut self) -> Option<T>
        // One comes exactly while one waits, and nothing else changes.
        ensures takes { TakesDeferredValue self.old.deferred result self.new.deferred }
        ensures rest { self.new ≡ record self.old { deferred = self.new.deferred } }
        ensures kept { IfNone result (self.new ≡ self.old) }
    {
        self.slots.take_deferred()
    }

    /// Takes out the value that waits for its drop in the slot that the next insert takes, if one does: none while a
    /// slot is free. Constant time.
    #[inline(always)]
    pub fn take_displaced(&mut self) -> Option<T>
        // One comes exactly where a slot is left and a value waits in each, and nothing else changes.
        ensures takes { TakesDisplaced self.old.slots self.old.deferred result self.new.deferred }
        ensures rest { self.new ≡ record self.old { deferred = self.new.deferred } }
        ensures kept { IfNone result (self.new ≡ self.old) }
    {
        self.slots.take_displaced()
    }

    // Where an entry is held, none where it is missing.
    #[inline]
    pub(crate) fn find(&self, entry: &EntryId) -> Option<usize>
        ensures { IsFind self.now entry.now result }
    {
        if entry.shard() != self.shard {
            return None;
        }
        let index = entry.index() as usize;
        if index >= self.slots.capacity() {
            return None;
        }
        let Some(born) = self.slots.born(index) else {
            return None;
        };
        if born != entry.born() {
            return None;
        }
        Some(index)
    }

    /// Returns the current deadline of a live entry, a tick of one millisecond. Constant time.
    ///
    /// # Errors
    /// In this order:
    /// - `Missing` if the entry isn't in the queue any more, or never was.
    /// - `WasCancelled` if the entry was cancelled.
    pub fn deadline(&mut self, entry: &EntryId) -> Result<u64, CoreError>
        // The entry is live until the deadline that is told, or known as cancelled, or missing.
        ensures live { IfOk result (λ d. IsLiveEntry (machine self.new) entry.now d) }
        ensures cancelled { IsErrOf result WasCancelled
            → IsCancelledEntry (machine self.new) entry.now }
        ensures missing { IsErrOf result Missing ↔ IsMissing self.old entry.now }

        // No entry leaves or moves, and no other changes.
        ensures kept { KeepsSlots self.old self.new }
        ensures others { OthersStay self.old self.new entry.now.index }

        // Nothing is deferred or taken out.
        ensures deferred { self.new.deferred ≡ self.old.deferred }

        // Exactly: what is known after it, and all else as it was.
        ensures tells { TellsDeadline W.shared self.old entry.now result self.new }
        ensures same { SameCore self.old self.new }
        ensures origin { W.origin self.new.words ≡ W.origin self.old.words }
        ensures begun { StillBegun W.begun self.old.words self.new.words }
    {
        let Some(index) = self.find(entry) else {
            return Err(CoreError::Missing);
        };
        let word = self.words.look(index);
        let Mark::CancelledMark = word.mark else {
            return Ok(word.field);
        };
        Err(CoreError::WasCancelled)
    }

    /// Takes a live entry out, and returns its value with its key and its current deadline, a tick of one
    /// millisecond. Constant time, and no memory is taken.
    ///
    /// # Errors
    /// In this order:
    /// - `Missing` if the entry isn't in the queue any more, or never was.
    /// - `WasCancelled` if the entry was cancelled.
    #[inline(always)]
    pub fn remove(&mut self, entry: &EntryId) -> Result<Removed<T>, CoreError>
        // What was held under that shard, index and birth stamp comes out, and nothing else.
        ensures out { IfOk result
            (λ x. (x.key.entry ≡ entry.now) × HoldsValue self.old entry.now x.value) }
        ensures gone { OnOk result ((table_at (machine self.new) entry.now.index).entry ≡ None) }
        ensures others { OthersStay self.old self.new entry.now.index }

        // Refused, no entry leaves or moves; a missing entry is told exactly.
        ensures refused { OnErr result (KeepsSlots self.old self.new) }
        ensures missing { IsErrOf result Missing ↔ IsMissing self.old entry.now }

        // Nothing is deferred or taken out.
        ensures deferred { self.new.deferred ≡ self.old.deferred }

        // Exactly: a step of the queue machine, and what it leaves of the wheel, the slots and the words.
        ensures removes { Removes W.shared self.old entry.now result self.new }
        ensures same { SameCore self.old self.new }
        ensures origin { W.origin self.new.words ≡ W.origin self.old.words }
        ensures begun { StillBegun W.begun self.old.words self.new.words }
    {
        let Some(index) = self.find(entry) else {
            return Err(CoreError::Missing);
        };
        let stamp = once_near::<W, A>(&self.wheel, index, self.slots.stamp(index));
        let Some(deadline) = self.words.finish(index, stamp) else {
            return Err(CoreError::WasCancelled);
        };
        self.wheel.unlink(index);
        let held = self.slots.vacate(index);
        self.removed += 1;
        Ok(Removed {
            key: Key::new(*entry, stamp),
            deadline,
            value: held.value,
        })
    }

    /// Takes a live entry out if its current deadline isn't after `tick`, both of one millisecond, and returns its
    /// value with its key and that deadline. It returns none if the deadline is later: the entry stays as it is.
    /// Constant time, and no memory is taken.
    ///
    /// # Errors
    /// In this order:
    /// - `Missing` if the entry isn't in the queue any more, or never was.
    /// - `WasCancelled` if the entry was cancelled.
    pub fn remove_if_due(
        &mut self,
        entry: &EntryId,
        tick: u64,
    ) -> Result<Option<Removed<T>>, CoreError>
        // Exactly: a remove of an entry that is due, or a look at one whose deadline is after the tick.
        ensures removes { RemovesIfDue W.shared self.old entry.now tick result self.new }

        // Nothing is deferred or taken out.
        ensures deferred { self.new.deferred ≡ self.old.deferred }
        ensures same { SameCore self.old self.new }
        ensures origin { W.origin self.new.words ≡ W.origin self.old.words }
        ensures begun { StillBegun W.begun self.old.words self.new.words }
    {
        let Some(index) = self.find(entry) else {
            return Err(CoreError::Missing);
        };
        let stamp = once_near::<W, A>(&self.wheel, index, self.slots.stamp(index));
        let deadline = match self.words.finish_by(index, stamp, tick) {
            Look::LookRemoved(deadline) => deadline,
            Look::StillLive(_) => return Ok(None),
            Look::LookCancelled => return Err(CoreError::WasCancelled),
            Look::LookExpired(_) => unreachable!(),
        };
        self.wheel.unlink(index);
        let held = self.slots.vacate(index);
        self.removed += 1;
        Ok(Some(Removed {
            key: Key::new(*entry, stamp),
            deadline,
            value: held.value,
        }))
    }

    /// Gives a live entry the deadline `when`, a tick of one millisecond, sooner or later than the one that it has,
    /// and returns its new key. If `when` is before the queue's tick, the entry is due at once. Callers refuse the
    /// old key from then on. Constant time, and no memory is taken.
    ///
    /// # Errors
    /// In this order:
    /// - `TooFar` if `when` is beyond the last tick, 2^42 - 1.
    /// - `Missing` if the entry isn't in the queue any more, or never was.
    /// - `WasCancelled` if the entry was cancelled.
    /// - `Worn` if the entry's slot has no stamp left for another key.
    #[inline(always)]
    pub fn reset(&mut self, entry: &EntryId, when: u64) -> Result<Key, CoreError>
        // The same entry is live at its new base, under the slot's next stamp, and no other changes.
        ensures live { OnOk result
            (IsLiveEntry (machine self.new) entry.now (base_for self.old when)) }
        ensures key { IfOk result (λ k. (k.entry ≡ entry.now)
            × (k.stamp ≡ (row_at self.old.slots.rows entry.now.index).stamp + 1)) }
        ensures others { OthersStay self.old self.new entry.now.index }

        // Refused, no entry leaves or moves; first, and exactly, beyond the last tick.
        ensures refused { OnErr result (KeepsSlots self.old self.new) }
        ensures too_far { IsErrOf result (TooFar LAST_TICK) ↔ (LAST_TICK < when) }

        // Nothing is deferred or taken out.
        ensures deferred { self.new.deferred ≡ self.old.deferred }

        // Exactly: a step of the queue machine, and what it leaves of the wheel, the slots and the words.
        ensures resets { Resets W.shared self.old entry.now when result self.new }
        ensures same { SameCore self.old self.new }
        ensures origin { W.origin self.new.words ≡ W.origin self.old.words }
        ensures begun { StillBegun W.begun self.old.words self.new.words }
    {
        if when > LAST_TICK {
            return Err(CoreError::TooFar { limit: LAST_TICK });
        }
        let Some(index) = self.find(entry) else {
            return Err(CoreError::Missing);
        };
        let stamp = once_near::<W, A>(&self.wheel, index, self.slots.stamp(index));
        if stamp == self.slots.last() {
            self.deadline(entry)?;
            return Err(CoreError::Worn);
        }
        let tick = self.wheel.tick();
        let base = when.max(tick);
        let Some(_) = self.words.renew(index, stamp, base) else {
            return Err(CoreError::WasCancelled);
        };
        self.wheel.unlink(index);
        self.wheel.link(index, filing_tick(tick, base));
        self.slots.raise(index);
        Ok(Key::new(*entry, stamp + 1))
    }
}
