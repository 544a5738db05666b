//! The wheel: where each index is filed, and the calls that file, move and find them.

ghost use Rattle.std.specs.Prelude.{◌≡◌, ◌≢◌, ◌⊎◌, ℕ, ◌+◌, ◌<◌, ◌≤◌, ◌↔◌, length, slice_index, IfNone, IfSome, MatchBool, MatchOption, MatchResult};
ghost use Rattle.std.specs.Int.{bit_at};
ghost use Rattle.dq_wheel.specs.State.{filed_at, fresh_filing, linked, unlinked, IsLeast, NoneFiled, NoneFiledAt, NoneFiledBefore, OthersStayFiled};
ghost use Rattle.dq_wheel.specs.Places.{place_for, IsSlotFilled};
ghost use Rattle.dq_wheel.specs.Moves.{ReachesLimit, ReachesWake};
ghost use Rattle.dq_wheel.specs.Arrivals.{AreFiledByThen, ArrivesAtWake};
ghost use Rattle.dq_wheel.specs.Wakes.{IsNextWake, IsStop, IsWithin, StopsLater, WakesAreAhead};
ghost use Rattle.dq_wheel.specs.Filed.{filed_by};
ghost use Rattle.dq_wheel.specs.Homes.{place_of_home};
ghost use Rattle.dq_wheel.specs.Lawful.{IsLawfulWheel};

use crate::LISTS;
use crate::beside::{Beside, Nothing};
use crate::lists::{Lists, NOT_FILED, due_list, list_of, start_of};
use dq_ticks::{CAPACITY_LIMIT, LAST_TICK, LEVELS, REACH, SLOTS, digit};
use std::alloc::{AllocError, Allocator, Global};
use std::marker::Model;
use thiserror::Error;

/// Where an index stands.
#[derive(Clone, Copy, Debug, PartialEq, Eq)]
pub enum Place {
    /// It is not linked.
    Loose,
    /// It is filed at the wheel's tick.
    Due,
    /// It waits in a slot of a level.
    InSlot {
        /// The level, from 0 to 5.
        level: usize,
        /// The slot, from 0 to 63.
        slot: usize,
    },
}

/// Why a wheel isn't made.
#[derive(Clone, Copy, Debug, PartialEq, Eq, Error)]
pub enum WheelError {
    /// The capacity is 0 or above [`CAPACITY_LIMIT`].
    #[error("bad capacity")]
    BadConfig,
    /// An allocation was refused.
    #[error("out of memory")]
    NoMemory,
}

impl From<AllocError> for WheelError {
    ghost use Rattle.std.specs.Prelude.{◌≡◌};
    ghost use Rattle.dq_wheel.specs.declared.wheel.WheelError.TheVariants.{NoMemory};

    ghost from_gives = { λ _ e. e ≡ NoMemory };

    fn from(_error: AllocError) -> WheelError {
        WheelError::NoMemory
    }
}

/// A hierarchical timing wheel over the indexes below its capacity. Its ticks are milliseconds.
#[derive(Drop)]
pub struct Wheel<A: Allocator = Global> {
    tick: u64,
    moved: u64,
    lists: Lists<A>,
}

impl<A: Allocator> Model for Wheel<A> {
    ghost use Rattle.dq_wheel.specs.State.{Filing, WheelState};
    ghost use Rattle.dq_wheel.specs.Filed.{filed_ticks};
    ghost use Rattle.dq_wheel.specs.Homes.{IsLawfulFiling};
    ghost use Rattle.dq_wheel.specs.Seen.{IsUnnamed};

    ghost Value = { WheelState };

    ghost view = { λ w. record {
      filing = record {
        tick = w.tick;
        filed = filed_ticks w.lists.filed;
        moves = w.lists.moves;
        moved = w.moved;
      };
      next = w.lists.next;
      maps = w.lists.maps;
    } };

    ghost invariant = { λ w.
        IsLawfulFiling w.tick (filed_ticks w.lists.filed) w.lists.moves w.lists.homes
        × IsUnnamed w.tick w.lists.opened };
}

// What the number says that is kept for an index.
fn filed_of(number: u64) -> Option<u64>
    ensures { result ≡ filed_by number }
{
    if number == NOT_FILED {
        None
    } else {
        Some(number)
    }
}

// The place that a home stands for.
fn place_of(tick: u64, home: u16) -> Place
    requires in_range { tick ≤ LAST_TICK }
    requires small { home ≤ LISTS }
    ensures { result ≡ place_of_home tick home }
{
    if home == 0 {
        return Place::Loose;
    }
    let list = home as usize - 1;
    if list == due_list(tick) {
        Place::Due
    } else {
        Place::InSlot {
            level: list / SLOTS,
            slot: list % SLOTS,
        }
    }
}

// The first list that holds something, with its start, where that isn't after the limit.
fn next_stop<A: Allocator>(lists: &Lists<A>, tick: u64, limit: u64) -> Option<(usize, u64)>
    requires { tick ≤ LAST_TICK }
    ensures { MatchOption result
        (StopsLater tick limit lists.now.homes)
        (λ s. IsStop tick limit lists.now.homes s.0 s.1) }
{
    let own = digit(tick, LEVELS - 1) as usize;
    let list = lists.first_filled(own)?;
    let start = start_of(tick, list);
    if start > limit {
        return None;
    }
    Some((list, start))
}

impl<A: Allocator> Wheel<A> {
    /// A wheel at tick 0 with nothing linked, over 1 to [`CAPACITY_LIMIT`] indexes. Another capacity is `BadConfig`;
    /// where an allocation is refused it is `NoMemory`. No other call takes memory.
    pub fn new(alloc: A, capacity: usize) -> Result<Wheel<A>, WheelError>
        ensures { MatchResult result
            (λ w. (0 < capacity) × (capacity ≤ CAPACITY_LIMIT) × (w.filing ≡ fresh_filing capacity))
            (λ e. (e ≡ WheelError.BadConfig) ↔ ((capacity ≡ 0) ⊎ (CAPACITY_LIMIT < capacity))) }
    {
        if capacity == 0 || capacity > CAPACITY_LIMIT {
            return Err(WheelError::BadConfig);
        }
        let lists = Lists::new(alloc, capacity)?;
        Ok(Wheel {
            tick: 0,
            moved: 0,
            lists,
        })
    }

    /// Each list, walked along the wheel's own links from its head, has each index once whose place it is, and no
    /// other; each occupancy bit is 1 exactly where its list isn't empty; each filed tick is in reach; and no index has
    /// moved more often than it came down.
    pub fn law(&self)
        ensures { IsLawfulWheel self.now }
    {
        self.lists.law();
    }

    /// The number of indexes.
    pub fn capacity(&self) -> usize
        ensures value { result ≡ length self.now.filing.filed }
        ensures large { 0 < result }
        ensures small { result ≤ CAPACITY_LIMIT }
    {
        self.lists.capacity()
    }

    /// The tick.
    pub fn tick(&self) -> u64
        ensures value { result ≡ self.now.filing.tick }
        ensures in_range { result ≤ LAST_TICK }
    {
        self.tick
    }

    /// The tick at which an index is filed, if it is linked.
    pub fn filed(&self, index: usize) -> Option<u64>
        requires { index < length self.now.filing.filed }
        ensures value { result ≡ filed_at self.now.filing.filed index }
        ensures within { IfSome result (λ f. IsWithin self.now.filing.tick f) }
    {
        filed_of(self.lists.filed(index))
    }

    /// The place of an index.
    pub fn place(&self, index: usize) -> Place
        requires { index < length self.now.filing.filed }
        ensures { result ≡ place_for self.now.filing.tick (filed_at self.now.filing.filed index) }
    {
        place_of(self.tick, self.lists.home(index))
    }

    /// The occupancy map of a level: bit k is 1 exactly where its slot k isn't empty.
    pub fn occupancy(&self, level: usize) -> u64
        requires { level < LEVELS }
        ensures { (k : ℕ) → k < 64 →
            (bit_at result k ≡ 1)
            ↔ IsSlotFilled self.now.filing.tick self.now.filing.filed level k }
    {
        self.lists.map_without(level, due_list(self.tick))
    }

    /// How often an index went from a level to a lower one since it was linked.
    pub fn moves(&self, index: usize) -> u8
        requires { index < length self.now.filing.filed }
        ensures { result ≡ slice_index self.now.filing.moves index }
    {
        self.lists.moves(index)
    }

    /// How often any index did so since the wheel was made, or the greatest `u64`.
    pub fn moved(&self) -> u64
        ensures { result ≡ self.now.filing.moved }
    {
        self.moved
    }

    /// The tick at which something has to be done next: the wheel's own where an index is due, else the start of the
    /// first slot that isn't empty.
    pub fn next_wake(&self) -> Option<u64>
        ensures { MatchOption result
            (NoneFiled self.now.filing.filed)
            (λ w. IsNextWake self.now.filing.tick self.now.filing.filed w) }
    {
        // While an index is due, the first list is the due one, which starts at the tick.
        match self
            .lists
            .first_filled(digit(self.tick, LEVELS - 1) as usize)
        {
            Some(list) => Some(start_of(self.tick, list)),
            None => None,
        }
    }

    /// A linked index that is filed least.
    pub fn least(&self) -> Option<usize>
        ensures { MatchOption result
            (NoneFiled self.now.filing.filed)
            (λ i. IsLeast self.now.filing.filed i) }
    {
        if let Some(index) = self.lists.first(due_list(self.tick)) {
            return Some(index);
        }
        let Some(list) = self
            .lists
            .first_filled(digit(self.tick, LEVELS - 1) as usize)
        else {
            return None;
        };
        self.lists.least_in(list)
    }

    /// An index that is due while a slot is open, as [`Self::arrive`] leaves it: most of its indexes are due only since
    /// they were filed there, and whoever knows more of them may file them later. Else none, which tells nothing: what
    /// is due at any other tick was filed at just that tick.
    #[inline]
    pub fn first_open(&self) -> Option<usize>
        ensures due { IfSome result (λ i.
            filed_at self.now.filing.filed i ≡ Some self.now.filing.tick) }
        ensures in_range { IfSome result (λ i. i < length self.now.filing.filed) }
    {
        let Some(index) = self.lists.first_open(due_list(self.tick)) else {
            return None;
        };
        Some(index)
    }

    /// The index that follows a due one among those that are due, or none where that is the last.
    #[inline]
    pub fn next_due(&self, index: usize) -> Option<usize>
        requires index_in { index < length self.now.filing.filed }
        requires due { filed_at self.now.filing.filed index ≡ Some self.now.filing.tick }
        ensures due { IfSome result (λ i.
            filed_at self.now.filing.filed i ≡ Some self.now.filing.tick) }
        ensures in_range { IfSome result (λ i. i < length self.now.filing.filed) }
        ensures other { IfSome result (λ i. i ≢ index) }
    {
        let Some(next) = self.lists.after(index) else {
            return None;
        };
        Some(next)
    }

    /// Goes on with the count of moves of another wheel, whose place this one takes.
    pub fn count_from(&mut self, moved: u64)
        ensures { self.new ≡ record self.old { filing = record self.old.filing { moved = moved } } }
    {
        self.moved = moved;
    }

    /// Files a loose index at a tick from the wheel's own on, at most [`REACH`] ticks ahead. It has not moved then.
    pub fn link(&mut self, index: usize, filed: u64)
        requires index_in { index < length self.old.filing.filed }
        requires loose { filed_at self.old.filing.filed index ≡ None }
        requires not_before { self.old.filing.tick ≤ filed }
        requires in_range { filed ≤ LAST_TICK }
        requires near { filed ≤ self.old.filing.tick + REACH }
        // The index is filed at just that tick, and nothing else changes.
        ensures filed { filed_at self.new.filing.filed index ≡ Some filed }
        ensures unmoved { slice_index self.new.filing.moves index ≡ 0 }
        ensures others { OthersStayFiled self.old.filing.filed self.new.filing.filed index }
        ensures tick { self.new.filing.tick ≡ self.old.filing.tick }
        ensures exact { self.new.filing ≡ linked self.old.filing index filed }
    {
        let list = list_of(self.tick, filed);
        self.lists.link(index, list, filed);
    }

    /// The number itself, once what an unlink of the index will write was read. Where the number goes into an atomic
    /// step, which is a fence, these reads go out before it, together with those of the step: after it each would wait
    /// alone.
    #[inline]
    pub fn once_near(&self, index: usize, number: u32) -> u32
        requires index_in { index < length self.now.filing.filed }
        requires linked { filed_at self.now.filing.filed index ≢ None }
        ensures { result ≡ number }
    {
        self.lists.once_near(index, number)
    }

    /// Takes a linked index out, wherever it stands.
    #[inline]
    pub fn unlink(&mut self, index: usize)
        requires index_in { index < length self.old.filing.filed }
        requires linked { filed_at self.old.filing.filed index ≢ None }
        // The index is loose, and nothing else changes.
        ensures loose { filed_at self.new.filing.filed index ≡ None }
        ensures others { OthersStayFiled self.old.filing.filed self.new.filing.filed index }
        ensures tick { self.new.filing.tick ≡ self.old.filing.tick }
        ensures exact { self.new.filing ≡ unlinked self.old.filing index }
    {
        self.lists.unlink(index);
    }

    /// Takes one index off the due list, or tells that nothing is filed at the tick.
    pub fn pop_due(&mut self) -> Option<usize>
        // What is taken was filed at the tick, and is loose.
        ensures due { IfSome result (λ i.
            filed_at self.old.filing.filed i ≡ Some self.old.filing.tick) }
        ensures loose { IfSome result (λ i. filed_at self.new.filing.filed i ≡ None) }
        // Nothing else changes, and nothing is left out.
        ensures others { IfSome result (λ i.
            OthersStayFiled self.old.filing.filed self.new.filing.filed i) }
        ensures none { IfNone result
            (NoneFiledAt self.old.filing.filed self.old.filing.tick) }
        ensures tick { self.new.filing.tick ≡ self.old.filing.tick }
        ensures exact { MatchOption result
            ((self.new ≡ self.old) × NoneFiledAt self.old.filing.filed self.old.filing.tick)
            (λ i. (i < length self.old.filing.filed)
            × (filed_at self.old.filing.filed i ≡ Some self.old.filing.tick)
            × (self.new.filing ≡ unlinked self.old.filing i)) }
    {
        let Some(index) = self.lists.take_first(due_list(self.tick)) else {
            return None;
        };
        Some(index)
    }

    /// Goes on to the next wake, but not past the limit, once nothing is due. True where the wake was reached: its list
    /// is opened, and each of its indexes goes down to a lower level or is due. A way to a lower level is a move.
    pub fn advance(&mut self, limit: u64) -> bool
        requires none_due { NoneFiledAt self.old.filing.filed self.old.filing.tick }
        requires not_before { self.old.filing.tick ≤ limit }
        requires in_range { limit ≤ LAST_TICK }
        // The tick goes on, to the limit at the most, and past no filed tick.
        ensures onward { self.old.filing.tick < limit →
            self.old.filing.tick < self.new.filing.tick }
        ensures within { self.new.filing.tick ≤ limit }
        ensures none_before { NoneFiledBefore self.new.filing.filed self.new.filing.tick }
        // Each index stays filed at its tick.
        ensures filed { self.new.filing.filed ≡ self.old.filing.filed }
        ensures way { MatchBool result
            (ReachesWake self.old.filing limit self.new.filing)
            (ReachesLimit self.old.filing limit self.new.filing) }
    {
        self.advance_reading(limit, &Nothing)
    }

    /// Goes on as [`Self::advance`] does. Where it opens a list of level 1 in a large wheel it reads what lies beside
    /// its indexes, so that whoever takes them off soon doesn't wait for memory.
    pub fn advance_reading<B: Beside>(&mut self, limit: u64, beside: &B) -> bool
        requires none_due { NoneFiledAt self.old.filing.filed self.old.filing.tick }
        requires not_before { self.old.filing.tick ≤ limit }
        requires in_range { limit ≤ LAST_TICK }
        // The tick goes on, to the limit at the most, and past no filed tick.
        ensures onward { self.old.filing.tick < limit →
            self.old.filing.tick < self.new.filing.tick }
        ensures within { self.new.filing.tick ≤ limit }
        ensures none_before { NoneFiledBefore self.new.filing.filed self.new.filing.tick }
        // Each index stays filed at its tick.
        ensures filed { self.new.filing.filed ≡ self.old.filing.filed }
        ensures way { MatchBool result
            (ReachesWake self.old.filing limit self.new.filing)
            (ReachesLimit self.old.filing limit self.new.filing) }
    {
        let Some((list, start)) = next_stop(&self.lists, self.tick, limit) else {
            self.tick = limit;
            self.lists.close();
            return false;
        };
        self.tick = start;
        // All that stands in a list of level 0 is due at its start, where that list is the due list.
        if list < SLOTS {
            self.lists.close();
            return true;
        }
        let tick = self.lists.once_read(list, beside, start);
        let made = self.lists.open(list, tick);
        self.moved = self.moved.saturating_add(made);
        true
    }

    /// Goes on as [`Self::advance`] does, in constant time. Where the wake was reached each index of its slot counts
    /// from now on as filed at that tick, so it is due, and none is moved.
    pub fn arrive(&mut self, limit: u64) -> bool
        requires none_due { NoneFiledAt self.old.filing.filed self.old.filing.tick }
        requires not_before { self.old.filing.tick ≤ limit }
        requires in_range { limit ≤ LAST_TICK }
        // The tick goes on, to the limit at the most, and past no filed tick.
        ensures onward { self.old.filing.tick < limit →
            self.old.filing.tick < self.new.filing.tick }
        ensures within { self.new.filing.tick ≤ limit }
        ensures none_before { NoneFiledBefore self.new.filing.filed self.new.filing.tick }
        // Each index is filed at the same tick or an earlier one, and its moves stay.
        ensures earlier { AreFiledByThen self.old.filing.filed self.new.filing.filed }
        ensures moves { self.new.filing.moves ≡ self.old.filing.moves }
        ensures way { MatchBool result
            (ArrivesAtWake self.old.filing limit self.new.filing)
            (ReachesLimit self.old.filing limit self.new.filing) }
    {
        let Some((list, start)) = next_stop(&self.lists, self.tick, limit) else {
            self.tick = limit;
            self.lists.close();
            return false;
        };
        self.tick = start;
        // All that stands in a list of level 0 is due at its start already, where that list is the due list.
        if list < SLOTS {
            self.lists.close();
        } else {
            self.lists.hang(list, start);
        }
        true
    }
}

/// Where nothing is due and each filed tick is in reach, the next wake is after the tick.
pub fn wakes_are_ahead()
    ensures { WakesAreAhead }
{}
