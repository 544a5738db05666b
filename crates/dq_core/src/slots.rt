//! The fixed row of slots, and which of them are free.
//!
//! A slot has a stamp, at first 0, which rises by one with each value that is put there and with each reset of what
//! is held there. A slot that holds nothing at the last stamp is worn: it is never used again. All the memory is
//! taken by `new`. Every other call is of constant time but `forget`, which goes over every slot.
//!
//! A value that is freed stays in its slot, which holds nothing from then on, until somebody takes it out. Until then
//! the slot isn't among the free ones: a fill takes it only where no slot is free, and hands the value over. No call
//! drops a value: no impl here says that one may be dropped.
ghost use Rattle.std.specs.Prelude.{◌≡◌, ℕ, ◌+◌, ◌<◌, ◌≤◌, ◌^◌, length, replicate, IfOk, MatchOption, Some, None, true, false};
ghost use Rattle.std.specs.List.{count_by};
ghost use Rattle.dq_core.specs.Deferred.{deferred_at, defers_room, DefersIf};
ghost use Rattle.dq_core.specs.Cells.{AreThere, AreTaken, TakesWaiting, TakesAny};
ghost use Rattle.dq_core.specs.FreeSlots.{free_times, room_of};
ghost use Rattle.dq_core.specs.SlotRowsKept.{GivesSlot};

use crate::free_slots::{DeferredDrops, FreeSlots};
use crate::words::Words;
use dq_ticks::LAST_STAMP;
use dq_wheel::Beside;
use std::alloc::{AllocError, Allocator, Global};
use std::marker::Model;
use std::mem;

/// What is held at a slot.
#[derive(Drop)]
pub struct Held<T> {
    /// The stamp under which the value was put there.
    pub born: u32,
    /// The value.
    pub value: T,
}

// A slot as it lies in memory: one row, so that an insert and a removal touch one line.
#[derive(Drop)]
struct Cell<T> {
    stamp: u32,
    // The birth stamp of what it holds, and 0 where it holds nothing.
    born: u32,
    // What it holds, or a value that was freed and is deferred here.
    value: Option<T>,
}

impl<T> Model for Cell<T> {
    ghost use Rattle.dq_core.specs.Cells.{CellRow, cell_of, IsCell};

    ghost Value = { CellRow T };

    ghost view = { λ a. cell_of a.stamp a.born a.value };

    ghost invariant = { λ a. IsCell a.born a.value };
}

impl<T> Cell<T> {
    ghost use Rattle.dq_core.specs.Slots.{is_held, IsBorn};
    ghost use Rattle.std.specs.Fn.{FnOnceReturnsAtMut};
    ghost use Rattle.dq_core.specs.Cells.{ChangesCell, unused_cell, empty_cell, filled_cell, vacated_cell, deferred_cell, emptied_cell, forgotten_cell, raised_cell};

    fn unused() -> Self
        ensures { result ≡ unused_cell }
    {
        Cell {
            stamp: 0,
            born: 0,
            value: None,
        }
    }

    // One that holds nothing, at a stamp.
    fn at(stamp: u32) -> Self
        ensures { result ≡ empty_cell stamp }
    {
        Cell {
            stamp,
            born: 0,
            value: None,
        }
    }

    #[inline]
    fn stamp(&self) -> u32
        ensures { result ≡ self.now.row.stamp }
    {
        self.stamp
    }

    // The number, once the stamp was read. None is above the last one, so what is added is 0, which the compiler can't
    // know: it keeps the read.
    #[inline(always)]
    fn once_read(&self, number: u64) -> u64
        requires { self.now.row.stamp ≤ LAST_STAMP }
        ensures { result ≡ number }
    {
        number + (self.stamp / (LAST_STAMP + 1)) as u64
    }

    #[inline]
    fn is_held(&self) -> bool
        ensures { result ≡ is_held self.now.row }
    {
        self.born > 0
    }

    #[inline]
    fn born(&self) -> Option<u32>
        ensures { IsBorn self.now.row result }
    {
        if self.born > 0 { Some(self.born) } else { None }
    }

    #[inline]
    fn held(&self) -> Option<(u32, &T)>
        ensures { MatchOption result (self.now.row.held ≡ None)
            (λ h. self.now.row.held ≡ Some (record { born = h.0; value = h.1.now })) }
    {
        if self.born == 0 {
            return None;
        }
        match &self.value {
            Some(value) => Some((self.born, value)),
            None => None,
        }
    }

    // Puts a value in, and returns the one that was deferred here.
    #[inline]
    fn fill(&mut self, value: T) -> Option<T>
        requires { self.old.row.stamp + 1 < 2 ^ 32 }
        ensures filled { self.new ≡ filled_cell self.old value }
        ensures displaced { self.old.row.held ≡ None → result ≡ self.old.deferred }
    {
        self.stamp += 1;
        self.born = self.stamp;
        self.value.replace(value)
    }

    #[inline]
    fn vacate(&mut self) -> Held<T>
        requires { is_held self.old.row ≡ true }
        ensures held { self.old.row.held ≡ Some result }
        ensures none { self.old.deferred ≡ None }
        ensures vacated { self.new ≡ vacated_cell self.old }
    {
        let value = self.value.take().unwrap();
        let born = self.born;
        self.born = 0;
        Held { born, value }
    }

    // Frees the value that it holds, and defers its drop.
    fn defer(&mut self)
        ensures { self.new ≡ deferred_cell self.old }
    {
        self.born = 0;
    }

    // Takes out what was deferred here, if anything was.
    fn take_deferred(&mut self) -> Option<T>
        ensures out { result ≡ self.old.deferred }
        ensures left { self.new ≡ emptied_cell self.old }
    {
        if self.born != 0 {
            return None;
        }
        self.value.take()
    }

    // What a closure makes of the value that it holds.
    #[inline]
    fn with_value<R, F: FnOnce(&mut T) -> R>(&mut self, call: F) -> R
        requires held { is_held self.old.row ≡ true }
        requires callable { F.IsAlwaysCallable call }
        ensures { ChangesCell (FnOnceReturnsAtMut F.FnOnce call) self.old result self.new }
    {
        match &mut self.value {
            Some(value) => call(value),
            None => unreachable!(),
        }
    }

    // As if it had never been used; but what was deferred stays.
    fn forget(&mut self)
        ensures { self.new ≡ forgotten_cell self.old }
    {
        self.stamp = 0;
        self.born = 0;
    }

    #[inline]
    fn raise(&mut self)
        requires { self.old.row.stamp + 1 < 2 ^ 32 }
        ensures { self.new ≡ raised_cell self.old }
    {
        self.stamp += 1;
    }
}

/// The fixed row of slots.
#[derive(Drop)]
pub struct Slots<T, A: Allocator = Global> {
    last: u32,
    held_count: usize,
    /// How many slots a fill may take: the free ones, and those of `deferred`.
    free_count: usize,
    cells: Vec<Cell<T>, A>,
    free: FreeSlots<A>,
    /// The slots whose value waits for its drop, and which have a stamp left.
    deferred: DeferredDrops<A>,
    /// The worn slots whose value waits for its drop.
    deferred_worn: DeferredDrops<A>,
    /// Whether a freed value waits for its drop: not one whose drop does nothing.
    drops: bool,
}

impl<T, A: Allocator> Model for Slots<T, A> {
    ghost use Rattle.dq_core.specs.Slots.{SlotState};
    ghost use Rattle.std.specs.Prelude.{◌≤◌, length};
    ghost use Rattle.dq_core.specs.Deferred.{defers_room};
    ghost use Rattle.dq_core.specs.Cells.{rows_of, values_of, AreDeferred, AreNoted};
    ghost use Rattle.dq_core.specs.SlotRowsKept.{IsSlotRowsKept};

    ghost Value = { SlotState T };

    ghost view = { λ a. record {
      last_stamp = a.last;
      rows = rows_of a.cells.items;
      deferred = record { drops = a.drops; values = values_of a.cells.items };
    } };

    ghost invariant = { λ a. IsSlotRowsKept a.last (rows_of a.cells.items) a.free a.deferred
        a.held_count a.free_count
        × (length a.cells.items ≤ defers_room a.deferred)
        × (length a.cells.items ≤ defers_room a.deferred_worn)
        × AreDeferred a.last a.cells.items a.deferred a.deferred_worn
        × AreNoted a.drops a.cells.items a.deferred a.deferred_worn };
}

impl<T, A: Allocator + Clone> Slots<T, A> {
    ghost use Rattle.dq_core.specs.Deferring.{NoneDeferred};
    ghost use Rattle.dq_core.specs.Slots.{shown, unused};
    ghost use Rattle.dq_ticks.specs.declared.TheConstants.{CAPACITY_LIMIT, LAST_STAMP};

    /// A row of slots that were never used.
    pub fn new(alloc: A, capacity: usize, last: u32) -> Result<Slots<T, A>, AllocError>
        requires size { capacity ≤ CAPACITY_LIMIT }
        requires used { 0 < last }
        requires bound { last ≤ LAST_STAMP }
        ensures rows { IfOk result
            (λ s. shown s ≡ record { last_stamp = last; rows = replicate capacity unused }) }
        ensures none { IfOk result (λ s. NoneDeferred s.deferred) }
    {
        let deferred = DeferredDrops::new(alloc.clone()?, capacity)?;
        let deferred_worn = DeferredDrops::new(alloc.clone()?, capacity)?;
        let mut free = FreeSlots::new(alloc.clone()?, capacity)?;
        // No cell is made before all memory is there: one might hold a value, for all that its type says.
        let mut cells = Vec::with_capacity(alloc, capacity)?;
        for index in 0..capacity {
            cells.push_reserved(Cell::unused());
            free.set(index);
        }
        Ok(Slots {
            last,
            held_count: 0,
            free_count: capacity,
            cells,
            free,
            deferred,
            deferred_worn,
            drops: mem::needs_drop::<T>(),
        })
    }
}

impl<T, A: Allocator + Clone> Slots<T, A> {
    ghost use Rattle.std.specs.Prelude.{OnErr};
    ghost use Rattle.dq_core.specs.Deferring.{NoneDeferred};
    ghost use Rattle.dq_ticks.specs.declared.words.Parts.{Parts};
    ghost use Rattle.dq_ticks.specs.declared.TheConstants.{CAPACITY_LIMIT, LAST_STAMP};
    ghost use Rattle.dq_core.specs.Words.{StillBegun};
    ghost use Rattle.dq_core.specs.Folds.{AreOver, AreVacant};

    /// A row of slots that hold nothing, each at its word's stamp.
    pub fn over<W: Words>(alloc: A, last: u32, words: &mut W) -> Result<Slots<T, A>, AllocError>
        requires size { length (W.known words.old) ≤ CAPACITY_LIMIT }
        requires used { 0 < last }
        requires bound { last ≤ LAST_STAMP }
        requires over { AreOver last (W.known words.old) }
        ensures rows { IfOk result (λ s. (s.last_stamp ≡ last) × AreVacant s.rows (W.known words.old)) }
        ensures none { IfOk result (λ s. NoneDeferred s.deferred) }
        ensures refused { OnErr result (words.new ≡ words.old) }
        ensures known { W.known words.new ≡ W.known words.old }
        ensures counts { W.counts words.new ≡ W.counts words.old }
        ensures origin { W.origin words.new ≡ W.origin words.old }
        ensures begun { StillBegun W.begun words.old words.new }
    {
        let capacity = words.rows();
        let deferred = DeferredDrops::new(alloc.clone()?, capacity)?;
        let deferred_worn = DeferredDrops::new(alloc.clone()?, capacity)?;
        let mut free = FreeSlots::new(alloc.clone()?, capacity)?;
        // No cell is made and no word is looked at before all memory is there.
        let mut cells = Vec::with_capacity(alloc, capacity)?;
        let mut free_count = 0;
        for index in 0..capacity {
            let stamp = words.look(index).stamp;
            cells.push_reserved(Cell::at(stamp));
            if stamp < last {
                free.set(index);
                free_count += 1;
            }
        }
        Ok(Slots {
            last,
            held_count: 0,
            free_count,
            cells,
            free,
            deferred,
            deferred_worn,
            drops: mem::needs_drop::<T>(),
        })
    }
}

// Notes that the value of a worn slot was freed there, and waits for its drop where values do.
#[inline(always)]
fn mark<A: Allocator>(deferred: &mut DeferredDrops<A>, drops: bool, index: usize)
    requires { index < defers_room deferred.old }
    ensures { DefersIf drops deferred.old index deferred.new }
{
    if drops {
        deferred.add(index);
    }
}

// Gives a slot, whose value was freed, to the next fills: as a free one, or where the value waits for its drop as one
// that is taken where none is free.
#[inline(always)]
fn defer_slot<A: Allocator>(
    free: &mut FreeSlots<A>,
    deferred: &mut DeferredDrops<A>,
    drops: bool,
    index: usize,
)
    requires room { index < room_of free.old }
    requires held { free_times free.old index ≡ 0 }
    requires bit { index < defers_room deferred.old }
    requires taken { deferred_at deferred.old index ≡ 0 }
    ensures gives { GivesSlot free.old deferred.old index free.new deferred.new }
    ensures waits { DefersIf drops deferred.old index deferred.new }
{
    if drops {
        deferred.add(index);
    } else {
        free.give(index);
    }
}

// Gives a slot that isn't worn any more to the next fills, in its order. Where its value waits for its drop it is taken
// where no slot is free.
fn renew_slot<A: Allocator>(
    free: &mut FreeSlots<A>,
    deferred: &mut DeferredDrops<A>,
    waits: bool,
    index: usize,
)
    requires room { index < room_of free.old }
    requires held { free_times free.old index ≡ 0 }
    requires bit { index < defers_room deferred.old }
    requires taken { deferred_at deferred.old index ≡ 0 }
    ensures gives { GivesSlot free.old deferred.old index free.new deferred.new }
    ensures waits { DefersIf waits deferred.old index deferred.new }
{
    if waits {
        deferred.add(index);
    } else {
        free.set(index);
    }
}

// Takes out a value that waits for its drop, with the slot that it waited in; none comes exactly where none waits.
fn take_waiting<T, A: Allocator>(
    cells: &mut Vec<Cell<T>, A>,
    waiting: &mut DeferredDrops<A>,
) -> Option<(usize, T)>
    requires { AreThere cells.old.items waiting.old }
    ensures { TakesWaiting cells.old.items waiting.old result cells.new.items waiting.new }
{
    let Some(index) = waiting.take() else {
        return None;
    };
    let cell = &mut cells[index];
    let value = cell.take_deferred().unwrap();
    Some((index, value))
}

// Takes out a value that waits for its drop, in a worn slot only where none waits in another, which is free then. None
// comes exactly where none waits.
fn take_any<T, A: Allocator>(
    cells: &mut Vec<Cell<T>, A>,
    free: &mut FreeSlots<A>,
    deferred: &mut DeferredDrops<A>,
    deferred_worn: &mut DeferredDrops<A>,
) -> Option<T>
    requires there { AreThere cells.old.items deferred.old }
    requires worn_there { AreThere cells.old.items deferred_worn.old }
    requires taken { AreTaken free.old deferred.old }
    ensures { TakesAny cells.old.items free.old deferred.old deferred_worn.old result
        cells.new.items free.new deferred.new deferred_worn.new }
{
    if deferred.count() == 0 {
        let Some((_, value)) = take_waiting(cells, deferred_worn) else {
            return None;
        };
        return Some(value);
    }
    let Some((index, value)) = take_waiting(cells, deferred) else {
        return None;
    };
    free.give(index);
    Some(value)
}

// A poll reads a slot whose index is due. So its wheel reads these rows ahead.
impl<T, A: Allocator> Beside for Slots<T, A> {
    #[inline(always)]
    fn once_read(&self, index: usize, number: u64) -> u64 {
        if index >= self.cells.len() {
            return number;
        }
        let cell = &self.cells[index];
        cell.once_read(number)
    }
}

impl<T, A: Allocator> Slots<T, A> {
    ghost use Rattle.std.specs.Prelude.{IfErr, IsTrue, is_some};
    ghost use Rattle.dq_core.specs.Deferring.{deferred_value_at, with_deferred, waiting_in, WillDisplace, IsClearAt, DefersValuesBut, TakesDeferredValue, TakesDisplaced};
    ghost use Rattle.dq_core.specs.Slots.{SlotRows, row_at, is_free, is_held, is_worn, shown, vacated, raised, unused, IsBorn, IsFilled, IsSlotRows};
    ghost use Rattle.dq_core.specs.Renewals.{forgotten, never_used};
    ghost use Rattle.std.specs.Fn.{FnOnceReturnsAtMut};
    ghost use Rattle.dq_core.specs.Values.{ChangesSlot};

    /// The row is in good order.
    pub fn law(&self)
        ensures { IsSlotRows (shown self.now) }
    {
        let _ = &self.last;
    }

    /// How many slots there are.
    #[inline]
    pub fn capacity(&self) -> usize
        ensures { result ≡ length self.now.rows }
    {
        self.cells.len()
    }

    /// How many slots hold a value.
    #[inline]
    pub fn linked(&self) -> usize
        ensures { result ≡ count_by is_held self.now.rows }
    {
        self.held_count
    }

    /// How many slots are worn: they hold nothing and have no stamp left.
    #[inline]
    pub fn worn(&self) -> usize
        ensures { result ≡ count_by (is_worn self.now.last_stamp) self.now.rows }
    {
        self.cells.len() - self.held_count - self.free_count
    }

    /// The last stamp.
    #[inline]
    pub fn last(&self) -> u32
        ensures { result ≡ self.now.last_stamp }
    {
        self.last
    }

    /// The present stamp of a slot.
    #[inline]
    pub fn stamp(&self, index: usize) -> u32
        requires { index < length self.now.rows }
        ensures { result ≡ (row_at self.now.rows index).stamp }
    {
        let cell = &self.cells[index];
        cell.stamp()
    }

    /// Whether a slot holds a value.
    #[inline]
    pub fn is_held(&self, index: usize) -> bool
        requires { index < length self.now.rows }
        ensures { result ≡ is_held (row_at self.now.rows index) }
    {
        let cell = &self.cells[index];
        cell.is_held()
    }

    /// The birth stamp of what a slot holds.
    #[inline]
    pub fn born(&self, index: usize) -> Option<u32>
        requires { index < length self.now.rows }
        ensures { IsBorn (row_at self.now.rows index) result }
    {
        let cell = &self.cells[index];
        cell.born()
    }

    /// What a slot holds: its birth stamp, and a reference to the value.
    #[inline]
    pub fn held(&self, index: usize) -> Option<(u32, &T)>
        requires { index < length self.now.rows }
        ensures { MatchOption result ((row_at self.now.rows index).held ≡ None)
            (λ h. (row_at self.now.rows index).held
            ≡ Some (record { born = h.0; value = h.1.now })) }
    {
        let cell = &self.cells[index];
        cell.held()
    }

    /// The slot that the next fill takes, where one is free in which no value waits.
    #[inline]
    pub fn next(&self) -> Option<usize>
        ensures { MatchOption result
            ((i : ℕ) → ¬ IsClearAt (shown self.now) self.now.deferred i)
            (λ i. IsClearAt (shown self.now) self.now.deferred i) }
    {
        self.free.next()
    }

    /// Puts a value into a free slot, under that slot's next stamp, and returns its index. Where a value waits in each
    /// of the free slots it returns the one that waited there too. It hands the value back where no slot is free.
    #[inline(always)]
    pub fn fill(&mut self, value: T) -> Result<(usize, Option<T>), T>
        ensures filled { IsFilled (shown self.old) value result (shown self.new) }
        // What comes out beside the index is what was deferred there, in a slot that no fill
        // takes while it may take one in which no value waits.
        ensures deferred { IfOk result (λ f. (f.1 ≡ deferred_value_at self.old.deferred f.0)
            × (self.new.deferred ≡ with_deferred self.old.deferred f.0 None)) }
        ensures displaced { IfOk result (λ f. self.old.deferred.drops ≡ true → is_some f.1 ≡ true
            → WillDisplace (shown self.old) self.old.deferred) }
        ensures kept { IfErr result (λ _. self.new.deferred ≡ self.old.deferred) }
    {
        let Some(index) = self.free.take(&mut self.deferred) else {
            return Err(value);
        };
        let cell = &mut self.cells[index];
        let displaced = cell.fill(value);
        self.held_count += 1;
        self.free_count -= 1;
        Ok((index, displaced))
    }

    /// Takes out what a slot holds.
    #[inline(always)]
    pub fn vacate(&mut self, index: usize) -> Held<T>
        requires { is_held (row_at self.old.rows index) ≡ true }
        ensures held { (row_at self.old.rows index).held ≡ Some result }
        ensures vacated { shown self.new ≡ vacated (shown self.old) index }
        ensures deferred { self.new.deferred ≡ self.old.deferred }
    {
        let cell = &mut self.cells[index];
        let held = cell.vacate();
        if cell.stamp() < self.last {
            self.free.give(index);
            self.free_count += 1;
        }
        self.held_count -= 1;
        held
    }

    /// Frees what a slot holds. The value is deferred: it stays in the slot, and waits for its drop where it has one.
    #[inline]
    pub fn defer(&mut self, index: usize)
        requires { is_held (row_at self.old.rows index) ≡ true }
        ensures vacated { shown self.new ≡ vacated (shown self.old) index }
        ensures deferred { DefersValuesBut self.old.rows self.old.deferred None
            self.new.rows self.new.deferred }
    {
        let cell = &mut self.cells[index];
        cell.defer();
        if cell.stamp() < self.last {
            defer_slot(&mut self.free, &mut self.deferred, self.drops, index);
            self.free_count += 1;
        } else {
            mark(&mut self.deferred_worn, self.drops, index);
        }
        self.held_count -= 1;
    }

    /// How many values wait for their drop.
    #[inline(always)]
    pub fn deferred(&self) -> usize
        ensures { result ≡ waiting_in self.now.deferred }
    {
        self.deferred.law();
        self.deferred_worn.law();
        self.deferred.count() + self.deferred_worn.count()
    }

    /// Takes out a value that waits for its drop; none comes exactly where none does.
    pub fn take_deferred(&mut self) -> Option<T>
        ensures rows { shown self.new ≡ shown self.old }
        ensures takes { TakesDeferredValue self.old.deferred result self.new.deferred }
    {
        self.deferred.law();
        self.deferred_worn.law();
        take_any(
            &mut self.cells,
            &mut self.free,
            &mut self.deferred,
            &mut self.deferred_worn,
        )
    }

    // Takes out a value that waits for its drop where one waits in each slot that a fill may take.
    #[inline(never)]
    fn take_from_next(&mut self) -> Option<T>
        ensures rows { shown self.new ≡ shown self.old }
        ensures takes { TakesDisplaced (shown self.old) self.old.deferred result self.new.deferred }
    {
        self.deferred.law();
        let waiting = self.deferred.count();
        if waiting == 0 || waiting < self.free_count {
            return None;
        }
        take_any(
            &mut self.cells,
            &mut self.free,
            &mut self.deferred,
            &mut self.deferred_worn,
        )
    }

    /// Takes out the value that is deferred where the next fill puts its own; none comes exactly where a slot is free
    /// in which none is, or where a fill is refused.
    #[inline(always)]
    pub fn take_displaced(&mut self) -> Option<T>
        ensures rows { shown self.new ≡ shown self.old }
        ensures takes { TakesDisplaced (shown self.old) self.old.deferred result self.new.deferred }
    {
        self.deferred.law();
        self.deferred_worn.law();
        if self.deferred() == 0 {
            return None;
        }
        self.take_from_next()
    }

    /// What a closure makes of the value that a slot holds, and may change there.
    #[inline]
    pub fn with_value<R, F: FnOnce(&mut T) -> R>(&mut self, index: usize, call: F) -> R
        requires held { is_held (row_at self.old.rows index) ≡ true }
        requires callable { F.IsAlwaysCallable call }
        ensures changes { ChangesSlot (FnOnceReturnsAtMut F.FnOnce call)
            (shown self.old) index result (shown self.new) }
        ensures deferred { self.new.deferred ≡ self.old.deferred }
    {
        let cell = &mut self.cells[index];
        cell.with_value(call)
    }

    /// Gives what a slot holds its next stamp.
    #[inline]
    pub fn raise(&mut self, index: usize)
        requires held { is_held (row_at self.old.rows index) ≡ true }
        requires left { (row_at self.old.rows index).stamp < self.old.last_stamp }
        ensures raised { shown self.new ≡ raised (shown self.old) index }
        ensures deferred { self.new.deferred ≡ self.old.deferred }
    {
        let cell = &mut self.cells[index];
        cell.raise();
    }

    // Makes a slot that holds nothing as if it had never been used.
    fn forget_at(&mut self, index: usize)
        requires in_range { index < length self.old.rows }
        requires empty { is_held (row_at self.old.rows index) ≡ false }
        ensures forgotten { shown self.new ≡ forgotten (shown self.old) index }
        ensures deferred { self.new.deferred ≡ self.old.deferred }
    {
        let cell = &mut self.cells[index];
        let was_worn = cell.stamp() >= self.last;
        cell.forget();
        if was_worn {
            let waits = self.deferred_worn.remove(index);
            renew_slot(&mut self.free, &mut self.deferred, waits, index);
            self.free_count += 1;
        }
    }

    /// Makes each slot of a row that holds nothing as if it had never been used. It goes over every slot.
    pub fn forget(&mut self)
        requires { count_by is_held self.old.rows ≡ 0 }
        ensures forgotten { shown self.new ≡ never_used (shown self.old) }
        ensures deferred { self.new.deferred ≡ self.old.deferred }
    {
        for index in 0..self.cells.len() {
            self.forget_at(index);
        }
    }
}
