//! The lists of indexes, linked both ways in a fixed row, with what is kept of each index; and the occupancy maps.
//!
//! There is a row for each entry and, behind them, one for the head of each list. Each list is a circle through a head
//! of its own, so an entry always has a neighbour on either side, and no call asks where a list begins or ends. What is
//! kept of an entry lies beside its links, so that a call touches one line for it.
//!
//! Of the lists of six levels one is the due list. A map for each level has a bit for each list, by which the next list
//! is found.

ghost use Rattle.std.specs.Prelude.{◌≡◌, ◌≢◌, ◌⊎◌, if◌then◌else◌, ℕ, ◌+◌, ◌-◌, ◌*◌, ◌/◌, ◌%◌, ◌<◌, ◌≤◌, ◌==◌, ◌↔◌, length, map, slice_index, slice_set, replicate, IfOk, MatchOption, IfSome, Option, None, Some};
ghost use Rattle.std.specs.Int.{bit_at};
ghost use Rattle.dq_ticks.specs.Digits.{digit_of, level, start};
ghost use Rattle.dq_wheel.specs.Homes.{list_number, CanGo, IsOpened};
ghost use Rattle.dq_wheel.specs.Lists.{IsLeastIn, IsListEmpty, IsListFilled, IsListOf, IsLoose, StandsBeside, StandsIn, TakesMore};
ghost use Rattle.dq_wheel.specs.Maps.{IsEarlier, IsFirstFilled, IsOccupied, IsOccupiedBut};
ghost use Rattle.dq_wheel.specs.Rows.{nexts, prevs, homes, filed_numbers, moves_made, shown_homes, shown_numbers, entry_homes, entry_filed, entry_moves, AreAlone, AreCircles, AreSeenCircles, AreTakenFrom, HasNeighbours};
ghost use Rattle.dq_wheel.specs.Seen.{home_seen, number_seen, numbers_seen};
ghost use Rattle.dq_wheel.specs.Walks.{bit_of};

use crate::LISTS;
use crate::beside::Beside;
use dq_ticks::{CAPACITY_LIMIT, LAST_TICK, LEVELS, SLOTS, digit, level_of, slot_start};
use std::alloc::{AllocError, Allocator, Global};
use std::marker::Model;

// The rows of so many indexes, and what lies beside them, mostly are in a processor's own cache: to read them ahead
// would cost more than it saves.
const CACHED: usize = 16_384;

/// Stands for the tick of an index that is loose.
pub const NOT_FILED: u64 = u64::MAX;

/// The links of an entry or of a list's head, the list in which it stands, and the tick and the moves of an entry.
#[derive(Clone, Copy, Drop)]
pub struct Row {
    pub filed: u64,
    pub next: u32,
    pub prev: u32,
    /// One more than the number of the list, or 0.
    pub home: u16,
    pub moves: u8,
}

/// Which list each index stands in, if any, with a bit for each list that isn't empty.
#[derive(Drop)]
pub struct Lists<A: Allocator = Global> {
    /// The entries, and behind them the heads of the lists.
    rows: Vec<Row, A>,
    capacity: usize,
    /// The list that is open: its circle hangs on the head of list 0, and its entries are seen there.
    opened: Option<usize>,
    /// The tick at which it was opened, where they are seen to be filed.
    since: u64,
    maps: Maps,
}

impl<A: Allocator> Model for Lists<A> {
    ghost use Rattle.dq_wheel.specs.Lists.{ListsState};
    ghost use Rattle.dq_wheel.specs.Maps.{IsOccupied};
    ghost use Rattle.dq_wheel.specs.Rows.{nexts, shown_homes, shown_filed, entry_moves, AreSeenCircles};

    ghost Value = { ListsState };

    ghost view = { λ a. record {
      homes = shown_homes a.capacity a.opened a.rows.items;
      filed = shown_filed a.capacity a.opened a.since a.rows.items;
      moves = entry_moves a.capacity a.rows.items;
      next = nexts a.rows.items;
      opened = a.opened;
      maps = a.maps;
    } };

    ghost invariant = { λ a. AreSeenCircles a.capacity a.opened a.rows.items
        × IsOccupied a.maps (shown_homes a.capacity a.opened a.rows.items) };
}

/// The list of what is filed at the tick: that of its digit at level 0.
pub fn due_list(tick: u64) -> usize
    requires { tick ≤ LAST_TICK }
    ensures value { result ≡ digit_of tick 0 }
    ensures small { result < 64 }
{
    digit(tick, 0) as usize
}

/// The list in which an index stands that is filed at `when`: list `64 * level + slot` is that slot.
pub fn list_of(tick: u64, when: u64) -> usize
    requires ordered { tick ≤ when }
    requires in_range { when ≤ LAST_TICK }
    ensures value { result ≡ list_number tick when }
    ensures small { result < LISTS }
{
    let level = level_of(tick, when).unwrap_or(0);
    SLOTS * level + digit(when, level) as usize
}

/// The tick at which the slot of a list starts. Level 0 comes nearly every time, and is the shortest way.
pub fn start_of(tick: u64, list: usize) -> u64
    requires in_range { tick ≤ LAST_TICK }
    requires list_in { list < LISTS }
    ensures { result ≡ start tick (list / 64) (list % 64) }
{
    if list < SLOTS {
        tick / SLOTS as u64 * SLOTS as u64 + list as u64
    } else {
        slot_start(tick, list / SLOTS, (list % SLOTS) as u64)
    }
}

/// The list to which an index goes from an opened one. What a list of level 1 spans is level 0 and no more; what one
/// of level 2 spans is level 1, and level 0 where the second digit is 0.
pub fn list_from(list: usize, tick: u64, when: u64) -> usize
    requires ordered { tick ≤ when }
    requires in_range { when ≤ LAST_TICK }
    requires lowest { list < 128 → level tick when ≡ 0 }
    requires second { 128 ≤ list → list < 192 →
        level tick when ≡ (if digit_of when 1 == 0 then 0 else 1) }
    ensures value { result ≡ list_number tick when }
    ensures small { result < LISTS }
{
    if list < 2 * SLOTS {
        return digit(when, 0) as usize;
    }
    if list < 3 * SLOTS {
        return match digit(when, 1) as usize {
            0 => digit(when, 0) as usize,
            second => SLOTS + second,
        };
    }
    list_of(tick, when)
}

/// A map for each level, whose bit k is the list of its slot k.
pub type Maps = [u64; LEVELS];

/// Sets the bit of a list.
pub fn set_bit(maps: &mut Maps, list: usize)
    requires { list < LISTS }
    ensures set { bit_of maps.new list ≡ 1 }
    ensures others { (p : ℕ) → p ≢ list → bit_of maps.new p ≡ bit_of maps.old p }
{
    maps[list / SLOTS] |= 1 << (list % SLOTS);
}

/// Clears the bit of a list.
pub fn clear_bit(maps: &mut Maps, list: usize)
    requires { list < LISTS }
    ensures cleared { bit_of maps.new list ≡ 0 }
    ensures others { (p : ℕ) → p ≢ list → bit_of maps.new p ≡ bit_of maps.old p }
{
    maps[list / SLOTS] &= !(1 << (list % SLOTS));
}

// The place of the lowest bit that is 1.
fn lowest_bit(bits: u64) -> Option<usize>
    ensures { MatchOption result
        (bits ≡ 0)
        (λ k. (k < 64) × (bit_at bits k ≡ 1) × ((i : ℕ) → i < k → bit_at bits i ≡ 0)) }
{
    if bits == 0 {
        None
    } else {
        Some(bits.trailing_zeros() as usize)
    }
}

// The place of the first bit after the own one that is 1, in a circle.
fn first_after(bits: u64, own: usize) -> Option<usize>
    requires { own < 64 }
    ensures { MatchOption result
        (bits ≡ 0)
        (λ k. (k < 64) × (bit_at bits k ≡ 1)
        × ((i : ℕ) → i < 64 → bit_at bits i ≡ 1 → (k + 63 - own) % 64 ≤ (i + 63 - own) % 64)) }
{
    match lowest_bit((bits >> own) >> 1) {
        Some(ahead) => Some(own + 1 + ahead),
        None => lowest_bit(bits),
    }
}

/// The list of the lowest level that has a bit, there the first after the own one.
pub fn first_list(maps: &Maps, own: usize) -> Option<usize>
    requires { own < 64 }
    ensures { MatchOption result
        ((p : ℕ) → p < LISTS → bit_of maps.now p ≢ 1)
        (λ q. (q < LISTS) × (bit_of maps.now q ≡ 1)
        × ((p : ℕ) → p < LISTS → bit_of maps.now p ≡ 1 → IsEarlier own q p)) }
{
    for level in 0..LEVELS - 1 {
        if let Some(slot) = lowest_bit(maps[level]) {
            return Some(SLOTS * level + slot);
        }
    }
    match first_after(maps[LEVELS - 1], own) {
        Some(slot) => Some(SLOTS * (LEVELS - 1) + slot),
        None => None,
    }
}

// Writes what follows a number.
fn set_next(rows: &mut [Row], at: usize, next: u32)
    requires { at < length rows.old }
    ensures next { nexts rows.new ≡ slice_set (nexts rows.old) at next }
    ensures prev { prevs rows.new ≡ prevs rows.old }
    ensures home { homes rows.new ≡ homes rows.old }
    ensures filed { filed_numbers rows.new ≡ filed_numbers rows.old }
    ensures moves { moves_made rows.new ≡ moves_made rows.old }
{
    rows[at].next = next;
}

// Writes what a number follows.
fn set_prev(rows: &mut [Row], at: usize, prev: u32)
    requires { at < length rows.old }
    ensures next { nexts rows.new ≡ nexts rows.old }
    ensures prev { prevs rows.new ≡ slice_set (prevs rows.old) at prev }
    ensures home { homes rows.new ≡ homes rows.old }
    ensures filed { filed_numbers rows.new ≡ filed_numbers rows.old }
    ensures moves { moves_made rows.new ≡ moves_made rows.old }
{
    rows[at].prev = prev;
}

/// A number's row.
pub fn row_at(rows: &[Row], at: usize) -> Row
    requires { at < length rows.now }
    ensures next { result.next ≡ slice_index (nexts rows.now) at }
    ensures prev { result.prev ≡ slice_index (prevs rows.now) at }
    ensures home { result.home ≡ slice_index (homes rows.now) at }
    ensures filed { result.filed ≡ slice_index (filed_numbers rows.now) at }
    ensures moves { result.moves ≡ slice_index (moves_made rows.now) at }
{
    rows[at]
}

/// Writes an entry as the last of a list, filed at a tick, after so many moves.
pub fn append(rows: &mut [Row], head: usize, index: usize, list: usize, filed: u64, moves: u8)
    requires list_in { list < LISTS }
    requires size { length rows.old ≤ CAPACITY_LIMIT + LISTS }
    requires head_in { head < length rows.old }
    requires index_in { index < length rows.old }
    requires last_in { slice_index (prevs rows.old) head < length rows.old }
    ensures next { let last = slice_index (prevs rows.old) head in
        nexts rows.new ≡ slice_set (slice_set (nexts rows.old) index head) last index }
    ensures prev { let last = slice_index (prevs rows.old) head in
        prevs rows.new ≡ slice_set (slice_set (prevs rows.old) index last) head index }
    ensures home { homes rows.new ≡ slice_set (homes rows.old) index (list + 1) }
    ensures filed { filed_numbers rows.new ≡ slice_set (filed_numbers rows.old) index filed }
    ensures moves { moves_made rows.new ≡ slice_set (moves_made rows.old) index moves }
{
    let last = rows[head].prev;
    rows[index] = Row {
        filed,
        next: head as u32,
        prev: last,
        home: list as u16 + 1,
        moves,
    };
    rows[last as usize].next = index as u32;
    rows[head].prev = index as u32;
}

/// Takes an entry out of its list.
pub fn detach(rows: &mut [Row], index: usize)
    requires index_in { index < length rows.old }
    requires near { HasNeighbours rows.old index }
    ensures next { nexts rows.new ≡ slice_set (nexts rows.old)
        (slice_index (prevs rows.old) index) (slice_index (nexts rows.old) index) }
    ensures prev { prevs rows.new ≡ slice_set (prevs rows.old)
        (slice_index (nexts rows.old) index) (slice_index (prevs rows.old) index) }
    ensures home { homes rows.new ≡ slice_set (homes rows.old) index 0 }
    ensures filed { filed_numbers rows.new ≡ slice_set (filed_numbers rows.old) index NOT_FILED }
    ensures moves { moves_made rows.new ≡ slice_set (moves_made rows.old) index 0 }
{
    let row = row_at(rows, index);
    rows[row.prev as usize].next = row.next;
    rows[row.next as usize].prev = row.prev;
    let own = &mut rows[index];
    own.home = 0;
    own.filed = NOT_FILED;
    own.moves = 0;
}

/// The number, once the row of a linked entry and those of its neighbours were read. A neighbour's link back is the
/// entry itself, so the difference of the two is 0, which the compiler can't know: it keeps the reads.
#[inline(always)]
pub fn once_near(rows: &[Row], index: usize, number: u32) -> u32
    requires index_in { index < length rows.now }
    requires near { HasNeighbours rows.now index }
    ensures { result ≡ number }
{
    let row = row_at(rows, index);
    let before = row_at(rows, row.prev as usize);
    let after = row_at(rows, row.next as usize);
    let zero = before.next - after.prev;
    number + zero
}

/// Takes the entry that follows the head of a list out of it.
pub fn detach_first(rows: &mut [Row], head: usize, first: usize)
    requires size { length rows.old ≤ CAPACITY_LIMIT + LISTS }
    requires head_in { head < length rows.old }
    requires first_in { first < length rows.old }
    requires after_in { slice_index (nexts rows.old) first < length rows.old }
    ensures next { nexts rows.new
        ≡ slice_set (nexts rows.old) head (slice_index (nexts rows.old) first) }
    ensures prev { prevs rows.new
        ≡ slice_set (prevs rows.old) (slice_index (nexts rows.old) first) head }
    ensures home { homes rows.new ≡ slice_set (homes rows.old) first 0 }
    ensures filed { filed_numbers rows.new ≡ slice_set (filed_numbers rows.old) first NOT_FILED }
    ensures moves { moves_made rows.new ≡ slice_set (moves_made rows.old) first 0 }
{
    let after = rows[first].next;
    rows[head].next = after;
    rows[after as usize].prev = head as u32;
    let row = &mut rows[first];
    row.home = 0;
    row.filed = NOT_FILED;
    row.moves = 0;
}

/// Hangs the whole circle of a head on another head, which stands alone. The entries themselves keep their rows.
pub fn hang(rows: &mut [Row], from: usize, onto: usize)
    requires size { length rows.old ≤ CAPACITY_LIMIT + LISTS }
    requires from_in { from < length rows.old }
    requires onto_in { onto < length rows.old }
    requires first_in { slice_index (nexts rows.old) from < length rows.old }
    requires last_in { slice_index (prevs rows.old) from < length rows.old }
    ensures next { let last = slice_index (prevs rows.old) from in
        let first = slice_index (nexts rows.old) from in
        nexts rows.new
        ≡ slice_set (slice_set (slice_set (nexts rows.old) last onto) onto first) from from }
    ensures prev { let last = slice_index (prevs rows.old) from in
        let first = slice_index (nexts rows.old) from in
        prevs rows.new
        ≡ slice_set (slice_set (slice_set (prevs rows.old) first onto) onto last) from from }
    ensures home { homes rows.new ≡ homes rows.old }
    ensures filed { filed_numbers rows.new ≡ filed_numbers rows.old }
    ensures moves { moves_made rows.new ≡ moves_made rows.old }
{
    let row = row_at(rows, from);
    set_next(rows, row.prev as usize, onto as u32);
    set_prev(rows, row.next as usize, onto as u32);
    set_next(rows, onto, row.next);
    set_prev(rows, onto, row.prev);
    set_next(rows, from, from as u32);
    set_prev(rows, from, from as u32);
}

/// Takes a whole list off its head, and gives the first of its entries, or the head where there is none.
pub fn take_off(rows: &mut [Row], capacity: usize, list: usize) -> usize
    requires circles { AreCircles capacity rows.old }
    requires list_in { list < LISTS }
    ensures taken { AreTakenFrom capacity list result rows.new }
    ensures home { homes rows.new ≡ homes rows.old }
    ensures filed { filed_numbers rows.new ≡ filed_numbers rows.old }
    ensures moves { moves_made rows.new ≡ moves_made rows.old }
{
    let head = capacity + list;
    let first = row_at(rows, head).next as usize;
    set_next(rows, head, head as u32);
    set_prev(rows, head, head as u32);
    first
}

/// Puts the first entry of a list that was taken off at the end of another list, after so many moves, and gives the
/// entry that followed it.
pub fn put_last(
    rows: &mut [Row],
    capacity: usize,
    list: usize,
    index: usize,
    to: usize,
    moves: u8,
) -> usize
    requires taken { AreTakenFrom capacity list index rows.old }
    requires index_in { index < capacity }
    requires list_in { list < LISTS }
    requires to_in { to < LISTS }
    requires away { to ≢ list }
    ensures taken { AreTakenFrom capacity list result rows.new }
    ensures home { homes rows.new ≡ slice_set (homes rows.old) index (to + 1) }
    ensures filed { filed_numbers rows.new ≡ filed_numbers rows.old }
    ensures moves { moves_made rows.new ≡ slice_set (moves_made rows.old) index moves }
{
    let row = row_at(rows, index);
    append(rows, capacity + to, index, to, row.filed, moves);
    row.next as usize
}

/// The rows of entries and heads that stand alone.
pub fn lone_rows<A: Allocator>(alloc: A, capacity: usize) -> Result<Vec<Row, A>, AllocError>
    requires { capacity ≤ CAPACITY_LIMIT }
    ensures { IfOk result (λ v. (length v.items ≡ capacity + LISTS) × AreAlone capacity v.items) }
{
    let count = (capacity + LISTS) as u32;
    let mut rows = Vec::with_capacity(alloc, capacity + LISTS)?;
    for at in 0..count {
        let home = (at as usize + 1).saturating_sub(capacity) as u16;
        rows.push(Row {
            filed: NOT_FILED,
            next: at,
            prev: at,
            home,
            moves: 0,
        })?;
    }
    Ok(rows)
}

// Whether a home is that of the open list.
fn is_open(opened: Option<usize>, home: u16) -> bool
    ensures home { home_seen opened home ≡ (if result then 1 else home) }
    ensures number { (tick number : ℕ) →
        number_seen opened tick home number ≡ (if result then tick else number) }
{
    match opened {
        Some(list) => home != 0 && home as usize - 1 == list,
        None => false,
    }
}

// The number that is seen, which says where a number's row is filed.
fn number_at(rows: &[Row], opened: Option<usize>, since: u64, at: usize) -> u64
    requires { at < length rows.now }
    ensures { result ≡ slice_index (shown_numbers opened since rows.now) at }
{
    let row = row_at(rows, at);
    if is_open(opened, row.home) {
        since
    } else {
        row.filed
    }
}

// The one of two indexes that is filed earlier.
fn earlier(rows: &[Row], opened: Option<usize>, since: u64, one: usize, other: usize) -> usize
    requires one_in { one < length rows.now }
    requires other_in { other < length rows.now }
    ensures either { (result ≡ one) ⊎ (result ≡ other) }
    ensures one { slice_index (shown_numbers opened since rows.now) result
        ≤ slice_index (shown_numbers opened since rows.now) one }
    ensures other { slice_index (shown_numbers opened since rows.now) result
        ≤ slice_index (shown_numbers opened since rows.now) other }
{
    if number_at(rows, opened, since, other) < number_at(rows, opened, since, one) {
        other
    } else {
        one
    }
}

// Places each index of a list again by the new tick, and gives how many of them aren't due yet. Meanwhile the list's
// bit stays, and what waits in it is linked only forward.
fn scatter(rows: &mut [Row], capacity: usize, maps: &mut Maps, list: usize, tick: u64) -> u64
    requires circles { AreCircles capacity rows.old }
    requires list_in { list < LISTS }
    requires occupied { IsOccupied maps.old (entry_homes capacity rows.old) }
    requires can_go { (i : ℕ) → StandsIn (entry_homes capacity rows.old) list i →
        CanGo tick list (slice_index (entry_filed capacity rows.old) i)
        (slice_index (entry_moves capacity rows.old) i) }
    ensures circles { AreCircles capacity rows.new }
    ensures opened { IsOpened tick list (entry_filed capacity rows.old)
        (entry_homes capacity rows.old) (entry_moves capacity rows.old)
        (entry_homes capacity rows.new) (entry_moves capacity rows.new) result }
    ensures filed { filed_numbers rows.new ≡ filed_numbers rows.old }
    ensures occupied { IsOccupied maps.new (entry_homes capacity rows.new) }
{
    let mut made = 0;
    let mut index = take_off(rows, capacity, list);
    while index < capacity {
        let row = row_at(rows, index);
        let to = list_from(list, tick, row.filed);
        let moved = if row.filed == tick { 0 } else { 1 };
        let after = put_last(rows, capacity, list, index, to, row.moves + moved);
        set_bit(maps, to);
        made += moved as u64;
        index = after;
    }
    clear_bit(maps, list);
    made
}

// The first index of a list, whichever list is open.
fn first_of(rows: &[Row], capacity: usize, list: usize) -> Option<usize>
    requires list_in { list < LISTS }
    requires size { length rows.now ≡ capacity + LISTS }
    requires small { capacity ≤ CAPACITY_LIMIT }
    ensures { (opened : Option ℕ) → AreSeenCircles capacity opened rows.now →
        MatchOption result
        (IsListEmpty (shown_homes capacity opened rows.now) list)
        (λ x. StandsIn (shown_homes capacity opened rows.now) list x
        × (x ≡ slice_index (nexts rows.now) (capacity + list))) }
{
    let first = rows[capacity + list].next as usize;
    if first < capacity { Some(first) } else { None }
}

// Clears the bit of a list where its last index has left it.
fn clear_if_empty(rows: &[Row], capacity: usize, maps: &mut Maps, list: usize)
    requires list_in { list < LISTS }
    requires size { length rows.now ≡ capacity + LISTS }
    requires small { capacity ≤ CAPACITY_LIMIT }
    requires was_filled { bit_of maps.old list ≡ 1 }
    ensures { (opened : Option ℕ) → AreSeenCircles capacity opened rows.now →
        IsOccupiedBut list maps.old (shown_homes capacity opened rows.now) →
        IsOccupied maps.new (shown_homes capacity opened rows.now) }
{
    if rows[capacity + list].next as usize >= capacity {
        maps[list / SLOTS] &= !(1 << (list % SLOTS));
    }
}

impl<A: Allocator> Lists<A> {
    /// No index stands in a list.
    pub fn new(alloc: A, capacity: usize) -> Result<Lists<A>, AllocError>
        requires { capacity ≤ CAPACITY_LIMIT }
        ensures { IfOk result (λ r. (r.homes ≡ replicate capacity 0)
            × (r.filed ≡ replicate capacity NOT_FILED) × (r.moves ≡ replicate capacity 0)
            × (r.opened ≡ None)) }
    {
        let rows = lone_rows(alloc, capacity)?;
        Ok(Lists {
            rows,
            capacity,
            opened: None,
            since: 0,
            maps: [0; LEVELS],
        })
    }

    /// Each list, walked along its links from its head, has once each index whose home it is, and no other; and each
    /// bit is 1 exactly where its list isn't empty.
    pub fn law(&self)
        ensures lists { (p : ℕ) → p < LISTS → IsListOf self.now.next self.now.homes p }
        ensures bits { IsOccupied self.now.maps self.now.homes }
    {
        let _ = &self.rows;
    }

    /// The number of indexes.
    pub fn capacity(&self) -> usize
        ensures value { result ≡ length self.now.homes }
        ensures small { length self.now.homes ≤ CAPACITY_LIMIT }
    {
        self.capacity
    }

    /// The list of an index, and one more, or 0.
    pub fn home(&self, index: usize) -> u16
        requires { index < length self.now.homes }
        ensures value { result ≡ slice_index self.now.homes index }
        ensures small { result ≤ LISTS }
    {
        let home = row_at(&self.rows, index).home;
        if is_open(self.opened, home) { 1 } else { home }
    }

    /// The number that says where an index is filed.
    pub fn filed(&self, index: usize) -> u64
        requires { index < length self.now.homes }
        ensures { result ≡ slice_index self.now.filed index }
    {
        number_at(&self.rows, self.opened, self.since, index)
    }

    /// How often an index moved.
    pub fn moves(&self, index: usize) -> u8
        requires { index < length self.now.homes }
        ensures { result ≡ slice_index self.now.moves index }
    {
        row_at(&self.rows, index).moves
    }

    /// The first index of a list.
    pub fn first(&self, list: usize) -> Option<usize>
        requires { list < LISTS }
        ensures { MatchOption result
            (IsListEmpty self.now.homes list)
            (λ x. StandsIn self.now.homes list x) }
    {
        first_of(&self.rows, self.capacity, list)
    }

    /// The first index of a list while a slot is open, or none, which tells nothing.
    #[inline]
    pub fn first_open(&self, list: usize) -> Option<usize>
        requires { list < LISTS }
        ensures { IfSome result (λ x. StandsIn self.now.homes list x) }
    {
        let _opened = self.opened?;
        self.first(list)
    }

    /// The index that follows another in its list, or none where that is the last.
    #[inline]
    pub fn after(&self, index: usize) -> Option<usize>
        requires index_in { index < length self.now.homes }
        requires linked { 0 < slice_index self.now.homes index }
        ensures { IfSome result (λ x. StandsBeside self.now.homes index x) }
    {
        let after = row_at(&self.rows, index).next as usize;
        if after < self.capacity {
            Some(after)
        } else {
            None
        }
    }

    /// An index of a list that is filed least there.
    pub fn least_in(&self, list: usize) -> Option<usize>
        requires { list < LISTS }
        ensures { MatchOption result
            (IsListEmpty self.now.homes list)
            (λ x. IsLeastIn self.now.homes self.now.filed list x) }
    {
        let Some(first) = first_of(&self.rows, self.capacity, list) else {
            return None;
        };
        let mut best = first;
        let mut at = first;
        for _turn in 0..self.capacity {
            if at >= self.capacity {
                break;
            }
            best = earlier(&self.rows, self.opened, self.since, best, at);
            at = row_at(&self.rows, at).next as usize;
        }
        Some(best)
    }

    /// The occupancy map of a level, in which a list shows as empty.
    pub fn map_without(&self, level: usize, list: usize) -> u64
        requires level_in { level < LEVELS }
        requires list_in { list < LISTS }
        ensures { (k : ℕ) → k < 64 →
            (bit_at result k ≡ 1)
            ↔ ((64 * level + k ≢ list) × IsListFilled self.now.homes (64 * level + k)) }
    {
        let mut maps = self.maps;
        clear_bit(&mut maps, list);
        maps[level]
    }

    /// The filled list of the lowest level that has one, there the first after the own one.
    pub fn first_filled(&self, own: usize) -> Option<usize>
        requires { own < 64 }
        ensures { MatchOption result
            ((p : ℕ) → p < LISTS → IsListEmpty self.now.homes p)
            (λ q. IsFirstFilled own self.now.homes q) }
    {
        let list = first_list(&self.maps, own)?;
        Some(list)
    }

    /// Puts a loose index at the end of a list, filed at a tick.
    pub fn link(&mut self, index: usize, list: usize, filed: u64)
        requires loose { IsLoose self.old.homes index }
        requires takes { TakesMore self.old.opened list }
        ensures homes { self.new.homes ≡ slice_set self.old.homes index (list + 1) }
        ensures filed { self.new.filed ≡ slice_set self.old.filed index filed }
        ensures moves { self.new.moves ≡ slice_set self.old.moves index 0 }
        ensures opened { self.new.opened ≡ self.old.opened }
    {
        append(&mut self.rows, self.capacity + list, index, list, filed, 0);
        set_bit(&mut self.maps, list);
    }

    /// The number, once the rows were read that an unlink of the index writes.
    #[inline]
    pub fn once_near(&self, index: usize, number: u32) -> u32
        requires index_in { index < length self.now.homes }
        requires linked { 0 < slice_index self.now.homes index }
        ensures { result ≡ number }
    {
        once_near(&self.rows, index, number)
    }

    /// Takes an index out of its list.
    // Out of line it costs a removal and a reset a call.
    #[inline(always)]
    pub fn unlink(&mut self, index: usize)
        requires index_in { index < length self.old.homes }
        requires linked { 0 < slice_index self.old.homes index }
        ensures homes { self.new.homes ≡ slice_set self.old.homes index 0 }
        ensures filed { self.new.filed ≡ slice_set self.old.filed index NOT_FILED }
        ensures moves { self.new.moves ≡ slice_set self.old.moves index 0 }
        ensures opened { self.new.opened ≡ self.old.opened }
    {
        let list = self.home(index) as usize - 1;
        detach(&mut self.rows, index);
        clear_if_empty(&self.rows, self.capacity, &mut self.maps, list);
    }

    /// Takes the first index out of a list.
    pub fn take_first(&mut self, list: usize) -> Option<usize>
        requires { list < LISTS }
        ensures { MatchOption result
            (IsListEmpty self.old.homes list × (self.new ≡ self.old))
            (λ x. StandsIn self.old.homes list x
            × (self.new.homes ≡ slice_set self.old.homes x 0)
            × (self.new.filed ≡ slice_set self.old.filed x NOT_FILED)
            × (self.new.moves ≡ slice_set self.old.moves x 0)
            × (self.new.opened ≡ self.old.opened)) }
    {
        let Some(first) = first_of(&self.rows, self.capacity, list) else {
            return None;
        };
        detach_first(&mut self.rows, self.capacity + list, first);
        clear_if_empty(&self.rows, self.capacity, &mut self.maps, list);
        Some(first)
    }

    /// The number, once what lies beside the indexes of a list was read, where they are many, and due next: of level 1.
    pub fn once_read<B: Beside>(&self, list: usize, beside: &B, number: u64) -> u64
        requires { list < LISTS }
        ensures { result ≡ number }
    {
        if list >= 2 * SLOTS || self.capacity <= CACHED {
            return number;
        }
        let mut same = number;
        let mut at = row_at(&self.rows, self.capacity + list).next as usize;
        for _turn in 0..self.capacity {
            if at >= self.capacity {
                break;
            }
            same = beside.once_read(at, same);
            at = row_at(&self.rows, at).next as usize;
        }
        same
    }

    /// Opens a list: each of its indexes is placed again by the new tick. Gives how many of them aren't due yet.
    pub fn open(&mut self, list: usize, tick: u64) -> u64
        requires list_in { list < LISTS }
        requires free { IsListEmpty self.old.homes 0 }
        requires can_go { (i : ℕ) → StandsIn self.old.homes list i →
            CanGo tick list (slice_index self.old.filed i) (slice_index self.old.moves i) }
        ensures opened { IsOpened tick list self.old.filed self.old.homes self.old.moves
            self.new.homes self.new.moves result }
        ensures filed { self.new.filed ≡ self.old.filed }
        ensures shut { self.new.opened ≡ None }
    {
        self.opened = None;
        scatter(&mut self.rows, self.capacity, &mut self.maps, list, tick)
    }

    /// Opens a list as it is: its circle hangs on the head of list 0, where none stands. From now on its indexes are
    /// seen there, filed at the tick. This writes six links, however many they are.
    pub fn hang(&mut self, list: usize, tick: u64)
        requires list_in { list < LISTS }
        requires above { 0 < list }
        requires free { IsListEmpty self.old.homes 0 }
        requires filled { IsListFilled self.old.homes list }
        ensures homes { self.new.homes ≡ map (home_seen (Some list)) self.old.homes }
        ensures filed { self.new.filed
            ≡ numbers_seen (Some list) tick self.old.homes self.old.filed }
        ensures moves { self.new.moves ≡ self.old.moves }
        ensures opened { self.new.opened ≡ Some list }
    {
        hang(&mut self.rows, self.capacity + list, self.capacity);
        self.opened = Some(list);
        self.since = tick;
        set_bit(&mut self.maps, 0);
        clear_bit(&mut self.maps, list);
    }

    /// Ends the opening, once all of its indexes have left. Nothing is seen to change.
    pub fn close(&mut self)
        requires { IsListEmpty self.old.homes 0 }
        ensures homes { self.new.homes ≡ self.old.homes }
        ensures filed { self.new.filed ≡ self.old.filed }
        ensures moves { self.new.moves ≡ self.old.moves }
        ensures shut { self.new.opened ≡ None }
    {
        self.opened = None;
    }
}
