//! The free indexes of a row of slots, and those whose slots have a value that was freed and isn't dropped yet.
//!
//! The indexes that were freed last stand on a small stack and are given first: their rows are still near. All others
//! are bits of words, with a bit of a summary for each word that isn't 0, and are given in rising order from where
//! the last was given, so that a fill walks through the memory in its order. The stack also serves a queue that is
//! nearly full, where the few free bits would lie far apart.
//!
//! A value's drop is a user's code: it may take long, call the queue or panic, so it runs only where a call is done
//! with the queue. Until then the value stays in its slot: a row of its own would take as much memory again as all
//! values do, and to move a value there and back would cost what its drop is put off for. A slot that waits for its
//! drop may be filled again where no slot is free; the value then goes out beside the new one. These slots are bits of
//! words too, with a count of them. Each call takes constant time.
ghost use Rattle.std.specs.Prelude.{◌≡◌, ◌≢◌, ℕ, ◌+◌, ◌*◌, ◌/◌, ◌%◌, ◌<◌, ◌≤◌, ◌↔◌, length, slice_index, IfOk, IsTrue, MatchOption};
ghost use Rattle.std.specs.Int.{bit_at};
ghost use Rattle.dq_wheel.specs.Walks.{bit_of};
ghost use Rattle.dq_core.specs.FreeSlots.{FreeIndexes, free_times, room_of, GivesBack, IsSummed};
ghost use Rattle.dq_core.specs.Deferred.{Deferred, bits_below, deferred_at, Defers, Undefers, TakesDeferred, defers_room};
ghost use Rattle.dq_core.specs.SlotRowsKept.{TakesSlot};

use std::alloc::{AllocError, Allocator, Global};
use std::marker::Model;

// How many of the indexes that were freed last stand on the stack.
const RECENT: usize = 64;

// The bits of a word.
const BITS: usize = 64;

// A bit for each of 1,024 words.
type Summary = [u64; 16];

/// Which indexes are free.
#[derive(Drop)]
pub struct FreeSlots<A: Allocator = Global> {
    recent: Vec<u16, A>,
    bits: Vec<u64, A>,
    summary: Summary,
    /// The word that gave the last index.
    current: usize,
}

impl<A: Allocator> Model for FreeSlots<A> {
    ghost use Rattle.std.specs.Prelude.{vec_capacity};
    ghost use Rattle.dq_core.specs.FreeSlots.{FreeIndexes, IsFreeKept};

    ghost Value = { FreeIndexes };

    ghost view = { λ a. record { recent = a.recent.items; bits = a.bits.items } };

    ghost invariant = { λ a. IsFreeKept a.bits.items a.summary a.current (vec_capacity a.recent) };
}

/// A word that the summary has a bit for: in rising order from `from`, and then again from the first.
// Called once a word, so it stays out of its callers' loops.
#[inline(never)]
fn next_word(summary: &Summary, from: usize) -> Option<usize>
    requires { from < 1024 }
    ensures { MatchOption result
        ((w : ℕ) → w < 1024 → bit_of summary.now w ≢ 1)
        (λ w. (w < 1024) × (bit_of summary.now w ≡ 1)) }
{
    let group = from / BITS;
    let ahead = summary[group] >> (from % BITS);
    if ahead != 0 {
        return Some(from + ahead.trailing_zeros() as usize);
    }
    for turn in 0..16 {
        let next = (group + 1 + turn) % 16;
        let word = summary[next];
        if word != 0 {
            return Some(BITS * next + word.trailing_zeros() as usize);
        }
    }
    None
}

// A word of bits that isn't 0: the one that gave the last index, or the next that the summary knows.
#[inline]
fn filled_word(bits: &[u64], summary: &Summary, last: usize) -> Option<usize>
    requires last { last < length bits.now }
    requires size { length bits.now ≤ 1024 }
    requires summed { IsSummed bits.now summary.now }
    ensures { MatchOption result
        ((w : ℕ) → slice_index bits.now w ≡ 0)
        (λ w. (w < length bits.now) × (0 < slice_index bits.now w)) }
{
    if bits[last] != 0 {
        Some(last)
    } else {
        next_word(summary, last)
    }
}

// Sets the bit of an index, and its word's in the summary where it is the word's first.
#[inline]
fn set_bit(bits: &mut [u64], summary: &mut Summary, index: usize)
    requires room { index < 64 * length bits.old }
    requires size { length bits.old ≤ 1024 }
    requires summed { IsSummed bits.old summary.old }
    ensures set { bit_of bits.new index ≡ 1 }
    ensures others { (i : ℕ) → i ≢ index → bit_of bits.new i ≡ bit_of bits.old i }
    ensures summed { IsSummed bits.new summary.new }
{
    let word = index / BITS;
    let held = bits[word];
    bits[word] = held | 1 << (index % BITS);
    if held == 0 {
        summary[word / BITS] |= 1 << (word % BITS);
    }
}

// Whether the bit of an index is set.
#[inline]
fn has_bit(bits: &[u64], index: usize) -> bool
    requires { index < 64 * length bits.now }
    ensures { IsTrue result ↔ (bit_of bits.now index ≡ 1) }
{
    bits[index / BITS] >> (index % BITS) & 1 == 1
}

// Clears the bit of an index, and its word's in the summary where it was the word's only one.
#[inline]
fn clear_bit(bits: &mut [u64], summary: &mut Summary, index: usize)
    requires room { index < 64 * length bits.old }
    requires size { length bits.old ≤ 1024 }
    requires set { bit_of bits.old index ≡ 1 }
    requires summed { IsSummed bits.old summary.old }
    ensures cleared { bit_of bits.new index ≡ 0 }
    ensures others { (i : ℕ) → i ≢ index → bit_of bits.new i ≡ bit_of bits.old i }
    ensures summed { IsSummed bits.new summary.new }
{
    let word = index / BITS;
    let left = bits[word] & !(1 << (index % BITS));
    bits[word] = left;
    if left == 0 {
        summary[word / BITS] &= !(1 << (word % BITS));
    }
}

// The index of the lowest bit of a word that isn't 0.
#[inline]
fn lowest_bit(bits: &[u64], word: usize) -> usize
    requires word_in { word < length bits.now }
    requires size { length bits.now ≤ 1024 }
    requires filled { 0 < slice_index bits.now word }
    ensures { bit_of bits.now result ≡ 1 }
{
    let held = bits[word];
    BITS * word + held.trailing_zeros() as usize
}

// Clears the lowest bit of a word that isn't 0, and the word's bit in the summary where it was its only one.
#[inline]
fn take_bit(bits: &mut [u64], summary: &mut Summary, word: usize) -> usize
    requires word_in { word < length bits.old }
    requires size { length bits.old ≤ 1024 }
    requires filled { 0 < slice_index bits.old word }
    requires summed { IsSummed bits.old summary.old }
    ensures room { result < 64 * length bits.old }
    ensures was_set { bit_of bits.old result ≡ 1 }
    ensures cleared { bit_of bits.new result ≡ 0 }
    ensures others { (i : ℕ) → i ≢ result → bit_of bits.new i ≡ bit_of bits.old i }
    ensures summed { IsSummed bits.new summary.new }
{
    let held = bits[word];
    let bit = held.trailing_zeros() as usize;
    let left = held & !(1 << bit);
    bits[word] = left;
    if left == 0 {
        summary[word / BITS] &= !(1 << (word % BITS));
    }
    BITS * word + bit
}

impl<A: Allocator + Clone> FreeSlots<A> {
    ghost use Rattle.dq_ticks.specs.declared.TheConstants.{CAPACITY_LIMIT};

    /// Room for the indexes below `capacity`, of which none is free, and for at most 64 more.
    pub fn new(alloc: A, capacity: usize) -> Result<FreeSlots<A>, AllocError>
        requires { capacity ≤ CAPACITY_LIMIT }
        ensures { IfOk result (λ f. (capacity ≤ room_of f) × ((i : ℕ) → free_times f i ≡ 0)
            × (room_of f ≤ capacity + 64)) }
    {
        let recent = Vec::with_capacity(alloc.clone()?, RECENT)?;
        let words = capacity.saturating_sub(1) / BITS + 1;
        let bits = vec![in alloc; 0; words]?;
        Ok(FreeSlots {
            recent,
            bits,
            summary: [0; 16],
            current: 0,
        })
    }
}

impl<A: Allocator> FreeSlots<A> {
    /// Frees an index, to be given in its order.
    #[inline]
    pub fn set(&mut self, index: usize)
        requires room { index < room_of self.old }
        requires held { free_times self.old index ≡ 0 }
        ensures { GivesBack self.old index self.new }
    {
        set_bit(self.bits.as_mut_slice(), &mut self.summary, index);
    }

    /// Frees an index, to be given soon.
    #[inline(always)]
    pub fn give(&mut self, index: usize)
        requires room { index < room_of self.old }
        requires held { free_times self.old index ≡ 0 }
        ensures { GivesBack self.old index self.new }
    {
        if self.recent.len() < RECENT {
            self.recent.push_reserved(index as u16);
        } else {
            self.set(index);
        }
    }

    /// The index that the next fill takes, where one is free.
    #[inline]
    pub fn next(&self) -> Option<usize>
        ensures { MatchOption result
            ((i : ℕ) → free_times self.now i ≡ 0) (λ i. 0 < free_times self.now i) }
    {
        if let Some(top) = self.recent.last() {
            return Some(*top as usize);
        }
        let Some(word) = filled_word(&self.bits, &self.summary, self.current) else {
            return None;
        };
        Some(lowest_bit(&self.bits, word))
    }

    /// Takes the index of the next fill: a free one, and only where none is free one whose value waits for its drop.
    #[inline(always)]
    pub fn take(&mut self, deferred: &mut DeferredDrops<A>) -> Option<usize>
        ensures { TakesSlot self.old deferred.old result self.new deferred.new }
    {
        if let Some(top) = self.recent.pop() {
            return Some(top as usize);
        }
        let Some(word) = filled_word(&self.bits, &self.summary, self.current) else {
            return deferred.take();
        };
        self.current = word;
        Some(take_bit(self.bits.as_mut_slice(), &mut self.summary, word))
    }
}

/// The slots whose value waits for its drop.
#[derive(Drop)]
pub struct DeferredDrops<A: Allocator = Global> {
    bits: Vec<u64, A>,
    summary: Summary,
    /// The word that gave the last slot.
    current: usize,
    count: usize,
}

impl<A: Allocator> Model for DeferredDrops<A> {
    ghost use Rattle.dq_core.specs.Deferred.{Deferred, IsDeferredKept};

    ghost Value = { Deferred };

    ghost view = { λ a. record { bits = a.bits.items; count = a.count } };

    ghost invariant = { λ a. IsDeferredKept a.bits.items a.summary a.current a.count };
}

impl<A: Allocator> DeferredDrops<A> {
    ghost use Rattle.dq_ticks.specs.declared.TheConstants.{CAPACITY_LIMIT};

    /// Room for the slots below `capacity`, of which none waits, and for at most 64 more.
    pub fn new(alloc: A, capacity: usize) -> Result<DeferredDrops<A>, AllocError>
        requires { capacity ≤ CAPACITY_LIMIT }
        ensures { IfOk result
            (λ d. (capacity ≤ defers_room d) × (d.count ≡ 0) × ((i : ℕ) → deferred_at d i ≡ 0)
            × (defers_room d ≤ capacity + 64)) }
    {
        let words = capacity.saturating_sub(1) / 64 + 1;
        let bits = vec![in alloc; 0; words]?;
        Ok(DeferredDrops {
            bits,
            summary: [0; 16],
            current: 0,
            count: 0,
        })
    }

    /// The count is exact.
    pub fn law(&self)
        ensures { self.now.count ≡ bits_below self.now.bits (defers_room self.now) }
    {
        let _ = &self.count;
    }

    /// How many slots wait.
    #[inline(always)]
    pub fn count(&self) -> usize
        ensures exact { result ≡ self.now.count }
        ensures bound { result ≤ CAPACITY_LIMIT }
    {
        self.count
    }

    /// From now on a slot waits.
    pub fn add(&mut self, index: usize)
        requires { index < defers_room self.old }
        ensures { Defers self.old index self.new }
    {
        if has_bit(&self.bits, index) {
            return;
        }
        set_bit(self.bits.as_mut_slice(), &mut self.summary, index);
        self.count += 1;
    }

    /// A slot waits no more. It returns whether it did.
    pub fn remove(&mut self, index: usize) -> bool
        requires { index < defers_room self.old }
        ensures waited { IsTrue result ↔ (deferred_at self.old index ≡ 1) }
        ensures removed { Undefers self.old index self.new }
    {
        if !has_bit(&self.bits, index) {
            return false;
        }
        clear_bit(self.bits.as_mut_slice(), &mut self.summary, index);
        self.count -= 1;
        true
    }

    /// Takes out a slot that waits; none comes exactly where the count is 0.
    pub fn take(&mut self) -> Option<usize>
        ensures { TakesDeferred self.old result self.new }
    {
        let Some(word) = filled_word(&self.bits, &self.summary, self.current) else {
            return None;
        };
        self.current = word;
        let index = take_bit(self.bits.as_mut_slice(), &mut self.summary, word);
        self.count -= 1;
        Some(index)
    }
}
