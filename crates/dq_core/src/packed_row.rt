//! A row of words, each in one number of 8 bytes.
ghost use Rattle.std.specs.Prelude.{◌≡◌, ◌≢◌, ℕ, ◌<◌, ◌≤◌, length, slice_set, replicate, IfOk, MatchOption};
ghost use Rattle.dq_ticks.specs.declared.TheConstants.{LAST_TICK, LAST_STAMP};
ghost use Rattle.dq_core.specs.Words.{live, never, word_at};

use dq_ticks::{Parts, live_at, pack, unpack};
use std::alloc::{AllocError, Allocator, Global};
use std::marker::Model;

/// A row of words.
#[derive(Drop)]
pub struct PackedRow<A: Allocator = Global> {
    words: Vec<u64, A>,
}

impl<A: Allocator> Model for PackedRow<A> {
    ghost use Rattle.std.specs.Prelude.{List, map};
    ghost use Rattle.dq_ticks.specs.declared.words.Parts.{Parts};
    ghost use Rattle.dq_ticks.specs.Word.{parts_of};

    ghost Value = { List Parts };

    ghost view = { λ a. map parts_of a.words.items };
}

impl<A: Allocator> PackedRow<A> {
    /// A row of words that were never used.
    pub fn new(alloc: A, capacity: usize) -> Result<PackedRow<A>, AllocError>
        ensures { IfOk result (λ ws. ws ≡ replicate capacity never) }
    {
        let words = vec![in alloc; 0; capacity]?;
        Ok(PackedRow { words })
    }

    /// The number of words.
    #[inline]
    pub fn len(&self) -> usize
        ensures { result ≡ length self.now }
    {
        self.words.len()
    }

    /// The parts of a word.
    #[inline]
    pub fn get(&self, index: usize) -> Parts
        requires { index < length self.now }
        ensures parts { result ≡ word_at self.now index }
        ensures stamp { result.stamp ≤ LAST_STAMP }
        ensures field { result.field ≤ LAST_TICK }
    {
        unpack(self.words[index])
    }

    /// Writes the word of parts.
    #[inline]
    pub fn set(&mut self, index: usize, parts: Parts)
        requires in_range { index < length self.old }
        requires stamp { parts.stamp ≤ LAST_STAMP }
        requires field { parts.field ≤ LAST_TICK }
        ensures { self.new ≡ slice_set self.old index parts }
    {
        self.words[index] = pack(parts);
    }

    /// The deadline of a word that is live at a stamp.
    #[inline]
    pub fn live_at(&self, index: usize, stamp: u32) -> Option<u64>
        requires in_range { index < length self.now }
        requires stamp { stamp ≤ LAST_STAMP }
        ensures { MatchOption result
            ((d : ℕ) → word_at self.now index ≢ live stamp d)
            (λ d. (word_at self.now index ≡ live stamp d) × (d ≤ LAST_TICK)) }
    {
        live_at(self.words[index], stamp)
    }
}
