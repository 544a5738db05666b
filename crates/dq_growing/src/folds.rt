//! Folded cores, which keep their words until a core of their size is wanted again.

ghost use Rattle.std.specs.Prelude.{◌≡◌, ◌≢◌, ◌++◌, ◌∷◌, ℕ, [], IfErr, IfSome, IfNone, OnOk, length};
ghost use Rattle.dq_core.specs.Folds.{FoldedCore};
ghost use Rattle.dq_growing.specs.Sizing.{GivesFolded, IsFoldedAt, NoneFoldedOf};

use dq_core::{Folded, Words};
use std::alloc::{Allocator, Global};
use std::marker::Model;

/// Cores that are folded.
#[derive(Drop)]
pub struct Folds<W: Words, A: Allocator = Global> {
    folded: Vec<Folded<W>, A>,
}

impl<W: Words, A: Allocator> Model for Folds<W, A> {
    ghost use Rattle.std.specs.Prelude.{List};
    ghost use Rattle.dq_core.specs.Folds.{FoldedCore};

    ghost Value = { List (FoldedCore W) };

    ghost view = { λ f. f.folded.items };
}

impl<W: Words, A: Allocator> Folds<W, A> {
    /// None yet.
    pub fn new(alloc: A) -> Folds<W, A>
        ensures { result ≡ [] }
    {
        Folds {
            folded: Vec::new(alloc),
        }
    }

    /// Keeps a folded core.
    ///
    /// # Errors
    /// It comes back, and nothing changes, if memory is refused.
    pub fn keep(&mut self, folded: Folded<W>) -> Result<(), Folded<W>>
        ensures keeps { OnOk result (self.new ≡ self.old ++ folded ∷ []) }
        ensures refused { IfErr result (λ back. (back ≡ folded) × (self.new ≡ self.old)) }
    {
        if self.folded.reserve(1).is_err() {
            return Err(folded);
        }
        self.folded.push_reserved(folded);
        Ok(())
    }

    // The place of a folded core of that many slots.
    fn place_of(&self, capacity: usize) -> Option<usize>
        ensures found { IfSome result (λ i. (f : FoldedCore W) × IsFoldedAt self.now i capacity f) }
        ensures none { IfNone result (NoneFoldedOf self.now capacity) }
    {
        for at in 0..self.folded.len() {
            if self.folded[at].capacity() == capacity {
                return Some(at);
            }
        }
        None
    }

    /// Takes out a folded core of that many slots, none where there is no such one.
    pub fn take(&mut self, capacity: usize) -> Option<Folded<W>>
        ensures gives { IfSome result (λ f. GivesFolded self.old capacity f self.new) }
        ensures none { IfNone result (NoneFoldedOf self.old capacity × (self.new ≡ self.old)) }
    {
        let Some(at) = self.place_of(capacity) else {
            return None;
        };
        let folded = self.folded.remove(at);
        Some(folded)
    }
}
