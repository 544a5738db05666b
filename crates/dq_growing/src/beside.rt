//! What is known of the words of a core and of one of theirs together.

ghost use Rattle.std.specs.Prelude.{◌≡◌};
ghost use Rattle.dq_core.specs.Core.{IsLawfulCore};
ghost use Rattle.dq_growing.specs.Cores.{EachOf};

use crate::cores::Cores;
use crate::store::SizedStore;
use dq_core::{BesideWords, Words};
use std::alloc::Allocator;

impl<T, W: Words, A: Allocator> Cores<T, W, A> {
    /// Tells what is known of the words of the core of that number and of one of theirs together, and what that core
    /// keeps. It tells nothing where no core has the number. Nothing changes.
    pub fn beside<C>(&mut self, number: u32, other: &mut C)
    where
        W: BesideWords<C>,
        requires { EachOf self.old number (λ c. W.sits c.words other.old) }
        ensures together { EachOf self.old number (λ c. W.together c.words other.old) }
        ensures lawful { EachOf self.old number
            (λ c. IsLawfulCore c × (c.known ≡ W.known c.words) × W.keeps c.words) }
        ensures same { (self.new ≡ self.old) × (other.new ≡ other.old) }
    {
        if let Some(at) = self.place_of(number) {
            self.cores[at].law();
            self.cores[at].beside(other);
        }
    }
}

impl<T, W: Words, A: Allocator + Clone> SizedStore<T, W, A> {
    /// Tells the same of its cores. Nothing changes.
    pub fn beside<C>(&mut self, number: u32, other: &mut C)
    where
        W: BesideWords<C>,
        requires { EachOf self.old.store.cores number (λ c. W.sits c.words other.old) }
        ensures together { EachOf self.old.store.cores number
            (λ c. W.together c.words other.old) }
        ensures lawful { EachOf self.old.store.cores number
            (λ c. IsLawfulCore c × (c.known ≡ W.known c.words) × W.keeps c.words) }
        ensures same { (self.new ≡ self.old) × (other.new ≡ other.old) }
    {
        self.store.cores.beside(number, other);
    }
}
