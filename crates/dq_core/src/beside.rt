//! Words and others who step on them, for contracts and proofs: what is known of both together.
ghost use Rattle.std.specs.Prelude.{◌≡◌};

use crate::queue::DelayCore;
use crate::words::Words;
use std::alloc::Allocator;

/// Words that tell what is known of them and of somebody else together: of a caller, or of what shows a call.
pub trait BesideWords<C>: Words {
    /// Whether the other is one of these words.
    ghost sits: { Self → C → Type 0 };

    /// What is known of the words and of the other together.
    ghost together: { Self → C → Type 0 };

    /// Tells what is known of the words and of one of theirs together. Nothing changes.
    fn beside(&mut self, other: &mut C)
        requires { sits self.old other.old }
        ensures together { together self.old other.old }
        ensures same { (self.new ≡ self.old) × (other.new ≡ other.old) };
}

impl<T, W: Words, A: Allocator> DelayCore<T, W, A> {
    /// Tells what is known of the queue's words and of one of theirs together. Nothing changes.
    pub fn beside<C>(&mut self, other: &mut C)
    where
        W: BesideWords<C>,
        requires { W.sits self.old.words other.old }
        ensures together { W.together self.old.words other.old }
        ensures same { (self.new ≡ self.old) × (other.new ≡ other.old) }
    {
        self.words.beside(other);
    }
}
