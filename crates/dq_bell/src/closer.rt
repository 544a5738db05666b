//! Who closes a bell.
ghost use Rattle.std.specs.Prelude.{◌≡◌, true, false};
ghost use Rattle.dq_bell.specs.Seats.{SamePlace, RungOnce};
ghost use Rattle.dq_bell.specs.declared.TheConstants.{NEVER};

use crate::hint::{Hint, Rung};
use std::alloc::{Allocator, Global};
use std::marker::Model;

/// Who closes a bell: a place at which nothing is ever due, until something is at once and for good.
///
/// Once it has closed, nobody sleeps at the bell.
#[derive(Drop)]
pub struct Closer<A: Allocator = Global> {
    hint: Hint<A>,
    is_closed: bool,
}

impl<A: Allocator> Model for Closer<A> {
    ghost use Rattle.dq_bell.specs.Seats.{CloserSeat, IsHintOfCloser};

    ghost Value = { CloserSeat };

    ghost view = { λ c. record { hint = c.hint; is_closed = c.is_closed } };

    ghost invariant = { λ c. IsHintOfCloser c.is_closed c.hint.tick };
}

impl<A: Allocator> Closer<A> {
    /// Who closes the bell of that hint.
    pub fn new(hint: Hint<A>) -> Closer<A>
        requires { hint.tick ≡ NEVER }
        ensures open { result.is_closed ≡ false }
        ensures hint { result.hint ≡ hint }
    {
        Closer {
            hint,
            is_closed: false,
        }
    }

    /// Whether it has closed.
    pub fn is_closed(&self) -> bool
        ensures { result ≡ self.now.is_closed }
    {
        self.is_closed
    }

    /// Once it has closed, the hint is 0.
    pub fn law(&self)
        ensures { self.now.is_closed ≡ true → self.now.hint.tick ≡ 0 }
    {
        let _ = &self.hint;
    }

    /// Closes for good, and rings the leader exactly where it sleeps.
    pub fn close(&mut self) -> Rung
        ensures closed { self.new.is_closed ≡ true }
        ensures rung { RungOnce self.old.hint self.new.hint result }
        ensures place { SamePlace self.old.hint self.new.hint }
    {
        self.is_closed = true;
        self.hint.set(0)
    }
}
