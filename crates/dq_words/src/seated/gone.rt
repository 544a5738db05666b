//! Callers that were given back, for contracts and proofs.
ghost use Rattle.std.specs.Prelude.{◌≡◌, ◌≤◌, true, false};
ghost use Rattle.dq_words.specs.AtTheCall.{IsGivenBack};
ghost use Rattle.dq_words.specs.Counts.{most_begins, cancels_in};
ghost use Rattle.dq_words.specs.Keeping.{Knew};

use crate::seated::Seated;
use crate::seated::rule::WordSeat;
use std::alloc::Allocator;
use std::marker::Model;

/// Shows that a caller was given back: the step is made that counts it as gone, and its cancels with it. To a contract
/// it is the caller's table and what the caller knew at last. It has no bytes.
#[derive(Drop)]
pub struct Gone {
    seat: WordSeat,
}

impl Model for Gone {
    ghost use Rattle.std.specs.Prelude.{◌≡◌, true};
    ghost use Rattle.dq_words.specs.Keeping.{Knew};
    ghost use Rattle.dq_words.specs.Seats.{Sat};

    ghost Value = { Sat };

    ghost view = { λ g. record { table = g.seat.table_id; view = g.seat.me.0.view } };

    ghost invariant = { λ g. (g.seat.me.0.view.gone ≡ true) × Knew g.seat.me.0.view };
}

impl Gone {
    /// What is known of every caller that was given back: between some two steps the rule of the words held with what
    /// it knows, so its return word counted it and its cancels.
    pub fn law(&self)
        ensures gone { self.now.view.gone ≡ true }
        ensures knew { Knew self.now.view }
    {
        let _ = &self.seat;
    }
}

impl<A: Allocator> Seated<A> {
    // Gives a caller's seat back, and keeps what shows it.
    pub(crate) fn leave(mut self, cancels: u64) -> Gone
        requires caller { (self.view.keeps ≡ false) × (self.view.gone ≡ false) }
        requires issued { self.view.passes ≡ false }
        requires cancels { cancels ≡ cancels_in self.view.calls }
        requires few { cancels ≤ most_begins }
        ensures { IsGivenBack self result }
    {
        self.give_back(cancels);
        let Seated {
            table: _,
            seat,
            rows: _,
        } = self;
        Gone { seat }
    }
}
