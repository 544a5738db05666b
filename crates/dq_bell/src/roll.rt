//! Who is in line, by index: O(1) to join, to leave and to hand the lead over.
//!
//! Each index stands at one place, and those at the first places are in line (the sparse set of Briggs and Torczon,
//! 1993). Who leaves changes places with the last in line. So no call searches, none but a join takes memory, and the
//! first stays first until it leaves.
ghost use Rattle.std.specs.Prelude.{◌≡◌, ◌≢◌, ℕ, ◌+◌, ◌<◌, ◌≤◌, length, slice_index, IfOk, IfErr, Option, None, Some, true, false};
ghost use Rattle.dq_bell.specs.Rolls.{IsRoll, StandsInLine, first_in, GrowsByOne, JoinsAs, LeavesRoll, HasExchanged, MakesFirst, HandsLead};

use std::alloc::{AllocError, Allocator, Global};
use std::marker::Model;

/// Indexes, some of which are in line.
#[derive(Drop)]
pub(crate) struct Roll<A: Allocator = Global> {
    /// The index that stands at each place.
    indexes: Vec<usize, A>,
    /// The place of each index.
    places: Vec<usize, A>,
    /// How many are in line.
    count: usize,
}

impl<A: Allocator> Model for Roll<A> {
    ghost use Rattle.dq_bell.specs.Rolls.{RollState, IsRoll};

    ghost Value = { RollState };

    ghost view = { λ r. record { indexes = r.indexes.items; places = r.places.items; count = r.count } };

    ghost invariant = { λ r. IsRoll r.indexes.items r.places.items r.count };
}

// Two places exchange their indexes.
fn exchange(indexes: &mut [usize], places: &mut [usize], one: usize, other: usize)
    requires roll { IsRoll indexes.old places.old 0 }
    requires one_in { one < length indexes.old }
    requires other_in { other < length indexes.old }
    ensures roll { IsRoll indexes.new places.new 0 }
    ensures exchanged { HasExchanged indexes.old places.old one other indexes.new places.new }
{
    let index_of_one = indexes[one];
    let index_of_other = indexes[other];
    indexes[one] = index_of_other;
    indexes[other] = index_of_one;
    places[index_of_one] = other;
    places[index_of_other] = one;
}

impl<A: Allocator> Roll<A> {
    /// Nobody is in line.
    pub fn new(indexes: Vec<usize, A>, places: Vec<usize, A>) -> Roll<A>
        requires { (length indexes.items ≡ 0) × (length places.items ≡ 0) }
        ensures { (result.count ≡ 0) × (length result.places ≡ 0) }
    {
        Roll {
            indexes,
            places,
            count: 0,
        }
    }

    /// How many indexes there are.
    pub fn len(&self) -> usize
        ensures { result ≡ length self.now.places }
    {
        self.places.len()
    }

    /// Whether an index is in line.
    pub fn is_in_line(&self, index: usize) -> bool
        ensures yes { result ≡ true → StandsInLine self.now index }
        ensures no { result ≡ false → ¬ StandsInLine self.now index }
    {
        index < self.places.len() && self.places[index] < self.count
    }

    /// The first in line.
    pub fn first(&self) -> Option<usize>
        ensures { result ≡ first_in self.now }
    {
        if self.count == 0 {
            return None;
        }
        Some(self.indexes[0])
    }

    /// Whether an index is the first in line.
    pub fn is_first(&self, index: usize) -> bool
        ensures yes { result ≡ true → first_in self.now ≡ Some index }
        ensures no { result ≡ false → first_in self.now ≢ Some index }
    {
        self.count != 0 && self.indexes[0] == index
    }

    /// Whether there is an index that isn't in line.
    pub fn has_free(&self) -> bool
        ensures yes { result ≡ true → self.now.count < length self.now.places }
        ensures no { result ≡ false → length self.now.places ≤ self.now.count }
    {
        self.count < self.places.len()
    }

    /// One index more, which isn't in line.
    pub fn grow(&mut self) -> Result<(), AllocError>
        ensures grown { IfOk result (λ _. GrowsByOne self.old self.new) }
        ensures refused { IfErr result (λ _. self.new ≡ self.old) }
    {
        let index = self.places.len();
        self.indexes.push(index)?;
        if self.places.push(index).is_err() {
            self.indexes.pop();
            return Err(AllocError);
        }
        Ok(())
    }

    /// A free index joins the line.
    pub fn join(&mut self) -> usize
        requires { self.old.count < length self.old.places }
        ensures { JoinsAs self.old result self.new }
    {
        let index = self.indexes[self.count];
        self.count += 1;
        index
    }

    /// An index leaves the line. Where it is the first, the last in line is the first from then on.
    pub fn leave(&mut self, index: usize)
        requires { StandsInLine self.old index }
        ensures { LeavesRoll self.old index self.new }
    {
        let place = self.places[index];
        let last = self.count - 1;
        exchange(&mut self.indexes, &mut self.places, place, last);
        self.count = last;
    }

    // The first and an index behind it exchange their places: that one is the first.
    fn exchange_first(&mut self, index: usize, first: usize)
        requires first { first_in self.old ≡ Some first }
        requires behind { StandsInLine self.old index }
        requires other { first ≢ index }
        ensures { MakesFirst self.old index self.new }
    {
        let place = self.places[index];
        exchange(&mut self.indexes, &mut self.places, 0, place);
    }

    /// The first leaves the line, and an index that stands behind it is the first from then on.
    pub fn hand_lead(&mut self, index: usize, first: usize)
        requires first { first_in self.old ≡ Some first }
        requires behind { StandsInLine self.old index }
        requires other { first ≢ index }
        ensures { HandsLead self.old index first self.new }
    {
        self.exchange_first(index, first);
        self.leave(first);
    }
}
