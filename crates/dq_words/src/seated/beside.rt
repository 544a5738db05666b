//! What two seats of a table know together.
ghost use Rattle.std.specs.Prelude.{◌≡◌, true};
ghost use Rattle.dq_words.specs.Places.{StoodApart, StoodWith};

use crate::seated::plays::{ApartLoad, Spend, Tell, ToldLoad};
use crate::seated::{OpenWords, Receipt, Seated};
use std::alloc::Allocator;

impl<A: Allocator> Seated<A> {
    // Tells the keeper's seat of the accepted calls of another seat of the table, so that what both know is known
    // together. Three loads, of which neither seat records any.
    pub(crate) fn beside(&mut self, other: &mut Seated<A>)
        requires keeper { self.old.view.keeps ≡ true }
        requires table { self.old.table ≡ other.old.table }
        ensures together { StoodWith self.old.view other.old.view.calls }
        ensures same { (self.new ≡ self.old) × (other.new ≡ other.old) }
    {
        let carrier = self.table.shared.split_seat::<Tell>(&mut other.seat);
        self.table.shared.join_seat::<Tell>(&mut self.seat, carrier);
        self.table
            .shared
            .load::<ToldLoad>(&mut self.seat, self.rows);
    }

    // The same of the seat of a call by open words.
    pub(crate) fn beside_receipt(&mut self, other: &mut Receipt)
        requires keeper { self.old.view.keeps ≡ true }
        requires table { self.old.table ≡ other.old.table }
        ensures together { StoodWith self.old.view other.old.view.calls }
        ensures same { (self.new ≡ self.old) × (other.new ≡ other.old) }
    {
        let carrier = self.table.shared.split_seat::<Tell>(&mut other.seat);
        self.table.shared.join_seat::<Tell>(&mut self.seat, carrier);
        self.table
            .shared
            .load::<ToldLoad>(&mut self.seat, self.rows);
    }
}

impl<A: Allocator> OpenWords<A> {
    // What the seats of two calls know together: one of them is given up, so they aren't the same. Three loads, of
    // which neither records any.
    pub(crate) fn tell(&self, one: &mut Receipt, other: Receipt)
        requires one { one.old.table ≡ self.now.table }
        requires other { other.table ≡ self.now.table }
        ensures together { StoodApart one.old.view other.view.calls }
        ensures same { one.new ≡ one.old }
    {
        let Receipt { mut seat } = other;
        let carrier = self.table.shared.split_seat::<Spend>(&mut seat);
        self.table.shared.join_seat::<Spend>(&mut one.seat, carrier);
        self.table
            .shared
            .load::<ApartLoad>(&mut one.seat, self.rows);
    }
}
