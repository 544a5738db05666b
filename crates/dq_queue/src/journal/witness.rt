//! A witness of a history.
ghost use Rattle.std.specs.Prelude.{◌≡◌, true, false, Some, IfOk, IfErr};
ghost use Rattle.dq_queue.specs.Views.{first_witness, new_witness, with_one_more, lent, left, taken};
ghost use Rattle.dq_queue.specs.Plays.{entering, IsFair};
ghost use Rattle.dq_queue.specs.Once.{IsUnderLock, IsWithNumber, EntersOnce, IsTold};

use crate::journal::rule::{Enter, JournalSeat, JournalTable, Learn, Open, Pass, Says};
use atomic_table::Table;
use std::alloc::{AllocError, Allocator, Global};
use std::marker::{Brand, Model};
use std::sync::Arc;

/// A witness of a history: the one under the lock, or a caller's.
#[derive(Drop)]
pub struct Witness<E, A: Allocator = Global> {
    table: Arc<JournalTable<E, A>, A>,
    seat: JournalSeat<E>,
}

impl<E, A: Allocator> Model for Witness<E, A> {
    ghost use Rattle.std.specs.Arc.{arc_value};
    ghost use Rattle.dq_queue.specs.Known.{Known, Sits};

    ghost Value = { Known E };

    ghost view = { λ w. record { table = w.seat.table_id; view = w.seat.me.0 } };

    ghost invariant = { λ w. Sits w.seat.table_id (arc_value w.table).shared.table_id };
}

impl<E, A: Allocator + Clone> Witness<E, A> {
    /// The witness under a lock, of a history with nothing in it.
    pub fn new(alloc: A) -> Result<Witness<E, A>, AllocError>
        ensures { IfOk result (λ w. w.view ≡ first_witness) }
    {
        let heap = alloc.clone()?;
        let (table, seat) = Table::of_words(alloc, &[0], &0)?;
        match Arc::new(heap, table) {
            Ok(table) => Ok(Witness { table, seat }),
            Err(_) => Err(AllocError),
        }
    }
}

impl<E, A: Allocator> Witness<E, A> {
    /// One caller more, by the witness under the lock.
    pub fn open(&mut self) -> Result<Witness<E, A>, AllocError>
        requires keeper { IsUnderLock self.old.view }
        ensures newcomer { IfOk result (λ c. (c.view ≡ new_witness self.old.view)
            × (c.table ≡ self.old.table)) }
        ensures one_more { IfOk result (λ _. self.new.view ≡ with_one_more self.old.view) }
        ensures refused { IfErr result (λ _. self.new.view ≡ self.old.view) }
        ensures table { self.new.table ≡ self.old.table }
    {
        let table = Arc::try_clone(&self.table)?;
        let seat = self.table.shared.split_seat::<Open>(&mut self.seat);
        Ok(Witness { table, seat })
    }

    // A caller's number and entries go to the witness under the lock. Two loads.
    fn take_from(&mut self, other: &mut Witness<E, A>)
        requires table { self.old.table ≡ other.old.table }
        requires free { self.old.view.holds ≡ false }
        ensures taken { self.new.view ≡ taken self.old.view (lent other.old.view) }
        ensures left { other.new.view ≡ left other.old.view }
        ensures tables { (self.new.table ≡ self.old.table) × (other.new.table ≡ other.old.table) }
    {
        let token = self.table.shared.split_seat::<Pass>(&mut other.seat);
        self.table.shared.join_seat::<Pass>(&mut self.seat, token);
    }

    // They go back to the caller, whose seat is another from then on: it has seen all of the history. One load.
    fn give_to(&mut self, caller: &mut Witness<E, A>)
        requires { self.old.table ≡ caller.old.table }
        ensures given { caller.new.view ≡ lent self.old.view }
        ensures left { self.new.view ≡ left self.old.view }
        ensures tables { (self.new.table ≡ self.old.table) × (caller.new.table ≡ caller.old.table) }
    {
        caller.seat = self.table.shared.split_seat::<Pass>(&mut self.seat);
    }

    // Enters `what`, by the number that is with the witness under the lock. One load.
    fn enter(&mut self, what: &E)
        requires keeper { self.old.view.keeps ≡ true }
        requires holds { self.old.view.holds ≡ true }
        ensures enters { self.new.view ≡ entering self.old.view (Some what.now) }
        ensures fair { IsFair self.old.view × IsFair self.new.view }
        ensures table { self.new.table ≡ self.old.table }
    {
        self.enter_said::<Brand>(what);
    }

    fn enter_said<P: Says<E>>(&mut self, what: &E)
        requires keeper { self.old.view.keeps ≡ true }
        requires holds { self.old.view.holds ≡ true }
        requires said { P.said ≡ Some what.now }
        ensures enters { self.new.view ≡ entering self.old.view (Some what.now) }
        ensures fair { IsFair self.old.view × IsFair self.new.view }
        ensures table { self.new.table ≡ self.old.table }
    {
        let _ = what;
        self.table.shared.load::<Enter<E, P>>(&mut self.seat, 0);
    }

    /// Enters `what` as what one call of a caller left, by the witness under the lock. The caller's then knows the
    /// whole history. Four loads.
    pub fn enter_for(&mut self, caller: &mut Witness<E, A>, what: &E)
        requires keeper { IsUnderLock self.old.view }
        requires caller { IsWithNumber caller.old.view }
        requires table { self.old.table ≡ caller.old.table }
        ensures once { EntersOnce self.old.view caller.old.view (Some what.now) caller.new.view }
        ensures log { self.new.view.log ≡ caller.new.view.log }
        ensures made { self.new.view.made ≡ self.old.view.made }
        ensures keeper { IsUnderLock self.new.view }
        ensures caller { IsWithNumber caller.new.view }
        ensures tables { (self.new.table ≡ self.old.table) × (caller.new.table ≡ caller.old.table) }
    {
        self.take_from(caller);
        self.enter(what);
        self.give_to(caller);
    }

    // The witness under the lock looks, with a caller's number. One load.
    fn look(&mut self)
        requires keeper { self.old.view.keeps ≡ true }
        requires holds { self.old.view.holds ≡ true }
        ensures fair { IsFair self.old.view }
        ensures same { self.new ≡ self.old }
    {
        self.table.shared.load::<Learn>(&mut self.seat, 0);
    }

    /// Tells a caller the whole history, by the witness under the lock. Four loads.
    pub fn tell(&mut self, caller: &mut Witness<E, A>)
        requires keeper { IsUnderLock self.old.view }
        requires caller { IsWithNumber caller.old.view }
        requires table { self.old.table ≡ caller.old.table }
        ensures told { IsTold self.old.view caller.old.view caller.new.view }
        ensures log { self.new.view.log ≡ self.old.view.log }
        ensures made { self.new.view.made ≡ self.old.view.made }
        ensures keeper { IsUnderLock self.new.view }
        ensures caller { IsWithNumber caller.new.view }
        ensures tables { (self.new.table ≡ self.old.table) × (caller.new.table ≡ caller.old.table) }
    {
        self.take_from(caller);
        self.look();
        self.give_to(caller);
    }
}
