//! One of those that wait leads: it sleeps until the next deadline.
ghost use Rattle.std.specs.Prelude.{◌≡◌, ℕ, ◌+◌, ◌<◌, ◌≤◌, true, false, IfOk, IfErr, length};
ghost use Rattle.dq_bell.specs.Seats.{AtSameBell, DealsHint, IsFreshLeader, SeesOneMore, FindsEarlier};
ghost use Rattle.dq_bell.specs.declared.TheConstants.{NEVER};

use crate::hint::{Hint, Hints};
use crate::rule::{Arms, BellSeat, BellTable, Deals, Looks};
use crate::{APART, NEVER};
use atomic_table::Table;
use std::alloc::{AllocError, Allocator, Global};
use std::marker::Model;
use std::sync::Arc;

/// The lead of a bell. There is one of each bell, and who has it leads.
///
/// It can't be dropped: who leaves hands it on, or ends the bell.
pub struct Leader<A: Allocator = Global> {
    table: Arc<BellTable<A>, A>,
    seat: BellSeat,
    places: usize,
    dealt: usize,
}

impl<A: Allocator> Model for Leader<A> {
    ghost use Rattle.std.specs.Prelude.{◌≡◌, ◌≤◌};
    ghost use Rattle.std.specs.Arc.{arc_value};
    ghost use Rattle.dq_bell.specs.Seats.{LeaderSeat, IsSeatOf};
    ghost use Rattle.dq_bell.specs.Views.{leading};

    ghost Value = { LeaderSeat };

    ghost view = { λ s. record {
      table = s.seat.table_id;
      places = s.places;
      until = s.seat.me.0.until;
      seen = s.seat.me.0.seen;
      found = s.seat.me.0.found;
      dealt = s.dealt;
    } };

    ghost invariant = { λ s.
        IsSeatOf s.seat.table_id (arc_value s.table).shared.table_id (arc_value s.table).shared.key s.places
        × (s.seat.me.0 ≡ leading s.seat.me.0.until s.seat.me.0.seen s.seat.me.0.found s.dealt)
        × (s.dealt ≤ s.places) };
}

impl<A: Allocator + Clone> Leader<A> {
    /// A bell for at most so many places, with its lead. None of the places has a hint yet.
    ///
    /// # Errors
    ///
    /// `AllocError` where memory is refused.
    pub fn new(alloc: A, places: usize) -> Result<Leader<A>, AllocError>
        requires { places < 65536 }
        ensures { IfOk result (IsFreshLeader places) }
    {
        let heap = alloc.clone()?;
        let mut words = vec![in &heap; NEVER; places * APART + 1]?;
        words[0] = 0;
        let (table, seat) = Table::of_words(alloc, words.as_slice(), &places)?;
        drop(words);
        match Arc::new(heap, table) {
            Ok(table) => Ok(Leader {
                table,
                seat,
                places,
                dealt: 0,
            }),
            Err(_) => Err(AllocError),
        }
    }
}

impl<A: Allocator> Leader<A> {
    /// The hint of one place more, while other places' hints are written and somebody sleeps.
    ///
    /// # Errors
    ///
    /// `AllocError` where memory is refused.
    pub fn add_place(&mut self) -> Result<Hint<A>, AllocError>
        requires { self.old.dealt < self.old.places }
        ensures dealt { IfOk result (λ h. DealsHint self.old self.new h) }
        ensures refused { IfErr result (λ _. self.new ≡ self.old) }
    {
        let table = Arc::try_clone(&self.table)?;
        let seat = self.table.shared.split_seat::<Deals>(&mut self.seat);
        let place = self.dealt;
        self.dealt += 1;
        Ok(Hint {
            table,
            seat,
            places: self.places,
            place,
            tick: NEVER,
        })
    }

    /// The hints of all places, for whoever holds no lock.
    ///
    /// # Errors
    ///
    /// `AllocError` where memory is refused.
    pub fn hints(&self) -> Result<Hints<A>, AllocError>
        ensures { IfOk result (λ h. h ≡ self.now.places) }
    {
        Ok(Hints {
            table: Arc::try_clone(&self.table)?,
            places: self.places,
        })
    }

    // Says until when it sleeps. No hint was looked at since.
    fn arm(&mut self, until: u64)
        ensures armed { (self.new.until ≡ until) × (self.new.seen ≡ 0) × (self.new.found ≡ false) }
        ensures same { AtSameBell self.old self.new }
    {
        self.table.shared.store::<Arms>(&mut self.seat, 0, until);
    }

    // Looks at the next hint. It counts where it isn't before the tick until which the leader sleeps.
    fn look(&mut self, at: usize) -> u64
        requires next { at ≡ self.old.seen }
        requires inside { at < self.old.places }
        ensures seen { self.old.until ≤ result → SeesOneMore self.old self.new }
        ensures found { result < self.old.until → FindsEarlier self.old self.new }
    {
        let found = self
            .table
            .shared
            .load::<Looks>(&mut self.seat, (at + 1) * APART);
        found
    }

    /// Says until when it sleeps, and looks at all hints. True where it may sleep: no hint is before that tick.
    pub fn may_sleep(&mut self, until: u64) -> bool
        ensures sleeps { result ≡ true → (self.new.until ≡ until) × (self.new.seen ≡ self.new.places) }
        ensures wakes { result ≡ false → self.new.found ≡ true }
        ensures same { AtSameBell self.old self.new }
    {
        self.arm(until);
        let places = self.places;
        for at in 0..places {
            if self.look(at) < until {
                return false;
            }
        }
        true
    }

    /// Says that it doesn't sleep: nobody rings it.
    pub fn rise(&mut self)
        ensures awake { self.new.until ≡ 0 }
        ensures same { AtSameBell self.old self.new }
    {
        self.arm(0);
    }

    /// Ends the lead: nobody sleeps at the bell from here on. Its hints stay.
    pub fn end(self) {
        let Leader {
            table,
            seat,
            places: _,
            dealt: _,
        } = self;
        drop(seat);
        drop(table);
    }
}
