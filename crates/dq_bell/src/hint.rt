//! A place's hint: who writes it, who reads it, and whom that rings.
ghost use Rattle.std.specs.Prelude.{◌≡◌, ℕ, ◌+◌, ◌<◌, ◌≤◌, true, false, IfSome};
ghost use Rattle.dq_bell.specs.Seats.{SamePlace, RungOnce, is_leader_rung};

use crate::APART;
use crate::rule::{Asks, BellSeat, BellTable, Lowers, Rings};
use std::alloc::{Allocator, Global};
use std::marker::Model;
use std::sync::Arc;

/// Whom a call has rung that may have lowered a hint. Who has it wakes the leader, where it was.
///
/// In Rattle it can't be dropped: who has it looks at it.
#[must_use = "the leader sleeps on until it is woken"]
pub enum Rung {
    /// The leader doesn't sleep beyond the hint, or was rung before.
    Nobody,
    /// The leader sleeps beyond the hint. From here on it counts as rung, and whoever has this wakes it.
    Leader,
}

impl Rung {
    /// Whether the leader is to be woken.
    pub fn is_leader(self) -> bool
        ensures { result ≡ is_leader_rung self }
    {
        match self {
            Rung::Nobody => false,
            Rung::Leader => true,
        }
    }
}

/// The hint of one place: nothing is due there before it. It lies under the place's lock, and nobody else writes it.
///
/// Between its calls it owes nothing: whoever slept beyond the hint was rung.
#[derive(Drop)]
pub struct Hint<A: Allocator = Global> {
    pub(crate) table: Arc<BellTable<A>, A>,
    pub(crate) seat: BellSeat,
    pub(crate) places: usize,
    pub(crate) place: usize,
    pub(crate) tick: u64,
}

impl<A: Allocator> Model for Hint<A> {
    ghost use Rattle.std.specs.Prelude.{◌≡◌, false, ◌<◌};
    ghost use Rattle.std.specs.Arc.{arc_value};
    ghost use Rattle.dq_bell.specs.Seats.{HintSeat, IsSeatOf};
    ghost use Rattle.dq_bell.specs.Views.{writing};

    ghost Value = { HintSeat };

    ghost view = { λ s. record {
      table = s.seat.table_id;
      places = s.places;
      place = s.place;
      tick = s.tick;
      rings = s.seat.me.0.rings;
      heard = s.seat.me.0.heard;
    } };

    ghost invariant = { λ s.
        IsSeatOf s.seat.table_id (arc_value s.table).shared.table_id (arc_value s.table).shared.key s.places
        × (s.seat.me.0 ≡ writing s.place s.tick false s.seat.me.0.rings s.seat.me.0.heard) × (s.place < s.places) };
}

impl<A: Allocator> Hint<A> {
    /// The hint.
    #[inline(always)]
    pub fn tick(&self) -> u64
        ensures { result ≡ self.now.tick }
    {
        self.tick
    }

    /// Writes the hint, and then asks until when the leader sleeps. Rings it exactly where that is beyond the hint.
    #[inline]
    pub fn set(&mut self, tick: u64) -> Rung
        ensures written { self.new.tick ≡ tick }
        ensures rung { RungOnce self.old self.new result }
        ensures place { SamePlace self.old self.new }
    {
        self.table
            .shared
            .store::<Lowers>(&mut self.seat, (self.place + 1) * APART, tick);
        self.tick = tick;
        let until = self.table.shared.load::<Asks>(&mut self.seat, 0);
        if until <= tick {
            return Rung::Nobody;
        }
        self.table.shared.store::<Rings>(&mut self.seat, 0, 0);
        Rung::Leader
    }
}

/// The hints of all places, for any thread.
///
/// A hint may have changed by the time at which it is known, and nothing that is proved depends on what is found:
/// whoever finds that something is due takes the place's lock, and the leader looks at all hints before it sleeps.
#[derive(Drop)]
pub struct Hints<A: Allocator = Global> {
    pub(crate) table: Arc<BellTable<A>, A>,
    pub(crate) places: usize,
}

impl<A: Allocator> Model for Hints<A> {
    ghost use Rattle.std.specs.Prelude.{◌≡◌, ℕ, ◌+◌, ◌*◌, ◌<◌};
    ghost use Rattle.std.specs.Arc.{arc_value};

    ghost Value = { ℕ };

    ghost view = { λ h. h.places };

    ghost invariant = { λ h.
        ((arc_value h.table).shared.table_id.words ≡ h.places * 16 + 1) × (h.places < 65536) };
}

impl<A: Allocator> Hints<A> {
    /// The hint of a place, as it is at this moment.
    #[inline(always)]
    pub fn tick(&self, place: usize) -> u64
        requires { place < self.now }
    {
        self.table.shared.peek((place + 1) * APART)
    }

    /// The first of the places from one on that have the least hint, where that is before a tick.
    #[inline(always)]
    pub fn first_before(&self, from: usize, tick: u64) -> Option<usize>
        ensures { IfSome result (λ place. (from ≤ place) × (place < self.now)) }
    {
        let (mut least, mut first) = (tick, None);
        for place in from..self.places {
            let hint = self.tick(place);
            if hint < least {
                least = hint;
                first = Some(place);
            }
        }
        first
    }
}
