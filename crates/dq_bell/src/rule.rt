//! What the seats know, and the rule that holds between any two steps.
ghost use Rattle.dq_bell.specs.Views.{first_leader, dealing, dealt_hint};
ghost use Rattle.dq_bell.specs.Rule.{IsBell};
ghost use Rattle.dq_bell.specs.Plays.{lowers, asks, rings, arms, looks};

use atomic_table::{Play, Seat, Split, Table, TableRule};

/// What a seat knows. No value of it is made.
pub struct SeatView {
    /// It leads: nobody else does.
    pub leads: bool,
    /// The tick until which it said that it sleeps.
    pub until: u64,
    /// How many hints it has looked at since, none of them before that tick.
    pub seen: u64,
    /// It found a hint before that tick since.
    pub found: bool,
    /// How many places have somebody who writes their hint.
    pub dealt: u64,
    /// It writes the hint of a place.
    pub writes: bool,
    /// Which place.
    pub place: u64,
    /// The hint.
    pub hint: u64,
    /// It wrote the hint, and hasn't asked yet until when the leader sleeps.
    pub owes: bool,
    /// How often it rang the leader.
    pub rings: u64,
    /// Until when it heard that the leader sleeps, and 0 if it hasn't asked since it wrote the hint.
    pub heard: u64,
}

pub(crate) struct BellRule;

impl TableRule<u64, SeatView, usize> for BellRule {
    ghost holds = { IsBell };

    ghost first = { λ _. first_leader };
}

pub(crate) type BellSeat = Seat<u64, SeatView>;

pub(crate) type BellTable<A> = Table<u64, SeatView, usize, BellRule, A>;

// A hint is written.
pub(crate) struct Lowers;

impl Play<u64, SeatView> for Lowers {
    ghost then = { lowers };
}

// Who wrote a hint asks until when the leader sleeps.
pub(crate) struct Asks;

impl Play<u64, SeatView> for Asks {
    ghost then = { asks };
}

// The leader is rung.
pub(crate) struct Rings;

impl Play<u64, SeatView> for Rings {
    ghost then = { rings };
}

// The leader says until when it sleeps.
pub(crate) struct Arms;

impl Play<u64, SeatView> for Arms {
    ghost then = { arms };
}

// The leader looks at a hint.
pub(crate) struct Looks;

impl Play<u64, SeatView> for Looks {
    ghost then = { looks };
}

// One place more gets somebody who writes its hint.
pub(crate) struct Deals;

impl Split<SeatView> for Deals {
    ghost left = { dealing };

    ghost right = { dealt_hint };
}
