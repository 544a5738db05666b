//! What each step on the table tells the seat that makes it.
ghost use Rattle.std.specs.Prelude.{[]};
ghost use Rattle.dq_words.specs.Places.{InPlace, standing, placed, carrier, carried, hearing, told_loaded};
ghost use Rattle.dq_words.specs.Places.{apart_loaded, parted, spending, taking};
ghost use Rattle.dq_words.specs.OpenCalls.{passer_loaded, passer_extended, passer_cancelled};
ghost use Rattle.dq_words.specs.Plays.{Knowing, caller_loaded, keeper_loaded, extend_made};
ghost use Rattle.dq_words.specs.Plays.{cancel_made, begin_made, exchange_made, settling, renewing};
ghost use Rattle.dq_words.specs.Plays.{finishing, issuing, newcomer, give_back_made, return_loaded};

use crate::views::Place;
use atomic_table::{Join, Play, Split};

pub(crate) struct CallerLoad;

impl Play<u64, Place> for CallerLoad {
    ghost then = { InPlace (Knowing caller_loaded) };
}

pub(crate) struct KeeperLoad;

impl Play<u64, Place> for KeeperLoad {
    ghost then = { InPlace (Knowing keeper_loaded) };
}

pub(crate) struct Extend;

impl Play<u64, Place> for Extend {
    ghost then = { InPlace (Knowing extend_made) };
}

// A load that makes the seat of a passer.
pub(crate) struct Pass;

impl Play<u64, Place> for Pass {
    ghost then = { passer_loaded };
}

// A passer's cancel.
pub(crate) struct PassCancel;

impl Play<u64, Place> for PassCancel {
    ghost then = { InPlace passer_cancelled };
}

// A passer's extend.
pub(crate) struct PassExtend;

impl Play<u64, Place> for PassExtend {
    ghost then = { InPlace passer_extended };
}

pub(crate) struct Cancel;

impl Play<u64, Place> for Cancel {
    ghost then = { InPlace (Knowing cancel_made) };
}

pub(crate) struct Begin;

impl Play<u64, Place> for Begin {
    ghost then = { InPlace (Knowing begin_made) };
}

pub(crate) struct Settle;

impl Play<u64, Place> for Settle {
    ghost then = { InPlace (Knowing (exchange_made settling)) };
}

pub(crate) struct Renew;

impl Play<u64, Place> for Renew {
    ghost then = { InPlace (Knowing (exchange_made renewing)) };
}

pub(crate) struct Finish;

impl Play<u64, Place> for Finish {
    ghost then = { InPlace (Knowing (exchange_made finishing)) };
}

pub(crate) struct Issue;

impl Split<Place> for Issue {
    ghost left = { λ p. standing p (issuing p.view) };

    ghost right = { λ p. placed (newcomer p.view) };
}

// A caller that is given back.
pub(crate) struct GiveBack;

impl Play<u64, Place> for GiveBack {
    ghost then = { InPlace (Knowing give_back_made) };
}

// The keeper's load of the return word.
pub(crate) struct ReturnLoad;

impl Play<u64, Place> for ReturnLoad {
    ghost then = { InPlace (Knowing return_loaded) };
}

// The keeper's load that tells it what it and another seat know together.
pub(crate) struct ToldLoad;

impl Play<u64, Place> for ToldLoad {
    ghost then = { told_loaded };
}

// A seat's load that tells it what it and a seat that was given up know together.
pub(crate) struct ApartLoad;

impl Play<u64, Place> for ApartLoad {
    ghost then = { apart_loaded };
}

// A seat's calls go to another seat.
pub(crate) struct Tell;

impl Split<Place> for Tell {
    ghost left = { λ p. p };

    ghost right = { carried };
}

impl Join<Place> for Tell {
    ghost both = { hearing };

    ghost spent = { carrier [] };
}

// A seat is given up, and its calls go to another seat.
pub(crate) struct Spend;

impl Split<Place> for Spend {
    ghost left = { spending };

    ghost right = { parted };
}

impl Join<Place> for Spend {
    ghost both = { taking };

    ghost spent = { carrier [] };
}
