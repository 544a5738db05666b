//! The rule that holds between any two steps of the witnesses, and what each step tells.
ghost use Rattle.dq_queue.specs.Views.{first_witness, new_witness, with_one_more, lent, left, taken, nobody};
ghost use Rattle.dq_queue.specs.Rule.{HasOneHistory};
ghost use Rattle.dq_queue.specs.Plays.{entered, learned};

use crate::journal::views::View;
use atomic_table::{Join, Play, Seat, Split, Table, TableRule};
use std::marker::{Brand, PhantomData};

pub struct JournalRule;

impl<E> TableRule<u64, View<E>, u64> for JournalRule {
    ghost holds = { HasOneHistory };

    ghost first = { λ _. first_witness };
}

pub(crate) type JournalSeat<E> = Seat<u64, View<E>>;

pub(crate) type JournalTable<E, A> = Table<u64, View<E>, u64, JournalRule, A>;

/// What is entered: the proof of a call picks it.
pub trait Says<E> {
    ghost use Rattle.std.specs.Prelude.{Option};

    ghost said: { Option E };
}

impl<E> Says<E> for Brand {
    ghost use Rattle.std.specs.Prelude.{None};

    ghost said = { None };
}

// The witness under the lock enters what is said, by the number that is with it.
pub(crate) struct Enter<E, P: Says<E>> {
    of: PhantomData<(E, P)>,
}

impl<E, P: Says<E>> Play<u64, View<E>> for Enter<E, P> {
    ghost then = { entered P.said };
}

// It looks, with a caller's number.
pub(crate) struct Learn;

impl<E> Play<u64, View<E>> for Learn {
    ghost then = { learned };
}

// One caller more.
pub(crate) struct Open;

impl<E> Split<View<E>> for Open {
    ghost left = { with_one_more };

    ghost right = { new_witness };
}

// A number and its entries go from a caller to the witness under the lock, or back.
pub(crate) struct Pass;

impl<E> Split<View<E>> for Pass {
    ghost left = { left };

    ghost right = { lent };
}

impl<E> Join<View<E>> for Pass {
    ghost both = { taken };

    ghost spent = { nobody };
}
