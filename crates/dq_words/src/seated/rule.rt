//! The rule of the shared words.
ghost use Rattle.dq_words.specs.Places.{Placed, placed};
ghost use Rattle.dq_words.specs.Rule.{first_keeper};

use crate::views::Place;
use atomic_table::{Seat, Table, TableRule};

/// The rule that holds between any two steps of the keeper and its callers.
pub struct WordsRule;

impl TableRule<u64, Place, usize> for WordsRule {
    ghost holds = { Placed };

    ghost first = { λ rows. placed (first_keeper rows) };
}

/// A seat of a table of words.
pub type WordSeat = Seat<u64, Place>;

/// A table of words: one for each slot, and the return word behind them.
pub type WordTable<A> = Table<u64, Place, usize, WordsRule, A>;
