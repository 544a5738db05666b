//! What the queue answers.

ghost use Rattle.std.specs.Prelude.{◌≤◌};

use dq_ticks::Key;

/// An entry that came out of a poll.
#[derive(Debug, Drop)]
pub struct Expired<T> {
    /// Its key of the present stamp.
    pub key: Key,
    /// Its deadline, a tick of one millisecond.
    pub deadline: u64,
    /// The greatest tick of one millisecond that was noted. The deadline isn't after it.
    pub noted: u64,
    /// Its value.
    pub value: T,
    pub ghost reached: { deadline ≤ noted },
}

/// What a sweep of some slots returns.
#[derive(Clone, Copy, Debug, PartialEq, Eq)]
pub struct Swept {
    /// How many cancelled entries it reaped.
    pub reaped: usize,
    /// The slot to go on from, none after the last.
    pub next: Option<usize>,
}

/// An entry that was taken out by a removal.
#[derive(Debug, Drop)]
pub struct Removed<T> {
    /// Its key of the present stamp.
    pub key: Key,
    /// The deadline that it had, a tick of one millisecond.
    pub deadline: u64,
    /// Its value.
    pub value: T,
}

/// What a poll returns.
#[derive(Debug, Drop)]
pub enum Turn<T> {
    /// An entry whose deadline is reached.
    Out(Expired<T>),
    /// No live entry is due: there is nothing to do before the tick `next`.
    Waiting {
        /// The next wake of the wheel, a tick of one millisecond.
        next: u64,
    },
    /// Nothing is linked.
    Idle,
}

/// What a poll in pieces returns.
#[derive(Debug, Drop)]
pub enum Piece<T> {
    /// The answer of the poll.
    Answer(Turn<T>),
    /// The call made all of its steps, and more may be left.
    Working,
}

/// How a step of a poll comes to a later tick.
#[derive(Clone, Copy)]
pub enum Pace {
    /// Slot by slot: each that starts is opened whole.
    Whole,
    /// To the start of a slot, which is left as it is.
    InPieces,
}

/// What a step of a poll came to.
#[derive(Drop)]
pub enum Progress<T> {
    /// An entry came out.
    Gave(Expired<T>),
    /// The queue went on.
    Went,
    /// None is due at the noted tick.
    Rests,
}

/// How many entries came and went.
#[derive(Clone, Copy, Debug, PartialEq, Eq)]
pub struct Tally {
    /// Inserts.
    pub inserted: u64,
    /// Entries that came out.
    pub expired: u64,
    /// Entries that were removed.
    pub removed: u64,
    /// Cancelled entries that were reaped.
    pub cancelled: u64,
    /// Entries that are linked.
    pub linked: u64,
    /// Moves from one level's slot to a lower level's slot, at most the greatest `u64`.
    pub moves: u64,
}
