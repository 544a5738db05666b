//! What the seats of a table know. These types are for contracts and proofs: no value of them is made.

use std::collections::LinkedList;

/// An accepted call of a caller.
pub enum Call {
    /// Slot, stamp, and the deadline that was asked for.
    Extend(u64, u64, u64),
    /// Slot, stamp, and the deadline that was given up.
    Cancel(u64, u64, u64),
}

/// A write of the keeper.
pub enum Write {
    /// Slot, stamp, and the deadline that it was given with.
    Begin(u64, u64, u64),
    /// Slot, stamp, and the deadline at its end.
    Expired(u64, u64, u64),
    /// Slot, the stamp that ended, its deadline at that end, and the deadline that the next stamp was given with.
    Renewed(u64, u64, u64, u64),
    /// Slot, stamp, and the deadline at its end.
    Removed(u64, u64, u64),
}

/// The kinds of atomic step on a table.
pub enum StepKind {
    KeeperLoad,
    BeginStore,
    SettleExchange,
    RenewExchange,
    FinishExchange,
    /// Of the keeper, which found another word than it asked for.
    FailedExchange,
    CallerLoad,
    ExtendMax,
    CancelMax,
    GiveBackAdd,
    ReturnLoad,
}

/// What a seat knows. The lists begin with the newest.
pub struct View {
    /// The seat is the keeper's.
    pub keeps: bool,
    /// For each slot the word that the seat saw last.
    pub seen: LinkedList<u64>,
    /// The steps that the seat made.
    pub steps: LinkedList<StepKind>,
    /// A caller's accepted calls.
    pub calls: LinkedList<Call>,
    /// A caller that was given back.
    pub gone: bool,
    /// A passer: a seat that a load made for one call by open words, and that the keeper didn't issue.
    pub passes: bool,
    /// The keeper's writes.
    pub writes: LinkedList<Write>,
    /// The callers that the keeper issued.
    pub issued: u64,
    /// The return word that the keeper saw last.
    pub returns: u64,
    /// The cancelled words that the keeper overwrote by a begin.
    pub reaped: u64,
}

/// What stands at a place of the table.
pub struct Place {
    /// What a seat knows.
    pub view: View,
    /// It is no seat's own: it carries calls from one seat to another, or did.
    pub carries: bool,
    /// Accepted calls of another seat, as far as the seat was told of them.
    pub told: LinkedList<Call>,
    /// Its seat was given up, so that its calls are another's for good.
    pub spent: bool,
    /// Accepted calls of seats that were given up.
    pub apart: LinkedList<Call>,
}
