//! What the witnesses of a history know. These types are for contracts and proofs: no value of them is made.

use std::collections::LinkedList;

/// What a call left, and whose call it was.
pub struct Entry<E> {
    /// The number of its caller.
    pub by: u64,
    /// What it left.
    pub left: Option<E>,
}

/// What a witness knows. The lists begin with the newest.
pub struct View<E> {
    /// It lies under the lock.
    pub keeps: bool,
    /// How many callers were made: the one under the lock knows it.
    pub made: u64,
    /// A caller's number and entries are with this witness.
    pub holds: bool,
    /// That number.
    pub number: u64,
    /// The entries of that number.
    pub mine: LinkedList<Entry<E>>,
    /// The history, as far as it was seen.
    pub log: LinkedList<Entry<E>>,
    /// The history, as far as another witness told of it.
    pub told: LinkedList<Entry<E>>,
}
