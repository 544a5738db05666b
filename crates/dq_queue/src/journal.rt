//! The history of what lies under a lock, for contracts and proofs.
//!
//! Whoever changes the value under the lock enters what it is then. Each caller has a number and a [`Witness`] of its
//! own, which knows the entries of that number. So a caller that got the lock twice knows what it did there, how often,
//! and that the same value lay there both times.

mod rule;
pub mod views;
mod witness;

pub use witness::Witness;
