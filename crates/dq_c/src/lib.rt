//! The proved queue for C: a function for each call, over handles that C holds.
//!
//! Each call answers a code and two numbers. Its contract says again what the contract of the call below it says, of
//! the queue or the caller that the handle holds, and that an empty handle is refused and nothing is changed then.
#![tactic(auto)]

pub mod answers;
pub mod callers;
pub mod handle;
pub mod issuing;
pub mod keys;
pub mod making;
pub mod many;
pub mod owner;
pub mod readers;
pub mod renewing;
