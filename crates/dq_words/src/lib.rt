//! Words shared without a lock: the keeper and its callers.
//!
//! Each slot of a queue has one word of 64 bits, which says how its entry stands: its stamp, its mark and a deadline.
//! The [`Keeper`] belongs to the queue's owner and begins and ends entries. Up to 1,024 [`Caller`]s, each in a thread
//! of its own, extend and cancel entries by one atomic step on that word, whatever the owner does meanwhile. So does
//! any thread that has a `&` to its [`OpenWords`], with no caller.
//!
//! The module `directory` has things by numbers, which any thread finds without a lock too.
#![tactic(auto)]

mod beside;
mod caller;
pub mod directory;
pub mod endings;
mod front;
mod keeper;
mod many;
mod open;
mod seated;
mod shards;
pub mod views;

pub use caller::Caller;
pub use front::{numbered_queue, shared_queue};
pub use keeper::{HANDLE_LIMIT, Keeper, WordsError};
pub use many::{ManyTurn, poll_into};
pub use seated::{Gone, OpenWords, Receipt};
pub use shards::locked_shards;
