//! Owning handles of a queue and of a caller, each a pointer that C may hold.
//!
//! C can't hold a `Box`. So a handle has the pointer of one and whether there is one, and to a contract it is an
//! option: a handle that was freed is empty, and a call refuses it by name without a look behind its pointer.

mod caller;
pub mod heap_handle;
mod queue;

pub use caller::{CallerHandle, Seat};
pub use queue::{Queue, QueueHandle};

fn crosses<T: Send>() {}

/// Either handle may go to another thread.
pub fn handles_cross() {
    crosses::<QueueHandle>();
    crosses::<CallerHandle>();
}
