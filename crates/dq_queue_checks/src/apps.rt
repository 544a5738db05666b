//! The expiring cache and idle sessions: the worked rows, and refused memory.

mod calls;
mod memo_memory;
mod memory;
mod refresh_memory;
mod refusing;
mod rows;
mod sessions_memory;

use crate::same;
