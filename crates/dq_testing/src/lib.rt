//! What tests of several crates use: an allocator that refuses, and a fixed generator.
#![tactic(auto)]

mod draws;
mod refusing_heap;

pub use draws::Draw;
pub use refusing_heap::RefusingHeap;
