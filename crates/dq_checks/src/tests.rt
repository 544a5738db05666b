//! The worked cases of the queue over plain words and over shared ones; whole scripts; laws that are called; refused
//! memory, and calls where no memory is left. The other tests of these parts are in plain Rust, in
//! `rust/hontkhale/src/tests`.

mod calls_memory;
mod cases;
mod growing;
mod laws;
mod makings;
mod queues;
mod scripts;
mod step;
mod worked;

use std::fmt::{Debug, Display};
use std::process::Abort;

// A call answers so. Else the test ends: it names the call and shows both.
fn same<T>(rt: &impl Abort, call: impl Display + Copy, answer: T, expected: T)
where
    T: PartialEq + Debug + Drop,
{
    assert_eq!(rt; answer, expected, "{call}");
}
