//! Tests of the queues that many threads share: of the locked shards and their handles, of the stream of a shard's
//! expired entries, of the cache and the sessions over them, of the directory, and of the bell by which receivers are
//! woken. They stand in a crate of their own, since a crate is proved once more with its tests, and in one, since each
//! crate of tests costs the gate.
#![tactic(auto)]

#[cfg(test)]
mod apps;
#[cfg(test)]
mod bell;
#[cfg(test)]
mod directory;
#[cfg(test)]
mod shards;
#[cfg(test)]
mod stream;

#[cfg(test)]
use std::fmt::{Debug, Display};
#[cfg(test)]
use std::process::Abort;

// A call answers so. Else the test ends: it names the call and shows both.
#[cfg(test)]
fn same<T>(rt: &impl Abort, call: impl Display + Copy, answer: T, expected: T)
where
    T: PartialEq + Debug + Drop,
{
    assert_eq!(rt; answer, expected, "{call}");
}
