//! The calls of a cache of letters, each with what it has to answer, and the loop that makes the calls of a table.

use super::same;
use dq_apps::TtlCache;
use dq_core::CoreError;
use std::alloc::Global;
use std::process::Abort;
use std::test::Fail;

/// A cache whose keys are letters.
pub type Letters = TtlCache<char, u32>;

/// A call, and what it has to answer.
#[derive(Clone, Copy)]
pub enum Call {
    /// Key, value, time to live and tick: the value that was there, or why key and value come back.
    Put(char, u32, u64, u64, Result<Option<u32>, CoreError>),
    /// Key, time to live and tick: the deadline.
    Renew(char, u64, u64, Result<u64, CoreError>),
    /// Key and tick: the value that leaves.
    Take(char, u64, Option<u32>),
    /// Up to a tick: how many keys are dropped.
    Purge(u64, Result<usize, CoreError>),
    /// Key and tick: the value that is seen.
    Get(char, u64, Option<u32>),
    Len(usize),
    Moment(u64),
    NextDeadline(Option<u64>),
}

use Call::{Get, Len, Moment, NextDeadline, Purge, Put, Renew, Take};

// A value, and whether there is one.
fn get(cache: &Letters, key: char, now: u64) -> (Option<u32>, bool) {
    (cache.get(&key, now).copied(), cache.contains(&key, now))
}

// What a reader tells, at that number of a table.
fn tells(rt: &impl Abort, cache: &Letters, number: usize, call: Call) {
    match call {
        Get(key, now, value) => same(rt, number, get(cache, key, now), (value, value.is_some())),
        Len(len) => same(rt, number, (cache.len(), cache.is_empty()), (len, len == 0)),
        Moment(moment) => same(rt, number, cache.moment(), moment),
        NextDeadline(deadline) => same(rt, number, cache.next_deadline(), deadline),
        _ => same(rt, number, "a call", "a reader"),
    }
}

// A put, which hands key and value back where it is refused.
fn puts(rt: &impl Abort, cache: &mut Letters, number: usize, call: Call) {
    let (answer, key, value, expected) = match call {
        Put(key, value, ttl, now, expected) => {
            (cache.put(key, value, ttl, now), key, value, expected)
        }
        _ => return tells(rt, cache, number, call),
    };
    same(
        rt,
        number,
        answer,
        expected.map_err(|error| (error, key, value)),
    );
}

/// The call at that number of a table answers as it has to.
pub fn answers(rt: &impl Abort, cache: &mut Letters, number: usize, call: Call) {
    match call {
        Renew(key, ttl, now, answer) => same(rt, number, cache.renew(&key, ttl, now), answer),
        Take(key, now, value) => same(rt, number, cache.take(&key, now), value),
        Purge(now, answer) => same(rt, number, cache.purge(now), answer),
        _ => puts(rt, cache, number, call),
    }
}

/// Each call of a table answers as it has to.
pub fn each_answers(rt: &impl Abort, cache: &mut Letters, calls: &[Call]) {
    for (number, call) in calls.iter().enumerate() {
        answers(rt, cache, number, *call);
    }
}

/// Likewise, of a fresh cache of that capacity and last stamp.
pub fn plays_up_to(
    rt: &impl Abort,
    alloc: Global,
    capacity: usize,
    last_stamp: u32,
    calls: &[Call],
) -> Result<(), Fail> {
    let mut cache = TtlCache::new(alloc, capacity, last_stamp)?;
    each_answers(rt, &mut cache, calls);
    Ok(())
}
