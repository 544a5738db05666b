//! The worked rows.

use super::same;
use crate::apps::calls::Call::{Get, Len, Moment, NextDeadline, Purge, Put, Renew, Take};
use crate::apps::calls::{Letters, each_answers, plays_up_to};
use dq_apps::{IdleSessions, Name, TtlCache};
use dq_core::{CallError, CoreError, Look, Turn};
use dq_shards::{Handle, QueueConfig, QueueError};
use dq_ticks::{Key, LAST_STAMP};
use std::alloc::Global;
use std::process::Abort;
use std::sync::Wait;
use std::test::Fail;

// The last tick, as the tables of the rows have it.
const LAST: u64 = 4398046511103;

const FULL: CoreError = CoreError::Full { linked: 2, worn: 0 };

const TOO_LARGE: CoreError = CoreError::TickTooLarge { limit: LAST };

const TOO_FAR: CoreError = CoreError::TooFar { limit: LAST };

// promise: cache.get-contains
#[test]
fn cache_walk(rt: HostRuntime) -> Result<(), Fail> {
    let calls = &[
        Put('a', 1, 10, 0, Ok(None)),
        Get('a', 9, Some(1)),
        Get('a', 10, None),
        Put('b', 2, 10, 0, Ok(None)),
        Put('c', 3, 5, 0, Err(FULL)),
        Put('c', 3, 5, 10, Ok(None)),
        Len(1),
        Renew('c', 20, 12, Ok(32)),
        Put('c', 4, 1, 12, Ok(Some(3))),
        Take('c', 12, Some(4)),
        Renew('c', 1, 12, Err(CoreError::Missing)),
        Purge(68719476736, Ok(0)),
        Purge(LAST + 1, Err(TOO_LARGE)),
    ];
    plays_up_to(&rt, rt.alloc(), 2, LAST_STAMP, calls)
}

// promise: cache.put-kept
#[test]
fn cache_worn_key(rt: HostRuntime) -> Result<(), Fail> {
    let calls = &[
        Put('a', 1, 5, 0, Ok(None)),
        Put('a', 2, 5, 0, Err(CoreError::Worn)),
        Get('a', 0, Some(1)),
    ];
    plays_up_to(&rt, rt.alloc(), 2, 1, calls)
}

fn refused(alloc: Global, capacity: usize, last_stamp: u32) -> Option<CoreError> {
    TtlCache::<char, u32>::new(alloc, capacity, last_stamp).err()
}

// promise: cache.new-with-capacity
#[test]
fn bad_configs(rt: HostRuntime) {
    let table: &[(usize, u32, Option<CoreError>)] = &[
        (0, 1, Some(CoreError::BadConfig)),
        (65537, 1, Some(CoreError::BadConfig)),
        (1, 0, Some(CoreError::BadConfig)),
        (1, 1048576, Some(CoreError::BadConfig)),
        (1, 1, None),
        (65536, 1048575, None),
    ];
    for (number, (capacity, last_stamp, answer)) in table.iter().enumerate() {
        let refused = refused(rt.alloc(), *capacity, *last_stamp);
        same(&rt, number, refused, *answer);
    }
}

// How far ahead the wheel of a queue reaches.
const REACH: u64 = 68719476735;

// The least deadline is told where the queue files what is further ahead than its wheel reaches, too.
// promise: cache.next-deadline
#[test]
fn far_deadlines(rt: HostRuntime) -> Result<(), Fail> {
    let calls = &[
        Put('a', 1, REACH + 100, 0, Ok(None)),
        NextDeadline(Some(REACH + 100)),
        Put('b', 2, REACH - 30, 50, Ok(None)),
        NextDeadline(Some(REACH + 20)),
        Purge(REACH + 19, Ok(0)),
        Purge(REACH + 20, Ok(1)),
        NextDeadline(Some(REACH + 100)),
        Purge(REACH + 100, Ok(1)),
    ];
    plays_up_to(&rt, rt.alloc(), 4, LAST_STAMP, calls)
}

// A put and a renewal are refused alike, and nothing changes.
fn refuses(rt: &impl Abort, cache: &mut Letters, ttl: u64, now: u64, error: CoreError) {
    let calls = &[
        Put('b', 2, ttl, now, Err(error)),
        Renew('a', ttl, now, Err(error)),
        Len(1),
        Moment(0),
    ];
    each_answers(rt, cache, calls);
}

fn out_of_range(rt: &impl Abort, cache: &mut Letters) {
    each_answers(rt, cache, &[Put('a', 1, 5, 0, Ok(None))]);
    let table: &[(u64, u64, CoreError)] = &[
        (0, LAST + 1, TOO_LARGE),
        (u64::MAX, u64::MAX, TOO_LARGE),
        (1, LAST, TOO_FAR),
        (u64::MAX, 0, TOO_FAR),
        (LAST - 6, 7, TOO_FAR),
    ];
    for (ttl, now, error) in table {
        refuses(rt, cache, *ttl, *now, *error);
    }
    let calls = &[
        Put('b', 2, LAST - 7, 7, Ok(None)),
        Len(1),
        Moment(7),
        NextDeadline(Some(LAST)),
    ];
    each_answers(rt, cache, calls);
}

// A value that was refused for its tick or deadline comes back, and nothing changes.
// promise: cache.put-kept
#[test]
fn put_out_of_range(rt: HostRuntime) -> Result<(), Fail> {
    out_of_range(&rt, &mut TtlCache::new(rt.alloc(), 1, LAST_STAMP)?);
    Ok(())
}

// A call of sessions or of a handle of theirs, with its answer. Keys count from 0, in the order of logins.
#[derive(Clone, Copy)]
enum Visit {
    /// Of that name at that tick.
    Login(&'static str, u64),
    LoginRefused(&'static str, u64, QueueError),
    Touch(usize, u64, Result<u64, CallError>),
    Logout(usize, Result<u64, CallError>),
    /// At that tick a session comes out, which ended then.
    Ends(u64, &'static str),
    /// At that tick none comes out, and the next wake.
    Waits(u64, u64),
}

// What a poll of the one shard gave at a tick: whether the name came out at it.
fn is_end(turn: Result<Turn<Name>, QueueError>, now: u64, name: &str) -> bool {
    match turn {
        Ok(Turn::Out(ended)) => ended.deadline == now && ended.value.text() == name,
        _ => false,
    }
}

fn is_wait(turn: Result<Turn<Name>, QueueError>, tick: u64) -> bool {
    match turn {
        Ok(Turn::Waiting { next }) => next == tick,
        _ => false,
    }
}

// Keeps the key of a login. It tells whether there was one.
fn keeps(keys: &mut Vec<Key>, login: Result<Key, QueueError>) -> bool {
    match login {
        Ok(key) => keys.push(key).is_ok(),
        Err(_) => false,
    }
}

// Whether a call answers as it has to.
fn takes<R: Wait>(
    rt: &R,
    sessions: &IdleSessions,
    handle: &mut Handle,
    keys: &mut Vec<Key>,
    visit: Visit,
) -> bool {
    match visit {
        Visit::Login(name, now) => keeps(keys, sessions.login(rt, 0, name, now)),
        Visit::LoginRefused(name, now, error) => {
            sessions.login(rt, 0, name, now).err() == Some(error)
        }
        Visit::Touch(at, now, answer) => match key_at(keys.as_slice(), at) {
            Some(key) => sessions.touch(handle, &key, now) == answer,
            None => false,
        },
        Visit::Logout(at, answer) => match key_at(keys.as_slice(), at) {
            Some(key) => sessions.logout(handle, &key) == answer,
            None => false,
        },
        Visit::Ends(now, name) => is_end(sessions.next_idle(rt, 0, now), now, name),
        Visit::Waits(now, tick) => is_wait(sessions.next_idle(rt, 0, now), tick),
    }
}

fn key_at(keys: &[Key], at: usize) -> Option<Key> {
    if at < keys.len() {
        return Some(keys[at]);
    }
    None
}

const ENDED: CallError = CallError::Ended {
    how: Look::LookExpired(150),
};

const VISITS: &[Visit] = &[
    Visit::Login("ann", 0),
    Visit::Touch(0, 50, Ok(150)),
    Visit::Waits(100, 128),
    Visit::Ends(150, "ann"),
    Visit::Touch(0, 151, Err(ENDED)),
    Visit::LoginRefused("bob", 4398046511100, QueueError::Core(TOO_FAR)),
    Visit::Login("cy", 150),
    Visit::Logout(1, Ok(250)),
];

// promise: sessions.login-queue sessions.into-queue-queue
#[test]
fn sessions_walk(rt: HostRuntime) -> Result<(), Fail> {
    let sessions = IdleSessions::new(rt.alloc(), QueueConfig::of(1, 4), 100)?;
    let mut handle = sessions.handle(&rt)?;
    let mut keys = Vec::new(rt.alloc());
    for (number, visit) in VISITS.iter().enumerate() {
        let is = takes(&rt, &sessions, &mut handle, &mut keys, *visit);
        same(&rt, number, is, true);
    }
    Ok(())
}
