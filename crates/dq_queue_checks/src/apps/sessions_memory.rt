//! Each allocation of sessions is refused in turn.

use super::same;
use crate::apps::refusing::{each_refused, times};
use dq_apps::{IdleSessions, Name};
use dq_core::{CoreError, Turn};
use dq_shards::{QueueConfig, QueueError};
use dq_ticks::Key;
use std::alloc::Allocator;
use std::process::Abort;
use std::sync::Wait;
use std::test::Fail;

const NO_MEMORY: QueueError = QueueError::Core(CoreError::NoMemory);

// Where the allocation was that was refused.
#[derive(Clone, Copy, PartialEq, Eq, Debug)]
enum Refused {
    New,
    Login,
    Handle,
}

// What shard 0 tells at a tick. What that promises isn't passed on, nor is it of a login.
fn poll<R, A>(rt: &R, sessions: &IdleSessions<A>, now: u64) -> Result<Turn<Name<A>>, QueueError>
where
    R: Wait,
    A: Allocator + Drop,
{
    sessions.next_idle(rt, 0, now)
}

fn is_idle<R: Wait, A: Allocator + Drop>(rt: &R, sessions: &IdleSessions<A>, now: u64) -> bool {
    matches!(poll(rt, sessions, now), Ok(Turn::Idle))
}

// Whether the session that comes out has this name, and is the only one.
fn holds_alone<R: Wait, A: Allocator + Drop>(
    rt: &R,
    sessions: &IdleSessions<A>,
    name: &str,
) -> bool {
    let Ok(Turn::Out(ended)) = poll(rt, sessions, 10) else {
        return false;
    };
    ended.value.text() == name && is_idle(rt, sessions, 10)
}

fn login<R, A>(rt: &R, sessions: &IdleSessions<A>) -> Result<Key, QueueError>
where
    R: Wait,
    A: Allocator + Clone + Drop,
{
    sessions.login(rt, 0, "ann", 0)
}

// A session begins. A refused login inserts nothing, and is made once more.
fn log_in<R, A>(rt: &R, sessions: &IdleSessions<A>) -> Option<Refused>
where
    R: Abort + Wait,
    A: Allocator + Clone + Drop,
{
    let Err(error) = login(rt, sessions) else {
        return None;
    };
    same(rt, "login", error, NO_MEMORY);
    same(rt, "next_idle", is_idle(rt, sessions, 0), true);
    same(rt, "login", login(rt, sessions).is_ok(), true);
    Some(Refused::Login)
}

// A handle is made and given back.
fn take_handle<R, A>(rt: &R, sessions: &IdleSessions<A>) -> Option<Refused>
where
    R: Abort + Wait,
    A: Allocator + Clone + Drop,
{
    match sessions.handle(rt) {
        Ok(handle) => {
            same(rt, "give_back", handle.give_back(), 0);
            None
        }
        Err(error) => {
            same(rt, "handle", error, NO_MEMORY);
            Some(Refused::Handle)
        }
    }
}

// A session begins, a handle is made, and the session ends.
fn used<R, A>(rt: &R, sessions: &IdleSessions<A>) -> Option<Refused>
where
    R: Abort + Wait,
    A: Allocator + Clone + Drop,
{
    let logged_in = log_in(rt, sessions);
    let taken = take_handle(rt, sessions);
    same(rt, "next_idle", holds_alone(rt, sessions, "ann"), true);
    logged_in.or(taken)
}

// Proved once for all heaps, which is quicker than for the refusing one alone.
fn walk<R, A>(rt: &R, heap: A) -> Option<Refused>
where
    R: Abort + Wait,
    A: Allocator + Clone + Drop,
{
    match IdleSessions::new(heap, QueueConfig::of(2, 1), 10) {
        Ok(sessions) => used(rt, &sessions),
        Err(error) => {
            same(rt, "new", error, NO_MEMORY);
            Some(Refused::New)
        }
    }
}

// The rows of shards and of who waits for their locks, and the words, wheel and slots of both; a name; the row of
// callers.
fn all_are_refused(rt: &impl Abort, places: &[Refused]) {
    same(rt, "new", times(places, Refused::New), 22);
    same(rt, "login", times(places, Refused::Login), 1);
    same(rt, "handle", times(places, Refused::Handle), 1);
}

// promise: sessions.new-login
#[test]
fn each_allocation_of_sessions_is_refused(rt: HostRuntime) -> Result<(), Fail> {
    let places = each_refused(&rt, rt.alloc(), |heap| walk(&rt, heap))?;
    all_are_refused(&rt, &places);
    Ok(())
}
