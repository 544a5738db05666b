//! The worked cases of handles: how they are made, counted, refused, given back and audited, and called inside of
//! `lend`.

use super::keys::Answer::{Given, Gone, Idle, Out, Refused, Until};
use super::keys::Call::{Cancel, Deadline, Extend, Insert, Poll, Remove};
use super::keys::Named::Nth;
use super::keys::{Answer, Call, Keys};
use super::play::{Letters, by_handle, by_name};
use super::same;
use dq_core::{CallError, CoreError, Look, Turn};
use dq_shards::{Handle, HandlesOut, QueueConfig, QueueError, SharedDelayQueue, Totals};
use dq_words::Caller;
use std::alloc::Global;
use std::process::Abort;
use std::sync::Wait;
use std::test::Fail;
use std::thread::{Threads, join};

// What is asked of a queue or of the last of its handles, with the answer.
#[derive(Clone, Copy)]
enum Step {
    /// By name.
    Calls(Call, Answer),
    /// By the handle.
    Steps(Call, Answer),
    /// By the handle, while the same thread holds that shard by `lend`.
    StepsInside(usize, Call, Answer),
    /// So many handles are made.
    Makes(usize),
    /// One more isn't.
    MakesNone(QueueError),
    /// A shard issues a caller by `lend`.
    Issues(usize),
    /// The callers of a shard that are out.
    Counts(usize, u64),
    /// The handle is given back, which made so many cancels.
    GivesBack(u64),
    Audits(Result<Totals, HandlesOut>),
}

// A queue of letters, who calls it, and the keys that were given out so far.
#[derive(Drop)]
struct Desk {
    queue: Letters,
    handles: Vec<Handle>,
    callers: Vec<Caller>,
    keys: Keys,
}

impl Desk {
    fn new(alloc: Global, shards: usize) -> Result<Desk, QueueError> {
        let queue = SharedDelayQueue::new(alloc, QueueConfig::of(shards, 4))?;
        Ok(Desk {
            queue,
            handles: Vec::new(alloc),
            callers: Vec::new(alloc),
            keys: Keys::new(alloc, 4),
        })
    }

    // Whether a step answers as it has to; none where no handle is there, or no key.
    fn takes<R: Wait>(&mut self, rt: &R, step: Step) -> Option<bool> {
        Some(match step {
            Step::Calls(call, answer) => {
                by_name(rt, &self.queue, &mut self.keys, call)? == answer
            }
            Step::Steps(call, answer) => {
                by_handle(self.handles.last_mut()?, &self.keys, call)? == answer
            }
            Step::StepsInside(shard, call, answer) => self.inside(rt, shard, call)? == answer,
            Step::Makes(count) => self.makes(rt, count),
            Step::MakesNone(error) => self.queue.handle(rt).err() == Some(error),
            Step::Issues(shard) => self.issues(rt, shard),
            Step::Counts(shard, out) => {
                self.queue.lend(rt, shard, |state| state.out()) == Ok(out)
            }
            Step::GivesBack(cancels) => self.handles.pop()?.give_back() == cancels,
            Step::Audits(answer) => self.queue.audit(rt) == answer,
        })
    }

    fn inside<R: Wait>(&mut self, rt: &R, shard: usize, call: Call) -> Option<Answer> {
        let (handle, keys) = (self.handles.last_mut()?, &self.keys);
        match self
            .queue
            .lend(rt, shard, |_state| by_handle(handle, keys, call))
        {
            Ok(answer) => answer,
            Err(error) => Some(Answer::Refused(error)),
        }
    }

    fn makes<R: Wait>(&mut self, rt: &R, count: usize) -> bool {
        for _ in 0..count {
            let Ok(handle) = self.queue.handle(rt) else {
                return false;
            };
            if self.handles.push(handle).is_err() {
                return false;
            }
        }
        true
    }

    fn issues<R: Wait>(&mut self, rt: &R, shard: usize) -> bool {
        match self.queue.lend(rt, shard, |state| state.issue()) {
            Ok(Ok(caller)) => self.callers.push(caller).is_ok(),
            _ => false,
        }
    }
}

// The steps of a case, over a fresh queue of so many shards.
fn plays<R: Abort + Wait + AllocGlobal>(rt: &R, shards: usize, steps: &[Step]) -> Result<(), Fail> {
    let mut desk = Desk::new(rt.alloc(), shards)?;
    for (number, step) in steps.iter().enumerate() {
        same(rt, number, desk.takes(rt, *step), Some(true));
    }
    Ok(())
}

const TOTALS: Totals = Totals {
    inserted: 3,
    expired: 1,
    removed: 1,
    cancelled: 1,
    live: 0,
};

// Fails where the queue's audit tells the totals of fresh shards (audit_of_fresh_shards), and where a handle's
// give_back drops its callers (give_back_drops_its_callers).
// promise: shards.callers-issued
#[test]
fn audit_after_give_back(rt: HostRuntime) -> Result<(), Fail> {
    let steps = &[
        Step::Makes(2),
        Step::Calls(Insert(0, 'a', 10), Given(0, 1, 1)),
        Step::Calls(Insert(0, 'b', 20), Given(0, 1, 1)),
        Step::Calls(Insert(0, 'c', 30), Given(0, 1, 1)),
        Step::Calls(Poll(0, 10), Out(0, 'a', 10, 10)),
        Step::Calls(Remove(Nth(1)), Gone(1, 'b', 20)),
        Step::Steps(Cancel(Nth(2)), Until(30)),
        Step::GivesBack(1),
        Step::Audits(Err(HandlesOut { out: 1 })),
        Step::GivesBack(0),
        Step::Audits(Ok(TOTALS)),
    ];
    plays(&rt, 1, steps)
}

// A handle's call takes no lock, so it goes on while the same thread holds the shard's.
// promise: shards.callers-issued
#[test]
fn extend_inside_lend(rt: HostRuntime) -> Result<(), Fail> {
    let steps = &[
        Step::Makes(1),
        Step::Calls(Insert(0, 'a', 10), Given(0, 1, 1)),
        Step::StepsInside(0, Extend(Nth(0), 50), Until(50)),
        Step::Calls(Deadline(Nth(0)), Until(50)),
    ];
    plays(&rt, 1, steps)
}

const TOO_MANY: Step = Step::MakesNone(QueueError::TooManyHandles { limit: 1024 });

const TOO_LARGE: Answer = Refused(QueueError::Core(CoreError::TickTooLarge {
    limit: 4398046511103,
}));

// Fails where a queue always refuses a handle as too many (handle_always_too_many).
// promise: shards.callers-issued
#[test]
fn handle_limit(rt: HostRuntime) -> Result<(), Fail> {
    let steps = &[
        Step::Makes(1024),
        TOO_MANY,
        Step::GivesBack(0),
        TOO_MANY,
        Step::Calls(Poll(0, 68719476736), Idle),
        Step::Calls(Poll(0, 4398046511104), TOO_LARGE),
        Step::Calls(Poll(1, 0), Refused(QueueError::Unknown)),
    ];
    plays(&rt, 1, steps)
}

// promise: shards.callers-issued
#[test]
fn issue_by_lend(rt: HostRuntime) -> Result<(), Fail> {
    let steps = &[
        Step::Issues(1),
        Step::Makes(1023),
        TOO_MANY,
        Step::Counts(0, 1023),
        Step::Counts(1, 1024),
    ];
    plays(&rt, 2, steps)
}

// The deadline of what a poll takes out; none where nothing is due.
fn polled<R: Wait>(rt: &R, queue: &Letters, tick: u64) -> Result<Option<u64>, QueueError> {
    Ok(match queue.poll(rt, 0, tick)? {
        Turn::Out(expired) => Some(expired.deadline),
        _ => None,
    })
}

// One thread extends an entry by ten ticks while another polls when it is due. It comes out then, and the extend is
// refused; or it comes out at the deadline that the extend was told.
fn extends_beside_a_poll<R>(
    rt: &R,
    queue: &Letters,
    handle: &mut Handle,
    due: u64,
) -> Result<(), QueueError>
where
    R: Abort + Wait + Threads + Sync,
{
    let later = due.saturating_add(10);
    let key = queue.insert_or_drop(rt, 0, 'a', due)?;
    let (extended, out) = join(
        rt,
        || handle.extend(&key, later),
        || polled(rt, queue, due.saturating_add(5)),
    );
    match extended {
        Ok(told) => {
            same(rt, due, (told, out?), (later, None));
            same(rt, due, polled(rt, queue, later)?, Some(later));
        }
        Err(refused) => {
            let how = Look::LookExpired(due);
            same(
                rt,
                due,
                (refused, out?),
                (CallError::Ended { how }, Some(due)),
            );
        }
    }
    Ok(())
}

// promise: shards.poll-piece
#[test]
fn an_extend_beside_a_poll_is_kept_or_refused(rt: HostRuntime) -> Result<(), Fail> {
    let queue = SharedDelayQueue::new(rt.alloc(), QueueConfig::of(1, 4))?;
    let mut handle = queue.handle(&rt)?;
    for round in 0..500u64 {
        let due = round.saturating_mul(100).saturating_add(10);
        extends_beside_a_poll(&rt, &queue, &mut handle, due)?;
    }
    Ok(())
}
