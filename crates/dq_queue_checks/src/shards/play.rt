//! A queue of letters and a handle of it, which are given calls: the queue by name, or its shards' states by `lend`.

use super::keys::{Answer, Call, Keys};
use dq_core::{CallError, CoreError};
use dq_shards::{Handle, QueueConfig, QueueError, ShardState, SharedDelayQueue};
use std::alloc::Global;
use std::sync::Wait;

pub type Letters = SharedDelayQueue<char>;

/// How the calls that the queue has by name are made.
#[derive(Clone, Copy)]
pub enum Way {
    ByName,
    ByLend,
}

#[derive(Drop)]
pub struct Play {
    pub queue: Letters,
    pub handle: Handle,
    pub keys: Keys,
}

impl Play {
    pub fn new<R: Wait>(rt: &R, alloc: Global, config: QueueConfig) -> Result<Play, QueueError> {
        let queue = SharedDelayQueue::new(alloc, config)?;
        let handle = queue.handle(rt)?;
        Ok(Play {
            queue,
            handle,
            keys: Keys::new(alloc, config.capacity),
        })
    }

    /// Makes a call, and answers as it does; none where no key was given at the place that it names.
    pub fn answer<R: Wait>(&mut self, rt: &R, way: Way, call: Call) -> Option<Answer> {
        match (call, way) {
            (Call::Extend(..) | Call::Cancel(_) | Call::LookAt(_), _) => {
                by_handle(&mut self.handle, &self.keys, call)
            }
            (Call::Len(_) | Call::PlaceOf(_) | Call::FiledAt(_), _) | (_, Way::ByLend) => {
                by_lend(rt, &self.queue, &mut self.keys, call)
            }
            (_, Way::ByName) => by_name(rt, &self.queue, &mut self.keys, call),
        }
    }
}

/// A call of a handle.
pub fn by_handle(handle: &mut Handle, keys: &Keys, call: Call) -> Option<Answer> {
    Some(match call {
        Call::Extend(named, when) => until(handle.extend(&keys.named(named)?, when)),
        Call::Cancel(named) => until(handle.cancel(&keys.named(named)?)),
        Call::LookAt(named) => match handle.look(&keys.named(named)?) {
            Ok(look) => Answer::Seen(look),
            Err(error) => Answer::NotDone(error),
        },
        _ => return None,
    })
}

// The answer of a handle's call that answers a deadline.
fn until(answer: Result<u64, CallError>) -> Answer {
    match answer {
        Ok(deadline) => Answer::Until(deadline),
        Err(error) => Answer::NotDone(error),
    }
}

/// A call of the queue by name.
pub fn by_name<R: Wait>(rt: &R, queue: &Letters, keys: &mut Keys, call: Call) -> Option<Answer> {
    Some(match call {
        Call::Insert(route, value, when) => {
            keys.inserted(value, queue.insert(rt, route, value, when))
        }
        Call::Reset(named, when) => {
            let entry = keys.entry(named)?;
            keys.given(queue.reset(rt, &entry, when))
        }
        Call::Remove(named) => keys.removed(queue.remove(rt, &keys.entry(named)?)),
        Call::Deadline(named) => match queue.deadline(rt, &keys.entry(named)?) {
            Ok(deadline) => Answer::Until(deadline),
            Err(error) => Answer::Refused(error),
        },
        Call::Poll(shard, tick) => keys.turned(queue.poll(rt, shard, tick)),
        _ => tells_by_name(rt, queue, call)?,
    })
}

// The calls that name a shard alone.
fn tells_by_name<R: Wait>(rt: &R, queue: &Letters, call: Call) -> Option<Answer> {
    let told = match call {
        Call::NextWake(shard) => queue.next_wake(rt, shard).map(Answer::Tick),
        Call::Sweep(shard) => queue.sweep(rt, shard).map(Answer::Count),
        Call::Clear(shard) => queue.clear(rt, shard).map(Answer::Count),
        Call::TellTally(shard) => queue.tally(rt, shard).map(Answer::Tallies),
        Call::Moves(shard) => queue
            .tally(rt, shard)
            .map(|tally| Answer::Moved(tally.moves)),
        Call::Ring(shard, tick) => queue.ring(rt, shard, tick).map(Answer::Rung),
        Call::Parked(shard) => queue.parked(rt, shard).map(Answer::Tick),
        _ => return None,
    };
    Some(told.unwrap_or_else(Answer::Refused))
}

// The shard whose state a call is for.
fn shard_of(queue: &Letters, keys: &Keys, call: Call) -> Option<usize> {
    match call {
        Call::Insert(route, ..) => usize::try_from(route.checked_rem(queue.shards() as u64)?).ok(),
        Call::Reset(named, _)
        | Call::Remove(named)
        | Call::Deadline(named)
        | Call::PlaceOf(named)
        | Call::FiledAt(named) => Some(keys.entry(named)?.shard() as usize),
        Call::Poll(shard, _)
        | Call::NextWake(shard)
        | Call::Sweep(shard)
        | Call::Clear(shard)
        | Call::TellTally(shard)
        | Call::Moves(shard)
        | Call::Ring(shard, _)
        | Call::Parked(shard)
        | Call::Len(shard) => Some(shard),
        Call::Extend(..) | Call::Cancel(_) | Call::LookAt(_) => None,
    }
}

fn by_lend<R: Wait>(rt: &R, queue: &Letters, keys: &mut Keys, call: Call) -> Option<Answer> {
    let shard = shard_of(queue, keys, call)?;
    match queue.lend(rt, shard, |state| by_state(state, keys, call)) {
        Ok(answer) => answer,
        Err(error) => Some(Answer::Refused(error)),
    }
}

// What a state answers, as a call by name does.
fn of_queue<T: Drop>(answer: Result<T, CoreError>) -> Result<T, QueueError> {
    match answer {
        Ok(told) => Ok(told),
        Err(error) => Err(QueueError::Core(error)),
    }
}

fn by_state(state: &mut ShardState<char>, keys: &mut Keys, call: Call) -> Option<Answer> {
    Some(match call {
        Call::Insert(_, value, when) => match state.insert(value, when) {
            Ok(key) => keys.given(Ok(key)),
            Err((error, back)) => keys.inserted(value, Err((QueueError::Core(error), back))),
        },
        Call::Reset(named, when) => {
            let entry = keys.entry(named)?;
            keys.given(of_queue(state.reset(&entry, when)))
        }
        Call::Remove(named) => keys.removed(of_queue(state.remove(&keys.entry(named)?))),
        Call::Deadline(named) => match state.deadline(&keys.entry(named)?) {
            Ok(deadline) => Answer::Until(deadline),
            Err(error) => Answer::Refused(QueueError::Core(error)),
        },
        Call::Poll(_, tick) => keys.turned(of_queue(state.poll(tick))),
        Call::PlaceOf(named) => Answer::Stands(state.place(&keys.entry(named)?)),
        Call::FiledAt(named) => Answer::Tick(state.filed(&keys.entry(named)?)),
        _ => tells_of_state(state, call)?,
    })
}

fn tells_of_state(state: &mut ShardState<char>, call: Call) -> Option<Answer> {
    Some(match call {
        Call::NextWake(_) => Answer::Tick(state.next_wake()),
        Call::Sweep(_) => Answer::Count(state.sweep()),
        Call::Clear(_) => Answer::Count(state.clear()),
        Call::TellTally(_) => Answer::Tallies(state.tally()),
        Call::Moves(_) => Answer::Moved(state.tally().moves),
        Call::Ring(_, tick) => Answer::Rung(state.ring(tick)),
        Call::Parked(_) => Answer::Tick(state.parked()),
        Call::Len(_) => Answer::Count(state.len()),
        _ => return None,
    })
}
