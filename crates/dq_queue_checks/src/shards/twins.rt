//! Two queues are given the same 300 calls, drawn by a fixed generator: one by name, the other by `lend` with its
//! states' calls.

use super::keys::{Call, Named, Part};
use super::play::{Letters, Play, Way};
use super::same;
use dq_core::Tally;
use dq_shards::{Handle, HandlesOut, QueueConfig, QueueError, Totals};
use dq_testing::Draw;
use std::process::Abort;
use std::sync::Wait;
use std::test::Fail;

const SHARDS: usize = 3;

const ROUNDS: u64 = 15;

const CONFIG: QueueConfig = QueueConfig {
    shards: SHARDS,
    capacity: 8,
    last_stamp: 5,
};

#[derive(Clone, Copy)]
enum Kind {
    Insert,
    Reset,
    Remove,
    Deadline,
    Poll,
    NextWake,
    Sweep,
    Clear,
    TellTally,
    Ring,
    Parked,
    Extend,
    Cancel,
}

// A round of twenty calls, each call by name among them.
const ROUND: &[Kind] = &[
    Kind::Insert,
    Kind::Insert,
    Kind::Poll,
    Kind::Insert,
    Kind::Reset,
    Kind::Cancel,
    Kind::Poll,
    Kind::Remove,
    Kind::Insert,
    Kind::Deadline,
    Kind::Extend,
    Kind::Poll,
    Kind::Sweep,
    Kind::Insert,
    Kind::NextWake,
    Kind::Poll,
    Kind::TellTally,
    Kind::Ring,
    Kind::Clear,
    Kind::Parked,
];

// Draws calls, always the same ones.
#[derive(Drop)]
struct Calls(Draw);

impl Calls {
    // A shard, at times one that isn't there.
    fn shard(&mut self) -> usize {
        match self.0.below(16) {
            0 => SHARDS,
            drawn => drawn as usize % SHARDS,
        }
    }

    // One of the last keys that were given out, at times with another shard.
    fn named(&mut self, keys: usize) -> Named {
        let nth = keys
            .saturating_sub(1)
            .saturating_sub(self.0.below(12) as usize);
        match self.0.below(16) {
            0 => Named::Forged(nth, Part::Shard(SHARDS as u32)),
            1 => Named::Forged(nth, Part::Shard(0)),
            _ => Named::Nth(nth),
        }
    }

    // A deadline that no other turn has: mostly soon, at times behind the wheel's tick, beyond a lap or beyond the
    // last tick.
    fn deadline(&mut self, turn: u64) -> u64 {
        let steps = match self.0.below(24) {
            0 => 0,
            1 => 1 << 28,
            2 => 1 << 34,
            _ => self.0.below(8).saturating_add(turn / 8),
        };
        steps.saturating_mul(512).saturating_add(turn)
    }

    // The tick of a poll, now and then beyond the last one.
    fn tick(&mut self, turn: u64) -> u64 {
        match self.0.below(24) {
            0 => 4398046511104,
            _ => self.0.below(1024).saturating_add(turn.saturating_mul(64)),
        }
    }

    // A call of that kind, where so many keys were given out.
    fn call(&mut self, kind: Kind, keys: usize, turn: u64) -> Call {
        let (shard, named) = (self.shard(), self.named(keys));
        match kind {
            Kind::Insert => {
                let letter = char::from(b'a' + (turn % 26) as u8);
                Call::Insert(self.0.below(1000), letter, self.deadline(turn))
            }
            Kind::Reset => Call::Reset(named, self.deadline(turn)),
            Kind::Remove => Call::Remove(named),
            Kind::Deadline => Call::Deadline(named),
            Kind::Poll => Call::Poll(shard, self.tick(turn)),
            Kind::NextWake => Call::NextWake(shard),
            Kind::Sweep => Call::Sweep(shard),
            Kind::Clear => Call::Clear(shard),
            Kind::TellTally => Call::TellTally(shard),
            Kind::Ring => Call::Ring(shard, self.tick(turn)),
            Kind::Parked => Call::Parked(shard),
            Kind::Extend => Call::Extend(named, self.deadline(turn)),
            Kind::Cancel => Call::Cancel(named),
        }
    }
}

// A shard's tally, len, tick, noted tick and next wake.
type Seen = (Tally, usize, u64, u64, Option<u64>);

fn seen<R: Wait>(rt: &R, queue: &Letters, shard: usize) -> Result<Seen, QueueError> {
    queue.lend(rt, shard, |state| {
        (
            state.tally(),
            state.len(),
            state.tick(),
            state.noted(),
            state.next_wake(),
        )
    })
}

fn agree<R: Abort + Wait>(rt: &R, one: &Play, other: &Play, turn: u64) {
    same(rt, turn, one.keys.last(), other.keys.last());
    for shard in 0..SHARDS {
        let (left, right) = (seen(rt, &one.queue, shard), seen(rt, &other.queue, shard));
        same(rt, turn, (shard, left), (shard, right));
    }
}

// Makes a round of calls on both.
fn round<R: Abort + Wait>(rt: &R, one: &mut Play, other: &mut Play, calls: &mut Calls, first: u64) {
    let mut turn = first;
    for kind in ROUND {
        let call = calls.call(*kind, one.keys.len(), turn);
        let answers = (
            one.answer(rt, Way::ByName, call),
            other.answer(rt, Way::ByLend, call),
        );
        same(rt, turn, answers.0, answers.1);
        agree(rt, one, other, turn);
        turn = turn.saturating_add(1);
    }
}

// The cancels of a handle that was given back, and what an audit tells then.
type Ended = Result<(u64, Totals), HandlesOut>;

fn give_back<R: Wait>(rt: &R, queue: &Letters, handle: Handle) -> Ended {
    let cancels = handle.give_back();
    Ok((cancels, queue.audit(rt)?))
}

fn end<R: Wait>(rt: &R, play: Play) -> Ended {
    let Play { queue, handle, .. } = play;
    give_back(rt, &queue, handle)
}

// All rounds of calls on both.
fn rounds<R: Abort + Wait>(rt: &R, one: &mut Play, other: &mut Play) {
    let mut calls = Calls(Draw::new(7));
    for number in 0..ROUNDS {
        round(rt, one, other, &mut calls, number * 20);
    }
}

// Makes the one by name, and all rounds of calls on both.
fn play_beside<R>(rt: &R, other: &mut Play) -> Result<Ended, QueueError>
where
    R: Abort + Wait + AllocGlobal,
{
    let mut one = Play::new(rt, rt.alloc(), CONFIG)?;
    rounds(rt, &mut one, other);
    Ok(end(rt, one))
}

// Makes the other too. Behind all rounds both tell the same, and calls of each kind were accepted.
fn agree_to_the_end<R: Abort + Wait + AllocGlobal>(rt: &R) -> Result<(), Fail> {
    let mut other = Play::new(rt, rt.alloc(), CONFIG)?;
    let (played, twin) = (play_beside(rt, &mut other), end(rt, other));
    let ended = played?;
    same(rt, "end", ended, twin);
    are_many(rt, ended?.1);
    Ok(())
}

// Calls of each kind were accepted, so many of them at least.
fn are_many(rt: &impl Abort, totals: Totals) {
    let Totals {
        inserted,
        expired,
        removed,
        cancelled,
        ..
    } = totals;
    assert!(rt;
        inserted >= 50 && expired >= 15 && removed >= 15 && cancelled >= 3,
        "{totals:?}"
    );
}

// Fails where a call by name answers and leaves the shard as it was (call_by_name_leaves_shard), or makes its call
// and then clears the shard (call_by_name_then_clears).
// promise: shards.name-lend
#[test]
fn by_name_and_by_lend_agree(rt: HostRuntime) -> Result<(), Fail> {
    agree_to_the_end(&rt)
}
