//! Each worked case, by name and by `lend`.

use super::cases::{BY_HANDLE, Case, OUTS};
use super::keys::{Answer, Call};
use super::play::{Letters, Play, Way};
use super::same;
use dq_shards::{Handle, HandlesOut, QueueConfig, Totals};
use std::process::Abort;
use std::sync::Wait;
use std::test::Fail;

fn plays<R: Abort + Wait>(rt: &R, play: &mut Play, way: Way, case: &Case) {
    let (name, _, _, calls) = case;
    for (number, (call, answer)) in calls.iter().enumerate() {
        let answered = play.answer(rt, way, *call);
        same(rt, *name, (number, answered), (number, Some(*answer)));
    }
}

// How many inserts, and how many cancels, are accepted.
fn accepted(case: &Case) -> (u64, u64) {
    let (mut inserts, mut cancels) = (0u64, 0u64);
    for row in case.3 {
        match row {
            (Call::Insert(..), Answer::Given(..)) => inserts = inserts.saturating_add(1),
            (Call::Cancel(_), Answer::Until(_)) => cancels = cancels.saturating_add(1),
            _ => {}
        }
    }
    (inserts, cancels)
}

// The one handle that is out is given back, and the queue's audit tells so many inserts and cancels.
fn gives_back<R: Abort + Wait>(
    rt: &R,
    queue: &Letters,
    handle: Handle,
    (inserts, cancels): (u64, u64),
) -> Result<(), HandlesOut> {
    same(rt, "audit", queue.audit(rt), Err(HandlesOut { out: 1 }));
    let cancelled = (handle.cancels(), handle.give_back());
    same(rt, "cancels", cancelled, (cancels, cancels));
    let Totals {
        inserted,
        cancelled,
        ..
    } = queue.audit(rt)?;
    same(rt, "totals", (inserted, cancelled), (inserts, cancels));
    Ok(())
}

fn ends<R: Abort + Wait>(rt: &R, play: Play, accepted: (u64, u64)) -> Result<(), HandlesOut> {
    let Play { queue, handle, .. } = play;
    gives_back(rt, &queue, handle, accepted)
}

// Behind the case the handle is given back, and the queue's audit tells what was inserted and cancelled.
fn plays_case<R: Abort + Wait + AllocGlobal>(rt: &R, way: Way, case: &Case) -> Result<(), Fail> {
    let mut play = Play::new(rt, rt.alloc(), QueueConfig::of(case.1, case.2))?;
    plays(rt, &mut play, way, case);
    Ok(ends(rt, play, accepted(case))?)
}

fn plays_all<R: Abort + Wait + AllocGlobal>(rt: &R, way: Way, cases: &[Case]) -> Result<(), Fail> {
    for case in cases {
        plays_case(rt, way, case)?;
    }
    Ok(())
}

// promise: shards.two-tables
#[test]
fn outs_by_name(rt: HostRuntime) -> Result<(), Fail> {
    plays_all(&rt, Way::ByName, OUTS)
}

// promise: shards.two-tables
#[test]
fn outs_by_lend(rt: HostRuntime) -> Result<(), Fail> {
    plays_all(&rt, Way::ByLend, OUTS)
}

// promise: shards.two-tables
#[test]
fn handles_beside_calls_by_name(rt: HostRuntime) -> Result<(), Fail> {
    plays_all(&rt, Way::ByName, BY_HANDLE)
}

// promise: shards.two-tables
#[test]
fn handles_beside_lend(rt: HostRuntime) -> Result<(), Fail> {
    plays_all(&rt, Way::ByLend, BY_HANDLE)
}
