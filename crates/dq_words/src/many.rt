//! A poll that takes out many entries, as the queues of shards make it under one lock.
ghost use Rattle.std.specs.Prelude.{◌≡◌, ◌↔◌, ◌<◌, vec_capacity, IsErr, OnErr};
ghost use Rattle.dq_ticks.specs.declared.TheConstants.{LAST_TICK};
ghost use Rattle.dq_core.specs.Calls.{SameCore};
ghost use Rattle.dq_core.specs.Words.{StillBegun};
ghost use Rattle.dq_words.specs.KeeperCalls.{HasBegun};
ghost use Rattle.dq_words.specs.Many.{PollsInto};

use crate::keeper::Keeper;
use dq_core::{CoreError, DelayCore, Expired, Turn};
use dq_ticks::LAST_TICK;
use std::alloc::Allocator;

/// What a poll for many entries returns.
#[derive(Clone, Copy, Debug, PartialEq, Eq)]
pub enum ManyTurn {
    /// The row is full: more may be due.
    More,
    /// No more is due: there is nothing to do before the tick `next`.
    Waiting {
        /// The next wake of the wheel, a tick of one millisecond.
        next: u64,
    },
    /// Nothing is linked any more.
    Idle,
}

/// Polls at a tick of one millisecond until the row is full, or nothing is due. What comes out is put behind what
/// stands in the row, in order: as many as it has free room for. It takes no memory. A full row takes nothing out,
/// and no tick is noted then.
///
/// # Errors
/// TickTooLarge beyond the last tick. Nothing changes then.
#[inline]
pub fn poll_into<T, A: Allocator>(
    queue: &mut DelayCore<T, Keeper<A>, A>,
    tick: u64,
    row: &mut Vec<Expired<T>, A>,
) -> Result<ManyTurn, CoreError>
    // What came out stands behind what stood in the row, which has the room that it had.
    ensures polls { PollsInto queue.old tick (vec_capacity row.old) row.old.items
        row.new.items result queue.new }
    ensures room { vec_capacity row.new ≡ vec_capacity row.old }

    // A tick is refused exactly beyond the last one, and then the row stays.
    ensures refused { IsErr result ↔ (LAST_TICK < tick) }
    ensures kept { OnErr result (row.new ≡ row.old) }

    ensures same { SameCore queue.old queue.new }
    ensures origin { queue.new.words.table ≡ queue.old.words.table }
    ensures begun { StillBegun HasBegun queue.old.words queue.new.words }
{
    if tick > LAST_TICK {
        return Err(CoreError::TickTooLarge { limit: LAST_TICK });
    }
    for _place in row.len()..row.capacity() {
        match queue.poll_deferring(tick) {
            Ok(Turn::Out(expired)) => row.push_reserved(expired),
            Ok(Turn::Waiting { next }) => return Ok(ManyTurn::Waiting { next }),
            Ok(Turn::Idle) => return Ok(ManyTurn::Idle),
            Err(_) => unreachable!(),
        }
    }
    Ok(ManyTurn::More)
}
