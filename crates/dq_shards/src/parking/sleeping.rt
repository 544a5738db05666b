//! How a task that is polled waits in a shard: how it asks to be woken, and what it is given.
ghost use Rattle.std.specs.Prelude.{◌≡◌, ℕ, Option, Some, None, Ok, Err, true};
ghost use Rattle.futures.specs.Task.{Covers, Keeps};
ghost use Rattle.dq_core.specs.Calls.{TellsWake};
ghost use Rattle.dq_core.specs.Core.{Core};
ghost use Rattle.dq_words.specs.Seats.{Sat};
ghost use Rattle.dq_shards.specs.declared.parking.parked.Parked.{Parked};
ghost use Rattle.dq_shards.specs.Attending.{MayWait, MayWaitSo};
ghost use Rattle.dq_shards.specs.Parking.{poller};
ghost use Rattle.dq_shards.specs.Streaming.{PollsBy, ParksWith, WaitsSo, Turns};
ghost use Rattle.dq_shards.specs.Wakers.{LeavesWaker};

use crate::parking::parked::{Parked, Until};
use crate::parking::row::Shard;
use dq_core::{CoreError, Expired, Piece, Turn};
use futures::task::{Context, Poll, Source, Waker};
use std::mem;
use thiserror::Error;

/// Why a stream gives no entry.
#[derive(Clone, Copy, Debug, PartialEq, Eq, Error)]
pub enum StreamFault {
    /// The tick of its source is beyond the last tick. The stream has ended for good.
    #[error("the tick is beyond the last tick, {limit}")]
    TickTooLarge {
        /// The last tick.
        limit: u64,
    },
    /// Memory for the waker was refused. Nothing is parked, and the stream goes on.
    #[error("out of memory")]
    NoMemory,
}

/// What a poll of a stream gives.
pub type Polled<T> = Poll<Option<Result<Expired<T>, StreamFault>>>;

/// The values of a shard's entries.
pub type ValueOf<S> = <S as Shard>::Value;

/// What a shard's poller waits for.
pub type NextOf<S> = <S as Shard>::Next;

/// What a stream asks of a shard behind its lock.
pub trait Sleeps: Shard {
    /// Its queue.
    ghost core: { Self → Core Self.Value Sat };

    /// Who is parked in it.
    ghost parked: { Self → Option (Parked Self.Next) };

    /// The same shard with that poller parked, or none.
    ghost parks: { Self → Option (Parked Self.Next) → Self };

    /// What a poll keeps of all else.
    ghost changes: { Self → Self → Type 0 };

    /// Takes out who is parked, and returns it unwoken.
    fn take_parked(&mut self) -> Option<Parked<Self::Next>>
        ensures { self.new ≡ parks self.old None };

    /// Parks a poller.
    fn park(&mut self, next: Self::Next, waker: Waker)
        requires { MayWaitSo Self.Next.lasts (core self.old) next }
        ensures parks { self.new ≡ parks self.old (Some (poller next waker)) };

    /// Polls its queue at a tick where none is parked: whole, or by at most `most` steps.
    fn poll_piece(&mut self, tick: u64, most: Option<u32>) -> Result<Piece<Self::Value>, CoreError>
        requires { parked self.old ≡ None }
        ensures polls { PollsBy most (core self.old) tick result (core self.new) }
        ensures changes { changes self.old self.new }
        ensures none { parked self.new ≡ None };

    /// Who is parked is told, and the queue stays.
    ghost is_parked: { (s : Self) (p : Option (Parked Self.Next)) → parked (parks s p) ≡ p };

    ghost same_core: { (s : Self) (p : Option (Parked Self.Next)) → core (parks s p) ≡ core s };
}

/// Registers with the context, and answers the waker of its task; none where none can be made for want of memory, and
/// then the task has asked for another poll. The name stands for the shard, as a source that fires where it wakes its
/// poller.
pub fn register(name: &Source, cx: &mut Context<'_>) -> Option<Waker>
    ensures left { LeavesWaker cx.old cx.new result }
    ensures registered { Covers cx.new (λ s. s ≡ name.now.id) }
    ensures kept { Keeps cx.old cx.new }
{
    let mut slot = None;
    let _pending: Poll<()> = cx.register(name, &mut slot);
    slot
}

/// Lets the waker go that a registration left and that nobody parked, and doesn't wake its task. It is the user's: the
/// shard's lock is to be free.
pub fn forget(slot: Option<Waker>) {
    if let Some(waker) = slot {
        // A waker that is dropped wakes.
        mem::forget(waker);
    }
}

/// Parks a poller with the waker that a registration left. Refused as NoMemory where it left none; the shard stays as
/// it was then. A future of your own over a locked shard may use it.
pub fn park_with<S: Sleeps>(
    shard: &mut S,
    next: S::Next,
    slot: Option<Waker>,
) -> Result<(), StreamFault>
    requires { MayWaitSo S.Next.lasts (S.core shard.old) next }
    ensures { ParksWith S.parks shard.old next slot result shard.new }
{
    let Some(waker) = slot else {
        return Err(StreamFault::NoMemory);
    };
    shard.park(next, waker);
    Ok(())
}

// Parks the waker that a registration left, in a shard where nothing is due.
fn wait<S: Sleeps>(shard: &mut S, wake: Option<u64>, slot: &mut Option<Waker>) -> Polled<S::Value>
    requires { TellsWake (S.core shard.old) wake }
    ensures { WaitsSo {T = S.Value} S.parks S.Next.waits wake slot.old shard.old result shard.new }
{
    let Some(next) = S::Next::of_wake(wake) else {
        return Poll::Ready(None);
    };
    match park_with(shard, next, slot.take()) {
        Ok(()) => Poll::Pending,
        Err(fault) => Poll::Ready(Some(Err(fault))),
    }
}

/// One poll, while the shard's lock is held and none is parked there, for a task that left its waker. None where more
/// is to do.
pub fn turn<S: Sleeps>(
    shard: &mut S,
    tick: u64,
    most: Option<u32>,
    slot: &mut Option<Waker>,
) -> Option<Polled<S::Value>>
    requires { S.parked shard.old ≡ None }
    ensures { Turns S.core S.changes S.parked S.parks S.Next.waits most shard.old tick slot.old
        result shard.new }
{
    match shard.poll_piece(tick, most) {
        Ok(Piece::Working) => None,
        Ok(Piece::Answer(Turn::Out(expired))) => Some(Poll::Ready(Some(Ok(expired)))),
        Ok(Piece::Answer(Turn::Waiting { next })) => Some(wait(shard, Some(next), slot)),
        Ok(Piece::Answer(Turn::Idle)) => Some(wait(shard, None, slot)),
        Err(CoreError::TickTooLarge { limit }) => {
            Some(Poll::Ready(Some(Err(StreamFault::TickTooLarge { limit }))))
        }
        Err(_) => unreachable!(),
    }
}
