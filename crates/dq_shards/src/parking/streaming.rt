//! The expired entries of a shard as a stream, polled by hand or by an executor.
//!
//! A stream waits in its shard, as the shard's parked poller. The shard wakes it where its next wake comes sooner or is
//! gone. Whoever keeps the time rings the shard, at each tick or at the ticks that matter: a stream that nobody rings
//! sleeps until the next wake changes. A shard parks one poller, so a second stream on it puts the first to sleep.
ghost use Rattle.std.specs.Prelude.{◌≡◌, ◌<◌, ◌≤◌, ◌⊎◌, ℕ, ⊤, true, false, [], Bool, Option, Some, None};
ghost use Rattle.std.specs.Prelude.{IfOk, IfErr, IfSome, OnSome};
ghost use Rattle.futures.specs.Task.{Covers, Keeps};
ghost use Rattle.futures.specs.Poll.{IfReady, OnPending};
ghost use Rattle.futures.specs.Runs.{After, Within};
ghost use Rattle.std.specs.Sync.Mutex.{mutex_guard_value};
ghost use Rattle.dq_shards.specs.Items.{IfGiven, OnEnd, dropped_after};
ghost use Rattle.dq_shards.specs.Streaming.{StreamPolls};
ghost use Rattle.dq_shards.specs.EachPoll.{IsEntered, IsLeastDue, IsParkedAtWake, IsAtWork};
ghost use Rattle.dq_shards.specs.EachPoll.{EndsWhereEmpty, EndsByFault, TurnsAt, AnswersAt, GivesAt, is_over};

use crate::parking::parked::{Parked, let_sleep};
use crate::parking::row::{Row, Shard};
use crate::parking::sleeping::{
    NextOf, Polled, Sleeps, StreamFault, ValueOf, forget, register, turn,
};
use crate::parking::source::TickSource;
use dq_core::Expired;
use futures::Stream;
use futures::task::{Context, Poll, Source, Waker};
use std::alloc::Allocator;
use std::num::NonZeroU32;
use std::sync::{MutexGuard, Wait};

/// What a stream asks of a queue of shards.
pub trait Shards {
    /// A shard behind its lock.
    type State: Sleeps;

    /// What its row was allocated by.
    type Alloc: Allocator;

    /// Why a call is refused.
    type Error;

    /// How many shards it has.
    ghost places: { Self → ℕ };

    /// There is no such shard.
    ghost unknown: { Self.Error };

    /// Whether a refused tick ends a stream for good.
    ghost ends: { Bool };

    /// Its shards behind their locks.
    fn row(&self) -> &Row<Self::State, Self::Alloc>
        ensures { result.now ≡ places self.now };

    /// The refusal where there is no such shard.
    fn unknown() -> Self::Error
        ensures { result ≡ unknown };

    /// Whether a refused tick ends a stream for good.
    fn ends() -> bool
        ensures { result ≡ ends };

    /// Takes a shard's lock, takes out who is parked there, and asks the source for the tick, before the lock or under
    /// it.
    fn entered<S: TickSource, R: Wait>(
        &self,
        rt: &R,
        place: usize,
        source: &mut S,
        before: &mut Option<Parked<NextOf<Self::State>>>,
    ) -> (MutexGuard<'_, Self::State>, u64)
        requires { place < places self.now }
        ensures tick { S.tells source.old result.1 source.new }
        ensures entered { IsEntered Self.State.parks Self.State.keeps Self.State.stands place
            (places self.now) (mutex_guard_value result.0) }
        ensures none { Self.State.parked (mutex_guard_value result.0) ≡ None };
}

/// How many steps a stream makes a poll.
pub trait Pace: Drop {
    /// At most so many; none where each poll is whole.
    ghost most: { Self → Option ℕ };

    /// At most so many; none where each poll is whole.
    fn most(&self) -> Option<u32>
        ensures { result ≡ most self.now };
}

/// Each poll is whole.
#[derive(Clone, Copy, Debug, PartialEq, Eq, Drop)]
pub struct Whole;

impl Pace for Whole {
    ghost most = { λ _. None };

    fn most(&self) -> Option<u32> {
        None
    }
}

impl Pace for NonZeroU32 {
    ghost most = { λ steps. Some steps.value };

    fn most(&self) -> Option<u32> {
        Some(self.get())
    }
}

/// The entries that expire in one shard, at the ticks of a source.
///
/// Each poll takes the shard's lock once, and returns one entry that is due. Else it parks its task in the shard until
/// the shard's next wake, one task a shard. The shard wakes the task if the next wake comes sooner or goes away, and
/// `ring` of the queue wakes it at a tick. A stream may be polled again at any time. It holds no entry, so none is lost
/// when it is dropped; its task stays parked until it is woken or another takes its place.
#[derive(Drop)]
pub struct ShardStream<'q, Q: Shards, S, R: Wait, P = Whole> {
    pub(crate) rt: &'q R,
    pub(crate) queue: &'q Q,
    pub(crate) place: usize,
    pub(crate) source: S,
    pub(crate) name: Source,
    pub(crate) ended: bool,
    pub(crate) pace: P,
    ghost in_range: { place < Q.places queue.now },
    ghost may_end: { ended ≡ true → Q.ends ≡ true },
}

impl<'q, Q: Shards, S, R: Wait> ShardStream<'q, Q, S, R, Whole> {
    /// Makes a stream of the shard at `place`, at the ticks of `source`. It takes no memory.
    ///
    /// # Errors
    /// `Unknown` if there is no such shard. `source` comes back.
    pub fn new(
        rt: &'q R,
        queue: &'q Q,
        place: usize,
        source: S,
    ) -> Result<ShardStream<'q, Q, S, R, Whole>, (Q::Error, S)>
        ensures opened { IfOk result (λ s. (place < Q.places queue.now) × (s.queue ≡ queue.entry)
            × (s.place ≡ place) × (s.source ≡ source) × (s.ended ≡ false)) }
        ensures refused { IfErr result (λ e. (Q.places queue.now ≤ place)
            × (e ≡ (Q.unknown, source))) }
    {
        if place >= queue.row().len() {
            return Err((Q::unknown(), source));
        }
        Ok(ShardStream {
            rt,
            queue,
            place,
            source,
            name: Source::new(),
            ended: false,
            pace: Whole,
        })
    }
}

impl<'q, Q: Shards, S, R: Wait, P: Drop> ShardStream<'q, Q, S, R, P> {
    /// Makes a stream of this one, whose polls make at most `steps` steps. A step settles one entry or moves the
    /// wheel to a slot, and takes constant time, except for the drop of a value.
    ///
    /// A poll that has made them all and has more to do releases the lock, wakes its own task and is `Pending`. So
    /// other threads may take the lock before the task is polled again. If the task is polled at once, it gives way
    /// for a bounded while to the threads that wait for the lock. A paced stream returns what its stream would return,
    /// and parks when that one does. It keeps nothing of a poll: what is under way stands in the shard.
    pub fn paced(self, steps: NonZeroU32) -> ShardStream<'q, Q, S, R, NonZeroU32>
        ensures stays { (result.queue ≡ self.entry.queue) × (result.place ≡ self.entry.place)
            × (result.source ≡ self.entry.source) × (result.ended ≡ self.entry.ended) }
        ensures steps { result.pace ≡ steps }
    {
        self.at_pace(steps)
    }

    /// Returns its stream, which makes whole polls.
    pub fn into_inner(self) -> ShardStream<'q, Q, S, R, Whole>
        ensures stays { (result.queue ≡ self.entry.queue) × (result.place ≡ self.entry.place)
            × (result.source ≡ self.entry.source) × (result.ended ≡ self.entry.ended) }
    {
        self.at_pace(Whole)
    }

    fn at_pace<N>(self, pace: N) -> ShardStream<'q, Q, S, R, N>
        ensures stays { (result.queue ≡ self.entry.queue) × (result.place ≡ self.entry.place)
            × (result.source ≡ self.entry.source) × (result.ended ≡ self.entry.ended) }
        ensures pace { result.pace ≡ pace }
    {
        let rt = self.rt;
        let name = self.name;
        ShardStream {
            rt,
            queue: self.queue,
            place: self.place,
            source: self.source,
            name,
            ended: self.ended,
            pace,
        }
    }
}

// How many of the values that are deferred are dropped behind a poll: none where it gave an entry, which a drop that
// panics would lose.
fn dropped_behind<T>(answer: &Polled<T>, deferred: usize) -> usize
    ensures { result ≡ dropped_after answer.now deferred }
{
    match answer {
        Poll::Ready(Some(Ok(_))) => 0,
        _ => deferred,
    }
}

// Whether a stream has ended for good after this answer, where a refused tick ends it or doesn't.
fn ends_by<T>(ends: bool, answer: &Polled<T>) -> bool
    ensures { result ≡ is_over ends answer.now }
{
    ends && matches!(
        answer,
        Poll::Ready(Some(Err(StreamFault::TickTooLarge { .. })))
    )
}

// What a poll does under its shard's lock, for a task that left its waker. Who was parked there before goes out with
// the answer, and so does how many values are deferred. It knows no drop of a value, so none is dropped here.
fn poll_entered<Q: Shards, S: TickSource, R: Wait>(
    queue: &Q,
    rt: &R,
    place: usize,
    source: &mut S,
    most: Option<u32>,
    slot: &mut Option<Waker>,
    before: &mut Option<Parked<NextOf<Q::State>>>,
) -> (Option<Polled<ValueOf<Q::State>>>, usize)
    requires { place < Q.places queue.now }
    ensures { (tick : ℕ) × S.tells source.old tick source.new
        × TurnsAt Q.State.core Q.State.changes Q.State.parked Q.State.parks Q.State.Next.waits
        Q.State.keeps Q.State.stands place (Q.places queue.now) most tick slot.old result.0 }
{
    let (mut shard, tick) = queue.entered(rt, place, source, before);
    let polled = turn(&mut *shard, tick, most, slot);
    shard.law();
    (polled, shard.deferred())
}

/// Polls the shard at a place of a queue once for a task, whole or by at most `most` steps. It is pending where the
/// shard has more to do: the task is woken then. What is deferred is dropped once the lock is free; where an entry is
/// given, by a later call.
pub fn poll_place<Q: Shards, S: TickSource, R: Wait>(
    queue: &Q,
    rt: &R,
    place: usize,
    source: &mut S,
    most: Option<u32>,
    name: &Source,
    cx: &mut Context<'_>,
) -> Polled<ValueOf<Q::State>>
where
    ValueOf<Q::State>: Drop,
    requires { place < Q.places queue.now }
    ensures registered { OnPending result (Covers cx.new (λ s. s ≡ name.now.id)) }
    ensures polls { (tick : ℕ) × S.tells source.old tick source.new
        × AnswersAt Q.State.core Q.State.changes Q.State.parked Q.State.parks Q.State.Next.waits
        Q.State.keeps Q.State.stands place (Q.places queue.now) cx.old cx.new most tick result }
    ensures kept { Keeps cx.old cx.new }
{
    // The task's waker is made, and those that aren't parked are let go, while the lock is free.
    let mut before = None;
    let mut slot = register(name, cx);
    let (polled, deferred) = poll_entered(queue, rt, place, source, most, &mut slot, &mut before);
    let_sleep(before);
    forget(slot);
    let Some(answer) = polled else {
        let _woken: Poll<()> = cx.yield_now();
        queue.row().drop_deferred(rt, place, deferred);
        return Poll::Pending;
    };
    queue
        .row()
        .drop_deferred(rt, place, dropped_behind(&answer, deferred));
    answer
}

impl<'q, Q: Shards, S: TickSource, R: Wait, P: Pace> ShardStream<'q, Q, S, R, P> {
    /// Polls the stream once, on a shard whose lock the caller holds. It polls the shard in hand, and takes no lock. It
    /// takes the parked task out, asks its source for the tick, and polls the shard once. It returns:
    /// - `Ready(Some(Ok(..)))` with an entry that is due. No live entry of the shard has an earlier deadline.
    /// - `Pending` if no live entry is due: the task is parked in the shard at its next wake.
    /// - `Pending` if the stream is paced and more steps are left: nothing is parked, and the polled task is woken.
    /// - `Ready(None)` if the shard holds no entry. Later polls go on.
    /// - `Ready(Some(Err(..)))` for a fault: see below.
    ///
    /// It makes the polled task's waker under the lock, and drops the waker that was parked before there. If such a
    /// drop may call the queue, take the waker out before, and drop it after the lock is released.
    ///
    /// # Errors
    /// Each is an item of the stream:
    /// - `TickTooLarge` if the source tells a tick beyond the last one. The stream has ended then: each later poll
    ///   returns `Ready(None)`.
    /// - `NoMemory` if no waker can be made. The stream goes on.
    pub fn poll_locked(
        &mut self,
        shard: &mut Q::State,
        cx: &mut Context<'_>,
    ) -> Polled<ValueOf<Q::State>>
        // What is given is due, and no live entry of the shard has an earlier deadline. None is given
        // only where nothing is linked, or where it had ended for good.
        ensures given { IfGiven result (IsLeastDue (Q.State.core shard.new)) }
        ensures empty { EndsWhereEmpty self.old.ended result (Q.State.core shard.new) }

        // It waits where none is due: registered, and parked at the next wake with a waker of this task.
        // Or it is at work: so many steps fewer are left, and the task is woken.
        ensures waits { OnPending result (IsParkedAtWake Q.State.Next.waits cx.old cx.new
            (Q.State.core shard.new) (Q.State.parked shard.new)
            ⊎ IsAtWork cx.new (P.most self.old.pace) (Q.State.core shard.old)
            (Q.State.core shard.new) (Q.State.parked shard.new)) }
        ensures registered { OnPending result (Covers cx.new (λ s. s ≡ self.new.name.id)) }

        // It ends for good after a refused tick, if that ends it, and only then; nothing changes any
        // more then.
        ensures ends { EndsByFault Q.ends cx.new self.old.ended result self.new.ended }
        ensures over { self.old.ended ≡ true
            → (result ≡ Poll.Ready None) × (self.new ≡ self.old) × (shard.new ≡ shard.old) }

        // All that it does: the shard's own poll, at a tick that the source told. It stays a stream of
        // its shard.
        ensures polls { self.old.ended ≡ false → (tick : ℕ)
            × S.tells self.old.source tick self.new.source
            × StreamPolls Q.State.core Q.State.changes Q.State.parked Q.State.parks
            Q.State.Next.waits cx.old cx.new (P.most self.old.pace) shard.old tick result shard.new }
        ensures stays { (self.new.queue ≡ self.old.queue) × (self.new.place ≡ self.old.place)
            × (self.new.name ≡ self.old.name) × (self.new.rt ≡ self.old.rt)
            × (self.new.pace ≡ self.old.pace) }
        ensures kept { Keeps cx.old cx.new }
    {
        if self.ended {
            return Poll::Ready(None);
        }
        let mut slot = register(&self.name, cx);
        let_sleep(shard.take_parked());
        let polled = turn(shard, self.source.now(), self.pace.most(), &mut slot);
        forget(slot);
        let Some(answer) = polled else {
            let _woken: Poll<()> = cx.yield_now();
            return Poll::Pending;
        };
        self.ended = ends_by(Q::ends(), &answer);
        answer
    }
}

impl<'q, Q: Shards, S: TickSource, R: Wait, P: Pace> Stream for ShardStream<'q, Q, S, R, P>
where
    ValueOf<Q::State>: Drop,
{
    type Item = Result<Expired<ValueOf<Q::State>>, StreamFault>;

    ghost needs = { λ stream s. s ≡ stream.name.id };

    ghost yields = { λ stream. GivesAt Q.State.core Q.State.changes Q.State.parked Q.State.parks
        Q.State.Next.waits Q.State.keeps Q.State.stands Q.ends stream.place
        (Q.places stream.queue.now) stream.ended };

    /// Polls the stream once. It returns:
    /// - `Ready(Some(Ok(..)))` with an entry that is due. No live entry of the shard has an earlier deadline.
    /// - `Pending` if no live entry is due: the task is parked in the shard until its next wake.
    /// - `Pending` if the stream is paced and more steps are left: nothing is parked, and the polled task is woken.
    /// - `Ready(None)` if the shard holds no entry. Later polls go on.
    /// - `Ready(Some(Err(..)))` for a fault: `TickTooLarge` if the source tells a tick beyond the last one, and
    ///   `NoMemory` if no waker can be made. The stream goes on after `NoMemory`. After `TickTooLarge` it has ended:
    ///   each later poll returns `Ready(None)` without taking the lock.
    ///
    /// It makes the polled task's waker before it takes the shard's lock, and drops the one that was parked before
    /// after it has released the lock. It asks the source under the lock, so the source may not take that lock. It
    /// costs as much as one poll of the shard.
    fn poll_next(&mut self, cx: &mut Context<'_>) -> Polled<ValueOf<Q::State>>
        // It waits registered with its context, or with its task woken.
        ensures registered { OnPending result (Covers cx.new (λ s. s ≡ self.new.name.id)) }

        // It ends for good after a refused tick, if that ends it, and only then; nothing of it changes
        // any more then. And nothing is given only then, or where no poller may wait for an insert.
        ensures ends { EndsByFault Q.ends cx.new self.old.ended result self.new.ended }
        ensures over { self.old.ended ≡ true → (result ≡ Poll.Ready None) × (self.new ≡ self.old) }
        ensures lasts { OnEnd result ((Q.ends ≡ true) ⊎ (Q.State.Next.waits None ≡ None)) }

        // It stays a stream of its shard, at its pace.
        ensures stays { (self.new.queue ≡ self.old.queue) × (self.new.place ≡ self.old.place)
            × (self.new.name ≡ self.old.name) × (self.new.rt ≡ self.old.rt)
            × (self.new.pace ≡ self.old.pace) }

        // All that it does: the poll of the shard at its place, at a tick that the source told.
        ensures polls { self.old.ended ≡ false → (tick : ℕ)
            × S.tells self.old.source tick self.new.source
            × AnswersAt Q.State.core Q.State.changes Q.State.parked Q.State.parks
            Q.State.Next.waits Q.State.keeps Q.State.stands self.old.place
            (Q.places self.old.queue.now) cx.old cx.new (P.most self.old.pace) tick result }

        // What every stream owes. It may be polled at any time: two of these bind nothing here.
        ensures value { IfReady result (GivesAt Q.State.core Q.State.changes Q.State.parked Q.State.parks
            Q.State.Next.waits Q.State.keeps Q.State.stands Q.ends self.old.place
            (Q.places self.old.queue.now) self.old.ended []) }
        ensures rest { IfReady result (λ o. IfSome o (λ x.
            After (GivesAt Q.State.core Q.State.changes Q.State.parked Q.State.parks
            Q.State.Next.waits Q.State.keeps Q.State.stands Q.ends self.old.place
            (Q.places self.old.queue.now) self.old.ended) x
            (GivesAt Q.State.core Q.State.changes Q.State.parked Q.State.parks
            Q.State.Next.waits Q.State.keeps Q.State.stands Q.ends self.new.place
            (Q.places self.new.queue.now) self.new.ended))) }
        ensures goes { IfReady result (λ o. OnSome o ⊤) }
        ensures again { OnPending result ⊤ }
        ensures same { OnPending result
            (Within (GivesAt Q.State.core Q.State.changes Q.State.parked Q.State.parks
            Q.State.Next.waits Q.State.keeps Q.State.stands Q.ends self.old.place
            (Q.places self.old.queue.now) self.old.ended)
            (GivesAt Q.State.core Q.State.changes Q.State.parked Q.State.parks
            Q.State.Next.waits Q.State.keeps Q.State.stands Q.ends self.new.place
            (Q.places self.new.queue.now) self.new.ended)) }
        ensures kept { Keeps cx.old cx.new }
    {
        if self.ended {
            return Poll::Ready(None);
        }
        let most = self.pace.most();
        if most.is_some() {
            self.queue.row().give_way(self.place);
        }
        let answer = poll_place(
            self.queue,
            self.rt,
            self.place,
            &mut self.source,
            most,
            &self.name,
            cx,
        );
        self.ended = ends_by(Q::ends(), &answer);
        answer
    }
}
