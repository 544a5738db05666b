//! What a queue's row and a stream ask of a shard behind its lock, and of the poller that waits for it, one at a time;
//! and what a stream asks of the queue.
ghost use Rattle.std.specs.Prelude.{◌≡◌, true, Some, option_map};
ghost use Rattle.dq_core.specs.Deferring.{WillDisplace, waiting_in};
ghost use Rattle.dq_shards.specs.Parking.{poller};
ghost use Rattle.dq_shards.specs.declared.errors.QueueError.TheVariants.{Unknown};
ghost use Rattle.dq_shards.specs.Shard.{IsParked, IsShard};
ghost use Rattle.dq_shards.specs.Changes.{Changes, Unparks, TakesParked, Rings};
ghost use Rattle.std.proofs.Common.{refl};

use crate::errors::QueueError;
use crate::parking::{Parked, Row, Shard, Shards, Sleeps, TickSource, let_sleep, ring};
use crate::queue::SharedDelayQueue;
use crate::state::ShardState;
use dq_core::{CoreError, Piece};
use futures::task::Waker;
use std::alloc::Allocator;
use std::sync::{MutexGuard, Wait};

impl<T, A: Allocator> ShardState<T, A> {
    /// How many values are deferred: those of entries that were reaped or cleared, and that aren't dropped yet.
    /// Constant time.
    #[inline(always)]
    pub fn deferred(&self) -> usize
        ensures { result ≡ waiting_in self.now.core.deferred }
    {
        self.watched.core.deferred()
    }

    /// Returns the tick, of one millisecond, until which a task is parked. It returns none if no task is parked.
    pub fn parked(&self) -> Option<u64>
        ensures { result ≡ option_map (λ p. p.next) self.now.parked }
    {
        match &self.watched.parked {
            Some(poller) => Some(poller.next),
            None => None,
        }
    }

    /// Parks a task until `next`, a tick of one millisecond that isn't after the next wake. A task that was parked
    /// before is replaced, and isn't woken.
    ///
    /// # Panics
    /// If `next` is after the next wake, or nothing is linked.
    pub fn park(&mut self, next: u64, waker: Waker)
        requires { IsParked self.old.core (Some (poller next waker)) }
        ensures { self.new ≡ record self.old { parked = Some (poller next waker) } }
    {
        self.unpark();
        self.watched.parked = Some(Parked { next, waker });
    }

    /// Takes the parked task out, and doesn't wake it. It returns whether there was one.
    pub fn unpark(&mut self) -> bool
        ensures { Unparks self.old result self.new }
    {
        let_sleep(self.take_parked())
    }

    /// Takes the parked task out, and returns it unwoken. Whoever has its waker may wake it, or drop it, after the
    /// shard's lock is released.
    pub fn take_parked(&mut self) -> Option<Parked>
        ensures { TakesParked self.old result self.new }
    {
        self.watched.parked.take()
    }

    /// Tells the shard that `tick`, of one millisecond, is reached: a task that is parked until `tick` or before is
    /// taken out and woken. It returns whether there was one.
    pub fn ring(&mut self, tick: u64) -> bool
        ensures { Rings self.old tick result self.new }
    {
        let rung = ring(&mut self.watched.parked, tick);
        let is_rung = rung.is_some();
        rung.wake();
        is_rung
    }
}

impl<T, A: Allocator> Shard for ShardState<T, A> {
    type Value = T;

    type Next = u64;

    ghost keeps = { λ s. IsShard s };

    ghost stands = { λ s place places. s.core.shard ≡ place };

    ghost same = { λ s t. t ≡ record s { core = record s.core { deferred = t.core.deferred } } };

    ghost deferred_in = { λ s. waiting_in s.core.deferred };

    ghost has_room = { λ s. ¬ WillDisplace s.core.slots s.core.deferred };

    #[tactic(auto, using(crate::proofs::ParkedLaw::told))]
    fn law(&self) {
        self.watched.core.law();
    }

    #[inline(always)]
    fn stands_at(&self, place: usize, _places: usize) -> bool {
        self.watched.core.shard() as usize == place
    }

    #[inline(always)]
    fn deferred(&self) -> usize {
        self.watched.core.deferred()
    }

    #[inline(always)]
    #[tactic(auto, using(crate::proofs::ParkedLaw::one_displaced))]
    fn take_displaced(&mut self) -> Option<T> {
        self.watched.core.take_displaced()
    }

    fn take_one(&mut self, is_mine: &mut bool) -> Option<T> {
        self.watched.take_one(is_mine)
    }

    fn end_dropping(&mut self, is_mine: &mut bool) {
        self.watched.end_dropping(is_mine);
    }
}

/// A poller waits for a tick: where nothing is linked none is parked.
impl<T, A: Allocator> Sleeps for ShardState<T, A> {
    ghost core = { λ s. s.core };

    ghost parked = { λ s. s.parked };

    ghost parks = { λ s p. record s { parked = p } };

    ghost changes = { λ s t. Changes s t };

    fn take_parked(&mut self) -> Option<Parked> {
        ShardState::take_parked(self)
    }

    fn park(&mut self, next: u64, waker: Waker) {
        ShardState::park(self, next, waker);
    }

    fn poll_piece(&mut self, tick: u64, most: Option<u32>) -> Result<Piece<T>, CoreError> {
        self.watched.poll_unparked(tick, most)
    }

    ghost is_parked = { λ s p. refl };

    ghost same_core = { λ s p. refl };
}

/// A stream of a shard asks its source under the shard's lock, and ends by a refused tick.
impl<T, A: Allocator> Shards for SharedDelayQueue<T, A> {
    type State = ShardState<T, A>;

    type Alloc = A;

    type Error = QueueError;

    ghost places = { λ shards. shards };

    ghost unknown = { Unknown };

    ghost ends = { true };

    fn row(&self) -> &Row<ShardState<T, A>, A> {
        &self.row
    }

    fn unknown() -> QueueError {
        QueueError::Unknown
    }

    fn ends() -> bool {
        true
    }

    fn entered<S: TickSource, R: Wait>(
        &self,
        rt: &R,
        place: usize,
        source: &mut S,
        before: &mut Option<Parked>,
    ) -> (MutexGuard<'_, ShardState<T, A>>, u64) {
        let mut shard = self.row.lock(rt, place);
        *before = shard.take_parked();
        let tick = source.now();
        (shard, tick)
    }
}
