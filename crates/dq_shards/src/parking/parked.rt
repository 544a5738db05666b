//! A poller that waits for a shard.
ghost use Rattle.std.specs.Prelude.{◌≡◌, ℕ, Option, Some, None, Bool, true, is_some, IfSome};
ghost use Rattle.dq_shards.specs.Parking.{still_parked, after_ring, is_rung, Leaves};
ghost use Rattle.dq_shards.specs.Waits.{lasts_until, lasts_or_idles, wait_ends_by, ends_by_tick};

use futures::task::Waker;
use std::mem;

/// What a poller waits for. Ticks are of one millisecond.
pub trait Until: Sized + Drop {
    /// Whether one that waits so may go on waiting at a next wake.
    ghost lasts: { Self → Option ℕ → Bool };

    /// Whether its wait is over at a tick.
    ghost ends: { Self → ℕ → Bool };

    /// What one waits for who is parked at a next wake, none where nothing is linked; none if nobody may be parked so.
    ghost waits: { Option ℕ → Option Self };

    /// What one waits for who is parked at a next wake, none where nothing is linked; none if nobody may be parked so.
    fn of_wake(next_wake: Option<u64>) -> Option<Self>
        ensures value { result ≡ waits next_wake }
        ensures may_wait { IfSome result (λ next. lasts next next_wake ≡ true) }
        ensures linked { (result ≡ None) → next_wake ≡ None };

    /// Whether one that waits so may go on waiting at a next wake, none where nothing is linked.
    fn lasts_until(&self, next_wake: Option<u64>) -> bool
        ensures { result ≡ lasts self.now next_wake };

    /// Whether its wait is over at a tick.
    fn ends_by(&self, tick: u64) -> bool
        ensures { result ≡ ends self.now tick };
}

/// It waits for a tick, which isn't after the next wake.
impl Until for u64 {
    ghost lasts = { λ next wake. lasts_until next wake };

    ghost ends = { λ next tick. ends_by_tick next tick };

    ghost waits = { λ wake. wake };

    fn of_wake(next_wake: Option<u64>) -> Option<u64> {
        next_wake
    }

    fn lasts_until(&self, next_wake: Option<u64>) -> bool {
        matches!(next_wake, Some(wake) if *self <= wake)
    }

    fn ends_by(&self, tick: u64) -> bool {
        *self <= tick
    }
}

/// It waits for a tick, or without one for an insert, while nothing is linked.
impl Until for Option<u64> {
    ghost lasts = { λ next wake. lasts_or_idles next wake };

    ghost ends = { λ next tick. wait_ends_by next tick };

    ghost waits = { λ wake. Some wake };

    fn of_wake(next_wake: Option<u64>) -> Option<Option<u64>> {
        Some(next_wake)
    }

    fn lasts_until(&self, next_wake: Option<u64>) -> bool {
        match self {
            Some(next) => next.lasts_until(next_wake),
            None => next_wake.is_none(),
        }
    }

    fn ends_by(&self, tick: u64) -> bool {
        matches!(self, Some(next) if *next <= tick)
    }
}

/// A poller that waits for a tick, or for what `N` says.
#[derive(Drop)]
pub struct Parked<N = u64> {
    /// What it waits for: a tick of one millisecond, or an option of one, where none is a wait for an insert.
    pub next: N,
    /// Wakes its task.
    pub waker: Waker,
}

impl<N: Drop> Parked<N> {
    /// Lets the poller go and doesn't wake its task.
    pub fn forget(poller: Parked<N>) {
        // A waker that is dropped wakes.
        mem::forget(poller.waker);
    }
}

/// Lets a poller go that was taken out, and doesn't wake its task. True where there is one. Its waker is the user's:
/// where letting it go may call the queue, the shard's lock is to be free.
pub fn let_sleep<N: Drop>(taken: Option<Parked<N>>) -> bool
    ensures { result ≡ is_some taken }
{
    match taken {
        Some(poller) => {
            Parked::forget(poller);
            true
        }
        None => false,
    }
}

/// A poller that has left its shard, if one has. It isn't `Drop`: whoever has it has to wake it, once the shard's lock
/// is free.
pub struct PendingWake<N = u64> {
    /// The poller; none where none has left.
    pub poller: Option<Parked<N>>,
}

impl<N: Drop> PendingWake<N> {
    /// Wakes its task.
    #[inline]
    pub fn wake(self) {
        let PendingWake { poller } = self;
        if let Some(poller) = poller {
            poller.waker.wake();
        }
    }

    /// Whether there is one.
    pub fn is_some(&self) -> bool
        ensures { result ≡ is_some self.now.poller }
    {
        self.poller.is_some()
    }
}

/// Takes the poller out, if there is one.
pub fn take<N: Drop>(parked: &mut Option<Parked<N>>) -> PendingWake<N>
    ensures stays { parked.new ≡ None }
    ensures leaves { Leaves parked.old result.poller parked.new }
{
    PendingWake {
        poller: parked.take(),
    }
}

/// Takes the poller out unless it may go on waiting at this next wake.
pub fn keep_until<N: Until>(
    parked: &mut Option<Parked<N>>,
    next_wake: Option<u64>,
) -> PendingWake<N>
    ensures stays { parked.new ≡ still_parked N.lasts parked.old next_wake }
    ensures leaves { Leaves parked.old result.poller parked.new }
{
    match parked {
        Some(poller) if !poller.next.lasts_until(next_wake) => take(parked),
        _ => PendingWake { poller: None },
    }
}

/// Takes the poller out where its wait is over at a tick.
pub fn ring<N: Until>(parked: &mut Option<Parked<N>>, tick: u64) -> PendingWake<N>
    ensures is_rung { is_some result.poller ≡ is_rung N.ends parked.old tick }
    ensures stays { parked.new ≡ after_ring N.ends parked.old tick }
    ensures leaves { Leaves parked.old result.poller parked.new }
{
    match parked {
        Some(poller) if poller.next.ends_by(tick) => take(parked),
        _ => PendingWake { poller: None },
    }
}
