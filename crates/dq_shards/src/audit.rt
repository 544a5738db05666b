//! The totals of all shards, which an audit answers.
ghost use Rattle.std.specs.Prelude.{◌<◌, ◌≤◌, ◌*◌, IfOk, IfErr};
ghost use Rattle.dq_words.specs.Counts.{most_begins};
ghost use Rattle.dq_shards.specs.declared.errors.TheConstants.{SHARD_LIMIT};
ghost use Rattle.dq_shards.specs.Changes.{OnNumbered, OnlyKeeperGoesOn};
ghost use Rattle.dq_shards.specs.Shard.{keeper_of};
ghost use Rattle.dq_shards.specs.Audits.{AddUp, FewInserted, IsSum, IsTotals};
ghost use Rattle.dq_shards.specs.Audits.{EndsAreBegun, AreTotalsOf, ShardAudits, QueueAudits};

use crate::queue::SharedDelayQueue;
use crate::state::ShardState;
use dq_core::Tally;
use std::alloc::Allocator;
use std::sync::Wait;
use thiserror::Error;

/// What became of all entries that were ever inserted: `inserted` is the sum of the others.
#[derive(Clone, Copy, Debug, PartialEq, Eq)]
pub struct Totals {
    /// Inserts.
    pub inserted: u64,
    /// Entries that came out of a poll.
    pub expired: u64,
    /// Entries that were removed, by `clear` too.
    pub removed: u64,
    /// Accepted cancels, reaped or not.
    pub cancelled: u64,
    /// Entries that are live.
    pub live: u64,
}

/// Some callers are not given back, so no audit can tell how many cancels were accepted.
#[derive(Clone, Copy, Debug, PartialEq, Eq, Error)]
#[error("{out} handles are out")]
pub struct HandlesOut {
    /// How many of one shard's callers are out.
    pub out: u64,
}

const NOTHING: Totals = Totals {
    inserted: 0,
    expired: 0,
    removed: 0,
    cancelled: 0,
    live: 0,
};

fn sum(one: &Totals, other: &Totals) -> Totals
    requires sums { AddUp one.now × AddUp other.now }
    requires few { (one.now.inserted ≤ SHARD_LIMIT * most_begins) × FewInserted other.now }
    ensures { IsSum one.now other.now result }
{
    Totals {
        inserted: one.inserted + other.inserted,
        expired: one.expired + other.expired,
        removed: one.removed + other.removed,
        cancelled: one.cancelled + other.cancelled,
        live: one.live + other.live,
    }
}

// The totals of a shard's tally, where callers accepted so many cancels.
fn totals_of(tally: &Tally, cancelled: u64) -> Totals
    requires { EndsAreBegun tally.now cancelled }
    ensures { AreTotalsOf tally.now cancelled result }
{
    Totals {
        inserted: tally.inserted,
        expired: tally.expired,
        removed: tally.removed,
        cancelled,
        live: tally.inserted - tally.expired - tally.removed - cancelled,
    }
}

impl<T, A: Allocator> ShardState<T, A> {
    /// Returns what became of all entries of this shard that were ever inserted: what expired, was removed, was
    /// cancelled (freed or not) and is live adds up to what was inserted. It takes constant time and no memory.
    ///
    /// # Errors
    /// `HandlesOut` if some callers aren't given back, with their number: what they cancelled isn't known.
    pub fn audit(&mut self) -> Result<Totals, HandlesOut>
        // All that was ever inserted is accounted for, by what the true words say.
        ensures adds_up { IfOk result (λ t. AddUp t) }
        ensures totals { IfOk result (λ t. IsTotals (keeper_of self.new) t) }
        ensures few { IfOk result (λ t. FewInserted t) }

        // Else some callers are out. The queue and the poller stay.
        ensures out { IfErr result (λ e. 0 < e.out) }
        ensures stays { OnlyKeeperGoesOn self.old self.new }

        // All that it does.
        ensures audits { ShardAudits self.old result self.new }
    {
        let tally = self.watched.core.tally();
        match self.watched.core.returned() {
            Ok(cancelled) => Ok(totals_of(&tally, cancelled)),
            Err(out) => Err(HandlesOut { out }),
        }
    }
}

impl<T, A: Allocator> SharedDelayQueue<T, A> {
    // The totals of one shard.
    fn audit_of<R: Wait>(&self, rt: &R, shard: usize) -> Result<Totals, HandlesOut>
        requires { shard < self.now }
        ensures { OnNumbered {T = T} shard ShardAudits result }
    {
        let mut shard = self.row.lock(rt, shard);
        let audited = shard.audit();
        shard.law();
        audited
    }

    /// Returns what became of all entries that were ever inserted, over all shards: what expired, was removed, was
    /// cancelled (freed or not) and is live adds up to what was inserted. It takes the lock of each shard in turn for
    /// constant time, and no memory.
    ///
    /// A handle that was dropped and not given back is out for good: then no audit returns totals any more.
    ///
    /// # Errors
    /// `HandlesOut` if a handle isn't given back, with the number that is out by the first shard that has one.
    pub fn audit<R: Wait>(&self, rt: &R) -> Result<Totals, HandlesOut>
        // All that was ever inserted is accounted for, or some callers are out.
        ensures adds_up { IfOk result (λ t. AddUp t) }
        ensures out { IfErr result (λ e. 0 < e.out) }

        // All that it answers.
        ensures audits { QueueAudits T self.now result }
    {
        let mut sums = NOTHING;
        for shard in 0..self.shards() {
            sums = sum(&sums, &self.audit_of(rt, shard)?);
        }
        Ok(sums)
    }
}
