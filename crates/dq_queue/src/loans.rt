//! Cores that are away from a shard. Each left it drained, and may come back as it is, or once it was folded and
//! unfolded.
ghost use Rattle.std.specs.Prelude.{◌≡◌, ◌<◌, ◌↔◌, max, IfErr, IfOk, IsErr, OnErr, OnOk};
ghost use Rattle.dq_core.specs.Core.{machine};
ghost use Rattle.dq_core.specs.Deferring.{NoneDeferred};
ghost use Rattle.dq_core.specs.Machine.{NoneLinked};
ghost use Rattle.dq_core.specs.Folds.{IsFoldable, at_tick, folded_machine};
ghost use Rattle.dq_core.specs.declared.errors.CoreError.TheVariants.{TickTooLarge};
ghost use Rattle.dq_ticks.specs.declared.TheConstants.{LAST_TICK};

use crate::journal::Witness;
use crate::shard::Rooms;
use dq_core::{CoreError, DelayCore, Folded};
use dq_words::Keeper;
use std::alloc::{Allocator, Global};
use std::marker::{Model, PhantomData};

/// A core that left its shard drained. Nothing is put into it while it is away, so it gives no id anew that an entry of
/// the shard had been given.
#[derive(Drop)]
pub struct Drained<T, J: Rooms, A: Allocator = Global> {
    pub(crate) core: DelayCore<T, Keeper<A>, A>,
    pub(crate) shard: u32,
    pub(crate) loan: Witness<DelayCore<T, Keeper<A>, A>, A>,
    pub(crate) rooms: PhantomData<J>,
}

impl<T, J: Rooms, A: Allocator> Model for Drained<T, J, A> {
    ghost use Rattle.std.specs.Prelude.{◌≡◌};
    ghost use Rattle.dq_queue.specs.Loans.{DrainedView, IsLentCore};

    ghost Value = { DrainedView T };

    ghost view = { λ d. record { core = d.core; shard = d.shard; loan = d.loan.view } };

    ghost invariant = { λ d. (d.loan.table ≡ J.loans d.shard) × IsLentCore d.loan.view d.core };
}

/// The same, folded: it keeps its words alone.
#[derive(Drop)]
pub struct FoldedDrained<T, J: Rooms, A: Allocator = Global> {
    folded: Folded<Keeper<A>>,
    shard: u32,
    loan: Witness<DelayCore<T, Keeper<A>, A>, A>,
    rooms: PhantomData<J>,
}

impl<T, J: Rooms, A: Allocator> Model for FoldedDrained<T, J, A> {
    ghost use Rattle.std.specs.Prelude.{◌≡◌};
    ghost use Rattle.dq_queue.specs.Loans.{FoldedView, IsLentFold};

    ghost Value = { FoldedView T };

    ghost view = { λ d. record { folded = d.folded; shard = d.shard; loan = d.loan.view } };

    ghost invariant = { λ d. (d.loan.table ≡ J.loans d.shard) × IsLentFold d.loan.view d.folded };
}

impl<T, J: Rooms, A: Allocator> Drained<T, J, A> {
    /// Returns the core, to be read.
    pub fn core(&self) -> &DelayCore<T, Keeper<A>, A>
        ensures { result.now ≡ self.now.core }
    {
        &self.core
    }

    /// Returns the number of the shard that it left.
    pub fn shard(&self) -> u32
        ensures { result ≡ self.now.shard }
    {
        self.shard
    }
}

impl<T: Drop, J: Rooms, A: Allocator> Drained<T, J, A> {
    /// Gives the core's memory back, but for its words. Constant time, but for the allocator's.
    ///
    /// # Errors
    /// It comes back as it was, if the core holds an entry, or if a freed value waits for its drop.
    pub fn fold(self) -> Result<FoldedDrained<T, J, A>, Drained<T, J, A>>
        // Nothing was linked and no value waited for its drop. The core's number, its machine and its words stay.
        ensures empty { IfOk result (λ f. IsFoldable self.core) }
        ensures machine { IfOk result (λ f. folded_machine f.folded ≡ machine self.core) }
        ensures same { IfOk result (λ f. (f.folded.shard ≡ self.core.shard)
            × (f.folded.words ≡ self.core.words) × (f.shard ≡ self.shard)) }

        // Refused, it comes back as it was: exactly where an entry is linked or a value waits.
        ensures back { IfErr result (λ d. d ≡ self) }
        ensures refused { IsErr result → ¬ IsFoldable self.core }
    {
        let Drained {
            core,
            shard,
            loan,
            rooms: _,
        } = self;
        match core.fold() {
            Ok(folded) => Ok(FoldedDrained {
                folded,
                shard,
                loan,
                rooms: PhantomData,
            }),
            Err(core) => Err(Drained {
                core,
                shard,
                loan,
                rooms: PhantomData,
            }),
        }
    }
}

impl<T, J: Rooms, A: Allocator> FoldedDrained<T, J, A> {
    /// Returns the folded core, to be read.
    pub fn folded(&self) -> &Folded<Keeper<A>>
        ensures { result.now ≡ self.now.folded }
    {
        &self.folded
    }

    /// Returns the number of the shard that it left.
    pub fn shard(&self) -> u32
        ensures { result ≡ self.now.shard }
    {
        self.shard
    }

    /// Notes `tick`, of one millisecond, and goes to the greatest tick noted: the core begins there once it is
    /// unfolded. Constant time.
    ///
    /// # Errors
    /// `TickTooLarge` if `tick` is beyond the last tick. It isn't noted then.
    pub fn come_to(&mut self, tick: u64) -> Result<(), CoreError>
        ensures noted { OnOk result
            (self.new.folded ≡ at_tick self.old.folded (max self.old.folded.noted tick)) }
        ensures refused { IsErr result ↔ (LAST_TICK < tick) }
        ensures error { IfErr result (λ e. e ≡ TickTooLarge LAST_TICK) }
        ensures kept { OnErr result (self.new ≡ self.old) }
        ensures shard { self.new.shard ≡ self.old.shard }
    {
        self.folded.come_to(tick)
    }
}

impl<T, J: Rooms, A: Allocator + Clone> FoldedDrained<T, J, A> {
    /// Makes the core whole again, with nothing in it. It takes time and memory in proportion to the capacity.
    ///
    /// # Errors
    /// It comes back as it was, only if memory is refused.
    pub fn unfold(self, alloc: A) -> Result<Drained<T, J, A>, FoldedDrained<T, J, A>>
        ensures empty { IfOk result
            (λ d. NoneLinked (machine d.core) × NoneDeferred d.core.deferred) }
        ensures machine { IfOk result (λ d. machine d.core ≡ folded_machine self.folded) }
        ensures same { IfOk result (λ d. (d.core.shard ≡ self.folded.shard)
            × (d.core.words.table ≡ self.folded.words.table) × (d.shard ≡ self.shard)) }
        ensures back { IfErr result (λ f. f ≡ self) }
    {
        let FoldedDrained {
            folded,
            shard,
            loan,
            rooms: _,
        } = self;
        match folded.unfold(alloc) {
            Ok(core) => Ok(Drained {
                core,
                shard,
                loan,
                rooms: PhantomData,
            }),
            Err(folded) => Err(FoldedDrained {
                folded,
                shard,
                loan,
                rooms: PhantomData,
            }),
        }
    }
}
