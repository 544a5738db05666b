//! Calls that free cancelled entries.

ghost use Rattle.std.specs.Prelude.{◌≡◌, ◌<◌, ◌≤◌, ◌+◌, MatchOption, OnOk, Some, None, Err, length};
ghost use Rattle.dq_core.specs.declared.errors.ReapError.TheVariants.{Missing};
ghost use Rattle.dq_core.specs.Calls.{SameCore};
ghost use Rattle.dq_core.specs.Core.{IsLawfulCore};
ghost use Rattle.dq_core.specs.Sweeps.{Reaps};
ghost use Rattle.dq_core.specs.Words.{StillBegun};
ghost use Rattle.dq_growing.specs.Stands.{Ages, HasNoEntry, KeepsWords};
ghost use Rattle.dq_growing.specs.Cores.{OnCoreAt, OnCoreOr, SweepsFrom};

use crate::cores::Cores;
use dq_core::{DelayCore, ReapError, Swept, Words};
use dq_ticks::EntryId;
use std::alloc::Allocator;

// Reaps the entry of that name in a core.
fn reap_from<T, W: Words, A: Allocator>(
    core: &mut DelayCore<T, W, A>,
    entry: &EntryId,
) -> Result<(), ReapError>
    ensures lawful { IsLawfulCore core.new }
    ensures reaps { Reaps W.shared core.old entry.now result core.new }
    ensures noted { core.new.noted ≡ core.old.noted }
    ensures same { SameCore core.old core.new }
    ensures origin { W.origin core.new.words ≡ W.origin core.old.words }
    ensures begun { StillBegun W.begun core.old.words core.new.words }
{
    let answer = core.reap_deferring(entry);
    core.law();
    answer
}

impl<T, W: Words, A: Allocator> Cores<T, W, A> {
    /// Reaps the entry of that name where it is found cancelled. Its value isn't dropped: it waits until it is taken
    /// out.
    ///
    /// # Errors
    /// `Missing` where no entry of that name is linked; `Live` where it is found live.
    pub fn reap(&mut self, entry: &EntryId) -> Result<(), ReapError>
        // No id that an entry has had is given anew.
        ensures ages { Ages self.old self.new }
        ensures reaps { OnCoreOr entry.now.shard (λ b c. Reaps W.shared b entry.now result c)
            (result ≡ Err Missing) self.old self.new }
        ensures gone { OnOk result (HasNoEntry self.new entry.now) }
        ensures words { KeepsWords W.origin W.begun self.old self.new }
    {
        let Some(at) = self.place_of(entry.shard()) else {
            return Err(ReapError::Missing);
        };
        let answer = reap_from(&mut self.cores[at], entry);
        answer
    }

    /// Reaps each linked entry that is found cancelled at `count` slots from `from` on of the core at a place, and
    /// tells the slot to go on from. It returns none where there is no such place. No value is dropped: each waits
    /// until it is taken out.
    pub fn sweep_some(&mut self, place: usize, from: usize, count: usize) -> Option<Swept>
        // No id that an entry has had is given anew.
        ensures ages { Ages self.old self.new }
        ensures sweeps { MatchOption result
            ((length self.old.cores ≤ place) × (self.new ≡ self.old))
            (λ swept. OnCoreAt place
            (SweepsFrom W.shared from (from + count) swept) self.old self.new) }
        ensures words { KeepsWords W.origin W.begun self.old self.new }
    {
        if place >= self.cores.len() {
            return None;
        }
        let swept = self.cores[place].sweep_some_deferring(from, count);
        Some(swept)
    }
}
