//! The callers of a queue's words.

ghost use Rattle.std.specs.Prelude.{◌≡◌, ◌+◌, ◌≤◌, IfOk};
ghost use Rattle.dq_core.specs.Words.{StillBegun};

use crate::queue::DelayCore;
use crate::words::SharedWords;
use std::alloc::Allocator;

impl<T, W: SharedWords, A: Allocator> DelayCore<T, W, A> {
    ghost use Rattle.dq_core.specs.Readers.{with_words};

    /// Makes one caller of the words, which may go to any thread. It takes memory for the caller.
    pub fn issue(&mut self) -> Result<W::Caller, W::Fault>
        ensures issued { W.issues self.old.words result self.new.words }
        ensures same { self.new ≡ with_words self.old self.new.words }
        ensures origin { W.origin self.new.words ≡ W.origin self.old.words }
        ensures begun { StillBegun W.begun self.old.words self.new.words }
    {
        self.words.issue()
    }

    /// Returns the number of callers that were made and not given back.
    pub fn out(&mut self) -> u64
        ensures told { W.tells self.old.words result self.new.words }
        ensures same { self.new ≡ with_words self.old self.new.words }
        ensures origin { W.origin self.new.words ≡ W.origin self.old.words }
        ensures begun { StillBegun W.begun self.old.words self.new.words }
    {
        self.words.out()
    }

    /// Returns the number of cancels by all callers that were accepted.
    ///
    /// # Errors
    /// The number of callers that are out, if some aren't given back.
    pub fn returned(&mut self) -> Result<u64, u64>
        ensures returned { W.returns self.old.words result self.new.words }
        ensures same { self.new ≡ with_words self.old self.new.words }
        ensures origin { W.origin self.new.words ≡ W.origin self.old.words }
        ensures begun { StillBegun W.begun self.old.words self.new.words }
        ensures counts { self.new.counts ≡ W.counts self.new.words }
        ensures audit { IfOk result (λ c. W.audited self.new.words c
            × (self.new.counts.expiries + self.new.counts.removals + c ≤ self.new.counts.begins)) }
    {
        self.words.returned()
    }
}
