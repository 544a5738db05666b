//! What the queue asks of its words: a row of packed words, one for each slot, and what their keeper knows of them.
//!
//! A word may be plain, and then only its keeper changes it, or shared, and then callers may extend or cancel a
//! live word at any moment. The keeper learns of such a step where it looks.

ghost use Rattle.std.specs.Prelude.{◌≡◌, ℕ, ◌+◌, ◌<◌, ◌≤◌, length, slice_set, List, Bool, Result, IfOk};
ghost use Rattle.dq_ticks.specs.declared.words.Parts.{Parts};
ghost use Rattle.dq_core.specs.Words.{Counts, never, live, removed, word_at, IsOver, IsInForce, Learned, IsSettled, IsChanged, IsFinishedBy, removed_at, begun_counts, settled_counts, finished_counts, StillBegun, look_by};

use dq_ticks::{LAST_STAMP, LAST_TICK, Mark, Parts};
use std::fmt;
use thiserror::Error;

/// How a due entry was settled.
#[derive(Clone, Copy, Debug, PartialEq, Eq, Drop)]
pub enum Settled {
    /// The word was live at exactly the asked deadline, and is expired now.
    SettledExpired,
    /// The word is live at this later deadline.
    Later(u64),
    /// The word was cancelled.
    SettledCancelled,
}

/// What a word shows. Deadlines are ticks of one millisecond.
#[derive(Clone, Copy, Debug, PartialEq, Eq, Drop)]
pub enum Look {
    /// The entry is live, with this deadline in force.
    StillLive(u64),
    /// The entry was cancelled.
    LookCancelled,
    /// The entry expired at this deadline.
    LookExpired(u64),
    /// The entry was removed while this deadline was in force.
    LookRemoved(u64),
}

/// What a mark and a field show.
pub fn shown(mark: Mark, field: u64) -> Look
    ensures { result ≡ look_by mark field }
{
    match mark {
        Mark::LiveMark => Look::StillLive(field),
        Mark::CancelledMark => Look::LookCancelled,
        Mark::ExpiredMark => Look::LookExpired(field),
        Mark::RemovedMark => Look::LookRemoved(field),
    }
}

impl fmt::Display for Look {
    fn fmt<W: fmt::Write>(&self, f: &mut fmt::Formatter<W>) -> fmt::Result {
        match self {
            Look::StillLive(deadline) => write!(f, "the entry is live until {deadline}"),
            Look::LookCancelled => write!(f, "the entry was cancelled"),
            Look::LookExpired(deadline) => write!(f, "the entry expired at {deadline}"),
            Look::LookRemoved(deadline) => write!(
                f,
                "the entry was removed, its deadline was {deadline}"
            ),
        }
    }
}

/// Why a call by key is refused.
#[derive(Clone, Copy, Debug, PartialEq, Eq, Drop, Error)]
pub enum CallError {
    /// The deadline is beyond the last tick, which is `limit`.
    #[error("the deadline is beyond the last tick, {limit}")]
    TooFar {
        /// The last tick.
        limit: u64,
    },
    /// The key names no slot, or a stamp that its slot was not given.
    #[error("the key is unknown")]
    Unknown,
    /// The slot has the later stamp `seen`.
    #[error("the key is stale, its slot has stamp {seen}")]
    Stale {
        /// The stamp that the slot has now.
        seen: u32,
    },
    /// The entry has ended, as `how` shows.
    #[error("{how}")]
    Ended {
        /// How it ended.
        how: Look,
    },
}

/// A row of words, and what the keeper knows of them.
pub trait Words {
    /// The words that the keeper knows.
    ghost known: { Self → List Parts };

    /// The keeper's own writes.
    ghost counts: { Self → Counts };

    /// Others may change the words.
    ghost shared: { Bool };

    /// What its keeper keeps, whatever others do.
    ghost keeps: { Self → Type 0 };

    /// What tells one row of words from another.
    ghost Origin: { Type 0 };

    /// Which row of words it is: no call changes that.
    ghost origin: { Self → Origin };

    /// What its keeper has begun: a slot, a stamp and a deadline. No call takes that back.
    ghost begun: { Self → ℕ → ℕ → ℕ → Type 0 };

    /// How many steps its keeper has made at the words, where others may change them.
    ghost steps: { Self → ℕ };

    /// Whether a step of a word is a fence, behind which every later read waits: so it is where others may change the
    /// words.
    const FENCED: bool = true;

    /// What its keeper keeps.
    fn law(&self)
        ensures { keeps self.now };

    /// The number of words.
    fn rows(&self) -> usize
        ensures { result ≡ length (known self.now) };

    /// The number itself, once the word was read, where its own step would wait for that behind a fence. Nothing is
    /// learned of the word. An index beyond the rows has none.
    fn once_read(&self, index: usize, number: u64) -> u64
        ensures { result ≡ number };

    /// Makes a word live at the next stamp, which is one more than its own, and at a deadline.
    fn begin(&mut self, index: usize, stamp: u32, when: u64)
        requires in_range { index < length (known self.old) }
        requires over { IsOver (word_at (known self.old) index) }
        requires next { stamp ≡ (word_at (known self.old) index).stamp + 1 }
        requires last { stamp ≤ LAST_STAMP }
        requires tick { when ≤ LAST_TICK }
        ensures known { known self.new ≡ slice_set (known self.old) index (live stamp when) }
        ensures counts { counts self.new ≡ begun_counts (counts self.old) }
        ensures begins { begun self.new index stamp when }
        ensures origin { origin self.new ≡ origin self.old }
        ensures begun { StillBegun begun self.old self.new };

    /// Looks at a word, by at most one step.
    fn look(&mut self, index: usize) -> Parts
        requires { index < length (known self.old) }
        ensures learned { Learned shared (word_at (known self.old) index) result }
        ensures unused { word_at (known self.old) index ≡ never → result ≡ never }
        ensures known { known self.new ≡ slice_set (known self.old) index result }
        ensures counts { counts self.new ≡ counts self.old }
        ensures origin { origin self.new ≡ origin self.old }
        ensures begun { StillBegun begun self.old self.new }
        ensures one_step { steps self.new ≤ steps self.old + 1 };

    /// Ends a word that is live at exactly `at` as expired, or tells the later deadline or the cancellation that it
    /// found, by at most one step.
    fn settle(&mut self, index: usize, stamp: u32, at: u64) -> Settled
        requires in_range { index < length (known self.old) }
        requires in_force { IsInForce stamp at (word_at (known self.old) index) }
        requires last { stamp ≤ LAST_STAMP }
        requires tick { at ≤ LAST_TICK }
        ensures settled { IsSettled shared stamp at (word_at (known self.old) index) result
            (word_at (known self.new) index) }
        ensures known { known self.new
            ≡ slice_set (known self.old) index (word_at (known self.new) index) }
        ensures counts { counts self.new ≡ settled_counts (counts self.old) result }
        ensures origin { origin self.new ≡ origin self.old }
        ensures begun { StillBegun begun self.old self.new }
        ensures one_step { steps self.new ≤ steps self.old + 1 };

    /// Makes a live word live at the next stamp and at a deadline, and answers the deadline that was in force;
    /// None for a word that was cancelled, which stays.
    fn renew(&mut self, index: usize, stamp: u32, when: u64) -> Option<u64>
        requires in_range { index < length (known self.old) }
        requires in_force { IsInForce stamp 0 (word_at (known self.old) index) }
        requires last { stamp < LAST_STAMP }
        requires tick { when ≤ LAST_TICK }
        ensures changed { IsChanged shared stamp (λ d. live (stamp + 1) when)
            (word_at (known self.old) index) result (word_at (known self.new) index) }
        ensures known { known self.new
            ≡ slice_set (known self.old) index (word_at (known self.new) index) }
        ensures counts { counts self.new ≡ counts self.old }
        ensures origin { origin self.new ≡ origin self.old }
        ensures begun { StillBegun begun self.old self.new };

    /// Makes a live word removed, and answers the deadline that was in force; None for a word that was cancelled,
    /// which stays.
    fn finish(&mut self, index: usize, stamp: u32) -> Option<u64>
        requires in_range { index < length (known self.old) }
        requires in_force { IsInForce stamp 0 (word_at (known self.old) index) }
        requires last { stamp ≤ LAST_STAMP }
        ensures changed { IsChanged shared stamp (removed stamp)
            (word_at (known self.old) index) result (word_at (known self.new) index) }
        ensures known { known self.new
            ≡ slice_set (known self.old) index (word_at (known self.new) index) }
        ensures counts { counts self.new ≡ finished_counts (counts self.old) result }
        ensures origin { origin self.new ≡ origin self.old }
        ensures begun { StillBegun begun self.old self.new };

    /// Makes a live word removed if its deadline isn't after `tick`, and tells what the word shows then.
    fn finish_by(&mut self, index: usize, stamp: u32, tick: u64) -> Look
        requires in_range { index < length (known self.old) }
        requires in_force { IsInForce stamp 0 (word_at (known self.old) index) }
        requires last { stamp ≤ LAST_STAMP }
        ensures finished { IsFinishedBy shared stamp tick
            (word_at (known self.old) index) result (word_at (known self.new) index) }
        ensures known { known self.new
            ≡ slice_set (known self.old) index (word_at (known self.new) index) }
        ensures counts { counts self.new
            ≡ finished_counts (counts self.old) (removed_at result) }
        ensures origin { origin self.new ≡ origin self.old }
        ensures begun { StillBegun begun self.old self.new };
}

/// Words whose callers are issued and given back.
pub trait SharedWords: Words {
    /// What may extend and cancel words without the keeper.
    type Caller;

    /// Why no caller is issued.
    type Fault;

    /// How an issue goes.
    ghost issues: { Self → Result Self.Caller Self.Fault → Self → Type 0 };

    /// How many callers are told to be out.
    ghost tells: { Self → ℕ → Self → Type 0 };

    /// What is told of the callers that were given back.
    ghost returns: { Self → Result ℕ ℕ → Self → Type 0 };

    /// All callers were given back, and their accepted cancels are that many.
    ghost audited: { Self → ℕ → Type 0 };

    /// One caller more.
    fn issue(&mut self) -> Result<Self::Caller, Self::Fault>
        ensures issued { issues self.old result self.new }
        ensures same { (Self.known self.new ≡ Self.known self.old)
            × (Self.counts self.new ≡ Self.counts self.old) }
        ensures origin { Self.origin self.new ≡ Self.origin self.old }
        ensures begun { StillBegun Self.begun self.old self.new };

    /// The issued callers that are not given back.
    fn out(&mut self) -> u64
        ensures told { tells self.old result self.new }
        ensures same { (Self.known self.new ≡ Self.known self.old)
            × (Self.counts self.new ≡ Self.counts self.old) }
        ensures origin { Self.origin self.new ≡ Self.origin self.old }
        ensures begun { StillBegun Self.begun self.old self.new };

    /// The accepted cancels of all callers, where none is out; else the number of callers that are out.
    fn returned(&mut self) -> Result<u64, u64>
        ensures returned { returns self.old result self.new }
        ensures same { (Self.known self.new ≡ Self.known self.old)
            × (Self.counts self.new ≡ Self.counts self.old) }
        ensures origin { Self.origin self.new ≡ Self.origin self.old }
        ensures begun { StillBegun Self.begun self.old self.new }
        ensures audit { IfOk result (λ c. audited self.new c
            × ((Self.counts self.new).expiries + (Self.counts self.new).removals + c
            ≤ (Self.counts self.new).begins)) };
}
