//! The calls by key of a queue over plain words. Over shared words a caller makes them without the queue.

ghost use Rattle.std.specs.Prelude.{◌≡◌, ◌↔◌, ℕ, ◌<◌, max, IsTrue, IfOk, OnOk, OnErr, IsOkAnd, IsErrOf};
ghost use Rattle.dq_ticks.specs.declared.words.Mark.TheVariants.{CancelledMark};
ghost use Rattle.dq_core.specs.declared.words.CallError.TheVariants.{TooFar};
ghost use Rattle.dq_core.specs.declared.words.Look.TheVariants.{StillLive, LookCancelled};

use crate::queue::DelayCore;
use crate::vec_words::VecWords;
use crate::words::{CallError, Look};
use dq_ticks::{Key, LAST_TICK};
use std::alloc::Allocator;

impl<T, A: Allocator> DelayCore<T, VecWords<A>, A> {
    ghost use Rattle.dq_core.specs.Calls.{SameCore};
    ghost use Rattle.dq_core.specs.Machine.{OwnEventsAlone};
    ghost use Rattle.dq_core.specs.KeyCalls.{Extends, Cancels, Shows, KeepsRest};
    ghost use Rattle.dq_core.specs.AtTheCall.{IsKeyLive, IsKeyCancelled};
    ghost use Rattle.dq_core.specs.Words.{word_at};

    /// Plain words are shared with nobody, so no step of a caller comes between: each call is a run of its own events
    /// alone.
    pub fn own_events_alone(&self)
        ensures { OwnEventsAlone ⟦<VecWords<A> as crate::words::Words>⟧.shared T }
    {}

    // Whether a key is of this queue's shard.
    fn is_mine(&self, key: &Key) -> bool
        ensures { IsTrue result ↔ (key.now.entry.shard ≡ self.now.shard) }
    {
        key.entry().shard() == self.shard
    }

    /// Raises the deadline of a live entry to `when`, a tick of one millisecond, and returns the deadline that is
    /// then in force: `when`, or a later one that the entry had. No deadline gets sooner by it. Constant time.
    ///
    /// # Errors
    /// In this order:
    /// - `TooFar` if `when` is beyond the last tick, 2^42 - 1.
    /// - `Unknown` if the key is of another shard, or no slot has it.
    /// - `Stale` if the slot has a later stamp: the entry was reset, or the slot has another entry.
    /// - `Ended` if the entry came out, was removed or was cancelled. It tells which.
    pub fn extend(&mut self, key: &Key, when: u64) -> Result<u64, CallError>
        // The entry is live until the deadline that is told: `when`, or a later one that it had.
        ensures live { IfOk result (λ d. IsKeyLive self.new key.now d) }
        ensures raised { IfOk result
            (λ d. (had : ℕ) → IsKeyLive self.old key.now had → d ≡ max when had) }

        // Nothing but the word changes, and nothing at all where it is refused.
        ensures rest { KeepsRest self.old self.new }
        ensures refused { OnErr result (self.new ≡ self.old) }
        ensures too_far { IsErrOf result (TooFar LAST_TICK) ↔ (LAST_TICK < when) }

        // Nothing is deferred or taken out.
        ensures deferred { self.new.deferred ≡ self.old.deferred }

        // Exactly: a step of the queue machine, or which refusal comes first.
        ensures extends { Extends self.old key.now when result self.new }
        ensures same { SameCore self.old self.new }
    {
        if when > LAST_TICK {
            return Err(CallError::TooFar { limit: LAST_TICK });
        }
        if !self.is_mine(key) {
            return Err(CallError::Unknown);
        }
        self.words.extend(key, when)
    }

    /// Cancels a live entry, so that it won't come out, and returns the deadline that it gave up, a tick of one
    /// millisecond. The entry keeps its slot and its value until it is freed: by a poll at which it would have been
    /// due, a sweep, a reap or a clear. Constant time.
    ///
    /// # Errors
    /// In this order:
    /// - `Unknown` if the key is of another shard, or no slot has it.
    /// - `Stale` if the slot has a later stamp: the entry was reset, or the slot has another entry.
    /// - `Ended` if the entry came out, was removed or was cancelled. It tells which.
    pub fn cancel(&mut self, key: &Key) -> Result<u64, CallError>
        // The entry was live until the deadline that is told, and is cancelled.
        ensures was_live { IfOk result (λ d. IsKeyLive self.old key.now d) }
        ensures cancelled { OnOk result (IsKeyCancelled self.new key.now) }

        // Nothing but the word changes, and nothing at all where it is refused.
        ensures rest { KeepsRest self.old self.new }
        ensures refused { OnErr result (self.new ≡ self.old) }

        // Nothing is deferred or taken out.
        ensures deferred { self.new.deferred ≡ self.old.deferred }

        // Exactly: a step of the queue machine, or which refusal comes first.
        ensures cancels { Cancels self.old key.now result self.new }
        ensures same { SameCore self.old self.new }
    {
        if !self.is_mine(key) {
            return Err(CallError::Unknown);
        }
        self.words.cancel(key)
    }

    /// Returns what the entry of `key` is: live, with its deadline, or how it ended. Constant time.
    ///
    /// # Errors
    /// In this order:
    /// - `Unknown` if the key is of another shard, or no slot has it.
    /// - `Stale` if the slot has a later stamp: the entry was reset, or the slot has another entry.
    pub fn look(&self, key: &Key) -> Result<Look, CallError>
        // A live entry is shown with its deadline in force, and a cancelled one as cancelled.
        ensures live { (d : ℕ) → IsOkAnd result (λ look. look ≡ StillLive d)
            → IsKeyLive self.now key.now d }
        ensures cancelled { IsOkAnd result (λ look. look ≡ LookCancelled)
            → (word_at self.now.known key.now.entry.index).mark ≡ CancelledMark }

        // Exactly: the word that is shown, or which refusal comes first.
        ensures shows { Shows self.now key.now result }
    {
        if !self.is_mine(key) {
            return Err(CallError::Unknown);
        }
        self.words.look_key(key)
    }
}
