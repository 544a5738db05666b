//! Who sleeps, by index, each with the `W` that wakes it.
ghost use Rattle.std.specs.Prelude.{◌≡◌, ℕ, ◌+◌, ◌<◌, ◌≤◌, true, false, length, is_some, slice_index_or, slice_set, vec_len, vec_capacity, IfOk, IfErr};
ghost use Rattle.dq_bell.specs.Lines.{SleepsAt, IsAwakeAt, AllSleepOn, CallsOne, sleeping};

use std::alloc::{AllocError, Allocator, Global};
use std::marker::Model;

/// One that was called out of its sleep. Whoever has it wakes it, with no lock held.
#[must_use = "it sleeps on until it is woken"]
pub struct Call<W>(pub W);

/// Who sleeps.
#[derive(Drop)]
pub(crate) struct Sleepers<W, A: Allocator = Global> {
    calls: Vec<Option<W>, A>,
}

impl<W, A: Allocator> Model for Sleepers<W, A> {
    ghost use Rattle.std.specs.Prelude.{List, Bool, map, is_some};

    ghost Value = { List Bool };

    ghost view = { λ s. map is_some s.calls.items };
}

impl<W, A: Allocator> Sleepers<W, A> {
    /// Nobody.
    pub fn new(calls: Vec<Option<W>, A>) -> Sleepers<W, A>
        requires { length calls.items ≡ 0 }
        ensures { length result ≡ 0 }
    {
        Sleepers { calls }
    }

    /// Whether the one at an index sleeps.
    pub fn sleeps_at(&self, at: usize) -> bool
        ensures { result ≡ slice_index_or self.now at false }
    {
        at < self.calls.len() && self.calls[at].is_some()
    }

    /// Takes the one at an index out, where it sleeps.
    pub fn take(&mut self, at: usize) -> Option<W>
        ensures sleeps { self.new ≡ slice_set self.old at false }
        ensures taken { is_some result ≡ slice_index_or self.old at false }
    {
        if at < self.calls.len() {
            self.calls[at].take()
        } else {
            None
        }
    }

    /// The same, as a call.
    pub fn call(&mut self, at: usize) -> Option<Call<W>>
        ensures sleeps { self.new ≡ slice_set self.old at false }
        ensures called { is_some result ≡ slice_index_or self.old at false }
    {
        match self.take(at) {
            Some(call) => Some(Call(call)),
            None => None,
        }
    }
}

// Keeps what was taken out, for which there is room.
fn keep<W: Drop, A: Allocator>(taken: &mut Vec<W, A>, call: Option<W>)
    requires { vec_len taken.old < vec_capacity taken.old }
    ensures one { is_some call ≡ true → length taken.new.items ≡ length taken.old.items + 1 }
    ensures none { is_some call ≡ false → length taken.new.items ≡ length taken.old.items }
    ensures len { vec_len taken.new ≤ vec_len taken.old + 1 }
    ensures capacity { vec_capacity taken.new ≡ vec_capacity taken.old }
{
    if let Some(call) = call {
        taken.push_reserved(call);
    }
}

impl<W: Drop, A: Allocator> Sleepers<W, A> {
    /// The one at an index sleeps.
    pub fn put(&mut self, at: usize, call: W)
        requires { at < length self.old }
        ensures { self.new ≡ slice_set self.old at true }
    {
        self.calls[at] = Some(call);
    }

    /// Room for the one at an index, where there was room for all before it.
    pub fn grow(&mut self, at: usize) -> Result<(), AllocError>
        ensures room { IfOk result (λ _. at ≤ length self.old → at < length self.new) }
        ensures more { length self.old ≤ length self.new }
        ensures few { length self.new ≤ length self.old + 1 }
        ensures same { AllSleepOn self.old self.new }
    {
        if at >= self.calls.len() {
            self.calls.push(None)?;
        }
        Ok(())
    }

    /// Takes all that sleep out.
    pub fn take_all(&mut self, taken: &mut Vec<W, A>) -> Result<(), AllocError>
        ensures awake { IfOk result (λ _. (i : ℕ) → IsAwakeAt self.new i) }
        ensures size { length self.new ≡ length self.old }
        ensures each { length taken.new.items + sleeping self.new
            ≡ length taken.old.items + sleeping self.old }
        ensures refused { IfErr result (λ _. (self.new ≡ self.old) × (taken.new.items ≡ taken.old.items)) }
    {
        let count = self.calls.len();
        taken.reserve(count)?;
        for at in 0..count {
            keep(taken, self.take(at));
        }
        Ok(())
    }

    /// Calls one of those that sleep, and leaves the others asleep. Where it answers `None` nobody slept.
    pub fn call_last(&mut self) -> Option<Call<W>>
        ensures one { is_some result ≡ true → CallsOne self.old self.new }
        ensures nobody { is_some result ≡ false → (i : ℕ) → IsAwakeAt self.old i }
        ensures fewer { (i : ℕ) → SleepsAt self.new i → SleepsAt self.old i }
        ensures all { is_some result ≡ false → (i : ℕ) → IsAwakeAt self.new i }
    {
        while let Some(call) = self.calls.pop() {
            if let Some(call) = call {
                return Some(Call(call));
            }
        }
        None
    }
}
