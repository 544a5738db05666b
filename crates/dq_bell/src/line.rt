//! The line of those that wait, which lies under a lock of its own.
//!
//! The first in line leads: it alone sleeps until a tick, by the bell's rule. Those behind it sleep until they are
//! called. When the first leaves, the next one leads and is called in the same step, so nobody sleeps behind one that
//! has left. Who sleeps leaves a `W` in the line, such as a thread or a task's waker; a call takes it out, and whoever
//! has the [`Call`] wakes it once the lock is released. No code of `W` runs under the lock.
ghost use Rattle.std.specs.Prelude.{◌≡◌, ◌≢◌, ℕ, ◌+◌, ◌<◌, ◌≤◌, true, false, is_some, slice_index_or, IfOk, IfErr, Some, length};
ghost use Rattle.dq_bell.specs.Lines.{ClosesBellOf, IsFreshLine, IsLed, IsSameLine, Joins, FallsAsleep, StaysAwake, LeavesLine, IsCalled, HearsRung, ClosesLine, IsAwakeAt, StaysInLine, TakesLead, sleeping};
ghost use Rattle.dq_bell.specs.Seats.{DealsHint, is_leader_rung};
ghost use Rattle.dq_bell.specs.Rolls.{StandsInLine, first_in, GrowsIfFull};

use crate::closer::Closer;
use crate::hint::{Hint, Hints, Rung};
use crate::leader::Leader;
use crate::roll::Roll;
use crate::sleepers::{Call, Sleepers};
use std::alloc::{AllocError, Allocator, Global};
use std::marker::Model;

/// Who waits at a bell, each by an index of its own.
pub struct Line<W, A: Allocator = Global> {
    leader: Leader<A>,
    closer: Closer<A>,
    roll: Roll<A>,
    sleepers: Sleepers<W, A>,
}

impl<W, A: Allocator> Model for Line<W, A> {
    ghost use Rattle.dq_bell.specs.Lines.{LineState, IsLine};

    ghost Value = { LineState };

    ghost view = { λ l. record { leader = l.leader; closer = l.closer; roll = l.roll; sleeps = l.sleepers } };

    ghost invariant = { λ l. IsLine l.leader l.closer l.roll l.sleepers };
}

impl<W: Drop, A: Allocator + Clone> Line<W, A> {
    /// A bell for at most so many places, with nobody in line.
    ///
    /// # Errors
    ///
    /// `AllocError` where memory is refused.
    pub fn new(alloc: A, places: usize) -> Result<Line<W, A>, AllocError>
        requires { places < 65535 }
        ensures { IfOk result (IsFreshLine places) }
    {
        let roll = Roll::new(Vec::new(alloc.clone()?), Vec::new(alloc.clone()?));
        let sleepers = Sleepers::new(Vec::new(alloc.clone()?));
        let mut leader = Leader::new(alloc, places + 1)?;
        match leader.add_place() {
            Ok(hint) => Ok(Line {
                leader,
                closer: Closer::new(hint),
                roll,
                sleepers,
            }),
            Err(refused) => {
                leader.end();
                Err(refused)
            }
        }
    }
}

impl<W, A: Allocator> Line<W, A> {
    /// The hint of one place more.
    ///
    /// # Errors
    ///
    /// `AllocError` where memory is refused.
    pub fn add_place(&mut self) -> Result<Hint<A>, AllocError>
        requires { self.old.leader.dealt < self.old.leader.places }
        ensures dealt { IfOk result (λ h. DealsHint self.old.leader self.new.leader h) }
        ensures refused { IfErr result (λ _. self.new ≡ self.old) }
        ensures same { (self.new.roll ≡ self.old.roll) × (self.new.sleeps ≡ self.old.sleeps)
            × (self.new.closer ≡ self.old.closer) }
    {
        self.leader.add_place()
    }

    /// The hints of all places, that of the closing first, for whoever doesn't lock the line.
    ///
    /// # Errors
    ///
    /// `AllocError` where memory is refused.
    pub fn hints(&self) -> Result<Hints<A>, AllocError>
        ensures { IfOk result (λ h. h ≡ self.now.leader.places) }
    {
        self.leader.hints()
    }

    /// The one that leads.
    pub fn first(&self) -> Option<usize>
        ensures { result ≡ first_in self.now.roll }
    {
        self.roll.first()
    }

    /// Whether one is the one that leads.
    pub fn is_first(&self, at: usize) -> bool
        ensures yes { result ≡ true → first_in self.now.roll ≡ Some at }
        ensures no { result ≡ false → first_in self.now.roll ≢ Some at }
    {
        self.roll.is_first(at)
    }

    /// Whether one sleeps.
    pub fn sleeps_at(&self, at: usize) -> bool
        ensures { result ≡ slice_index_or self.now.sleeps at false }
    {
        self.sleepers.sleeps_at(at)
    }

    /// How many indexes there are.
    pub fn len(&self) -> usize
        ensures { result ≡ length self.now.roll.places }
    {
        self.roll.len()
    }

    /// Wherever anybody sleeps, somebody leads, who is awake or has looked at all hints. A close closes this bell.
    pub fn law(&self)
        ensures led { IsLed self.now }
        ensures closes { ClosesBellOf self.now.leader self.now.closer }
    {
        let _ = &self.sleepers;
    }

    /// It woke by itself: gives its `W`, where it slept. One that leads isn't rung any more.
    pub fn rise(&mut self, at: usize) -> Option<W>
        ensures awake { IsCalled self.old at self.new }
        ensures told { first_in self.old.roll ≡ Some at → self.new.leader.until ≡ 0 }
        ensures follows { first_in self.old.roll ≢ Some at → self.new.leader ≡ self.old.leader }
        ensures own { is_some result ≡ slice_index_or self.old.sleeps at false }
    {
        if !self.roll.is_first(at) {
            return self.sleepers.take(at);
        }
        self.leader.rise();
        self.sleepers.take(at)
    }

    /// One that is awake leaves the line. Where it led, the one that leads from now on is called.
    pub fn leave(&mut self, at: usize) -> Option<Call<W>>
        requires { IsAwakeAt self.old.sleeps at }
        ensures { LeavesLine self.old at (is_some result) self.new }
    {
        if !self.roll.is_in_line(at) {
            return None;
        }
        if !self.roll.is_first(at) {
            self.roll.leave(at);
            return None;
        }
        self.roll.leave(at);
        let Some(next) = self.roll.first() else {
            return None;
        };
        self.sleepers.call(next)
    }

    /// One that is awake takes the lead, and the one that led leaves the line: it gives what was to wake that one.
    pub fn overtake(&mut self, at: usize, first: usize) -> Option<W>
        requires first { first_in self.old.roll ≡ Some first }
        requires behind { StandsInLine self.old.roll at }
        requires other { first ≢ at }
        requires awake { IsAwakeAt self.old.sleeps at }
        ensures { TakesLead self.old at first (is_some result) self.new }
    {
        self.leader.rise();
        let slept = self.sleepers.take(first);
        self.roll.hand_lead(at, first);
        slept
    }

    /// Calls the one that leads, where it was rung.
    pub fn ring(&mut self, rung: Rung) -> Option<Call<W>>
        ensures { HearsRung self.old (is_leader_rung rung) (is_some result) self.new }
    {
        if !rung.is_leader() {
            return None;
        }
        let Some(first) = self.roll.first() else {
            return None;
        };
        self.sleepers.call(first)
    }
}

impl<W: Drop, A: Allocator> Line<W, A> {
    // Room for one more in line.
    fn make_room(&mut self) -> Result<(), AllocError>
        ensures few { length self.new.roll.places ≤ length self.old.roll.places + 1 }
        ensures room { IfOk result (λ _. self.new.roll.count < length self.new.roll.places) }
        ensures grows { GrowsIfFull self.old.roll self.new.roll }
        ensures same { IsSameLine self.old self.new }
    {
        if self.roll.has_free() {
            return Ok(());
        }
        self.sleepers.grow(self.roll.len())?;
        self.roll.grow()
    }

    /// Joins the line, awake, and gives the index there. Where nobody waited it leads.
    ///
    /// # Errors
    ///
    /// `AllocError` where memory is refused.
    pub fn join(&mut self) -> Result<usize, AllocError>
        ensures joined { IfOk result (λ at. Joins self.old at self.new) }
        ensures few { length self.new.roll.places ≤ length self.old.roll.places + 1 }
        ensures refused { IfErr result (λ _. IsSameLine self.old self.new) }
    {
        self.make_room()?;
        Ok(self.roll.join())
    }

    /// Falls asleep until it is called, and the first in line at most until a tick. Refused, with its `W`, where it
    /// isn't in line or sleeps already, where the bell is closed, and where the first found a hint before that tick.
    pub fn sleep(&mut self, at: usize, until: u64, call: W) -> Result<(), W>
        ensures asleep { IfOk result (λ _. FallsAsleep self.old at until self.new) }
        ensures awake { IfErr result (λ w. (w ≡ call) × StaysAwake self.old at self.new) }
    {
        if self.closer.is_closed() {
            return Err(call);
        }
        if !self.roll.is_in_line(at) {
            return Err(call);
        }
        if self.sleepers.sleeps_at(at) {
            return Err(call);
        }
        if !self.roll.is_first(at) {
            self.sleepers.put(at, call);
            return Ok(());
        }
        if !self.leader.may_sleep(until) {
            return Err(call);
        }
        self.sleepers.put(at, call);
        Ok(())
    }

    /// All that sleep rise, and one that leads isn't rung any more.
    pub fn rise_all(&mut self, risen: &mut Vec<W, A>) -> Result<(), AllocError>
        ensures stays { StaysInLine self.old self.new }
        ensures awake { IfOk result (λ _. (i : ℕ) → IsAwakeAt self.new.sleeps i) }
        ensures each { length risen.new.items + sleeping self.new.sleeps
            ≡ length risen.old.items + sleeping self.old.sleeps }
        ensures refused { IfErr result (λ _. (self.new ≡ self.old) × (risen.new.items ≡ risen.old.items)) }
    {
        self.sleepers.take_all(risen)?;
        self.leader.rise();
        Ok(())
    }

    /// Closes for good, and calls one of those that sleep: it is to be called until it answers `None`.
    pub fn close(&mut self) -> Option<Call<W>>
        ensures { ClosesLine self.old (is_some result) self.new }
    {
        let _ = self.closer.close().is_leader();
        self.sleepers.call_last()
    }

    /// Ends the line: nobody is woken any more.
    pub fn end(self) {
        let Line {
            leader,
            closer,
            roll,
            sleepers,
        } = self;
        leader.end();
        drop(closer);
        drop(roll);
        drop(sleepers);
    }
}
