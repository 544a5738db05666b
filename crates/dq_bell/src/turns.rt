//! Who waits takes turns in the lead, threads and tasks in one line.
//!
//! A thread that is called runs, but a task runs only where its runtime polls it. So a task that leads is to act by its
//! tick and a grace. As soon as a task has waited, those that follow sleep for a while at most, and behind a task that
//! leads only until it is to have acted. Who finds then that it hasn't takes the lead from it. Each stay in line has a
//! number, so that one who has lost its seat touches nobody else's.
ghost use Rattle.std.specs.Prelude.{◌≡◌, ◌≢◌, ℕ, ◌+◌, ◌<◌, ◌≤◌, true, false, is_some, is_none, slice_index_or, slice_set, IfOk, IfErr, IsErr, IfSome, Some, length, min};
ghost use Rattle.dq_bell.specs.Lines.{ClosesLine, IsLed, IsAwakeAt, SleepsAt, sleeping};
ghost use Rattle.dq_bell.specs.Rolls.{first_in};
ghost use Rattle.dq_bell.specs.Seats.{DealsHint, is_leader_rung};
ghost use Rattle.dq_bell.specs.Turns.{IsTurns, HoldsSeat, IsSameTurns, IsFreshTurns, sitter_at, no_sitter, with_leader_acting, TakesSeat, AllSit, Rises, LeavesTurn, IsOverdue, Overtakes, FallsAsleepIn, StaysAwakeIn, HearsRungIn, watched, AllRise};

use crate::NEVER;
use crate::hint::{Hint, Hints, Rung};
use crate::line::Line;
use crate::sleepers::Call;
use std::alloc::{AllocError, Allocator, Global};
use std::marker::Model;

/// By how many ticks a task that leads may be late.
pub(crate) const GRACE: u64 = 50;

/// For how many ticks one that follows sleeps at most, once a task has waited.
pub(crate) const WATCH: u64 = 1000;

/// A seat in line: the index there, and the number of this stay.
#[derive(Clone, Copy)]
pub struct Seat {
    at: usize,
    number: u64,
}

/// Who sits at an index.
#[derive(Clone, Copy)]
pub(crate) struct Sitter {
    /// The number of the stay, 0 where nobody sits.
    number: u64,
    is_task: bool,
    /// The tick by which a task that leads is to have acted. A thread acts.
    act_by: u64,
}

/// Who sits where.
#[derive(Drop)]
pub(crate) struct Sitters<A: Allocator = Global> {
    row: Vec<Sitter, A>,
}

impl<A: Allocator> Model for Sitters<A> {
    ghost use Rattle.std.specs.Prelude.{List};
    ghost use Rattle.dq_bell.specs.declared.turns.Sitter.{Sitter};

    ghost Value = { List Sitter };

    ghost view = { λ s. s.row.items };
}

impl Sitter {
    fn nobody() -> Sitter
        ensures { result ≡ no_sitter }
    {
        Sitter {
            number: 0,
            is_task: false,
            act_by: NEVER,
        }
    }
}

impl<A: Allocator> Sitters<A> {
    // Who sits at an index.
    fn at(&self, at: usize) -> Sitter
        ensures { result ≡ sitter_at self.now at }
    {
        if at < self.row.len() {
            return self.row[at];
        }
        Sitter::nobody()
    }

    // Another one sits at an index, or nobody.
    fn put(&mut self, at: usize, sitter: Sitter)
        ensures { self.new ≡ slice_set self.old at sitter }
    {
        if at < self.row.len() {
            self.row[at] = sitter;
        }
    }

    // The one that leads acts from a tick on: a task by a tick.
    fn lead_from(&mut self, first: Option<usize>, tick: u64)
        ensures { self.new ≡ with_leader_acting self.old first tick }
    {
        let Some(first) = first else {
            return;
        };
        let sitter = self.at(first);
        if sitter.is_task {
            let acts = Sitter {
                number: sitter.number,
                is_task: true,
                act_by: tick.saturating_add(GRACE),
            };
            self.put(first, acts);
        }
    }

    // Room for one more than so many.
    fn make_room(&mut self, count: usize) -> Result<(), AllocError>
        ensures room { IfOk result (λ _. count ≤ length self.old → count < length self.new) }
        ensures more { length self.old ≤ length self.new }
        ensures same { AllSit self.old self.new }
    {
        if count >= self.row.len() {
            self.row.push(Sitter::nobody())?;
        }
        Ok(())
    }
}

/// Who waits at a bell, in turns.
pub struct Turns<W, A: Allocator = Global> {
    line: Line<W, A>,
    sitters: Sitters<A>,
    /// How many stays there have been.
    stays: u64,
    /// Whether a task has waited.
    has_tasks: bool,
}

impl<W, A: Allocator> Model for Turns<W, A> {
    ghost use Rattle.dq_bell.specs.Turns.{TurnsState, IsTurns};

    ghost Value = { TurnsState };

    ghost view = { λ t. record { line = t.line; sitters = t.sitters; stays = t.stays; has_tasks = t.has_tasks } };

    ghost invariant = { λ t. IsTurns t.line.roll t.sitters t.stays };
}

impl<W: Drop, A: Allocator + Clone> Turns<W, A> {
    /// A bell for at most so many places, with nobody in line.
    ///
    /// # Errors
    ///
    /// `AllocError` where memory is refused.
    pub fn new(alloc: A, places: usize) -> Result<Turns<W, A>, AllocError>
        requires { places < 65535 }
        ensures { IfOk result (IsFreshTurns places) }
    {
        let row = Vec::new(alloc.clone()?);
        let line = Line::new(alloc, places)?;
        Ok(Turns {
            line,
            sitters: Sitters { row },
            stays: 0,
            has_tasks: false,
        })
    }
}

impl<W, A: Allocator> Turns<W, A> {
    /// The hint of one place more.
    ///
    /// # Errors
    ///
    /// `AllocError` where memory is refused.
    pub fn add_place(&mut self) -> Result<Hint<A>, AllocError>
        requires { self.old.line.leader.dealt < self.old.line.leader.places }
        ensures dealt { IfOk result (λ h. DealsHint self.old.line.leader self.new.line.leader h) }
        ensures refused { IfErr result (λ _. self.new ≡ self.old) }
    {
        self.line.add_place()
    }

    /// The hints of all places, that of the closing first, for whoever doesn't lock the line.
    ///
    /// # Errors
    ///
    /// `AllocError` where memory is refused.
    pub fn hints(&self) -> Result<Hints<A>, AllocError>
        ensures { IfOk result (λ h. h ≡ self.now.line.leader.places) }
    {
        self.line.hints()
    }

    /// Wherever anybody sleeps, somebody leads, who is awake or has looked at all hints. Whoever sits is in line, by a
    /// number of a stay, and who is in line sits. By a tick only a task acts.
    pub fn law(&self)
        ensures led { IsLed self.now.line }
        ensures seated { IsTurns self.now.line.roll self.now.sitters self.now.stays }
    {
        let _ = &self.sitters;
        self.line.law();
    }

    /// Whether a task has waited.
    pub fn has_tasks(&self) -> bool
        ensures { result ≡ self.now.has_tasks }
    {
        self.has_tasks
    }

    /// Whether the stay of a seat lasts.
    pub fn sits(&self, seat: Seat) -> bool
        ensures yes { result ≡ true → HoldsSeat self.now seat }
        ensures no { result ≡ false → ¬ HoldsSeat self.now seat }
    {
        seat.number != 0 && self.sitters.at(seat.at).number == seat.number
    }

    /// It woke by itself: gives its `W`, where it slept. One that leads isn't rung any more.
    pub fn rise(&mut self, seat: Seat) -> Option<W>
        ensures rises { HoldsSeat self.old seat → Rises self.old seat (is_some result) self.new }
        ensures lost { ¬ HoldsSeat self.old seat → (is_some result ≡ false) × (self.new ≡ self.old) }
    {
        if !self.sits(seat) {
            return None;
        }
        self.line.rise(seat.at)
    }

    /// Leaves the line. It gives what was to wake it, and the one that leads now, where that is to be woken.
    pub fn leave(&mut self, seat: Seat, now: u64) -> (Option<W>, Option<Call<W>>)
        ensures leaves { HoldsSeat self.old seat →
            LeavesTurn self.old seat now (is_some result.0) (is_some result.1) self.new }
        ensures lost { ¬ HoldsSeat self.old seat →
            (is_some result.0 ≡ false) × (is_some result.1 ≡ false) × (self.new ≡ self.old) }
    {
        if !self.sits(seat) {
            return (None, None);
        }
        let led = self.line.is_first(seat.at);
        let slept = self.line.rise(seat.at);
        let called = self.line.leave(seat.at);
        self.sitters.put(seat.at, Sitter::nobody());
        if led {
            self.sitters.lead_from(self.line.first(), now);
        }
        (slept, called)
    }

    // Who leads in place of one that is awake, and was to act by now.
    fn overdue(&self, seat: Seat, now: u64) -> Option<usize>
        ensures found { IfSome result (λ f. IsOverdue self.now seat now f) }
        ensures none { is_some result ≡ false → (f : ℕ) → ¬ IsOverdue self.now seat now f }
    {
        let Some(first) = self.line.first() else {
            return None;
        };
        if first == seat.at || !self.sits(seat) || self.line.sleeps_at(seat.at) {
            return None;
        }
        if now < self.sitters.at(first).act_by {
            return None;
        }
        Some(first)
    }

    /// Takes the lead, for one that is awake, from a task that was to act by now: that one leaves the line. It gives
    /// what was to wake that one.
    pub fn overtake(&mut self, seat: Seat, now: u64) -> Option<W>
        ensures overtakes { (f : ℕ) → IsOverdue self.old seat now f →
            Overtakes self.old seat f now (is_some result) self.new }
        ensures waits { ((f : ℕ) → ¬ IsOverdue self.old seat now f) →
            (is_some result ≡ false) × (self.new ≡ self.old) }
    {
        let Some(first) = self.overdue(seat, now) else {
            return None;
        };
        let slept = self.line.overtake(seat.at, first);
        self.sitters.put(first, Sitter::nobody());
        self.sitters.lead_from(Some(seat.at), now);
        slept
    }

    /// Calls the one that leads, where it was rung: it acts from now on.
    pub fn ring(&mut self, rung: Rung, now: u64) -> Option<Call<W>>
        ensures { HearsRungIn self.old (is_leader_rung rung) now (is_some result) self.new }
    {
        let called = self.line.ring(rung);
        if called.is_some() {
            self.sitters.lead_from(self.line.first(), now);
        }
        called
    }

    // Who leads and sleeps.
    fn sleeping_leader(&self) -> Option<usize>
        ensures yes { IfSome result
            (λ f. (first_in self.now.line.roll ≡ Some f) × SleepsAt self.now.line.sleeps f) }
        ensures no { is_some result ≡ false → (f : ℕ) → first_in self.now.line.roll ≡ Some f →
            IsAwakeAt self.now.line.sleeps f }
    {
        let Some(first) = self.line.first() else {
            return None;
        };
        if !self.line.sleeps_at(first) {
            return None;
        }
        Some(first)
    }

    // When one that follows looks again whether the leader acts.
    fn watch(&self, now: u64) -> u64
        ensures { result ≡ watched self.now now }
    {
        if !self.has_tasks {
            return NEVER;
        }
        let act_by = match self.line.first() {
            Some(first) => self.sitters.at(first).act_by,
            None => NEVER,
        };
        act_by.min(now.saturating_add(WATCH))
    }
}

impl<W: Drop, A: Allocator> Turns<W, A> {
    /// Joins the line, awake. Where nobody waited it leads.
    ///
    /// # Errors
    ///
    /// `AllocError` where memory is refused, and after 2^64 - 1 stays.
    pub fn join(&mut self, is_task: bool) -> Result<Seat, AllocError>
        ensures joined { IfOk result (λ seat. TakesSeat self.old seat is_task self.new) }
        ensures refused { IfErr result (λ _. IsSameTurns self.old self.new) }
    {
        let Some(number) = self.stays.checked_add(1) else {
            return Err(AllocError);
        };
        self.sitters.make_room(self.line.len())?;
        let at = self.line.join()?;
        let sitter = Sitter {
            number,
            is_task,
            act_by: NEVER,
        };
        self.sitters.put(at, sitter);
        self.stays = number;
        if is_task {
            self.has_tasks = true;
        }
        Ok(Seat { at, number })
    }

    /// Falls asleep until it is called, and tells the tick at which it looks again by itself: one that leads, at the
    /// one that is given; one that follows, once a task has waited, when the leader is to have acted, or after a while.
    /// Refused, with its `W`, where it has lost its seat or sleeps already, where the bell is closed, and where the one
    /// that leads found a hint before its tick.
    pub fn sleep(&mut self, seat: Seat, until: u64, now: u64, call: W) -> Result<u64, W>
        ensures asleep { IfOk result (λ tick. FallsAsleepIn self.old seat until now tick self.new) }
        ensures given_back { IfErr result (λ w. w ≡ call) }
        ensures awake { IfErr result
            (λ _. HoldsSeat self.old seat → StaysAwakeIn self.old seat now self.new) }
        ensures lost { ¬ HoldsSeat self.old seat → (IsErr result) × (self.new ≡ self.old) }
    {
        if !self.sits(seat) {
            return Err(call);
        }
        let leads = self.line.is_first(seat.at);
        match self.line.sleep(seat.at, until, call) {
            Ok(()) => {
                if !leads {
                    return Ok(self.watch(now));
                }
                self.sitters.lead_from(Some(seat.at), until);
                Ok(until)
            }
            Err(call) => {
                if leads {
                    self.sitters.lead_from(Some(seat.at), now);
                }
                Err(call)
            }
        }
    }

    /// All that sleep rise. One that leads and slept acts from now on.
    ///
    /// # Errors
    ///
    /// `AllocError` where memory is refused: nobody rises.
    pub fn rise_all(&mut self, now: u64, risen: &mut Vec<W, A>) -> Result<(), AllocError>
        ensures all { IfOk result (λ _. AllRise self.old now self.new) }
        ensures each { length risen.new.items + sleeping self.new.line.sleeps
            ≡ length risen.old.items + sleeping self.old.line.sleeps }
        ensures refused { IfErr result (λ _. (self.new ≡ self.old) × (risen.new.items ≡ risen.old.items)) }
    {
        let first = self.sleeping_leader();
        self.line.rise_all(risen)?;
        self.sitters.lead_from(first, now);
        Ok(())
    }

    /// Closes for good, and calls one of those that sleep: it is to be called until it answers `None`.
    pub fn close(&mut self) -> Option<Call<W>>
        ensures line { ClosesLine self.old.line (is_some result) self.new.line }
        ensures same { (self.new.sitters ≡ self.old.sitters) × (self.new.stays ≡ self.old.stays) }
    {
        self.line.close()
    }

    /// Ends the line: nobody is woken any more.
    pub fn end(self) {
        let Turns {
            line,
            sitters,
            stays: _,
            has_tasks: _,
        } = self;
        line.end();
        drop(sitters);
    }
}
