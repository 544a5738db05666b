//! What a script has made so far, and what each command does to it.
ghost use Rattle.std.specs.Prelude.{◌≡◌, ℕ, ◌+◌, ◌<◌, ◌≤◌, IfOk, string_bytes, length};
ghost use Rattle.dq_replay.specs.SessionState.{Steps, first_session};

use crate::command::Command;
use crate::header::FIRST_EDITION_LIMIT;
use crate::leases::{Leases, Refusal};
use crate::name::Name;
use crate::texts::{
    at_text, cancelled_text, cleared_text, live_text, refusal_text, removed_text, tick_text,
};
use dq_ticks::{CAPACITY_LIMIT, LAST_STAMP, LAST_TICK};
use std::alloc::{AllocError, Allocator};
use std::marker::Model;

/// A live name with its deadline in force. Leases are in the order of their deadlines, and then of their names.
#[derive(PartialEq, Eq, PartialOrd, Ord, Drop)]
pub struct Lease {
    pub deadline: u64,
    pub name: Name,
}

/// The live names with the noted tick, and the last tick that the script's edition knows.
#[derive(Drop)]
pub struct Session<A: Allocator> {
    limit: u64,
    leases: Leases<A>,
}

impl<A: Allocator> Model for Session<A> {
    ghost use Rattle.std.specs.Prelude.{◌≤◌};
    ghost use Rattle.dq_ticks.specs.declared.TheConstants.{LAST_TICK};
    ghost use Rattle.dq_replay.specs.SessionState.{SessionState, session_state};

    ghost Value = { SessionState };

    ghost view = { λ s. session_state s.limit s.leases };

    ghost invariant = { λ s. s.limit ≤ LAST_TICK };
}

impl<A: Allocator + Copy> Session<A> {
    pub fn new(alloc: A, capacity: usize) -> Result<Session<A>, AllocError>
        requires some { 0 < capacity }
        requires few { capacity ≤ CAPACITY_LIMIT }
        ensures { IfOk result (λ session. session ≡ first_session capacity) }
    {
        Ok(Session {
            limit: FIRST_EDITION_LIMIT,
            leases: Leases::new(alloc, capacity)?,
        })
    }

    /// Sets the last tick that the script's edition knows.
    pub fn set_limit(&mut self, limit: u64)
        requires { limit ≤ LAST_TICK }
        ensures state { self.new.state ≡ record self.old.state { limit = limit } }
        ensures given { self.new.given ≡ self.old.given }
    {
        self.limit = limit;
    }

    /// Does a command, and gives the text of its answer.
    pub fn answer(&mut self, alloc: A, command: Command) -> Result<String<A>, AllocError>
        requires { self.old.given < LAST_STAMP }
        ensures ok { IfOk result (λ text. Steps self.old.state command self.new.state text) }
        ensures given { IfOk result (λ _. self.new.given ≤ self.old.given + 1) }
    {
        match command {
            Command::Insert { name, when } => self.insert(alloc, name, when),
            Command::Reset { name, when } => self.reset(alloc, &name, when),
            Command::Extend { name, when } => self.extend(alloc, &name, when),
            Command::Cancel { name } => self.cancel(alloc, &name),
            Command::Remove { name } => self.remove(alloc, &name),
            Command::Deadline { name } => self.deadline(alloc, &name),
            Command::Live => self.live(alloc),
            Command::Clear => self.clear(alloc),
            Command::Tick { to } => self.tick(alloc, to),
        }
    }

    fn insert(&mut self, alloc: A, name: Name, when: u64) -> Result<String<A>, AllocError>
        requires { self.old.given < LAST_STAMP }
        ensures ok { IfOk result
            (λ text. Steps self.old.state (Command.Insert name when) self.new.state text) }
        ensures given { IfOk result (λ _. self.new.given ≤ self.old.given + 1) }
    {
        if self.leases.is_live(&name) {
            return refusal_text(alloc, "name-taken");
        }
        if when > self.limit {
            return refusal_text(alloc, "too-far");
        }
        if self.leases.len() >= self.leases.capacity() {
            return refusal_text(alloc, "full");
        }
        let deadline = when.max(self.leases.noted());
        let text = at_text(alloc, &name, deadline)?;
        self.leases.insert(name, deadline)?;
        Ok(text)
    }

    fn reset(&mut self, alloc: A, name: &Name, when: u64) -> Result<String<A>, AllocError>
        requires { self.old.given < LAST_STAMP }
        ensures ok { IfOk result
            (λ text. Steps self.old.state (Command.Reset name.now when) self.new.state text) }
        ensures given { IfOk result (λ _. self.new.given ≤ self.old.given + 1) }
    {
        match self.leases.reset(name, when, self.limit) {
            Ok(deadline) => at_text(alloc, name, deadline),
            Err(Refusal::Missing) => refusal_text(alloc, "missing"),
            Err(Refusal::TooFar) => refusal_text(alloc, "too-far"),
        }
    }

    fn extend(&mut self, alloc: A, name: &Name, when: u64) -> Result<String<A>, AllocError>
        ensures ok { IfOk result
            (λ text. Steps self.old.state (Command.Extend name.now when) self.new.state text) }
        ensures given { IfOk result (λ _. self.new.given ≤ self.old.given + 1) }
    {
        match self.leases.extend(name, when, self.limit) {
            Ok(deadline) => at_text(alloc, name, deadline),
            Err(Refusal::Missing) => refusal_text(alloc, "missing"),
            Err(Refusal::TooFar) => refusal_text(alloc, "too-far"),
        }
    }

    fn cancel(&mut self, alloc: A, name: &Name) -> Result<String<A>, AllocError>
        ensures ok { IfOk result
            (λ text. Steps self.old.state (Command.Cancel name.now) self.new.state text) }
        ensures given { IfOk result (λ _. self.new.given ≤ self.old.given + 1) }
    {
        match self.leases.cancel(name) {
            None => refusal_text(alloc, "missing"),
            Some(deadline) => cancelled_text(alloc, name, deadline),
        }
    }

    fn remove(&mut self, alloc: A, name: &Name) -> Result<String<A>, AllocError>
        ensures ok { IfOk result
            (λ text. Steps self.old.state (Command.Remove name.now) self.new.state text) }
        ensures given { IfOk result (λ _. self.new.given ≤ self.old.given + 1) }
    {
        match self.leases.remove(name) {
            None => refusal_text(alloc, "missing"),
            Some(deadline) => removed_text(alloc, name, deadline),
        }
    }

    fn deadline(&mut self, alloc: A, name: &Name) -> Result<String<A>, AllocError>
        ensures ok { IfOk result
            (λ text. Steps self.old.state (Command.Deadline name.now) self.new.state text) }
        ensures given { IfOk result (λ _. self.new.given ≤ self.old.given + 1) }
    {
        match self.leases.deadline(name) {
            None => refusal_text(alloc, "missing"),
            Some(deadline) => at_text(alloc, name, deadline),
        }
    }

    fn live(&mut self, alloc: A) -> Result<String<A>, AllocError>
        ensures ok { IfOk result (λ text. Steps self.old.state Command.Live self.new.state text) }
        ensures same { self.new ≡ self.old }
    {
        live_text(alloc, self.leases.len())
    }

    fn clear(&mut self, alloc: A) -> Result<String<A>, AllocError>
        ensures ok { IfOk result (λ text. Steps self.old.state Command.Clear self.new.state text) }
        ensures given { IfOk result (λ _. self.new.given ≤ self.old.given + 1) }
    {
        let count = self.leases.clear();
        cleared_text(alloc, count)
    }

    fn tick(&mut self, alloc: A, to: u64) -> Result<String<A>, AllocError>
        ensures ok { IfOk result
            (λ text. Steps self.old.state (Command.Tick to) self.new.state text) }
        ensures given { IfOk result (λ _. self.new.given ≤ self.old.given + 1) }
    {
        if to > self.limit {
            return refusal_text(alloc, "tick-too-large");
        }
        let now = self.leases.noted().max(to);
        let due = self.leases.tick(alloc, now)?;
        tick_text(alloc, &due, now)
    }
}
