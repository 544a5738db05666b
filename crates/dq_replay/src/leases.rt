//! The live names of a script, kept by the delay queue of one owner.
ghost use Rattle.std.specs.Prelude.{◌≡◌, ◌≢◌, ◌⊎◌, ℕ, ◌+◌, ◌<◌, ◌≤◌, List, [], length, max, false, None, Some, IfOk, OnErr, filter, nat_le, nat_lt};
ghost use Rattle.std.specs.List.{count_by};
ghost use Rattle.dq_core.specs.Slots.{is_held};
ghost use Rattle.dq_core.specs.Machine.{table_at};
ghost use Rattle.dq_core.specs.Core.{machine};
ghost use Rattle.dq_core.specs.Calls.{IsInserted};
ghost use Rattle.dq_replay.specs.Script.{has_name, deadline_of};
ghost use Rattle.dq_replay.specs.Leases.{live_of, live_lease};
ghost use Rattle.dq_replay.specs.Order.{IsLined};
ghost use Rattle.dq_replay.specs.LeasesState.{Ticks, LeasesState, IsLiveKey, IsSomeKey, OfLiveKey, IsNewLease, IsResetTo, IsExtendedTo, IsEndedLease, FindsWithin, IsToldOf, IsChangedAt, IsSameQueue, IsRoomy, IsPolledTo, no_leases, with_lease_at, ResetsLease, ExtendsLease, EndsLease, ExpiresLease};

use crate::name::Name;
use crate::names::Names;
use crate::session::Lease;
use dq_core::{CoreConfig, CoreError, DelayCore, Turn, VecWords};
use dq_ticks::{CAPACITY_LIMIT, Key, LAST_STAMP, LAST_TICK};
use std::alloc::{AllocError, Allocator};
use std::marker::Model;

/// Why a name's deadline stays: the name isn't live, or what was asked is beyond the limit.
#[derive(Clone, Copy, Debug, PartialEq, Eq)]
pub enum Refusal {
    Missing,
    TooFar,
}

type Queue<A> = DelayCore<Name, VecWords<A>, A>;

// Sweeps a queue that is full, though fewer names are live than it has slots.
fn make_room<A: Allocator>(queue: &mut Queue<A>)
    requires few { length (live_of (machine queue.old).table) < length queue.old.slots.rows }
    ensures { IsRoomy queue.old queue.new }
{
    queue.law();
    if queue.len() == queue.capacity() {
        queue.sweep();
        queue.law();
    }
}

// Links a new name where there is room.
fn link<A: Allocator>(queue: &mut Queue<A>, name: Name, when: u64) -> Key
    requires room { count_by is_held queue.old.slots.rows < length queue.old.slots.rows }
    requires stamps { (i : ℕ)
        → (table_at (machine queue.old) i).stamp < queue.old.slots.last_stamp }
    requires tick { when ≤ LAST_TICK }
    ensures { IsNewLease queue.old name when result queue.new }
{
    queue.law();
    match queue.insert(name, when) {
        Ok(key) => key,
        Err(_) => unreachable!(),
    }
}

fn reset_at<A: Allocator>(queue: &mut Queue<A>, key: &Key, when: u64) -> Key
    requires live { IsSomeKey queue.old key.now }
    requires stamps { (i : ℕ)
        → (table_at (machine queue.old) i).stamp < queue.old.slots.last_stamp }
    requires tick { when ≤ LAST_TICK }
    ensures { OfLiveKey queue.old key.now
        (λ name d. IsResetTo queue.old key.now when result queue.new name) }
{
    queue.law();
    match queue.reset(&key.entry(), when) {
        Ok(key) => key,
        Err(_) => unreachable!(),
    }
}

fn extend_at<A: Allocator>(queue: &mut Queue<A>, key: &Key, when: u64) -> u64
    requires live { IsSomeKey queue.old key.now }
    requires tick { when ≤ LAST_TICK }
    ensures { OfLiveKey queue.old key.now (IsExtendedTo queue.old key.now when result queue.new) }
{
    queue.law();
    match queue.extend(key, when) {
        Ok(deadline) => deadline,
        Err(_) => unreachable!(),
    }
}

fn cancel_at<A: Allocator>(queue: &mut Queue<A>, key: &Key) -> u64
    requires { IsSomeKey queue.old key.now }
    ensures { OfLiveKey queue.old key.now (IsEndedLease queue.old key.now result queue.new) }
{
    queue.law();
    match queue.cancel(key) {
        Ok(deadline) => deadline,
        Err(_) => unreachable!(),
    }
}

fn remove_at<A: Allocator>(queue: &mut Queue<A>, key: &Key) -> u64
    requires { IsSomeKey queue.old key.now }
    ensures { OfLiveKey queue.old key.now (IsEndedLease queue.old key.now result queue.new) }
{
    match queue.remove(&key.entry()) {
        Ok(removed) => removed.deadline,
        Err(_) => unreachable!(),
    }
}

/// How a live name ends: by whoever holds it, or by the queue's owner.
#[derive(Clone, Copy)]
pub enum Ending {
    Cancelled,
    Removed,
}

fn end_at<A: Allocator>(queue: &mut Queue<A>, key: &Key, ending: Ending) -> u64
    requires { IsSomeKey queue.old key.now }
    ensures { OfLiveKey queue.old key.now (IsEndedLease queue.old key.now result queue.new) }
{
    match ending {
        Ending::Cancelled => cancel_at(queue, key),
        Ending::Removed => remove_at(queue, key),
    }
}

fn deadline_at<A: Allocator>(queue: &mut Queue<A>, key: &Key) -> u64
    requires { IsSomeKey queue.old key.now }
    ensures { OfLiveKey queue.old key.now (IsToldOf queue.old key.now result queue.new) }
{
    match queue.deadline(&key.entry()) {
        Ok(deadline) => deadline,
        Err(_) => unreachable!(),
    }
}

// One poll: a name that is due at `now` leaves the queue, or none is due.
fn expire_one<A: Allocator>(queue: &mut Queue<A>, now: u64) -> Option<Lease>
    requires tick { now ≤ LAST_TICK }
    requires later { queue.old.noted ≤ now }
    ensures { IsPolledTo queue.old now result queue.new }
{
    match queue.poll(now) {
        Ok(Turn::Out(expired)) => Some(Lease {
            name: expired.value,
            deadline: expired.deadline,
        }),
        Ok(Turn::Waiting { .. }) => None,
        Ok(Turn::Idle) => None,
        Err(_) => unreachable!(),
    }
}

// The key of a live name that may get such a deadline, or why it may not.
fn key_within<A: Allocator + Clone>(
    names: &Names<A>,
    name: &Name,
    when: u64,
    limit: u64,
) -> Result<Key, Refusal>
    ensures { FindsWithin names.now name.now when limit result }
{
    let Some(key) = names.get(name) else {
        return Err(Refusal::Missing);
    };
    if when > limit {
        return Err(Refusal::TooFar);
    }
    Ok(key)
}

/// The live names of a script: a queue of them, and a key for each.
///
/// Each call takes constant time, but for a sweep of a full queue and a clear, which look at every slot, and for a
/// tick. Between two sweeps at least half as many names are inserted as there are slots: an entry is cancelled only
/// where at most half of them have live names, and a sweep comes only where none is free. Nothing is ever worn: a
/// stamp is given by an insert or a reset alone, and a script has fewer lines than a slot has stamps.
#[derive(Drop)]
pub struct Leases<A: Allocator> {
    queue: Queue<A>,
    names: Names<A>,
    given: u32,
}

impl<A: Allocator> Model for Leases<A> {
    ghost use Rattle.dq_replay.specs.Order.{IsLined};
    ghost use Rattle.dq_replay.specs.LeasesState.{Ticks, LeasesState, leases_state, AreLeases};

    ghost Value = { LeasesState };

    ghost view = { λ a. leases_state a.queue a.given };

    ghost invariant = { λ a. AreLeases a.queue a.names a.given };
}

impl<A: Allocator + Copy> Leases<A> {
    /// No live names, and room for so many.
    pub fn new(alloc: A, capacity: usize) -> Result<Leases<A>, AllocError>
        requires some { 0 < capacity }
        requires few { capacity ≤ CAPACITY_LIMIT }
        ensures { IfOk result (λ leases. leases ≡ no_leases capacity) }
    {
        let Ok(words) = VecWords::new(alloc, capacity) else {
            return Err(AllocError);
        };
        let config = CoreConfig {
            shard: 0,
            capacity,
            last_stamp: LAST_STAMP,
        };
        let Ok(queue) = DelayCore::new(alloc, config, words) else {
            return Err(AllocError);
        };
        Ok(Leases {
            queue,
            names: Names::new(alloc),
            given: 0,
        })
    }

    /// The number of live names.
    pub fn len(&self) -> usize
        ensures { result ≡ length self.now.live }
    {
        self.names.len()
    }

    /// How many names may be live.
    pub fn capacity(&self) -> usize
        ensures { result ≡ self.now.capacity }
    {
        self.queue.capacity()
    }

    /// The greatest tick so far, which the wheel's tick is not after.
    pub fn noted(&self) -> u64
        ensures value { result ≡ self.now.noted }
        ensures bound { result ≤ LAST_TICK }
        ensures reached { self.now.tick ≤ result }
    {
        self.queue.law();
        self.queue.noted()
    }

    pub fn is_live(&self, name: &Name) -> bool
        ensures { result ≡ has_name name.now self.now.live }
    {
        self.names.get(name).is_some()
    }

    /// Makes a new name live, and answers its deadline: the greater of what is asked and the tick.
    pub fn insert(&mut self, name: Name, when: u64) -> Result<u64, AllocError>
        requires new { has_name name self.old.live ≡ false }
        requires room { length self.old.live < self.old.capacity }
        requires tick { when ≤ LAST_TICK }
        requires stamps { self.old.given < LAST_STAMP }
        ensures ok { IfOk result
            (λ d. (d ≡ max when self.old.tick) × (self.new ≡ with_lease_at self.old name d)) }
        ensures err { OnErr result (self.new ≡ self.old) }
    {
        self.names.make_room()?;
        make_room(&mut self.queue);
        let deadline = when.max(self.queue.tick());
        let twin = name.twin();
        let key = link(&mut self.queue, name, when);
        self.names.put(twin, key);
        self.given += 1;
        Ok(deadline)
    }

    /// Gives a live name another deadline: the greater of what is asked, at most the limit, and the noted tick.
    pub fn reset(&mut self, name: &Name, when: u64, limit: u64) -> Result<u64, Refusal>
        requires limit { limit ≤ LAST_TICK }
        requires stamps { self.old.given < LAST_STAMP }
        ensures { ResetsLease self.old name.now when limit result self.new }
    {
        let key = key_within(&self.names, name, when, limit)?;
        self.queue.law();
        let deadline = when.max(self.queue.noted());
        let next = reset_at(&mut self.queue, &key, deadline);
        self.names.put(name.twin(), next);
        self.given += 1;
        Ok(deadline)
    }

    /// Raises a live name's deadline to what is asked, at most the limit.
    pub fn extend(&mut self, name: &Name, when: u64, limit: u64) -> Result<u64, Refusal>
        requires { limit ≤ LAST_TICK }
        ensures { ExtendsLease self.old name.now when limit result self.new }
    {
        let key = key_within(&self.names, name, when, limit)?;
        Ok(extend_at(&mut self.queue, &key, when))
    }

    /// Ends a live name as its holder does, and answers its deadline.
    ///
    /// A cancelled entry keeps its slot until a sweep. Where more than half of the slots have live names it is
    /// removed instead, or a script that stays near its capacity would pay a sweep for each insert.
    pub fn cancel(&mut self, name: &Name) -> Option<u64>
        ensures { EndsLease self.old name.now result self.new }
    {
        let is_crowded = self.names.len() > self.queue.capacity() / 2;
        self.end(
            name,
            if is_crowded {
                Ending::Removed
            } else {
                Ending::Cancelled
            },
        )
    }

    /// Ends a live name as its owner does, and answers its deadline.
    pub fn remove(&mut self, name: &Name) -> Option<u64>
        ensures { EndsLease self.old name.now result self.new }
    {
        self.end(name, Ending::Removed)
    }

    fn end(&mut self, name: &Name, ending: Ending) -> Option<u64>
        ensures { EndsLease self.old name.now result self.new }
    {
        let Some(key) = self.names.get(name) else {
            return None;
        };
        let deadline = end_at(&mut self.queue, &key, ending);
        self.names.remove(name);
        Some(deadline)
    }

    /// The deadline of a live name.
    pub fn deadline(&mut self, name: &Name) -> Option<u64>
        ensures told { result ≡ deadline_of name.now self.old.live }
        ensures same { self.new ≡ self.old }
    {
        let Some(key) = self.names.get(name) else {
            return None;
        };
        Some(deadline_at(&mut self.queue, &key))
    }

    /// Ends all live names, and answers how many there were.
    pub fn clear(&mut self) -> usize
        ensures count { result ≡ length self.old.live }
        ensures clear { self.new ≡ record self.old { live = [] } }
    {
        let count = self.names.len();
        self.queue.clear();
        self.names.clear();
        count
    }

    // One name that is due at `now` expires, or none is due.
    fn expire(&mut self, now: u64) -> Option<Lease>
        requires tick { now ≤ LAST_TICK }
        requires later { self.old.noted ≤ now }
        ensures { ExpiresLease self.old now result self.new }
    {
        let Some(lease) = expire_one(&mut self.queue, now) else {
            return None;
        };
        self.names.remove(&lease.name);
        Some(lease)
    }

    // The live names stand in order.
    fn law(&self)
        ensures { IsLined self.now.live }
    {
        let _ = &self.given;
    }

    /// The names that are due at `now` expire, and come in order.
    pub fn tick(&mut self, alloc: A, now: u64) -> Result<Vec<Lease, A>, AllocError>
        requires tick { now ≤ LAST_TICK }
        requires later { self.old.noted ≤ now }
        ensures { IfOk result (λ due. Ticks self.old now due.items self.new) }
    {
        self.law();
        let mut due = Vec::new(alloc);
        while let Some(lease) = self.expire(now) {
            due.push(lease)?;
        }
        self.law();
        due.sort_unstable();
        Ok(due)
    }
}
