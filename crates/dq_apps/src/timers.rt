//! The timers of a cache's keys, kept by the delay queue of one owner. Nobody cancels one, so each runs until it is
//! due.
ghost use Rattle.std.specs.Prelude.{◌≡◌, ◌≢◌, ℕ, ◌+◌, ◌<◌, ◌≤◌, ◌↔◌, length, IsTrue, IfSome};
ghost use Rattle.std.specs.List.{count_by};
ghost use Rattle.dq_apps.specs.TimerTable.{is_set, is_spent, timers_of, HasRoom};
ghost use Rattle.dq_apps.specs.Setting.{IsSetting};
ghost use Rattle.dq_apps.specs.TimerTable.{MakesTimers, AreTimers, IsTimer};
ghost use Rattle.dq_apps.specs.TimerTable.{StopsDue, Stops, Starts, Restarts, IsFirst};
ghost use Rattle.dq_apps.specs.TimerTable.{AreWithin, AreInRange, TellsTimersWake};
ghost use Rattle.dq_apps.specs.Moves.{MakesAnew};

use dq_core::{CoreConfig, CoreError, DelayCore, Look, Turn, VecWords};
use dq_ticks::{CAPACITY_LIMIT, Key, LAST_STAMP, LAST_TICK};
use std::alloc::{Allocator, Global};
use std::marker::Model;

// Whether the numbers that a cache is made by are in their ranges.
pub(crate) fn is_setting(capacity: usize, last_stamp: u32) -> bool
    ensures { IsTrue result ↔ IsSetting capacity last_stamp }
{
    0 < capacity && capacity <= CAPACITY_LIMIT && 0 < last_stamp && last_stamp <= LAST_STAMP
}

type Queue<K, A> = DelayCore<K, VecWords<A>, A>;

// The timers of keys.
#[derive(Drop)]
pub(crate) struct Timers<K, A: Allocator = Global> {
    queue: Queue<K, A>,
    last_stamp: u32,
    alloc: A,
}

impl<K, A: Allocator> Model for Timers<K, A> {
    ghost use Rattle.std.specs.Prelude.{◌≡◌};
    ghost use Rattle.dq_apps.specs.TimerTable.{TimerTable, timers_of, AreTimers, AreFiled};

    ghost Value = { TimerTable K };

    ghost view = { λ a. timers_of a.queue };

    ghost invariant = { λ a. AreTimers a.queue × (a.queue.slots.last_stamp ≡ a.last_stamp)
        × AreFiled a.queue };
}

impl<K: Drop, A: Allocator + Clone> Timers<K, A> {
    // Slots of which none is used. Refused as BadConfig where the capacity isn't 1 to 65536 or the last stamp isn't 1
    // to 1048575, and else as NoMemory.
    pub(crate) fn new(alloc: A, capacity: usize, last_stamp: u32) -> Result<Timers<K, A>, CoreError>
        ensures { MakesTimers capacity last_stamp result }
    {
        if !is_setting(capacity, last_stamp) {
            return Err(CoreError::BadConfig);
        }
        let config = CoreConfig {
            shard: 0,
            capacity,
            last_stamp,
        };
        let words = VecWords::new(alloc.clone()?, capacity)?;
        match DelayCore::new(alloc.clone()?, config, words) {
            Ok(queue) => Ok(Timers {
                queue,
                last_stamp,
                alloc,
            }),
            Err((error, _words)) => Err(error),
        }
    }

    // As many slots with as many stamps, of which none is used. Refused as NoMemory alone: the numbers were in their
    // ranges when these timers were made.
    pub(crate) fn anew(&self) -> Result<Timers<K, A>, CoreError>
        ensures { MakesAnew self.now result }
    {
        match Timers::new(self.alloc.clone()?, self.capacity(), self.last_stamp) {
            Ok(fresh) => Ok(fresh),
            Err(_) => Err(CoreError::NoMemory),
        }
    }
}

impl<K: Drop, A: Allocator> Timers<K, A> {
    // What holds of all timers.
    pub(crate) fn law(&self)
        ensures last { self.now.last_stamp ≤ LAST_STAMP }
        ensures capacity { length self.now.slots ≤ CAPACITY_LIMIT }
        ensures stamps { AreWithin self.now.last_stamp self.now.slots }
        ensures deadlines { AreInRange self.now.slots }
        ensures noted { self.now.noted ≤ LAST_TICK }
    {
        self.queue.law();
    }

    // How many timers are set.
    pub(crate) fn len(&self) -> usize
        ensures count { result ≡ count_by is_set self.now.slots }
        ensures few { result ≤ CAPACITY_LIMIT }
    {
        self.queue.law();
        self.queue.len()
    }

    // How many slots have no timer and no stamp left.
    pub(crate) fn worn(&self) -> usize
        ensures count { result ≡ count_by (is_spent self.now.last_stamp) self.now.slots }
        ensures few { result ≤ CAPACITY_LIMIT }
    {
        self.queue.law();
        self.queue.worn()
    }

    // How many slots there are.
    pub(crate) fn capacity(&self) -> usize
        ensures { result ≡ length self.now.slots }
    {
        self.queue.law();
        self.queue.capacity()
    }

    // The least deadline of a timer, where the queue files its first one by its own deadline: none is then before it.
    // None where no timer is set, or where all are more than `REACH` ticks ahead, and so filed earlier. Time as the
    // timers that share the first one's list.
    pub(crate) fn first_deadline(&self) -> Option<u64>
        ensures { IfSome result (IsFirst self.now.slots) }
    {
        self.queue.law();
        let Some(key) = self.queue.peek() else {
            return None;
        };
        let Some(filed) = self.queue.filed(&key.entry()) else {
            return None;
        };
        match self.queue.look(&key) {
            Ok(Look::StillLive(deadline)) if deadline == filed => Some(deadline),
            _ => None,
        }
    }

    // When the queue looks at a timer next; none where none is set. Constant time.
    pub(crate) fn next_wake(&self) -> Option<u64>
        ensures { TellsTimersWake self.now result }
    {
        self.queue.law();
        self.queue.next_wake()
    }

    // Stops one timer that is due at `now`, and answers its key; none where none is due.
    pub(crate) fn stop_due(&mut self, now: u64) -> Option<K>
        requires tick { now ≤ LAST_TICK }
        requires later { self.old.noted ≤ now }
        ensures { StopsDue self.old now result self.new }
    {
        let Ok(turn) = self.queue.poll(now) else {
            unreachable!();
        };
        match turn {
            Turn::Out(expired) => Some(expired.value),
            Turn::Waiting { .. } => None,
            Turn::Idle => None,
        }
    }

    // Sets a timer at a free slot.
    pub(crate) fn start(&mut self, key: K, when: u64) -> Key
        requires tick { when ≤ LAST_TICK }
        requires later { self.old.noted ≤ when }
        requires room { HasRoom self.old }
        ensures { Starts self.old key when result self.new }
    {
        self.queue.law();
        match self.queue.insert(key, when) {
            Ok(key) => key,
            Err(_) => unreachable!(),
        }
    }

    // Gives a timer another deadline, and its slot's next stamp; none where the slot has none left. A reset is
    // refused for nothing else: the timer is there, and nobody cancels it.
    pub(crate) fn restart(&mut self, key: &Key, when: u64) -> Option<Key>
        requires tick { when ≤ LAST_TICK }
        requires later { self.old.noted ≤ when }
        requires set { IsTimer self.old.slots key.now }
        ensures { Restarts self.old key.now when result self.new }
    {
        self.queue.law();
        self.queue.own_events_alone();
        match self.queue.reset(&key.entry(), when) {
            Ok(next) => Some(next),
            Err(_) => None,
        }
    }

    // Stops a timer.
    pub(crate) fn stop(&mut self, key: &Key)
        requires { IsTimer self.old.slots key.now }
        ensures { Stops self.old key.now self.new }
    {
        self.queue.own_events_alone();
        match self.queue.remove(&key.entry()) {
            Ok(_) => (),
            Err(_) => unreachable!(),
        }
    }
}
