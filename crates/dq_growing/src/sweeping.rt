//! How cancelled entries are freed where there is time: a few slots of a core at once, round and round.

ghost use Rattle.std.specs.Prelude.{◌≡◌, ◌<◌, ◌↔◌, true, false, MatchOption, None, IsTrue};
ghost use Rattle.dq_growing.specs.Runs.{HoldsDeadlines, KeepsIds};
ghost use Rattle.dq_growing.specs.Sizing.{IsQuiet, WayGoesOn, TakesOff, SweepsNext, TellsQuiet, way_for};
ghost use Rattle.dq_growing.specs.Stands.{KeepsWords};

use crate::NEVER;
use crate::cores::Cores;
use crate::sizing::{Sizing, slots};
use crate::store::Store;
use dq_core::{Swept, Words};
use std::alloc::Allocator;

/// How many slots are looked at at once.
const SLOTS: usize = 256;

/// How far the way through the slots is.
#[derive(Clone, Copy, Debug)]
pub(crate) struct Sweep {
    place: usize,
    slot: usize,
    // The accepted cancels as the way began, and how many slots are left on it.
    cancels: u64,
    pub(crate) left: usize,
}

// The slot to go on from, none where the core is done.
fn next_of(swept: Option<Swept>) -> Option<usize>
    ensures { MatchOption swept (result ≡ None) (λ s. result ≡ s.next) }
{
    match swept {
        Some(swept) => swept.next,
        None => None,
    }
}

impl Sweep {
    pub const fn new() -> Sweep
        ensures { result ≡ record { place = 0; slot = 0; cancels = 0; left = 0 } }
    {
        Sweep {
            place: 0,
            slot: 0,
            cancels: 0,
            left: 0,
        }
    }

    // Begins the way anew, on which so many slots are.
    pub fn restart(&mut self, slots: usize)
        ensures { self.new ≡ record self.old { place = 0; slot = 0; left = slots } }
    {
        self.place = 0;
        self.slot = 0;
        self.left = slots;
    }

    // Goes on to a slot of the core of that many slots, or to the next core, of which there are so many.
    fn go_on(&mut self, next: Option<usize>, capacity: usize, cores: usize)
        ensures goes_on { WayGoesOn self.old next cores self.new }

        // The slots that were looked at are taken off; but a core of none counts as one.
        ensures left { TakesOff self.old next capacity self.new }
    {
        let end = next.unwrap_or(capacity);
        let looked_at = end.saturating_sub(self.slot).max(1);
        self.left = self.left.saturating_sub(looked_at);
        self.slot = next.unwrap_or(0);
        if next.is_none() {
            let following = self.place.saturating_add(1);
            self.place = if following < cores { following } else { 0 };
        }
    }
}

impl Sizing {
    // Begins the way anew where other cancels are told than before: all slots are on it again.
    pub(crate) fn begin_way<T, W: Words, A: Allocator>(
        &mut self,
        cores: &Cores<T, W, A>,
        cancels: u64,
    )
        ensures { self.new ≡ record self.old { sweep = way_for self.old.sweep cancels cores.now } }
    {
        if self.sweep.cancels != cancels {
            self.sweep.cancels = cancels;
            self.sweep.left = slots(cores);
        }
    }

    // Notes whether there is nothing more to do since so many cancels.
    pub(crate) fn note_swept<T, W: Words, A: Allocator + Clone>(
        &mut self,
        store: &Store<T, W, A>,
        cancels: u64,
    )
        ensures quiet { TellsQuiet self.new cancels store.now }
        ensures rest { self.new ≡ record self.old { quiet_since = self.new.quiet_since } }
    {
        self.quiet_since = if self.is_quiet(store) { cancels } else { NEVER };
    }

    fn is_quiet<T, W: Words, A: Allocator + Clone>(&self, store: &Store<T, W, A>) -> bool
        ensures yes { result ≡ true → IsQuiet self.now store.now }
        ensures no { result ≡ false → ¬ IsQuiet self.now store.now }
    {
        self.sweep.left == 0 && !self.is_busy(store)
    }

    // Sweeps the next slots of the way.
    pub(crate) fn sweep_some<T, W: Words, A: Allocator + Clone>(
        &mut self,
        store: &mut Store<T, W, A>,
    )
        ensures sweeps { SweepsNext W.shared 256
            self.old.sweep store.old self.new.sweep store.new }
        ensures keeps { KeepsIds store.old store.new }
        ensures holds { HoldsDeadlines store.old store.new }
        ensures words { KeepsWords W.origin W.begun store.old.cores store.new.cores }
        ensures rest { self.new ≡ record self.old { sweep = self.new.sweep } }
    {
        let cores = store.cores().count();
        let Some(core) = store.cores().get(self.sweep.place) else {
            self.sweep.go_on(None, 0, cores);
            return;
        };
        let capacity = core.capacity();
        if core.is_empty() {
            self.sweep.go_on(None, capacity, cores);
            return;
        }
        let swept = store.sweep_some(self.sweep.place, self.sweep.slot, SLOTS);
        self.sweep.go_on(next_of(swept), capacity, cores);
    }
}
