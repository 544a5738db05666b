//! Moves the timers of a map's keys to fresh ones, each at the deadline that the map has.
ghost use Rattle.std.specs.Prelude.{◌≡◌, ◌≤◌, IsSome, true, false};
ghost use Rattle.std.specs.Map.{lookup};
ghost use Rattle.dq_apps.specs.declared.kept.Kept.{Kept};
ghost use Rattle.dq_apps.specs.TimerTable.{HasRoom};
ghost use Rattle.dq_apps.specs.Moves.{AreMoving, HaveMoved, IsOneLess, StartsAt};

use crate::stock::Stock;
use crate::timers::Timers;
use dq_ticks::LAST_TICK;
use std::alloc::Allocator;
use std::hash::{BuildHasher, Hash};

// Sets a timer of a key that is there, at its deadline.
fn start_at<K: Eq + Hash + Drop, V, A: Allocator, S: BuildHasher>(
    stock: &mut Stock<K, V, A, S>,
    timers: &mut Timers<K, A>,
    key: K,
)
    requires there { IsSome (lookup (K.eq key) stock.old.entries) }
    requires range { (s : Kept V) → lookup (K.eq key) stock.old.entries ≡ Some s
        → (timers.old.noted ≤ s.deadline) × (s.deadline ≤ LAST_TICK) }
    requires room { HasRoom timers.old }
    ensures { StartsAt K.eq stock.old.entries timers.old key stock.new.entries timers.new }
{
    if let Some(kept) = stock.get_mut(&key) {
        kept.key = timers.start(key, kept.deadline);
    }
}

// Moves one timer, if one is left.
fn move_one<K: Eq + Hash + Drop, V, A: Allocator, S: BuildHasher>(
    stock: &mut Stock<K, V, A, S>,
    worn: &mut Timers<K, A>,
    fresh: &mut Timers<K, A>,
) -> bool
    requires { AreMoving K.eq stock.old.entries worn.old.slots fresh.old }
    ensures moved { HaveMoved K.eq stock.old.entries worn.old.slots fresh.old stock.new.entries
        worn.new.slots fresh.new }
    ensures left { IsOneLess result worn.old.slots worn.new.slots }
{
    worn.law();
    let Some(key) = worn.stop_due(LAST_TICK) else {
        return false;
    };
    start_at(stock, fresh, key);
    true
}

// Moves all timers. Each is due at the last tick, so the old ones come out in the order of their deadlines.
pub(crate) fn move_all<K: Eq + Hash + Drop, V, A: Allocator, S: BuildHasher>(
    stock: &mut Stock<K, V, A, S>,
    worn: &mut Timers<K, A>,
    fresh: &mut Timers<K, A>,
)
    requires { AreMoving K.eq stock.old.entries worn.old.slots fresh.old }
    ensures moved { HaveMoved K.eq stock.old.entries worn.old.slots fresh.old stock.new.entries
        worn.new.slots fresh.new }
    ensures left { IsOneLess false worn.old.slots worn.new.slots }
{
    while move_one(stock, worn, fresh) {}
}
