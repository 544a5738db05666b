//! The map of a cache: what is read there, and what is written at a key.
ghost use Rattle.std.specs.Prelude.{◌≡◌, ◌<◌, IsSome, Some, None};
ghost use Rattle.std.specs.Map.{lookup};
ghost use Rattle.dq_apps.specs.Tied.{IsRenewedKey, IsReplacedAt, HadValue, TellsTimer};
ghost use Rattle.dq_apps.specs.Tied.{TellsFirstDeadline, lesser_of};

use crate::kept::{Kept, Timer};
use dq_ticks::Key;
use std::alloc::Allocator;
use std::collections::HashMap;
use std::hash::{BuildHasher, Hash};
use std::mem;

// Keys with what is kept under them.
pub(crate) type Stock<K, V, A, S> = HashMap<K, Kept<V>, S, A>;

// The timer of a key that is there.
pub(crate) fn timer_of<K: Eq + Hash, V, A: Allocator, S: BuildHasher>(
    stock: &Stock<K, V, A, S>,
    key: &K,
) -> Option<Timer>
    ensures { TellsTimer (lookup (K.eq key.now) stock.now.entries) result }
{
    match stock.get(key) {
        Some(kept) => Some(Timer {
            deadline: kept.deadline,
            key: kept.key,
        }),
        None => None,
    }
}

// Gives a key that is there another deadline and another key of its timer.
pub(crate) fn renew_at<K: Eq + Hash, V, A: Allocator, S: BuildHasher>(
    stock: &mut Stock<K, V, A, S>,
    key: &K,
    deadline: u64,
    next: Key,
)
    requires { IsSome (lookup (K.eq key.now) stock.old.entries) }
    ensures { IsRenewedKey K.eq stock.old.entries key.now deadline next stock.new.entries }
{
    if let Some(kept) = stock.get_mut(key) {
        kept.deadline = deadline;
        kept.key = next;
    }
}

// Gives a key that is there another value, deadline and key of its timer, and hands the old value back.
pub(crate) fn replace_at<K: Eq + Hash, V, A: Allocator, S: BuildHasher>(
    stock: &mut Stock<K, V, A, S>,
    key: &K,
    value: V,
    deadline: u64,
    next: Key,
) -> V
    requires { IsSome (lookup (K.eq key.now) stock.old.entries) }
    ensures old { HadValue (lookup (K.eq key.now) stock.old.entries) result }
    ensures written { IsReplacedAt K.eq stock.old.entries key.now value deadline next
        stock.new.entries }
{
    match stock.get_mut(key) {
        Some(kept) => {
            kept.deadline = deadline;
            kept.key = next;
            mem::replace(&mut kept.value, value)
        }
        None => unreachable!(),
    }
}

// The lesser of a deadline and another, if there is one.
fn lesser(other: Option<u64>, deadline: u64) -> u64
    ensures { result ≡ lesser_of other deadline }
{
    match other {
        Some(other) => deadline.min(other),
        None => deadline,
    }
}

// The least deadline of what is there; none where nothing is.
pub(crate) fn least_deadline<K: Eq + Hash, V, A: Allocator, S: BuildHasher>(
    stock: &Stock<K, V, A, S>,
) -> Option<u64>
    ensures { TellsFirstDeadline stock.now.entries result }
{
    let mut least = None;
    for (_key, kept) in stock.iter() {
        least = Some(lesser(least, kept.deadline));
    }
    least
}
