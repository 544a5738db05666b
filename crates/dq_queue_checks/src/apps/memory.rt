//! Each allocation of a cache is refused in turn.

use super::same;
use crate::apps::refusing::{each_refused, times};
use dq_apps::TtlCache;
use dq_core::CoreError;
use dq_ticks::LAST_STAMP;
use std::alloc::{AllocError, Allocator};
use std::hash::Hash;
use std::process::Abort;
use std::test::Fail;

// A cache whose keys and all of whose memory are of one heap. Its calls are proved once for all heaps, which is
// quicker than for the refusing one alone.
type Cache<A> = TtlCache<String<A>, u32, A>;

// A refused put: why, and the key and the value that it handed back.
type PutBack<A> = (CoreError, String<A>, u32);

// Where the allocation was that was refused.
#[derive(Clone, Copy, PartialEq, Eq, Debug)]
enum Refused {
    // In the test's own keys.
    Keys,
    // In the making of the cache.
    New,
    // In the first put, which makes room in the map and copies its key.
    First,
    // In the second put, which copies its key alone.
    Second,
}

fn key<A: Allocator>(heap: A, text: &str) -> Result<String<A>, AllocError> {
    String::from_str(heap, text)
}

fn made<A: Allocator + Clone>(heap: A, capacity: usize) -> Result<Cache<A>, CoreError> {
    TtlCache::new(heap, capacity, LAST_STAMP)
}

// Puts a value at a key, until so many ticks later, and says how it was refused.
fn put<A: Allocator + Clone>(
    cache: &mut Cache<A>,
    key: String<A>,
    value: u32,
    ttl: u64,
    now: u64,
) -> Option<PutBack<A>> {
    cache.put(key, value, ttl, now).err()
}

// A refused put handed key and value back, for want of memory.
fn came_back<A: Allocator>(rt: &impl Abort, refused: &PutBack<A>, text: &str, value: u32) {
    let (error, key, back) = refused;
    same(rt, text, (*error, *back), (CoreError::NoMemory, value));
    same(rt, text, key.as_str(), text);
}

// So many keys are kept, at that moment.
fn stands<A: Allocator>(rt: &impl Abort, cache: &Cache<A>, len: usize, moment: u64) {
    same(rt, "len", (cache.len(), cache.moment()), (len, moment));
}

fn sees_none<A: Allocator>(rt: &impl Abort, cache: &Cache<A>, key: &String<A>) {
    same(rt, "get", cache.get(key, 0).copied(), None);
}

// The first key is put.
fn puts_first<A: Allocator + Copy>(
    rt: &impl Abort,
    heap: A,
    cache: &mut Cache<A>,
) -> Option<Refused> {
    let Ok(a) = key(heap, "a") else {
        return Some(Refused::Keys);
    };
    let Some(refused) = put(cache, a, 1, 5, 0) else {
        return None;
    };
    came_back(rt, &refused, "a", 1);
    stands(rt, cache, 0, 0);
    Some(Refused::First)
}

// The second key is put when the first is due, which isn't seen any more where the put is refused.
fn puts_second<A: Allocator + Copy>(
    rt: &impl Abort,
    heap: A,
    cache: &mut Cache<A>,
    a: &String<A>,
) -> Option<Refused> {
    let Ok(b) = key(heap, "b") else {
        return Some(Refused::Keys);
    };
    let Some(refused) = put(cache, b, 2, 5, 5) else {
        return None;
    };
    came_back(rt, &refused, "b", 2);
    stands(rt, cache, 0, 5);
    sees_none(rt, cache, a);
    Some(Refused::Second)
}

fn puts_both<A: Allocator + Copy>(
    rt: &impl Abort,
    heap: A,
    cache: &mut Cache<A>,
    a: &String<A>,
) -> Option<Refused> {
    let refused = puts_first(rt, heap, cache);
    if refused.is_some() {
        return refused;
    }
    let refused = puts_second(rt, heap, cache, a);
    if refused.is_none() {
        stands(rt, cache, 1, 5);
    }
    refused
}

// Two keys are put in a fresh cache, which is lent to the puts, so that they have little to drop, and little to prove.
fn puts_in_fresh<A: Allocator + Copy>(rt: &impl Abort, heap: A, a: &String<A>) -> Option<Refused> {
    match made(heap, 2) {
        Ok(mut cache) => puts_both(rt, heap, &mut cache, a),
        Err(error) => {
            same(rt, "new", error, CoreError::NoMemory);
            Some(Refused::New)
        }
    }
}

fn walk<A: Allocator + Copy>(rt: &impl Abort, heap: A) -> Option<Refused> {
    match key(heap, "a") {
        Ok(a) => puts_in_fresh(rt, heap, &a),
        Err(_no_memory) => Some(Refused::Keys),
    }
}

// The making takes memory for words, wheel and slots; the first put room in the map and a copy of its key.
fn all_are_refused(rt: &impl Abort, places: &[Refused]) {
    same(rt, "new", times(places, Refused::New) >= 3, true);
    same(rt, "first", times(places, Refused::First) >= 2, true);
    same(rt, "second", times(places, Refused::Second), 1);
}

// promise: cache.put-kept cache.making-put
#[test]
fn cache_put_refused(rt: HostRuntime) -> Result<(), Fail> {
    let places = each_refused(&rt, rt.alloc(), |heap| walk(&rt, heap))?;
    all_are_refused(&rt, &places);
    Ok(())
}

// The keys of a run that takes all its room.
const NAMES: [&str; 16] = [
    "a", "b", "c", "d", "e", "f", "g", "h", "i", "j", "k", "l", "m", "n", "o", "p",
];

// Where the allocation was that was refused: in the making of the cache or the test's own names, or in the put of
// that turn.
#[derive(Clone, Copy, PartialEq, Eq, Debug)]
enum Filling {
    Before,
    Put(usize),
}

// How many values are seen of a cache, whatever its keys and values are.
fn seen<K, V, A>(cache: &TtlCache<K, V, A>) -> usize
where
    K: Eq + Hash + Drop,
    V: Drop,
    A: Allocator,
{
    cache.seen(0).count()
}

// The name of that turn is put at that tick. Where it is refused, those of the turns before stay.
fn puts<A: Allocator + Copy>(
    rt: &impl Abort,
    heap: A,
    cache: &mut Cache<A>,
    turn: u32,
    text: &str,
) -> Option<Filling> {
    let Ok(name) = key(heap, text) else {
        return Some(Filling::Before);
    };
    let Some(refused) = put(cache, name, turn, 100, u64::from(turn)) else {
        return None;
    };
    let before = turn as usize;
    came_back(rt, &refused, text, turn);
    stands(rt, cache, before, u64::from(turn));
    same(rt, "seen", seen(cache), before);
    Some(Filling::Put(before))
}

// Each of the names is put, a tick after the one before.
fn puts_all<A: Allocator + Copy>(
    rt: &impl Abort,
    heap: A,
    cache: &mut Cache<A>,
) -> Option<Filling> {
    for (turn, text) in NAMES.iter().enumerate() {
        let refused = puts(rt, heap, cache, turn as u32, text);
        if refused.is_some() {
            return refused;
        }
    }
    None
}

fn fill<A: Allocator + Copy>(rt: &impl Abort, heap: A) -> Option<Filling> {
    match made(heap, NAMES.len()) {
        Ok(mut cache) => puts_all(rt, heap, &mut cache),
        Err(_no_memory) => Some(Filling::Before),
    }
}

// A put copies its key, and at times the map grows: each of both is refused at a first key and at a later one.
fn growths_are_refused(rt: &impl Abort, places: &[Filling]) {
    let mut later = false;
    for turn in 0..NAMES.len() {
        let refused = times(places, Filling::Put(turn));
        same(rt, turn, refused >= 1, true);
        later |= turn > 0 && refused >= 2;
    }
    let first = times(places, Filling::Put(0)) >= 2;
    same(rt, "growths", (first, later), (true, true));
}

// promise: cache.making-put
#[test]
fn each_growth_of_a_put_is_refused(rt: HostRuntime) -> Result<(), Fail> {
    let places = each_refused(&rt, rt.alloc(), |heap| fill(&rt, heap))?;
    growths_are_refused(&rt, &places);
    Ok(())
}
