//! A refresh, each of whose allocations is refused in turn.

use super::same;
use crate::apps::refusing::{each_refused, times};
use dq_apps::TtlCache;
use dq_core::CoreError;
use std::alloc::Allocator;
use std::process::Abort;
use std::test::Fail;

// Where the allocation was that was refused.
#[derive(Clone, Copy, PartialEq, Eq, Debug)]
enum Refused {
    // In the making of the cache, or in a put.
    Before,
    // In the refresh, which left the cache as it was.
    Refresh,
}

// A cache all of whose memory is of one heap. Its calls are proved once for all heaps, which is quicker than for the
// refusing one alone.
type Heaped<A> = TtlCache<char, u32, A>;

fn made<A: Allocator + Clone>(heap: A) -> Result<Heaped<A>, CoreError> {
    TtlCache::new(heap, 2, 2)
}

fn is_put<A: Allocator + Clone>(cache: &mut Heaped<A>, key: char, value: u32) -> bool {
    cache.put(key, value, 10, 0).is_ok()
}

fn are_put<A: Allocator + Clone>(cache: &mut Heaped<A>) -> bool {
    for (key, value) in &[('a', 1), ('a', 2), ('b', 3)] {
        if !is_put(cache, *key, *value) {
            return false;
        }
    }
    true
}

fn refresh<A: Allocator + Clone>(cache: &mut Heaped<A>) -> Result<(), CoreError> {
    cache.refresh()
}

// Both keys are kept, and the first is seen with its later value.
fn stays<A: Allocator>(rt: &impl Abort, cache: &Heaped<A>) {
    let told = (cache.len(), cache.worn(), cache.next_deadline());
    same(rt, "refresh", told, (2, 0, Some(10)));
    same(rt, "get", cache.get(&'a', 9).copied(), Some(2));
}

fn renews<A: Allocator>(rt: &impl Abort, cache: &mut Heaped<A>, answer: Result<u64, CoreError>) {
    same(rt, "renew", cache.renew(&'a', 10, 1), answer);
}

fn refreshes<A: Allocator + Clone>(rt: &impl Abort, cache: &mut Heaped<A>) -> Option<Refused> {
    let refreshed = refresh(cache);
    stays(rt, cache);
    if refreshed.is_ok() {
        renews(rt, cache, Ok(11));
        return None;
    }
    same(rt, "refresh", refreshed, Err(CoreError::NoMemory));
    renews(rt, cache, Err(CoreError::Worn));
    Some(Refused::Refresh)
}

// A cache with a slot at its last stamp is refreshed.
fn fills_and_refreshes<A: Allocator + Clone>(
    rt: &impl Abort,
    cache: &mut Heaped<A>,
) -> Option<Refused> {
    if are_put(cache) {
        refreshes(rt, cache)
    } else {
        Some(Refused::Before)
    }
}

fn walk<A: Allocator + Clone>(rt: &impl Abort, heap: A) -> Option<Refused> {
    match made(heap) {
        Ok(mut cache) => fills_and_refreshes(rt, &mut cache),
        Err(_no_memory) => Some(Refused::Before),
    }
}

// Words, wheel and slots are refused at least.
fn three_are_refused(rt: &impl Abort, places: &[Refused]) {
    same(rt, "refresh", times(places, Refused::Refresh) >= 3, true);
}

// promise: cache.refresh-slot
#[test]
fn each_allocation_of_a_refresh_is_refused(rt: HostRuntime) -> Result<(), Fail> {
    let places = each_refused(&rt, rt.alloc(), |heap| walk(&rt, heap))?;
    three_are_refused(&rt, &places);
    Ok(())
}
