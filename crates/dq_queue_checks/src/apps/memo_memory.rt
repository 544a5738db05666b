//! A cache as a memo, whose every copy and growth is refused in turn.

use super::same;
use crate::apps::refusing::{each_refused, times};
use dq_apps::{MemoAnswer, TtlCache};
use dq_core::CoreError;
use dq_ticks::LAST_STAMP;
use std::alloc::{AllocError, Allocator};
use std::process::Abort;
use std::test::Fail;

// A cache whose texts and all of whose memory are of one heap. Its calls are proved once for all heaps, which is
// quicker than for the refusing one alone.
type Cache<A> = TtlCache<String<A>, String<A>, A>;

// Where the allocation was that was refused.
#[derive(Clone, Copy, PartialEq, Eq, Debug)]
enum Refused {
    // In the test's own texts, or in the making of the cache.
    Before,
    // Where a value was made: in a copy of it, in the map's growth and in a copy of the key.
    Made,
    // In a copy of what is seen.
    Seen,
}

fn text<A: Allocator>(heap: A, text: &str) -> Result<String<A>, AllocError> {
    String::from_str(heap, text)
}

fn made<A: Allocator + Clone>(heap: A) -> Result<Cache<A>, CoreError> {
    TtlCache::new(heap, 2, LAST_STAMP)
}

// A copy of the value at a key is asked for, and where none is seen the value is made.
fn ask<A: Allocator + Clone>(
    cache: &mut Cache<A>,
    key: String<A>,
    value: String<A>,
    now: u64,
) -> MemoAnswer<String<A>> {
    cache.get_or_insert_with(key, 5, now, move || value)
}

fn is_made<A: Allocator>(rt: &impl Abort, value: &String<A>) {
    same(rt, "value", value.as_str(), "made");
}

// Memory was refused, and so many keys are kept.
fn is_refused<A: Allocator>(rt: &impl Abort, error: CoreError, cache: &Cache<A>, len: usize) {
    same(
        rt,
        "refused",
        (error, cache.len()),
        (CoreError::NoMemory, len),
    );
}

// A key and a value of the test's own.
fn pair<A: Allocator + Copy>(heap: A, value: &str) -> Result<(String<A>, String<A>), AllocError> {
    let key = text(heap, "key")?;
    Ok((key, text(heap, value)?))
}

// A value is made and put, or comes back.
fn makes<A: Allocator + Copy>(rt: &impl Abort, heap: A, cache: &mut Cache<A>) -> Option<Refused> {
    let Ok((key, made)) = pair(heap, "made") else {
        return Some(Refused::Before);
    };
    match ask(cache, key, made, 0) {
        Ok(value) => {
            is_made(rt, &value);
            None
        }
        Err((error, back)) => {
            is_refused(rt, error, cache, 0);
            assert!(rt; back.is_some_and(|value| value.as_str() == "made"));
            Some(Refused::Made)
        }
    }
}

// A copy of the value that is seen is asked for.
fn copies<A: Allocator + Copy>(rt: &impl Abort, heap: A, cache: &mut Cache<A>) -> Option<Refused> {
    let Ok((key, other)) = pair(heap, "other") else {
        return Some(Refused::Before);
    };
    match ask(cache, key, other, 4) {
        Ok(value) => {
            is_made(rt, &value);
            None
        }
        Err((error, back)) => {
            is_refused(rt, error, cache, 1);
            assert!(rt; back.is_none());
            Some(Refused::Seen)
        }
    }
}

// A value is made and put, and a copy of it is asked for.
fn makes_and_copies<A: Allocator + Copy>(
    rt: &impl Abort,
    heap: A,
    cache: &mut Cache<A>,
) -> Option<Refused> {
    let refused = makes(rt, heap, cache);
    if refused.is_some() {
        return refused;
    }
    copies(rt, heap, cache)
}

// What is owned here is lent to the calls, so that they have little to drop, and little to prove.
fn walk<A: Allocator + Copy>(rt: &impl Abort, heap: A) -> Option<Refused> {
    match made(heap) {
        Ok(mut cache) => makes_and_copies(rt, heap, &mut cache),
        Err(_no_memory) => Some(Refused::Before),
    }
}

// A copy of what was made, room in the map, a copy of the key; and a copy of what is seen.
fn all_are_refused(rt: &impl Abort, places: &[Refused]) {
    same(rt, "made", times(places, Refused::Made) >= 3, true);
    same(rt, "seen", times(places, Refused::Seen), 1);
}

// promise: cache.making-put
#[test]
fn each_allocation_of_a_memo_is_refused(rt: HostRuntime) -> Result<(), Fail> {
    let places = each_refused(&rt, rt.alloc(), |heap| walk(&rt, heap))?;
    all_are_refused(&rt, &places);
    Ok(())
}
