//! A store of several cores: an entry that is moved keeps the id that it came in with.

use super::same;
use dq_core::{CoreConfig, CoreError, DelayCore, Piece, Turn, VecWords};
use dq_growing::{Moved, NextDeadline, SizedStore, TakeError};
use dq_ticks::{EntryId, Key};
use std::alloc::Allocator;
use std::process::Abort;
use std::test::Fail;

type Kept<A> = SizedStore<char, VecWords<A>, A>;

fn core_of<A: Allocator + Clone>(
    heap: &A,
    shard: u32,
    last_stamp: u32,
) -> Result<DelayCore<char, VecWords<A>, A>, CoreError> {
    let Ok(one) = heap.clone() else {
        return Err(CoreError::NoMemory);
    };
    let Ok(other) = heap.clone() else {
        return Err(CoreError::NoMemory);
    };
    let words = VecWords::new(one, 2)?;
    let config = CoreConfig {
        shard,
        capacity: 2,
        last_stamp,
    };
    DelayCore::new(other, config, words).map_err(|refused| refused.0)
}

fn inserted<A: Allocator + Clone>(
    store: &mut Kept<A>,
    value: char,
    when: u64,
) -> Result<Key, CoreError> {
    store.insert(value, when).0.map_err(|refused| refused.0)
}

fn moved_to(moved: Moved<char>) -> Option<(EntryId, u64)> {
    match moved {
        Moved::To { key, deadline } => Some((key.entry(), deadline)),
        Moved::Out(_) => None,
    }
}

// The entry goes on with that deadline, and its id stays.
fn moves<A: Allocator + Clone>(
    rt: &impl Abort,
    store: &mut Kept<A>,
    entry: &EntryId,
    next: NextDeadline,
    deadline: u64,
) {
    let answer = match store.relocate(entry, next).0 {
        Ok(moved) => moved_to(moved),
        Err(_) => None,
    };
    same(rt, "relocate", answer, Some((*entry, deadline)));
}

fn comes_out<A: Allocator + Clone>(
    rt: &impl Abort,
    store: &mut Kept<A>,
    tick: u64,
    entry: &EntryId,
    value: char,
) {
    let answer = match store.poll_some(tick, 1_000) {
        Ok(Piece::Answer(Turn::Out(expired))) => Some((expired.key.entry(), expired.value)),
        _ => None,
    };
    same(rt, "poll", answer, Some((*entry, value)));
}

// Brings an empty core of a number, of two slots, each of which has one stamp.
fn brings<A: Allocator + Clone>(
    store: &mut Kept<A>,
    heap: &A,
    shard: u32,
) -> Result<Result<(), TakeError>, CoreError> {
    let core = core_of(heap, shard, 1)?;
    Ok(store.bring(core).map_err(|refused| refused.0))
}

fn has_place<A: Allocator + Clone>(
    rt: &impl Abort,
    store: &Kept<A>,
    entry: &EntryId,
    place: Option<EntryId>,
) {
    same(rt, "place", store.store().place(entry), place);
}

fn has_deadline<A: Allocator + Clone>(
    rt: &impl Abort,
    store: &mut Kept<A>,
    entry: &EntryId,
    deadline: Result<u64, CoreError>,
) {
    same(rt, "deadline", store.deadline(entry), deadline);
}

// It is known by its own id alone, wherever it is.
fn goes_on<A: Allocator + Clone>(rt: &impl Abort, store: &mut Kept<A>, entry: &EntryId) {
    moves(rt, store, entry, NextDeadline::Same, 5);
    has_deadline(rt, store, entry, Ok(5));
    let there = EntryId::new(1, 0, 1);
    has_deadline(rt, store, &there, Err(CoreError::Missing));
    has_place(rt, store, entry, Some(there));
    has_place(rt, store, &there, None);
}

// The slot has no stamp left, so the entry goes on in the open core.
fn is_reset<A: Allocator + Clone>(rt: &impl Abort, store: &mut Kept<A>, entry: &EntryId) {
    let reset = store.reset(entry, 3).0.map(|key| key.entry());
    same(rt, "reset", reset, Ok(*entry));
    comes_out(rt, store, 3, entry, 'b');
    has_deadline(rt, store, entry, Err(CoreError::Missing));
}

fn is_removed<A: Allocator + Clone>(rt: &impl Abort, store: &mut Kept<A>, entry: &EntryId) {
    let removed = store
        .remove(entry)
        .map(|removed| (removed.key.entry(), removed.value));
    same(rt, "remove", removed, Ok((*entry, 'a')));
    has_place(rt, store, entry, Some(*entry));
}

// A number is taken while a moved entry is known by it, and free once that has left.
fn number_comes_back<A: Allocator + Clone>(
    rt: &impl Abort,
    store: &mut Kept<A>,
    heap: &A,
    entry: &EntryId,
) -> Result<(), CoreError> {
    let drained = store.take_needless().map(|core| core.shard());
    same(rt, "drained", drained, Some(0));
    same(
        rt,
        "a noted number",
        brings(store, heap, 0)?,
        Err(TakeError::UsedNumber),
    );
    is_removed(rt, store, entry);
    same(rt, "a free number", brings(store, heap, 0)?, Ok(()));
    Ok(())
}

fn keeps_ids<A: Allocator + Clone>(rt: &impl Abort, heap: &A) -> Result<(), Fail> {
    let Ok(alloc) = heap.clone() else {
        return Ok(());
    };
    let Ok(mut store) = SizedStore::new(alloc, 1) else {
        return Ok(());
    };
    same(rt, "a first core", brings(&mut store, heap, 0)?, Ok(()));
    let first = inserted(&mut store, 'a', 5)?.entry();
    let second = inserted(&mut store, 'b', 9)?.entry();
    // The open core has no free slot, so the next one is open.
    same(rt, "a second core", brings(&mut store, heap, 1)?, Ok(()));
    goes_on(rt, &mut store, &first);
    is_reset(rt, &mut store, &second);
    number_comes_back(rt, &mut store, heap, &first)?;
    Ok(())
}

// promise: growing.by-id growing.notes growing.relocate
#[test]
fn moved_entries_keep_their_ids(rt: HostRuntime) -> Result<(), Fail> {
    keeps_ids(&rt, &rt.alloc())
}
