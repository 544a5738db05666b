//! The directory: what one thread adds, others find under its number, and nothing else.
ghost use Rattle.std.specs.Prelude.{◌≡◌, IfSome};
ghost use Rattle.dq_words.specs.Claims.{IsOf};

use super::same;
use dq_testing::RefusingHeap;
use dq_words::directory::{AddError, Claim, Clerk, Directory, MOST};
use linked_list_allocator::LocalHeap;
use std::alloc::{Allocator, Global};
use std::process::Abort;
use std::test::*;
use std::thread::{Threads, join};

// A thread adds a thing, by a clerk that it has for itself.
fn add_as(mut clerk: Clerk<u64>, thing: u64) -> Option<Claim<u64>>
    ensures of { IfSome result (λ c. IsOf clerk.rows c) }
    ensures number { IfSome result (λ c. c.number ≡ clerk.given) }
    ensures thing { IfSome result (λ c. c.thing ≡ thing) }
{
    match clerk.add(thing) {
        Ok(claim) => Some(claim),
        Err(_) => None,
    }
}

// The claim of what is found under a number.
fn claim_of(directory: &Directory<u64>, number: u32) -> Option<Claim<u64>>
    ensures { IfSome result (λ c. IsOf directory.now c × (c.number ≡ number)) }
{
    let (_, claim) = directory.get(number)?;
    Some(claim)
}

/// What one thread finds under a number is what another adds there, whichever is first.
fn found_by_another<R: Threads + Sync>(rt: &R, alloc: Global, thing: u64) -> Option<u64>
    ensures { IfSome result (λ found. found ≡ thing) }
{
    let clerk: Clerk<u64> = Clerk::new(alloc, 1).ok()?;
    let directory = clerk.directory().share().ok()?;
    let (added, found) = join(
        rt,
        move || -> Option<Claim<u64>>
            ensures of { IfSome result (λ c. IsOf clerk.rows c) }
            ensures number { IfSome result (λ c. c.number ≡ clerk.given) }
            ensures thing { IfSome result (λ c. c.thing ≡ thing) }
        { add_as(clerk, thing) },
        || -> Option<Claim<u64>>
            ensures { IfSome result (λ c. IsOf directory c × (c.number ≡ 0)) }
        { claim_of(&directory, 0) },
    );
    let added = added?;
    let found = found.unwrap_or(added.again());
    directory.agree(&found, &added);
    Some(*directory.thing(&found))
}

// promise: directory.for-ever
#[test]
fn what_one_adds_another_finds(rt: HostRuntime) -> Result<(), Fail> {
    for thing in 0..64u64 {
        same(
            &rt,
            thing,
            found_by_another(&rt, rt.alloc(), thing),
            Some(thing),
        );
    }
    Ok(())
}

// Adds so many things, each of which is its own number.
fn add_all<R: Abort + AllocGlobal>(rt: &R, clerk: &mut Clerk<Box<u64>>, count: u32) -> Option<()> {
    for number in 0..count {
        let thing = Box::new(rt.alloc(), number as u64).ok()?;
        let claim = clerk.add(thing).ok()?;
        same(rt, "the number", claim.number(), number);
    }
    Some(())
}

// Looks from the last number to the first. What is there is its own number's, and so is all below it. How many are
// there.
fn look(rt: &impl Abort, directory: &Directory<Box<u64>>, count: u32) -> u32 {
    let mut found = 0u32;
    for number in (0..count).rev() {
        let thing = directory.get(number).map(|found| **found.0);
        if thing.is_some() || found > 0 {
            same(rt, "the thing", thing, Some(number as u64));
            found = found.saturating_add(1);
        }
    }
    found
}

const MANY: u32 = 2_000;

// Looks until all are there.
fn look_on(rt: &impl Abort, directory: &Directory<Box<u64>>) -> bool {
    for _ in 0..1_000_000u64 {
        if look(rt, directory, MANY) == MANY {
            return true;
        }
    }
    false
}

// promise: directory.finds
#[test]
fn readers_find_what_is_added_in_order(rt: HostRuntime) -> Result<(), Fail> {
    let mut clerk: Clerk<Box<u64>> = Clerk::new(rt.alloc(), MANY)?;
    let one = clerk.directory().share()?;
    let other = clerk.directory().share()?;
    let rt = &rt;
    let (added, (first, second)) = join(
        rt,
        move || add_all(rt, &mut clerk, MANY).is_some(),
        move || join(rt, move || look_on(rt, &one), move || look_on(rt, &other)),
    );
    same(
        rt,
        "each thread",
        (added, first, second),
        (true, true, true),
    );
    Ok(())
}

// A directory of so many numbers is filled. Then it is full, and what isn't added comes back.
fn fill<R: Abort + AllocGlobal>(rt: &R, most: u32) -> Result<(), Fail> {
    let mut clerk: Clerk<Box<u64>> = Clerk::new(rt.alloc(), most)?;
    add_all(rt, &mut clerk, most).ok_or("memory")?;
    for _ in 0..2 {
        let refused = clerk.add(Box::new(rt.alloc(), 77)?).err();
        let told = refused.map(|refused| (refused.0, *refused.1));
        same(rt, "full", told, Some((AddError::Full { most }, 77)));
        same(rt, "given", clerk.given(), most);
    }
    let directory = clerk.directory();
    same(rt, "all", look(rt, directory, most), most);
    for beyond in [most, most.saturating_add(1), 1 << 31, MOST - 1, MOST] {
        same(rt, beyond, directory.get(beyond).is_none(), true);
    }
    Ok(())
}

// promise: directory.add-refused
#[test]
fn it_is_full_at_its_last_number(rt: HostRuntime) -> Result<(), Fail> {
    for most in [0, 1, 2, 3, 4, 7, 8, 15, 16, 31, 33, 100] {
        fill(&rt, most)?;
    }
    Ok(())
}

type Heap<'all> = RefusingHeap<&'all LocalHeap>;

// Where memory was refused.
#[derive(Clone, Copy, Debug, PartialEq, Eq)]
enum Refused {
    InNew,
    InAdd,
    Nowhere,
}

// Adds the things below `count`, each of which is its own number. One that is refused is added again: nothing changed.
fn add_over<A: Allocator + Clone>(
    rt: &impl Abort,
    clerk: &mut Clerk<u64, A>,
    count: u32,
) -> Refused {
    let mut refused = Refused::Nowhere;
    for number in 0..count {
        let thing = number as u64;
        if let Err(told) = clerk.add(thing) {
            same(rt, "refused", told, (AddError::NoMemory, thing));
            same(rt, "given", clerk.given(), number);
            same(rt, number, clerk.directory().get(number).is_none(), true);
            same(rt, "again", clerk.add(thing).is_ok(), true);
            refused = Refused::InAdd;
        }
    }
    for number in 0..count {
        let found = clerk.directory().get(number).map(|found| *found.0);
        same(rt, number, found, Some(number as u64));
    }
    refused
}

// A directory is made, and things are added.
fn make<A: Allocator + Clone + Drop>(rt: &impl Abort, heap: A) -> Refused {
    match Clerk::new(heap, 8) {
        Ok(mut clerk) => add_over(rt, &mut clerk, 8),
        Err(_) => Refused::InNew,
    }
}

// Where memory is refused past so many grants. None of it is in use then.
fn over(rt: &impl Abort, all: &LocalHeap, grants: u64) -> Refused {
    let heap = RefusingHeap::new(all, grants);
    let refused = make(rt, &heap);
    let has_refused = refused != Refused::Nowhere;
    same(rt, "refused", heap.has_refused(), has_refused);
    same(rt, "used", all.used(), 0);
    refused
}

// The rows and their counted cell are made at once, a row of places each time the numbers double.
// promise: directory.add-refused
#[test]
fn each_allocation_of_a_directory_is_refused(rt: HostRuntime) -> Result<(), Fail> {
    for grants in 0..9u64 {
        let all = LocalHeap::new(rt.alloc(), 1 << 14)?;
        let expected = match grants {
            0 | 1 => Refused::InNew,
            2..=5 => Refused::InAdd,
            _ => Refused::Nowhere,
        };
        same(&rt, grants, over(&rt, &all, grants), expected);
    }
    Ok(())
}
