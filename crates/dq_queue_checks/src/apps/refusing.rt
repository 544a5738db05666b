//! A walk is made again and again, and each of its allocations is refused in turn.

use super::same;
use dq_testing::RefusingHeap;
use linked_list_allocator::LocalHeap;
use std::alloc::Global;
use std::process::Abort;
use std::test::Fail;

/// A heap that refuses one allocation.
pub type Heap<'all> = RefusingHeap<&'all LocalHeap>;

/// Where each allocation of a walk was refused, in their order. The walk answers the place, none where it met no
/// refusal. It always gives back what it took.
pub fn each_refused<P, F>(rt: &impl Abort, alloc: Global, walk: F) -> Result<Vec<P>, Fail>
where
    P: Copy,
    F: Fn(&Heap) -> Option<P> + Drop,
    requires { F.IsAlwaysCallable walk }
{
    let mut places = Vec::new(alloc);
    for grants in 0..100u64 {
        let all = LocalHeap::new(alloc, 1 << 16)?;
        let heap = RefusingHeap::new(&all, grants);
        let place = walk(&heap);
        same(
            rt,
            grants,
            (all.used(), heap.has_refused()),
            (0, place.is_some()),
        );
        let Some(place) = place else {
            return Ok(places);
        };
        places.push(place)?;
    }
    Err(Fail::new("each walk was refused"))
}

/// How often a place is among these.
pub fn times<P: Copy + PartialEq>(places: &[P], place: P) -> usize {
    places.iter().filter(|other| **other == place).count()
}
