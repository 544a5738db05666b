//! An allocator for tests, which refuses one allocation of the test's choosing. So each allocation of a call can be
//! refused in turn, also one that needs no more memory than was free before.

use std::alloc::{AllocError, Allocator};
use std::cell::Cell;

// How many allocations are granted before one is refused.
#[derive(Drop)]
struct Grants {
    /// `None` once an allocation was refused.
    left: Cell<Option<u64>>,
}

impl Grants {
    // Whether the next allocation is granted.
    fn grants(&self) -> bool {
        let left = self.left.get();
        self.left.set(left.and_then(|left| left.checked_sub(1)));
        left != Some(0)
    }
}

/// An allocator that passes each call on to another, but refuses one allocation, once.
#[derive(Drop)]
pub struct RefusingHeap<B: Allocator> {
    inner: B,
    grants: Grants,
}

impl<B: Allocator> RefusingHeap<B> {
    /// A heap that grants so many allocations, refuses the next, and grants all behind it.
    pub fn new(inner: B, grants: u64) -> RefusingHeap<B> {
        RefusingHeap {
            inner,
            grants: Grants {
                left: Cell::new(Some(grants)),
            },
        }
    }

    /// Whether an allocation was refused.
    pub fn has_refused(&self) -> bool {
        self.grants.left.get().is_none()
    }
}

unsafe impl<B: Allocator> Allocator for RefusingHeap<B> {
    ghost dealloc_token = { λ heap ty ptr. B.dealloc_token heap.inner ty ptr };

    fn allocate(&self, size: usize, align: usize) -> Result<*mut u8, AllocError> {
        if self.grants.grants() {
            self.inner.allocate(size, align)
        } else {
            Err(AllocError)
        }
    }

    unsafe fn deallocate(&self, ptr: *mut u8, size: usize, align: usize) {
        self.inner.deallocate(ptr, size, align);
    }
}
