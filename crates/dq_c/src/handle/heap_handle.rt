//! A box as its pointer and its allocator.
ghost use Rattle.std.specs.Prelude.{◌≡◌};
ghost use Rattle.std.specs.Box.Ownership.{box_owns};

use std::alloc::Allocator;
use std::marker::Model;

/// What a box owns, as a pointer and an allocator.
pub struct HeapHandle<T, A: Allocator> {
    pub(super) ptr: *mut T,
    pub(super) alloc: A,
    pub ghost value: { T },
}

impl<T, A: Allocator> Model for HeapHandle<T, A> {
    ghost also_owns = { λ h. box_owns (A.dealloc_token h.alloc) T.row h.ptr h.value };
}

impl<T, A: Allocator> HeapHandle<T, A> {
    /// The handle of what the box owns.
    pub fn of(boxed: Box<T, A>) -> HeapHandle<T, A>
    where
        T: Drop,
        ensures { result.value ≡ boxed.value }
    {
        let (ptr, alloc) = Box::into_raw_with_allocator(boxed);
        HeapHandle { ptr, alloc }
    }

    /// The box again.
    pub fn into_box(self) -> Box<T, A>
        ensures { result.value ≡ self.value }
    {
        let HeapHandle { ptr, alloc } = self;
        unsafe { Box::from_raw(alloc, ptr) }
    }
}
