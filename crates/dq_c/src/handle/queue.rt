//! A queue on the heap, and the handle by which C holds it.
ghost use Rattle.std.specs.Prelude.{◌≡◌, Option, Some, None, IsSome, MatchOption, is_some};
ghost use Rattle.dq_c.specs.Owned.{heap_owns};
ghost use Rattle.dq_c.specs.contracts.handle.queue.Queue.{the_row as queue_row};
ghost use Rattle.dq_c.specs.declared.handle.queue.Queue.{Queue};

use crate::handle::heap_handle::HeapHandle;
use dq_core::DelayCore;
use dq_words::Keeper;
use std::alloc::Global;
use std::marker::Model;

/// A queue of 64-bit values over words that callers share.
#[derive(Drop)]
pub struct Queue {
    /// The queue.
    pub core: DelayCore<u64, Keeper>,
}

/// A pointer to a queue on the heap, or nothing.
#[repr(C)]
#[derive(Drop)]
pub struct QueuePart {
    ptr: *mut u8,
    alloc: Global,
    pub ghost value: { Option Queue },
}

impl Model for QueuePart {
    ghost also_owns = { λ p. heap_owns queue_row p.alloc p.ptr p.value };
}

impl QueuePart {
    /// Nothing.
    pub fn empty(alloc: Global) -> QueuePart
        ensures { result.value ≡ None }
    {
        QueuePart {
            ptr: std::ptr::null_mut(),
            alloc,
        }
    }

    // What the handle owns.
    pub(super) fn of(handle: HeapHandle<Queue, Global>) -> QueuePart
        ensures { result.value ≡ Some handle.value }
    {
        let HeapHandle { ptr, alloc } = handle;
        QueuePart {
            ptr: ptr as *mut u8,
            alloc,
        }
    }

    // What it owns.
    pub(super) fn into_handle(self) -> HeapHandle<Queue, Global>
        requires { IsSome self.value }
        ensures { Some result.value ≡ self.value }
    {
        let QueuePart { ptr, alloc } = self;
        HeapHandle {
            ptr: ptr as *mut Queue,
            alloc,
        }
    }
}

impl QueuePart {
    ghost use Rattle.std.specs.Prelude.{◌≡◌, Some, IsSome};
    ghost use types.Logic.{sem};
    ghost use denote.Follow.{follows};
    ghost use Rattle.dq_c.specs.QueueLoan.{with_queue};
    ghost use Rattle.dq_c.specs.contracts.handle.queue.Queue.{the_row as queue_row};
    ghost use Rattle.dq_c.specs.contracts.handle.queue.QueuePart.{the_row as part_row};

    /// The queue that it owns.
    pub fn get_mut(&mut self) -> &mut Queue
        requires { IsSome self.old.value }
        ensures* writes_back { sem 𝓛 (follows part_row queue_row
            self.entry.ghost_name result.ghost_name (with_queue self.old)) }
        ensures value { Some result.now ≡ self.old.value }
    {
        unsafe { &mut *(self.ptr as *mut Queue) }
    }
}

// What it owns is a queue on the heap, and a queue may go to another thread.
unsafe impl Send for QueuePart {}

/// What C holds of a queue: a pointer, and whether there is a queue behind it. All zero, it holds none.
#[repr(C)]
pub struct QueueHandle {
    /// The pointer. Nobody but `handle` makes one, or lets one go: what it owns would be lost.
    pub part: QueuePart,
    held: bool,
    ghost known: { held ≡ is_some part.value },
}

impl QueueHandle {
    /// A handle that holds no queue.
    pub fn empty(alloc: Global) -> QueueHandle
        ensures { result.part.value ≡ None }
    {
        QueueHandle {
            part: QueuePart::empty(alloc),
            held: false,
        }
    }

    /// A handle that holds the queue.
    pub fn of(boxed: Box<Queue>) -> QueueHandle
        ensures { result.part.value ≡ Some boxed.value }
    {
        QueueHandle {
            part: QueuePart::of(HeapHandle::of(boxed)),
            held: true,
        }
    }

    /// Whether it holds a queue.
    pub fn is_held(&self) -> bool
        ensures { result ≡ is_some self.now.part.value }
    {
        self.held
    }

    /// The queue that it held, where it held one.
    pub fn into_box(self) -> Option<Box<Queue>>
        ensures { MatchOption result
            (self.part.value ≡ None) (λ b. self.part.value ≡ Some b.value) }
    {
        let QueueHandle { part, held } = self;
        if held {
            Some(part.into_handle().into_box())
        } else {
            None
        }
    }
}

impl Drop for QueueHandle {
    fn drop(self) {
        drop(self.into_box());
    }
}
