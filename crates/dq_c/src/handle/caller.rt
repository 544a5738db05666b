//! A seat on the heap, and the handle by which C holds it.
ghost use Rattle.std.specs.Prelude.{◌≡◌, Option, Some, None, IsSome, MatchOption, is_some};
ghost use Rattle.dq_c.specs.Owned.{heap_owns};
ghost use Rattle.dq_c.specs.contracts.handle.caller.Seat.{the_row as seat_row};
ghost use Rattle.dq_c.specs.declared.handle.caller.Seat.{Seat};

use crate::handle::heap_handle::HeapHandle;
use dq_words::Caller;
use std::alloc::Global;
use std::marker::Model;

/// The place of a caller. It is made before its caller is issued, so that an issue needs no memory.
#[derive(Drop)]
pub struct Seat {
    /// The number of the queue that issued it, which the keys carry that it is to be handed.
    pub shard: u32,
    /// The caller, once it is issued.
    pub caller: Option<Caller>,
}

/// A pointer to a seat on the heap, or nothing.
#[repr(C)]
#[derive(Drop)]
pub struct CallerPart {
    ptr: *mut u8,
    alloc: Global,
    pub ghost value: { Option Seat },
}

impl Model for CallerPart {
    ghost also_owns = { λ p. heap_owns seat_row p.alloc p.ptr p.value };
}

impl CallerPart {
    /// Nothing.
    pub fn empty(alloc: Global) -> CallerPart
        ensures { result.value ≡ None }
    {
        CallerPart {
            ptr: std::ptr::null_mut(),
            alloc,
        }
    }

    // What the handle owns.
    pub(super) fn of(handle: HeapHandle<Seat, Global>) -> CallerPart
        ensures { result.value ≡ Some handle.value }
    {
        let HeapHandle { ptr, alloc } = handle;
        CallerPart {
            ptr: ptr as *mut u8,
            alloc,
        }
    }

    // What it owns.
    pub(super) fn into_handle(self) -> HeapHandle<Seat, Global>
        requires { IsSome self.value }
        ensures { Some result.value ≡ self.value }
    {
        let CallerPart { ptr, alloc } = self;
        HeapHandle {
            ptr: ptr as *mut Seat,
            alloc,
        }
    }
}

impl CallerPart {
    ghost use Rattle.std.specs.Prelude.{◌≡◌, Some, IsSome};
    ghost use types.Logic.{sem};
    ghost use denote.Follow.{follows};
    ghost use Rattle.dq_c.specs.SeatLoan.{with_seat};
    ghost use Rattle.dq_c.specs.contracts.handle.caller.Seat.{the_row as seat_row};
    ghost use Rattle.dq_c.specs.contracts.handle.caller.CallerPart.{the_row as part_row};

    /// The seat that it owns.
    pub fn get_mut(&mut self) -> &mut Seat
        requires { IsSome self.old.value }
        ensures* writes_back { sem 𝓛 (follows part_row seat_row
            self.entry.ghost_name result.ghost_name (with_seat self.old)) }
        ensures value { Some result.now ≡ self.old.value }
    {
        unsafe { &mut *(self.ptr as *mut Seat) }
    }
}

// What it owns is a seat on the heap, and a seat may go to another thread.
unsafe impl Send for CallerPart {}

/// What C holds of a seat: a pointer, and whether there is a seat behind it. All zero, it holds none.
#[repr(C)]
pub struct CallerHandle {
    /// The pointer. Nobody but `handle` makes one, or lets one go: what it owns would be lost.
    pub part: CallerPart,
    held: bool,
    ghost known: { held ≡ is_some part.value },
}

impl CallerHandle {
    /// A handle that holds no seat.
    pub fn empty(alloc: Global) -> CallerHandle
        ensures { result.part.value ≡ None }
    {
        CallerHandle {
            part: CallerPart::empty(alloc),
            held: false,
        }
    }

    /// A handle that holds the seat.
    pub fn of(boxed: Box<Seat>) -> CallerHandle
        ensures { result.part.value ≡ Some boxed.value }
    {
        CallerHandle {
            part: CallerPart::of(HeapHandle::of(boxed)),
            held: true,
        }
    }

    /// Whether it holds a seat.
    pub fn is_held(&self) -> bool
        ensures { result ≡ is_some self.now.part.value }
    {
        self.held
    }

    /// The seat that it held, where it held one.
    pub fn into_box(self) -> Option<Box<Seat>>
        ensures { MatchOption result
            (self.part.value ≡ None) (λ b. self.part.value ≡ Some b.value) }
    {
        let CallerHandle { part, held } = self;
        if held {
            Some(part.into_handle().into_box())
        } else {
            None
        }
    }
}

impl Drop for CallerHandle {
    fn drop(self) {
        drop(self.into_box());
    }
}
