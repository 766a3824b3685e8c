//! What a caller in C holds: the address of a value on the heap, which owns it, or nothing.
ghost use Rattle.std.specs.{Prelude.{◌≡◌, None, Some, is_some, MatchOption, IsSomeAnd, Option, true}, Box.Ownership.{box_owns}};
ghost use Rattle.sefunjaro_c.specs.{declared.opened.Opened.{Opened}, Handles.{owned_at, opened_coded}, Heap.{token}};

use crate::opened::Opened;
use std::alloc::Global;
use std::marker::Model;
use std::mem::replace;

/// The address of a value on the heap, with the right to free it: a box without its allocator.
pub(crate) struct Unboxed<T> {
    pub(crate) address: *mut T,
    pub(crate) ghost value: { T },
}

impl<T> Model for Unboxed<T> {
    ghost also_owns = { λ unboxed. box_owns token T.row unboxed.address unboxed.value };
}

impl<T: Drop> Unboxed<T> {
    /// The value of a box, where it is.
    pub(crate) fn of(boxed: Box<T>) -> Unboxed<T>
        ensures { result.value ≡ boxed.value }
    {
        Unboxed {
            address: Box::into_raw(boxed),
        }
    }
}

/// What lies at a handle's pointer, of which C knows nothing.
#[repr(C)]
pub struct Hidden {
    _unread: u8,
}

/// An address that owns what was opened there, or nothing.
#[repr(C)]
pub struct Held {
    at: *mut Hidden,
    pub ghost opened: { Option Opened } by { opened_coded },
}

impl Model for Held {
    ghost also_owns = { λ held. owned_at held.at held.opened };
}

impl Held {
    /// Nothing is held.
    pub(crate) fn nothing() -> Held
        ensures { result.opened ≡ None }
    {
        Held {
            at: std::ptr::null_mut(),
        }
    }

    /// A value on the heap is held.
    pub(crate) fn keep(unboxed: Unboxed<Opened>) -> Held
        ensures { result.opened ≡ Some unboxed.value }
    {
        let Unboxed { address } = unboxed;
        Held {
            at: address as *mut Hidden,
        }
    }

    /// What was held, as it was.
    pub(crate) fn give_back(self, alloc: Global) -> Box<Opened>
        requires { is_some self.opened ≡ true }
        ensures { self.opened ≡ Some result.value }
    {
        let Held { at } = self;
        unsafe { Box::from_raw(alloc, at as *mut Opened) }
    }

    /// Lets go of an address that owns nothing.
    pub(crate) fn forget(self) {
        let Held { at: _ } = self;
    }
}

unsafe impl Send for Held {}

/// What a caller in C holds: what was opened through it, or nothing. C sees an address and whether the handle is open; a
/// handle of zeros is closed.
///
/// It can't be dropped: whoever has one takes its value out.
#[repr(C)]
pub struct Handle {
    /// What is held.
    pub held: Held,
    is_open: bool,
    ghost tells: { is_open ≡ is_some held.opened },
}

impl Handle {
    /// A handle that holds nothing.
    pub fn closed() -> Handle
        ensures { result.held.opened ≡ None }
    {
        Handle {
            held: Held::nothing(),
            is_open: false,
        }
    }

    /// A handle that holds a value.
    fn open(opened: Box<Opened>) -> Handle
        ensures { result.held.opened ≡ Some opened.value }
    {
        Handle {
            held: Held::keep(Unboxed::of(opened)),
            is_open: true,
        }
    }

    /// The value that the handle holds, if any.
    pub fn value(self, alloc: Global) -> Option<Box<Opened>>
        ensures { MatchOption self.held.opened (result ≡ None) (λ opened. IsSomeAnd result (λ value. value.value ≡ opened)) }
    {
        let Handle { held, is_open } = self;
        if is_open {
            Some(held.give_back(alloc))
        } else {
            held.forget();
            None
        }
    }

    /// Takes the value out, and leaves the handle closed.
    pub fn take(&mut self, alloc: Global) -> Option<Box<Opened>>
        ensures closed { self.new.held.opened ≡ None }
        ensures opened { MatchOption self.old.held.opened (result ≡ None) (λ opened. IsSomeAnd result (λ taken. taken.value ≡ opened)) }
    {
        replace(self, Handle::closed()).value(alloc)
    }

    /// Puts a value in. What the handle held before is closed.
    pub fn put(&mut self, alloc: Global, opened: Box<Opened>)
        ensures { self.new.held.opened ≡ Some opened.value }
    {
        drop(replace(self, Handle::open(opened)).value(alloc));
    }
}
