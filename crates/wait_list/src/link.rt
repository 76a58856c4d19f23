//! The part of a node that stands in one list, and types for who owns it.
ghost use Rattle.std.specs.Prelude.{◌≡◌, ⊤};
ghost use denote.RawPtr.{Ptr};
ghost use Rattle.wait_list.specs.Ownership.{room_owns, loose_owns};

use std::alloc::AllocError;
use std::marker::{Model, Send, Sync};

/// Two link words, to the neighbours, and what the link carries.
pub struct Link<T> {
    pub(crate) prev: *mut Link<T>,
    pub(crate) next: *mut Link<T>,
    pub(crate) val: T,
}

/// The address of a link. It owns nothing, so it may be copied.
pub struct LinkPlace {
    pub(crate) ptr: *mut u8,
}

impl Clone for LinkPlace {
    ghost is_clone = { λ x y. y ≡ x };

    ghost is_infallible = { λ _. ⊤ };

    fn clone(&self) -> Result<LinkPlace, AllocError> {
        Ok(*self)
    }
}

impl Copy for LinkPlace {}

unsafe impl Send for LinkPlace {}

unsafe impl Sync for LinkPlace {}

/// Owns the memory of a link that carries nothing yet.
pub struct LinkRoom<T> {
    pub(crate) ptr: *mut Link<T>,
}

impl<T> Model for LinkRoom<T> {
    ghost also_owns = { λ r. room_owns T.row r.ptr };
}

unsafe impl<T: Send> Send for LinkRoom<T> {}

/// Owns a link that carries a value, and that is linked into no ring.
pub struct LooseLink<T> {
    pub(crate) ptr: *mut Link<T>,
    ghost val: { T },
}

impl<T> Model for LooseLink<T> {
    ghost also_owns = { λ h. loose_owns T.row h.ptr h.val };
}

impl<T> LinkRoom<T> {
    /// Gives the link what it is to carry.
    pub(crate) fn fill(self, val: T) -> LooseLink<T>
        ensures { (result.ptr ≡ self.ptr) × (result.val ≡ val) }
    {
        let LinkRoom { ptr } = self;
        unsafe {
            (&raw mut (*ptr).val).write(val);
        }
        LooseLink { ptr }
    }
}

impl<T> LooseLink<T> {
    /// What the link carried, and its memory.
    pub(crate) fn take(self) -> (T, LinkRoom<T>)
        ensures { (result.0 ≡ self.val) × (result.1.ptr ≡ self.ptr) }
    {
        let LooseLink { ptr } = self;
        let val = unsafe { (&raw const (*ptr).val).read() };
        (val, LinkRoom { ptr })
    }
}
