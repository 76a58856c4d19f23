//! What is written, and how far.

use ndr_agree::Call;
use ndr_value::{Shape, Value};
use rpc_base::Order;
use std::alloc::Global;

/// A message, and how it is written.
#[derive(Clone, Copy)]
pub(crate) struct Writer<'a> {
    pub(crate) alloc: Global,
    pub(crate) call: Call<'a>,
    pub(crate) order: Order,
}

/// A value: an item of an array of `Byte` values may stand as its octet alone.
#[derive(Clone, Copy)]
pub(crate) enum Pointed<'a> {
    Value(&'a Value),
    Byte(u8),
}

/// What a pointer points to, and the members beside the pointer.
#[derive(Clone, Copy)]
pub(crate) struct Pending<'a> {
    pub(crate) body: &'a [Value],
    pub(crate) shape: &'a Shape,
    pub(crate) what: Pointed<'a>,
}

/// The octets so far, how many ids were given to pointers, and those of the heap's items, by number.
#[derive(Drop)]
pub(crate) struct Out {
    pub(crate) octets: Vec<u8>,
    pub(crate) count: u32,
    pub(crate) items: Vec<u32>,
}

impl<'a> Writer<'a> {
    ghost use Rattle.std.specs.Prelude.{◌≡◌, slice_get, MatchOption, Some, None};
    ghost use Rattle.ndr_value.specs.Forms.{form};
    ghost use Rattle.ndr_agree.specs.Views.{types_in};

    // What a name stands for.
    pub(crate) fn named(&self, number: usize) -> Option<&'a Shape>
        ensures { MatchOption result (slice_get (types_in self.now.call) number ≡ None) (λ s. slice_get (types_in self.now.call) number ≡ Some (form s.now)) }
    {
        self.call.table.types().get(number)
    }
}
