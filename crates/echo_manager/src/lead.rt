//! Pointers.

use ndr_value::{Shape, Value};

/// What a pointer leads to: a value of its own, or the item of the heap of that number.
#[derive(Clone, Copy)]
pub enum Lead<'a> {
    Value(&'a Shape, &'a Value),
    Item(&'a Shape, u32),
}
