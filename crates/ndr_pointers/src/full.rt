//! Full pointers that were met.

use ndr_value::Shape;

/// An id, and the shape behind it.
#[derive(Drop)]
pub(crate) struct FullPointer<'a> {
    pub(crate) id: u32,
    pub(crate) shape: &'a Shape,
}
