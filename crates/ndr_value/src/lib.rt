//! Shapes and values of NDR, which values are of a shape, and marshalling tables: an interface as lists, in the form
//! that decoding and encoding go by (C706, chapter "Transfer Syntax NDR"). Counts and switches refer by index, so that
//! nothing is looked up by name while a call is marshalled.
#![tactic(auto)]

mod copy;
mod parts;
mod reach;
mod shape;
mod value;
mod well;

pub use copy::{copy_shape, copy_shapes};
pub use parts::{selected_arm, tag_fits};
pub use shape::{Arm, Arms, ArrayKind, Cases, Count, Shape, Shapes};
pub use value::{Message, Value, Values, Wires};
pub use well::well_typed;
