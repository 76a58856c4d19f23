//! Simple responses are of their operations, and identifiers and pointers suit their shapes: laws of
//! the definitions.
//!
//! Parts of tables that are written by hand.
//!
//! Parts of messages as values: structures, arrays, pointers, and identifiers.
#![tactic(auto)]

mod handles;
mod holders;
mod identifiers;
mod laws;
mod operations;
mod shapes;
mod typed;

pub use handles::{one_use, used};
pub use holders::{array, pointers, structure};
pub use identifiers::{syntax_value, uuid_value};
pub use laws::{
    handle_and_status_is_of, number_and_status_is_of, octets_read_is_of, pointers_suit,
    syntax_suits, uuid_suits,
};
pub use operations::{both_ways, inward, number_out, operation, outward, procedure};
pub use shapes::{array_of, behind, named, pointer_to, structure_of, syntax_shape, uuid_shape};
pub use typed::{note_octets, note_syntax, note_uuid};
