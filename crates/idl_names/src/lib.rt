//! What names stand for at a place of an interface text, and what attributes and declarators say there
//! (C706, chapter "Interface Definition Language"). The rules on interfaces and the tables of
//! interfaces both read it.
#![tactic(auto)]

mod attributes;
mod declarators;
mod names;
mod place;
mod symbols;

pub use attributes::{
    Word, is_serialised, or_class, outer_class, pointer_default, pointer_given, says,
};
pub use declarators::{all_pointed, any_by_value, extent_of, label_number};
pub use names::{copy_name, is_name};
pub use place::{Extent, Place};
pub use symbols::{SymbolTable, Tag, declare, number_of};
