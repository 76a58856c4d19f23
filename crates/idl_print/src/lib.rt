//! Printing the trees of interface texts (C706, "Interface Definition Language").
//!
//! The layout of interface texts: how tokens are printed, and what stands between them (C706,
//! "Interface Definition Language").
#![tactic(auto)]

mod attribute;
mod declaration;
mod laws;
mod layout_laws;
mod leaf;
mod list;
mod page;
mod print;
mod sorts;
mod tokens;
mod types;

pub use laws::{
    canonical_text_departs_nowhere, canonical_text_has_the_same_kinds,
    canonical_text_is_of_the_grammar, trees_of_the_canonical_text_spell_the_same,
};
pub use layout_laws::printed_text_has_the_same_kinds;
pub use page::Page;
pub use print::print_idl;
pub use sorts::Sort;
