//! The rules on interfaces that are about what stands where: attributes, sizes and handles (C706,
//! chapter "Interface Definition Language"). Each gives the least place where an event of the text
//! breaks it.
#![tactic(auto)]

mod arrays;
mod attributes;
mod facts;
mod handles;
mod meanings;
mod offers;
mod parameters;
mod sizes;

pub use attributes::{bad_attribute, bad_file};
pub use handles::handle_use;
pub use sizes::size_name;
