//! From the tree of an interface text to its outline (C706, chapter "Interface Definition Language"):
//! one walk over the tree, in the order of the text.
#![tactic(auto)]

mod declarations;
mod holding;
mod specs;
mod used;
mod within;

pub use declarations::outline;
