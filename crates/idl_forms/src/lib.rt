//! Forms of the trees of interface texts (C706, chapter "Interface Definition Language"): in what
//! two trees are the same, the law that a text has one tree, and copies of trees.
#![tactic(auto)]

mod copied_leaves;
mod copied_tree;
mod copied_types;
mod laws;

pub use copied_tree::copy_tree;
pub use laws::{
    text_has_one_tree, tokens_have_one_tree, tokens_of_the_same_kinds_have_alike_trees,
};
