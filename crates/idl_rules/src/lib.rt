//! The rules that an interface text has to keep (C706, chapter "Interface Definition Language"), each
//! with the least place where an event of the text breaks it.
#![tactic(auto)]

mod again;
mod asked;
mod duplicates;
mod laws;
mod least;
mod numbers;
mod ranges;
mod recursions;
mod same;
mod unknown_names;

pub use again::{Again, Key, repeated};
pub use asked::{
    Asked, Saying, by_value, has, is_arm, is_asked, is_bare_union, is_char, is_context_handle,
    is_handle_t, is_listed, is_member, is_one_pointer, is_open_extent, is_open_layer,
    is_open_struct, is_operation, is_parameter, is_pointer_layer, is_ref, is_ref_layer, is_single,
    is_tag_core, is_typedef, is_unknown, is_void, says,
};
pub use duplicates::duplicate;
pub use laws::{same_trees_break_the_same_rules, same_trees_have_one_outline};
pub use least::{lesser, place_if};
pub use numbers::{int_holds, within};
pub use ranges::may_range;
pub use recursions::recursion;
pub use same::{is_uuid, value_of};
pub use unknown_names::unknown;
