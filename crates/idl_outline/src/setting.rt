//! How a spec stands in the text.

use crate::event::Tag;
use idl_tree::Pk;

/// What the text around a spec says of it.
#[derive(Clone, Copy, PartialEq, Eq)]
pub struct Setting {
    /// The class of pointers that have no other.
    pub default: Pk,
    /// Whether each of its declarators has a star.
    pub pointed: bool,
    /// Whether `void` may stand there.
    pub void_allowed: bool,
    /// The `switch_type` among its attributes.
    pub given: Tag,
}
