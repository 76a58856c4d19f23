//! The outline of an interface: what its text declares and uses, in the order of the text, with the
//! type of each thing that it declares (C706, chapter "Interface Definition Language"). Every rule on
//! interfaces speaks of an outline.
#![tactic(auto)]

mod declarators;
mod event;
mod field;
mod known;
mod manner;
mod outline;
mod setting;
mod ty;
mod types;

pub use declarators::{
    empty_field, ends_open, field_with, setting_alone, setting_of, size, sizes_used, tag_given,
};
pub use event::{Event, Events, Label, Labels, Tag};
pub use field::{Attribute, Attributes, Bare, Declared, Field, Fields, Mark, NameRef, Size};
pub use idl_names::{Extent, Place};
pub use manner::{Manner, Structure};
pub use outline::Outline;
pub use setting::Setting;
pub use ty::{Core, DataType, Layer, TagType, Text};
pub use types::{MOST_LAYERS, bare, core_of, named_type, tagged_type};
