//! What one spec declares: its attributes, its type and its declarators.

use crate::event::Labels;
use crate::ty::{DataType, TagType};
use idl_names::{Extent, Place};
use idl_tree::{Ident, Num, Pk};
use rpc_base::Items;

/// A name that stands as a size or a switch, and whether a star stands before it.
#[derive(Drop)]
pub struct NameRef {
    pub star: bool,
    pub name: Ident,
}

/// A size that an attribute gives.
#[derive(Drop)]
pub enum Size {
    Number(u64),
    Of(NameRef),
}

/// What an attribute says.
#[derive(Drop)]
pub enum Mark {
    In,
    Out,
    Pointer(Pk),
    /// The word `string`.
    Text,
    Idempotent,
    Maybe,
    /// One of the three words for context handles.
    Handle,
    SizeIs(Size),
    MaxIs(Size),
    LengthIs(Size),
    SwitchIs(NameRef),
    /// The octet where its spec begins, and the type.
    SwitchType { spec_at: usize, ty: TagType },
    /// The lowest and the highest number.
    Range(Num, Num),
}

/// An attribute, and the octet where it begins.
#[derive(Drop)]
pub struct Attribute {
    pub at: usize,
    pub mark: Mark,
}

/// The attributes of one list.
pub type Attributes = Items<Attribute>;

/// What a declarator declares.
#[derive(Drop)]
pub struct Declared {
    pub name: Ident,
    pub stars: usize,
    pub extent: Extent,
    /// The type of what it declares.
    pub ty: DataType,
}

/// Whether a spec is itself a union without a switch, and where its tag is, if it has one.
#[derive(Clone, Copy, PartialEq, Eq)]
pub enum Bare {
    No,
    Tagless,
    Tagged(usize),
}

/// What one spec declares.
#[derive(Drop)]
pub struct Field {
    pub place: Place,
    pub attributes: Attributes,
    /// The type of the spec.
    pub spec: DataType,
    pub bare: Bare,
    /// The labels of a union's arm.
    pub labels: Labels,
    pub declared: Items<Declared>,
}

/// The parameters of an operation, or what one body declares.
pub type Fields = Items<Field>;
