//! The events of an interface's text.

use crate::field::{Field, Fields};
use crate::ty::{DataType, TagType};
use idl_tree::{Base, Ident, Num};
use rpc_base::Items;

/// What gives a union its tag.
#[derive(Clone, Copy, PartialEq, Eq)]
pub enum Tag {
    /// The union's own switch: the octet where the tag's name stands, and the tag's type.
    Switch { at: usize, ty: TagType },
    /// A `switch_type`: the octet where its spec begins, and that type.
    Given { at: usize, ty: TagType },
    Missing,
}

/// A label of a union's arm.
#[derive(Clone, Copy, PartialEq, Eq)]
pub enum Label {
    /// The octet where the case's value stands, and that value; None where it is a name that isn't
    /// declared.
    Case { at: usize, value: Option<Num> },
    /// The octet of the word.
    Default(usize),
}

/// The labels of a union, in order.
pub type Labels = Items<Label>;

/// What happens at a place of an interface's text.
#[derive(Drop)]
pub enum Event {
    /// A typedef's declarator declares the name of a type.
    Typedef {
        name: Ident,
        ty: DataType,
    },
    /// A constant is declared.
    Constant {
        base: Base,
        name: Ident,
        value: Num,
    },
    /// An enumeration declares a name, which stands for a number.
    EnumName {
        name: Ident,
        value: Num,
    },
    /// An operation is declared.
    Operation(Ident),
    /// The tag of a structure is declared, whose body begins. Whether the structure holds itself
    /// without a pointer between, and its number among the bodies.
    StructBegins {
        tag: Ident,
        holds_itself: bool,
        number: usize,
    },
    /// That structure's body has ended. Whether a conformant array ends it, and its number.
    StructEnds {
        tag: Ident,
        open: bool,
        number: usize,
    },
    /// The tag of a union or enumeration is declared.
    OtherTag(Ident),
    /// A name is used as a type.
    TypeUsed(Ident),
    /// A name is used as a structure's tag, and whether it stands behind a pointer.
    TagUsed {
        tag: Ident,
        pointed: bool,
    },
    /// A name is used as a constant.
    ConstantUsed(Ident),
    /// The type `void` is used where it is neither an operation's result nor a context handle's.
    VoidUsed(usize),
    /// A union has this tag and these labels.
    Union {
        tag: Tag,
        labels: Labels,
    },
    /// The body of a structure, or the arms of a union, one field for each arm. What gives a union its
    /// tag; a structure has none.
    Body {
        tag: Option<Tag>,
        fields: Fields,
    },
    /// A typedef, a declaration without a declarator, or the spec of a union's switch.
    Single(Field),
    /// An operation with its parameters; its result and attributes stand in a field of their own.
    Call {
        result: Field,
        parameters: Fields,
    },
}

/// The events of an interface, in the order of its text.
pub type Events = Items<Event>;
