//! Shapes: what values of a type look like (C706, chapter "Transfer Syntax NDR").

use rpc_base::Items;

/// A list of shapes: the members of a structure, or the types that `Named` numbers.
pub type Shapes = Vec<Shape>;

/// The arms of a union.
pub type Arms = Vec<Arm>;

/// The tags that select an arm.
pub type Cases = Items<i64>;

/// What the values of a type look like.
#[derive(Debug, Drop)]
#[cycle(shape)]
pub enum Shape {
    Bool,
    Byte,
    Char,
    /// A signed number of 1, 2, 4 or 8 octets.
    Int(u8),
    /// An unsigned number of 1, 2, 4 or 8 octets.
    Uint(u8),
    /// The names of an enumeration, by their count.
    Enum(u16),
    /// A number in a list of types, and where it is a union whose tag stands outside it, what names the tag.
    Named(usize, Option<Count>),
    Struct(Shapes),
    Union { tag: Box<Shape>, arms: Arms },
    Array(ArrayKind, Box<Shape>),
    /// A text, at most that many octets with its NUL where its array has a fixed size.
    Text(Option<u32>),
    Ref(Box<Shape>),
    Unique(Box<Shape>),
    Full(Box<Shape>),
    /// A context handle of that kind.
    Handle(u16),
}

/// An arm of a union.
#[derive(Debug, Drop)]
#[cycle(shape)]
pub struct Arm {
    pub cases: Cases,
    pub default: bool,
    /// None: the arm is empty.
    pub shape: Option<Shape>,
}

/// How many elements an array has.
#[derive(Clone, Copy, Debug, PartialEq, Eq)]
pub enum ArrayKind {
    Fixed(u32),
    /// At most that many, and as many travel as the count says.
    Varying(u32, Count),
    Conformant(Count),
    /// The maximum, and how many travel.
    ConformantVarying(Count, Count),
}

/// What names a count or a tag.
#[derive(Clone, Copy, Debug, PartialEq, Eq)]
pub enum Count {
    Number(u32),
    /// A parameter's value plus `plus`, or what it points to.
    Param { index: u8, through: bool, plus: u8 },
    /// The value of a member of the same body plus `plus`.
    Member { index: u8, plus: u8 },
}
