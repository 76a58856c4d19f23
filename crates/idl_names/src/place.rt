//! Where declarators stand, and what their brackets say.

use idl_tree::Num;

/// Where a spec and its declarators stand.
#[derive(Clone, Copy, PartialEq, Eq)]
pub enum Place {
    Typedef,
    /// A declaration without a declarator, or the spec of a union's switch.
    Alone,
    /// The result of an operation, whose name is the declarator.
    Operation,
    Parameter,
    Member,
    Arm,
}

/// Whether a declarator is an array, and of what size.
#[derive(Clone, Copy, PartialEq, Eq)]
pub enum Extent {
    Single,
    /// `[]` or `[*]`.
    Open,
    /// The size; None where it is a name that isn't declared.
    Fixed(Option<Num>),
}
