//! What attributes say of declarators, and what is known of structures.

use idl_tree::Pk;

/// What the attributes of one list say of the types that the declarators behind them declare.
#[derive(Clone, Copy, PartialEq, Eq)]
pub struct Manner {
    /// The class of pointers behind others.
    pub inner: Pk,
    /// The class of the outermost pointer of a declarator without an array.
    pub outer: Pk,
    /// The class of the outermost pointer in an array.
    pub element: Pk,
    /// Whether `string` is said.
    pub text: bool,
    /// Whether calls with a handle come one after another, where handles are declared.
    pub serialised: bool,
}

/// What is known of a structure: whether a conformant array ends it, and its number among the bodies of
/// structures and unions, in the order in which these end.
#[derive(Clone, Copy, Debug, PartialEq, Eq)]
pub struct Structure {
    pub ends_open: bool,
    pub number: usize,
}
