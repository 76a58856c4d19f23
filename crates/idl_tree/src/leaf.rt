//! The parts of a tree that hold no others of their kind.

use rpc_base::Octets;

/// A name.
#[derive(Debug, Drop)]
pub struct Ident {
    /// The octet where it begins.
    pub at: usize,
    pub text: Octets,
}

/// A number, with the sign before it.
#[derive(Clone, Copy, Debug, PartialEq, Eq)]
pub struct Num {
    /// The octet where it begins, with its minus.
    pub at: usize,
    pub minus: bool,
    pub value: u64,
}

/// A pointer class.
#[derive(Clone, Copy, Debug, PartialEq, Eq)]
pub enum Pk {
    Ref,
    Unique,
    Ptr,
}

/// A base type. The size of an `Int` is its number of octets.
#[derive(Clone, Copy, Debug, PartialEq, Eq)]
pub enum Base {
    Boolean,
    Byte,
    Char {
        unsigned: bool,
    },
    Int {
        unsigned: bool,
        size: u8,
        int_word: bool,
    },
}

/// What an attribute gives as a size.
#[derive(Debug, Drop)]
pub enum SizeRef {
    Named { star: bool, name: Ident },
    Number(Num),
}

/// What stands between the brackets of an array.
#[derive(Debug, Drop)]
pub enum ArraySize {
    Empty,
    Number(Num),
    Named(Ident),
    Star,
}

/// A declarator.
#[derive(Debug, Drop)]
pub struct Dtor {
    pub stars: usize,
    pub name: Ident,
    pub array: Option<ArraySize>,
}
