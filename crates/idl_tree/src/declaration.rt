//! Declarations, and the tree of a whole text.

use crate::file::FileAttr;
use crate::leaf::{Base, Dtor, Ident, Num};
use crate::spec::{Attr, Spec};

/// The tree of an interface text.
#[derive(Debug, Drop)]
pub struct Ast {
    pub attributes: Vec<FileAttr>,
    pub name: Ident,
    pub decls: Vec<Decl>,
}

/// A declaration.
#[derive(Debug, Drop)]
pub struct Decl {
    /// The octet where it begins.
    pub at: usize,
    pub what: DeclKind,
}

/// The kinds of declaration.
#[derive(Debug, Drop)]
pub enum DeclKind {
    Const {
        base: Base,
        name: Ident,
        value: Num,
    },
    Typedef {
        attrs: Vec<Attr>,
        spec: Spec,
        dtors: Vec<Dtor>,
    },
    /// A structure, union or enum with a tag.
    Lone {
        attrs: Vec<Attr>,
        spec: Spec,
    },
    /// An operation. `void_word` says whether its empty list of parameters is written `void`.
    Op {
        attrs: Vec<Attr>,
        spec: Spec,
        name: Ident,
        void_word: bool,
        params: Vec<ParamNode>,
    },
}

/// A parameter of an operation.
#[derive(Debug, Drop)]
pub struct ParamNode {
    pub attrs: Vec<Attr>,
    pub spec: Spec,
    pub dtor: Dtor,
}
