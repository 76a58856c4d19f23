//! Trees of interface texts: what a text in the interface definition language (C706, chapter
//! "Interface Definition Language") says, as a tree, and the relation between texts and trees.
#![tactic(auto)]

mod declaration;
mod file;
mod leaf;
mod spec;

pub use declaration::{Ast, Decl, DeclKind, ParamNode};
pub use file::{FileAttr, FileAttrKind};
pub use leaf::{ArraySize, Base, Dtor, Ident, Num, Pk, SizeRef};
pub use spec::{ArmNode, Attr, AttrKind, Label, LabelKind, Member, Spec, SpecKind, Switch};
