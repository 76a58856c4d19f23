//! Type specs and what they hold, which hold one another.

use crate::leaf::{Base, Dtor, Ident, Num, Pk, SizeRef};

/// A type spec.
#[derive(Debug, Drop)]
#[cycle(spec)]
pub struct Spec {
    /// The octet where it begins.
    pub at: usize,
    pub what: SpecKind,
}

/// The kinds of type spec.
#[derive(Debug, Drop)]
#[cycle(spec)]
pub enum SpecKind {
    Base(Base),
    Named(Ident),
    Void,
    HandleT,
    ErrorStatus,
    Struct {
        tag: Option<Ident>,
        members: Option<Vec<Member>>,
    },
    Union {
        tag: Option<Ident>,
        switch: Option<Switch>,
        arms: Vec<ArmNode>,
    },
    Enum {
        tag: Option<Ident>,
        names: Vec<Ident>,
    },
}

/// The members that one spec declares.
#[derive(Debug, Drop)]
#[cycle(spec)]
pub struct Member {
    pub attrs: Vec<Attr>,
    pub spec: Spec,
    pub dtors: Vec<Dtor>,
}

/// The switch of a union: the type and the name of its tag, and the name of its body.
#[derive(Debug, Drop)]
#[cycle(spec)]
pub struct Switch {
    pub spec: Box<Spec>,
    pub name: Ident,
    pub body: Option<Ident>,
}

/// An arm of a union.
#[derive(Debug, Drop)]
#[cycle(spec)]
pub struct ArmNode {
    pub labels: Vec<Label>,
    pub member: Option<Member>,
}

/// A label of an arm.
#[derive(Debug, Drop)]
pub struct Label {
    /// The octet where it begins.
    pub at: usize,
    pub what: LabelKind,
}

/// The kinds of label.
#[derive(Debug, Drop)]
pub enum LabelKind {
    Number(Num),
    Named(Ident),
    Default,
}

/// An attribute of a declaration, parameter, member or arm.
#[derive(Debug, Drop)]
#[cycle(spec)]
pub struct Attr {
    /// The octet where it begins.
    pub at: usize,
    pub what: AttrKind,
}

/// The kinds of attribute.
#[derive(Debug, Drop)]
#[cycle(spec)]
pub enum AttrKind {
    In,
    Out,
    Pointer(Pk),
    /// The word `string`.
    Text,
    Idempotent,
    Maybe,
    Handle,
    HandleSerialize,
    HandleNoserialize,
    SizeIs(SizeRef),
    MaxIs(SizeRef),
    LengthIs(SizeRef),
    SwitchIs { star: bool, name: Ident },
    SwitchType(Box<Spec>),
    /// The lowest and the highest number that a parameter may be (MIDL's `range`).
    Range(Num, Num),
}
