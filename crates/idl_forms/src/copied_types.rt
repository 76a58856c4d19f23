//! Copies of type specs and what they hold, which hold one another. The recursion goes as deep as
//! the tree.
ghost use Rattle.std.specs.Prelude.{◌≡◌, map, IfOk};
ghost use Rattle.idl_forms.specs.Forms.{spec_form, kind_form, member_form, switch_form, arm_form, attr_form, attr_kind_form, if_there, struct_form, union_form, OfEnum, OfSwitchType};

use crate::copied_leaves::{dtors, ident, ident_or_none, idents, labels, size_ref};
use idl_tree::{ArmNode, Attr, AttrKind, Ident, Member, Spec, SpecKind, Switch};
use rpc_base::NoMemory;
use std::alloc::Global;

/// # Errors
///
/// `NoMemory` where there is no memory for it.
#[cycle(copy)]
pub fn spec_copied(spec: &Spec, alloc: Global) -> Result<Spec, NoMemory>
    ensures { IfOk result (λ copy. spec_form copy ≡ spec_form spec.now) }
{
    let what = kind_copied(&spec.what, alloc)?;
    Ok(Spec { at: spec.at, what })
}

#[cycle(copy)]
#[tactic(auto, using(crate::proofs::Layers::kinds))]
fn kind_copied(kind: &SpecKind, alloc: Global) -> Result<SpecKind, NoMemory>
    ensures { IfOk result (λ copy. kind_form copy ≡ kind_form kind.now) }
{
    match kind {
        SpecKind::Base(base) => Ok(SpecKind::Base(*base)),
        SpecKind::Named(name) => Ok(SpecKind::Named(ident(name, alloc)?)),
        SpecKind::Void => Ok(SpecKind::Void),
        SpecKind::HandleT => Ok(SpecKind::HandleT),
        SpecKind::ErrorStatus => Ok(SpecKind::ErrorStatus),
        SpecKind::Struct { tag, members } => {
            let tag = ident_or_none(tag, alloc)?;
            match members {
                None => Ok(struct_of(tag, None)),
                Some(list) => Ok(struct_of(tag, Some(members_copied(list, alloc)?))),
            }
        }
        SpecKind::Union { tag, switch, arms } => {
            let tag = ident_or_none(tag, alloc)?;
            match switch {
                None => Ok(union_of(tag, None, arms_copied(arms, alloc)?)),
                Some(switch) => {
                    let switch = switch_copied(switch, alloc)?;
                    Ok(union_of(tag, Some(switch), arms_copied(arms, alloc)?))
                }
            }
        }
        SpecKind::Enum { tag, names } => {
            let tag = ident_or_none(tag, alloc)?;
            let names = idents(names, alloc)?;
            Ok(enum_of(tag, names))
        }
    }
}

// A structure of that tag and these members.
fn struct_of(tag: Option<Ident>, members: Option<Vec<Member>>) -> SpecKind
    ensures { kind_form result ≡ struct_form tag (if_there (λ ms. map member_form ms.items) members) }
{
    SpecKind::Struct { tag, members }
}

// A union of that tag, that switch and these arms.
fn union_of(tag: Option<Ident>, switch: Option<Switch>, arms: Vec<ArmNode>) -> SpecKind
    ensures { kind_form result ≡ union_form tag (if_there switch_form switch) (map arm_form arms.items) }
{
    SpecKind::Union { tag, switch, arms }
}

// An enumeration of that tag and these names.
fn enum_of(tag: Option<Ident>, names: Vec<Ident>) -> SpecKind
    ensures { kind_form result ≡ OfEnum tag names.items }
{
    SpecKind::Enum { tag, names }
}

#[cycle(copy)]
fn members_copied(list: &[Member], alloc: Global) -> Result<Vec<Member>, NoMemory>
    ensures { IfOk result (λ copy. map member_form copy.items ≡ map member_form list.now) }
{
    let mut copies = Vec::new(alloc);
    for item in list {
        copies.push(member_copied(item, alloc)?)?;
    }
    Ok(copies)
}

#[cycle(copy)]
#[tactic(auto, using(crate::proofs::Made::made))]
fn member_copied(member: &Member, alloc: Global) -> Result<Member, NoMemory>
    ensures { IfOk result (λ copy. member_form copy ≡ member_form member.now) }
{
    let attrs = attrs_copied(&member.attrs, alloc)?;
    let spec = spec_copied(&member.spec, alloc)?;
    let dtors = dtors(&member.dtors, alloc)?;
    Ok(Member { attrs, spec, dtors })
}

#[cycle(copy)]
#[tactic(auto, using(crate::proofs::Made::made))]
fn switch_copied(switch: &Switch, alloc: Global) -> Result<Switch, NoMemory>
    ensures { IfOk result (λ copy. switch_form copy ≡ switch_form switch.now) }
{
    let spec = Box::new(alloc, spec_copied(&switch.spec, alloc)?)?;
    let name = ident(&switch.name, alloc)?;
    let body = ident_or_none(&switch.body, alloc)?;
    Ok(Switch { spec, name, body })
}

#[cycle(copy)]
fn arms_copied(list: &[ArmNode], alloc: Global) -> Result<Vec<ArmNode>, NoMemory>
    ensures { IfOk result (λ copy. map arm_form copy.items ≡ map arm_form list.now) }
{
    let mut copies = Vec::new(alloc);
    for item in list {
        copies.push(arm_copied(item, alloc)?)?;
    }
    Ok(copies)
}

#[cycle(copy)]
#[tactic(auto, using(crate::proofs::Made::made))]
fn arm_copied(arm: &ArmNode, alloc: Global) -> Result<ArmNode, NoMemory>
    ensures { IfOk result (λ copy. arm_form copy ≡ arm_form arm.now) }
{
    let labels = labels(&arm.labels, alloc)?;
    let member = match &arm.member {
        None => None,
        Some(member) => Some(member_copied(member, alloc)?),
    };
    Ok(ArmNode { labels, member })
}

/// # Errors
///
/// `NoMemory` where there is no memory for it.
#[cycle(copy)]
pub fn attrs_copied(list: &[Attr], alloc: Global) -> Result<Vec<Attr>, NoMemory>
    ensures { IfOk result (λ copy. map attr_form copy.items ≡ map attr_form list.now) }
{
    let mut copies = Vec::new(alloc);
    for item in list {
        copies.push(attr_copied(item, alloc)?)?;
    }
    Ok(copies)
}

#[cycle(copy)]
fn attr_copied(attr: &Attr, alloc: Global) -> Result<Attr, NoMemory>
    ensures { IfOk result (λ copy. attr_form copy ≡ attr_form attr.now) }
{
    let what = attr_kind_copied(&attr.what, alloc)?;
    Ok(Attr { at: attr.at, what })
}

#[cycle(copy)]
fn attr_kind_copied(kind: &AttrKind, alloc: Global) -> Result<AttrKind, NoMemory>
    ensures { IfOk result (λ copy. attr_kind_form copy ≡ attr_kind_form kind.now) }
{
    match kind {
        AttrKind::In => Ok(AttrKind::In),
        AttrKind::Out => Ok(AttrKind::Out),
        AttrKind::Pointer(class) => Ok(AttrKind::Pointer(*class)),
        AttrKind::Text => Ok(AttrKind::Text),
        AttrKind::Idempotent => Ok(AttrKind::Idempotent),
        AttrKind::Maybe => Ok(AttrKind::Maybe),
        AttrKind::Handle => Ok(AttrKind::Handle),
        AttrKind::HandleSerialize => Ok(AttrKind::HandleSerialize),
        AttrKind::HandleNoserialize => Ok(AttrKind::HandleNoserialize),
        AttrKind::SizeIs(size) => Ok(AttrKind::SizeIs(size_ref(size, alloc)?)),
        AttrKind::MaxIs(size) => Ok(AttrKind::MaxIs(size_ref(size, alloc)?)),
        AttrKind::LengthIs(size) => Ok(AttrKind::LengthIs(size_ref(size, alloc)?)),
        AttrKind::SwitchIs { star, name } => Ok(AttrKind::SwitchIs {
            star: *star,
            name: ident(name, alloc)?,
        }),
        AttrKind::SwitchType(spec) => {
            let spec = Box::new(alloc, spec_copied(spec, alloc)?)?;
            Ok(switch_type_of(spec))
        }
        AttrKind::Range(low, high) => Ok(AttrKind::Range(*low, *high)),
    }
}

// The attribute `switch_type` of that spec.
fn switch_type_of(spec: Box<Spec>) -> AttrKind
    ensures { attr_kind_form result ≡ OfSwitchType (spec_form spec.value) }
{
    AttrKind::SwitchType(spec)
}
