//! Structures that hold themselves without a pointer between. The recursion goes as deep as the tree.
ghost use Rattle.std.specs.Prelude.{◌≡◌, false, true, unwrap_or};
ghost use Rattle.idl_forms.specs.Forms.{spec_form, kind_form, switch_form, attr_kind_form, attr_form, attrs_form, member_form, members_form, arm_form, arms_form};
ghost use Rattle.idl_outline.specs.Holding as held;

use idl_names::{any_by_value, is_name};
use idl_tree::{ArmNode, Attr, AttrKind, Ident, Member, Spec, SpecKind, Switch};

fn is_tag(own: &Option<Ident>, tag: &[u8]) -> bool
    ensures { result ≡ held.is_tag own.now tag.now }
{
    match own {
        None => false,
        Some(name) => is_name(name, tag),
    }
}

#[cycle(uses)]
fn spec_use(tag: &[u8], direct: bool, spec: &Spec) -> Option<bool>
    ensures { result ≡ held.spec_use tag.now direct (spec_form spec.now) }
{
    kind_use(tag, direct, &spec.what)
}

#[cycle(uses)]
#[tactic(auto, using(idl_forms::proofs::Layers::kinds))]
fn kind_use(tag: &[u8], direct: bool, kind: &SpecKind) -> Option<bool>
    ensures { result ≡ held.kind_use tag.now direct (kind_form kind.now) }
{
    match kind {
        SpecKind::Base(_) => None,
        SpecKind::Named(_) => None,
        SpecKind::Void => None,
        SpecKind::HandleT => None,
        SpecKind::ErrorStatus => None,
        SpecKind::Struct { tag: own, members } => match members {
            None => {
                if direct && is_tag(own, tag) {
                    Some(true)
                } else {
                    None
                }
            }
            Some(members) => {
                if is_tag(own, tag) {
                    Some(false)
                } else {
                    members_use(tag, direct, members)
                }
            }
        },
        SpecKind::Union { switch, arms, .. } => match switch {
            None => arms_use(tag, direct, arms),
            Some(switch) => match switch_use(tag, switch) {
                Some(found) => Some(found),
                None => arms_use(tag, direct, arms),
            },
        },
        SpecKind::Enum { .. } => None,
    }
}

#[cycle(uses)]
fn switch_use(tag: &[u8], switch: &Switch) -> Option<bool>
    ensures { result ≡ held.switch_use tag.now (switch_form switch.now) }
{
    spec_use(tag, false, &switch.spec)
}

#[cycle(uses)]
#[tactic(auto, using(idl_forms::proofs::Layers::marks))]
fn mark_use(tag: &[u8], kind: &AttrKind) -> Option<bool>
    ensures { result ≡ held.mark_use tag.now (attr_kind_form kind.now) }
{
    match kind {
        AttrKind::SwitchType(spec) => spec_use(tag, false, spec),
        _ => None,
    }
}

#[cycle(uses)]
fn attr_use(tag: &[u8], attr: &Attr) -> Option<bool>
    ensures { result ≡ held.attr_use tag.now (attr_form attr.now) }
{
    mark_use(tag, &attr.what)
}

#[cycle(uses)]
fn attrs_use(tag: &[u8], attrs: &[Attr]) -> Option<bool>
    ensures { result ≡ held.attrs_use tag.now (attrs_form attrs.now) }
{
    for attr in attrs {
        if let Some(found) = attr_use(tag, attr) {
            return Some(found);
        }
    }
    None
}

#[cycle(uses)]
fn member_use(tag: &[u8], direct: bool, member: &Member) -> Option<bool>
    ensures { result ≡ held.member_use tag.now direct (member_form member.now) }
{
    match attrs_use(tag, &member.attrs) {
        Some(found) => Some(found),
        None => spec_use(tag, direct && any_by_value(&member.dtors), &member.spec),
    }
}

#[cycle(uses)]
fn members_use(tag: &[u8], direct: bool, members: &[Member]) -> Option<bool>
    ensures { result ≡ held.members_use tag.now direct (members_form members.now) }
{
    for member in members {
        if let Some(found) = member_use(tag, direct, member) {
            return Some(found);
        }
    }
    None
}

#[cycle(uses)]
fn arm_use(tag: &[u8], direct: bool, arm: &ArmNode) -> Option<bool>
    ensures { result ≡ held.arm_use tag.now direct (arm_form arm.now) }
{
    match &arm.member {
        None => None,
        Some(member) => member_use(tag, direct, member),
    }
}

#[cycle(uses)]
fn arms_use(tag: &[u8], direct: bool, arms: &[ArmNode]) -> Option<bool>
    ensures { result ≡ held.arms_use tag.now direct (arms_form arms.now) }
{
    for arm in arms {
        if let Some(found) = arm_use(tag, direct, arm) {
            return Some(found);
        }
    }
    None
}

/// Whether a structure with that tag and these members holds itself without a pointer between. The
/// tag stands for it until another structure of that tag is declared within.
pub(crate) fn holds_itself(tag: &[u8], members: &[Member]) -> bool
    ensures { result ≡ unwrap_or (held.members_use tag.now true (members_form members.now)) false }
{
    members_use(tag, true, members).unwrap_or(false)
}
