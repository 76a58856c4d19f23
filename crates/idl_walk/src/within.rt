//! How many structures and unions stand within a body. The recursion goes as deep as the tree.
ghost use Rattle.std.specs.Prelude.{◌≡◌, ◌+◌, IfOk};
ghost use Rattle.idl_forms.specs.Forms.{spec_form, kind_form, switch_form, attr_kind_form, attrs_form, member_form, members_form, arm_form, arms_form};
ghost use Rattle.idl_outline.specs.Within as spec;

use idl_tree::{ArmNode, Attr, AttrKind, Member, Spec, SpecKind, Switch};
use rpc_base::NoMemory;

/// The sum.
///
/// # Errors
///
/// `NoMemory` where it passes the greatest number of a count in memory.
pub(crate) fn add(a: usize, b: usize) -> Result<usize, NoMemory>
    ensures { IfOk result (λ sum. sum ≡ a + b) }
{
    match a.checked_add(b) {
        Some(sum) => Ok(sum),
        None => Err(NoMemory),
    }
}

/// How many structures and unions stand within the members of a structure.
///
/// # Errors
///
/// `NoMemory` where their number passes the greatest of a count in memory.
#[cycle(within)]
pub(crate) fn members_within(members: &[Member]) -> Result<usize, NoMemory>
    ensures { IfOk result (λ n. n ≡ spec.members_within (members_form members.now)) }
{
    let mut all = 0;
    for member in members {
        all = add(all, member_within(member)?)?;
    }
    Ok(all)
}

#[cycle(within)]
fn member_within(member: &Member) -> Result<usize, NoMemory>
    ensures { IfOk result (λ n. n ≡ spec.member_within (member_form member.now)) }
{
    let attrs = attrs_within(&member.attrs)?;
    let inner = spec_within(&member.spec)?;
    add(attrs, inner)
}

#[cycle(within)]
fn attrs_within(attrs: &[Attr]) -> Result<usize, NoMemory>
    ensures { IfOk result (λ n. n ≡ spec.attrs_within (attrs_form attrs.now)) }
{
    let mut all = 0;
    for attr in attrs {
        all = add(all, mark_within(&attr.what)?)?;
    }
    Ok(all)
}

#[cycle(within)]
#[tactic(auto, using(idl_forms::proofs::Layers::marks))]
fn mark_within(kind: &AttrKind) -> Result<usize, NoMemory>
    ensures { IfOk result (λ n. n ≡ spec.mark_within (attr_kind_form kind.now)) }
{
    match kind {
        AttrKind::SwitchType(of) => spec_within(of),
        _ => Ok(0),
    }
}

#[cycle(within)]
fn spec_within(of: &Spec) -> Result<usize, NoMemory>
    ensures { IfOk result (λ n. n ≡ spec.within (spec_form of.now)) }
{
    kind_within(&of.what)
}

#[cycle(within)]
fn kind_within(kind: &SpecKind) -> Result<usize, NoMemory>
    ensures { IfOk result (λ n. n ≡ spec.kind_within (kind_form kind.now)) }
{
    match kind {
        SpecKind::Base(_) => Ok(0),
        SpecKind::Named(_) => Ok(0),
        SpecKind::Void => Ok(0),
        SpecKind::HandleT => Ok(0),
        SpecKind::ErrorStatus => Ok(0),
        SpecKind::Struct { tag: _, members } => match members {
            None => Ok(0),
            Some(list) => struct_within(list),
        },
        SpecKind::Union {
            tag: _,
            switch,
            arms,
        } => match switch {
            None => bare_within(arms),
            Some(by) => {
                let tag = switch_within(by)?;
                let inner = bare_within(arms)?;
                add(tag, inner)
            }
        },
        SpecKind::Enum { .. } => Ok(0),
    }
}

// A structure, and what stands within it.
#[cycle(within)]
fn struct_within(members: &[Member]) -> Result<usize, NoMemory>
    ensures { IfOk result (λ n. n ≡ spec.members_within (members_form members.now) + 1) }
{
    let inner = members_within(members)?;
    add(inner, 1)
}

// A union, and what stands within its arms.
#[cycle(within)]
fn bare_within(arms: &[ArmNode]) -> Result<usize, NoMemory>
    ensures { IfOk result (λ n. n ≡ spec.arms_within (arms_form arms.now) + 1) }
{
    let inner = arms_within(arms)?;
    add(inner, 1)
}

#[cycle(within)]
fn switch_within(switch: &Switch) -> Result<usize, NoMemory>
    ensures { IfOk result (λ n. n ≡ spec.switch_within (switch_form switch.now)) }
{
    spec_within(&switch.spec)
}

#[cycle(within)]
fn arms_within(arms: &[ArmNode]) -> Result<usize, NoMemory>
    ensures { IfOk result (λ n. n ≡ spec.arms_within (arms_form arms.now)) }
{
    let mut all = 0;
    for arm in arms {
        all = add(all, arm_within(arm)?)?;
    }
    Ok(all)
}

#[cycle(within)]
fn arm_within(arm: &ArmNode) -> Result<usize, NoMemory>
    ensures { IfOk result (λ n. n ≡ spec.arm_within (arm_form arm.now)) }
{
    match &arm.member {
        None => Ok(0),
        Some(member) => member_within(member),
    }
}
