//! Type specs and what they hold, which hold one another. The recursion goes as deep as the tree.
ghost use Rattle.std.specs.Prelude.{◌≡◌, [], ◌∷◌, ◌++◌, false, IfOk, OnOk};
ghost use Rattle.idl_outline.specs.declared.ty.Core.TheVariants as cores;
ghost use Rattle.idl_forms.specs.Forms.{spec_form, kind_form, member_form, members_form, switch_form, arm_form, arms_form, attr_kind_form, attr_form, attrs_form, OfStruct, OfUnion, no_switch, OfSwitchType};
ghost use Rattle.idl_names.specs.declared.place.Place.TheVariants as places;
ghost use Rattle.idl_outline.specs.Names as names;
ghost use Rattle.idl_outline.specs.Types as types;
ghost use Rattle.idl_outline.specs.Specs as walks;

use crate::used::{
    bare_spec, declared_field, enumeration, labels_read, labels_used, named, other_tag,
    structure_begins, structure_ends, tag_used, void,
};
use idl_names::{Place, copy_name};
use idl_outline::{
    Attribute, Attributes, Core, DataType, Event, Field, Fields, Labels, Mark, NameRef, Outline,
    Setting, Tag, bare, core_of, empty_field, field_with, setting_alone, setting_of, size,
    tag_given,
};
use idl_tree::{ArmNode, Attr, AttrKind, Ident, Member, Pk, Spec, SpecKind, Switch};
use rpc_base::NoMemory;
use std::alloc::Global;

/// Adds what a spec declares and uses, and gives its type.
#[cycle(walk)]
pub(crate) fn spec_walked(
    alloc: Global,
    setting: Setting,
    spec: &Spec,
    outline: &mut Outline,
) -> Result<DataType, NoMemory>
    ensures ty { IfOk result (λ t. t ≡ walks.spec_type setting (spec_form spec.now) outline.old) }
    ensures past { OnOk result (outline.new ≡ walks.spec_past setting (spec_form spec.now) outline.old) }
{
    kind_walked(alloc, setting, spec.at, &spec.what, outline)
}

#[cycle(walk)]
#[tactic(auto, using(idl_forms::proofs::Layers::kinds))]
fn kind_walked(
    alloc: Global,
    setting: Setting,
    at: usize,
    kind: &SpecKind,
    outline: &mut Outline,
) -> Result<DataType, NoMemory>
    ensures ty { IfOk result (λ t. t ≡ walks.kind_type setting at (kind_form kind.now) outline.old) }
    ensures past { OnOk result (outline.new ≡ walks.kind_past setting at (kind_form kind.now) outline.old) }
{
    match kind {
        SpecKind::Base(base) => Ok(bare(alloc, core_of(*base))),
        SpecKind::Named(name) => named(alloc, name, outline),
        SpecKind::Void => void(alloc, setting, at, outline),
        SpecKind::HandleT => Ok(bare(alloc, Core::HandleT)),
        SpecKind::ErrorStatus => Ok(bare(alloc, Core::ErrorStatus)),
        SpecKind::Struct { tag, members } => match members {
            None => tag_used(alloc, setting, tag, outline),
            Some(members) => Ok(structure(alloc, setting, tag, members, outline)?),
        },
        SpecKind::Union { tag, switch, arms } => match switch {
            None => bare_union(alloc, setting, tag, arms, outline),
            Some(switch) => {
                other_tag(alloc, tag, outline)?;
                let given = switch_walked(alloc, setting, switch, outline)?;
                union_body(alloc, setting.default, true, given, arms, outline)
            }
        },
        SpecKind::Enum { tag, names } => enumeration(alloc, tag, names, outline),
    }
}

#[cycle(walk)]
fn structure(
    alloc: Global,
    setting: Setting,
    tag: &Option<Ident>,
    members: &[Member],
    outline: &mut Outline,
) -> Result<DataType, NoMemory>
    ensures ty { IfOk result (λ t. t ≡ walks.kind_type setting 0 (OfStruct tag.now (members_form members.now)) outline.old) }
    ensures past { OnOk result (outline.new ≡ walks.kind_past setting 0 (OfStruct tag.now (members_form members.now)) outline.old) }
{
    structure_begins(alloc, tag, members, outline)?;
    let fields = members_walked(alloc, setting.default, members, outline)?;
    structure_ends(alloc, tag, fields, outline)
}

#[cycle(walk)]
fn bare_union(
    alloc: Global,
    setting: Setting,
    tag: &Option<Ident>,
    arms: &[ArmNode],
    outline: &mut Outline,
) -> Result<DataType, NoMemory>
    ensures ty { IfOk result (λ t. t ≡ walks.kind_type setting 0 (OfUnion tag.now no_switch (arms_form arms.now)) outline.old) }
    ensures past { OnOk result (outline.new ≡ walks.kind_past setting 0 (OfUnion tag.now no_switch (arms_form arms.now)) outline.old) }
{
    other_tag(alloc, tag, outline)?;
    union_body(alloc, setting.default, false, setting.given, arms, outline)
}

#[cycle(walk)]
fn switch_walked(
    alloc: Global,
    setting: Setting,
    switch: &Switch,
    outline: &mut Outline,
) -> Result<Tag, NoMemory>
    ensures tag { IfOk result (λ t. t ≡ walks.switch_tag setting (switch_form switch.now) outline.old) }
    ensures past { OnOk result (outline.new ≡ walks.switch_past setting (switch_form switch.now) outline.old) }
{
    let inner = setting_alone(setting.default);
    let spec: &Spec = &switch.spec;
    let ty = spec_walked(alloc, inner, spec, outline)?;
    let of_tag = ty.of_tag();
    let none = Attributes::new(alloc);
    let bare = bare_spec(spec);
    let field = field_with(
        alloc,
        outline,
        setting.default,
        Place::Alone,
        &[],
        none,
        ty,
        bare,
        &[],
    )?;
    outline.happen(Event::Single(field))?;
    Ok(Tag::Switch {
        at: switch.name.at,
        ty: of_tag,
    })
}

// The body of a union, and its type. `switched`: it has a switch.
#[cycle(walk)]
fn union_body(
    alloc: Global,
    default: Pk,
    switched: bool,
    tag: Tag,
    arms: &[ArmNode],
    outline: &mut Outline,
) -> Result<DataType, NoMemory>
    ensures ty { IfOk result (λ t. t ≡ types.bare (cores.Union switched (names.bodies (walks.arms_past default (arms_form arms.now) outline.old)))) }
    ensures past { OnOk result (outline.new ≡ walks.union_past default tag (arms_form arms.now) outline.old) }
{
    let mut fields = Fields::new(alloc);
    let mut labels = Labels::new(alloc);
    arms_walked(alloc, default, arms, &mut fields, &mut labels, outline)?;
    let number = outline.bodies();
    outline.happen(Event::Body {
        tag: Some(tag),
        fields,
    })?;
    outline.happen(Event::Union { tag, labels })?;
    Ok(bare(alloc, Core::Union { switched, number }))
}

#[cycle(walk)]
#[tactic(auto, using(crate::proofs::Walks::lists))]
fn arms_walked(
    alloc: Global,
    default: Pk,
    arms: &[ArmNode],
    fields: &mut Fields,
    labels: &mut Labels,
    outline: &mut Outline,
) -> Result<(), NoMemory>
    ensures fields { OnOk result (fields.new ≡ fields.old ++ walks.arm_fields default (arms_form arms.now) outline.old) }
    ensures labels { OnOk result (labels.new ≡ labels.old ++ walks.arm_labels default (arms_form arms.now) outline.old) }
    ensures past { OnOk result (outline.new ≡ walks.arms_past default (arms_form arms.now) outline.old) }
{
    for arm in arms {
        let own = labels_read(alloc, &arm.labels, outline)?;
        labels.append(own.as_slice())?;
        let field = arm_walked(alloc, default, arm, own, outline)?;
        fields.push(field)?;
    }
    Ok(())
}

// The field of an arm behind these labels.
#[cycle(walk)]
fn arm_walked(
    alloc: Global,
    default: Pk,
    arm: &ArmNode,
    labels: Labels,
    outline: &mut Outline,
) -> Result<Field, NoMemory>
    requires { labels ≡ walks.arm_label default (arm_form arm.now) outline.old }
    ensures field { IfOk result (λ f. f ≡ walks.arm_field default (arm_form arm.now) outline.old) }
    ensures past { OnOk result (outline.new ≡ walks.arm_past default (arm_form arm.now) outline.old) }
{
    labels_used(alloc, &arm.labels, outline)?;
    match &arm.member {
        None => Ok(empty_field(alloc, labels)),
        Some(member) => {
            let mut field = member_walked(alloc, default, Place::Arm, member, outline)?;
            field.labels = labels;
            Ok(field)
        }
    }
}

#[cycle(walk)]
#[tactic(auto, using(crate::proofs::Walks::lists))]
fn members_walked(
    alloc: Global,
    default: Pk,
    members: &[Member],
    outline: &mut Outline,
) -> Result<Fields, NoMemory>
    ensures fields { IfOk result (λ fs. fs ≡ walks.member_fields default (members_form members.now) outline.old) }
    ensures past { OnOk result (outline.new ≡ walks.members_past default (members_form members.now) outline.old) }
{
    let mut fields = Fields::new(alloc);
    for member in members {
        let field = member_walked(alloc, default, Place::Member, member, outline)?;
        fields.push(field)?;
    }
    Ok(fields)
}

#[cycle(walk)]
fn member_walked(
    alloc: Global,
    default: Pk,
    place: Place,
    member: &Member,
    outline: &mut Outline,
) -> Result<Field, NoMemory>
    ensures field { IfOk result (λ f. f ≡ walks.member_field default place (member_form member.now) outline.old) }
    ensures past { OnOk result (outline.new ≡ walks.member_past default place (member_form member.now) outline.old) }
{
    let attributes = attributes_walked(alloc, default, &member.attrs, outline)?;
    let given = tag_given(attributes.as_slice());
    let setting = setting_of(default, place, &member.attrs, &member.dtors, given);
    let ty = spec_walked(alloc, setting, &member.spec, outline)?;
    let bare = bare_spec(&member.spec);
    declared_field(
        alloc,
        default,
        place,
        &member.attrs,
        attributes,
        ty,
        bare,
        &member.dtors,
        outline,
    )
}

/// Adds what attributes use, and gives them.
#[cycle(walk)]
#[tactic(auto, using(crate::proofs::Walks::lists))]
pub(crate) fn attributes_walked(
    alloc: Global,
    default: Pk,
    attrs: &[Attr],
    outline: &mut Outline,
) -> Result<Attributes, NoMemory>
    ensures attributes { IfOk result (λ xs. xs ≡ walks.attributes default (attrs_form attrs.now) outline.old) }
    ensures past { OnOk result (outline.new ≡ walks.attrs_past default (attrs_form attrs.now) outline.old) }
{
    let mut attributes = Attributes::new(alloc);
    for attr in attrs {
        let attribute = attribute_walked(alloc, default, attr, outline)?;
        attributes.push(attribute)?;
    }
    Ok(attributes)
}

#[cycle(walk)]
fn attribute_walked(
    alloc: Global,
    default: Pk,
    attr: &Attr,
    outline: &mut Outline,
) -> Result<Attribute, NoMemory>
    ensures attribute { IfOk result (λ a. a ≡ walks.attribute default (attr_form attr.now) outline.old) }
    ensures past { OnOk result (outline.new ≡ walks.attr_past default (attr_form attr.now) outline.old) }
{
    let mark = mark_walked(alloc, default, &attr.what, outline)?;
    Ok(Attribute { at: attr.at, mark })
}

#[cycle(walk)]
#[tactic(auto, using(idl_forms::proofs::Layers::marks))]
fn mark_walked(
    alloc: Global,
    default: Pk,
    kind: &AttrKind,
    outline: &mut Outline,
) -> Result<Mark, NoMemory>
    ensures mark { IfOk result (λ m. m ≡ walks.mark_of default (attr_kind_form kind.now) outline.old) }
    ensures past { OnOk result (outline.new ≡ walks.mark_past default (attr_kind_form kind.now) outline.old) }
{
    match kind {
        AttrKind::In => Ok(Mark::In),
        AttrKind::Out => Ok(Mark::Out),
        AttrKind::Pointer(class) => Ok(Mark::Pointer(*class)),
        AttrKind::Text => Ok(Mark::Text),
        AttrKind::Idempotent => Ok(Mark::Idempotent),
        AttrKind::Maybe => Ok(Mark::Maybe),
        AttrKind::Handle => Ok(Mark::Handle),
        AttrKind::HandleSerialize => Ok(Mark::Handle),
        AttrKind::HandleNoserialize => Ok(Mark::Handle),
        AttrKind::SizeIs(given) => Ok(Mark::SizeIs(size(alloc, given)?)),
        AttrKind::MaxIs(given) => Ok(Mark::MaxIs(size(alloc, given)?)),
        AttrKind::LengthIs(given) => Ok(Mark::LengthIs(size(alloc, given)?)),
        AttrKind::SwitchIs { star, name } => {
            let name = copy_name(alloc, name)?;
            Ok(Mark::SwitchIs(NameRef { star: *star, name }))
        }
        AttrKind::SwitchType(spec) => switch_type(alloc, default, spec, outline),
        AttrKind::Range(low, high) => Ok(Mark::Range(*low, *high)),
    }
}

#[cycle(walk)]
fn switch_type(
    alloc: Global,
    default: Pk,
    spec: &Spec,
    outline: &mut Outline,
) -> Result<Mark, NoMemory>
    ensures mark { IfOk result (λ m. m ≡ walks.mark_of default (OfSwitchType (spec_form spec.now)) outline.old) }
    ensures past { OnOk result (outline.new ≡ walks.mark_past default (OfSwitchType (spec_form spec.now)) outline.old) }
{
    let inner = setting_alone(default);
    let ty = spec_walked(alloc, inner, spec, outline)?;
    Ok(Mark::SwitchType {
        spec_at: spec.at,
        ty: ty.of_tag(),
    })
}
