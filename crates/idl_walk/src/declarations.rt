//! Declarations and whole trees.
ghost use Rattle.std.specs.Prelude.{◌≡◌, map, IfOk, OnOk};
ghost use Rattle.idl_names.specs.declared.place.Place.TheVariants as places;
ghost use Rattle.idl_forms.specs.Forms.{a_member, spec_form, attrs_form, param_form, decl_kind_form, decl_form, tree_form};
ghost use Rattle.idl_names.specs.Members.{result_member, param_member};
ghost use Rattle.idl_outline.specs.Outline as outlines;
ghost use Rattle.idl_outline.specs.Specs as walks;

use crate::specs::{attributes_walked, spec_walked};
use crate::used::{bare_spec, declared_field};
use idl_names::{Place, copy_name, pointer_default};
use idl_outline::{Declared, Event, Field, Fields, Outline, setting_of, tag_given};
use idl_tree::{Ast, Attr, Decl, DeclKind, Dtor, Ident, ParamNode, Pk, Spec};
use rpc_base::NoMemory;
use std::alloc::Global;
use std::slice;

fn types_declared(
    alloc: Global,
    declared: &[Declared],
    outline: &mut Outline,
) -> Result<(), NoMemory>
    ensures { OnOk result (outline.new ≡ outlines.types_past declared.now outline.old) }
{
    for one in declared {
        let name = copy_name(alloc, &one.name)?;
        let ty = one.ty.copy(alloc)?;
        outline.happen(Event::Typedef { name, ty })?;
    }
    Ok(())
}

// What one spec declares at a place, with its attributes and its declarators.
fn field(
    alloc: Global,
    default: Pk,
    place: Place,
    attrs: &[Attr],
    spec: &Spec,
    dtors: &[Dtor],
    outline: &mut Outline,
) -> Result<Field, NoMemory>
    ensures field { IfOk result (λ f. f ≡ walks.member_field default place (a_member (attrs_form attrs.now) (spec_form spec.now) dtors.now) outline.old) }
    ensures past { OnOk result (outline.new ≡ walks.member_past default place (a_member (attrs_form attrs.now) (spec_form spec.now) dtors.now) outline.old) }
{
    let attributes = attributes_walked(alloc, default, attrs, outline)?;
    let given = tag_given(attributes.as_slice());
    let setting = setting_of(default, place, attrs, dtors, given);
    let ty = spec_walked(alloc, setting, spec, outline)?;
    let bare = bare_spec(spec);
    declared_field(
        alloc, default, place, attrs, attributes, ty, bare, dtors, outline,
    )
}

// A typedef, or a spec without a declarator.
fn own(
    alloc: Global,
    default: Pk,
    place: Place,
    attrs: &[Attr],
    spec: &Spec,
    dtors: &[Dtor],
    outline: &mut Outline,
) -> Result<(), NoMemory>
    ensures { OnOk result (outline.new ≡ outlines.own_past default place (a_member (attrs_form attrs.now) (spec_form spec.now) dtors.now) outline.old) }
{
    let field = field(alloc, default, place, attrs, spec, dtors, outline)?;
    types_declared(alloc, field.declared.as_slice(), outline)?;
    outline.happen(Event::Single(field))
}

fn parameter(
    alloc: Global,
    default: Pk,
    node: &ParamNode,
    outline: &mut Outline,
) -> Result<Field, NoMemory>
    ensures field { IfOk result (λ f. f ≡ walks.member_field default places.Parameter (param_member (param_form node.now)) outline.old) }
    ensures past { OnOk result (outline.new ≡ walks.member_past default places.Parameter (param_member (param_form node.now)) outline.old) }
{
    let dtors = slice::from_ref(&node.dtor);
    field(
        alloc,
        default,
        Place::Parameter,
        &node.attrs,
        &node.spec,
        dtors,
        outline,
    )
}

#[tactic(auto, using(crate::proofs::Walks::lists))]
fn parameters(
    alloc: Global,
    default: Pk,
    nodes: &[ParamNode],
    outline: &mut Outline,
) -> Result<Fields, NoMemory>
    ensures fields { IfOk result (λ fs. fs ≡ outlines.param_fields default (map param_form nodes.now) outline.old) }
    ensures past { OnOk result (outline.new ≡ outlines.params_past default (map param_form nodes.now) outline.old) }
{
    let mut fields = Fields::new(alloc);
    for node in nodes {
        let field = parameter(alloc, default, node, outline)?;
        fields.push(field)?;
    }
    Ok(fields)
}

// The result of an operation, whose name stands for its declarator.
fn result_field(
    alloc: Global,
    default: Pk,
    attrs: &[Attr],
    spec: &Spec,
    name: &Ident,
    outline: &mut Outline,
) -> Result<Field, NoMemory>
    ensures field { IfOk result (λ f. f ≡ walks.member_field default places.Operation (result_member (attrs_form attrs.now) (spec_form spec.now) name.now) outline.old) }
    ensures past { OnOk result (outline.new ≡ walks.member_past default places.Operation (result_member (attrs_form attrs.now) (spec_form spec.now) name.now) outline.old) }
{
    let dtor = Dtor {
        stars: 0,
        name: copy_name(alloc, name)?,
        array: None,
    };
    let dtors = slice::from_ref(&dtor);
    field(
        alloc,
        default,
        Place::Operation,
        attrs,
        spec,
        dtors,
        outline,
    )
}

fn operation(
    alloc: Global,
    default: Pk,
    attrs: &[Attr],
    spec: &Spec,
    name: &Ident,
    nodes: &[ParamNode],
    outline: &mut Outline,
) -> Result<(), NoMemory>
    ensures { OnOk result (outline.new ≡ outlines.op_past default (result_member (attrs_form attrs.now) (spec_form spec.now) name.now) name.now (map param_form nodes.now) outline.old) }
{
    let result = result_field(alloc, default, attrs, spec, name, outline)?;
    let name = copy_name(alloc, name)?;
    outline.happen(Event::Operation(name))?;
    let parameters = parameters(alloc, default, nodes, outline)?;
    outline.happen(Event::Call { result, parameters })
}

fn declaration(
    alloc: Global,
    default: Pk,
    kind: &DeclKind,
    outline: &mut Outline,
) -> Result<(), NoMemory>
    ensures { OnOk result (outline.new ≡ outlines.decl_past default (decl_kind_form kind.now) outline.old) }
{
    match kind {
        DeclKind::Const { base, name, value } => {
            let name = copy_name(alloc, name)?;
            outline.happen(Event::Constant {
                base: *base,
                name,
                value: *value,
            })
        }
        DeclKind::Typedef { attrs, spec, dtors } => {
            own(alloc, default, Place::Typedef, attrs, spec, dtors, outline)
        }
        DeclKind::Lone { attrs, spec } => {
            own(alloc, default, Place::Alone, attrs, spec, &[], outline)
        }
        DeclKind::Op {
            attrs,
            spec,
            name,
            params,
            ..
        } => operation(alloc, default, attrs, spec, name, params, outline),
    }
}

fn declarations(
    alloc: Global,
    default: Pk,
    decls: &[Decl],
    outline: &mut Outline,
) -> Result<(), NoMemory>
    ensures { OnOk result (outline.new ≡ outlines.decls_past default (map decl_form decls.now) outline.old) }
{
    for decl in decls {
        declaration(alloc, default, &decl.what, outline)?;
    }
    Ok(())
}

/// The outline of an interface: all events of its text.
///
/// # Errors
///
/// `NoMemory` where there is no memory for it.
pub fn outline(alloc: Global, tree: &Ast) -> Result<Outline, NoMemory>
    ensures { IfOk result (λ o. o ≡ outlines.outline (tree_form tree.now)) }
{
    let default = pointer_default(&tree.attributes);
    let mut outline = Outline::new(alloc);
    declarations(alloc, default, &tree.decls, &mut outline)?;
    Ok(outline)
}
