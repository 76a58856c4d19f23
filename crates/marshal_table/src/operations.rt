//! Operations.
ghost use Rattle.std.specs.Prelude.{◌≡◌, ◌++◌, ◌∷◌, [], map, true, IfOk, OnOk};
ghost use Rattle.std.specs.List.{flat_map};
ghost use Rattle.ndr_value.specs.Forms.{form};
ghost use Rattle.ndr_table.specs.Tables.{result_form, param_form, op_form};
ghost use Rattle.marshal_table.specs.Interfaces as spec;

use crate::numbers::in_16;
use crate::shapes::{declared_shape, type_shape};
use crate::terms::{range, terms};
use idl_names::copy_name;
use idl_outline::{Core, DataType, Declared, Field};
use idl_rules::{Saying, has, is_handle_t};
use idl_tree::Ident;
use ndr_table::{HandleUse, HandleUses, Op, Param, Params};
use ndr_value::Shape;
use rpc_base::{NoMemory, Octets};
use std::alloc::Global;

fn is_listed(field: &Field) -> bool
    ensures { result ≡ spec.is_listed field.now }
{
    !is_handle_t(field.spec.core)
}

fn add_names(alloc: Global, field: &Field, names: &mut Vec<Ident>) -> Result<(), NoMemory>
    ensures { OnOk result (names.new.items ≡ names.old.items ++ spec.listed_names field.now) }
{
    if !is_listed(field) {
        return Ok(());
    }
    for declared in field.declared.as_slice() {
        names.push(copy_name(alloc, &declared.name)?)?;
    }
    Ok(())
}

fn names_of(alloc: Global, fields: &[Field]) -> Result<Vec<Ident>, NoMemory>
    ensures { IfOk result (λ names. names.items ≡ spec.names_listed fields.now) }
{
    let mut names = Vec::new(alloc);
    for field in fields {
        add_names(alloc, field, &mut names)?;
    }
    Ok(names)
}

fn one_param(
    alloc: Global,
    names: &[Ident],
    field: &Field,
    declared: &Declared,
) -> Result<Param, NoMemory>
    ensures { IfOk result (λ p. param_form p ≡ spec.one_param names.now field.now declared.now) }
{
    let attributes = field.attributes.as_slice();
    let terms = terms(attributes, field.place, names)?;
    let shape = declared_shape(alloc, terms, declared)?;
    let range = range(attributes)?;
    Ok(Param {
        shape,
        inward: has(field, Saying::In),
        outward: has(field, Saying::Out),
        range,
    })
}

fn add_params(
    alloc: Global,
    names: &[Ident],
    field: &Field,
    into: &mut Params,
) -> Result<(), NoMemory>
    ensures { OnOk result (map param_form into.new.items ≡ map param_form into.old.items ++ spec.params_listed names.now field.now) }
{
    if !is_listed(field) {
        return Ok(());
    }
    for declared in field.declared.as_slice() {
        into.push(one_param(alloc, names, field, declared)?)?;
    }
    Ok(())
}

fn params(alloc: Global, names: &[Ident], fields: &[Field]) -> Result<Params, NoMemory>
    ensures { IfOk result (λ ps. map param_form ps.items ≡ flat_map (spec.params_listed names.now) fields.now) }
{
    let mut all = Params::new(alloc);
    for field in fields {
        add_params(alloc, names, field, &mut all)?;
    }
    Ok(all)
}

fn add_use(uses: &mut HandleUses, field: &Field) -> Result<(), NoMemory>
    ensures { OnOk result (uses.new ≡ uses.old ++ spec.use_in field.now) }
{
    match field.spec.core {
        Core::ContextHandle { kind, serialised } => uses.push(HandleUse {
            kind: in_16(kind as u64)?,
            inward: has(field, Saying::In),
            outward: has(field, Saying::Out),
            serialised,
        }),
        _ => Ok(()),
    }
}

/// The handles of an operation, in the order of its parameters.
///
/// # Errors
///
/// `NoMemory` where there is no memory for them, or they are more than four: no interface that keeps the
/// rules has such an operation.
pub fn uses_of(alloc: Global, fields: &[Field]) -> Result<HandleUses, NoMemory>
    ensures uses { IfOk result (λ us. us ≡ flat_map spec.use_in fields.now) }
    ensures few { IfOk result (λ us. spec.is_few us ≡ true) }
{
    let mut uses = HandleUses::new(alloc);
    for field in fields {
        add_use(&mut uses, field)?;
    }
    if uses.len() > 4 {
        return Err(NoMemory);
    }
    Ok(uses)
}

fn result_of(core: Core, shape: Shape) -> Option<Shape>
    ensures { result_form result ≡ spec.core_result core (form shape) }
{
    match core {
        Core::Void => None,
        _ => Some(shape),
    }
}

fn is_status(ty: &DataType) -> bool
    ensures { result ≡ spec.is_status ty.now }
{
    matches!(ty.core, Core::ErrorStatus) && ty.outer().is_none()
}

fn name_of(alloc: Global, declared: &[Declared]) -> Result<Octets, NoMemory>
    ensures { IfOk result (λ name. name ≡ spec.name_of declared.now) }
{
    match declared.split_first() {
        None => Ok(Octets::new(alloc)),
        Some((first, _)) => first.name.text.copy(alloc),
    }
}

/// An operation, by its result and its parameters.
///
/// # Errors
///
/// `NoMemory` where there is no memory for it, or a number has no room in its field.
pub fn op_of(alloc: Global, of: &Field, fields: &[Field]) -> Result<Op, NoMemory>
    ensures { IfOk result (λ o. op_form o ≡ spec.op_of of.now fields.now) }
{
    let names = names_of(alloc, fields)?;
    let params = params(alloc, &names, fields)?;
    let name = name_of(alloc, of.declared.as_slice())?;
    let shape = type_shape(alloc, &of.spec)?;
    Ok(Op {
        name,
        params,
        result: result_of(of.spec.core, shape),
        status: is_status(&of.spec),
        maybe: has(of, Saying::Maybe),
    })
}
