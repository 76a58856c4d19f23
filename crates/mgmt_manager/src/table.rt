//! The table of the interface, as its text gives it.
ghost use Rattle.std.specs.Prelude.{◌≡◌, IfOk, map};
ghost use Rattle.ndr_value.specs.Forms.{form, types_of};
ghost use Rattle.ndr_table.specs.Tables.{op_form};
ghost use Rattle.ndr_table.specs.Shown.{shown};
ghost use Rattle.mgmt_manager.specs.Table as spec;

use desk_kit::{
    array_of, behind, both_ways, named, number_out, outward, pointer_to, procedure, structure_of,
    syntax_shape, uuid_shape,
};
use ndr_table::{HandleUses, Op, Ops, Table, Uses};
use ndr_value::{ArrayKind, Count, Shape, Shapes};
use rpc_base::{NoMemory, SyntaxId};
use std::alloc::Global;
use uuid::Uuid;

fn vector_shape(alloc: Global) -> Result<Shape, NoMemory>
    ensures { IfOk result (λ s. form s ≡ spec.vector_form) }
{
    let count = Count::Member { index: 0, plus: 0 };
    let pointer = pointer_to(alloc, named(1))?;
    let mut members = Vec::new(alloc);
    members.push(Shape::Uint(4))?;
    members.push(array_of(alloc, ArrayKind::Conformant(count), pointer)?)?;
    Ok(structure_of(members))
}

fn types(alloc: Global) -> Result<Shapes, NoMemory>
    ensures { IfOk result (λ types. types_of types.items ≡ spec.mgmt_types) }
{
    let mut types = Vec::new(alloc);
    types.push(uuid_shape(alloc)?)?;
    types.push(syntax_shape(alloc)?)?;
    types.push(vector_shape(alloc)?)?;
    Ok(types)
}

fn ids_op(alloc: Global) -> Result<Op, NoMemory>
    ensures { IfOk result (λ o. op_form o ≡ spec.ids_form) }
{
    let vector = pointer_to(alloc, named(2))?;
    let mut params = Vec::new(alloc);
    params.push(outward(behind(alloc, vector)?))?;
    params.push(number_out(alloc)?)?;
    procedure(alloc, b"inq_if_ids", params, None)
}

// As many numbers as the first parameter points to.
fn statistics(alloc: Global) -> Result<Shape, NoMemory>
    ensures { IfOk result (λ s. form s ≡ spec.statistics) }
{
    let count = Count::Param {
        index: 0,
        through: true,
        plus: 0,
    };
    array_of(alloc, ArrayKind::Conformant(count), Shape::Uint(4))
}

fn stats_op(alloc: Global) -> Result<Op, NoMemory>
    ensures { IfOk result (λ o. op_form o ≡ spec.stats_form) }
{
    let mut params = Vec::new(alloc);
    params.push(both_ways(behind(alloc, Shape::Uint(4))?))?;
    params.push(outward(statistics(alloc)?))?;
    params.push(number_out(alloc)?)?;
    procedure(alloc, b"inq_stats", params, None)
}

fn listening_op(alloc: Global) -> Result<Op, NoMemory>
    ensures { IfOk result (λ o. op_form o ≡ spec.listening_form) }
{
    let mut params = Vec::new(alloc);
    params.push(number_out(alloc)?)?;
    procedure(alloc, b"is_server_listening", params, Some(Shape::Uint(4)))
}

fn operations(alloc: Global) -> Result<Ops, NoMemory>
    ensures { IfOk result (λ ops. map op_form ops.items ≡ spec.mgmt_table.ops) }
{
    let mut ops = Vec::new(alloc);
    ops.push(ids_op(alloc)?)?;
    ops.push(stats_op(alloc)?)?;
    ops.push(listening_op(alloc)?)?;
    Ok(ops)
}

fn uses_of_all(alloc: Global) -> Result<Uses, NoMemory>
    ensures { IfOk result (λ uses. uses.items ≡ spec.mgmt_table.uses) }
{
    let mut uses = Vec::new(alloc);
    uses.push(HandleUses::new(alloc))?;
    uses.push(HandleUses::new(alloc))?;
    uses.push(HandleUses::new(alloc))?;
    Ok(uses)
}

fn syntax() -> SyntaxId
    ensures { result ≡ spec.mgmt_table.id }
{
    SyntaxId {
        id: Uuid::from_bytes([
            0xaf, 0xa8, 0xbd, 0x80, 0x7d, 0x8a, 0x11, 0xc9, 0xbe, 0xf4, 0x08, 0x00, 0x2b, 0x10,
            0x29, 0x89,
        ]),
        major: 1,
        minor: 0,
    }
}

/// The table of the interface.
///
/// # Errors
///
/// `NoMemory` where there is no memory for it.
pub fn mgmt_table(alloc: Global) -> Result<Table, NoMemory>
    ensures { IfOk result (λ table. shown table ≡ spec.mgmt_table) }
{
    let types = types(alloc)?;
    let ops = operations(alloc)?;
    let uses = uses_of_all(alloc)?;
    Table::of(alloc, syntax(), types, ops, uses)
}
