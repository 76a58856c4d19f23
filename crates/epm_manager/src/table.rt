//! The table of the interface, as its text gives it.
ghost use Rattle.std.specs.Prelude.{◌≡◌, ◌<◌, IfOk, map};
ghost use Rattle.ndr_value.specs.Forms.{form, types_of};
ghost use Rattle.ndr_table.specs.Tables.{op_form, param_form};
ghost use Rattle.ndr_table.specs.Shown.{shown};
ghost use Rattle.epm_manager.specs.Table as spec;

use desk_kit::{
    array_of, behind, both_ways, inward, named, number_out, one_use, outward, pointer_to,
    procedure, structure_of, syntax_shape, used, uuid_shape,
};
use ndr_table::{HandleUses, Op, Ops, Param, Table, Uses};
use ndr_value::{ArrayKind, Count, Shape, Shapes};
use rpc_base::{NoMemory, SyntaxId};
use std::alloc::Global;
use uuid::Uuid;

fn tower_shape(alloc: Global) -> Result<Shape, NoMemory>
    ensures { IfOk result (λ s. form s ≡ spec.tower_form) }
{
    let count = Count::Member { index: 0, plus: 0 };
    let mut members = Shapes::new(alloc);
    members.push(Shape::Uint(4))?;
    members.push(array_of(alloc, ArrayKind::Conformant(count), Shape::Byte)?)?;
    Ok(structure_of(members))
}

fn entry_shape(alloc: Global) -> Result<Shape, NoMemory>
    ensures { IfOk result (λ s. form s ≡ spec.entry_form) }
{
    let mut members = Shapes::new(alloc);
    members.push(named(0))?;
    members.push(pointer_to(alloc, named(2))?)?;
    members.push(Shape::Text(Some(64)))?;
    Ok(structure_of(members))
}

fn types(alloc: Global) -> Result<Shapes, NoMemory>
    ensures { IfOk result (λ types. types_of types.items ≡ spec.epm_types) }
{
    let mut types = Shapes::new(alloc);
    types.push(uuid_shape(alloc)?)?;
    types.push(syntax_shape(alloc)?)?;
    types.push(tower_shape(alloc)?)?;
    types.push(entry_shape(alloc)?)?;
    Ok(types)
}

fn handle(alloc: Global) -> Result<Param, NoMemory>
    ensures { IfOk result (λ p. param_form p ≡ spec.handle_form) }
{
    Ok(both_ways(behind(alloc, Shape::Handle(0))?))
}

// As many entries as the first parameter says.
fn entries(alloc: Global) -> Result<Param, NoMemory>
    ensures { IfOk result (λ p. param_form p ≡ spec.entries_in) }
{
    let count = Count::Param {
        index: 0,
        through: false,
        plus: 0,
    };
    Ok(inward(array_of(alloc, ArrayKind::Conformant(count), named(3))?))
}

// At most as many as a parameter says, and as many as the next one points to.
fn found(alloc: Global, most: u8, shape: Shape) -> Result<Param, NoMemory>
    requires { most < 255 }
    ensures { IfOk result (λ p. param_form p ≡ spec.found_out most (form shape)) }
{
    let size = Count::Param {
        index: most,
        through: false,
        plus: 0,
    };
    let count = Count::Param {
        index: most + 1,
        through: true,
        plus: 0,
    };
    Ok(outward(array_of(alloc, ArrayKind::ConformantVarying(size, count), shape)?))
}

fn insert_op(alloc: Global) -> Result<Op, NoMemory>
    ensures { IfOk result (λ o. op_form o ≡ spec.insert_form) }
{
    let mut params = Vec::new(alloc);
    params.push(inward(Shape::Uint(4)))?;
    params.push(entries(alloc)?)?;
    params.push(inward(Shape::Uint(4)))?;
    params.push(number_out(alloc)?)?;
    procedure(alloc, b"ept_insert", params, None)
}

fn delete_op(alloc: Global) -> Result<Op, NoMemory>
    ensures { IfOk result (λ o. op_form o ≡ spec.delete_form) }
{
    let mut params = Vec::new(alloc);
    params.push(inward(Shape::Uint(4)))?;
    params.push(entries(alloc)?)?;
    params.push(number_out(alloc)?)?;
    procedure(alloc, b"ept_delete", params, None)
}

fn lookup_op(alloc: Global) -> Result<Op, NoMemory>
    ensures { IfOk result (λ o. op_form o ≡ spec.lookup_form) }
{
    let mut params = Vec::new(alloc);
    params.push(inward(Shape::Uint(4)))?;
    params.push(inward(pointer_to(alloc, named(0))?))?;
    params.push(inward(pointer_to(alloc, named(1))?))?;
    params.push(inward(Shape::Uint(4)))?;
    params.push(handle(alloc)?)?;
    params.push(inward(Shape::Uint(4)))?;
    params.push(number_out(alloc)?)?;
    params.push(found(alloc, 5, named(3))?)?;
    params.push(number_out(alloc)?)?;
    procedure(alloc, b"ept_lookup", params, None)
}

fn map_op(alloc: Global) -> Result<Op, NoMemory>
    ensures { IfOk result (λ o. op_form o ≡ spec.map_form) }
{
    let mut params = Vec::new(alloc);
    params.push(inward(pointer_to(alloc, named(0))?))?;
    params.push(inward(pointer_to(alloc, named(2))?))?;
    params.push(handle(alloc)?)?;
    params.push(inward(Shape::Uint(4)))?;
    params.push(number_out(alloc)?)?;
    params.push(found(alloc, 3, pointer_to(alloc, named(2))?)?)?;
    params.push(number_out(alloc)?)?;
    procedure(alloc, b"ept_map", params, None)
}

fn free_op(alloc: Global) -> Result<Op, NoMemory>
    ensures { IfOk result (λ o. op_form o ≡ spec.free_form) }
{
    let mut params = Vec::new(alloc);
    params.push(handle(alloc)?)?;
    params.push(number_out(alloc)?)?;
    procedure(alloc, b"ept_lookup_handle_free", params, None)
}

fn operations(alloc: Global) -> Result<Ops, NoMemory>
    ensures { IfOk result (λ ops. map op_form ops.items ≡ spec.epm_table.ops) }
{
    let mut ops = Vec::new(alloc);
    ops.push(insert_op(alloc)?)?;
    ops.push(delete_op(alloc)?)?;
    ops.push(lookup_op(alloc)?)?;
    ops.push(map_op(alloc)?)?;
    ops.push(free_op(alloc)?)?;
    Ok(ops)
}

fn of_lookup(alloc: Global) -> Result<HandleUses, NoMemory>
    ensures { IfOk result (λ uses. uses ≡ spec.of_lookup) }
{
    one_use(alloc, used(0, true, true, true))
}

fn uses_of_all(alloc: Global) -> Result<Uses, NoMemory>
    ensures { IfOk result (λ uses. uses.items ≡ spec.epm_table.uses) }
{
    let mut uses = Vec::new(alloc);
    uses.push(HandleUses::new(alloc))?;
    uses.push(HandleUses::new(alloc))?;
    uses.push(of_lookup(alloc)?)?;
    uses.push(of_lookup(alloc)?)?;
    uses.push(of_lookup(alloc)?)?;
    Ok(uses)
}

fn syntax() -> SyntaxId
    ensures { result ≡ spec.epm_table.id }
{
    SyntaxId {
        id: Uuid::from_bytes([
            0xe1, 0xaf, 0x83, 0x08, 0x5d, 0x1f, 0x11, 0xc9, 0x91, 0xa4, 0x08, 0x00, 0x2b, 0x14,
            0xa0, 0xfa,
        ]),
        major: 3,
        minor: 0,
    }
}

/// The table of the interface.
///
/// # Errors
///
/// `NoMemory` where there is no memory for it.
pub fn epm_table(alloc: Global) -> Result<Table, NoMemory>
    ensures { IfOk result (λ table. shown table ≡ spec.epm_table) }
{
    let types = types(alloc)?;
    let ops = operations(alloc)?;
    let uses = uses_of_all(alloc)?;
    Table::of(alloc, syntax(), types, ops, uses)
}
