//! The table of the interface, as its text gives it.
ghost use Rattle.std.specs.Prelude.{◌≡◌, IfOk, map};
ghost use Rattle.ndr_value.specs.Forms.{form};
ghost use Rattle.ndr_table.specs.Tables.{op_form};
ghost use Rattle.ndr_table.specs.Shown.{shown};
ghost use Rattle.store_manager.specs.Table as spec;

use desk_kit::{array_of, behind, both_ways, inward, one_use, operation, outward, used};
use ndr_table::{HandleUse, Op, Ops, Table, Uses};
use ndr_value::{ArrayKind, Count, Shape, Shapes};
use rpc_base::{NoMemory, SyntaxId};
use std::alloc::Global;
use uuid::Uuid;

fn open_op(alloc: Global) -> Result<Op, NoMemory>
    ensures { IfOk result (λ o. op_form o ≡ spec.open_form) }
{
    let mut params = Vec::new(alloc);
    params.push(inward(behind(alloc, Shape::Text(None))?))?;
    params.push(outward(behind(alloc, Shape::Handle(0))?))?;
    operation(alloc, b"store_open", params)
}

// The octets of an array that the second parameter counts.
fn counted(alloc: Global) -> Result<Shape, NoMemory>
    ensures { IfOk result (λ s. form s ≡ spec.counted) }
{
    let count = Count::Param {
        index: 1,
        through: false,
        plus: 0,
    };
    array_of(alloc, ArrayKind::Conformant(count), Shape::Byte)
}

fn append_op(alloc: Global) -> Result<Op, NoMemory>
    ensures { IfOk result (λ o. op_form o ≡ spec.append_form) }
{
    let mut params = Vec::new(alloc);
    params.push(both_ways(behind(alloc, Shape::Handle(0))?))?;
    params.push(inward(Shape::Uint(4)))?;
    params.push(inward(counted(alloc)?))?;
    operation(alloc, b"store_append", params)
}

// At most as many octets as the second parameter says, and as many as the third points to.
fn at_most(alloc: Global) -> Result<Shape, NoMemory>
    ensures { IfOk result (λ s. form s ≡ spec.at_most) }
{
    let most = Count::Param {
        index: 1,
        through: false,
        plus: 0,
    };
    let count = Count::Param {
        index: 2,
        through: true,
        plus: 0,
    };
    array_of(
        alloc,
        ArrayKind::ConformantVarying(most, count),
        Shape::Byte,
    )
}

fn read_op(alloc: Global) -> Result<Op, NoMemory>
    ensures { IfOk result (λ o. op_form o ≡ spec.read_form) }
{
    let mut params = Vec::new(alloc);
    params.push(both_ways(behind(alloc, Shape::Handle(0))?))?;
    params.push(inward(Shape::Uint(4)))?;
    params.push(outward(behind(alloc, Shape::Uint(4))?))?;
    params.push(outward(at_most(alloc)?))?;
    operation(alloc, b"store_read", params)
}

fn close_op(alloc: Global) -> Result<Op, NoMemory>
    ensures { IfOk result (λ o. op_form o ≡ spec.close_form) }
{
    let mut params = Vec::new(alloc);
    params.push(both_ways(behind(alloc, Shape::Handle(0))?))?;
    operation(alloc, b"store_close", params)
}

fn view_op(alloc: Global) -> Result<Op, NoMemory>
    ensures { IfOk result (λ o. op_form o ≡ spec.view_form) }
{
    let mut params = Vec::new(alloc);
    params.push(inward(Shape::Handle(0)))?;
    params.push(outward(behind(alloc, Shape::Handle(1))?))?;
    operation(alloc, b"store_view", params)
}

fn size_op(alloc: Global) -> Result<Op, NoMemory>
    ensures { IfOk result (λ o. op_form o ≡ spec.size_form) }
{
    let mut params = Vec::new(alloc);
    params.push(inward(Shape::Handle(1)))?;
    params.push(outward(behind(alloc, Shape::Uint(8))?))?;
    operation(alloc, b"store_size", params)
}

fn unview_op(alloc: Global) -> Result<Op, NoMemory>
    ensures { IfOk result (λ o. op_form o ≡ spec.unview_form) }
{
    let mut params = Vec::new(alloc);
    params.push(both_ways(behind(alloc, Shape::Handle(1))?))?;
    operation(alloc, b"store_unview", params)
}

fn operations(alloc: Global) -> Result<Ops, NoMemory>
    ensures { IfOk result (λ ops. map op_form ops.items ≡ spec.store_table.ops) }
{
    let mut ops = Vec::new(alloc);
    ops.push(open_op(alloc)?)?;
    ops.push(append_op(alloc)?)?;
    ops.push(read_op(alloc)?)?;
    ops.push(close_op(alloc)?)?;
    ops.push(view_op(alloc)?)?;
    ops.push(size_op(alloc)?)?;
    ops.push(unview_op(alloc)?)?;
    Ok(ops)
}

fn of_cursor(inward: bool, outward: bool) -> HandleUse
    ensures { result ≡ spec.of_cursor inward outward }
{
    used(0, inward, outward, true)
}

fn of_view(inward: bool, outward: bool) -> HandleUse
    ensures { result ≡ spec.of_view inward outward }
{
    used(1, inward, outward, false)
}

fn uses_of_all(alloc: Global) -> Result<Uses, NoMemory>
    ensures { IfOk result (λ uses. uses.items ≡ spec.store_uses) }
{
    let mut viewing = one_use(alloc, of_cursor(true, false))?;
    viewing.push(of_view(false, true))?;
    let mut uses = Vec::new(alloc);
    uses.push(one_use(alloc, of_cursor(false, true))?)?;
    uses.push(one_use(alloc, of_cursor(true, true))?)?;
    uses.push(one_use(alloc, of_cursor(true, true))?)?;
    uses.push(one_use(alloc, of_cursor(true, true))?)?;
    uses.push(viewing)?;
    uses.push(one_use(alloc, of_view(true, false))?)?;
    uses.push(one_use(alloc, of_view(true, true))?)?;
    Ok(uses)
}

fn syntax() -> SyntaxId
    ensures { result ≡ spec.store_table.id }
{
    SyntaxId {
        id: Uuid::from_bytes([
            0x9b, 0x1d, 0x3c, 0x7e, 0x52, 0xf4, 0x4a, 0x0b, 0x8e, 0x6d, 0x1f, 0x0c, 0x2a, 0x3b,
            0x4d, 0x5e,
        ]),
        major: 1,
        minor: 0,
    }
}

/// The table of the interface.
///
/// # Errors
///
/// `NoMemory` where there is no memory for it.
pub fn store_table(alloc: Global) -> Result<Table, NoMemory>
    ensures { IfOk result (λ table. shown table ≡ spec.store_table) }
{
    let ops = operations(alloc)?;
    let uses = uses_of_all(alloc)?;
    Table::of(alloc, syntax(), Shapes::new(alloc), ops, uses)
}
