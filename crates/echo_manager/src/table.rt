//! The table of the interface, as its text gives it.
ghost use Rattle.std.specs.Prelude.{◌≡◌, IfOk, map};
ghost use Rattle.ndr_table.specs.Tables.{op_form};
ghost use Rattle.ndr_table.specs.Shown.{shown};
ghost use Rattle.echo_manager.specs.Table as spec;

use desk_kit::{behind, both_ways, inward, one_use, operation, outward, used};
use ndr_table::{Op, Ops, Table, Uses};
use ndr_value::{Shape, Shapes};
use rpc_base::{NoMemory, SyntaxId};
use std::alloc::Global;
use uuid::Uuid;

fn open_op(alloc: Global) -> Result<Op, NoMemory>
    ensures { IfOk result (λ o. op_form o ≡ spec.open_form) }
{
    let mut params = Vec::new(alloc);
    params.push(inward(Shape::Uint(4)))?;
    params.push(outward(behind(alloc, Shape::Handle(0))?))?;
    operation(alloc, b"probe_open", params)
}

fn close_op(alloc: Global) -> Result<Op, NoMemory>
    ensures { IfOk result (λ o. op_form o ≡ spec.close_form) }
{
    let mut params = Vec::new(alloc);
    params.push(both_ways(behind(alloc, Shape::Handle(0))?))?;
    operation(alloc, b"probe_close", params)
}

fn operations(alloc: Global) -> Result<Ops, NoMemory>
    ensures { IfOk result (λ ops. map op_form ops.items ≡ spec.probe_table.ops) }
{
    let mut ops = Vec::new(alloc);
    ops.push(open_op(alloc)?)?;
    ops.push(close_op(alloc)?)?;
    Ok(ops)
}

fn uses_of_all(alloc: Global) -> Result<Uses, NoMemory>
    ensures { IfOk result (λ uses. uses.items ≡ spec.probe_table.uses) }
{
    let mut uses = Vec::new(alloc);
    uses.push(one_use(alloc, used(0, false, true, true))?)?;
    uses.push(one_use(alloc, used(0, true, true, true))?)?;
    Ok(uses)
}

fn syntax() -> SyntaxId
    ensures { result ≡ spec.probe_table.id }
{
    SyntaxId {
        id: Uuid::from_bytes([
            0x5f, 0x0c, 0x7a, 0x12, 0x3b, 0x4d, 0x4e, 0x6f, 0x8a, 0x90, 0xb1, 0xc2, 0xd3, 0xe4,
            0xf5, 0x06,
        ]),
        major: 1,
        minor: 0,
    }
}

/// The table of the interface.
///
/// # Errors
///
/// `NoMemory` where there is no memory for it.
pub fn probe_table(alloc: Global) -> Result<Table, NoMemory>
    ensures { IfOk result (λ table. shown table ≡ spec.probe_table) }
{
    let ops = operations(alloc)?;
    let uses = uses_of_all(alloc)?;
    Table::of(alloc, syntax(), Shapes::new(alloc), ops, uses)
}
