//! Copies of operations and handles.
ghost use Rattle.std.specs.Prelude.{◌≡◌, map, IfOk};
ghost use Rattle.ndr_table.specs.Tables.{op_form, param_form, result_form};

use crate::operation::{HandleUses, Op, Ops, Param, Params, Uses};
use ndr_value::{Shape, copy_shape};
use rpc_base::NoMemory;
use std::alloc::Global;

fn param(alloc: Global, param: &Param) -> Result<Param, NoMemory>
    ensures { IfOk result (λ copy. param_form copy ≡ param_form param.now) }
{
    let shape = copy_shape(alloc, &param.shape)?;
    Ok(Param {
        shape,
        inward: param.inward,
        outward: param.outward,
        range: param.range,
    })
}

fn params(alloc: Global, list: &[Param]) -> Result<Params, NoMemory>
    ensures { IfOk result (λ copy. map param_form copy.items ≡ map param_form list.now) }
{
    let mut copies = Vec::new(alloc);
    for item in list {
        copies.push(param(alloc, item)?)?;
    }
    Ok(copies)
}

fn result_shape(alloc: Global, shape: &Option<Shape>) -> Result<Option<Shape>, NoMemory>
    ensures { IfOk result (λ copy. result_form copy ≡ result_form shape.now) }
{
    match shape {
        None => Ok(None),
        Some(shape) => Ok(Some(copy_shape(alloc, shape)?)),
    }
}

fn op(alloc: Global, op: &Op) -> Result<Op, NoMemory>
    ensures { IfOk result (λ copy. op_form copy ≡ op_form op.now) }
{
    let name = op.name.copy(alloc)?;
    let params = params(alloc, &op.params)?;
    let result = result_shape(alloc, &op.result)?;
    Ok(Op {
        name,
        params,
        result,
        status: op.status,
        maybe: op.maybe,
    })
}

/// Operations that are the same in every item.
///
/// # Errors
///
/// `NoMemory` where there is no memory for them.
pub fn ops(alloc: Global, list: &[Op]) -> Result<Ops, NoMemory>
    ensures { IfOk result (λ copy. map op_form copy.items ≡ map op_form list.now) }
{
    let mut copies = Vec::new(alloc);
    for item in list {
        copies.push(op(alloc, item)?)?;
    }
    Ok(copies)
}

/// The same handles of each operation.
///
/// # Errors
///
/// `NoMemory` where there is no memory for them.
pub fn uses(alloc: Global, list: &[HandleUses]) -> Result<Uses, NoMemory>
    ensures { IfOk result (λ copy. copy.items ≡ list.now) }
{
    let mut copies = Vec::new(alloc);
    for item in list {
        copies.push(item.copy(alloc)?)?;
    }
    Ok(copies)
}
