//! Operations and their parameters.
ghost use Rattle.std.specs.Prelude.{◌≡◌, IfOk, map};
ghost use Rattle.ndr_value.specs.Forms.{form};
ghost use Rattle.ndr_table.specs.Tables.{op_form, param_form, result_form};
ghost use Rattle.desk_kit.specs.TableParts as spec;

use crate::shapes::behind;
use ndr_table::{Op, Param, Params};
use ndr_value::Shape;
use rpc_base::{NoMemory, Octets};
use std::alloc::Global;

/// A parameter that goes in.
pub fn inward(shape: Shape) -> Param
    ensures { param_form result ≡ spec.goes_in (form shape) }
{
    Param {
        shape,
        inward: true,
        outward: false,
        range: None,
    }
}

/// A parameter that comes out.
pub fn outward(shape: Shape) -> Param
    ensures { param_form result ≡ spec.goes_out (form shape) }
{
    Param {
        shape,
        inward: false,
        outward: true,
        range: None,
    }
}

/// A parameter that goes both ways.
pub fn both_ways(shape: Shape) -> Param
    ensures { param_form result ≡ spec.goes_both (form shape) }
{
    Param {
        shape,
        inward: true,
        outward: true,
        range: None,
    }
}

/// A number of 32 bits that comes out, as a status does.
///
/// # Errors
///
/// `NoMemory` where there is no memory for its shape.
pub fn number_out(alloc: Global) -> Result<Param, NoMemory>
    ensures { IfOk result (λ p. param_form p ≡ spec.number_out) }
{
    Ok(outward(behind(alloc, Shape::Uint(4))?))
}

/// An operation whose result is an `error_status_t`.
///
/// # Errors
///
/// `NoMemory` where there is no memory for its name or result.
pub fn operation(alloc: Global, name: &[u8], params: Params) -> Result<Op, NoMemory>
    ensures { IfOk result (λ o. op_form o ≡ spec.operation name.now (map param_form params.items)) }
{
    Ok(Op {
        name: Octets::from_vec(Vec::from_slice(alloc, name)?),
        params,
        result: Some(Shape::Uint(4)),
        status: true,
        maybe: false,
    })
}

/// An operation with another result, or none.
///
/// # Errors
///
/// `NoMemory` where there is no memory for its name.
pub fn procedure(
    alloc: Global,
    name: &[u8],
    params: Params,
    answer: Option<Shape>,
) -> Result<Op, NoMemory>
    ensures { IfOk result (λ o. op_form o ≡ spec.procedure name.now (map param_form params.items) (result_form answer)) }
{
    Ok(Op {
        name: Octets::from_vec(Vec::from_slice(alloc, name)?),
        params,
        result: answer,
        status: false,
        maybe: false,
    })
}
