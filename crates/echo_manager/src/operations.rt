//! Which operations are answered.
ghost use Rattle.std.specs.Prelude.{◌≡◌, map};
ghost use Rattle.std.specs.List.{list_all};
ghost use Rattle.ndr_value.specs.Forms.{form};
ghost use Rattle.ndr_table.specs.Tables.{op_form, param_form, result_form};
ghost use Rattle.echo_manager.specs.Steps as spec;

use ndr_table::{HandleUse, Op, Param};
use ndr_value::Shape;

fn comes_back(param: &Param) -> bool
    ensures { result ≡ spec.comes_back (param_form param.now) }
{
    !param.outward || param.inward
}

fn all_come_back(params: &[Param]) -> bool
    ensures { result ≡ list_all spec.comes_back (map param_form params.now) }
{
    for param in params {
        if !comes_back(param) {
            return false;
        }
    }
    true
}

fn is_word(shape: &Shape) -> bool
    ensures { result ≡ spec.is_word (form shape.now) }
{
    match shape {
        Shape::Uint(size) => *size == 4,
        _ => false,
    }
}

fn may_succeed(op: &Op) -> bool
    ensures { result ≡ spec.may_succeed op.now.status (result_form op.now.result) }
{
    match &op.result {
        None => true,
        Some(shape) => op.status && is_word(shape),
    }
}

fn has_none(uses: &[HandleUse]) -> bool
    ensures { result ≡ spec.has_none uses.now }
{
    uses.is_empty()
}

/// Whether each parameter that comes out goes in, none is a handle, and there is no result or an
/// `error_status_t`.
pub(crate) fn is_echoed(uses: &[HandleUse], op: &Op) -> bool
    ensures { result ≡ spec.is_echoed uses.now (op_form op.now) }
{
    has_none(uses) && all_come_back(&op.params) && may_succeed(op)
}
