//! Numbers with ranges.
ghost use Rattle.std.specs.Prelude.{◌≡◌, ◌↔◌, IsTrue, map, Some};
ghost use Rattle.ndr_value.specs.Values.{val, vals, msg};
ghost use Rattle.ndr_table.specs.Tables.{param_form, result_form, op_form};
ghost use Rattle.ndr_model.specs.Stub as stub;
ghost use Rattle.ndr_agree.specs.Ranges as spec;

use crate::named::{goes, number};
use ndr_model::Way;
use ndr_table::{Bounds, Op, Param};
use ndr_value::{Message, Value};

fn is_within(bounds: Bounds, value: &Value) -> bool
    ensures { result ≡ spec.holds (Some bounds) (val value.now) }
{
    match number(value) {
        None => false,
        Some(number) => i128::from(bounds.low) <= number && number <= i128::from(bounds.high),
    }
}

fn holds(range: Option<Bounds>, value: &Value) -> bool
    ensures { result ≡ spec.holds range (val value.now) }
{
    match range {
        None => true,
        Some(bounds) => is_within(bounds, value),
    }
}

// The result has no range, and is there where it is part of that way.
fn result_in_range(op: &Op, way: Way, rest: &[Value]) -> bool
    ensures { result ≡ spec.all_in_range (stub.last_entry way (result_form op.now.result)) (vals rest.now) }
{
    match way {
        Way::Request => true,
        Way::Response => match &op.result {
            None => true,
            Some(_) => match rest.split_first() {
                None => false,
                Some(_) => true,
            },
        },
    }
}

fn all_in_range(op: &Op, params: &[Param], way: Way, values: &[Value]) -> bool
    ensures { result ≡ spec.all_in_range (stub.entries_of way (map param_form params.now) (result_form op.now.result)) (vals values.now) }
{
    let mut rest = values;
    for param in params {
        if goes(way, param) {
            match rest.split_first() {
                None => return false,
                Some((value, others)) => {
                    if !holds(param.range, value) {
                        return false;
                    }
                    rest = others;
                }
            }
        }
    }
    result_in_range(op, way, rest)
}

/// Whether each parameter of that way with a range holds a number in it. It takes no memory.
pub fn op_in_range(op: &Op, way: Way, message: &Message) -> bool
    ensures { IsTrue result ↔ spec.InRange (stub.entries way (op_form op.now)) (msg message.now).values }
{
    all_in_range(op, op.params.as_slice(), way, message.values.as_slice())
}
