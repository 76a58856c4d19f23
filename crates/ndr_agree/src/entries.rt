//! Messages as a whole.
ghost use Rattle.std.specs.Prelude.{◌≡◌, [], map, None, Some};
ghost use Rattle.ndr_value.specs.Forms.{form};
ghost use Rattle.ndr_value.specs.Values.{val, vals, no_val};
ghost use Rattle.ndr_table.specs.Tables.{param_form, result_form, op_form};
ghost use Rattle.ndr_model.specs.Named.{number};
ghost use Rattle.ndr_model.specs.Stub as stub;
ghost use Rattle.ndr_model.specs.Compare as spec;
ghost use Rattle.ndr_model.specs.Message.{enough};
ghost use Rattle.ndr_agree.specs.Views.{check_of, within, compare_in, entries_from, all_left};

use crate::call::Call;
use crate::check::Check;
use crate::compare::compare_value;
use crate::named::{goes, number as number_of};
use ndr_model::{Departure, Mark, Way};
use ndr_table::{Bounds, Param};
use ndr_value::{Shape, Value};

// Between a pointer and the next stand less than 1024 constructs and names, and there are 256 levels
// of pointers.
const ENOUGH: u32 = 257 * 1024;

// What stands in a stub for a parameter: its own reference has no octets.
fn own_shape(shape: &Shape) -> &Shape
    ensures { form result.now ≡ stub.of_param (form shape.now) }
{
    match shape {
        Shape::Ref(inner) => inner,
        _ => shape,
    }
}

// A number with a range, which stands at that index.
fn range_off(call: &Call<'_>, bounds: Bounds, number: Option<i128>, at: usize) -> Option<Departure>
    ensures { result ≡ within call.now spec.range_off bounds number at }
{
    match number {
        None => Some(Departure::Bound(at)),
        Some(number) => {
            if i128::from(bounds.low) <= number && number <= i128::from(bounds.high) {
                None
            } else {
                Some(Departure::Bound(at))
            }
        }
    }
}

fn compare_range(call: &Call<'_>, range: Option<Bounds>, value: &Value, check: &mut Check<'_>)
    ensures { check_of check.new ≡ within call.now spec.compare_range range (val value.now) (check_of check.old) }
{
    match range {
        None => {}
        Some(bounds) => match check.left.split_first() {
            None => check.stray(),
            Some((mark, rest)) => match mark {
                Mark::Ranged(at) => check.judge(
                    range_off(call, bounds, number_of(value), *at),
                    rest,
                ),
                _ => check.stray(),
            },
        },
    }
}

fn compare_entry(
    call: &Call<'_>,
    shape: &Shape,
    range: Option<Bounds>,
    value: &Value,
    check: &mut Check<'_>,
)
    ensures { check_of check.new ≡ within call.now spec.compare_range range (val value.now) (compare_in call.now enough 256 no_val None None (form shape.now) (val value.now) (check_of check.old)) }
{
    compare_value(ENOUGH, call, 256, &[], None, None, shape, value, check);
    compare_range(call, range, value, check);
}

// No value is left.
fn ended(call: &Call<'_>, rest: &[Value], check: &mut Check<'_>)
    ensures { check_of check.new ≡ within call.now spec.compare_entries enough [] (vals rest.now) (check_of check.old) }
{
    if !rest.is_empty() {
        check.stray();
    }
}

fn compare_result(call: &Call<'_>, rest: &[Value], check: &mut Check<'_>)
    ensures { check_of check.new ≡ within call.now spec.compare_entries enough (stub.last_entry call.now.way (result_form call.now.op.now.result)) (vals rest.now) (check_of check.old) }
{
    match call.way {
        Way::Request => ended(call, rest, check),
        Way::Response => match &call.op.result {
            None => ended(call, rest, check),
            Some(shape) => match rest.split_first() {
                None => check.stray(),
                Some((value, others)) => {
                    compare_entry(call, shape, None, value, check);
                    ended(call, others, check)
                }
            },
        },
    }
}

fn compare_params(call: &Call<'_>, params: &[Param], values: &[Value], check: &mut Check<'_>)
    ensures { check_of check.new ≡ within call.now spec.compare_entries enough (entries_from call.now params.now) (vals values.now) (check_of check.old) }
{
    let mut rest = values;
    for param in params {
        if goes(call.way, param) {
            match rest.split_first() {
                None => return check.stray(),
                Some((value, others)) => {
                    compare_entry(call, own_shape(&param.shape), param.range, value, check);
                    rest = others;
                }
            }
        }
    }
    compare_result(call, rest, check)
}

/// The first count, switch value or number with a range that disagrees with what names it, in the order
/// of the octets. `marks` is what was noted while the message was read. It takes no memory.
pub fn first_off(call: &Call<'_>, marks: &[Mark]) -> Option<Departure>
    ensures { result ≡ (within call.now spec.compare_entries enough (stub.entries call.now.way (op_form call.now.op.now)) (vals call.now.said.now.values.items) (all_left marks.now)).off }
{
    let mut check = Check {
        off: None,
        left: marks,
    };
    compare_params(
        call,
        call.op.params.as_slice(),
        call.said.values.as_slice(),
        &mut check,
    );
    check.off
}
