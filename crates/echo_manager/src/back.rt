//! The response.
ghost use Rattle.std.specs.Prelude.{◌≡◌, [], map, IfOk, OnOk};
ghost use Rattle.ndr_value.specs.Forms.{types_of};
ghost use Rattle.ndr_value.specs.Values.{Vals, msg, then_val, val, vals};
ghost use Rattle.ndr_model.specs.Named.{nth};
ghost use Rattle.ndr_table.specs.Tables.{op_form, param_form, result_form};
ghost use Rattle.desk_kit.specs.Rows.{vals_then};
ghost use Rattle.echo_manager.specs.Numbered as numbers;
ghost use Rattle.echo_manager.specs.Steps as spec;

use crate::copies::numbered;
use crate::met::Met;
use crate::walk::{Walk, met_in, value_at};
use ndr_table::{Op, Param};
use ndr_value::{Message, Shape, Value, Values, Wires};
use rpc_base::NoMemory;
use std::alloc::Global;

// The value of a parameter that comes back, behind the others.
#[tactic(auto, using(desk_kit::proofs::Rows::rows))]
fn bring(alloc: Global, met: &Met, value: &Value, into: &mut Values) -> Result<(), NoMemory>
    ensures { OnOk result ((rest : Vals) → vals_then into.new.items rest ≡ vals_then into.old.items (then_val (numbers.numbered met.now (val value.now)) rest)) }
{
    into.push(numbered(value, met, alloc)?)?;
    Ok(())
}

// The parameters that come out, of those that go in.
fn bring_back(
    alloc: Global,
    met: &Met,
    params: &[Param],
    values: &[Value],
    into: &mut Values,
) -> Result<(), NoMemory>
    ensures { OnOk result ((last : Vals) → vals_then into.new.items last ≡ vals_then into.old.items (numbers.brought_back met.now last (map param_form params.now) (vals values.now))) }
{
    let mut rest = values;
    for param in params {
        if param.inward {
            match rest.split_first() {
                // each parameter that goes in has a value
                None => return Err(NoMemory),
                Some((value, others)) => {
                    if param.outward {
                        bring(alloc, met, value, into)?;
                    }
                    rest = others;
                }
            }
        }
    }
    Ok(())
}

// The result that says success, where there is one.
#[tactic(auto, using(desk_kit::proofs::Rows::rows))]
fn succeed(shape: &Option<Shape>, into: &mut Values) -> Result<(), NoMemory>
    ensures { OnOk result (vals into.new.items ≡ vals_then into.old.items (spec.success (result_form shape.now))) }
{
    match shape {
        None => Ok(()),
        Some(_) => {
            into.push(Value::Uint(0))?;
            Ok(())
        }
    }
}

// The values that come out, and success.
fn values(alloc: Global, met: &Met, op: &Op, values: &[Value]) -> Result<Values, NoMemory>
    ensures { IfOk result (λ vs. vals vs.items ≡ numbers.brought_back met.now (spec.success (op_form op.now).result) (op_form op.now).params (vals values.now)) }
{
    let mut back = Vec::new(alloc);
    bring_back(alloc, met, &op.params, values, &mut back)?;
    succeed(&op.result, &mut back)?;
    Ok(back)
}

// An item of the heap, behind the others.
fn bring_item(
    alloc: Global,
    met: &Met,
    heap: &[Value],
    number: u32,
    into: &mut Values,
) -> Result<(), NoMemory>
    ensures { OnOk result ((rest : Vals) → vals_then into.new.items rest ≡ vals_then into.old.items (numbers.then_item met.now (nth (vals heap.now) number) rest)) }
{
    match value_at(heap, number as usize) {
        None => Ok(()),
        Some(value) => bring(alloc, met, value, into),
    }
}

// The items that were met.
#[tactic(auto, using(desk_kit::proofs::Rows::rows))]
fn items(alloc: Global, met: &Met, heap: &[Value]) -> Result<Values, NoMemory>
    ensures { IfOk result (λ vs. vals vs.items ≡ numbers.items_of (vals heap.now) met.now met.now) }
{
    let mut back = Vec::new(alloc);
    let order = met.order();
    for number in order {
        bring_item(alloc, met, heap, *number, &mut back)?;
    }
    Ok(back)
}

/// The echo of a request: the parameters that come out as they came in, and success.
///
/// # Errors
///
/// `NoMemory` where there is no memory for it.
pub fn echo(alloc: Global, types: &[Shape], op: &Op, asked: &Message) -> Result<Message, NoMemory>
    ensures { IfOk result (λ m. msg m ≡ spec.echo (types_of types.now) (op_form op.now) (msg asked.now)) }
{
    let walk = Walk {
        alloc,
        types,
        heap: &asked.heap,
    };
    let mut met = Met::new(alloc, asked.heap.len())?;
    met_in(&walk, &op.params, &asked.values, &mut met)?;
    Ok(Message {
        values: values(alloc, &met, op, &asked.values)?,
        heap: items(alloc, &met, &asked.heap)?,
        wires: Wires::new(alloc),
    })
}
