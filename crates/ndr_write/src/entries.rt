//! Messages as a whole.
ghost use Rattle.std.specs.Prelude.{◌≡◌, ◌++◌, [], map, OnOk, OnErr, IfOk};
ghost use Rattle.ndr_value.specs.Forms.{form};
ghost use Rattle.ndr_value.specs.Values.{val, vals, no_val, msg};
ghost use Rattle.ndr_table.specs.Tables.{param_form};
ghost use Rattle.ndr_model.specs.Stub as stub;
ghost use Rattle.ndr_agree.specs.Views.{types_in, call_of};
ghost use Rattle.ndr_model.specs.Written as spec;
ghost use Rattle.ndr_write.specs.Views.{result_in, under, Adds};

use crate::state::{Out, Pending, Pointed, Writer};
use crate::whole::put_whole;
use ndr_agree::Call;
use ndr_model::Way;
use ndr_table::Param;
use ndr_value::{Shape, Value};
use rpc_base::{NoMemory, Order};
use std::alloc::Global;
use std::mem;

// Whether a parameter goes that way.
fn goes(way: Way, param: &Param) -> bool
    ensures { result ≡ stub.goes way (param_form param.now) }
{
    match way {
        Way::Request => param.inward,
        Way::Response => param.outward,
    }
}

// What stands in a stub for a parameter: its own reference has no octets.
fn own_shape(shape: &Shape) -> &Shape
    ensures { form result.now ≡ stub.of_param (form shape.now) }
{
    match shape {
        Shape::Ref(inner) => inner,
        _ => shape,
    }
}

// A parameter or a result: it stands on level 0 and has 256 below it.
fn put_entry<'a>(
    writer: &Writer<'a>,
    shape: &'a Shape,
    value: &'a Value,
    out: &mut Out,
) -> Result<(), NoMemory>
    ensures { Adds result out.old [] out.new [] (under writer.now spec.whole 257 (record { body = no_val; shape = form shape.now; value = val value.now })) }
{
    let pending = Pending {
        body: &[],
        shape,
        what: Pointed::Value(value),
    };
    put_whole(257, writer, pending, out)
}

fn put_result<'a>(writer: &Writer<'a>, rest: &'a [Value], out: &mut Out) -> Result<(), NoMemory>
    ensures { Adds result out.old [] out.new [] (under writer.now spec.each_entry (stub.last_entry writer.now.call.way (result_in writer.now)) (vals rest.now)) }
{
    match writer.call.way {
        Way::Request => Ok(()),
        Way::Response => match &writer.call.op.result {
            None => Ok(()),
            Some(shape) => match rest.split_first() {
                None => Ok(()),
                Some((value, _)) => put_entry(writer, shape, value, out),
            },
        },
    }
}

fn put_params<'a>(
    writer: &Writer<'a>,
    params: &'a [Param],
    values: &'a [Value],
    out: &mut Out,
) -> Result<(), NoMemory>
    ensures { Adds result out.old [] out.new [] (under writer.now spec.each_entry (stub.entries_of writer.now.call.way (map param_form params.now) (result_in writer.now)) (vals values.now)) }
{
    let mut rest = values;
    for param in params {
        if goes(writer.call.way, param) {
            match rest.split_first() {
                None => return Ok(()),
                Some((value, others)) => {
                    put_entry(writer, own_shape(&param.shape), value, out)?;
                    rest = others;
                }
            }
        }
    }
    put_result(writer, rest, out)
}

// The canonical octets, in the room of an empty vector.
#[tactic(auto, unfolding(ndr_model::specs::Written::stub))]
fn stub_in(alloc: Global, call: &Call<'_>, order: Order, room: Vec<u8>) -> Result<Vec<u8>, NoMemory>
    requires { room.items ≡ [] }
    ensures { IfOk result (λ v. v.items ≡ spec.stub (types_in call.now) (call_of call.now).op (call_of call.now).way order (call_of call.now).asked (call_of call.now).said) }
{
    let writer = Writer {
        alloc,
        call: *call,
        order,
    };
    let mut out = Out {
        octets: room,
        count: 0,
        items: Vec::new(alloc),
    };
    put_params(
        &writer,
        call.op.params.as_slice(),
        call.said.values.as_slice(),
        &mut out,
    )?;
    Ok(out.octets)
}

/// Adds the canonical octets of a message. At a refusal `into` is as before.
///
/// # Errors
///
/// `NoMemory` where there is no memory for them.
pub fn write(call: &Call<'_>, order: Order, into: &mut Vec<u8>) -> Result<(), NoMemory>
    ensures ok { OnOk result (into.new.items ≡ into.old.items ++ spec.stub (types_in call.now) (call_of call.now).op (call_of call.now).way order (call_of call.now).asked (call_of call.now).said) }
    ensures err { OnErr result (into.new.items ≡ into.old.items) }
{
    let alloc = *into.allocator();
    if into.is_empty() {
        let room = mem::replace(into, Vec::new(alloc));
        *into = stub_in(alloc, call, order, room)?;
        return Ok(());
    }
    let stub = stub_in(alloc, call, order, Vec::new(alloc))?;
    into.extend_from_slice(stub.as_slice())?;
    Ok(())
}
