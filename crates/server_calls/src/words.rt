//! What the end of a call says.
ghost use Rattle.std.specs.Prelude.{◌≡◌, ◌<◌, ◌++◌, IfOk, OnOk, length, slice_get, option_to_list, Some};
ghost use Rattle.ndr_value.specs.Values.{msg};
ghost use Rattle.ndr_table.specs.Shown.{shown};
ghost use Rattle.ndr_table.specs.Tables.{OpForm};
ghost use Rattle.ndr_model.specs.declared.way.Way.TheVariants.{Response};
ghost use Rattle.ndr_model.specs.Written.{stub};
ghost use Rattle.manager_api.specs.Answers.{ans};
ghost use Rattle.conn_histories.specs.Ends as spec;
ghost use Rattle.server_calls.specs.Said.{SaysOfOperation};

use handle_model::{Asked, Home, Outcome, Said, Slot};
use manager_api::Answer;
use ndr_codec::{EncodeFault, Way, encode};
use ndr_table::Table;
use ndr_value::{Message, Wires};
use rpc_base::{NoMemory, Octets, Order, Status, WireHandle};
use std::alloc::Global;

// The handle that goes out at a slot.
fn wire_at(home: Home, slot: &Slot, outcome: &Outcome) -> Option<WireHandle>
    ensures { option_to_list result ≡ spec.wire_at home slot.now outcome.now }
{
    match slot {
        Slot::Shares { .. } | Slot::Holds { .. } => None,
        Slot::Changes { wire, .. } => match outcome {
            Outcome::Keep(_) => Some(*wire),
            _ => Some(WireHandle::NULL),
        },
        Slot::Opens { .. } => match outcome {
            Outcome::Issue { serial, .. } => Some(home.wire(*serial)),
            _ => Some(WireHandle::NULL),
        },
    }
}

fn add_wire(wire: Option<WireHandle>, into: &mut Wires) -> Result<(), NoMemory>
    ensures { OnOk result (into.new ≡ into.old ++ option_to_list wire) }
{
    match wire {
        None => Ok(()),
        Some(wire) => into.push(wire),
    }
}

fn add_wires(
    home: Home,
    slots: &[Slot],
    results: &[Outcome],
    into: &mut Wires,
) -> Result<(), NoMemory>
    ensures { OnOk result (into.new ≡ into.old ++ spec.wires_at home slots.now results.now) }
{
    match (slots.split_first(), results.split_first()) {
        (Some((slot, slots)), Some((outcome, results))) => {
            add_wire(wire_at(home, slot, outcome), into)?;
            add_wires(home, slots, results, into)
        }
        _ => Ok(()),
    }
}

// The handles that go out of a call.
fn wires_at(
    alloc: Global,
    home: Home,
    slots: &[Slot],
    results: &[Outcome],
) -> Result<Wires, NoMemory>
    ensures { IfOk result (λ wires. wires ≡ spec.wires_at home slots.now results.now) }
{
    let mut wires = Wires::new(alloc);
    add_wires(home, slots, results, &mut wires)?;
    Ok(wires)
}

// The octets of a response, or why there are none.
fn out(
    alloc: Global,
    table: &Table,
    op: u16,
    order: Order,
    asked: &Message,
    response: &Message,
) -> Said
    requires { op < length (shown table.now).ops }
    ensures { (o : OpForm) → slice_get (shown table.now).ops op ≡ Some o → spec.SaysStub (stub (shown table.now).types o Response order (Some (msg asked.now)) (msg response.now)) result }
{
    let mut octets = Vec::new(alloc);
    match encode(
        table,
        op,
        Way::Response,
        order,
        Some(asked),
        response,
        &mut octets,
    ) {
        Ok(()) => Said::Out(Octets::from_vec(octets)),
        Err(EncodeFault::TooLong) => Said::Fault(Status::NCA_S_FAULT_UNSPEC),
        Err(EncodeFault::Memory) => Said::Fault(Status::NCA_S_FAULT_REMOTE_NO_MEMORY),
    }
}

/// What the end of a call says, by its manager's answer: the octets of the response with the handles that
/// go out, as they are after these results; nca_s_fault_unspec where they are more than a stub may have;
/// or the fault.
pub fn said(
    alloc: Global,
    table: &Table,
    home: Home,
    call: &Asked,
    asked: &Message,
    results: &[Outcome],
    answer: Answer,
) -> Said
    requires { call.now.op < length (shown table.now).ops }
    ensures { SaysOfOperation (shown table.now) call.now.op call.now.order (msg asked.now) (spec.wires_at home call.now.slots results.now) (ans answer) result }
{
    match answer {
        Answer::Fault(status) => Said::Fault(status),
        Answer::Out(response, _) => {
            let Ok(wires) = wires_at(alloc, home, call.slots.as_slice(), results) else {
                return Said::Fault(Status::NCA_S_FAULT_REMOTE_NO_MEMORY);
            };
            let response = Message { wires, ..response };
            out(alloc, table, call.op, call.order, asked, &response)
        }
    }
}
