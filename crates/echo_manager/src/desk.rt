//! The desk behind an interface.
ghost use Rattle.std.specs.Prelude.{◌≡◌, ◌<◌, IfOk, length};
ghost use Rattle.ndr_value.specs.Values.{msg};
ghost use Rattle.ndr_table.specs.Shown.{shown};
ghost use Rattle.manager_api.specs.Answers.{ans};
ghost use Rattle.manager_api.specs.Messages.{ForOp};
ghost use Rattle.echo_manager.specs.Steps as spec;

use crate::back::echo;
use crate::operations::is_echoed;
use handle_model::{CookieRow, DueItem, Rundown};
use manager_api::{Answer, Desk, Kepts, Probe, or_no_memory};
use ndr_codec::{Way, fits};
use ndr_table::Table;
use ndr_value::Message;
use rpc_base::{NoMemory, Status};
use std::alloc::Global;

/// A desk that serves the interface of a table. It has no handles, and a call leaves it as it was.
#[derive(Drop)]
pub struct EchoDesk<'t> {
    alloc: Global,
    table: &'t Table,
}

impl<'t> EchoDesk<'t> {
    /// One that serves that table. It takes no memory.
    pub fn new(alloc: Global, table: &'t Table) -> EchoDesk<'t>
        ensures { result.table.now ≡ table.now }
    {
        EchoDesk { alloc, table }
    }

    /// How many handles were issued and are neither closed nor run down: none.
    pub fn open_handles(&self) -> usize
        ensures { result ≡ 0 }
    {
        0
    }
}

fn unspecified() -> Answer
    ensures { ans result ≡ spec.unspecified }
{
    Answer::Fault(Status::NCA_S_FAULT_UNSPEC)
}

// The echo, where it is a response.
fn echoed(alloc: Global, table: &Table, op: u16, message: &Message) -> Result<Answer, NoMemory>
    requires { op < length (shown table.now).ops }
    ensures { IfOk result (λ a. ForOp (shown table.now) op (λ o. spec.Says (shown table.now) (msg message.now) o (ans a))) }
{
    let Some(form) = table.op(op) else {
        return Err(NoMemory);
    };
    let response = echo(alloc, table.types(), form, message)?;
    if fits(alloc, table, op, Way::Response, Some(message), &response)? {
        Ok(Answer::Out(response, Kepts::new(alloc)))
    } else {
        Ok(unspecified())
    }
}

fn answered(alloc: Global, table: &Table, op: u16, message: &Message) -> Result<Answer, NoMemory>
    requires { op < length (shown table.now).ops }
    ensures { IfOk result (λ a. ForOp (shown table.now) op (λ o. spec.Echoes (shown table.now) op (msg message.now) o (ans a))) }
{
    let Some(uses) = table.handle_uses(op) else {
        return Err(NoMemory);
    };
    let Some(form) = table.op(op) else {
        return Err(NoMemory);
    };
    if is_echoed(uses.as_slice(), form) {
        echoed(alloc, table, op, message)
    } else {
        Ok(unspecified())
    }
}

impl<'t> Rundown for EchoDesk<'t> {
    ghost use Rattle.std.specs.Prelude.{◌≡◌};

    ghost runs_down = { λ before item after. after ≡ before };

    fn rundown(&mut self, _item: DueItem) {}
}

impl<'t> Desk for EchoDesk<'t> {
    ghost use Rattle.std.specs.Prelude.{◌≡◌};
    ghost use Rattle.ndr_table.specs.Shown.{shown};
    ghost use Rattle.echo_manager.specs.Steps.{Answers};

    ghost table = { λ desk. shown desk.table.now };

    ghost may = { λ before call told answer after. Answers (shown before.table.now) call.op call.message answer × (after ≡ before) };

    fn call<P: Probe>(
        &mut self,
        _iface: u16,
        op: u16,
        message: Message,
        _cookies: CookieRow,
        _probe: &mut P,
    ) -> Answer {
        or_no_memory(answered(self.alloc, self.table, op, &message))
    }
}
