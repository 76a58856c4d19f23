//! A server of hello over a door.
ghost use Rattle.std.specs.Prelude.{◌≤◌, IfErr, IfOk};
ghost use Rattle.ndr_table.specs.Shown.{shown};
ghost use Rattle.server_command.specs.Serves as served;
ghost use Rattle.hello_server.specs.Calls.{May, tables_with};
ghost use Rattle.hello_server.specs.Serves.{ServesHello, IsWhy};

use crate::service::HelloService;
use desk_counts::Tally;
use desk_text::{TextFault, table_of};
use hello_desk::HELLO_IDL;
use ndr_table::Table;
use rpc_base::OutFault;
use rpc_outside::{Address, Door, Link};
use server_command::{Printed, serve_over};
use std::alloc::Global;
use std::sync::{Arc, Wait};
use std::thread::Threads;

/// Why nothing is printed.
#[derive(Clone, Copy, Debug, PartialEq, Eq)]
pub enum ServeFault {
    /// The text of the interface has no table.
    Text(TextFault),
    /// The door failed, or memory ran out.
    Out(OutFault),
}

/// Connections are served with hello of that table, the endpoint map and management.
fn serve_with<R, D>(
    rt: R,
    alloc: Global,
    boot: u64,
    hello: Table,
    door: &mut D,
    at: Address,
    most: u32,
) -> Result<Printed, OutFault>
where
    R: Wait + Threads + Send + Sync + Copy + 'static,
    D: Door,
    D::Link: 'static,
    requires { most ≤ 1000000 }
    ensures serves { IfOk result (λ p. served.Serves D.Link.shows (May (shown hello)) (tables_with (shown hello)) boot (D.shows door.old) at most (D.shows door.new) p.out p.log p.status) }
    ensures why { IfErr result (served.IsWhy D.Link.shows (May (shown hello)) (tables_with (shown hello)) boot (D.shows door.old) at most (D.shows door.new)) }
{
    let tally = Arc::new(alloc, Tally::new())?;
    let service = HelloService::new(alloc, at, hello, Arc::try_clone(&tally)?)?;
    let service = Arc::new(alloc, service)?;
    serve_over(rt, alloc, boot, &service, (), door, at, most, &tally)
}

/// A server of that boot word listens at the address, and serves up to so many connections that come to the door, with
/// hello, the endpoint map and management. The marshalling table of hello is that of its text.
///
/// # Errors
///
/// `Text` where the text of the interface has no table. `Out` where the door failed or there is no memory: either no link was
/// handed out, or there is no memory for the texts of the connections that were served.
pub fn serve<R, D>(
    rt: R,
    alloc: Global,
    boot: u64,
    door: &mut D,
    at: Address,
    most: u32,
) -> Result<Printed, ServeFault>
where
    R: Wait + Threads + Send + Sync + Copy + 'static,
    D: Door,
    D::Link: 'static,
    requires { most ≤ 1000000 }
    ensures serves { IfOk result (λ p. ServesHello D.Link.shows boot (D.shows door.old) at most (D.shows door.new) p.out p.log p.status) }
    ensures why { IfErr result (IsWhy D.Link.shows boot (D.shows door.old) at most (D.shows door.new)) }
{
    let hello = match table_of(alloc, HELLO_IDL.as_bytes()) {
        Ok(table) => table,
        Err(fault) => return Err(ServeFault::Text(fault)),
    };
    match serve_with(rt, alloc, boot, hello, door, at, most) {
        Ok(printed) => Ok(printed),
        Err(fault) => Err(ServeFault::Out(fault)),
    }
}
