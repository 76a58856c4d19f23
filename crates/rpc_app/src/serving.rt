//! Connections are served.
ghost use Rattle.std.specs.Prelude.{◌≡◌, ◌⊎◌, ◌≤◌};
ghost use Rattle.rpc_base.specs.Causes.{Rose};
ghost use Rattle.rpc_app.specs.Runs.{Gains, GainsFront};
ghost use Rattle.server_command.specs.Tables.{shown_by};
ghost use Rattle.rpc_app.specs.Serving.{IsPut, ServesWith, ServesFor, doorway_from};
ghost use Rattle.rpc_app.specs.Words.{told_server};
ghost use Rattle.rpc_app.specs.Obeys.{shelf_from, output_from};

use crate::say::{print, refuse};
use crate::task::{TaskFault, echo_of};
use crate::words::ServeTask;
use ndr_table::Table;
use rpc_base::{OutFault, Shelf, Sink};
use rpc_outside::{Door, Link};
use server_command::{Printed, serve};
use std::alloc::Global;
use std::sync::Wait;
use std::thread::Threads;

/// Puts what was printed of the connections.
fn put_served<S: Sink, L: Sink>(printed: &Printed, out: &mut S, log: &mut L) -> u8
    ensures { IsPut
        (output_from S.faults S.written out.old out.new)
        (output_from L.faults L.written log.old log.new)
        printed.now.out printed.now.log printed.now.status result }
{
    let put = print(printed.out.as_slice(), printed.log.as_slice(), out, log);
    if put == 0 {
        return printed.status;
    }
    if printed.status == 7 {
        return 7;
    }
    put
}

/// Puts the refusal of an interface text, or of a script.
pub fn refuse_text<S: Sink>(out: &mut S, line: Vec<u8>) -> u8
    ensures known { (result ≡ 2) ⊎ (result ≡ 4) }
    ensures said { result ≡ 2 → Gains (S.written out.old) (S.written out.new) line.items }
    ensures failed { result ≡ 4 → Rose (S.faults out.old) (S.faults out.new) }
    ensures front { result ≡ 4 → GainsFront (S.written out.old) (S.written out.new) line.items }
{
    refuse(out, line.as_slice(), 2)
}

/// Serves connections with the built-in interfaces and that of an echo.
fn serve_with<R, D, S, L>(
    rt: &R,
    alloc: Global,
    boot: u64,
    task: ServeTask<'_>,
    echo: Option<Table>,
    door: &mut D,
    out: &mut S,
    log: &mut L,
) -> u8
where
    R: Wait + Threads + Send + Sync + Copy + 'static,
    D: Door,
    D::Link: 'static,
    S: Sink,
    L: Sink,
    requires { task.most ≤ 1000000 }
    ensures { ServesWith D.Link.shows (shown_by (λ t. t) echo) (told_server task.entry) boot
        (doorway_from D.shows door.old door.new)
        (output_from S.faults S.written out.old out.new)
        (output_from L.faults L.written log.old log.new)
        result }
{
    match serve(*rt, alloc, boot, echo, door, task.at, task.most) {
        Ok(printed) => put_served(&printed, out, log),
        Err(OutFault::Failed) => 7,
        Err(OutFault::Memory) => 5,
    }
}

/// Serves connections: the interface text is loaded, read and checked first, and then the door is used.
pub fn serve_for<R, F, D, S, L>(
    rt: &R,
    alloc: Global,
    boot: u64,
    task: ServeTask<'_>,
    shelf: &mut F,
    door: &mut D,
    out: &mut S,
    log: &mut L,
) -> u8
where
    R: Wait + Threads + Send + Sync + Copy + 'static,
    F: Shelf,
    D: Door,
    D::Link: 'static,
    S: Sink,
    L: Sink,
    requires { task.most ≤ 1000000 }
    ensures { ServesFor D.Link.shows (told_server task.entry) boot
        (shelf_from F.files F.faults shelf.old shelf.new)
        (doorway_from D.shows door.old door.new)
        (output_from S.faults S.written out.old out.new)
        (output_from L.faults L.written log.old log.new)
        result }
{
    match echo_of(alloc, task.idl, shelf) {
        Ok(echo) => serve_with(rt, alloc, boot, task, echo, door, out, log),
        Err(TaskFault::Refused(line)) => refuse_text(out, line),
        Err(TaskFault::Failed) => 3,
        Err(TaskFault::Memory) => 5,
    }
}
