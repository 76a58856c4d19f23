//! Calls are made.
ghost use Rattle.std.specs.Prelude.{◌≡◌, ◌≢◌, ◌≤◌, IfOk, IfErr};
ghost use Rattle.ndr_table.specs.Shown.{shown};
ghost use Rattle.client_script.specs.declared.calling.CallEnd.TheVariants as ends;
ghost use Rattle.rpc_app.specs.Calling as spec;
ghost use Rattle.rpc_app.specs.Calling.{HasInterface, RefusesCall, IsSaid, IsTold, CallsWith, CallsFor, printed_of, dialling_from};
ghost use Rattle.rpc_app.specs.Commands.{call_limit};
ghost use Rattle.rpc_app.specs.Making.{WhyNot};
ghost use Rattle.rpc_app.specs.Runs.{IsLoaded};
ghost use Rattle.rpc_app.specs.Words.{told_caller};
ghost use Rattle.rpc_app.specs.Obeys.{shelf_from, output_from};

use crate::limits::CALL_LIMIT;
use crate::make::line_refusal;
use crate::say::end_with;
use crate::serving::refuse_text;
use crate::task::{TaskFault, load, text_table};
use crate::words::CallTask;
use client_script::{CallEnd, Called, call};
use ndr_table::Table;
use rpc_base::{NoMemory, Octets, Shelf, Sink};
use rpc_outside::{Address, Dial, Link};
use std::alloc::Global;

/// The table of an interface, and a script of calls of its operations.
#[derive(Drop)]
struct CallFiles {
    table: Table,
    script: Vec<u8>,
}

/// Loads the files of a call: the interface text is loaded, read and checked first, and then the script is loaded.
fn call_files<F: Shelf>(
    alloc: Global,
    task: CallTask<'_>,
    shelf: &mut F,
) -> Result<CallFiles, TaskFault>
    ensures interface { IfOk result (λ f. HasInterface (F.files shelf.old) (told_caller task.entry).idl (shown f.table)) }
    ensures script { IfOk result (λ f. IsLoaded call_limit (F.files shelf.old) (told_caller task.entry).script f.script.items) }
    ensures fault { IfErr result (WhyNot (RefusesCall (F.files shelf.old) (told_caller task.entry)) (F.faults shelf.old) (F.faults shelf.new)) }
{
    let table = text_table(alloc, task.idl, shelf)?;
    let script = load(alloc, CALL_LIMIT, task.script, shelf)?;
    Ok(CallFiles { table, script })
}

/// The status of a script's end.
fn status_of(end: CallEnd) -> u8
    ensures { result ≡ spec.status_of end }
{
    match end {
        CallEnd::Done => 0,
        CallEnd::Failed => 6,
        CallEnd::Lost => 8,
        CallEnd::Line(_) => 2,
        CallEnd::DialFault => 7,
        CallEnd::Memory => 5,
    }
}

/// What is printed of a script that ended so: nothing where memory ran out.
fn printed(alloc: Global, end: CallEnd, told: Octets) -> Result<Octets, NoMemory>
    ensures { IfOk result (λ text. (end ≢ ends.Memory) × (text ≡ printed_of end told)) }
{
    let mut text = told;
    match end {
        CallEnd::Line(line) => text.append(line_refusal(alloc, line)?.as_slice())?,
        CallEnd::Memory => return Err(NoMemory),
        CallEnd::Done | CallEnd::Failed | CallEnd::Lost | CallEnd::DialFault => {}
    }
    Ok(text)
}

/// Puts what is printed of a script that ended so.
fn put_text<S: Sink>(out: &mut S, text: &Octets, end: CallEnd) -> u8
    ensures { IsSaid (output_from S.faults S.written out.old out.new)
        text.now (spec.status_of end) result }
{
    end_with(out, text.as_slice(), status_of(end))
}

/// Puts what a script told.
fn put_called<S: Sink>(alloc: Global, called: Called, out: &mut S) -> u8
    ensures { IsTold (output_from S.faults S.written out.old out.new)
        called.end result called.out }
{
    let Called { out: told, end } = called;
    match printed(alloc, end, told) {
        Ok(text) => put_text(out, &text, end),
        Err(NoMemory) => 5,
    }
}

/// Plays a script, and puts what it told.
fn call_with<Q: Dial, S: Sink>(
    alloc: Global,
    files: &CallFiles,
    at: Address,
    dial: &mut Q,
    out: &mut S,
) -> u8
    ensures { CallsWith Q.Link.shows (shown files.now.table) files.now.script.items at
        (dialling_from Q.shows dial.old dial.new)
        (output_from S.faults S.written out.old out.new)
        result }
{
    let called = call(alloc, &files.table, files.script.as_slice(), at, dial);
    put_called(alloc, called, out)
}

/// Makes the calls of a script: the files are loaded first, and then the dial is used.
pub fn call_for<F: Shelf, Q: Dial, S: Sink>(
    alloc: Global,
    task: CallTask<'_>,
    shelf: &mut F,
    dial: &mut Q,
    out: &mut S,
) -> u8
    ensures { CallsFor Q.Link.shows (told_caller task.entry)
        (shelf_from F.files F.faults shelf.old shelf.new)
        (dialling_from Q.shows dial.old dial.new)
        (output_from S.faults S.written out.old out.new)
        result }
{
    match call_files(alloc, task, shelf) {
        Ok(files) => call_with(alloc, &files, task.at, dial, out),
        Err(TaskFault::Refused(line)) => refuse_text(out, line),
        Err(TaskFault::Failed) => 3,
        Err(TaskFault::Memory) => 5,
    }
}
