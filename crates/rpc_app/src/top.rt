//! The top call: does what the words ask, over the outside that is handed in.
ghost use Rattle.std.specs.Prelude.{◌≡◌, map, string_bytes};
ghost use Rattle.rpc_app.specs.Running.{Comes, IsLeft, RunsAs};
ghost use Rattle.rpc_app.specs.Obeys.{shelf_from, output_from};
ghost use Rattle.rpc_app.specs.Serving.{doorway_from};
ghost use Rattle.rpc_app.specs.Calling.{dialling_from};

use crate::calling::call_for;
use crate::carry::carry_out;
use crate::say::refuse;
use crate::serving::serve_for;
use crate::words::{CallTask, ServeTask, Wanted, asked};
use rpc_base::{NoMemory, Shelf, Sink};
use rpc_outside::{Dial, Door, Link};
use std::alloc::Global;
use std::sync::Wait;
use std::thread::Threads;

/// What came of the words.
#[derive(Clone, Copy, Debug)]
pub enum Obeyed<'a> {
    /// The status: 0 done, 1 the words are refused, 2 a file is refused, 3 the shelf failed, 4 an output failed, 5 want of
    /// memory.
    Done(u8),
    /// The words ask for connections to be served. Nothing was done.
    Serve(ServeTask<'a>),
    /// The words ask for calls to be made. Nothing was done.
    Call(CallTask<'a>),
}

/// Does what the words ask, where that is a task of files. It always returns.
pub fn obey<'a, F: Shelf, S: Sink, L: Sink>(
    alloc: Global,
    words: &'a [String],
    shelf: &mut F,
    out: &mut S,
    log: &mut L,
) -> Obeyed<'a>
    ensures comes { Comes (map string_bytes words.now)
        (shelf_from F.files F.faults shelf.old shelf.new)
        (output_from S.faults S.written out.old out.new)
        (output_from L.faults L.written log.old log.new)
        result }
    ensures unused { IsLeft result → (shelf.new ≡ shelf.old) × (out.new ≡ out.old) × (log.new ≡ log.old) }
{
    let wanted = match asked(alloc, words) {
        Ok(wanted) => wanted,
        Err(NoMemory) => return Obeyed::Done(5),
    };
    match wanted {
        Some(Wanted::Task(task)) => Obeyed::Done(carry_out(alloc, task, shelf, out, log)),
        Some(Wanted::Serve(task)) => Obeyed::Serve(task),
        Some(Wanted::Call(task)) => Obeyed::Call(task),
        None => Obeyed::Done(refuse(out, b"refused: words\n", 1)),
    }
}

/// The program: does what the words ask, and answers the status: those of `obey`; where connections are served 0 where each
/// ended after a whole PDU, 8 where one didn't, and 7 where the door failed, which outweighs the others; where calls are made
/// 6 where a bind was refused or a call failed, 8 where a connection was lost, and 7 where the dial failed. `boot` is the
/// server's boot word.
pub fn run<R, F, D, Q, S, L>(
    rt: &R,
    alloc: Global,
    words: &[String],
    boot: u64,
    shelf: &mut F,
    door: &mut D,
    dial: &mut Q,
    out: &mut S,
    log: &mut L,
) -> u8
where
    R: Wait + Threads + Send + Sync + Copy + 'static,
    F: Shelf,
    D: Door,
    D::Link: 'static,
    Q: Dial,
    S: Sink,
    L: Sink,
    ensures { RunsAs D.Link.shows Q.Link.shows (map string_bytes words.now) boot
        (shelf_from F.files F.faults shelf.old shelf.new)
        (doorway_from D.shows door.old door.new)
        (dialling_from Q.shows dial.old dial.new)
        (output_from S.faults S.written out.old out.new)
        (output_from L.faults L.written log.old log.new)
        result }
{
    match obey(alloc, words, shelf, out, log) {
        Obeyed::Done(status) => status,
        Obeyed::Serve(task) => serve_for(rt, alloc, boot, task, shelf, door, out, log),
        Obeyed::Call(task) => call_for(alloc, task, shelf, dial, out),
    }
}
