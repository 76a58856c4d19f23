//! The program over what is handed in: its words, a door and two outputs.
use crate::served::{ServeFault, serve};
use crate::words::read_words;
use desk_text::TextFault;
use rpc_base::{OutFault, Sink, put_all};
use rpc_outside::{Door, Link};
use server_command::Printed;
use std::alloc::Global;
use std::sync::Wait;
use std::thread::Threads;

/// Puts what was printed. A failed door outweighs a failed output.
fn put<S: Sink, L: Sink>(printed: &Printed, out: &mut S, log: &mut L) -> u8 {
    let is_put = put_all(out, printed.out.as_slice()).is_ok()
        && put_all(log, printed.log.as_slice()).is_ok();
    if is_put || printed.status == 7 {
        printed.status
    } else {
        4
    }
}

/// Puts the refusal of the words.
fn refuse<S: Sink>(out: &mut S) -> u8 {
    match put_all(out, b"refused: words\n") {
        Ok(()) => 1,
        Err(_) => 4,
    }
}

/// Serves connections as the words ask, and answers the status: 0 where each connection ended after a whole PDU, 1 where the
/// words are refused, 2 where hello's text has no table, 4 where an output failed, 5 where memory ran out, 7 where the door
/// failed, 8 where a connection didn't end after a whole PDU.
pub fn run<R, D, S, L>(
    rt: &R,
    alloc: Global,
    words: &[String],
    boot: u64,
    door: &mut D,
    out: &mut S,
    log: &mut L,
) -> u8
where
    R: Wait + Threads + Send + Sync + Copy + 'static,
    D: Door,
    D::Link: 'static,
    S: Sink,
    L: Sink,
{
    let Some(asked) = read_words(words) else {
        return refuse(out);
    };
    match serve(*rt, alloc, boot, door, asked.at, asked.most) {
        Ok(printed) => put(&printed, out, log),
        Err(ServeFault::Text(TextFault::Memory)) | Err(ServeFault::Out(OutFault::Memory)) => 5,
        Err(ServeFault::Text(_)) => 2,
        Err(ServeFault::Out(OutFault::Failed)) => 7,
    }
}
