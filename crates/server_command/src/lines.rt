//! The lines of connections, and the status.
ghost use Rattle.std.specs.Prelude.{◌≡◌, ◌≤◌, ◌++◌, length, map, IfOk, OnOk};
ghost use Rattle.server_command.specs.Lines as spec;
ghost use Rattle.server_command.specs.Sums.{Prints};

use crate::sums::sums;
use crate::{connection_line, stats_line, status_of};
use rpc_base::NoMemory;
use rpc_outside::Link;
use server_counts::CountLink;
use server_ends::Ending;
use server_rounds::{Settled, Stop};
use std::alloc::Global;

/// Adds a line for each connection, numbered from 1.
fn put_lines<K>(alloc: Global, finished: &[Settled<K>], into: &mut Vec<u8>) -> Result<(), NoMemory>
    ensures { OnOk result (into.new.items ≡ into.old.items ++ spec.lines_from 1 finished.now) }
{
    let mut number = 0;
    for settled in finished {
        number += 1;
        connection_line(alloc, number, settled.ending, into)?;
    }
    Ok(())
}

/// The lines of the connections, and that of their numbers.
pub(crate) fn out_text<K: Link>(
    alloc: Global,
    finished: &[Settled<CountLink<K>>],
) -> Result<Vec<u8>, NoMemory>
    requires { length finished.now ≤ 1000000 }
    ensures { IfOk result (λ text. Prints K.shows finished.now text.items) }
{
    let mut text = Vec::new(alloc);
    put_lines(alloc, finished, &mut text)?;
    stats_line(alloc, sums(finished), &mut text)?;
    Ok(text)
}

/// Why the connections ended.
fn endings<K>(alloc: Global, finished: &[Settled<K>]) -> Result<Vec<Ending>, NoMemory>
    ensures { IfOk result (λ whys. whys.items ≡ spec.endings_in finished.now) }
{
    let whys = finished
        .iter()
        .map(|settled| settled.ending)
        .collect(alloc)?;
    Ok(whys)
}

/// The status of a round of connections.
pub(crate) fn status<K>(alloc: Global, finished: &[Settled<K>], stop: Stop) -> Result<u8, NoMemory>
    ensures { IfOk result (λ status. status ≡ spec.status_with stop (spec.endings_in finished.now)) }
{
    match stop {
        Stop::DoorFault => Ok(7),
        Stop::Memory => Ok(5),
        Stop::Done => Ok(status_of(endings(alloc, finished)?.as_slice())),
        Stop::DoorClosed => Ok(status_of(endings(alloc, finished)?.as_slice())),
    }
}
