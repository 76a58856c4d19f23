//! A task is carried out.
ghost use Rattle.std.specs.Prelude.{◌≡◌, ◌⊎◌};
ghost use Rattle.rpc_base.specs.Causes.{Rose};
ghost use Rattle.rpc_app.specs.Asks.{IsInRange};
ghost use Rattle.rpc_app.specs.Runs.{Gains, IsDone, IsRefused, IsCutShort};
ghost use Rattle.rpc_app.specs.Words.{told_task};

use crate::say::{print, refuse};
use crate::task::{TaskFault, done};
use crate::words::Task;
use rpc_base::{Shelf, Sink};
use std::alloc::Global;

/// Does a task, and puts what it makes, or what is said of a file that is refused.
pub fn carry_out<F: Shelf, S: Sink, L: Sink>(
    alloc: Global,
    task: Task<'_>,
    shelf: &mut F,
    out: &mut S,
    log: &mut L,
) -> u8
    requires { IsInRange (told_task task) }
    ensures known { (result ≡ 0) ⊎ (result ≡ 2) ⊎ (result ≡ 3) ⊎ (result ≡ 4) ⊎ (result ≡ 5) }
    ensures done { result ≡ 0 → IsDone (told_task task.entry) (F.files shelf.old)
        (S.written out.old) (S.written out.new) (L.written log.old) (L.written log.new) }
    ensures refused { result ≡ 2 → IsRefused Gains (told_task task.entry) (F.files shelf.old)
        (S.written out.old) (S.written out.new) (L.written log.old) (L.written log.new) }
    ensures shelf { result ≡ 3 → Rose (F.faults shelf.old) (F.faults shelf.new) }
    ensures sinks { result ≡ 4 → Rose (S.faults out.old) (S.faults out.new) ⊎ Rose (L.faults log.old) (L.faults log.new) }
    ensures fronts { result ≡ 4 → IsCutShort (told_task task.entry) (F.files shelf.old)
        (S.written out.old) (S.written out.new) (L.written log.old) (L.written log.new) }
    ensures silent { (result ≡ 3) ⊎ (result ≡ 5) → S.written out.new ≡ S.written out.old }
    ensures quiet { (result ≡ 3) ⊎ (result ≡ 5) → L.written log.new ≡ L.written log.old }
{
    match done(alloc, task, shelf) {
        Ok(made) => print(made.out.as_slice(), made.log.as_slice(), out, log),
        Err(TaskFault::Refused(line)) => refuse(out, line.as_slice(), 2),
        Err(TaskFault::Failed) => 3,
        Err(TaskFault::Memory) => 5,
    }
}
