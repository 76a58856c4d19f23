//! A server over a door.
ghost use Rattle.std.specs.Prelude.{◌≤◌, IfOk, IfErr};
ghost use Rattle.desk_locks.specs.Tables.{shown_by};
ghost use Rattle.desk_locks.specs.Tables.{tables_with};
ghost use Rattle.desk_locks.specs.Calls.{May};
ghost use Rattle.server_command.specs.Serves.{Serves, IsWhy};
ghost use Rattle.server_command.specs.Desks.{ServesDesks};

use crate::over::serve_over;
use crate::printed::Printed;
use desk_counts::Tally;
use desk_locks::DeskService;
use ndr_table::Table;
use rpc_base::OutFault;
use rpc_outside::{Address, Door, Link};
use std::alloc::Global;
use std::sync::{Arc, Wait};
use std::thread::Threads;

/// A server of that boot word listens at the address and serves up to so many connections that come to the door, side by
/// side, with the built-in services and an echo of that interface (C706, "Connection-oriented RPC protocol machines",
/// server). Behind the last it gives the links back, and tells what was printed.
///
/// # Errors
///
/// `Failed` where the door failed, and `Memory` where there is no memory: nothing is to be printed. Either no link was
/// handed out, or there is no memory for the texts of the connections that were served: their links are given back then
/// too, and a failed door outweighs want of memory.
#[tactic(auto, using(crate::proofs::Rounds::unused))]
pub fn serve<R, D>(
    rt: R,
    alloc: Global,
    boot: u64,
    echo: Option<Table>,
    door: &mut D,
    at: Address,
    most: u32,
) -> Result<Printed, OutFault>
where
    R: Wait + Threads + Send + Sync + Copy + 'static,
    D: Door,
    D::Link: 'static,
    requires { most ≤ 1000000 }
    ensures serves { IfOk result (λ p. Serves D.Link.shows (May (shown_by (λ t. t) echo)) (tables_with (shown_by (λ t. t) echo)) boot (D.shows door.old) at most (D.shows door.new) p.out p.log p.status) }
    ensures desks { IfOk result (λ p. ServesDesks D.Link.shows (shown_by (λ t. t) echo) boot (D.shows door.old) at most (D.shows door.new) p.out p.log p.status) }
    ensures why { IfErr result (IsWhy D.Link.shows (May (shown_by (λ t. t) echo)) (tables_with (shown_by (λ t. t) echo)) boot (D.shows door.old) at most (D.shows door.new)) }
{
    let tally = Arc::new(alloc, Tally::new())?;
    let (service, desks) = DeskService::new(alloc, at, echo, Arc::try_clone(&tally)?)?;
    let service = Arc::new(alloc, service)?;
    serve_over(rt, alloc, boot, &service, desks, door, at, most, &tally)
}
