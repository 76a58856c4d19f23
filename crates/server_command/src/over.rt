//! A server over a door, whoever manages its interfaces.
ghost use Rattle.std.specs.Prelude.{◌≡◌, ◌≤◌, IfOk, IfErr};
ghost use Rattle.std.specs.Arc.{arc_value};
ghost use Rattle.server_command.specs.Serves.{Serves, IsWhy};
ghost use Rattle.server_command.specs.Over.{OverHad};

use crate::ending::end;
use crate::printed::Printed;
use desk_counts::Tally;
use group_hub::Hub;
use rpc_base::OutFault;
use rpc_outside::{Address, Door, Link};
use server_calls::Service;
use std::alloc::Global;
use std::sync::{Arc, Wait};
use std::thread::Threads;

/// A server of that boot word listens at the address and serves up to so many connections that come to the door, side by
/// side, with that service and a pass of it, whatever its interfaces are (C706, "Connection-oriented RPC protocol machines",
/// server). After the last it gives the links back, and answers what is printed. `tally` is what the service's management tells of.
///
/// # Errors
///
/// `Failed` where the door failed: nothing is to be printed, since it doesn't listen or there is no memory for more.
/// `Memory` where there is no memory.
#[tactic(auto, using(crate::proofs::Rounds::unused, crate::proofs::Rounds::unheard))]
pub fn serve_over<R, S, D>(
    rt: R,
    alloc: Global,
    boot: u64,
    service: &Arc<S, Global>,
    desks: S::Pass,
    door: &mut D,
    at: Address,
    most: u32,
    tally: &Arc<Tally, Global>,
) -> Result<Printed, OutFault>
where
    R: Wait + Threads + Send + Sync + Copy + 'static,
    S: Service + Send + Sync + Drop + 'static,
    S::Pass: 'static,
    D: Door,
    D::Link: 'static,
    requires few { most ≤ 1000000 }
    requires desks { S.is_pass (arc_value service.now) desks }
    ensures serves { IfOk result (λ p. Serves D.Link.shows (S.may (arc_value service.now)) (S.tables (arc_value service.now)) boot (D.shows door.old) at most (D.shows door.new) p.out p.log p.status) }
    ensures had { IfOk result (OverHad D.Link.shows S.may S.tables S.is_pass S.enters S.runs_down S.splits S.joins (arc_value service.now) desks boot (D.shows door.old) at most (D.shows door.new)) }
    ensures why { IfErr result (IsWhy D.Link.shows (S.may (arc_value service.now)) (S.tables (arc_value service.now)) boot (D.shows door.old) at most (D.shows door.new)) }
{
    let (hub, pass) = Hub::new(alloc, boot)?;
    let hub = Arc::new(alloc, hub)?;
    door.listen(at)?;
    let (round, _last) = server_rounds::serve(
        rt, alloc, service, &hub, pass, desks, door, most, tally,
    );
    end(&rt, alloc, &*hub, round, door)
}
