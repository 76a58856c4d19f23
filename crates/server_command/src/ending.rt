//! The end of a round of connections.
ghost use Rattle.std.specs.Prelude.{◌≡◌, ◌≤◌, length, IfErr, IfOk};
ghost use Rattle.group_hub.specs.Passes.{IsPassOf};
ghost use Rattle.server_command.specs.Doors.{AreOut, TakesBack, links_in};
ghost use Rattle.server_command.specs.Serves.{IsOver, fault_with};

use crate::back::give_back;
use crate::lines::{out_text, status};
use crate::printed::Printed;
use crate::put_journals;
use group_hub::{Hub, Pass};
use rpc_base::{NoMemory, Octets, OutFault};
use rpc_outside::{Door, Link};
use server_counts::CountLink;
use server_rounds::{Round, Settled, Stop};
use std::alloc::Global;
use std::sync::Wait;

/// What is printed of a round of connections.
fn printed<R: Wait, K: Link>(
    rt: &R,
    alloc: Global,
    hub: &Hub,
    pass: Pass,
    finished: &[Settled<CountLink<K>>],
    stop: Stop,
) -> Result<Printed, NoMemory>
    requires pass { IsPassOf hub.now pass }
    requires few { length finished.now ≤ 1000000 }
    ensures { IfOk result (λ p. IsOver K.shows hub.now pass finished.now stop p.out p.log p.status) }
{
    let mut pass = pass;
    let status = status(alloc, finished, stop)?;
    let out = out_text(alloc, finished)?;
    let mut log = Vec::new(alloc);
    put_journals(rt, alloc, hub, &mut pass, &mut log)?;
    Ok(Printed {
        out: Octets::from_vec(out),
        log: Octets::from_vec(log),
        status,
    })
}

/// Why nothing is printed of a round for which there is no memory: a failed door outweighs that.
fn fault_of(stop: Stop) -> OutFault
    ensures { result ≡ fault_with stop }
{
    match stop {
        Stop::DoorFault => OutFault::Failed,
        Stop::Done => OutFault::Memory,
        Stop::DoorClosed => OutFault::Memory,
        Stop::Memory => OutFault::Memory,
    }
}

/// Ends a round: what is printed of it. Its links are given back.
pub(crate) fn end<R: Wait, D: Door>(
    rt: &R,
    alloc: Global,
    hub: &Hub,
    round: Round<CountLink<D::Link>>,
    door: &mut D,
) -> Result<Printed, OutFault>
    requires pass { IsPassOf hub.now round.pass }
    requires few { length round.finished.items ≤ 1000000 }
    requires out { AreOut round.finished.items (D.shows door.old) }
    ensures back { TakesBack (D.shows door.old) (links_in round.finished.items) (D.shows door.new) }
    ensures over { IfOk result (λ p. IsOver D.Link.shows hub.now round.pass round.finished.items round.stop p.out p.log p.status) }
    ensures fault { IfErr result (λ why. why ≡ fault_with round.stop) }
{
    let Round {
        pass,
        finished,
        stop,
    } = round;
    let printed = printed(rt, alloc, hub, pass, finished.as_slice(), stop);
    give_back(door, finished);
    match printed {
        Ok(printed) => Ok(printed),
        Err(NoMemory) => Err(fault_of(stop)),
    }
}
