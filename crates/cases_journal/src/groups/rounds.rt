//! Calls that are accepted, taken and ended, one after the other.
ghost use Rattle.std.specs.Prelude.{◌≡◌, ◌≤◌, ◌&&◌, true, length, IfOk};
ghost use Rattle.handle_model.specs.Journal as spec;

use crate::groups::due::run_down;
use group_core::{Group, Rest, Stage, Taking};
use handle_model::{Asked, Outcome, Outcomes, Said, Slot, suit};
use rpc_base::{Items, NoMemory, Octets, Order};
use std::alloc::Global;

/// Whether the call runs, and the results suit its slots.
#[tactic(auto, using(call_table::proofs::Calls::waits_idle))]
pub fn may_end(group: &Group, call: u32, results: &[Outcome]) -> bool
    ensures { result ≡ (spec.runs group.now call && spec.suit (spec.slots group.now call) results.now) }
{
    match group.stage(call) {
        Stage::Running => suit(group.slots(call), results),
        Stage::Waiting | Stage::Over => false,
    }
}

/// A request of connection 1 that may issue a handle.
fn request(alloc: Global) -> Result<Asked, NoMemory>
    ensures { IfOk result (λ asked. (asked.conn ≡ 1) × (length asked.slots ≤ 4)) }
{
    let mut slots = Items::new(alloc);
    slots.push(Slot::Opens { kind: 0, serial: 0 })?;
    Ok(Asked {
        conn: 1,
        iface: 0,
        op: 0,
        order: Order::Little,
        reply: true,
        slots,
        stub: Octets::new(alloc),
    })
}

fn issues(alloc: Global, serial: u32) -> Result<Outcomes, NoMemory> {
    let mut results = Items::new(alloc);
    results.push(Outcome::Issue { serial, cookie: 5 })?;
    Ok(results)
}

/// A call is accepted: its number, where there is room for it.
fn accept(alloc: Global, group: &mut Group) -> Result<Option<u32>, NoMemory>
    requires { spec.is_open group.old 1 ≡ true }
    ensures { spec.is_open group.new 1 ≡ true }
{
    let asked = request(alloc)?;
    match group.accept(asked) {
        Ok(call) => Ok(Some(call)),
        Err(_) => Ok(None),
    }
}

/// Whether a call is taken.
fn start(group: &mut Group, call: u32) -> bool
    requires { spec.is_open group.old 1 ≡ true }
    ensures { spec.is_open group.new 1 ≡ true }
{
    matches!(group.take(call), Taking::Run(_, _))
}

/// Ends a call with these results. Whether it ran, they suit its slots, and the group goes on.
fn end(alloc: Global, group: &mut Group, call: u32, results: Outcomes) -> Result<bool, NoMemory>
    requires { spec.is_open group.old 1 ≡ true }
    ensures { spec.is_open group.new 1 ≡ true }
{
    if !may_end(group, call, results.as_slice()) {
        return Ok(false);
    }
    match group.end(call, results, Said::Out(Octets::new(alloc))) {
        Rest::Stays => Ok(true),
        Rest::Shut(list) => {
            run_down(alloc, list)?;
            Ok(false)
        }
    }
}

/// One call issues the handle of the serial. Whether it did, and the group goes on.
fn issue_one(alloc: Global, group: &mut Group, serial: u32) -> Result<bool, NoMemory>
    requires { spec.is_open group.old 1 ≡ true }
    ensures { spec.is_open group.new 1 ≡ true }
{
    let results = issues(alloc, serial)?;
    let Some(call) = accept(alloc, group)? else {
        return Ok(false);
    };
    if !start(group, call) {
        return Ok(false);
    }
    end(alloc, group, call, results)
}

/// As many calls as there are serials from the first to the last issue a handle each. Whether each did.
pub fn issue(alloc: Global, group: &mut Group, count: u32) -> Result<bool, NoMemory>
    requires { spec.is_open group.old 1 ≡ true }
{
    for before in 0..count {
        if !issue_one(alloc, group, before.saturating_add(1))? {
            return Ok(false);
        }
    }
    Ok(true)
}
