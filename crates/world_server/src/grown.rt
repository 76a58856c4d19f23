//! Calls of a group, each with what always holds of the group then.
ghost use Rattle.std.specs.Prelude.{◌≡◌, ◌<◌, ◌≤◌, true, false, length};
ghost use Rattle.std.specs.List.{list_any};
ghost use Rattle.handle_model.specs.Journal as journal;
ghost use Rattle.handle_model.specs.History.{IsSound};
ghost use Rattle.group_core.specs.Calls as calls;
ghost use Rattle.group_core.specs.Conns as conns;

use group_core::{AcceptRefusal, Cancelled, Group, JoinRefusal, Orphaned, Rest, Taking};
use handle_model::{Asked, Outcomes, Said};
use std::marker::Brand;
use std::sync::ledger::{Blank, Ledger};
use wait_list::Steps;

pub fn join_of(group: &mut Group) -> Result<u32, JoinRefusal>
    requires { list_any journal.is_shut group.old.past ≡ false }
    ensures joins { conns.Joins group.old result group.new }
    ensures sound { IsSound group.new }
{
    let result = group.join();
    let _ = group.journal();
    result
}

pub fn leave_of(group: &mut Group, conn: u32) -> Rest
    requires { journal.is_open group.old conn ≡ true }
    ensures leaves { conns.Leaves group.old conn result group.new }
    ensures sound { IsSound group.new }
{
    let rest = group.leave(conn);
    let _ = group.journal();
    rest
}

pub fn accept_of(group: &mut Group, asked: Asked) -> Result<u32, (Asked, AcceptRefusal)>
    requires is_open { journal.is_open group.old asked.conn ≡ true }
    requires few { length asked.slots ≤ 4 }
    ensures accepts { calls.Accepts group.old asked result group.new }
    ensures sound { IsSound group.new }
{
    let result = group.accept(asked);
    let _ = group.journal();
    result
}

pub fn take_of(group: &mut Group, call: u32) -> Taking
    ensures takes { calls.Takes group.old call result group.new }
    ensures sound { IsSound group.new }
{
    let taking = group.take(call);
    let _ = group.journal();
    taking
}

pub fn cancel_of(group: &mut Group, call: u32) -> Cancelled
    ensures cancels { calls.Cancels group.old call result group.new }
    ensures sound { IsSound group.new }
{
    let cancelled = cancel_counted::<Brand>(group, call, Blank::new(1));
    let _ = group.journal();
    cancelled
}

/// Cancels a call, with a count of the link words that are written.
fn cancel_counted<L: Ledger>(group: &mut Group, call: u32, blank: Blank) -> Cancelled
    requires name { blank.name ≡ L.name }
    requires parts { (blank.parts ≡ L.parts) × (0 < blank.parts) }
    ensures { calls.Cancels group.old call result group.new }
{
    let mut steps = Steps::<L>::new(blank);
    group.cancel(call, &mut steps)
}

pub fn orphan_of(group: &mut Group, call: u32) -> Orphaned
    ensures orphans { calls.Orphans group.old call result group.new }
    ensures sound { IsSound group.new }
{
    let orphaned = group.orphan(call);
    let _ = group.journal();
    orphaned
}

pub fn end_of(group: &mut Group, call: u32, results: Outcomes, said: Said) -> Rest
    requires runs { journal.runs group.old call ≡ true }
    requires suit { journal.suit (journal.slots group.old call) results ≡ true }
    ensures ends { calls.Ends group.old call results said result group.new }
    ensures sound { IsSound group.new }
{
    let rest = group.end(call, results, said);
    let _ = group.journal();
    rest
}
