//! A call is cancelled or orphaned.
ghost use Rattle.std.specs.Prelude.{◌≡◌, ◌≤◌, IfOk, OnOk, ⊤};
ghost use Rattle.replay_world.specs.Events.{LeavesIts};
ghost use Rattle.replay_groups.specs.Service.{service_of};
ghost use Rattle.replay_groups.specs.Holding.{Known, Moves};
ghost use Rattle.replay_events.specs.Marked as spec;
ghost use Rattle.replay_groups.specs.Holding.{Known, Moves};
ghost use Rattle.replay_events.specs.Marked as spec;

use crate::Kept;
use group_core::{Cancelled, Orphaned};
use handle_model::Reply;
use replay_groups::Realm;
use replay_world::Member;
use rpc_base::{NoMemory, Status};

/// Cancels a call: what its client is then told, where it ends so.
///
/// # Errors
///
/// `NoMemory` where there is no memory for the entry.
pub fn cancelled(realm: &mut Realm, member: Member, call: u32) -> Result<Option<Reply>, NoMemory>
    requires known { Known realm.old (λ w. ⊤) }
    requires low { 1 ≤ member.group }
    ensures { IfOk result (λ told. Moves realm.old (spec.CancelsAs member call told) realm.new) }
{
    let answer = realm.cancel(member, call)?;
    match answer {
        Cancelled::Ended => Ok(Some(Reply::Never(Status::NCA_S_FAULT_CANCEL))),
        Cancelled::Flagged => Ok(None),
        Cancelled::Late => Ok(None),
    }
}

/// Cancels a call whose request was marked: what its client is then told, where it ends so.
///
/// # Errors
///
/// `NoMemory` where there is no memory for the entry.
pub fn marked(
    realm: &mut Realm,
    cancel: bool,
    member: Member,
    call: u32,
) -> Result<Option<Reply>, NoMemory>
    requires known { Known realm.old (λ w. ⊤) }
    requires low { 1 ≤ member.group }
    ensures { IfOk result (λ told. Moves realm.old (spec.MarksAs cancel member call told) realm.new) }
{
    if !cancel {
        return Ok(None);
    }
    let told = cancelled(realm, member, call)?;
    Ok(told)
}

/// Orphans a call: what its client is then told, where it ends so, and whether it is orphaned by this.
///
/// # Errors
///
/// `NoMemory` where there is no memory for the entry.
pub fn orphaned(
    realm: &mut Realm,
    member: Member,
    call: u32,
) -> Result<(Option<Reply>, bool), NoMemory>
    requires known { Known realm.old (λ w. ⊤) }
    requires low { 1 ≤ member.group }
    ensures { IfOk result (λ found. Moves realm.old (spec.OrphansAs member call found.0 found.1) realm.new) }
{
    let answer = realm.orphan(member, call)?;
    match answer {
        Orphaned::Dropped => Ok((Some(Reply::Dropped), true)),
        Orphaned::Running => Ok((None, true)),
        Orphaned::Late => Ok((None, false)),
    }
}

/// A member leaves its group, if it is one.
///
/// # Errors
///
/// `NoMemory` where there is no memory for the entries.
pub fn leave(realm: &mut Realm, member: Option<Member>) -> Result<(), NoMemory>
    requires { spec.IsHere realm.old member }
    ensures { OnOk result (Moves realm.old (λ echo w v. LeavesIts (service_of echo) member w v) realm.new) }
{
    match member {
        None => Ok(()),
        Some(member) => {
            realm.leave(member)?;
            Ok(())
        }
    }
}

/// What is kept of a call that is orphaned.
pub fn with_orphan(now: bool, kept: Option<Kept>) -> Option<Kept>
    ensures { result ≡ spec.with_orphan now kept }
{
    match kept {
        Some(kept) => Some(Kept {
            asked: kept.asked,
            cookies: kept.cookies,
            orphaned: now || kept.orphaned,
        }),
        None => None,
    }
}
