//! What a call is told by the whole journal.
ghost use Rattle.std.specs.Prelude.{◌≡◌, ◌&&◌, not, reverse, None, Some, if◌then◌else◌, IfOk};
ghost use Rattle.std.specs.List.{list_any};
ghost use Rattle.std.specs.Option.{option_copied};
ghost use Rattle.handle_model.specs.Journal as journal;
ghost use Rattle.handle_model.specs.Replies as spec;
ghost use Rattle.world_server.specs.Servers.{seen, whole};
ghost use Rattle.world_server.specs.Scans.{conn_at, said_at, conn_of};

use crate::Server;
use crate::anys::{any_cancels, any_denies, any_leaves, any_orphans, any_takes};
use handle_model::{Entry, Reply, Said};
use rpc_base::{NoMemory, Status};

/// The connection of the call, where the entry is its Accept.
fn conn_at(entry: &Entry, call: u32) -> Option<u32>
    ensures { result ≡ conn_at call entry.now }
{
    match entry {
        Entry::Accept { call: k, asked } if *k == call => Some(asked.conn),
        _ => None,
    }
}

/// What the entry says, where it is the End of the call.
fn said_at(entry: &Entry, call: u32) -> Option<&Said>
    ensures { option_copied result ≡ said_at call entry.now }
{
    match entry {
        Entry::End { call: k, said, .. } if *k == call => Some(said),
        _ => None,
    }
}

/// The connection of the call.
fn conn_of(entries: &[Entry], call: u32) -> Option<u32>
    ensures { result ≡ conn_of (journal.asked (whole (reverse entries.now)) call) }
{
    let mut rest = entries;
    while let Some((entry, older)) = rest.split_last() {
        match conn_at(entry, call) {
            Some(conn) => return Some(conn),
            None => rest = older,
        }
    }
    None
}

/// Whether the connection of the call has left.
fn has_left(entries: &[Entry], call: u32) -> bool
    ensures { result ≡ journal.has_left (whole (reverse entries.now)) (journal.asked (whole (reverse entries.now)) call) }
{
    match conn_of(entries, call) {
        None => false,
        Some(conn) => any_leaves(entries, conn),
    }
}

/// Whether the call was orphaned, or its connection has left.
fn is_lost(entries: &[Entry], call: u32) -> bool
    ensures { result ≡ spec.is_lost (whole (reverse entries.now)) call }
{
    any_orphans(entries, call) || has_left(entries, call)
}

/// What the end of the call said, where it wasn't lost before.
fn ended_with(entries: &[Entry], call: u32) -> Option<&Said>
    ensures { option_copied result ≡ spec.ended_with (whole (reverse entries.now)) call }
{
    let mut rest = entries;
    while let Some((entry, older)) = rest.split_last() {
        match said_at(entry, call) {
            Some(said) => return unless(is_lost(older, call), said),
            None => rest = older,
        }
    }
    None
}

fn unless(lost: bool, said: &Said) -> Option<&Said>
    ensures { option_copied result ≡ if lost then None else Some said.now }
{
    if lost { None } else { Some(said) }
}

/// Whether the call was cancelled while it waited.
fn was_cancelled(entries: &[Entry], call: u32) -> bool
    ensures { result ≡ (list_any (journal.cancels call) (reverse entries.now) && not (journal.is_taken (whole (reverse entries.now)) call)) }
{
    any_cancels(entries, call) && !any_takes(entries, call)
}

impl Server {
    /// What is replied to a call, by the whole journal.
    ///
    /// # Errors
    ///
    /// `NoMemory` where there is no memory for what its end said.
    pub fn reply(&self, call: u32) -> Result<Reply, NoMemory>
        ensures { IfOk result (λ reply. reply ≡ spec.replies (whole (seen self.now).past) call) }
    {
        let entries = self.entries.as_slice();
        if any_denies(entries, call) {
            return Ok(Reply::Never(Status::NCA_S_FAULT_CONTEXT_MISMATCH));
        }
        if was_cancelled(entries, call) {
            return Ok(Reply::Never(Status::NCA_S_FAULT_CANCEL));
        }
        match ended_with(entries, call) {
            Some(said) => {
                let said = said.copy(self.alloc)?;
                Ok(Reply::Ran(said))
            }
            None => Ok(unsaid(is_lost(entries, call))),
        }
    }
}

/// The reply to a call that said nothing.
fn unsaid(lost: bool) -> Reply
    ensures { result ≡ spec.reply_by None lost }
{
    if lost { Reply::Dropped } else { Reply::Open }
}
