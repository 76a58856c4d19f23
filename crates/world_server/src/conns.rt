//! Connections join and leave.
ghost use Rattle.std.specs.Prelude.{◌≡◌, ◌≢◌, None, true, false, IfOk, OnOk};
ghost use Rattle.std.specs.List.{list_any};
ghost use Rattle.handle_model.specs.Entries.{is_shut};
ghost use Rattle.handle_model.specs.Journal.{is_open};
ghost use Rattle.handle_model.specs.declared.entry.Entry.TheVariants as entries;
ghost use Rattle.group_core.specs.declared.answer.Rest.{Rest as RestSpec};
ghost use Rattle.group_core.specs.Conns.{Settles};
ghost use Rattle.world_server.specs.Servers.{seen, IsWhole, Goes, Whole, Joins, whole};

use crate::Server;
use crate::anys::{any_joins, any_leaves};
use crate::grown::{join_of, leave_of};
use group_core::JoinRefusal;
use handle_model::Entry;
use rpc_base::NoMemory;

/// What a limit makes of a connection that wants to join.
fn unjoined(refusal: JoinRefusal) -> Result<Option<u32>, NoMemory>
    ensures { IfOk result (λ conn. (conn ≡ None) × (refusal ≢ JoinRefusal.Memory)) }
{
    match refusal {
        JoinRefusal::TooMany | JoinRefusal::Numbers => Ok(None),
        JoinRefusal::Memory => Err(NoMemory),
    }
}

impl Server {
    /// A connection joins, and has that number; or a limit of the group is reached.
    ///
    /// # Errors
    ///
    /// `NoMemory` where there is no memory for it.
    pub fn join(&mut self) -> Result<Option<u32>, NoMemory>
        requires is_whole { IsWhole (seen self.old) }
        requires goes_on { list_any is_shut (seen self.old).past ≡ false }
        ensures { IfOk result (λ conn. Goes (seen self.old) (Joins conn) (seen self.new)) }
    {
        match join_of(&mut self.group) {
            Ok(conn) => {
                self.push(Entry::Join { conn })?;
                Ok(Some(conn))
            }
            Err(refusal) => unjoined(refusal),
        }
    }

    /// Whether a connection is open in the group.
    pub fn is_open(&self, conn: u32) -> bool
        ensures { result ≡ is_open (whole (seen self.now).past) conn }
    {
        let entries = self.entries.as_slice();
        any_joins(entries, conn) && !any_leaves(entries, conn)
    }

    /// A connection leaves, and the group ends where that is then due.
    ///
    /// # Errors
    ///
    /// `NoMemory` where there is no memory for the entries.
    pub fn leave(&mut self, conn: u32) -> Result<(), NoMemory>
        requires is_whole { IsWhole (seen self.old) }
        requires is_open { is_open (whole (seen self.old).past) conn ≡ true }
        ensures { OnOk result ((rest : RestSpec) × Goes (seen self.old) (Whole (λ j k. Settles j (entries.Leave conn) rest k)) (seen self.new)) }
    {
        let rest = leave_of(&mut self.group, conn);
        self.settle(Entry::Leave { conn }, rest)
    }
}
