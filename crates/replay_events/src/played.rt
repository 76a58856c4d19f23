//! A connection.
ghost use Rattle.std.specs.Prelude.{◌≤◌, ◌^◌, ℕ, List, length, IfOk, IfSome, OnOk};
ghost use Rattle.std.specs.Option.{option_copied};
ghost use Rattle.conn_asks.specs.Answers.{FitsStub};
ghost use Rattle.conn_asks.specs.States.{WaitsBehind, IsGrouping, IsCalling};
ghost use Rattle.conn_histories.specs.Histories.Decision.{ToGroup, RefuseGroup, Reply};
ghost use Rattle.conn_histories.specs.Histories.Event.{Came};
ghost use Rattle.replay_world.specs.Worlds.{opened_peer};

use crate::answers::{answer, count, octets_of, status_of};
use conn_core::{Act, Conn};
use desk_counts::Counted;
use handle_model::{Asked, CookieRow, Said};
use replay_world::{Member, Standing, Unanswered};
use rpc_base::{NoMemory, SyntaxId};
use server_counts::Packets;
use std::alloc::Global;

/// What is kept of an accepted call until it ends.
#[derive(Debug, Drop)]
pub struct Kept {
    pub asked: Asked,
    /// The cookies that it was given, once it was taken.
    pub cookies: Option<CookieRow>,
    /// It was orphaned while it ran.
    pub orphaned: bool,
}

/// A connection of a script: the connection machine, and what a replay keeps beside it.
#[derive(Drop)]
pub struct Played {
    pub name: u32,
    pub conn: Conn,
    /// Its place in a group, once it joined one.
    pub member: Option<Member>,
    /// What waits for the server's word.
    pub unanswered: Unanswered,
    pub standing: Standing,
    /// Where the octets that came stand among their packets.
    pub packets: Packets,
    /// The call that was accepted last.
    pub call: Option<Kept>,
}

impl Played {
    ghost use Rattle.replay_events.specs.Showing.{Shows};
    ghost use Rattle.replay_events.specs.Living.{Lives, Decides, IsPlayed, at_moment, event_of};

    /// A new connection of that name to a server of these interfaces.
    ///
    /// # Errors
    ///
    /// `NoMemory` where there is no memory for the connection.
    pub fn open(alloc: Global, ids: &[SyntaxId], name: u32) -> Result<Played, NoMemory>
        requires { length ids.now ≤ 2 ^ 16 }
        ensures { IfOk result (λ t. Shows t (opened_peer ids.now name)) }
    {
        let conn = Conn::new(alloc, ids)?;
        let packets = Packets::new();
        Ok(Played {
            name,
            conn,
            member: None,
            unanswered: Unanswered::Nothing,
            standing: Standing::Open,
            packets,
            call: None,
        })
    }

    /// Octets come, which may end anywhere. The totals are those of all connections.
    ///
    /// # Errors
    ///
    /// `NoMemory` where there is no memory for the octets.
    pub fn come(&mut self, octets: &[u8], totals: &mut Counted) -> Result<(), NoMemory>
        ensures { (text : List ℕ) → OnOk result (Lives (at_moment self.old totals.old text) (Came octets.now) (at_moment self.new totals.new text)) }
    {
        self.conn.feed(octets)?;
        let new = self.packets.push(octets);
        count(totals, new, 0);
        Ok(())
    }

    /// The next act, or none for now. What it answers is printed and counted.
    ///
    /// # Errors
    ///
    /// `NoMemory` where there is no memory for what came, or for the lines of what is answered.
    pub fn next(
        &mut self,
        alloc: Global,
        totals: &mut Counted,
        out: &mut Vec<u8>,
    ) -> Result<Option<Act>, NoMemory>
        requires { IsPlayed self.old }
        ensures lives { IfOk result (λ act. Lives (at_moment self.old totals.old out.old.items) (event_of act) (at_moment self.new totals.new out.new.items)) }
        ensures waits { IfOk result (λ done. IfSome done (λ act. WaitsBehind act self.new.conn.waits)) }
    {
        let done = self.conn.next()?;
        answer(alloc, self.name, octets_of(&done), totals, out)?;
        Ok(done)
    }

    /// Joins the connection to the group of that id: a bind_ack is answered.
    ///
    /// # Errors
    ///
    /// `NoMemory` where there is no memory for the answer or its line.
    pub fn bound(
        &mut self,
        alloc: Global,
        group: u32,
        totals: &mut Counted,
        out: &mut Vec<u8>,
    ) -> Result<(), NoMemory>
        requires played { IsPlayed self.old }
        requires grouping { IsGrouping self.old.conn.waits }
        ensures { OnOk result (Decides (at_moment self.old totals.old out.old.items) (ToGroup group) (at_moment self.new totals.new out.new.items)) }
    {
        let octets = self.conn.bound(group)?;
        answer(alloc, self.name, octets.as_slice(), totals, out)?;
        Ok(())
    }

    /// Refuses the bind for that reason: a bind_nak is answered, and the connection is over.
    ///
    /// # Errors
    ///
    /// `NoMemory` where there is no memory for the answer or its line.
    pub fn nak(
        &mut self,
        alloc: Global,
        reason: u16,
        totals: &mut Counted,
        out: &mut Vec<u8>,
    ) -> Result<(), NoMemory>
        requires played { IsPlayed self.old }
        requires grouping { IsGrouping self.old.conn.waits }
        ensures { OnOk result (Decides (at_moment self.old totals.old out.old.items) (RefuseGroup reason) (at_moment self.new totals.new out.new.items)) }
    {
        let octets = self.conn.nak(reason)?;
        answer(alloc, self.name, octets.as_slice(), totals, out)?;
        Ok(())
    }

    /// Answers the call: a response or a fault, or nothing where nothing is said or the client wants no answer.
    ///
    /// # Errors
    ///
    /// `NoMemory` where there is no memory for the answer or its lines.
    pub fn reply(
        &mut self,
        alloc: Global,
        said: Option<&Said>,
        executed: bool,
        totals: &mut Counted,
        out: &mut Vec<u8>,
    ) -> Result<(), NoMemory>
        requires played { IsPlayed self.old }
        requires calling { IsCalling self.old.conn.waits }
        requires stub { FitsStub (option_copied said) }
        ensures { OnOk result (Decides (at_moment self.old totals.old out.old.items) (Reply (option_copied said.entry) executed) (at_moment self.new totals.new out.new.items)) }
    {
        status_of(said);
        let octets = self.conn.reply(said, executed)?;
        answer(alloc, self.name, octets.as_slice(), totals, out)?;
        Ok(())
    }
}
