//! Words of the server.
ghost use Rattle.std.specs.Prelude.{◌≡◌, Some, true, IfOk, OnOk};
ghost use Rattle.std.specs.Bool.{OnTrue};
ghost use Rattle.std.specs.Option.{option_copied};
ghost use Rattle.conn_asks.specs.Answers.{FitsStub};
ghost use Rattle.conn_histories.specs.Histories.Decision.{ToGroup, RefuseGroup, Reply as Answer};
ghost use Rattle.conn_histories.specs.Events.{word_of, has_run};
ghost use Rattle.world_laws.specs.Ends.Waiting.{Bind};
ghost use Rattle.world_laws.specs.Journals.{is_there};
ghost use Rattle.world_laws.specs.Serving.{is_word_due};
ghost use Rattle.world_server.specs.Servers.{seen, IsWhole, Goes};
ghost use Rattle.world_ends.specs.Servings.{Leads, Puts, Joins, waiting_of};

use crate::{Serving, Waiting};
use group_core::Stage;
use handle_model::{Reply, Said};
use pdu_stream::MOST_STUB;
use rpc_base::NoMemory;
use world_server::Server;

/// The id of the group.
const GROUP: u32 = 1;

/// The group takes no further connection.
const AT_LIMIT: u16 = 2;

/// There is no such group.
const NO_GROUP: u16 = 0;

/// Whether a response may have that stub.
fn fits(said: Option<&Said>) -> bool
    ensures { OnTrue result (FitsStub (option_copied said.entry)) }
{
    match said {
        Some(Said::Out(stub)) => stub.len() <= MOST_STUB,
        _ => true,
    }
}

impl Serving {
    /// Whether the server's word is due.
    pub(crate) fn is_due(&self, server: &Server) -> bool
        requires { IsWhole (seen server.now) }
        ensures { result ≡ is_word_due (seen server.now).past (waiting_of self.now.waiting) }
    {
        match self.waiting {
            Waiting::Nothing => false,
            Waiting::Bind(_) | Waiting::Refused(_) => true,
            Waiting::Call(call) => matches!(server.stage(call), Stage::Over),
        }
    }

    /// Says the word that is due.
    pub(crate) fn word(&mut self, server: &mut Server) -> Result<(), NoMemory>
        requires is_whole { IsWhole (seen server.old) }
        requires due { is_word_due (seen server.old).past (waiting_of self.old.waiting) ≡ true }
        ensures { OnOk result (Leads (seen server.old) self.old (seen server.new) self.new) }
    {
        match self.waiting {
            Waiting::Nothing => Err(NoMemory),
            Waiting::Bind(asked) => self.bind(server, asked),
            Waiting::Refused(status) => self.reply(&Reply::Never(status)),
            Waiting::Call(call) => {
                let reply = server.reply(call)?;
                self.reply(&reply)
            }
        }
    }

    /// A bind comes to the group, or is refused.
    fn bind(&mut self, server: &mut Server, asked: u32) -> Result<(), NoMemory>
        requires is_whole { IsWhole (seen server.old) }
        requires asked { waiting_of self.old.waiting ≡ Bind asked }
        ensures { OnOk result (Leads (seen server.old) self.old (seen server.new) self.new) }
    {
        match join(server, asked)? {
            Ok(conn) => self.bound(conn),
            Err(reason) => self.nak(reason),
        }
    }

    /// It joins, with that number: a bind_ack is put.
    fn bound(&mut self, conn: u32) -> Result<(), NoMemory>
        ensures { OnOk result (Puts (ToGroup GROUP) (Some conn) self.old self.new) }
    {
        if !self.conn.is_grouping() {
            return Err(NoMemory);
        }
        let octets = self.conn.bound(GROUP)?;
        self.down.extend_from_slice(octets.as_slice())?;
        self.member = Some(conn);
        self.waiting = Waiting::Nothing;
        Ok(())
    }

    /// The bind is refused for that reason: a bind_nak is put.
    fn nak(&mut self, reason: u16) -> Result<(), NoMemory>
        ensures { OnOk result (Puts (RefuseGroup reason) self.old.member self.old self.new) }
    {
        if !self.conn.is_grouping() {
            return Err(NoMemory);
        }
        let octets = self.conn.nak(reason)?;
        self.down.extend_from_slice(octets.as_slice())?;
        self.waiting = Waiting::Nothing;
        Ok(())
    }

    /// The call is answered with that reply.
    fn reply(&mut self, reply: &Reply) -> Result<(), NoMemory>
        ensures { OnOk result (Puts (Answer (word_of reply.now) (has_run reply.now)) self.old.member self.old self.new) }
    {
        match reply {
            Reply::Never(status) => self.say(Some(&Said::Fault(*status)), false),
            Reply::Ran(said) => self.say(Some(said), true),
            Reply::Dropped | Reply::Open => self.say(None, false),
        }
    }

    fn say(&mut self, said: Option<&Said>, executed: bool) -> Result<(), NoMemory>
        ensures { OnOk result (Puts (Answer (option_copied said.entry) executed) self.old.member self.old self.new) }
    {
        if !self.conn.is_calling() || !fits(said) {
            return Err(NoMemory);
        }
        let octets = self.conn.reply(said, executed)?;
        self.down.extend_from_slice(octets.as_slice())?;
        self.waiting = Waiting::Nothing;
        Ok(())
    }
}

/// Whether the group was opened and has not ended.
fn is_there(server: &Server) -> bool
    requires { IsWhole (seen server.now) }
    ensures { result ≡ is_there (seen server.now).past }
{
    !server.entries().is_empty() && !server.has_shut()
}

/// A connection that asks for that group joins, and has that number there; or it is refused for a reason.
fn join(server: &mut Server, asked: u32) -> Result<Result<u32, u16>, NoMemory>
    requires { IsWhole (seen server.old) }
    ensures { IfOk result (λ answer. Goes (seen server.old) (Joins asked answer) (seen server.new)) }
{
    if asked == 0 && server.has_shut() {
        return Err(NoMemory);
    }
    if asked != 0 && !is_there(server) {
        return Ok(Err(NO_GROUP));
    }
    match server.join()? {
        Some(conn) => Ok(Ok(conn)),
        None => {
            if asked == 0 {
                Err(NoMemory)
            } else {
                Ok(Err(AT_LIMIT))
            }
        }
    }
}
