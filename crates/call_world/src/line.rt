//! A connection.
ghost use Rattle.std.specs.Prelude.{◌≡◌, ◌∷◌, [], length, IfOk, OnOk, true};
ghost use Rattle.ndr_table.specs.Shown.{shown};
ghost use Rattle.ndr_table.specs.Tables.{TableForm};
ghost use Rattle.ndr_value.specs.Values.{msg};
ghost use Rattle.world_laws.specs.Calling.{LosesLine};
ghost use Rattle.world_server.specs.Servers.{seen, IsWhole};

use crate::parts::{drop_front, front_of};
use ndr_codec::EncodeFault;
use ndr_table::Table;
use ndr_value::Message;
use rpc_base::NoMemory;
use std::alloc::Global;
use world_ends::{Caller, Serving};
use world_server::Server;

/// A connection by its name: the caller's end, the octets on the way to the server, and the server's end. One that was lost stands no
/// more.
#[derive(Drop)]
pub struct Line {
    pub name: u32,
    pub caller: Caller,
    pub up: Vec<u8>,
    pub serving: Serving,
    pub standing: bool,
}

impl Line {
    ghost use Rattle.call_world.specs.Lines.{Tries, TriesWith, HappensWith, StartsOn, CallsOffOn, ArrivesOn, ComesOn, MayStartOn, MayCallOffOn, MayArriveOn, MayComeOn, IsOpened};

    /// A new connection, whose bind is on the way: it asks for the group of that id, 0 for a new one.
    pub fn open(
        alloc: Global,
        table: &Table,
        server: &Server,
        name: u32,
        group: u32,
    ) -> Result<Line, NoMemory>
        requires { (seen server.now).tables ≡ shown table.now ∷ [] }
        ensures { IfOk result (IsOpened (shown table.now) name group) }
    {
        let ids = server.served().ids(alloc)?;
        let serving = Serving::open(alloc, ids.as_slice())?;
        let mut caller = Caller::new(alloc, table.copy(alloc)?);
        let octets = caller.bind(group)?;
        Ok(Line {
            name,
            caller,
            up: octets.into_vec(),
            serving,
            standing: true,
        })
    }

    /// How many calls were started.
    pub fn count(&self) -> usize
        ensures { result ≡ length self.now.caller.fates.items }
    {
        self.caller.fates.len()
    }

    /// A call is started, and its request is on the way. False where it can't be now.
    pub fn start(&mut self, op: u16, message: &Message) -> Result<bool, NoMemory>
        ensures { IfOk result (λ done. (table : TableForm) → Tries (MayStartOn op (msg message.now)) (StartsOn table op (msg message.now)) done self.old self.new) }
    {
        if !self.caller.client.is_bound() {
            return Ok(false);
        }
        if self.caller.client.is_calling() {
            return Ok(false);
        }
        if !self.caller.client.takes(op, message)? {
            return Ok(false);
        }
        match self.caller.start(op, message) {
            Ok(octets) => {
                self.up.extend_from_slice(octets.as_slice())?;
                Ok(true)
            }
            Err(EncodeFault::TooLong) => Ok(false),
            Err(EncodeFault::Memory) => Err(NoMemory),
        }
    }

    /// So many octets come to the server. False where there aren't so many.
    pub fn to_server(&mut self, server: &mut Server, count: usize) -> Result<bool, NoMemory>
        requires { IsWhole (seen server.old) }
        ensures { IfOk result (λ done. TriesWith (MayArriveOn count) (ArrivesOn (seen server.old).tables count) done (seen server.old) self.old (seen server.new) self.new) }
    {
        if count == 0 {
            return Ok(false);
        }
        if count > self.up.len() {
            return Ok(false);
        }
        self.serving.come(front_of(&self.up, count))?;
        drop_front(&mut self.up, count);
        self.serving.go_on(server)?;
        Ok(true)
    }

    /// So many octets come to the caller. False where there aren't so many.
    pub fn to_caller(&mut self, server: &mut Server, count: usize) -> Result<bool, NoMemory>
        requires { IsWhole (seen server.old) }
        ensures { IfOk result (λ done. TriesWith (MayComeOn count) (ComesOn count) done (seen server.old) self.old (seen server.new) self.new) }
    {
        if count == 0 {
            return Ok(false);
        }
        if count > self.serving.down.len() {
            return Ok(false);
        }
        let broken = self.caller.hear(front_of(&self.serving.down, count))?;
        drop_front(&mut self.serving.down, count);
        if !broken {
            return Ok(true);
        }
        self.lose(server)?;
        Ok(true)
    }

    /// The caller asks for the cancelling of the call that is out. False where none is.
    pub fn cancel(&mut self) -> Result<bool, NoMemory>
        ensures { IfOk result (λ done. (table : TableForm) → Tries MayCallOffOn (CallsOffOn table) done self.old self.new) }
    {
        if !self.caller.client.is_calling() {
            return Ok(false);
        }
        let octets = self.caller.cancel()?;
        self.up.extend_from_slice(octets.as_slice())?;
        Ok(true)
    }

    /// The connection is lost.
    pub fn lose(&mut self, server: &mut Server) -> Result<(), NoMemory>
        requires { IsWhole (seen server.old) }
        ensures { OnOk result (HappensWith LosesLine (seen server.old) self.old (seen server.new) self.new) }
    {
        self.caller.lose();
        self.up.clear();
        self.serving.lose(server)?;
        self.standing = false;
        Ok(())
    }
}
