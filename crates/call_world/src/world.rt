//! A world, and what each move does.
ghost use Rattle.std.specs.Prelude.{◌≡◌, ◌≤◌, true, length, reverse, IfOk, OnOk, MatchOption, Some, None, slice_get, position};
ghost use Rattle.handle_model.specs.declared.entry.Slot.TheVariants.{Shares};
ghost use Rattle.ndr_table.specs.Shown.{shown};
ghost use Rattle.ndr_value.specs.Values.{msg};
ghost use Rattle.world_laws.specs.Moves.{Move as moves};
ghost use Rattle.world_laws.specs.Ends.{number_in};
ghost use Rattle.world_laws.specs.Worlds.{World as WorldSpec, empty};
ghost use Rattle.world_ends.specs.Callers.{fate_of};

use crate::finding::{awaiting, least, named, standing};
use crate::handles::{is_run_down, serial_named};
use crate::line::Line;
use crate::{Move, handles};
use group_core::{Stage, Taking};
use handle_model::{Entry, Slot};
use manager_api::{Kepts, Served};
use ndr_table::Table;
use ndr_value::Message;
use rpc_base::{NoMemory, WireHandle};
use std::alloc::Global;
use world_ends::Fate;
use world_server::Server;

/// A call that was started: the place of its connection, and its own among the calls of the connection.
#[derive(Clone, Copy)]
pub struct Started {
    pub line: usize,
    pub place: usize,
}

/// A caller, a server and the connections between them.
#[derive(Drop)]
pub struct World {
    pub(crate) alloc: Global,
    pub(crate) table: Table,
    pub(crate) lines: Vec<Line>,
    pub(crate) server: Server,
    pub(crate) starts: Vec<Started>,
}

/// What is known of a call that was started.
#[derive(Clone, Copy)]
pub struct FateRow<'a> {
    pub fate: &'a Fate,
    /// The name of its connection.
    pub conn: u32,
    /// Its number, where the server accepted it.
    pub call: Option<u32>,
}

/// The number at that place, if there is one.
fn number_at(numbers: &[Option<u32>], place: usize) -> Option<u32>
    ensures { result ≡ number_in (slice_get numbers.now place) }
{
    match numbers.get(place) {
        Some(number) => *number,
        None => None,
    }
}

/// A slot that names the handle.
fn slot_of(handle: WireHandle) -> Slot
    ensures { result ≡ Shares 0 handle }
{
    Slot::Shares {
        kind: 0,
        wire: handle,
    }
}

impl World {
    ghost use Rattle.call_world.specs.Moves.{move_of};
    ghost use Rattle.call_world.specs.Worlds.{IsWorld, IsReady, Tries, GoesFor};
    ghost use Rattle.call_world.specs.Rows.{wanted, IsFate, is_named, stands_as};
    ghost use Rattle.call_world.specs.Handles.{is_live, is_in_shut};
    ghost use Rattle.handle_model.specs.Journal.{waits};
    ghost use Rattle.world_server.specs.Servers.{seen, whole};

    /// The empty world, whose server has that interface.
    ///
    /// # Errors
    ///
    /// `NoMemory` where there is no memory for it.
    pub(crate) fn begin(alloc: Global, table: &Table) -> Result<World, NoMemory>
        ensures table { IfOk result (λ world. shown world.table ≡ shown table.now) }
        ensures is { IfOk result (λ world. IsWorld world empty) }
    {
        let mut tables = Vec::new(alloc);
        tables.push(table.copy(alloc)?)?;
        Ok(World {
            alloc,
            table: table.copy(alloc)?,
            lines: Vec::new(alloc),
            server: Server::begin(alloc, Served::new(tables))?,
            starts: Vec::new(alloc),
        })
    }

    /// The first connection asks for a new group, and each other one for the first group.
    fn group_wanted(&self) -> u32
        ensures { result ≡ wanted self.now.lines.items }
    {
        if self.lines.is_empty() { 0 } else { 1 }
    }

    fn open(&mut self, name: u32, group: u32) -> Result<bool, NoMemory>
        requires { IsReady self.old }
        ensures { IfOk result (λ done. Tries (moves.Open name group) done self.old self.new) }
    {
        match named(self.lines.as_slice(), name) {
            Some(_) => Ok(false),
            None => self.open_new(name, group),
        }
    }

    fn open_new(&mut self, name: u32, group: u32) -> Result<bool, NoMemory>
        requires ready { IsReady self.old }
        requires fresh { position (is_named name) self.old.lines.items ≡ None }
        ensures { IfOk result (λ done. Tries (moves.Open name group) done self.old self.new) }
    {
        if group != self.group_wanted() {
            return Ok(false);
        }
        let line = Line::open(self.alloc, &self.table, &self.server, name, group)?;
        self.lines.push(line)?;
        Ok(true)
    }

    fn start(&mut self, name: u32, op: u16, message: &Message) -> Result<bool, NoMemory>
        requires { IsReady self.old }
        ensures { IfOk result (λ done. Tries (moves.Start name op (msg message.now)) done self.old self.new) }
    {
        match standing(self.lines.as_slice(), name) {
            None => Ok(false),
            Some(at) => self.start_at(name, at, op, message),
        }
    }

    fn start_at(
        &mut self,
        name: u32,
        at: usize,
        op: u16,
        message: &Message,
    ) -> Result<bool, NoMemory>
        requires ready { IsReady self.old }
        requires found { position (stands_as name) self.old.lines.items ≡ Some at }
        ensures { IfOk result (λ done. Tries (moves.Start name op (msg message.now)) done self.old self.new) }
    {
        let place = self.lines[at].count();
        let done = self.lines[at].start(op, message)?;
        if !done {
            return Ok(false);
        }
        self.starts.push(Started { line: at, place })?;
        Ok(true)
    }

    fn to_server(&mut self, name: u32, octets: u32) -> Result<bool, NoMemory>
        requires { IsReady self.old }
        ensures { IfOk result (λ done. Tries (moves.ToServer name octets) done self.old self.new) }
    {
        match standing(self.lines.as_slice(), name) {
            None => Ok(false),
            Some(at) => self.lines[at].to_server(&mut self.server, octets as usize),
        }
    }

    fn to_caller(&mut self, name: u32, octets: u32) -> Result<bool, NoMemory>
        requires { IsReady self.old }
        ensures { IfOk result (λ done. Tries (moves.ToCaller name octets) done self.old self.new) }
    {
        match standing(self.lines.as_slice(), name) {
            None => Ok(false),
            Some(at) => self.lines[at].to_caller(&mut self.server, octets as usize),
        }
    }

    fn cancel(&mut self, name: u32) -> Result<bool, NoMemory>
        requires { IsReady self.old }
        ensures { IfOk result (λ done. Tries (moves.Cancel name) done self.old self.new) }
    {
        match standing(self.lines.as_slice(), name) {
            None => Ok(false),
            Some(at) => self.lines[at].cancel(),
        }
    }

    fn lose(&mut self, name: u32) -> Result<bool, NoMemory>
        requires { IsReady self.old }
        ensures { IfOk result (λ done. Tries (moves.Lose name) done self.old self.new) }
    {
        match standing(self.lines.as_slice(), name) {
            None => Ok(false),
            Some(at) => {
                self.lines[at].lose(&mut self.server)?;
                Ok(true)
            }
        }
    }

    fn restart(&mut self) -> Result<(), NoMemory>
        requires { IsReady self.old }
        ensures { OnOk result (Tries moves.Restart true self.old self.new) }
    {
        for _ in 0..u64::MAX {
            match least(self.lines.as_slice()) {
                None => return Ok(()),
                Some(at) => self.lines[at].lose(&mut self.server)?,
            }
        }
        Err(NoMemory)
    }

    /// The connection on which the call waits for its answer, where it stands, goes on.
    fn go_on_for(&mut self, call: u32) -> Result<(), NoMemory>
        requires { IsReady self.old }
        ensures { OnOk result (GoesFor call self.old self.new) }
    {
        match awaiting(self.lines.as_slice(), call) {
            None => Ok(()),
            Some(at) => self.lines[at].serving.go_on(&mut self.server),
        }
    }

    /// Whether the call waits.
    fn waits(&self, call: u32) -> bool
        requires { IsReady self.now }
        ensures { result ≡ waits (whole (seen self.now.server).past) call }
    {
        match self.server.stage(call) {
            Stage::Waiting => true,
            Stage::Running | Stage::Over => false,
        }
    }

    fn take(&mut self, call: u32) -> Result<bool, NoMemory>
        requires { IsReady self.old }
        ensures { IfOk result (λ done. Tries (moves.Take call) done self.old self.new) }
    {
        if !self.waits(call) {
            return Ok(false);
        }
        let taking = self.server.take(call)?;
        match taking {
            Taking::Run(_, _) => Ok(true),
            Taking::Denied(_) => {
                self.go_on_for(call)?;
                Ok(true)
            }
            Taking::Dropped => Ok(false),
            Taking::Wait(_) => Ok(false),
        }
    }

    fn finish(&mut self, call: u32, kepts: Kepts, out: Message) -> Result<bool, NoMemory>
        requires { IsReady self.old }
        ensures { IfOk result (λ done. Tries (moves.Finish call kepts (msg out)) done self.old self.new) }
    {
        let done = self.server.finish(call, kepts, out)?;
        if !done {
            return Ok(false);
        }
        self.go_on_for(call)?;
        Ok(true)
    }

    /// Plays a move. False where its condition doesn't hold now. The world isn't of use then, nor where there is no memory for it.
    pub(crate) fn play(&mut self, step: Move) -> Result<bool, NoMemory>
        requires { IsReady self.old }
        ensures { IfOk result (λ done. Tries (move_of step) done self.old self.new) }
    {
        match step {
            Move::Open { conn, group } => self.open(conn, group),
            Move::Start { conn, op, message } => self.start(conn, op, &message),
            Move::ToServer { conn, octets } => self.to_server(conn, octets),
            Move::ToCaller { conn, octets } => self.to_caller(conn, octets),
            Move::Cancel { conn } => self.cancel(conn),
            Move::Lose { conn } => self.lose(conn),
            Move::Restart => {
                self.restart()?;
                Ok(true)
            }
            Move::Take { call } => self.take(call),
            Move::Finish { call, kepts, out } => self.finish(call, kepts, out),
        }
    }

    /// How many calls were started.
    pub fn started(&self) -> usize
        ensures { (w : WorldSpec) → IsWorld self.now w → result ≡ length w.starts }
    {
        self.starts.len()
    }

    /// What is known of the call that was started at that place, from 0. None where fewer were started.
    pub fn fate(&self, at: usize) -> Option<FateRow<'_>>
        ensures { (w : WorldSpec) → IsWorld self.now w → MatchOption result (length w.starts ≤ at) (λ row. IsFate w at (fate_of row.fate.now) row.conn row.call) }
    {
        let started = self.starts.get(at)?;
        let line = self.lines.get(started.line)?;
        let fate = line.caller.fates.get(started.place)?;
        let call = number_at(line.serving.numbers.as_slice(), started.place);
        Some(FateRow {
            fate,
            conn: line.name,
            call,
        })
    }

    /// Whether a handle was issued, and is neither closed nor run down.
    pub fn is_live(&self, handle: WireHandle) -> bool
        ensures { result ≡ is_live (seen self.now.server).past handle }
    {
        match serial_named(self.server.entries(), &slot_of(handle)) {
            None => false,
            Some(serial) => handles::is_live(self.server.entries(), serial),
        }
    }

    /// Whether a handle was run down when the group ended.
    pub fn in_shut(&self, handle: WireHandle) -> bool
        ensures { result ≡ is_in_shut (seen self.now.server).past handle }
    {
        match serial_named(self.server.entries(), &slot_of(handle)) {
            None => false,
            Some(serial) => is_run_down(self.server.entries(), serial),
        }
    }

    /// The whole journal, the oldest entry first.
    pub fn journal(&self) -> &[Entry]
        ensures { reverse result.now ≡ (seen self.now.server).past }
    {
        self.server.entries()
    }
}
