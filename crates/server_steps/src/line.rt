//! A connection of a group.
ghost use Rattle.std.specs.Option.{option_copied};
ghost use Rattle.conn_asks.specs.Answers.{FitsStub};
ghost use Rattle.conn_histories.specs.Events.{word_of};
ghost use Rattle.server_steps.specs.Lines.{IsSame, IsJoined, IsIdle, IsReady, IsEnding};
ghost use Rattle.server_steps.specs.Calls.{IsWaiting, IsSettled, Says};
ghost use Rattle.server_steps.specs.Endings.{IsStopping};
ghost use Rattle.server_steps.specs.Steps.{HeardReady, HeardWaiting, GoesOn};
ghost use Rattle.server_steps.specs.Deeds.{SamePass};

use crate::early::{put_close, stopped};
use crate::stop::Stop;
use crate::{Heard, Wire};
use conn_asks::ConnFault;
use group_hub::{Hub, Pass, Retired};
use handle_model::{Asked, Reply, Said};
use rpc_outside::Link;
use server_calls::Manager;
use std::snapshot::Snapshot;

/// A connection that joined a group, while it is served.
#[derive(Drop)]
pub struct Line<K: Link> {
    pub wire: Wire<K>,
    /// What its thread has seen of the groups, and what it entered.
    pub pass: Pass,
    /// The group, and the connection's number there.
    pub group: u32,
    pub number: u32,
    /// That the group was retired, where its Shut was this connection's.
    pub retired: Option<Retired>,
    /// The pass as it was at first.
    pub began: Snapshot<Pass>,
}

impl<K: Link> Line<K> {
    /// Answers the bind by the group that it joined.
    ///
    /// # Errors
    ///
    /// Why the connection doesn't go on: the link failed, or there is no memory for the answer.
    pub fn bound<M: Manager>(&mut self, _hub: &Hub, _manager: &M, _asked: u32) -> Result<(), Stop>
        requires { IsJoined K.shows (M.may _manager.now) (M.tables _manager.now) _hub.now self.old _asked }
        ensures same { IsSame self.old self.new }
        ensures stays { SamePass self.old self.new }
        ensures goes { GoesOn K.shows (M.may _manager.now) (M.tables _manager.now) _hub.now result self.new }
    {
        match self.wire.bound(self.group) {
            Ok(()) => Ok(()),
            Err(fault) => Err(stopped(fault)),
        }
    }

    /// Hears what comes next, while every request so far is answered.
    pub fn hear_ready<M: Manager>(&mut self, _hub: &Hub, _manager: &M) -> Heard
        requires { IsReady K.shows (M.may _manager.now) (M.tables _manager.now) _hub.now self.old }
        ensures same { IsSame self.old self.new }
        ensures stays { SamePass self.old self.new }
        ensures heard { HeardReady K.shows (M.may _manager.now) (M.tables _manager.now) _hub.now result self.new }
    {
        self.wire.hear()
    }

    /// Hears what comes next, while a call waits.
    pub fn hear_waiting<M: Manager>(
        &mut self,
        _hub: &Hub,
        _manager: &M,
        _call: u32,
        _asked: &Asked,
    ) -> Heard
        requires { IsWaiting K.shows (M.may _manager.now) (M.tables _manager.now) _hub.now self.old _call _asked.now }
        ensures same { IsSame self.old self.new }
        ensures stays { SamePass self.old self.new }
        ensures heard { HeardWaiting K.shows (M.may _manager.now) (M.tables _manager.now) _hub.now _call _asked.now result self.new }
    {
        self.wire.hear()
    }

    /// Puts an answer that asks nothing of the group.
    ///
    /// # Errors
    ///
    /// Why the connection doesn't go on: the link failed.
    pub fn put<M: Manager>(&mut self, _hub: &Hub, _manager: &M, octets: &[u8]) -> Result<(), Stop>
        requires { IsIdle K.shows (M.may _manager.now) (M.tables _manager.now) _hub.now self.old octets.now }
        ensures same { IsSame self.old self.new }
        ensures stays { SamePass self.old self.new }
        ensures goes { GoesOn K.shows (M.may _manager.now) (M.tables _manager.now) _hub.now result self.new }
    {
        match self.wire.put(octets) {
            Ok(()) => Ok(()),
            Err(_) => Err(Stop::Failed),
        }
    }

    /// Puts the last answer, that the connection is closed for a fault.
    pub fn refuse<M: Manager>(
        &mut self,
        _hub: &Hub,
        manager: &M,
        octets: &[u8],
        fault: ConnFault,
    ) -> Stop
        requires { IsEnding K.shows (M.may manager.now) (M.tables manager.now) _hub.now self.old octets.now fault }
        ensures same { IsSame self.old self.new }
        ensures stays { SamePass self.old self.new }
        ensures stops { IsStopping K.shows (M.may manager.now) (M.tables manager.now) _hub.now self.new result }
    {
        put_close(&mut self.wire, manager, octets, fault)
    }

    /// Answers a request that has its entries.
    ///
    /// # Errors
    ///
    /// Why the connection doesn't go on: the link failed, or there is no memory for the answer.
    pub fn answer<M: Manager>(&mut self, hub: &Hub, manager: &M, reply: &Reply) -> Result<(), Stop>
        requires settled { IsSettled K.shows (M.may manager.now) (M.tables manager.now) hub.now self.old reply.now }
        requires fits { FitsStub (word_of reply.now) }
        ensures same { IsSame self.old self.new }
        ensures stays { SamePass self.old self.new }
        ensures goes { GoesOn K.shows (M.may manager.now) (M.tables manager.now) hub.now result self.new }
    {
        match reply {
            Reply::Never(status) => self.say(hub, manager, Some(&Said::Fault(*status)), false),
            Reply::Ran(said) => self.say(hub, manager, Some(said), true),
            Reply::Dropped => self.say(hub, manager, None, false),
            Reply::Open => unreachable!(),
        }
    }

    /// Says to the client of a request what its reply says.
    fn say<M: Manager>(
        &mut self,
        _hub: &Hub,
        _manager: &M,
        said: Option<&Said>,
        executed: bool,
    ) -> Result<(), Stop>
        requires { Says K.shows (M.may _manager.now) (M.tables _manager.now) _hub.now self.old (option_copied said) executed }
        ensures same { IsSame self.old self.new }
        ensures stays { SamePass self.old self.new }
        ensures goes { GoesOn K.shows (M.may _manager.now) (M.tables _manager.now) _hub.now result self.new }
    {
        match self.wire.reply(said, executed) {
            Ok(()) => Ok(()),
            Err(fault) => Err(stopped(fault)),
        }
    }
}
