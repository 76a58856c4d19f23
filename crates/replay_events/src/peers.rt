//! All connections.
ghost use Rattle.std.specs.Prelude.{◌≡◌, ℕ, None, List, [], map, IfOk, OnOk, IsTrue, ◌↔◌, is_some};
ghost use Rattle.std.specs.List.{find};
ghost use Rattle.std.specs.Map.{values_of};
ghost use Rattle.std.specs.Option.{option_copied};
ghost use Rattle.replay_world.specs.Worlds.{Peer, is_named, put_peer};
ghost use Rattle.replay_world.specs.Replays.{name_of};
ghost use Rattle.replay_events.specs.Tables.{name_in};

use crate::Played;
use rpc_base::NoMemory;
use std::alloc::Global;
use std::collections::BTreeMap;
use std::marker::Model;

/// The connections of a replay, by name. Contracts see them by rising name.
#[derive(Drop)]
pub struct Peers {
    peers: BTreeMap<u32, Played>,
}

impl Model for Peers {
    ghost use Rattle.std.specs.Prelude.{List};
    ghost use Rattle.std.specs.Map.{values_of};
    ghost use Rattle.audit_tables.specs.Keyed.{IsTable};
    ghost use Rattle.replay_events.specs.declared.played.Played.{Played};
    ghost use Rattle.replay_events.specs.Tables.{name_in};

    ghost Value = { List Played };

    ghost view = { λ p. values_of p.peers.entries };

    ghost invariant = { λ p. IsTable name_in p.peers.entries };
}

impl Peers {
    ghost use Rattle.replay_events.specs.Showing.{Shows};
    ghost use Rattle.replay_events.specs.Tables.{ShowAll, ShowOthers, Takes, TakesOut, Finds, placed};

    /// No connections. It takes no memory.
    pub fn new(alloc: Global) -> Peers
        ensures { ShowAll result [] }
    {
        Peers {
            peers: BTreeMap::new(alloc),
        }
    }

    /// The connection of that name.
    pub fn get(&self, name: u32) -> Option<&Played>
        ensures { (ps : List Peer) → ShowAll self.now ps → Finds name ps (option_copied result) }
    {
        self.peers.get(&name)
    }

    /// Takes the connection of that name out, to be put back.
    pub fn take(&mut self, name: u32) -> Option<Played>
        ensures out { TakesOut name self.old result self.new }
        ensures shown { (ps : List Peer) → ShowAll self.old ps → Takes name ps result self.new }
    {
        self.peers.remove(&name)
    }

    /// Puts a connection back that was taken out, or a new one in.
    ///
    /// # Errors
    ///
    /// `NoMemory` where there is no memory for it.
    pub fn put(&mut self, played: Played) -> Result<(), NoMemory>
        ensures list { OnOk result (self.new ≡ placed played self.old) }
        ensures back { OnOk result ((ps : List Peer) (p : Peer) → ShowOthers p.name self.old ps → Shows played p → ShowAll self.new (put_peer p ps)) }
        ensures fresh { OnOk result ((ps : List Peer) (p : Peer) → ShowAll self.old ps → find (is_named p.name) ps ≡ None → Shows played p → ShowAll self.new (put_peer p ps)) }
    {
        self.peers.insert(played.name, played)?;
        Ok(())
    }

    /// The names, rising.
    ///
    /// # Errors
    ///
    /// `NoMemory` where there is no memory for the list.
    pub fn names(&self, alloc: Global) -> Result<Vec<u32>, NoMemory>
        ensures { IfOk result (λ names. (ps : List Peer) → ShowAll self.now ps → names.items ≡ map name_of ps) }
    {
        let names = names_of(alloc, &self.peers)?;
        Ok(names)
    }
}

fn names_of(alloc: Global, peers: &BTreeMap<u32, Played>) -> Result<Vec<u32>, NoMemory>
    ensures { IfOk result (λ names. names.items ≡ map name_in (values_of peers.now.entries)) }
{
    let mut names = Vec::new(alloc);
    for played in peers.values() {
        names.push(played.name)?;
    }
    Ok(names)
}
