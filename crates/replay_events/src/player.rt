//! The player of a replay.
ghost use Rattle.std.specs.Prelude.{IfOk, OnOk, Option};
ghost use Rattle.ndr_table.specs.Tables.{TableForm};
ghost use Rattle.desk_service.specs.Shows.{shown_by};
ghost use Rattle.desk_service.specs.Start.{at_start};
ghost use Rattle.replay_world.specs.Worlds.{booted};

use crate::{Peers, Played};
use desk_counts::Counted;
use handle_model::Reply;
use ndr_table::Table;
use replay_groups::Realm;
use rpc_base::NoMemory;
use std::alloc::Global;

/// A moment of a replay: its interfaces, groups and desks, its connections, what was counted on them, and the text on out.
#[derive(Drop)]
pub struct Player {
    pub alloc: Global,
    pub realm: Realm,
    pub peers: Peers,
    pub totals: Counted,
    pub out: Vec<u8>,
    /// What is replied to the call of the connection in hand, where that is known.
    pub told: Option<Reply>,
}

impl Player {
    ghost use Rattle.replay_events.specs.Standing.{Stands};
    ghost use Rattle.replay_events.specs.Hands.{Picks, PutsBack, OpensAs, HasName};

    /// That of a server with that boot word, with an echo of that interface, before the first connection.
    ///
    /// # Errors
    ///
    /// `NoMemory` where there is no memory for the tables and the desks.
    pub fn begin(alloc: Global, boot: u64, echo: Option<&Table>) -> Result<Player, NoMemory>
        ensures { IfOk result (λ player. Stands (shown_by (λ t. t.now) echo.entry) player (booted boot (at_start (shown_by (λ t. t.now) echo.entry)))) }
    {
        let realm = Realm::begin(alloc, boot, echo)?;
        let peers = Peers::new(alloc);
        let totals = Counted::new();
        let out = Vec::new(alloc);
        Ok(Player {
            alloc,
            realm,
            peers,
            totals,
            out,
            told: None,
        })
    }

    /// Takes the connection of that name in hand, to be put back. It takes no memory.
    pub fn pick(&mut self, name: u32) -> Option<Played>
        ensures { Picks name self.old result self.new }
    {
        self.told = None;
        self.peers.take(name)
    }

    /// Puts the connection in hand back.
    ///
    /// # Errors
    ///
    /// `NoMemory` where there is no memory for its place.
    pub fn put_back(&mut self, played: Played) -> Result<(), NoMemory>
        ensures { OnOk result (PutsBack self.old played self.new) }
    {
        self.peers.put(played)?;
        Ok(())
    }

    /// Opens a connection of that name. Answers false where there is one.
    ///
    /// # Errors
    ///
    /// `NoMemory` where there is no memory for it.
    pub fn open(&mut self, name: u32) -> Result<bool, NoMemory>
        ensures { IfOk result (λ opened. OpensAs name opened self.old self.new) }
    {
        if self.has(name) {
            return Ok(false);
        }
        let ids = self.realm.served().ids(self.alloc)?;
        let played = Played::open(self.alloc, ids.as_slice(), name)?;
        self.peers.put(played)?;
        Ok(true)
    }

    /// Whether there is a connection of that name.
    fn has(&self, name: u32) -> bool
        ensures { HasName name self.now.peers result }
    {
        match self.peers.get(name) {
            Some(_) => true,
            None => false,
        }
    }
}
