//! The open connections.
ghost use Rattle.std.specs.Prelude.{◌≡◌, ◌+◌, ◌<◌, ◌≤◌, ◌++◌, ◌∷◌, ◌==◌, [], length, map, IfOk, OnOk, OnErr};
ghost use Rattle.handle_model.specs.Journal.{least};
ghost use Rattle.journal_tables.specs.declared.conns.OpenConn.{OpenConn};
ghost use Rattle.journal_tables.specs.Shown.{base_conn};
ghost use Rattle.journal_tables.specs.Floor as floor;
ghost use Rattle.journal_tables.specs.Floor.{open_places};

use handle_model::{Base, Conns};
use rpc_base::{Items, NoMemory};
use std::alloc::Global;
use std::marker::Model;

/// A connection that is open.
#[derive(Clone, Copy, Debug, PartialEq, Eq)]
pub struct OpenConn {
    /// Its number.
    pub conn: u32,
    /// Where its Join stands among the entries of the group, from 0.
    pub place: u128,
}

/// The open connections of a group.
#[derive(Drop)]
pub struct ConnTable {
    conns: Vec<OpenConn>,
    room: usize,
}

impl Model for ConnTable {
    ghost use Rattle.std.specs.Prelude.{◌+◌, ◌≤◌, vec_len, vec_capacity};
    ghost use Rattle.journal_tables.specs.Conns.{OpenConns};

    ghost Value = { OpenConns };

    ghost view = { λ t. record { conns = t.conns.items; room = t.room } };

    ghost invariant = { λ t. vec_len t.conns + t.room ≤ vec_capacity t.conns };
}

impl ConnTable {
    ghost use Rattle.journal_tables.specs.Conns as spec;

    /// The connections of a base. For no further one there is room.
    ///
    /// # Errors
    /// `NoMemory` where memory runs out.
    pub fn of(alloc: Global, base: &Base) -> Result<ConnTable, NoMemory>
        ensures { IfOk result (λ table. table ≡ record { conns = map (base_conn base.now.count) base.now.conns; room = 0 }) }
    {
        Ok(ConnTable {
            conns: open_conns(alloc, base)?,
            room: 0,
        })
    }

    /// Makes room for `n` connections more.
    ///
    /// # Errors
    /// `NoMemory` where memory runs out; the table is then as before.
    pub fn reserve(&mut self, n: usize) -> Result<(), NoMemory>
        ensures ok { OnOk result (n ≤ self.new.room) }
        ensures more { self.old.room ≤ self.new.room }
        ensures same { self.new.conns ≡ self.old.conns }
        ensures err { OnErr result (self.new ≡ self.old) }
    {
        if n <= self.room {
            return Ok(());
        }
        self.conns.reserve(n)?;
        self.room = n;
        Ok(())
    }

    /// Whether the connection is open.
    pub fn has(&self, conn: u32) -> bool
        ensures { result ≡ spec.has_open self.now.conns conn }
    {
        self.conns.iter().any(|open| open.conn == conn)
    }

    /// How many are open.
    pub fn len(&self) -> usize
        ensures { result ≡ length self.now.conns }
    {
        self.conns.len()
    }

    /// Whether none is open.
    pub fn is_empty(&self) -> bool
        ensures { result ≡ (length self.now.conns == 0) }
    {
        self.conns.len() == 0
    }

    /// Their numbers.
    ///
    /// # Errors
    /// `NoMemory` where memory runs out.
    pub fn numbers(&self, alloc: Global) -> Result<Conns, NoMemory>
        ensures { IfOk result (λ numbers. numbers ≡ map (λ (o : OpenConn). o.conn) self.now.conns) }
    {
        numbers_of(alloc, self.conns.as_slice())
    }

    /// The least place of the Join of one.
    pub fn least_place(&self) -> Option<u128>
        ensures { result ≡ least (open_places self.now.conns) }
    {
        least_place(self.conns.as_slice())
    }

    /// A connection is open from now on. Its Join stands at that place.
    pub fn join(&mut self, conn: u32, place: u128)
        requires { 0 < self.old.room }
        ensures conns { self.new.conns ≡ self.old.conns ++ record { conn = conn; place = place } ∷ [] }
        ensures room { self.new.room + 1 ≡ self.old.room }
    {
        self.room -= 1;
        self.conns.push(OpenConn { conn, place }).unwrap();
    }

    /// A connection is open no more.
    pub fn leave(&mut self, conn: u32)
        ensures conns { self.new.conns ≡ spec.without conn self.old.conns }
        ensures room { self.new.room ≡ self.old.room }
    {
        self.conns.retain(|open| open.conn != conn);
    }
}

#[tactic(auto, using(handle_model::proofs::Rest::resting))]
fn open_conns(alloc: Global, base: &Base) -> Result<Vec<OpenConn>, NoMemory>
    ensures { IfOk result (λ conns. conns.items ≡ map (base_conn base.now.count) base.now.conns) }
{
    let mut conns = Vec::new(alloc);
    for conn in base.conns.as_slice() {
        conns.push(OpenConn {
            conn: *conn,
            place: u128::from(base.count),
        })?;
    }
    Ok(conns)
}

#[tactic(auto, using(handle_model::proofs::Rest::resting))]
fn numbers_of(alloc: Global, conns: &[OpenConn]) -> Result<Conns, NoMemory>
    ensures { IfOk result (λ numbers. numbers ≡ map (λ (o : OpenConn). o.conn) conns.now) }
{
    let mut numbers = Items::new(alloc);
    for open in conns {
        numbers.push(open.conn)?;
    }
    Ok(numbers)
}

#[tactic(auto, using(handle_model::proofs::Rest::resting))]
fn least_place(conns: &[OpenConn]) -> Option<u128>
    ensures { result ≡ least (open_places conns.now) }
{
    let mut found = None;
    let mut at = conns.len();
    while at > 0 {
        at -= 1;
        found = lesser_of(Some(conns[at].place), found);
    }
    found
}

/// The lesser place, where there is one.
pub fn lesser_of(place: Option<u128>, other: Option<u128>) -> Option<u128>
    ensures { result ≡ floor.lesser_of place other }
{
    match (place, other) {
        (None, _) => other,
        (Some(_), None) => place,
        (Some(a), Some(b)) => Some(a.min(b)),
    }
}
