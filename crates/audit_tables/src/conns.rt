//! The open connections.
ghost use Rattle.std.specs.Prelude.{◌≡◌, ◌==◌, ◌++◌, ◌∷◌, [], true, length, map, IfOk, OnOk};
ghost use Rattle.handle_model.specs.Sound.{IsSoundBase};
ghost use Rattle.journal_tables.specs.Shown.{base_conn};
ghost use Rattle.audit_tables.specs.Conns as spec;

use handle_model::{Base, Home};
use journal_tables::OpenConn;
use rpc_base::NoMemory;
use std::alloc::Global;
use std::collections::BTreeMap;
use std::marker::Model;

/// The open connections of a group, by their numbers.
#[derive(Drop)]
pub struct ConnMap {
    conns: BTreeMap<u32, OpenConn>,
}

impl Model for ConnMap {
    ghost use Rattle.std.specs.Prelude.{List};
    ghost use Rattle.std.specs.Map.{values_of};
    ghost use Rattle.journal_tables.specs.declared.conns.OpenConn.{OpenConn};
    ghost use Rattle.audit_tables.specs.Keyed.{IsTable};
    ghost use Rattle.audit_tables.specs.Conns.{number_of};

    ghost Value = { List OpenConn };

    ghost view = { λ c. values_of c.conns.entries };

    ghost invariant = { λ c. IsTable number_of c.conns.entries };
}

impl ConnMap {
    ghost use Rattle.journal_tables.specs.Conns as conns;

    /// The connections of a base.
    pub(crate) fn of(alloc: Global, home: Home, base: &Base) -> Result<ConnMap, NoMemory>
        requires { IsSoundBase home base.now }
        ensures { IfOk result (λ all. all ≡ map (base_conn base.now.count) base.now.conns) }
    {
        let mut all = ConnMap {
            conns: BTreeMap::new(alloc),
        };
        for conn in base.conns.as_slice() {
            all.join(*conn, u128::from(base.count))?;
        }
        Ok(all)
    }

    /// Whether the connection is open.
    pub(crate) fn has(&self, conn: u32) -> bool
        ensures { result ≡ conns.has_open self.now conn }
    {
        self.conns.contains_key(&conn)
    }

    /// Whether none is open.
    pub(crate) fn is_empty(&self) -> bool
        ensures { result ≡ (length self.now == 0) }
    {
        self.conns.len() == 0
    }

    /// A connection is open from now on, of a number above those of the others. Its Join stands at that
    /// place.
    pub(crate) fn join(&mut self, conn: u32, place: u128) -> Result<(), NoMemory>
        requires { spec.over conn self.old ≡ true }
        ensures { OnOk result (self.new ≡ self.old ++ record { conn = conn; place = place } ∷ []) }
    {
        self.conns.insert(conn, OpenConn { conn, place })?;
        Ok(())
    }

    /// A connection is open no more.
    pub(crate) fn leave(&mut self, conn: u32)
        ensures { self.new ≡ conns.without conn self.old }
    {
        self.conns.remove(&conn);
    }
}
