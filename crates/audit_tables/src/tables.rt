//! The tables together.
ghost use Rattle.std.specs.Prelude.{◌≡◌, IfOk};
ghost use Rattle.handle_model.specs.Sound.{IsSoundBase};
ghost use Rattle.journal_tables.specs.Shown.{base_tables};

use crate::calls::CallMap;
use crate::conns::ConnMap;
use crate::handles::HandleMap;
use handle_model::{Base, Home};
use rpc_base::NoMemory;
use std::alloc::Global;
use std::marker::Model;

/// The tables of a journal. Contracts see what they say.
#[derive(Drop)]
pub struct AuditTables {
    pub(crate) handles: HandleMap,
    pub(crate) calls: CallMap,
    pub(crate) conns: ConnMap,
    pub(crate) joins: u32,
    pub(crate) accepts: u32,
    pub(crate) opens: u32,
    pub(crate) shut: bool,
}

impl Model for AuditTables {
    ghost use Rattle.journal_tables.specs.Tables.{Tables};
    ghost use Rattle.audit_tables.specs.Kept.{IsWithin};

    ghost Value = { Tables };

    ghost view = { λ t. record {
      home = t.handles.home;
      items = t.handles.items;
      rows = t.calls;
      conns = t.conns;
      joins = t.joins;
      accepts = t.accepts;
      opens = t.opens;
      shut = t.shut;
    } };

    ghost invariant = { λ t. IsWithin t.joins t.conns };
}

impl AuditTables {
    /// The tables of a base.
    ///
    /// # Errors
    /// `NoMemory` where memory runs out.
    pub fn of(alloc: Global, home: Home, base: &Base) -> Result<AuditTables, NoMemory>
        requires { IsSoundBase home base.now }
        ensures { IfOk result (λ t. t ≡ base_tables home base.now) }
    {
        Ok(AuditTables {
            handles: HandleMap::of(alloc, home, base)?,
            calls: CallMap::of(alloc, home, base)?,
            conns: ConnMap::of(alloc, home, base)?,
            joins: base.joins,
            accepts: base.accepts,
            opens: base.opens,
            shut: false,
        })
    }
}
