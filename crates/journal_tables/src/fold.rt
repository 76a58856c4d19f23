//! What folding needs: up to where, and the base of what went before.
ghost use Rattle.std.specs.Prelude.{◌≡◌, IfOk};
ghost use Rattle.handle_model.specs.History.{history_of};
ghost use Rattle.handle_model.specs.Journal.{Legal};
ghost use Rattle.handle_model.specs.Folds.{base_of};
ghost use Rattle.journal_tables.specs.Shown.{tables_of};
ghost use Rattle.journal_tables.specs.Floor.{floor_of};

use crate::conns::lesser_of;
use crate::tables::Tables;
use handle_model::{Base, Entry};
use rpc_base::NoMemory;
use std::alloc::Global;

impl Tables {
    /// The least place of the Join of an open connection or of the Accept of a running call.
    pub fn floor(&self) -> Option<u128>
        ensures { result ≡ floor_of self.now.tables }
    {
        lesser_of(self.conns.least_place(), self.calls.least_place())
    }

    /// The base that a further journal may go on from: that of the journal which these are the tables
    /// of, with its own base and entries.
    ///
    /// # Errors
    /// `NoMemory` where memory runs out, or where the count of entries leaves 64 bits.
    pub fn base(&self, alloc: Global, base: &Base, entries: &[Entry]) -> Result<Base, NoMemory>
        requires shows { self.now.tables ≡ tables_of (history_of self.now.tables.home base.now entries.now) }
        requires legal { Legal (history_of self.now.tables.home base.now entries.now) }
        ensures { IfOk result (λ made. made ≡ base_of (history_of self.now.tables.home base.now entries.now)) }
    {
        let Some(count) = base.count.checked_add(entries.len() as u64) else {
            return Err(NoMemory);
        };
        Ok(Base {
            count,
            joins: self.joins,
            accepts: self.accepts,
            opens: self.opens,
            conns: self.conns.numbers(alloc)?,
            calls: self.calls.calls(alloc, base, entries)?,
            handles: self.handles.copy(alloc)?,
        })
    }
}
