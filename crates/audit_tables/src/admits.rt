//! Which entry may come next.
ghost use Rattle.std.specs.Prelude.{◌≡◌, ◌↔◌, IsTrue};
ghost use Rattle.journal_tables.specs.Tables as spec;

use crate::tables::AuditTables;
use handle_model::{Asked, Entry};
use journal_tables::{
    comes_next, fits_cancel, fits_deny, fits_end, fits_orphan, fits_slots, fits_take,
};

impl AuditTables {
    /// Whether the end of the group is due: a connection joined, none is open, no call runs, and the
    /// group has not ended.
    pub fn is_due(&self) -> bool
        ensures { result ≡ spec.is_due self.now }
    {
        self.joins != 0 && !self.shut && self.conns.is_empty() && !self.calls.any_runs()
    }

    /// Whether the entry may come next.
    pub fn admits(&self, entry: &Entry) -> bool
        ensures { IsTrue result ↔ spec.Admits self.now entry.now }
    {
        if self.shut || self.is_due() && !entry.is_shut() {
            return false;
        }
        self.fits(entry)
    }

    fn fits(&self, entry: &Entry) -> bool
        ensures { IsTrue result ↔ spec.FitsIn self.now entry.now }
    {
        match entry {
            Entry::Join { conn } => comes_next(*conn, self.joins),
            Entry::Accept { call, asked } => self.fits_accept(*call, asked),
            Entry::Take { call, cookies } => {
                fits_take(&self.handles, &self.calls, *call, cookies.as_slice())
            }
            Entry::Deny { call, slot } => fits_deny(&self.handles, &self.calls, *call, *slot),
            Entry::Cancel { call } => fits_cancel(&self.calls, *call),
            Entry::Orphan { call } => fits_orphan(&self.calls, *call),
            Entry::End { call, results, .. } => fits_end(&self.calls, *call, results.as_slice()),
            Entry::Leave { conn } => self.conns.has(*conn),
            Entry::Shut { due } => self.is_due() && self.handles.lists(due.as_slice()),
        }
    }

    fn fits_accept(&self, call: u32, asked: &Asked) -> bool
        ensures { IsTrue result ↔ spec.FitsIn self.now (Entry.Accept call asked.now) }
    {
        comes_next(call, self.accepts)
            && self.calls.is_below(call)
            && self.conns.has(asked.conn)
            && fits_slots(self.opens, asked.slots.as_slice())
    }
}
