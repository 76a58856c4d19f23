//! Watches a journal: its entries are judged one after the other, each by the tables of those before
//! it.
ghost use Rattle.std.specs.Prelude.{◌≡◌, ◌+◌, ◌<◌, ◌^◌, IfOk};
ghost use Rattle.handle_model.specs.Sound.{IsSoundBase};
ghost use Rattle.journal_audit.specs.Watching as spec;

use crate::verdict::Verdict;
use audit_tables::AuditTables;
use handle_model::{Base, Entry, Home};
use rpc_base::NoMemory;
use std::alloc::Global;
use std::marker::Model;

/// A journal as far as it was watched.
#[derive(Drop)]
pub(crate) struct Watch {
    /// Its tables, up to the first entry that isn't allowed.
    tables: AuditTables,
    /// The place of the next entry.
    place: u64,
    /// The place of the first entry that wasn't allowed.
    breach: Option<u64>,
}

impl Model for Watch {
    ghost use Rattle.journal_audit.specs.Watching.{Watched};

    ghost Value = { Watched };

    ghost view = { λ w. record { tables = w.tables; place = w.place; breach = w.breach } };
}

impl Watch {
    /// A journal that goes on from the base.
    pub(crate) fn of(alloc: Global, home: Home, base: &Base) -> Result<Watch, NoMemory>
        requires { IsSoundBase home base.now }
        ensures { IfOk result (λ watch. watch ≡ spec.started home base.now) }
    {
        Ok(Watch {
            tables: AuditTables::of(alloc, home, base)?,
            place: base.count,
            breach: None,
        })
    }

    /// Judges the entry, and enters it where it is allowed.
    fn judge(self, entry: &Entry) -> Result<Watch, NoMemory>
        ensures judged { IfOk result (λ watch. spec.WatchesBy self.breach self entry.now watch) }
        ensures place { IfOk result (λ watch. watch.place ≡ self.place) }
    {
        let mut watch = self;
        if watch.breach.is_some() {
            return Ok(watch);
        }
        if !watch.tables.admits(entry) {
            watch.breach = Some(watch.place);
            return Ok(watch);
        }
        watch.tables = watch.tables.enter(entry, u128::from(watch.place))?;
        Ok(watch)
    }

    /// The same with the next entry.
    pub(crate) fn with(self, entry: Entry) -> Result<Watch, NoMemory>
        requires { self.place + 1 < 2 ^ 64 }
        ensures { IfOk result (spec.Watches self entry) }
    {
        let mut watch = self.judge(&entry)?;
        watch.place += 1;
        Ok(watch)
    }

    /// What is said of the journal, if it has no further entry.
    pub(crate) fn verdict(&self) -> Verdict
        ensures { result ≡ spec.said_of self.now }
    {
        match self.breach {
            Some(place) => Verdict::Breach {
                index: place as usize,
            },
            None if self.tables.is_due() => Verdict::Breach {
                index: self.place as usize,
            },
            None => Verdict::Legal(self.place as usize),
        }
    }
}
