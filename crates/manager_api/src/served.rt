//! The interfaces by number.
ghost use Rattle.std.specs.Prelude.{◌≡◌, ◌≤◌, ◌++◌, length, map, OnOk};
ghost use Rattle.ndr_table.specs.Shown.{shown};
ghost use Rattle.ndr_table.specs.Tables.{TableForm};

use ndr_table::Table;
use rpc_base::{Items, NoMemory, SyntaxId};
use std::alloc::Global;

/// The most interfaces that a server offers.
pub const MOST_INTERFACES: usize = 16;

/// Tables of interfaces, by number.
pub type Tables = Vec<Table>;

/// The interfaces that a server offers, numbered from 0.
#[derive(Drop)]
pub struct Served {
    tables: Tables,
    ghost few: { length tables.items ≤ 16 },
}

// Adds the identifiers of the interfaces.
fn add_ids(tables: &[Table], into: &mut Items<SyntaxId>) -> Result<(), NoMemory>
    ensures { OnOk result (into.new ≡ into.old ++ map (λ (t : TableForm). t.id) (map shown tables.now)) }
{
    match tables.split_first() {
        None => Ok(()),
        Some((first, others)) => {
            into.push(first.syntax())?;
            add_ids(others, into)
        }
    }
}

impl Served {
    ghost use Rattle.std.specs.Prelude.{◌≡◌, ◌≤◌, length, map, slice_get, IfOk, MatchOption, Some, None};
    ghost use Rattle.ndr_table.specs.Shown.{shown};
    ghost use Rattle.ndr_table.specs.Tables.{TableForm};
    ghost use Rattle.manager_api.specs.Served.{tables_in};

    /// The interfaces of these tables. It takes no memory.
    pub fn new(tables: Tables) -> Served
        requires { length tables.items ≤ MOST_INTERFACES }
        ensures { tables_in result ≡ map shown tables.items }
    {
        Served { tables }
    }

    /// The table of the interface of that number. None where there are no more than so many.
    pub fn table(&self, iface: u16) -> Option<&Table>
        ensures { MatchOption result (slice_get (tables_in self.now) iface ≡ None) (λ table. slice_get (tables_in self.now) iface ≡ Some (shown table.now)) }
    {
        self.tables.get(iface as usize)
    }

    /// The identifiers of the interfaces, in the order of their numbers.
    ///
    /// # Errors
    ///
    /// `NoMemory` where there is no memory for the list.
    pub fn ids(&self, alloc: Global) -> Result<Items<SyntaxId>, NoMemory>
        ensures exact { IfOk result (λ ids. ids ≡ map (λ (t : TableForm). t.id) (tables_in self.now)) }
        ensures few { IfOk result (λ ids. length ids ≤ MOST_INTERFACES) }
    {
        let mut ids = Items::new(alloc);
        add_ids(&self.tables, &mut ids)?;
        Ok(ids)
    }
}
