//! The base after some entries.
ghost use Rattle.std.specs.Prelude.{◌≡◌, ◌+◌, ◌<◌, false, length, reverse, take, IfOk};
ghost use Rattle.std.specs.List.{list_any};
ghost use Rattle.handle_model.specs.Folds.{advance};
ghost use Rattle.handle_model.specs.History.{history_of};
ghost use Rattle.handle_model.specs.Journal.{Legal, is_shut};
ghost use Rattle.journal_tables.specs.Shown.{tables_of};
ghost use Rattle.journal_tables.specs.Folding.{BaseBegun};

use crate::Tables;
use handle_model::{Base, Entry, Home};
use rpc_base::NoMemory;
use std::alloc::Global;

/// The base after these entries, where they are legal after that base and none ends the group: each
/// entry changes it in turn. Beside the base it takes a table of what is open, and gives it back.
///
/// # Errors
/// `NoMemory` where memory runs out, or where the count of entries leaves 64 bits.
pub fn folded_base(
    alloc: Global,
    home: Home,
    base: &Base,
    entries: &[Entry],
) -> Result<Base, NoMemory>
    requires legal { Legal (history_of home base.now entries.now) }
    requires begun { BaseBegun base.now }
    requires goes_on { list_any is_shut (reverse entries.now) ≡ false }
    ensures { IfOk result (λ made. made ≡ advance home base.now (reverse entries.now)) }
{
    let tables = tables_after(alloc, home, base, entries)?;
    let made = tables.base(alloc, base, entries)?;
    Ok(made)
}

/// The tables of the journal of these entries after that base, where they are legal. There is room for
/// nothing more.
///
/// # Errors
/// `NoMemory` where memory runs out.
pub fn tables_after(
    alloc: Global,
    home: Home,
    base: &Base,
    entries: &[Entry],
) -> Result<Tables, NoMemory>
    requires { Legal (history_of home base.now entries.now) }
    ensures { IfOk result (λ t. t.tables ≡ tables_of (history_of home base.now entries.now)) }
{
    let mut tables = Tables::of(alloc, home, base)?;
    for i in 0..entries.len() {
        tables.reserve(&entries[i])?;
        tables.enter(&entries[i], u128::from(base.count) + i as u128);
    }
    Ok(tables)
}
