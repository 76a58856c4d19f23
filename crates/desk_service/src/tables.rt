//! The tables of the interfaces.
ghost use Rattle.std.specs.Prelude.{◌≡◌, ◌++◌, ◌≤◌, IfOk, OnOk, length, map};
ghost use Rattle.ndr_table.specs.Shown.{shown};
ghost use Rattle.manager_api.specs.Served.{tables_in};
ghost use Rattle.desk_service.specs.State as spec;
ghost use Rattle.desk_service.specs.Shows.{shown_by};

use echo_manager::probe_table;
use epm_manager::epm_table;
use manager_api::{Served, Tables};
use mgmt_manager::mgmt_table;
use ndr_table::Table;
use rpc_base::NoMemory;
use std::alloc::Global;
use store_manager::store_table;

// Those that every server has.
fn built_in(alloc: Global) -> Result<Tables, NoMemory>
    ensures tables { IfOk result (λ tables. map shown tables.items ≡ spec.built_in) }
    ensures few { IfOk result (λ tables. length tables.items ≤ 4) }
{
    let mut tables = Vec::new(alloc);
    tables.push(probe_table(alloc)?)?;
    tables.push(store_table(alloc)?)?;
    tables.push(epm_table(alloc)?)?;
    tables.push(mgmt_table(alloc)?)?;
    Ok(tables)
}

/// The interfaces of the services, with the echo's behind the others.
///
/// # Errors
///
/// `NoMemory` where there is no memory for their tables.
pub fn tables_with(alloc: Global, echo: Option<&Table>) -> Result<Served, NoMemory>
    ensures { IfOk result (λ served. tables_in served ≡ spec.tables_with (shown_by (λ t. t.now) echo.entry)) }
{
    let mut tables = built_in(alloc)?;
    match echo {
        None => Ok(Served::new(tables)),
        Some(table) => {
            tables.push(table.copy(alloc)?)?;
            Ok(Served::new(tables))
        }
    }
}
