//! The interfaces by number: hello is 0, the endpoint map 1 and management 2.
ghost use Rattle.std.specs.Prelude.{◌≡◌, IfOk};
ghost use Rattle.ndr_table.specs.Shown.{shown};
ghost use Rattle.manager_api.specs.Served.{tables_in};
ghost use Rattle.hello_server.specs.Calls as spec;

use epm_manager::epm_table;
use manager_api::Served;
use mgmt_manager::mgmt_table;
use ndr_table::Table;
use rpc_base::NoMemory;
use std::alloc::Global;

/// The number of hello.
pub const HELLO: u16 = 0;

/// The number of the endpoint map.
pub const ENDPOINTS: u16 = 1;

/// Their tables.
///
/// # Errors
///
/// `NoMemory` where there is no memory for them.
pub fn tables_with(alloc: Global, hello: &Table) -> Result<Served, NoMemory>
    ensures { IfOk result (λ served. tables_in served ≡ spec.tables_with (shown hello.now)) }
{
    let mut tables = Vec::new(alloc);
    tables.push(hello.copy(alloc)?)?;
    tables.push(epm_table(alloc)?)?;
    tables.push(mgmt_table(alloc)?)?;
    Ok(Served::new(tables))
}
