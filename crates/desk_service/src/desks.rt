//! The desks as one value.
ghost use Rattle.std.specs.Prelude.{◌≡◌, ◌≤◌, IfOk, length};
ghost use Rattle.desk_service.specs.Calls.{ids_in};
ghost use Rattle.desk_service.specs.Shows.{shown_by};
ghost use Rattle.desk_service.specs.Start.{registered};
ghost use Rattle.desk_service.specs.State.{tables_with};

use crate::offers::register;
use crate::tables::tables_with as offered;
use echo_manager::{ProbeDesk, probe_table};
use epm_manager::EpmDesk;
use manager_api::Served;
use ndr_table::Table;
use rpc_base::{Items, NoMemory, SyntaxId};
use std::alloc::Global;
use store_manager::{StoreDesk, store_table};

/// The desks behind the interfaces of a server.
#[derive(Drop)]
pub struct ServiceDesks {
    pub(crate) alloc: Global,
    pub(crate) probe: ProbeDesk,
    pub(crate) store: StoreDesk,
    pub(crate) endpoints: EpmDesk,
    pub(crate) ids: Items<SyntaxId>,
    pub(crate) echo: Option<Table>,
    ghost told: { ids ≡ ids_in (tables_with (shown_by (λ t. t) echo)) },
    ghost few: { length ids ≤ 16 },
}

// An equal table, where there is one.
fn copied(alloc: Global, table: Option<&Table>) -> Result<Option<Table>, NoMemory>
    ensures { IfOk result (λ copy. shown_by (λ t. t) copy ≡ shown_by (λ t. t.now) table.entry) }
{
    match table {
        None => Ok(None),
        Some(table) => Ok(Some(table.copy(alloc)?)),
    }
}

// The map with the probe and the store.
fn endpoint_map(alloc: Global) -> Result<EpmDesk, NoMemory>
    ensures { IfOk result (λ map. map ≡ registered) }
{
    let mut map = EpmDesk::new(alloc);
    register(alloc, &mut map, probe_table(alloc)?.syntax())?;
    register(alloc, &mut map, store_table(alloc)?.syntax())?;
    Ok(map)
}

impl ServiceDesks {
    ghost use Rattle.std.specs.Prelude.{◌≡◌, IfOk};
    ghost use Rattle.manager_api.specs.Served.{tables_in};
    ghost use Rattle.desk_service.specs.Start.{at_start};
    ghost use Rattle.desk_service.specs.State as spec;
    ghost use Rattle.desk_service.specs.Shows.{shown_by};
    ghost use Rattle.desk_service.specs.Views.{services};

    /// The desks before the first call, with an echo of that interface. The probe and the store are
    /// registered in the endpoint map at 127.0.0.1, port 5000.
    ///
    /// # Errors
    ///
    /// `NoMemory` where there is no memory for the interfaces' identifiers, the map's entries or the
    /// echo's table.
    pub fn new(alloc: Global, echo: Option<&Table>) -> Result<ServiceDesks, NoMemory>
        ensures { IfOk result (λ desks. services desks ≡ at_start (shown_by (λ t. t.now) echo.entry)) }
    {
        let ids = offered(alloc, echo)?.ids(alloc)?;
        let endpoints = endpoint_map(alloc)?;
        let echo = copied(alloc, echo)?;
        Ok(ServiceDesks {
            alloc,
            probe: ProbeDesk::new(alloc),
            store: StoreDesk::new(alloc),
            endpoints,
            ids,
            echo,
        })
    }

    /// The interfaces.
    ///
    /// # Errors
    ///
    /// `NoMemory` where there is no memory for their tables.
    pub fn tables(&self, alloc: Global) -> Result<Served, NoMemory>
        ensures { IfOk result (λ served. tables_in served ≡ spec.tables_of (services self.now)) }
    {
        offered(alloc, self.echo.as_ref())
    }

    /// How many handles of the interface of that number were issued and are neither closed nor run down.
    pub fn open_handles(&self, iface: u16) -> usize
        ensures { result ≡ spec.handles_of (services self.now) iface }
    {
        match iface {
            0 => self.probe.open_handles(),
            1 => self.store.open_handles(),
            2 => self.endpoints.open_handles(),
            _ => 0,
        }
    }
}
