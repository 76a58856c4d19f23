//! The service with which connections are served.
ghost use Rattle.std.specs.Prelude.{◌≡◌};

use crate::desks::HelloDesks;
use crate::offered::tables_with;
use desk_counts::Tally;
use desk_told::Telling;
use handle_model::{CookieRow, Due};
use manager_api::{Answer, Served};
use ndr_table::Table;
use ndr_value::Message;
use rpc_base::NoMemory;
use rpc_outside::Address;
use server_calls::{Manager, Service};
use std::alloc::Global;
use std::marker::Model;
use std::sync::{Arc, Wait};

/// Hello, the endpoint map and management, with the tables of their interfaces. Contracts see it as what answers the calls.
#[derive(Drop)]
pub struct HelloService {
    alloc: Global,
    desks: HelloDesks,
    served: Served,
}

impl Model for HelloService {
    ghost use Rattle.std.specs.Prelude.{◌≡◌};
    ghost use Rattle.std.specs.Coded.{codes};
    ghost use Rattle.ndr_table.specs.Shown.{shown};
    ghost use Rattle.manager_api.specs.Served.{tables_in};
    ghost use Rattle.hello_server.specs.declared.desks.HelloDesks.{HelloDesks as Desks};
    ghost use Rattle.hello_server.specs.contracts.desks.HelloDesks as desks_of;
    ghost use Rattle.hello_server.specs.Calls.{tables_with};

    ghost Value = { Desks };

    ghost coded = { Prim.hlevel (codes, desks_of.the_row.coded) };

    ghost view = { λ s. s.desks };

    ghost invariant = { λ s. tables_with (shown s.desks.hello.table) ≡ tables_in s.served };
}

/// A service that threads may share.
fn shared<S: Service + Send + Sync + Drop + 'static>(service: S) -> S
    ensures { result ≡ service }
{
    service
}

impl HelloService {
    ghost use Rattle.std.specs.Prelude.{IfOk};
    ghost use Rattle.ndr_table.specs.Shown.{shown};

    /// The service before the first call, with hello's interface as that table. Each interface is registered in the endpoint
    /// map at the address. Management tells the numbers of `tally`.
    ///
    /// # Errors
    ///
    /// `NoMemory` where there is no memory for the interfaces' tables or the map's entries.
    pub fn new(
        alloc: Global,
        at: Address,
        hello: Table,
        tally: Arc<Tally, Global>,
    ) -> Result<HelloService, NoMemory>
        ensures { IfOk result (λ service. shown service.hello.table ≡ shown hello) }
    {
        let served = tables_with(alloc, &hello)?;
        let desks = HelloDesks::new(alloc, at, hello, &served, tally)?;
        Ok(shared(HelloService {
            alloc,
            desks,
            served,
        }))
    }
}

impl Manager for HelloService {
    ghost use Rattle.ndr_table.specs.Shown.{shown};
    ghost use Rattle.hello_server.specs.Calls.{tables_with, May};

    ghost tables = { λ service. tables_with (shown service.hello.table) };

    ghost may = { λ service call told answer. May (shown service.hello.table) call told answer };

    // Its locks tell no history.
    type Pass = ();

    ghost is_pass = { λ service pass. Unit {0} };

    ghost enters = { λ service before call told answer after. Unit {0} };

    ghost runs_down = { λ service before item after. Unit {0} };

    ghost splits = { λ service before kept other. Unit {0} };

    ghost joins = { λ service before other after. Unit {0} };

    fn call<R: Wait, P: Telling>(
        &self,
        rt: &R,
        _pass: (),
        iface: u16,
        op: u16,
        message: Message,
        cookies: CookieRow,
        probe: &mut P,
    ) -> ((), Answer) {
        self.desks.call(rt, (), iface, op, message, cookies, probe)
    }

    fn is_brief(&self, iface: u16, op: u16, stub: usize) -> bool {
        self.desks.is_brief(iface, op, stub)
    }

    fn rundown<R: Wait>(&self, rt: &R, _pass: (), due: Due) {
        self.desks.rundown(rt, (), due);
    }

    fn split(&self, _pass: &mut ()) {}

    fn join(&self, _pass: &mut (), _other: ()) {}
}

impl Service for HelloService {
    fn served(&self) -> &Served {
        &self.served
    }

    fn alloc(&self) -> Global {
        self.alloc
    }
}
