//! What answers the calls: hello, the endpoint map and management.
ghost use Rattle.std.specs.Prelude.{◌≡◌, ◌≤◌, IfOk, length};
ghost use Rattle.ndr_table.specs.Shown.{shown};
ghost use Rattle.manager_api.specs.Served.{tables_in};
ghost use Rattle.desk_service.specs.Calls.{ids_in};
ghost use Rattle.hello_server.specs.Calls as spec;

use crate::endpoints::endpoint_map;
use crate::managed::{manage, run_down_managed};
use crate::offered::{ENDPOINTS, HELLO};
use desk_counts::Tally;
use desk_locks::Locked;
use desk_text::TextService;
use desk_told::Telling;
use epm_manager::EpmDesk;
use handle_model::{CookieRow, Due};
use hello_desk::Hello;
use manager_api::{Answer, Served};
use ndr_table::Table;
use ndr_value::Message;
use rpc_base::{Items, NoMemory, SyntaxId};
use rpc_outside::Address;
use server_calls::Manager;
use std::alloc::Global;
use std::sync::{Arc, Wait};

/// Hello, the endpoint map and management. Hello and the map keep what their calls left, each behind a lock of its own;
/// management keeps nothing.
#[derive(Drop)]
pub struct HelloDesks {
    alloc: Global,
    hello: TextService<Hello>,
    endpoints: Locked<EpmDesk>,
    ids: Items<SyntaxId>,
    tally: Arc<Tally, Global>,
    ghost told: { ids ≡ ids_in (spec.tables_with (shown hello.table)) },
    ghost few: { length ids ≤ 16 },
}

impl HelloDesks {
    /// They before the first call, with hello's interface as that table, which is offered with the others. Each interface is
    /// registered in the endpoint map at the address. Management tells the numbers of `tally`.
    ///
    /// # Errors
    ///
    /// `NoMemory` where there is no memory for the map's entries.
    pub fn new(
        alloc: Global,
        at: Address,
        hello: Table,
        served: &Served,
        tally: Arc<Tally, Global>,
    ) -> Result<HelloDesks, NoMemory>
        requires { tables_in served.now ≡ spec.tables_with (shown hello) }
        ensures { IfOk result (λ desks. shown desks.hello.table ≡ shown hello) }
    {
        let ids = served.ids(alloc)?;
        let endpoints = endpoint_map(alloc, ids.as_slice(), at)?;
        Ok(HelloDesks {
            alloc,
            hello: TextService::new(alloc, hello, Hello::new()),
            endpoints: Locked::new(endpoints),
            ids,
            tally,
        })
    }
}

impl Manager for HelloDesks {
    ghost use Rattle.ndr_table.specs.Shown.{shown};
    ghost use Rattle.hello_server.specs.Calls.{tables_with, May};

    ghost tables = { λ service. tables_with (shown service.hello.table) };

    ghost may = { λ service call told answer. May (shown service.hello.table) call told answer };

    // Its locks tell no history.
    type Pass = ();

    ghost is_pass = { λ service pass. Unit {0} };

    ghost enters = { λ service before call told answer after. Unit {0} };

    ghost runs_down = { λ service before item after. Unit {0} };

    ghost splits = { λ service before kept other. Unit {0} };

    ghost joins = { λ service before other after. Unit {0} };

    fn call<R: Wait, P: Telling>(
        &self,
        rt: &R,
        _pass: (),
        iface: u16,
        op: u16,
        message: Message,
        cookies: CookieRow,
        probe: &mut P,
    ) -> ((), Answer) {
        match iface {
            HELLO => ((), self.hello.answer(rt, iface, op, &message, &cookies)),
            ENDPOINTS => {
                let desk = &self.endpoints;
                ((), desk.answer(rt, iface, op, message, cookies, probe))
            }
            _ => {
                let (ids, tally) = (&self.ids, &self.tally);
                (
                    (),
                    manage(self.alloc, ids, tally, iface, op, message, cookies, probe),
                )
            }
        }
    }

    fn is_brief(&self, iface: u16, op: u16, stub: usize) -> bool {
        self.hello.is_brief(iface, op, stub)
    }

    fn rundown<R: Wait>(&self, rt: &R, _pass: (), due: Due) {
        // A handle's kind is its interface's number times 65,536, and the number of its type.
        match due.kind() / (1 << 16) {
            0 => self.hello.run_down(rt, due),
            1 => self.endpoints.run_down(rt, due),
            _ => run_down_managed(self.alloc, due),
        }
    }

    fn split(&self, _pass: &mut ()) {}

    fn join(&self, _pass: &mut (), _other: ()) {}
}
