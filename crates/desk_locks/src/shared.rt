//! The built-in services of a server, each behind a lock of its own.
ghost use Rattle.std.specs.Prelude.{◌≡◌, ◌≤◌, true, false, length};
ghost use Rattle.ndr_value.specs.Values.{msg};
ghost use Rattle.manager_api.specs.Answers.{ans, cancelled};
ghost use Rattle.manager_api.specs.ServedCalls.{IsCall, Owed};
ghost use Rattle.desk_service.specs.Calls.{ids_in};
ghost use Rattle.desk_service.specs.Shows.{shown_by};
ghost use Rattle.desk_service.specs.State.{tables_with};

use crate::BRIEF;
use crate::endpoints::endpoint_map;
use crate::keeper::Keeper;
use crate::lasting::{echo, manage, run_down_echo, run_down_managed};
use crate::pass::SharedPass;
use desk_counts::Tally;
use desk_service::tables_with as offered;
use desk_told::{Telling, ToldDesk};
use echo_manager::ProbeDesk;
use epm_manager::EpmDesk;
use handle_model::{CookieRow, Due};
use manager_api::Answer;
use ndr_table::Table;
use ndr_value::Message;
use rpc_base::{Items, NoMemory, SyntaxId};
use rpc_outside::Address;
use server_calls::Manager;
use std::alloc::Global;
use std::sync::{Arc, Wait};
use store_manager::StoreDesk;

// The numbers of the interfaces.
const PROBE: u16 = 0;

const STORE: u16 = 1;

const ENDPOINTS: u16 = 2;

const MANAGEMENT: u16 = 3;

/// The manager of the built-in services: the probe is interface 0, the store 1, the endpoint map 2,
/// management 3, and an echo of any interface, where there is one, 4. The first three keep what their
/// calls left, each behind a lock of its own; management tells of the interfaces and of numbers that
/// others add to, and an echo keeps nothing, so they take no lock.
#[derive(Drop)]
pub struct SharedDesks {
    alloc: Global,
    probe: ToldDesk<ProbeDesk>,
    store: ToldDesk<StoreDesk>,
    endpoints: ToldDesk<EpmDesk>,
    ids: Items<SyntaxId>,
    tally: Arc<Tally, Global>,
    echo: Option<Table>,
    ghost told: { ids ≡ ids_in (tables_with (shown_by (λ t. t) echo)) },
    ghost few: { length ids ≤ 16 },
}

impl SharedDesks {
    ghost use Rattle.std.specs.Prelude.{IfOk, is_some};
    ghost use Rattle.desk_locks.specs.Calls.{echo_of, tables_of, May};
    ghost use Rattle.desk_locks.specs.Offers.{OffersAll};
    ghost use Rattle.desk_locks.specs.Keepers.{place_for, place_of, HoldsOwn};
    ghost use Rattle.desk_locks.specs.Passes.{IsFresh, IsPassOf};

    /// The services before the first call, with an echo of that interface, and their first pass. Each interface is
    /// registered in the endpoint map at the address. `tally` has the numbers of calls and packets.
    ///
    /// # Errors
    ///
    /// `NoMemory` where there is no memory for the interfaces' identifiers or the map's entries.
    pub fn new(
        alloc: Global,
        at: Address,
        echo: Option<Table>,
        tally: Arc<Tally, Global>,
    ) -> Result<(SharedDesks, SharedPass), NoMemory>
        ensures echo { IfOk result (λ made. echo_of made.0 ≡ shown_by (λ t. t) echo) }
        ensures offers { IfOk result (λ made. OffersAll at made.0) }
        ensures pass { IfOk result (λ made. IsPassOf made.0 made.1) }
        ensures fresh { IfOk result (λ made. IsFresh made.0 made.1) }
    {
        let ids = offered(alloc, echo.as_ref())?.ids(alloc)?;
        let map = endpoint_map(alloc, ids.as_slice(), at)?;
        let (probe, of_probe) = ToldDesk::new(alloc, ProbeDesk::new(alloc))?;
        let (store, of_store) = ToldDesk::new(alloc, StoreDesk::new(alloc))?;
        let (endpoints, of_endpoints) = ToldDesk::new(alloc, map)?;
        let desks = SharedDesks {
            alloc,
            probe,
            store,
            endpoints,
            ids,
            tally,
            echo,
        };
        let pass = SharedPass {
            probe: of_probe,
            store: of_store,
            endpoints: of_endpoints,
        };
        Ok((desks, pass))
    }

    /// The service that kept something behind the handles of a kind: that of the interface in it, and the probe where none
    /// of that number is served.
    pub fn keeper(&self, kind: u32) -> Keeper<'_>
        ensures place { place_of result ≡ place_for (is_some self.now.echo) kind }
        ensures own { HoldsOwn self.now result }
    {
        match (kind / (1 << 16), &self.echo) {
            (1, _) => Keeper::Store(&self.store),
            (2, _) => Keeper::Endpoints(&self.endpoints),
            (3, _) => Keeper::Management,
            (4, Some(table)) => Keeper::Echo(table),
            _ => Keeper::Probe(&self.probe),
        }
    }

    /// Has a service answer that keeps nothing: management, or the echo.
    fn answer_unkept<P: Telling>(
        &self,
        iface: u16,
        op: u16,
        message: Message,
        cookies: CookieRow,
        probe: &mut P,
    ) -> Answer
        requires call { IsCall (tables_of self.now) (record { iface = iface; op = op; message = msg message; cookies = cookies }) }
        requires unkept { 3 ≤ iface }
        requires untold { P.told probe.old ≡ false }
        ensures may { May (echo_of self.now) (record { iface = iface; op = op; message = msg message; cookies = cookies }) (P.told probe.new) (ans result) }
        ensures owes { Owed (tables_of self.now) (record { iface = iface; op = op; message = msg message; cookies = cookies }) (ans result) }
        ensures told { ans result ≡ cancelled → P.told probe.new ≡ true }
        ensures key { P.key probe.new ≡ P.key probe.old }
    {
        match iface {
            MANAGEMENT => {
                let (ids, tally) = (&self.ids, &self.tally);
                manage(self.alloc, ids, tally, iface, op, message, cookies, probe)
            }
            _ => match &self.echo {
                Some(table) => echo(self.alloc, table, iface, op, message, cookies, probe),
                None => unreachable!(),
            },
        }
    }
}

impl Manager for SharedDesks {
    ghost use Rattle.desk_locks.specs.Calls.{echo_of, tables_of, May};
    ghost use Rattle.desk_locks.specs.Entering.{Enters};
    ghost use Rattle.desk_locks.specs.Passes.{IsPassOf, Splits, Joins};
    ghost use Rattle.desk_locks.specs.Rundowns.{RanDown};

    type Pass = SharedPass;

    ghost tables = { tables_of };

    ghost is_pass = { IsPassOf };

    ghost may = { λ m call told answer. May (echo_of m) call told answer };

    ghost enters = { Enters };

    ghost runs_down = { RanDown };

    ghost splits = { λ m before kept other. Splits before kept other };

    ghost joins = { λ m before other after. Joins before other after };

    fn call<R: Wait, P: Telling>(
        &self,
        rt: &R,
        pass: SharedPass,
        iface: u16,
        op: u16,
        message: Message,
        cookies: CookieRow,
        probe: &mut P,
    ) -> (SharedPass, Answer) {
        let mut pass = pass;
        match iface {
            PROBE => {
                let (desk, mine) = (&self.probe, pass.probe);
                let (mine, answer) = desk.answer(rt, mine, iface, op, message, cookies, probe);
                pass.probe = mine;
                (pass, answer)
            }
            STORE => {
                let (desk, mine) = (&self.store, pass.store);
                let (mine, answer) = desk.answer(rt, mine, iface, op, message, cookies, probe);
                pass.store = mine;
                (pass, answer)
            }
            ENDPOINTS => {
                let (desk, mine) = (&self.endpoints, pass.endpoints);
                let (mine, answer) = desk.answer(rt, mine, iface, op, message, cookies, probe);
                pass.endpoints = mine;
                (pass, answer)
            }
            _ => (pass, self.answer_unkept(iface, op, message, cookies, probe)),
        }
    }

    fn is_brief(&self, _iface: u16, _op: u16, stub: usize) -> bool {
        stub <= BRIEF
    }

    fn rundown<R: Wait>(&self, rt: &R, pass: SharedPass, due: Due) -> SharedPass {
        let mut pass = pass;
        match self.keeper(due.kind()) {
            Keeper::Probe(desk) => pass.probe = desk.run_down(rt, pass.probe, due),
            Keeper::Store(desk) => pass.store = desk.run_down(rt, pass.store, due),
            Keeper::Endpoints(desk) => pass.endpoints = desk.run_down(rt, pass.endpoints, due),
            Keeper::Management => run_down_managed(self.alloc, due),
            Keeper::Echo(table) => run_down_echo(self.alloc, table, due),
        }
        pass
    }

    fn split(&self, pass: &mut SharedPass) -> SharedPass {
        SharedPass {
            probe: self.probe.split(&mut pass.probe),
            store: self.store.split(&mut pass.store),
            endpoints: self.endpoints.split(&mut pass.endpoints),
        }
    }

    fn join(&self, pass: &mut SharedPass, other: SharedPass) {
        let SharedPass {
            probe,
            store,
            endpoints,
        } = other;
        self.probe.join(&mut pass.probe, probe);
        self.store.join(&mut pass.store, store);
        self.endpoints.join(&mut pass.endpoints, endpoints);
    }
}
