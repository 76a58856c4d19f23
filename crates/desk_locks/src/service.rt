//! The service with which connections are served.
ghost use Rattle.std.specs.Prelude.{◌≡◌};

use crate::pass::SharedPass;
use crate::shared::SharedDesks;
use desk_counts::Tally;
use desk_service::tables_with;
use desk_told::Telling;
use handle_model::{CookieRow, Due};
use manager_api::{Answer, Served};
use ndr_table::Table;
use ndr_value::Message;
use rpc_base::NoMemory;
use rpc_outside::Address;
use server_calls::{Manager, Service};
use std::alloc::Global;
use std::marker::Model;
use std::sync::{Arc, Wait};

/// The built-in interfaces and an echo, where there is one: the probe is interface 0, the store 1, the endpoint map 2,
/// management 3 and the echo's interface 4. Contracts see it as their managers, which keep what calls left, whichever
/// connection they came on.
#[derive(Drop)]
pub struct DeskService {
    alloc: Global,
    desks: SharedDesks,
    served: Served,
}

impl Model for DeskService {
    ghost use Rattle.std.specs.Prelude.{◌≡◌};
    ghost use Rattle.std.specs.Coded.{codes};
    ghost use Rattle.manager_api.specs.Served.{tables_in};
    ghost use Rattle.desk_locks.specs.declared.shared.SharedDesks.{SharedDesks as Desks};
    ghost use Rattle.desk_locks.specs.contracts.shared.SharedDesks as shared_desks;
    ghost use Rattle.desk_locks.specs.Calls.{tables_of};

    ghost Value = { Desks };

    ghost coded = { Prim.hlevel (codes, shared_desks.the_row.coded) };

    ghost view = { λ s. s.desks };

    ghost invariant = { λ s. tables_of s.desks ≡ tables_in s.served };
}

/// A service that threads may share.
fn shared<S: Service + Send + Sync + Drop + 'static>(service: S) -> S
    ensures { result ≡ service }
{
    service
}

impl DeskService {
    ghost use Rattle.std.specs.Prelude.{IfOk};
    ghost use Rattle.desk_service.specs.Shows.{shown_by};
    ghost use Rattle.desk_locks.specs.Calls.{echo_of};
    ghost use Rattle.desk_locks.specs.Offers.{OffersAll};
    ghost use Rattle.desk_locks.specs.Passes.{IsFresh, IsPassOf};

    /// The services before the first call, with an echo of that interface, and their first pass. Each interface is registered in the endpoint
    /// map at the address. Management tells the numbers of `tally`.
    ///
    /// # Errors
    ///
    /// `NoMemory` where there is no memory for the interfaces' tables or the map's entries.
    pub fn new(
        alloc: Global,
        at: Address,
        echo: Option<Table>,
        tally: Arc<Tally, Global>,
    ) -> Result<(DeskService, SharedPass), NoMemory>
        ensures echo { IfOk result (λ made. echo_of made.0 ≡ shown_by (λ t. t) echo) }
        ensures offers { IfOk result (λ made. OffersAll at made.0) }
        ensures pass { IfOk result (λ made. IsPassOf made.0 made.1) }
        ensures fresh { IfOk result (λ made. IsFresh made.0 made.1) }
    {
        let served = tables_with(alloc, echo.as_ref())?;
        let (desks, pass) = SharedDesks::new(alloc, at, echo, tally)?;
        let service = DeskService {
            alloc,
            desks,
            served,
        };
        Ok((shared(service), pass))
    }
}

impl Manager for DeskService {
    ghost use Rattle.desk_locks.specs.Calls.{echo_of, tables_of, May};
    ghost use Rattle.desk_locks.specs.Entering.{Enters};
    ghost use Rattle.desk_locks.specs.Passes.{IsPassOf, Splits, Joins};
    ghost use Rattle.desk_locks.specs.Rundowns.{RanDown};

    type Pass = SharedPass;

    ghost tables = { tables_of };

    ghost is_pass = { IsPassOf };

    ghost may = { λ m call told answer. May (echo_of m) call told answer };

    ghost enters = { Enters };

    ghost runs_down = { RanDown };

    ghost splits = { λ m before kept other. Splits before kept other };

    ghost joins = { λ m before other after. Joins before other after };

    fn call<R: Wait, P: Telling>(
        &self,
        rt: &R,
        pass: SharedPass,
        iface: u16,
        op: u16,
        message: Message,
        cookies: CookieRow,
        probe: &mut P,
    ) -> (SharedPass, Answer) {
        self.desks
            .call(rt, pass, iface, op, message, cookies, probe)
    }

    fn is_brief(&self, iface: u16, op: u16, stub: usize) -> bool {
        self.desks.is_brief(iface, op, stub)
    }

    fn rundown<R: Wait>(&self, rt: &R, pass: SharedPass, due: Due) -> SharedPass {
        self.desks.rundown(rt, pass, due)
    }

    fn split(&self, pass: &mut SharedPass) -> SharedPass {
        self.desks.split(pass)
    }

    fn join(&self, pass: &mut SharedPass, other: SharedPass) {
        self.desks.join(pass, other);
    }
}

impl Service for DeskService {
    fn served(&self) -> &Served {
        &self.served
    }

    fn alloc(&self) -> Global {
        self.alloc
    }
}
