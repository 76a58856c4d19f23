//! The end of a call, by its manager's answer.
ghost use Rattle.std.specs.Prelude.{◌≡◌, ◌≤◌, length, true};
ghost use Rattle.handle_model.specs.Journal.{suit};
ghost use Rattle.ndr_value.specs.Values.{msg};
ghost use Rattle.manager_api.specs.Answers.{ans};
ghost use Rattle.conn_histories.specs.Requests.{HasSlots, IsAsked};
ghost use Rattle.conn_histories.specs.Ends as spec;
ghost use Rattle.manager_api.specs.ServedCalls.{Owed};
ghost use Rattle.manager_api.specs.Served.{tables_in};
ghost use Rattle.server_calls.specs.Said.{SaysOfCall};
ghost use Rattle.server_calls.specs.Suited.{suit_cookies};

use crate::given::kepts_suit;
use crate::outcomes::Room;
use crate::words::said;
use handle_model::{Asked, Home, Outcomes, Said};
use manager_api::{Answer, Served};
use ndr_value::Message;
use std::alloc::Global;

/// How a call ends.
#[derive(Debug, Drop)]
pub struct Ended {
    /// What becomes of the handle at each slot.
    pub results: Outcomes,
    /// The octets of the response, or a fault.
    pub said: Said,
}

/// How a call ends by its manager's answer. `message` is the call's, `cookies` are those that it was
/// given, one for each slot. Where there is no memory for the response's octets the call is answered
/// nca_s_fault_remote_no_memory; its results stand.
pub fn end_of(
    alloc: Global,
    served: &Served,
    home: Home,
    asked: &Asked,
    message: &Message,
    cookies: &[Option<u64>],
    answer: Answer,
    room: Room,
) -> Ended
    requires slots { HasSlots (tables_in served.now) asked.now.iface asked.now.op asked.now.order asked.now.stub asked.now.slots }
    requires few { length asked.now.slots ≤ 4 }
    requires cookies { suit_cookies asked.now.slots cookies.now ≡ true }
    requires asked { IsAsked (tables_in served.now) asked.now.iface asked.now.op asked.now.order asked.now.stub (msg message.now) }
    requires owes { Owed (tables_in served.now) (spec.call_with asked.now (msg message.now) cookies.now) (ans answer) }
    ensures results { result.results ≡ spec.results_of asked.now.slots cookies.now (ans answer) }
    ensures suit { suit asked.now.slots result.results ≡ true }
    ensures says { SaysOfCall home (tables_in served.now) asked.now (msg message.now) result.results (ans answer) result.said }
{
    let stub = asked.stub.as_slice();
    kepts_suit(served, asked, stub, message, cookies, &answer);
    let results = room.results(asked.slots.as_slice(), cookies, &answer);
    let Some(table) = served.table(asked.iface) else {
        unreachable!()
    };
    let said = said(
        alloc,
        table,
        home,
        asked,
        message,
        results.as_slice(),
        answer,
    );
    Ended { results, said }
}
