//! A call runs, and ends.
ghost use Rattle.std.specs.Prelude.{◌≡◌, ◌≤◌, length, true, false, Some};
ghost use Rattle.handle_model.specs.Journal.{suit};
ghost use Rattle.conn_asks.specs.Answers.{FitsStub};
ghost use Rattle.ndr_value.specs.Values.{msg};
ghost use Rattle.conn_histories.specs.Requests.{HasSlots, IsAsked};
ghost use Rattle.conn_histories.specs.Ends.{Meets};
ghost use Rattle.manager_api.specs.Served.{tables_in};
ghost use Rattle.server_calls.specs.Suited.{suit_cookies};
ghost use Rattle.server_calls.specs.Ready.{Repeats};

use crate::manager::Manager;
use crate::{Ended, Room, end_of, row_for, same_message};
use desk_told::Telling;
use handle_model::{Asked, Home, Outcomes, Said};
use manager_api::Served;
use ndr_value::Message;
use rpc_base::Status;
use std::alloc::Global;
use std::sync::Wait;

/// How a call ends, and what its client is told of it.
#[derive(Debug, Drop)]
pub struct Answered {
    /// What becomes of the handle at each slot.
    pub results: Outcomes,
    /// What the end says.
    pub said: Said,
    /// The same.
    pub told: Said,
}

/// What an end says, twice. Where there is no memory for the octets a second time, it says
/// nca_s_fault_remote_no_memory.
fn twice(alloc: Global, said: Said) -> (Said, Said)
    ensures same { result.1 ≡ result.0 }
    ensures repeats { Repeats said result.0 }
{
    match said {
        Said::Fault(status) => (Said::Fault(status), Said::Fault(status)),
        Said::Out(octets) => match octets.copy(alloc) {
            Ok(copy) => (Said::Out(octets), Said::Out(copy)),
            Err(_) => (
                Said::Fault(Status::NCA_S_FAULT_REMOTE_NO_MEMORY),
                Said::Fault(Status::NCA_S_FAULT_REMOTE_NO_MEMORY),
            ),
        },
    }
}

/// Has the manager answer a call that was taken with these cookies, one for each slot, and ends it so. While it runs the
/// probe tells whether it was cancelled. `message` and `again` are the call's message. Where there is no memory for the
/// response's octets, its end says nca_s_fault_remote_no_memory; the results stand.
pub fn run<R: Wait, M: Manager, P: Telling>(
    rt: &R,
    alloc: Global,
    served: &Served,
    manager: &M,
    pass: M::Pass,
    home: Home,
    asked: &Asked,
    message: Message,
    again: &Message,
    cookies: &[Option<u64>],
    room: Room,
    probe: &mut P,
) -> (M::Pass, Answered)
    requires pass { M.is_pass manager.now pass }
    requires served { M.tables manager.now ≡ tables_in served.now }
    requires slots { HasSlots (tables_in served.now) asked.now.iface asked.now.op asked.now.order asked.now.stub asked.now.slots }
    requires few { length asked.now.slots ≤ 4 }
    requires cookies { suit_cookies asked.now.slots cookies.now ≡ true }
    requires message { IsAsked (tables_in served.now) asked.now.iface asked.now.op asked.now.order asked.now.stub (msg message) }
    requires again { IsAsked (tables_in served.now) asked.now.iface asked.now.op asked.now.order asked.now.stub (msg again.now) }
    requires untold { P.told probe.old ≡ false }
    ensures pass { M.is_pass manager.now result.0 }
    ensures meets { Meets home (tables_in served.now) (M.may manager.now) asked.now cookies.now (P.told probe.new) result.1.results result.1.said }
    // The pass has had that one call answered, as the end says.
    ensures enters { Meets home (tables_in served.now) (λ c told a. M.enters manager.now pass c told a result.0) asked.now cookies.now (P.told probe.new) result.1.results result.1.said }
    ensures key { P.key probe.new ≡ P.key probe.old }
    ensures suit { suit asked.now.slots result.1.results ≡ true }
    ensures told { result.1.told ≡ result.1.said }
    ensures fits { FitsStub (Some result.1.said) }
{
    same_message(served, asked, &message, again);
    let row = row_for(served, asked, again, cookies);
    let (iface, op) = (asked.iface, asked.op);
    let (pass, answer) = manager.call(rt, pass, iface, op, message, row, probe);
    let Ended { results, said } = end_of(alloc, served, home, asked, again, cookies, answer, room);
    let (said, told) = twice(alloc, said);
    let answered = Answered {
        results,
        said,
        told,
    };
    (pass, answered)
}
