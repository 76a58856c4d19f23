//! The end of a call.
ghost use Rattle.std.specs.Prelude.{◌≡◌, ◌≢◌, ◌≤◌, ◌↔◌, Option, Some, IfOk, length, true};
ghost use Rattle.handle_model.specs.declared.entry.Said.TheVariants.{Fault};
ghost use Rattle.handle_model.specs.Journal.{suit};
ghost use Rattle.conn_asks.specs.Answers.{FitsStub};
ghost use Rattle.ndr_value.specs.Values.{msg};
ghost use Rattle.conn_histories.specs.Ends.{Meets};
ghost use Rattle.conn_histories.specs.Requests as requests;
ghost use Rattle.manager_api.specs.Served.{tables_in};
ghost use Rattle.server_calls.specs.Suited.{suit_cookies};
ghost use Rattle.desk_service.specs.State.{tables_of};
ghost use Rattle.desk_service.specs.Views.{services};
ghost use Rattle.replay_groups.specs.Rows.{HasCookies, MayAnswer, MeetsRow};

use desk_counts::Counted;
use desk_service::ServiceDesks;
use handle_model::{Asked, CookieRow, Home, Said};
use manager_api::Served;
use ndr_value::Message;
use rpc_base::{NoMemory, Status};
use server_calls::{Ended, Room, end_of, first_cookies, message_of, row_for, same_message};
use std::alloc::Global;

/// Has the desk of a call's interface answer it, and ends it so. `cookies` are those that it was taken with, `cancelled` is
/// whether it was asked to end, and `numbers` are those of the calls and packets so far.
///
/// # Errors
///
/// `NoMemory` where there is no memory for the message or the response, or the desk has none. What the desks keep then is not
/// told.
pub fn finish(
    alloc: Global,
    served: &Served,
    desks: &mut ServiceDesks,
    home: Home,
    asked: &Asked,
    cookies: &CookieRow,
    cancelled: bool,
    numbers: Counted,
) -> Result<Ended, NoMemory>
    requires served { tables_in served.now ≡ tables_of (services desks.old) }
    requires slots { requests.HasSlots (tables_in served.now) asked.now.iface asked.now.op asked.now.order asked.now.stub asked.now.slots }
    requires few { length asked.now.slots ≤ 4 }
    requires cookies { HasCookies cookies.now asked.now.slots }
    ensures meets { IfOk result (MeetsRow home (tables_in served.now) (MayAnswer (services desks.old) numbers cancelled (services desks.new)) asked.now cookies.now cancelled) }
    ensures suit { IfOk result (λ ended. suit asked.now.slots ended.results ≡ true) }
    ensures memory { IfOk result (λ ended. ended.said ≢ Fault requests.no_memory) }
    ensures fits { IfOk result (λ ended. FitsStub (Some ended.said)) }
    ensures echo { (services desks.new).echo ≡ (services desks.old).echo }
{
    let message = message_of(alloc, served, asked)?;
    let given = message_of(alloc, served, asked)?;
    let room = Room::new(alloc)?;
    same_message(served, asked, &given, &message);
    let cookies = first_cookies(cookies, asked.slots.len());
    let ended = answered(
        alloc, served, desks, home, asked, &message, given, cookies, room, cancelled, numbers,
    );
    if wants_memory(&ended.said) {
        return Err(NoMemory);
    }
    Ok(ended)
}

/// The same with memory for the message, of which `given` is a copy, and for the results.
fn answered(
    alloc: Global,
    served: &Served,
    desks: &mut ServiceDesks,
    home: Home,
    asked: &Asked,
    message: &Message,
    given: Message,
    cookies: &[Option<u64>],
    room: Room,
    cancelled: bool,
    numbers: Counted,
) -> Ended
    requires served { tables_in served.now ≡ tables_of (services desks.old) }
    requires slots { requests.HasSlots (tables_in served.now) asked.now.iface asked.now.op asked.now.order asked.now.stub asked.now.slots }
    requires few { length asked.now.slots ≤ 4 }
    requires cookies { suit_cookies asked.now.slots cookies.now ≡ true }
    requires asked { requests.IsAsked (tables_in served.now) asked.now.iface asked.now.op asked.now.order asked.now.stub (msg message.now) }
    requires given { msg given ≡ msg message.now }
    ensures meets { Meets home (tables_in served.now) (MayAnswer (services desks.old) numbers cancelled (services desks.new)) asked.now cookies.now cancelled result.results result.said }
    ensures suit { suit asked.now.slots result.results ≡ true }
    ensures echo { (services desks.new).echo ≡ (services desks.old).echo }
{
    let row = row_for(served, asked, message, cookies);
    let answer = desks.answer(asked.iface, asked.op, given, row, cancelled, numbers);
    end_of(alloc, served, home, asked, message, cookies, answer, room)
}

fn wants_memory(said: &Said) -> bool
    ensures { (result ≡ true) ↔ (said.now ≡ Fault requests.no_memory) }
{
    match said {
        Said::Out(_) => false,
        Said::Fault(status) => *status == Status::NCA_S_FAULT_REMOTE_NO_MEMORY,
    }
}
