//! What is done at what a PDU asks.
ghost use Rattle.std.specs.Prelude.{◌≡◌, ℕ, ◌<◌, ◌≤◌, length, IfOk};
ghost use Rattle.pdu_codec.specs.Constants.{least_fragment};
ghost use Rattle.presentation.specs.Offers.{interface_of};
ghost use Rattle.conn_asks.specs.States.{ActsOnCall};
ghost use Rattle.conn_asks.specs.declared.events.Ask.TheVariants as asks;
ghost use Rattle.conn_asks.specs.Asking.{IsAnswerable};
ghost use Rattle.conn_core.specs.Doing.{IsClose, ActsWith, CanWait};
ghost use Rattle.conn_core.specs.Fields.{CanBind};

use conn_asks::{
    Act, Agreement, Ask, Caller, ConnFault, Waits, agreement, alter_resp, closing, refusal,
};
use pdu_codec::{AlterBody, BindAckBody, BindBody};
use pdu_stream::Joined;
use presentation::Contexts;
use rpc_base::{NoMemory, Octets};
use std::alloc::Global;

/// What is done, and what the connection waits for then.
pub(crate) type Done = (Act, Waits);

/// A bind waits for its group, and its bind_ack is ready but for that.
fn bind(
    alloc: Global,
    contexts: &mut Contexts,
    agreement_now: Agreement,
    caller: Caller,
    body: BindBody,
) -> Result<Option<Done>, NoMemory>
    requires few { length body.elements < 256 }
    requires wide { least_fragment ≤ body.max_recv }
    ensures acts { (flags : ℕ) → ActsWith contexts.old agreement_now (asks.Bind caller flags body) result contexts.new }
    ensures can { CanWait result }
{
    let results = contexts.offer(&body.elements)?;
    let agreement = agreement(body.max_xmit, body.max_recv);
    let ack = BindAckBody {
        max_xmit: agreement.max_xmit,
        max_recv: agreement.max_recv,
        group: agreement.group,
        address: Octets::new(alloc),
        results,
    };
    Ok(Some((Act::Group(body.group), Waits::Group(caller, ack))))
}

fn alter(
    alloc: Global,
    contexts: &mut Contexts,
    agreement: Agreement,
    caller: Caller,
    body: AlterBody,
) -> Result<Option<Done>, NoMemory>
    requires { length body.elements < 256 }
    ensures acts { ActsWith contexts.old agreement (asks.Alter caller body) result contexts.new }
    ensures can { CanWait result }
{
    let results = contexts.offer(&body.elements)?;
    let octets = alter_resp(alloc, caller, agreement, results)?;
    Ok(Some((Act::Answer(octets), Waits::Nothing)))
}

fn call(alloc: Global, contexts: &Contexts, joined: Joined) -> Result<Done, NoMemory>
    ensures calls { IfOk result (λ done. ActsOnCall (interface_of contexts.now.accepted joined.context) joined done.0 done.1) }
    ensures can { IfOk result (λ done. CanBind done.1) }
{
    let caller = Caller {
        order: joined.order,
        call_id: joined.call_id,
        context: joined.context,
    };
    let maybe = joined.maybe;
    match contexts.find(joined.context) {
        Some(interface) => Ok((Act::Call(joined, interface), Waits::Call(caller, maybe))),
        None => Ok((Act::Answer(refusal(alloc, caller, maybe)?), Waits::Nothing)),
    }
}

/// The connection is closed.
pub(crate) fn close(alloc: Global, caller: Caller, why: ConnFault) -> Result<Done, NoMemory>
    ensures closes { IfOk result (λ done. IsClose caller why done.0 done.1) }
    ensures can { IfOk result (λ done. CanBind done.1) }
{
    let octets = closing(alloc, caller, why)?;
    Ok((Act::Close(octets, why), Waits::Over))
}

/// What is done at an ask while nothing is waited for. Nothing is done at a cancel or an orphaning, since no
/// call is unanswered.
pub(crate) fn act(
    alloc: Global,
    contexts: &mut Contexts,
    agreement: Agreement,
    ask: Ask,
) -> Result<Option<Done>, NoMemory>
    requires { IsAnswerable ask }
    ensures acts { ActsWith contexts.old agreement ask result contexts.new }
    ensures can { CanWait result }
{
    match ask {
        Ask::Bind(caller, _, body) => bind(alloc, contexts, agreement, caller, body),
        Ask::Alter(caller, body) => alter(alloc, contexts, agreement, caller, body),
        Ask::Call(joined) => Ok(Some(call(alloc, contexts, joined)?)),
        Ask::Broken(caller, why) => Ok(Some(close(alloc, caller, why)?)),
        Ask::Cancel(_) | Ask::Orphan(_) => Ok(None),
    }
}
