//! What a server's PDUs tell.
ghost use Rattle.std.specs.Prelude.{◌≡◌, ◌≤◌, true, Some, slice_get, IfOk};
ghost use Rattle.std.specs.Option.{option_map};
ghost use Rattle.pdu_codec.specs.Constants.{least_fragment, most_fragment};
ghost use Rattle.ndr_value.specs.Values.{msg};
ghost use Rattle.client_core.specs.declared.told.ClientFault.TheVariants.{Direction};
ghost use Rattle.client_core.specs.States.{told, is_calling, out_with, without, without_out};
ghost use Rattle.client_core.specs.States.Outcome.{TBroken, TDone};
ghost use Rattle.client_core.specs.Hears as spec;
ghost use Rattle.client_core.specs.State.{state};
ghost use Rattle.client_core.specs.Parts as parts;
ghost use Rattle.client_core.specs.Answers.{AnswersOut};

use crate::responses::{join_to, read_response};
use crate::{Client, ClientFault, Out, Stage, Told};
use ndr_codec::NdrFault;
use ndr_value::Message;
use pdu_codec::{
    AlterRespBody, BindAckBody, BindNakBody, Body, ContextResult, LEAST_FRAGMENT, MOST_FRAGMENT,
    Pdu, ResponseBody, flags,
};
use pdu_stream::{JoinFault, Joined};
use rpc_base::{NoMemory, Order, Status};

/// The result of a presentation context that is accepted, on the wire.
const ACCEPTANCE: u16 = 0;

/// What is added to the reason of a rejected presentation context.
const REJECTED: u16 = 16;

/// The PDU answers nothing.
fn misdirected() -> Option<Told>
    ensures { option_map told result ≡ Some (TBroken Direction) }
{
    Some(Told::Broken(ClientFault::Direction))
}

/// What the result of a presentation context tells.
fn result_told(found: &ContextResult, group: u32) -> Told
    ensures { told result ≡ spec.result_told found.now group }
{
    if found.result == ACCEPTANCE {
        Told::Bound(group)
    } else {
        Told::NotBound(found.reason.saturating_add(REJECTED))
    }
}

/// The most octets of a fragment to a server that takes so many.
fn sendable(max_recv: u16) -> u16
    ensures is { result ≡ spec.sendable max_recv }
    ensures least { least_fragment ≤ result }
    ensures most { result ≤ most_fragment }
{
    max_recv.min(MOST_FRAGMENT).max(LEAST_FRAGMENT)
}

/// That call id is dropped.
fn drop_id(ids: &mut Vec<u32>, call_id: u32)
    ensures { ids.new.items ≡ without call_id ids.old.items }
{
    ids.retain(|id| *id != call_id);
}

impl Client {
    /// Hears a PDU of the server: what it tells, if anything. `None` where it is a shutdown, where nothing is
    /// out with its call id, and where it is a fragment of the response after which others are to come.
    ///
    /// # Errors
    ///
    /// `NoMemory` where there is no memory for the response. The call stays out; where its fragment couldn't
    /// be joined, that is the answer to further ones too.
    pub fn on_pdu(&mut self, pdu: Pdu) -> Result<Option<Told>, NoMemory>
        ensures hears { spec.Hears (state self.old) pdu result (state self.new) }
        ensures answer { IfOk result (λ t. AnswersOut (state self.old) (option_map told t)) }
    {
        let Pdu {
            minor: _,
            flags,
            order,
            call_id,
            body,
        } = pdu;
        let out = self.out(call_id);
        match body {
            Body::BindAck(ack) => Ok(self.on_bind_ack(out, &ack)),
            Body::BindNak(nak) => Ok(self.on_bind_nak(out, &nak)),
            Body::AlterResp(ack) => Ok(self.on_alter_resp(out, call_id, &ack)),
            Body::Fault(fault) => Ok(self.on_fault(out, call_id, flags, fault.status)),
            Body::Response(part) => self.on_response(out, order, flags, call_id, part),
            Body::Shutdown => Ok(None),
            Body::Request(_) | Body::Bind(_) | Body::Alter(_) | Body::CoCancel | Body::Orphaned => {
                Ok(misdirected())
            }
        }
    }

    fn on_bind_ack(&mut self, out: Option<Out>, ack: &BindAckBody) -> Option<Told>
        ensures { spec.HearsBindAck (state self.old) out ack.now (option_map told result) (state self.new) }
    {
        match out {
            None => None,
            Some(Out::Bind) => self.bind_acked(ack),
            Some(_) => misdirected(),
        }
    }

    fn bind_acked(&mut self, ack: &BindAckBody) -> Option<Told>
        ensures { spec.AcksBind (state self.old) (slice_get ack.now.results 0) ack.now.group ack.now.max_recv (option_map told result) (state self.new) }
    {
        let Some(first) = ack.results.get(0) else {
            return misdirected();
        };
        if first.result == ACCEPTANCE {
            self.stage = Stage::Bound;
            self.most = sendable(ack.max_recv);
        } else {
            self.stage = Stage::Unbound;
        }
        Some(result_told(first, ack.group))
    }

    fn on_bind_nak(&mut self, out: Option<Out>, nak: &BindNakBody) -> Option<Told>
        ensures { spec.HearsBindNak (state self.old) out nak.now (option_map told result) (state self.new) }
    {
        match out {
            None => None,
            Some(Out::Bind) => {
                self.stage = Stage::Unbound;
                Some(Told::NotBound(nak.reason))
            }
            Some(_) => misdirected(),
        }
    }

    fn on_alter_resp(&mut self, out: Option<Out>, call_id: u32, ack: &AlterRespBody) -> Option<Told>
        ensures { spec.HearsAlterResp (state self.old) out call_id ack.now (option_map told result) (state self.new) }
    {
        match out {
            None => None,
            Some(Out::Alter) => self.alter_acked(call_id, ack),
            Some(_) => misdirected(),
        }
    }

    fn alter_acked(&mut self, call_id: u32, ack: &AlterRespBody) -> Option<Told>
        ensures { spec.AcksAlter (state self.old) call_id (slice_get ack.now.results 0) ack.now.group (option_map told result) (state self.new) }
    {
        let Some(first) = ack.results.get(0) else {
            return misdirected();
        };
        self.settle(Out::Alter, call_id);
        Some(result_told(first, ack.group))
    }

    fn on_fault(
        &mut self,
        out: Option<Out>,
        call_id: u32,
        flags: u8,
        status: Status,
    ) -> Option<Told>
        ensures { spec.FaultTells (state self.old) out call_id flags status (option_map told result) (state self.new) }
    {
        let out = out?;
        self.settle(out, call_id);
        Some(Told::Fault {
            status,
            not_run: flags & flags::DID_NOT_EXECUTE != 0,
        })
    }

    /// What has that call id is out no more.
    fn settle(&mut self, out: Out, call_id: u32)
        ensures { (state self.new) ≡ without_out (state self.old) out call_id }
    {
        match out {
            Out::Bind => self.stage = Stage::Unbound,
            Out::Alter => drop_id(&mut self.alters, call_id),
            Out::Call => self.call = None,
        }
    }

    fn on_response(
        &mut self,
        out: Option<Out>,
        order: Order,
        flags: u8,
        call_id: u32,
        body: ResponseBody,
    ) -> Result<Option<Told>, NoMemory>
        requires { out ≡ out_with (state self.old) call_id }
        ensures hears { parts.HearsOut (state self.old) out (spec.fragment_of order flags call_id body) result (state self.new) }
        ensures answer { IfOk result (λ t. AnswersOut (state self.old) (option_map told t)) }
    {
        match out {
            None => Ok(None),
            Some(Out::Call) => self.on_fragment(order, flags, call_id, body),
            Some(_) => Ok(misdirected()),
        }
    }

    /// A fragment of the response.
    fn on_fragment(
        &mut self,
        order: Order,
        flags: u8,
        call_id: u32,
        body: ResponseBody,
    ) -> Result<Option<Told>, NoMemory>
        requires { is_calling (state self.old) ≡ true }
        ensures tells { parts.FragmentTellsEach (state self.old) (spec.fragment_of order flags call_id body) result (state self.new) }
        ensures answer { IfOk result (λ t. AnswersOut (state self.old) (option_map told t)) }
    {
        match self.join(order, flags, call_id, body) {
            Ok(None) => Ok(None),
            Ok(Some(joined)) => self.on_whole(&joined),
            Err(JoinFault::Memory) => Err(NoMemory),
            Err(fault) => Ok(Some(Told::Broken(ClientFault::Join(fault)))),
        }
    }

    /// Joins it to those before.
    fn join(
        &mut self,
        order: Order,
        flags: u8,
        call_id: u32,
        body: ResponseBody,
    ) -> Result<Option<Joined>, JoinFault>
        requires { is_calling (state self.old) ≡ true }
        ensures each { parts.JoinsEach (state self.old) (spec.fragment_of order flags call_id body) result (state self.new) }
        ensures out { is_calling (state self.new) ≡ true }
    {
        join_to(&mut self.call, order, flags, call_id, body)
    }

    /// The whole response.
    fn on_whole(&mut self, joined: &Joined) -> Result<Option<Told>, NoMemory>
        requires { is_calling (state self.old) ≡ true }
        ensures tells { parts.TellsEach (state self.old) joined.now result (state self.new) }
        ensures answer { IfOk result (λ t. AnswersOut (state self.old) (option_map told t)) }
    {
        match self.response(joined) {
            Ok(message) => {
                self.settle(Out::Call, 0);
                Ok(Some(Told::Done(message)))
            }
            Err(NdrFault::Memory) => Err(NoMemory),
            Err(fault) => Ok(Some(Told::Broken(ClientFault::Ndr(fault)))),
        }
    }

    /// The message of the whole response.
    fn response(&self, joined: &Joined) -> Result<Message, NdrFault>
        requires { is_calling (state self.now) ≡ true }
        ensures reads { parts.ReadsEach (state self.now) joined.now result }
        ensures of_op { IfOk result (λ m. AnswersOut (state self.now) (Some (TDone (msg m)))) }
    {
        match &self.call {
            Some(call) => read_response(self.alloc, &self.table, call, joined),
            None => unreachable!(),
        }
    }
}
