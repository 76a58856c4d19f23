//! What may come while a call is unanswered: that it is called off.
ghost use Rattle.std.specs.Prelude.{◌≡◌, length, ℕ};
ghost use Rattle.conn_asks.specs.States.{ConnState as AState, calls_off_by};
ghost use Rattle.conn_core.specs.Steps as spec;

use crate::Conn;
use crate::next::Step;
use conn_asks::Act;
use pdu_codec::{Body, HEADER_SIZE, Pdu, PduFault, ptypes, raw_head};
use rpc_base::NoMemory;

impl Conn {
    ghost use Rattle.conn_core.specs.Steps.{Passes, Shortens, WaitsAfter, StepsFrom};
    ghost use Rattle.conn_core.specs.Fields.{IsAt, IsCallOf};

    /// The next PDU while the call of that id is unanswered.
    pub(crate) fn step_off(&mut self, call_id: u32) -> Result<Step, NoMemory>
        requires { IsCallOf call_id self.old.waits }
        ensures passes { Passes self.old self.new }
        ensures shorter { Shortens result (length self.old.fed.rest) (length self.new.fed.rest) }
        ensures waits { WaitsAfter result self.new.waits }
        ensures steps { (m : AState) → IsAt self.old m → StepsFrom m result self.new }
    {
        if !calls_off(self.feed.held()) {
            return Ok(Step::Stuck);
        }
        let pdu = match self.feed.next() {
            Ok(Some(pdu)) => pdu,
            Ok(None) => return Ok(Step::Stuck),
            Err(PduFault::Memory) => return Err(NoMemory),
            Err(_) => return Ok(Step::Stuck),
        };
        Ok(heard(&pdu, call_id))
    }
}

/// Whether it is the PTYPE of a co_cancel or an orphaned.
fn is_calling_off(kind: u8) -> bool
    ensures { result ≡ calls_off_by kind }
{
    matches!(kind, ptypes::CO_CANCEL | ptypes::ORPHANED)
}

/// Whether a header stands in front that has the PTYPE of a co_cancel or an orphaned.
fn calls_off(octets: &[u8]) -> bool
    ensures { result ≡ spec.calls_off octets.now }
{
    octets.len() >= HEADER_SIZE && is_calling_off(raw_head(octets).kind)
}

/// Whether a header stands in front that has another PTYPE.
pub(crate) fn holds_up(octets: &[u8]) -> bool
    ensures { result ≡ spec.holds_up octets.now }
{
    octets.len() >= HEADER_SIZE && !is_calling_off(raw_head(octets).kind)
}

/// What becomes of a co_cancel or an orphaned while the call of that id is unanswered.
fn heard(pdu: &Pdu, call_id: u32) -> Step
    ensures { result ≡ spec.heard_off call_id pdu.now }
{
    if call_id == pdu.call_id {
        Step::Acted(act_of(&pdu.body, pdu.call_id))
    } else {
        Step::Skipped
    }
}

/// What a co_cancel or an orphaned with that call id comes to.
fn act_of(body: &Body, call_id: u32) -> Act
    ensures { result ≡ spec.act_with call_id body.now }
{
    match body {
        Body::CoCancel => Act::Cancel(call_id),
        _ => Act::Orphan(call_id),
    }
}
