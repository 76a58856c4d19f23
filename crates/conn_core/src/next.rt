//! The next act of a connection.
ghost use Rattle.std.specs.Prelude.{◌≡◌, ◌<◌, ◌||◌, length, IfOk, IfSome};
ghost use Rattle.pdu_stream.specs.Cuts.{IsStop};
ghost use Rattle.conn_asks.specs.Asks.{is_bind, offered_by};
ghost use Rattle.conn_asks.specs.States.{ConnState as AState, WaitsBehind};
ghost use Rattle.conn_asks.specs.declared.events.Waits.TheVariants.{Nothing};

use crate::Conn;
use crate::acts::{act, close};
use conn_asks::{Act, Waits, ask, broken};
use pdu_codec::{Body, Pdu, PduFault};
use rpc_base::NoMemory;

/// What became of the next PDU.
#[derive(Debug, Drop)]
pub enum Step {
    /// It hasn't come, or has to wait.
    Stuck,
    /// It was taken, and nothing was done.
    Skipped,
    /// It was taken, or is none, and this was done.
    Acted(Act),
}

impl Conn {
    ghost use Rattle.conn_core.specs.Steps.{Passes, Shortens, WaitsAfter, StepsFrom, GoesFrom, IsFree, HearsAt, Stops};
    ghost use Rattle.conn_core.specs.Fields.{IsAt};

    /// The steps up to the next act.
    pub(crate) fn go(&mut self) -> Result<Option<Act>, NoMemory>
        ensures passes { Passes self.old self.new }
        ensures waits { IfOk result (λ done. IfSome done (λ act. WaitsBehind act self.new.waits)) }
        ensures goes { (m : AState) → IsAt self.old m → GoesFrom m result self.new }
    {
        loop {
            match self.step()? {
                Step::Stuck => return Ok(None),
                Step::Skipped => {}
                Step::Acted(act) => return Ok(Some(act)),
            }
        }
    }

    fn step(&mut self) -> Result<Step, NoMemory>
        ensures passes { Passes self.old self.new }
        ensures shorter { Shortens result (length self.old.fed.rest) (length self.new.fed.rest) }
        ensures waits { WaitsAfter result self.new.waits }
        ensures steps { (m : AState) → IsAt self.old m → StepsFrom m result self.new }
    {
        match &self.waits {
            Waits::Nothing => self.step_free(),
            Waits::Call(caller, _) => {
                let call_id = caller.call_id;
                self.step_off(call_id)
            }
            Waits::Group(..) | Waits::Over => Ok(Step::Stuck),
            Waits::Failed => Err(NoMemory),
        }
    }

    /// The next PDU while nothing is waited for.
    fn step_free(&mut self) -> Result<Step, NoMemory>
        requires { self.old.waits ≡ Nothing }
        ensures passes { Passes self.old self.new }
        ensures shorter { Shortens result (length self.old.fed.rest) (length self.new.fed.rest) }
        ensures waits { WaitsAfter result self.new.waits }
        ensures steps { (m : AState) → IsAt self.old m → StepsFrom m result self.new }
    {
        match self.feed.next() {
            Ok(Some(pdu)) => self.hear(pdu),
            Ok(None) => Ok(Step::Stuck),
            Err(PduFault::Memory) => Err(NoMemory),
            Err(fault) => self.stop(fault),
        }
    }

    /// Does what a PDU asks while nothing is waited for.
    fn hear(&mut self, pdu: Pdu) -> Result<Step, NoMemory>
        requires { length (offered_by pdu.body) < 256 }
        ensures fed { self.new.fed ≡ self.old.fed }
        ensures ids { self.new.served.ids ≡ self.old.served.ids }
        ensures agreement { self.new.agreement ≡ self.old.agreement }
        ensures waits { WaitsAfter result self.new.waits }
        ensures heard { (m : AState) → IsFree self.old m → HearsAt m pdu result self.new }
    {
        let bound = self.bound;
        self.bound = is_bound(bound, &pdu);
        let asked = match ask(bound, None, &mut self.joiner, pdu)? {
            Some(asked) => asked,
            None => return Ok(Step::Skipped),
        };
        match act(self.alloc, &mut self.contexts, self.agreement, asked)? {
            Some((act, waits)) => {
                self.waits = waits;
                Ok(Step::Acted(act))
            }
            None => Ok(Step::Skipped),
        }
    }

    /// Closes the connection at octets that are no PDU.
    fn stop(&mut self, fault: PduFault) -> Result<Step, NoMemory>
        requires { IsStop self.old.fed.rest fault }
        ensures { Stops self.old.fed.rest fault result self.old self.new }
    {
        let (caller, why) = broken(self.feed.held(), fault);
        let (act, waits) = close(self.alloc, caller, why)?;
        self.waits = waits;
        Ok(Step::Acted(act))
    }
}

/// Whether a bind came, behind the PDU.
fn is_bound(bound: bool, pdu: &Pdu) -> bool
    ensures { result ≡ (is_bind pdu.now.body || bound) }
{
    matches!(pdu.body, Body::Bind(_)) || bound
}
