//! The answer to a request that is one too many.
ghost use Rattle.std.specs.Prelude.{◌≡◌, IfOk};
ghost use Rattle.mpx_asks.specs.Among as spec;

use conn_asks::{Caller, fault};
use rpc_base::{NoMemory, Octets, Status};
use std::alloc::Global;

/// The octets of the answer to a whole request while as many calls are unanswered as may be: nca_s_server_too_busy, and none
/// where no answer is wanted.
///
/// # Errors
///
/// `NoMemory` where there is no memory for the octets.
pub fn busy(alloc: Global, caller: Caller, maybe: bool) -> Result<Octets, NoMemory>
    ensures { IfOk result (λ octets. octets ≡ spec.busy caller maybe) }
{
    if maybe {
        Ok(Octets::new(alloc))
    } else {
        fault(alloc, caller, false, Status::NCA_S_SERVER_TOO_BUSY)
    }
}
