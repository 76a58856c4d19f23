//! Whether something is open in a base.
ghost use Rattle.std.specs.Prelude.{◌≡◌, nat_lt, length};
ghost use Rattle.handle_model.specs.Sound as spec;
ghost use Rattle.journal_audit.specs.Sounds as tests;

use handle_model::{Base, BaseCall};

/// Whether a connection is open in a base, or a call was taken.
pub fn is_held(base: &Base) -> bool
    ensures { result ≡ spec.is_held base.now }
{
    0 < base.conns.len() || any_taken(base.calls.as_slice())
}

#[tactic(auto, using(handle_model::proofs::Rest::resting))]
fn any_taken(calls: &[BaseCall]) -> bool
    ensures { result ≡ nat_lt 0 (length (tests.taken_of calls.now)) }
{
    for call in calls {
        if call.taken {
            return true;
        }
    }
    false
}
