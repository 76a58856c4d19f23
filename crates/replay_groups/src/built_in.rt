//! Laws of the services.
ghost use Rattle.replay_groups.specs.Service.{EachIsDetermined, OneReplayWith};

use replay_world::{Serves, one_replay};

/// The built-in services. No value of it is made.
#[derive(Drop)]
pub struct BuiltIn;

impl Serves for BuiltIn {
    ghost use Rattle.replay_groups.specs.Service.{service_of};

    ghost service = { service_of };
}

/// To a call of an operation one answer follows from what the desks keep and what they are asked, unless memory ran out; and
/// so does what they keep once a handle is run down.
pub fn is_determined()
    ensures { EachIsDetermined }
{}

/// A text has one replay: what is printed and what is logged follow from its octets.
pub fn one_replay_with()
    ensures { OneReplayWith }
{
    is_determined();
    one_replay::<BuiltIn>();
}
