//! Links are given back.
ghost use Rattle.server_command.specs.Doors.{AreOut, TakesBack, links_in};

use rpc_outside::Door;
use server_counts::CountLink;
use server_rounds::Settled;

/// Gives the links of connections back to the door that handed them out, in their order.
pub(crate) fn give_back<D: Door>(door: &mut D, finished: Vec<Settled<CountLink<D::Link>>>)
    requires { AreOut finished.items (D.shows door.old) }
    ensures { TakesBack (D.shows door.old) (links_in finished.items) (D.shows door.new) }
{
    for settled in finished {
        door.back(settled.link.into_inner());
    }
}
