//! What the services of a server did for all its connections, as a law.
#![tactic(auto)]

ghost use Rattle.served_desks.specs.Once.{EachDeedStandsOnce};

use rpc_outside::Link;

/// Where a server served connections with the built-in services, each call that was answered and each handle that was run down stands
/// once in the one history of its service, those of one connection in the order of its entries.
pub fn each_deed_stands_once<K: Link>()
    ensures { EachDeedStandsOnce K.shows }
{}
