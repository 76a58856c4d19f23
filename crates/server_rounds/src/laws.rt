//! A law of the definitions, as the contract of a function that does nothing.
ghost use Rattle.server_rounds.specs.Endings.{GroupsEnd};

use rpc_outside::Link;
use server_calls::Service;

/// At the end of a round each group whose connections are all of the round has ended: the last of them that left, or the
/// end of its last call, shut it.
pub fn groups_end<S: Service, K: Link>()
    ensures { GroupsEnd K.shows S.may S.tables }
{}
