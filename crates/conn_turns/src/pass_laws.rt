//! Laws of the definitions, each the contract of a function that does nothing.
ghost use Rattle.conn_turns.specs.PassLaws.{CallsEnter, OthersEnter, TurnsAreKept, StoriesAreKept};

use crate::Serving;

/// What a call of a pass enters in a group stands in its journal behind all that came before.
pub fn calls_enter()
    ensures { CallsEnter }
{}

/// What others entered since a pass saw a group is of other connections than that which it serves, and of none of its
/// calls.
pub fn others_enter()
    ensures { OthersEnter }
{}

/// So the connection's turns stand as they did, up to the moment of the call.
pub fn turns_are_kept()
    ensures { TurnsAreKept }
{}

/// And its story, with each turn's reason, is what it was.
pub fn stories_are_kept<S: Serving>()
    ensures { StoriesAreKept S.server }
{}
