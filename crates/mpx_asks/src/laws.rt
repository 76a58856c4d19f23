//! Laws of the definitions, each the contract of a function that does nothing.
ghost use Rattle.mpx_asks.specs.Laws.{IdsStayApart, AsksById, AsksWhileAlone};

/// At each moment the unanswered calls have different ids, and are as many at most as may be.
pub fn ids_stay_apart()
    ensures { IdsStayApart }
{}

/// A whole request breaks the protocol where its id is that of an unanswered call, and else asks what it does alone.
pub fn asks_by_id()
    ensures { AsksById }
{}

/// Where one call at a time is unanswered, PDUs ask what they ask of a connection that isn't multiplexed.
pub fn asks_while_alone()
    ensures { AsksWhileAlone }
{}
