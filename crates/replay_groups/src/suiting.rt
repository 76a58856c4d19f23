//! Laws of calls at the desks, each the contract of a function that does nothing.
ghost use Rattle.replay_groups.specs.RealmLaws.{TakenSuit};

/// The row that a call is taken with has the cookies of its slots.
pub fn taken_suit()
    ensures { TakenSuit }
{}
