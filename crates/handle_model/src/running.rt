//! What holds while calls run.
ghost use Rattle.handle_model.specs.Running.{RunningApart, NamedLive, TakenLive, TakenIssued};

/// Two running calls don't conflict.
pub fn running_apart()
    ensures { RunningApart }
{}

/// Every handle that a running call names is live, with the slot's kind.
pub fn named_live()
    ensures { NamedLive }
{}

/// It was so when the call was taken.
pub fn taken_live()
    ensures { TakenLive }
{}

/// A call that was taken names handles of its group alone, that were issued or are among the
/// base's.
pub fn taken_issued()
    ensures { TakenIssued }
{}
