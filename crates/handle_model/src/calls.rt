//! In what order the entries of a call stand.
ghost use Rattle.handle_model.specs.CallLaws.{AcceptsOnce, AcceptsNew, AsksAsAccepted, AskedStays, DecidesAfterAccept, DecidesBeforeLeave, DecidedOnce, CancelsOnce, OrphansOnce, TakesAfterAccept, TakesOnce, EndsAfterTake, EndsOnce};

/// A call is accepted once.
pub fn accepts_once()
    ensures { AcceptsOnce }
{}

/// A call that is accepted has a number that none had.
pub fn accepts_new()
    ensures { AcceptsNew }
{}

/// A call asks what its Accept says, whatever comes after.
pub fn asks_as_accepted()
    ensures { AsksAsAccepted }
{}

/// What a call asked stays, also what the base says of it.
pub fn asked_stays()
    ensures { AskedStays }
{}

/// A call is accepted before it is taken, denied, cancelled or orphaned.
pub fn decides_after_accept()
    ensures { DecidesAfterAccept }
{}

/// A call that doesn't run is taken, denied, cancelled or orphaned before its connection leaves.
pub fn decides_before_leave()
    ensures { DecidesBeforeLeave }
{}

/// A call is taken once or denied once, and never both.
pub fn decided_once()
    ensures { DecidedOnce }
{}

/// A call is cancelled once.
pub fn cancels_once()
    ensures { CancelsOnce }
{}

/// A call is orphaned once.
pub fn orphans_once()
    ensures { OrphansOnce }
{}

/// A call is accepted before it is taken.
pub fn takes_after_accept()
    ensures { TakesAfterAccept }
{}

/// A call is taken once.
pub fn takes_once()
    ensures { TakesOnce }
{}

/// A call is taken before it ends.
pub fn ends_after_take()
    ensures { EndsAfterTake }
{}

/// A call ends once.
pub fn ends_once()
    ensures { EndsOnce }
{}
