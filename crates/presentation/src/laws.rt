//! What holds of the accepted contexts, each law the contract of a function that does nothing.
ghost use Rattle.presentation.specs.Laws.{ServesWhatItAccepts, AcceptsWithinLimit, KeepsWhatItAccepts, OneAfterTheOther};

/// A context that is accepted for an interface was offered so, with NDR.
pub fn serves_what_it_accepts()
    ensures { ServesWhatItAccepts }
{}

/// No more contexts are accepted than a connection may have.
pub fn accepts_within_limit()
    ensures { AcceptsWithinLimit }
{}

/// What is accepted stays so, whatever is offered later.
pub fn keeps_what_it_accepts()
    ensures { KeepsWhatItAccepts }
{}

/// Offers in several PDUs are as good as offers in one.
pub fn one_after_the_other()
    ensures { OneAfterTheOther }
{}
