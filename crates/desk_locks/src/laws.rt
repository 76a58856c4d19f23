//! Laws of chains of passes, each the contract of a function that does nothing.
ghost use Rattle.desk_locks.specs.Tellings.{ChainsGain, EachStandsOnce};

/// What was done for a pass stands in the histories of the services, in its order, behind all that the pass had seen.
pub fn chains_gain()
    ensures { ChainsGain }
{}

/// Where connections began with passes that were split off one pass, and their last passes were joined to it, each of their deeds stands
/// once in the history of its service.
pub fn each_stands_once()
    ensures { EachStandsOnce }
{}
