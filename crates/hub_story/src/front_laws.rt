//! Fronts go on, and what is open stays.
ghost use Rattle.hub_story.specs.FrontLaws.{CallsGoOn, FrontsCompare, FrontsGoOn, KeptGoesOn};
ghost use Rattle.hub_story.specs.Open.{AcceptsStay, CallsStay, FoldedEnded, FoldedLeft, JoinsStay, OwnStays, ShutsStay, TakesStay};

/// What a group keeps of its journal at one moment is a prefix of what it keeps later.
pub fn kept_goes_on()
    ensures { KeptGoesOn }
{}

/// So is what a front has of a group of what each later front has, that of a pass that took this one in
/// among them.
pub fn fronts_go_on()
    ensures { FrontsGoOn }
{}

/// The front before a call is a prefix of the front after it.
pub fn calls_go_on()
    ensures { CallsGoOn }
{}

/// Of two fronts at one shard, in whatever passes, one is a prefix of the other.
pub fn fronts_compare()
    ensures { FrontsCompare }
{}

/// The Join of an open connection stays among the entries that a group keeps, with all that came after it,
/// however often the group folded its journal.
pub fn joins_stay()
    ensures { JoinsStay }
{}

/// So does the Accept of each call of an open connection, whether the call is over or not.
pub fn calls_stay()
    ensures { CallsStay }
{}

/// So does the Accept of a call that waits or runs.
pub fn accepts_stay()
    ensures { AcceptsStay }
{}

/// The Take of a call that runs stays, until its End.
pub fn takes_stay()
    ensures { TakesStay }
{}

/// A Shut stays, since no connection joins behind it.
pub fn shuts_stay()
    ensures { ShutsStay }
{}

/// So a connection whose Join was folded away has left.
pub fn folded_left()
    ensures { FoldedLeft }
{}

/// And a call whose Take was folded away has ended.
pub fn folded_ended()
    ensures { FoldedEnded }
{}

/// What a pass entered and is still open stands in what each front since then has of the group, as the group
/// keeps it: a Join whose Leave isn't the pass's own, a Take whose End isn't, a Shut.
pub fn own_stays()
    ensures { OwnStays }
{}
