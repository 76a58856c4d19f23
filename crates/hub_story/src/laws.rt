//! What a group keeps of its journal, and what a pass has, each law the contract of a function that does
//! nothing.
ghost use Rattle.hub_story.specs.Laws.{AskedIsAsked, KeepsJoin, KeepsWhole, RunsAsAsked, RunsByFront, ServesByFront, StillHasAll};

/// What a group keeps is its whole journal, with the older entries in the base: what the laws of folds say
/// holds of both.
pub fn keeps_whole()
    ensures { KeepsWhole }
{}

/// A call of which it says that it was asked to end was, by the whole journal.
pub fn asked_is_asked()
    ensures { AskedIsAsked }
{}

/// Of a call that runs it says what the whole journal says.
pub fn runs_as_asked()
    ensures { RunsAsAsked }
{}

/// What a group that was opened keeps of its journal has a Join among its entries, so it isn't empty.
pub fn keeps_join()
    ensures { KeepsJoin }
{}

/// What a pass had to call with it still has after a call, but for what the call's own entries end.
pub fn still_has_all()
    ensures { StillHasAll }
{}

/// A connection that a pass entered is its own as long as no Leave of it was seen.
pub fn serves_by_front()
    ensures { ServesByFront }
{}

/// A call that a pass took runs as long as no End of it was seen.
pub fn runs_by_front()
    ensures { RunsByFront }
{}
