//! What becomes of a handle.
ghost use Rattle.handle_model.specs.Fates.{OneFate, ClosingsAreEnds};

/// A handle that was issued was issued once, and is live, or closed once, or run down once.
pub fn one_fate()
    ensures { OneFate }
{}

/// A handle that was closed was closed by the End of a call, at a slot that names it.
pub fn closings_are_ends()
    ensures { ClosingsAreEnds }
{}
