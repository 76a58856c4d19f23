//! That a group goes on.
ghost use Rattle.handle_model.specs.Waiting.{LeastGoesOn};

/// While no call runs, the least waiting call is blocked by none, and can be taken or denied in one
/// way.
pub fn least_goes_on()
    ensures { LeastGoesOn }
{}
