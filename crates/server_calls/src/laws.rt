//! Laws of the definitions, each the contract of a function that does nothing.
ghost use Rattle.server_calls.specs.Laws.{ResultsSuit, CookiesAreGiven, KeptsAreForSlots, NumberedStay};

/// What becomes of the handles suits the slots, where cookies and answer do.
pub fn results_suit()
    ensures { ResultsSuit }
{}

/// The message of a call and the cookies for its slots are what a desk is given.
pub fn cookies_are_given()
    ensures { CookiesAreGiven }
{}

/// A response to a request has what becomes of the handle for each slot.
pub fn kepts_are_for_slots()
    ensures { KeptsAreForSlots }
{}

/// Slots that get their serials are still those of the request, and as many.
pub fn numbered_stay()
    ensures { NumberedStay }
{}
