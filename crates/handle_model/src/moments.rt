//! A journal at two moments.
ghost use Rattle.handle_model.specs.Moments.{ShutIsLast, OlderIsLegal, MomentsInOrder, KindStays, CommonPastAgrees};

/// Nothing comes after a Shut.
pub fn shut_is_last()
    ensures { ShutIsLast }
{}

/// A legal journal was legal at each earlier moment.
pub fn older_is_legal()
    ensures { OlderIsLegal }
{}

/// Of two moments of one journal the one came before the other.
pub fn moments_in_order()
    ensures { MomentsInOrder }
{}

/// The kind of a handle stays.
pub fn kind_stays()
    ensures { KindStays }
{}

/// Two legal journals that begin alike agree on what they begin with.
pub fn common_past_agrees()
    ensures { CommonPastAgrees }
{}
