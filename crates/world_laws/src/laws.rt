//! Laws of the definitions, each the contract of a function that does nothing.
ghost use Rattle.world_laws.specs.Clauses.{AllCallsAreRows, AllFatesAreTrue};
ghost use Rattle.world_laws.specs.Firsts.{OpensFirst, TakesNoneFirst};
ghost use Rattle.world_laws.specs.Keeping.{AllHandlesAreKept};
ghost use Rattle.world_laws.specs.Leading.{CancelsLead, LossesLead, OnlyWhereItMay, OpensLead, RestartsLead, StartsLead, TakesLead};
ghost use Rattle.world_laws.specs.Starts.{AllStartsAreRows};
ghost use Rattle.world_laws.specs.Telling.{AllFatesAreTold};

use ndr_laws::{one_message, written_is_stub};

/// Each call that the server accepted is one that the caller started, and no two of these have one number. So where the
/// journal is legal, no request is done twice, whatever is lost and however often the caller restarts.
pub fn calls_are_rows()
    ensures { AllCallsAreRows }
{}

/// What the caller is told of its calls is true: one that is done was taken once and ended once, and its End said that
/// message; one of which a fault says that it didn't run was never taken; one that is lost was taken at most once.
pub fn fates_are_true()
    ensures { AllFatesAreTrue }
{}

/// A connection may be opened first, by asking for a new group.
pub fn opens_first()
    ensures { OpensFirst }
{}

/// No call can be taken first: the moves stop there.
pub fn takes_none_first()
    ensures { TakesNoneFirst }
{}

/// There is one row for each call that the moves start, in their order, and none beside these.
pub fn starts_are_rows()
    ensures { AllStartsAreRows }
{}

/// A row's fate is what is told first behind the start of its call, by what happened at its caller's end. The octets between
/// both ends come in order, and the caller hears the PDUs of those that came to it as a client does. A connection stands
/// until it is lost or its octets break the protocol.
pub fn fates_are_told()
    ensures { AllFatesAreTold }
{}

/// A handle that came in a call told done is live or was run down, as long as each call that names it at an [in, out]
/// parameter was told done with it kept, or that it didn't run. This is so of operations each of whose handles goes in
/// or out, as those of every interface text do.
pub fn handles_are_kept()
    ensures { AllHandlesAreKept }
{
    one_message();
    written_is_stub();
}

/// A move leads to a world only where its condition holds: this is so of each kind of move.
pub fn only_where_it_may()
    ensures { OnlyWhereItMay }
{}

/// A connection with a new name may always be opened.
pub fn opens_lead()
    ensures { OpensLead }
{}

/// A call that is out may be called off.
pub fn cancels_lead()
    ensures { CancelsLead }
{}

/// A connection that stands may be lost.
pub fn losses_lead()
    ensures { LossesLead }
{}

/// A call that waits may be taken, where no other is in its way and the handles that it names are live.
pub fn takes_lead()
    ensures { TakesLead }
{}

/// The caller may always restart.
pub fn restarts_lead()
    ensures { RestartsLead }
{}

/// In every world a call may be started on a connection that is bound and has none out, with a message of the operation
/// whose octets are within the stub limit.
pub fn starts_lead()
    ensures { StartsLead }
{}
