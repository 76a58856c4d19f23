//! A move of a world leads on wherever its condition holds, as laws.

ghost use Rattle.world_moves.specs.Leads.{CallersLead, EndsEnter, FinishesLead, ServersLead, TakesAllLead};

use ndr_laws::read_is_stub;

/// In every world octets that are on the way to a caller may come there, as many as are on it or fewer.
pub fn callers_lead()
    ensures { CallersLead }
{
    read_is_stub();
}

/// So may octets that are on the way to the server: it does what they ask, and comes to rest.
pub fn servers_lead()
    ensures { ServersLead }
{
    read_is_stub();
}

/// A call that may end so has an End that says it, in the journal.
pub fn ends_enter()
    ensures { EndsEnter }
{}

/// In every world it may end so. A connection that stands and waits for its answer is given it, and goes on.
pub fn finishes_lead()
    ensures { FinishesLead }
{
    read_is_stub();
}

/// So may a call that waits be taken or denied, where no other is in its way.
pub fn takes_all_lead()
    ensures { TakesAllLead }
{
    read_is_stub();
}
