//! Laws of the definitions, each the contract of a function that does nothing.
ghost use Rattle.conn_core.specs.Ends.{ClosedForGood, FailedForGood};

/// After a close, and after a refused bind, there is no further act, whatever octets come.
pub fn closed_for_good()
    ensures { ClosedForGood }
{}

/// After lack of memory at `Conn::next` that is its one answer, whatever octets come.
pub fn failed_for_good()
    ensures { FailedForGood }
{}
