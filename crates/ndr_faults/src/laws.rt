//! What holds of departures.
ghost use Rattle.ndr_faults.specs.First.{ReadsFirst};
ghost use Rattle.ndr_faults.specs.Off.{StubDeparts};

/// A departure that is read is the first: no number before it departs, and whatever follows, it does.
pub fn reads_first()
    ensures { ReadsFirst }
{}

/// A departure of a stub of an operation of a table is the first that is read, and a part that is come to
/// departs so; or else a message stands in all the octets, and of its counts, tags and numbers with ranges
/// that don't agree it is the first.
pub fn stub_departs()
    ensures { StubDeparts }
{}
