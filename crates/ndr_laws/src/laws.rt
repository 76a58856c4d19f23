//! What holds of the relation between messages and stubs.
ghost use Rattle.ndr_laws.specs.Laws.{ReadIsStub, StubIsRead, OneMessage};

/// A message that is read from octets has them as a stub.
pub fn read_is_stub()
    ensures { ReadIsStub }
{}

/// A message of an operation of a table that has octets as a stub is read from them.
pub fn stub_is_read()
    ensures { StubIsRead }
{}

/// Octets are a stub of one message at most, of an operation of a table.
pub fn one_message()
    ensures { OneMessage }
{}
