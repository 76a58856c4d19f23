//! What the messages of an operation, their stubs and their canonical octets have to do with one another.
ghost use Rattle.ndr_laws.specs.WrittenLaws.{ReadIsOfOp, StubIsOfOp, WrittenIsRead, WrittenIsStub};

/// A message whose values suit the operation has its canonical octets as a stub, in each order.
pub fn written_is_stub()
    ensures { WrittenIsStub }
{}

/// They are read as that message: what is written is read again.
pub fn written_is_read()
    ensures { WrittenIsRead }
{}

/// The values of a message that has octets as a stub suit the operation.
pub fn stub_is_of_op()
    ensures { StubIsOfOp }
{}

/// So do those of a message that is read from octets.
pub fn read_is_of_op()
    ensures { ReadIsOfOp }
{}
