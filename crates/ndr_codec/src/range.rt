//! Numbers with ranges.
ghost use Rattle.std.specs.Prelude.{◌≡◌, ◌<◌, ◌↔◌, IsTrue, length, slice_get, Some};
ghost use Rattle.ndr_value.specs.Values.{msg};
ghost use Rattle.ndr_table.specs.Shown.{shown};
ghost use Rattle.ndr_table.specs.Tables.{OpForm};
ghost use Rattle.ndr_model.specs.Stub.{entries};
ghost use Rattle.ndr_agree.specs.Ranges.{InRange};

use ndr_agree::op_in_range;
use ndr_model::Way;
use ndr_table::Table;
use ndr_value::Message;

/// Whether each parameter of that way with a range holds a number in it, in a message of the operation
/// of that number. It takes no memory.
pub fn in_range(table: &Table, op: u16, way: Way, message: &Message) -> bool
    requires { op < length (shown table.now).ops }
    ensures { (o : OpForm) → slice_get (shown table.now).ops op ≡ Some o → (IsTrue result ↔ InRange (entries way o) (msg message.now).values) }
{
    match table.op(op) {
        None => false,
        Some(op) => op_in_range(op, way, message),
    }
}
