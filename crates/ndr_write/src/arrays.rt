//! The counts of arrays.
ghost use Rattle.std.specs.Prelude.{◌≡◌, ◌<◌, ◌^◌};
ghost use Rattle.ndr_value.specs.Values.{vals};
ghost use Rattle.ndr_model.specs.Fronts as spec;
ghost use Rattle.ndr_write.specs.Views.{under, Puts};

use crate::numbers::{count_of, counted};
use crate::state::Writer;
use ndr_arrays::{Counts, write_counts};
use ndr_value::{ArrayKind, Value};
use rpc_base::NoMemory;

/// The size of an array of so many elements, in a body of those members.
pub(crate) fn size_of(writer: &Writer<'_>, body: &[Value], kind: &ArrayKind, count: u64) -> u32
    ensures { result ≡ under writer.now spec.size_of (vals body.now) kind.now count }
{
    match kind {
        ArrayKind::ConformantVarying(most, _) => counted(writer.call.wanted(body, *most)),
        _ => count_of(count),
    }
}

/// The counts of an array of so many elements. `moved`: its max_count stands in front.
pub(crate) fn put_counts(
    writer: &Writer<'_>,
    body: &[Value],
    moved: bool,
    kind: &ArrayKind,
    count: u64,
    into: &mut Vec<u8>,
) -> Result<(), NoMemory>
    ensures { Puts result into.old.items into.new.items (under writer.now spec.array_counts (vals body.now) moved kind.now count) }
{
    let counts = Counts {
        most: size_of(writer, body, kind, count),
        actual: count_of(count),
    };
    write_counts(kind, writer.order, counts, !moved, into)
}
