//! A value of a shape, read from a place of a text.
ghost use Rattle.std.specs.Prelude.{◌≡◌, ◌≢◌, ◌^◌, IfOk, IfErr, drop, length};
ghost use Rattle.ndr_value.specs.Forms.{form, types_of};
ghost use Rattle.ndr_value.specs.Values.{val};
ghost use Rattle.value_text.specs.declared.departure.TextFault.TheVariants.{Memory};
ghost use Rattle.value_text.specs.Told.{Told, StandsAt, NoneStands};
ghost use Rattle.value_text.specs.Causes.{IsCaused};
ghost use Rattle.value_text.specs.Told as spec;

use crate::departure::{Departure, Stop, TextFault};
use crate::read::{Reader, value};
use ndr_value::{Shape, Shapes, Value};
use std::alloc::Global;

// How deep constructs and names are read: 256 pointers, and between each two of them 48 of names, structures, unions,
// arrays and references.
const ROOM: u32 = 257 * 48;

// How many levels are read one in another, of structures, unions, arrays, references and pointers: each takes some of the
// machine's stack, which is memory too. So many are 23 up to each of 256 pointers, and the pointers.
const MOST_NESTED: u16 = 257 * 24;

// The text from an index on.
fn from(at: usize, text: &[u8]) -> &[u8]
    ensures { result.now ≡ drop at text.now }
{
    if at > text.len() {
        return &[];
    }
    text.split_at(at).1
}

/// The value of the shape whose text stands at an index, and the index behind it: `types` are what `Named` numbers. The
/// text of a number goes as far as its digits do. An array whose elements are bytes is given by its octets.
///
/// # Errors
///
/// `Syntax` where no value text goes on with the octet at that index, or the text ends there. `Kind` where no value of the
/// shape goes on so, whatever its numbers and octets. `Range` where the number, the index, the slot or the octet of a text
/// that begins there is outside of its shape's range. The first of them in the order of the octets is told, at one place
/// `Syntax` before `Kind` before `Range`. `Memory` also where constructs nest thousands of levels deep.
pub fn read_value(
    alloc: Global,
    types: &Shapes,
    shape: &Shape,
    text: &[u8],
    at: usize,
) -> Result<(Value, usize), TextFault>
    ensures found { IfOk result (λ x. StandsAt (types_of types.now.items) (2 ^ 32) (form shape.now) text.now at (val x.0) x.1) }
    ensures none { IfErr result (λ e. e ≢ Memory → NoneStands (types_of types.now.items) (form shape.now) text.now at) }
    ensures exact { Told (types_of types.now.items) (form shape.now) text.now at result }
    // What stands at the index, and what stands before it.
    ensures cause { IfErr result (λ e. IsCaused (types_of types.now.items) (form shape.now) text.now at e) }
{
    told(alloc, types, shape, text, at)
}

// What is told of a text, with places from its begin.
fn told(
    alloc: Global,
    types: &Shapes,
    shape: &Shape,
    text: &[u8],
    at: usize,
) -> Result<(Value, usize), TextFault>
    ensures { Told (types_of types.now.items) (form shape.now) text.now at result }
{
    let reader = Reader { alloc, types };
    match value(ROOM, MOST_NESTED, &reader, 0, shape, from(at, text)) {
        Ok((value, rest)) => Ok((value, text.len().saturating_sub(rest.len()))),
        Err(Stop::Memory) => Err(TextFault::Memory),
        Err(Stop::Departs(departure)) => Err(departure.fault(text.len())),
    }
}

impl Departure {
    // The fault, in a text of so many octets.
    fn fault(self, len: usize) -> TextFault
        ensures { result ≡ spec.fault_of len self }
    {
        match self {
            Departure::Syntax(left) => TextFault::Syntax(len.saturating_sub(left)),
            Departure::Kind(left) => TextFault::Kind(len.saturating_sub(left)),
            Departure::Range(left) => TextFault::Range(len.saturating_sub(left)),
            Departure::TooDeep => TextFault::Memory,
        }
    }
}
