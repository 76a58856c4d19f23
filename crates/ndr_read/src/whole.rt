//! The message that stands in a stub.
ghost use Rattle.std.specs.Prelude.{◌≡◌, ◌+◌, ◌∷◌, [], ℕ, List, Option, Some, None, map, OnOk, MatchOption};
ghost use Rattle.ndr_value.specs.Forms.{form};
ghost use Rattle.ndr_value.specs.Values.{vals, msg};
ghost use Rattle.ndr_table.specs.Shown.{shown};
ghost use Rattle.ndr_table.specs.Tables.{param_form, result_form, op_form};
ghost use Rattle.ndr_scalars.specs.Scalars.{up};
ghost use Rattle.ndr_model.specs.Part.{tag_size};
ghost use Rattle.ndr_model.specs.Places.{noting};
ghost use Rattle.ndr_model.specs.Stub.{Entry, entries, entries_of, last_entry, ranged, start};
ghost use Rattle.ndr_model.specs.Stub as stub;
ghost use Rattle.ndr_model.specs.Build.{follows, no_more, read_values};
ghost use Rattle.ndr_model.specs.Message.{enough, message_of};
ghost use Rattle.ndr_pointers.specs.Gives.{Gives};
ghost use Rattle.ndr_pointers.specs.Views.{place, over};
ghost use Rattle.ndr_read.specs.Readings.{entry_at, before, reading_of, reading};
ghost use Rattle.ndr_read.specs.Views.{last_of, items_of, Finds, param_of};

use crate::build::build_whole;
use crate::heap::in_order;
use crate::notes::note;
use crate::state::Tail;
use ndr_model::{Departure, Mark, Way};
use ndr_pointers::{ReadError, Reader, aligned, tag_octets};
use ndr_table::{Bounds, Op, Param, Table};
use ndr_value::{Message, Shape, Value, Values, Wires};
use rpc_base::{NoMemory, Order};
use std::alloc::Global;
use std::mem;

// How deep constructs and names of a stub nest at most: between a pointer and the next stand less than
// 1,024, since types, parameters and results nest by value 256 levels, and there are 256 levels of
// pointers.
const ENOUGH: u32 = 257 * 1024;

// How many levels are read one in another, by value and through pointers: 16 by value at each level of
// pointers, or more at fewer. What nests deeper is want of memory, since each level takes some of the
// machine's stack.
const MOST_NESTED: u16 = 257 * 16;

// Whether a parameter goes that way.
fn goes(way: Way, param: &Param) -> bool
    ensures { result ≡ stub.goes way (param_form param.now) }
{
    match way {
        Way::Request => param.inward,
        Way::Response => param.outward,
    }
}

// A parameter's own Ref has no octets: what it points to stands in its place.
fn in_place(shape: &Shape) -> &Shape
    ensures { form result.now ≡ stub.of_param (form shape.now) }
{
    match shape {
        Shape::Ref(inner) => inner,
        _ => shape,
    }
}

// The mark of a number with a range, after an index.
fn note_range(
    reader: &Reader<'_>,
    shape: &Shape,
    range: Option<Bounds>,
    at: usize,
    tail: &mut Tail<'_>,
) -> Result<(), NoMemory>
    ensures { OnOk result (last_of tail.new ≡ noting (ranged range (up at (tag_size (form shape.now)))) (last_of tail.old)) }
{
    if range.is_none() {
        return Ok(());
    }
    if at > reader.octets.len() {
        // Nothing is read behind the last octet.
        return Err(NoMemory);
    }
    note(Mark::Ranged(aligned(at, tag_octets(shape))), tail)
}

fn read_entry<'a>(
    reader: &Reader<'a>,
    shape: &'a Shape,
    range: Option<Bounds>,
    tail: &mut Tail<'a>,
) -> Result<Value, ReadError>
    ensures { Finds result tail.new (over reader.now entry_at enough (record { shape = form shape.now; range = range }) (last_of tail.old)) }
{
    let at = tail.at;
    let value = build_whole(ENOUGH, MOST_NESTED, reader, 256, shape, tail)?;
    note_range(reader, shape, range, at, tail)?;
    Ok(value)
}

// The result, which is the last of a response.
fn last_shape(way: Way, result_shape: &Option<Shape>) -> Option<&Shape>
    ensures { MatchOption result (last_entry way (result_form result_shape.now) ≡ []) (λ s. last_entry way (result_form result_shape.now) ≡ record { shape = form s.now; range = None } ∷ []) }
{
    match way {
        Way::Request => None,
        Way::Response => match result_shape {
            None => None,
            Some(shape) => Some(shape),
        },
    }
}

// A parameter, where it goes that way.
fn read_param<'a>(
    reader: &Reader<'a>,
    param: &'a Param,
    way: Way,
    values: &mut Values,
    tail: &mut Tail<'a>,
) -> Result<(), ReadError>
    ensures { Gives (λ _. (vals values.new.items, last_of tail.new)) result (param_of reader.now way param.now (vals values.old.items) (last_of tail.old)) }
{
    if !goes(way, param) {
        return Ok(());
    }
    let value = read_entry(reader, in_place(&param.shape), param.range, tail)?;
    values.push(value)?;
    Ok(())
}

// The result, behind the parameters.
fn read_result<'a>(
    reader: &Reader<'a>,
    result_shape: &'a Option<Shape>,
    way: Way,
    values: Values,
    tail: &mut Tail<'a>,
) -> Result<Values, ReadError>
    ensures { Gives (λ vs. (vals vs.items, last_of tail.new)) result (before (vals values.items) (over reader.now follows enough (last_entry way (result_form result_shape.now)) (last_of tail.old))) }
{
    match last_shape(way, result_shape) {
        None => Ok(values),
        Some(shape) => {
            let mut values = values;
            let value = read_entry(reader, shape, None, tail)?;
            values.push(value)?;
            Ok(values)
        }
    }
}

// The parameters that go that way in order, and the result behind those of a response.
fn read_params<'a>(
    reader: &Reader<'a>,
    params: &'a [Param],
    result_shape: &'a Option<Shape>,
    way: Way,
    tail: &mut Tail<'a>,
) -> Result<Values, ReadError>
    ensures { Gives (λ vs. (vals vs.items, last_of tail.new)) result (over reader.now follows enough (entries_of way (map param_form params.now) (result_form result_shape.now)) (last_of tail.old)) }
{
    let mut values = Vec::new(reader.alloc);
    for param in params {
        read_param(reader, param, way, &mut values, tail)?;
    }
    read_result(reader, result_shape, way, values, tail)
}

// At most seven octets more.
fn end(reader: &Reader<'_>, values: Values, tail: &Tail<'_>) -> Result<Values, ReadError>
    ensures { Gives (λ vs. (vals vs.items, last_of tail.now)) result (over reader.now no_more (vals values.items, last_of tail.now)) }
{
    let len = reader.octets.len();
    if tail.at < len && len - tail.at > 7 {
        return Err(ReadError::Departs(Departure::Trailing(len - tail.at)));
    }
    Ok(values)
}

#[tactic(auto, unfolding(ndr_model::specs::Build::read_values))]
fn read_to_end<'a>(
    reader: &Reader<'a>,
    op: &'a Op,
    way: Way,
    tail: &mut Tail<'a>,
) -> Result<Values, ReadError>
    requires { last_of tail.old ≡ start }
    ensures { Gives (λ vs. (vals vs.items, last_of tail.new)) result (over reader.now read_values enough (entries way (op_form op.now))) }
{
    let values = read_params(reader, op.params.as_slice(), &op.result, way, tail)?;
    end(reader, values, tail)
}

// The message of values that were read. The marks stay.
fn message(alloc: Global, values: Values, tail: &mut Tail<'_>) -> Result<Message, ReadError>
    ensures { Gives (λ m. (msg m, (last_of tail.new).marks)) result (reading_of (vals values.items, last_of tail.old)) }
{
    let count = tail.seen.referents.len() as usize;
    let items = mem::replace(&mut tail.items, Vec::new(alloc));
    match in_order(alloc, items, count)? {
        None => Err(ReadError::Departs(Departure::TooDeep(0))),
        Some(heap) => {
            let wires = mem::replace(&mut tail.seen.wires, Wires::new(alloc));
            Ok(Message {
                values,
                heap,
                wires,
            })
        }
    }
}

/// The message of the operation that stands in a stub of that way, before counts, tags and ranges are
/// compared with what names them; the marks of what was read are then in the tail. Unless memory runs
/// out, its first departure where none stands there.
///
/// # Errors
///
/// `Departs` with the first departure where no message stands there, and `Memory` where memory runs out.
pub fn read<'a>(
    alloc: Global,
    table: &'a Table,
    op: &'a Op,
    way: Way,
    order: Order,
    octets: &'a [u8],
    tail: &mut Tail<'a>,
) -> Result<Message, ReadError>
    requires { last_of tail.old ≡ start }
    ensures { Gives (λ m. (msg m, (last_of tail.new).marks)) result (reading (shown table.now).types (op_form op.now) way order octets.now) }
{
    let reader = Reader {
        alloc,
        table,
        order,
        octets,
    };
    let values = read_to_end(&reader, op, way, tail)?;
    message(alloc, values, tail)
}
