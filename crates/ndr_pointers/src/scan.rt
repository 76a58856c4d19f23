//! The end of a flat part.
ghost use Rattle.std.specs.Prelude.{◌≡◌, ◌-◌, ◌+◌, ◌≤◌, ◌<◌, ℕ, ℤ, Option, length, Ok, Some, None, slice_get, nat_lt, ◌==◌, if◌then◌else◌};
ghost use Rattle.ndr_value.specs.Forms.{form, forms, body, Body, OfByte};
ghost use Rattle.ndr_scalars.specs.Scalars.{up};
ghost use Rattle.ndr_pointers.specs.Shown.{known};
ghost use Rattle.ndr_model.specs.Reading.{number};
ghost use Rattle.ndr_model.specs.Scan.{scan_at, each, times, arm_scan, past_number};
ghost use Rattle.ndr_pointers.specs.Pointing.{pointer_scan, wire_scan};
ghost use Rattle.ndr_pointers.specs.Views.{place, over, scan_of, Scans};

use crate::pieces::{arm_for, tag_octets};
use crate::scan_fault::ReadError;
use crate::state::{Reader, Seen};
use crate::{PointerFault, Points};
use ndr_model::Departure;
use ndr_value::{Arm, Shape};

/// The index after the flat part of a value of the shape, with the full pointers and handles in it added to
/// those that were met: its pointers' referents aren't read. `room` is how many levels of pointers are
/// left, `moved` a max_count that stands in front of a structure.
///
/// # Errors
///
/// Its first departure, or want of memory.
#[tactic(auto, unfolding(ndr_model::specs::Scan::scan))]
#[cycle(scan)]
pub fn scan_flat<'a>(
    fuel: u32,
    reader: &Reader<'a>,
    room: u16,
    moved: Option<u32>,
    shape: &'a Shape,
    at: usize,
    seen: &mut Seen<'a>,
) -> Result<usize, ReadError>
    ensures { Scans result seen.new (scan_of reader.now fuel room moved (form shape.now) (place at seen.old)) }
{
    if fuel == 0 {
        return Err(ReadError::Departs(Departure::TooDeep(at)));
    }
    scan_one(fuel - 1, reader, room, moved, shape, at, seen)
}

#[cycle(scan)]
fn scan_one<'a>(
    fuel: u32,
    reader: &Reader<'a>,
    room: u16,
    moved: Option<u32>,
    shape: &'a Shape,
    at: usize,
    seen: &mut Seen<'a>,
) -> Result<usize, ReadError>
    ensures { Scans result seen.new (over reader.now scan_at room moved (scan_of reader.now fuel room) (form shape.now) (place at seen.old)) }
{
    match shape {
        Shape::Bool => past(reader, 1, at),
        Shape::Byte => past(reader, 1, at),
        Shape::Char => past(reader, 1, at),
        Shape::Int(size) => past(reader, *size, at),
        Shape::Uint(size) => past(reader, *size, at),
        Shape::Enum(count) => {
            let (_, after) = reader.name(*count, at)?;
            Ok(after)
        }
        Shape::Handle(_) => scan_wire(reader, at, seen),
        Shape::Text(size) => {
            let (_, after) = reader.chars(*size, moved, at)?;
            Ok(after)
        }
        Shape::Named(number, _) => match reader.named(*number) {
            None => Err(ReadError::Departs(Departure::TooDeep(at))),
            Some(other) => scan_flat(fuel, reader, room, moved, other, at, seen),
        },
        Shape::Struct(members) => {
            let (own, begin) = reader.begin(shape, moved, at)?;
            scan_each(fuel, reader, room, own, members, begin, seen)
        }
        Shape::Union { tag, arms } => {
            let (number, after) = reader.union_tag(shape, tag, arms, at)?;
            match arm_for(tag, arms, number) {
                None => Err(ReadError::Departs(Departure::Tag(after - tag_octets(tag) as usize))),
                Some(arm) => scan_arm(fuel, reader, room, arm, after, seen),
            }
        }
        Shape::Array(kind, inner) => {
            let (counts, after) = reader.counts(kind, moved, at)?;
            scan_items(fuel, reader, room, inner, counts.actual, after, seen)
        }
        Shape::Ref(inner) => scan_pointer(reader, Points::Ref, room, inner, at, seen),
        Shape::Unique(inner) => scan_pointer(reader, Points::Unique, room, inner, at, seen),
        Shape::Full(inner) => scan_pointer(reader, Points::Full, room, inner, at, seen),
    }
}

fn past(reader: &Reader<'_>, size: u8, at: usize) -> Result<usize, ReadError>
    ensures { (s : _) → Scans result s (over reader.now past_number size (place at s)) }
{
    let (_, after) = reader.number(size, at)?;
    Ok(after)
}

fn scan_wire<'a>(reader: &Reader<'a>, at: usize, seen: &mut Seen<'a>) -> Result<usize, ReadError>
    ensures { Scans result seen.new (wire_scan reader.now.order reader.now.octets.now (place at seen.old)) }
{
    let (wire, after) = reader.wire(at)?;
    seen.wires.push(wire)?;
    Ok(after)
}

fn scan_pointer<'a>(
    reader: &Reader<'a>,
    points: Points,
    room: u16,
    inner: &'a Shape,
    at: usize,
    seen: &mut Seen<'a>,
) -> Result<usize, ReadError>
    ensures { Scans result seen.new (pointer_scan reader.now.order reader.now.octets.now points room (form inner.now) (place at seen.old)) }
{
    let (id, after) = reader.word(at)?;
    let level = 256_u16.saturating_sub(room);
    match seen.referents.meet(id, points, inner, level, after - 4) {
        Ok(_) => Ok(after),
        Err(PointerFault::AliasShape(index)) => Err(ReadError::Departs(Departure::Pointer(index))),
        Err(PointerFault::TooDeep(index)) => Err(ReadError::Departs(Departure::TooDeep(index))),
        Err(PointerFault::Memory) => Err(ReadError::Memory),
    }
}

/// What moved in front of a structure is that of its last member.
pub fn if_last(left: usize, own: Option<u32>) -> Option<u32>
    ensures { result ≡ (if left == 0 then own else None) }
{
    if left == 0 { own } else { None }
}

#[cycle(scan)]
fn scan_each<'a>(
    fuel: u32,
    reader: &Reader<'a>,
    room: u16,
    own: Option<u32>,
    shapes: &'a [Shape],
    at: usize,
    seen: &mut Seen<'a>,
) -> Result<usize, ReadError>
    ensures { Scans result seen.new (each (scan_of reader.now fuel room) own (forms shapes.now) (place at seen.old)) }
{
    let mut index = at;
    let mut left = shapes.len();
    for shape in shapes {
        left -= 1;
        let moved = if_last(left, own);
        index = scan_flat(fuel, reader, room, moved, shape, index, seen)?;
    }
    Ok(index)
}

#[cycle(scan)]
fn scan_arm<'a>(
    fuel: u32,
    reader: &Reader<'a>,
    room: u16,
    arm: &'a Arm,
    at: usize,
    seen: &mut Seen<'a>,
) -> Result<usize, ReadError>
    ensures { (i : ℕ) → Scans result seen.new (arm_scan (Some (body arm.now.shape)) i (place at seen.old) (scan_of reader.now fuel room None)) }
{
    match &arm.shape {
        None => Ok(at),
        Some(shape) => scan_flat(fuel, reader, room, None, shape, at, seen),
    }
}

#[cycle(scan)]
fn scan_items<'a>(
    fuel: u32,
    reader: &Reader<'a>,
    room: u16,
    shape: &'a Shape,
    count: u32,
    at: usize,
    seen: &mut Seen<'a>,
) -> Result<usize, ReadError>
    ensures { Scans result seen.new (times (scan_of reader.now fuel room None (form shape.now)) count (place at seen.old)) }
{
    match shape {
        Shape::Byte => scan_bytes(fuel, reader, room, count, at),
        _ => scan_times(fuel, reader, room, shape, count, at, seen),
    }
}

#[cycle(scan)]
fn scan_times<'a>(
    fuel: u32,
    reader: &Reader<'a>,
    room: u16,
    shape: &'a Shape,
    count: u32,
    at: usize,
    seen: &mut Seen<'a>,
) -> Result<usize, ReadError>
    ensures { Scans result seen.new (times (scan_of reader.now fuel room None (form shape.now)) count (place at seen.old)) }
{
    let mut index = at;
    for _ in 0..count {
        index = scan_flat(fuel, reader, room, None, shape, index, seen)?;
    }
    Ok(index)
}

// As many octets.
fn scan_bytes(
    fuel: u32,
    reader: &Reader<'_>,
    room: u16,
    count: u32,
    at: usize,
) -> Result<usize, ReadError>
    ensures { (s : _) → Scans result s (times (scan_of reader.now fuel room None OfByte) count (place at s)) }
{
    if count == 0 {
        return Ok(at);
    }
    if fuel == 0 {
        return Err(ReadError::Departs(Departure::TooDeep(at)));
    }
    let len = reader.octets.len();
    if at > len {
        return Err(ReadError::Departs(Departure::Short(len)));
    }
    if len - at < count as usize {
        return Err(ReadError::Departs(Departure::Short(len)));
    }
    Ok(at + count as usize)
}
