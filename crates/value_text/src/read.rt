//! Values of shapes, read from the front of a text.
ghost use Rattle.std.specs.Prelude.{◌≡◌, ◌++◌, ◌∷◌, [], ◌+◌, ◌^◌, ◌≤◌, map, length, ℕ, List, Option, Some, None, IfOk, OnOk, slice_get, MatchOption};
ghost use Rattle.ndr_value.specs.Forms.{Form, form, forms, arms_of, body, types_of, OfByte, OfUnion};
ghost use Rattle.ndr_value.specs.Values.{val, vals, bytes, VByte, VStruct, VArray, VUnion, VPtr};
ghost use Rattle.value_text.specs.Reading as spec;
ghost use Rattle.value_text.specs.Rows.{with_front};
ghost use Rattle.value_text.specs.Gives.{Gives};
ghost use Rattle.value_text.specs.Views.{read_of};

use crate::departure::{Departure, Stop};
use crate::marks::{closed, heads, mark, marks, opened, wrong};
use crate::numbers::{index, limit_of, number, signed, unsigned};
use crate::quoted::quoted;
use crate::shapes::{arm_for, count_fits, takes};
use ndr_value::{Arm, ArrayKind, Shape, Value};
use rpc_base::{NoMemory, Octets};
use std::alloc::Global;

/// What names stand for, and where memory comes from.
#[derive(Clone, Copy)]
pub(crate) struct Reader<'a> {
    pub alloc: Global,
    pub types: &'a [Shape],
}

#[inline(never)]
fn boolean(text: &[u8]) -> Result<(Value, &[u8]), Stop>
    ensures { Gives (λ x. (val x.0, x.1.now)) result (spec.bool_at text.now) }
{
    if heads(b't', text) {
        let rest = marks(b"true", text)?;
        return Ok((Value::Bool(true), rest));
    }
    if heads(b'f', text) {
        let rest = marks(b"false", text)?;
        return Ok((Value::Bool(false), rest));
    }
    Err(Stop::Departs(wrong(text)))
}

#[inline(never)]
fn byte(text: &[u8]) -> Result<(Value, &[u8]), Stop>
    ensures { Gives (λ x. (val x.0, x.1.now)) result (spec.byte_at text.now) }
{
    let (number, rest) = unsigned(1 << 8, text)?;
    Ok((Value::Byte(number as u8), rest))
}

#[inline(never)]
fn character(text: &[u8]) -> Result<(Value, &[u8]), Stop>
    ensures { Gives (λ x. (val x.0, x.1.now)) result (spec.character_at text.now) }
{
    let (number, rest) = unsigned(1 << 8, text)?;
    Ok((Value::Char(number as u8), rest))
}

#[inline(never)]
fn integer(size: u8, text: &[u8]) -> Result<(Value, &[u8]), Stop>
    ensures { Gives (λ x. (val x.0, x.1.now)) result (spec.integer_at size text.now) }
{
    let (number, rest) = signed(size, text)?;
    Ok((Value::Int(number), rest))
}

#[inline(never)]
fn natural_number(size: u8, text: &[u8]) -> Result<(Value, &[u8]), Stop>
    ensures { Gives (λ x. (val x.0, x.1.now)) result (spec.natural_number_at size text.now) }
{
    let (number, rest) = unsigned(limit_of(size), text)?;
    Ok((Value::Uint(number), rest))
}

#[inline(never)]
fn name(count: u16, text: &[u8]) -> Result<(Value, &[u8]), Stop>
    ensures { Gives (λ x. (val x.0, x.1.now)) result (spec.name_at count text.now) }
{
    let (number, rest) = unsigned(u128::from(count), text)?;
    Ok((Value::Enum(number as u16), rest))
}

#[inline(never)]
fn handle(text: &[u8]) -> Result<(Value, &[u8]), Stop>
    ensures { Gives (λ x. (val x.0, x.1.now)) result (spec.handle_at text.now) }
{
    let rest = opened(b'$', text)?;
    let (slot, rest) = index(1 << 8, rest)?;
    Ok((Value::Handle(slot as u8), rest))
}

#[inline(never)]
fn full(text: &[u8]) -> Result<(Value, &[u8]), Stop>
    ensures { Gives (λ x. (val x.0, x.1.now)) result (spec.full_at text.now) }
{
    if heads(b'n', text) {
        let rest = marks(b"null", text)?;
        return Ok((Value::Full(None), rest));
    }
    let rest = opened(b'@', text)?;
    let (item, rest) = index(1 << 32, rest)?;
    Ok((Value::Full(Some(item as u32)), rest))
}

#[inline(never)]
fn words<'t>(
    reader: &Reader<'_>,
    most: Option<u32>,
    text: &'t [u8],
) -> Result<(Value, &'t [u8]), Stop>
    ensures { Gives (λ x. (val x.0, x.1.now)) result (spec.words_at most text.now) }
{
    let (octets, rest) = quoted(reader.alloc, most, text)?;
    Ok((Value::Text(octets), rest))
}

// Whether values of the shape are a level: each structure, union, array and pointer is one.
fn is_level(shape: &Shape) -> bool {
    match shape {
        Shape::Struct(_) | Shape::Union { .. } | Shape::Array(_, _) => true,
        Shape::Ref(_) | Shape::Unique(_) => true,
        _ => false,
    }
}

// The levels that are left below a value of the shape.
fn below(left: u16, shape: &Shape) -> Result<u16, NoMemory>
    ensures { IfOk result (λ n. n ≤ left) }
{
    if !is_level(shape) {
        return Ok(left);
    }
    if left == 0 {
        return Err(NoMemory);
    }
    Ok(left - 1)
}

/// A value of the shape, under so many pointers, and what follows it. Values that nest deeper than the room or the levels
/// are too many for memory.
#[tactic(auto, unfolding(crate::specs::Reading::read))]
#[cycle(read)]
pub(crate) fn value<'t>(
    room: u32,
    left: u16,
    reader: &Reader<'_>,
    level: u16,
    shape: &Shape,
    text: &'t [u8],
) -> Result<(Value, &'t [u8]), Stop>
    ensures { Gives (λ x. (val x.0, x.1.now)) result (read_of reader.now room level (form shape.now) text.now) }
{
    if room == 0 {
        return Err(Stop::Memory);
    }
    let left = below(left, shape)?;
    step(room - 1, left, reader, level, shape, text)
}

#[cycle(read)]
fn step<'t>(
    room: u32,
    left: u16,
    reader: &Reader<'_>,
    level: u16,
    shape: &Shape,
    text: &'t [u8],
) -> Result<(Value, &'t [u8]), Stop>
    ensures { Gives (λ x. (val x.0, x.1.now)) result (spec.read_at (types_of reader.now.types.now) (read_of reader.now room) level (form shape.now) text.now) }
{
    match shape {
        Shape::Bool => boolean(text),
        Shape::Byte => byte(text),
        Shape::Char => character(text),
        Shape::Int(size) => integer(*size, text),
        Shape::Uint(size) => natural_number(*size, text),
        Shape::Enum(count) => name(*count, text),
        Shape::Handle(_) => handle(text),
        Shape::Text(most) => words(reader, *most, text),
        Shape::Named(number, _) => match reader.types.get(*number) {
            None => Err(Stop::Departs(wrong(text))),
            Some(other) => value(room, left, reader, level, other, text),
        },
        Shape::Struct(members) => structure(room, left, reader, level, members, text),
        Shape::Union { tag, arms } => union_value(room, left, reader, level, tag, arms, text),
        Shape::Array(kind, inner) => array(room, left, reader, level, kind, inner, text),
        Shape::Ref(inner) => value(room, left, reader, level, inner, text),
        Shape::Unique(inner) => pointer(room, left, reader, level, inner, text),
        Shape::Full(_) => full(text),
    }
}

fn made_struct(values: Vec<Value>) -> Value
    ensures { val result ≡ VStruct (vals values.items) }
{
    Value::Struct(values)
}

fn made_array(values: Vec<Value>) -> Value
    ensures { val result ≡ VArray (vals values.items) }
{
    Value::Array(values)
}

// Adds a value to those before it.
#[inline(never)]
fn add(value: Value, values: &mut Vec<Value>) -> Result<(), NoMemory>
    ensures { OnOk result (values.new.items ≡ values.old.items ++ value ∷ []) }
{
    values.push(value)?;
    Ok(())
}

#[cycle(read)]
#[inline(never)]
fn structure<'t>(
    room: u32,
    left: u16,
    reader: &Reader<'_>,
    level: u16,
    shapes: &[Shape],
    text: &'t [u8],
) -> Result<(Value, &'t [u8]), Stop>
    ensures { Gives (λ x. (val x.0, x.1.now)) result (spec.struct_at (read_of reader.now room level) (forms shapes.now) text.now) }
{
    let rest = opened(b'{', text)?;
    let (values, rest) = members(room, left, reader, level, shapes, rest)?;
    Ok((made_struct(values), rest))
}

#[cycle(read)]
fn members<'t>(
    room: u32,
    left: u16,
    reader: &Reader<'_>,
    level: u16,
    shapes: &[Shape],
    text: &'t [u8],
) -> Result<(Vec<Value>, &'t [u8]), Stop>
    ensures { Gives (λ x. (vals x.0.items, x.1.now)) result (spec.members_at (read_of reader.now room level) (forms shapes.now) text.now) }
{
    match shapes.split_first() {
        None => {
            let rest = opened(b'}', text)?;
            Ok((Vec::new(reader.alloc), rest))
        }
        Some((first, others)) => {
            if heads(b'}', text) {
                return Err(Stop::Departs(Departure::Kind(text.len())));
            }
            let (first, rest) = value(room, left, reader, level, first, text)?;
            let mut values = Vec::new(reader.alloc);
            add(first, &mut values)?;
            members_on(room, left, reader, level, others, values, rest)
        }
    }
}

// A member behind others.
#[cycle(read)]
fn member<'t>(
    room: u32,
    left: u16,
    reader: &Reader<'_>,
    level: u16,
    shape: &Shape,
    text: &'t [u8],
) -> Result<(Value, &'t [u8]), Stop>
    ensures { Gives (λ x. (val x.0, x.1.now)) result (spec.member_at (read_of reader.now room level (form shape.now)) text.now) }
{
    if heads(b'}', text) {
        return Err(Stop::Departs(Departure::Kind(text.len())));
    }
    let rest = marks(b", ", text)?;
    value(room, left, reader, level, shape, rest)
}

// Goes past the end of a structure that has all its members.
fn members_end(text: &[u8]) -> Result<&[u8], Stop>
    ensures { Gives (λ x. x.now) result (spec.members_end text.now) }
{
    if heads(b',', text) {
        return Err(Stop::Departs(Departure::Kind(text.len())));
    }
    mark(b'}', text)
}

// Members behind those that are there.
#[cycle(read)]
fn members_on<'t>(
    room: u32,
    left: u16,
    reader: &Reader<'_>,
    level: u16,
    shapes: &[Shape],
    before: Vec<Value>,
    text: &'t [u8],
) -> Result<(Vec<Value>, &'t [u8]), Stop>
    ensures { Gives (λ x. (vals x.0.items, x.1.now)) result (with_front (vals before.items) (spec.members_on (read_of reader.now room level) (forms shapes.now) text.now)) }
{
    let mut values = before;
    let mut rest = text;
    for shape in shapes {
        let (next, after) = member(room, left, reader, level, shape, rest)?;
        add(next, &mut values)?;
        rest = after;
    }
    let rest = members_end(rest)?;
    Ok((values, rest))
}

#[cycle(read)]
#[inline(never)]
fn union_value<'t>(
    room: u32,
    left: u16,
    reader: &Reader<'_>,
    level: u16,
    kind: &Shape,
    arms: &[Arm],
    text: &'t [u8],
) -> Result<(Value, &'t [u8]), Stop>
    ensures { Gives (λ x. (val x.0, x.1.now)) result (spec.union_at (read_of reader.now room level) (OfUnion (form kind.now) (arms_of arms.now)) text.now) }
{
    let place = opened(b'(', text)?;
    let (number, rest) = number(place)?;
    let Some(tag) = number.signed() else {
        return Err(Stop::Departs(Departure::Range(place.len())));
    };
    match arm_for(kind, arms, tag) {
        None => Err(Stop::Departs(Departure::Range(place.len()))),
        Some(arm) => arm_value(room, left, reader, level, arm, tag, rest),
    }
}

// What stands behind a tag that selects the arm.
#[cycle(read)]
fn arm_value<'t>(
    room: u32,
    left: u16,
    reader: &Reader<'_>,
    level: u16,
    arm: &Arm,
    tag: i64,
    text: &'t [u8],
) -> Result<(Value, &'t [u8]), Stop>
    ensures { (left : ℕ) → Gives (λ x. (val x.0, x.1.now)) result (spec.arm_at (Some (body arm.now.shape)) tag left (read_of reader.now room level) text.now) }
{
    match &arm.shape {
        None => empty_arm(tag, text),
        Some(shape) => held_arm(room, left, reader, level, shape, tag, text),
    }
}

fn empty_arm(tag: i64, text: &[u8]) -> Result<(Value, &[u8]), Stop>
    ensures { Gives (λ x. (val x.0, x.1.now)) result (spec.empty_at tag text.now) }
{
    if heads(b':', text) {
        return Err(Stop::Departs(Departure::Kind(text.len())));
    }
    let rest = mark(b')', text)?;
    Ok((Value::Union { tag, arm: None }, rest))
}

#[cycle(read)]
fn held_arm<'t>(
    room: u32,
    left: u16,
    reader: &Reader<'_>,
    level: u16,
    shape: &Shape,
    tag: i64,
    text: &'t [u8],
) -> Result<(Value, &'t [u8]), Stop>
    ensures { Gives (λ x. (val x.0, x.1.now)) result (spec.held_at tag (read_of reader.now room level (form shape.now)) text.now) }
{
    if heads(b')', text) {
        return Err(Stop::Departs(Departure::Kind(text.len())));
    }
    let rest = marks(b": ", text)?;
    let (inner, rest) = value(room, left, reader, level, shape, rest)?;
    let rest = mark(b')', rest)?;
    let arm = Box::new(reader.alloc, inner)?;
    Ok((
        Value::Union {
            tag,
            arm: Some(arm),
        },
        rest,
    ))
}

#[cycle(read)]
#[inline(never)]
fn pointer<'t>(
    room: u32,
    left: u16,
    reader: &Reader<'_>,
    level: u16,
    inner: &Shape,
    text: &'t [u8],
) -> Result<(Value, &'t [u8]), Stop>
    ensures { Gives (λ x. (val x.0, x.1.now)) result (spec.pointer_at level (read_of reader.now room (level + 1) (form inner.now)) text.now) }
{
    if heads(b'n', text) {
        let rest = marks(b"null", text)?;
        return Ok((Value::Ptr(None), rest));
    }
    let rest = opened(b'&', text)?;
    if level >= 256 {
        return Err(Stop::Departs(Departure::Kind(text.len())));
    }
    let (pointed, rest) = value(room, left, reader, level + 1, inner, rest)?;
    let pointed = Box::new(reader.alloc, pointed)?;
    Ok((Value::Ptr(Some(pointed)), rest))
}

#[cycle(read)]
#[inline(never)]
fn array<'t>(
    room: u32,
    left: u16,
    reader: &Reader<'_>,
    level: u16,
    kind: &ArrayKind,
    inner: &Shape,
    text: &'t [u8],
) -> Result<(Value, &'t [u8]), Stop>
    ensures { Gives (λ x. (val x.0, x.1.now)) result (spec.array_at (read_of reader.now room level (form inner.now)) kind.now text.now) }
{
    let rest = opened(b'[', text)?;
    match inner {
        Shape::Byte => octets(room, reader, level, kind, rest),
        _ => elements(room, left, reader, level, kind, inner, rest),
    }
}

#[cycle(read)]
fn elements<'t>(
    room: u32,
    left: u16,
    reader: &Reader<'_>,
    level: u16,
    kind: &ArrayKind,
    inner: &Shape,
    text: &'t [u8],
) -> Result<(Value, &'t [u8]), Stop>
    ensures { Gives (λ x. (val x.0, x.1.now)) result (spec.in_array (spec.items_at (read_of reader.now room level (form inner.now)) kind.now text.now)) }
{
    let (values, rest) = items(room, left, reader, level, kind, inner, text)?;
    Ok((made_array(values), rest))
}

#[cycle(read)]
fn items<'t>(
    room: u32,
    left: u16,
    reader: &Reader<'_>,
    level: u16,
    kind: &ArrayKind,
    inner: &Shape,
    text: &'t [u8],
) -> Result<(Vec<Value>, &'t [u8]), Stop>
    ensures { Gives (λ x. (vals x.0.items, x.1.now)) result (spec.items_at (read_of reader.now room level (form inner.now)) kind.now text.now) }
{
    if heads(b']', text) {
        let rest = closed(count_fits(kind, 0), text)?;
        return Ok((Vec::new(reader.alloc), rest));
    }
    if !takes(kind, 0) {
        return Err(Stop::Departs(wrong(text)));
    }
    let (first, rest) = value(room, left, reader, level, inner, text)?;
    let mut values = Vec::new(reader.alloc);
    add(first, &mut values)?;
    items_on(room, left, reader, level, kind, inner, values, rest)
}

// Where a further element begins, if there may be one.
fn next(may: bool, text: &[u8]) -> Result<&[u8], Stop>
    ensures { Gives (λ x. x.now) result (spec.next_at may text.now) }
{
    if heads(b',', text) && !may {
        return Err(Stop::Departs(Departure::Kind(text.len())));
    }
    marks(b", ", text)
}

// An element behind others.
#[cycle(read)]
fn item<'t>(
    room: u32,
    left: u16,
    reader: &Reader<'_>,
    level: u16,
    may: bool,
    inner: &Shape,
    text: &'t [u8],
) -> Result<(Value, &'t [u8]), Stop>
    ensures { Gives (λ x. (val x.0, x.1.now)) result (spec.item_at (read_of reader.now room level (form inner.now)) may text.now) }
{
    let rest = next(may, text)?;
    value(room, left, reader, level, inner, rest)
}

// Elements behind the one that is there.
#[cycle(read)]
fn items_on<'t>(
    room: u32,
    left: u16,
    reader: &Reader<'_>,
    level: u16,
    kind: &ArrayKind,
    inner: &Shape,
    first: Vec<Value>,
    text: &'t [u8],
) -> Result<(Vec<Value>, &'t [u8]), Stop>
    ensures { Gives (λ x. (vals x.0.items, x.1.now)) result (with_front (vals first.items) (spec.items_on (length text.now + 1) (read_of reader.now room level (form inner.now)) kind.now 1 text.now)) }
{
    let mut values = first;
    let mut rest = text;
    for count in 1..text.len() + 2 {
        if heads(b']', rest) {
            let rest = closed(count_fits(kind, count), rest)?;
            return Ok((values, rest));
        }
        let (next, after) = item(room, left, reader, level, takes(kind, count), inner, rest)?;
        add(next, &mut values)?;
        rest = after;
    }
    Err(Stop::Departs(Departure::Syntax(rest.len())))
}

// An array of octets.
#[inline(never)]
fn octets<'t>(
    room: u32,
    reader: &Reader<'_>,
    level: u16,
    kind: &ArrayKind,
    text: &'t [u8],
) -> Result<(Value, &'t [u8]), Stop>
    ensures { Gives (λ x. (val x.0, x.1.now)) result (spec.in_array (spec.items_at (read_of reader.now room level OfByte) kind.now text.now)) }
{
    if room == 0 {
        return Err(Stop::Memory);
    }
    let (octets, rest) = bytes_at(reader.alloc, kind, text)?;
    Ok((Value::Octets(octets), rest))
}

fn bytes_at<'t>(alloc: Global, kind: &ArrayKind, text: &'t [u8]) -> Result<(Octets, &'t [u8]), Stop>
    ensures { Gives (λ x. (bytes x.0, x.1.now)) result (spec.items_at spec.byte_at kind.now text.now) }
{
    if heads(b']', text) {
        let rest = closed(count_fits(kind, 0), text)?;
        return Ok((Octets::new(alloc), rest));
    }
    if !takes(kind, 0) {
        return Err(Stop::Departs(wrong(text)));
    }
    let (first, rest) = octet(text)?;
    let mut octets = Vec::new(alloc);
    octets.push(first)?;
    bytes_on(kind, octets, rest)
}

fn octet(text: &[u8]) -> Result<(u8, &[u8]), Stop>
    ensures { Gives (λ x. (x.0, x.1.now)) result (spec.octet_at text.now) }
{
    let (number, rest) = unsigned(1 << 8, text)?;
    Ok((number as u8, rest))
}

// An octet behind others.
fn next_octet(may: bool, text: &[u8]) -> Result<(u8, &[u8]), Stop>
    ensures { Gives (λ x. (VByte x.0, x.1.now)) result (spec.item_at spec.byte_at may text.now) }
{
    let place = next(may, text)?;
    octet(place)
}

// Octets behind the one that is there.
fn bytes_on<'t>(
    kind: &ArrayKind,
    first: Vec<u8>,
    text: &'t [u8],
) -> Result<(Octets, &'t [u8]), Stop>
    ensures { Gives (λ x. (bytes x.0, x.1.now)) result (with_front (bytes first.items) (spec.items_on (length text.now + 1) spec.byte_at kind.now 1 text.now)) }
{
    let mut octets = first;
    let mut rest = text;
    for count in 1..text.len() + 2 {
        if heads(b']', rest) {
            let rest = closed(count_fits(kind, count), rest)?;
            return Ok((Octets::from_vec(octets), rest));
        }
        let (next, after) = next_octet(takes(kind, count), rest)?;
        octets.push(next)?;
        rest = after;
    }
    Err(Stop::Departs(Departure::Syntax(rest.len())))
}
