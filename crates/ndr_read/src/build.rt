//! A value whose flat part stands at one place, and whose referents stand at another.
ghost use Rattle.std.specs.Prelude.{◌≡◌, ◌∷◌, [], ◌++◌, ◌+◌, ◌-◌, ◌≤◌, ◌<◌, ◌==◌, ℕ, Option, None, Some, Ok, IfOk, OnOk, true, not, length, slice_get};
ghost use Rattle.ndr_value.specs.Forms.{form, forms, arms_of, body, OfByte, OfStruct, OfUnion, OfArray, OfRef, OfUnique, OfFull};
ghost use Rattle.ndr_value.specs.Values.{val, vals, bytes, VStruct, VArray, VUnion, VEmpty, VPtr, VNull, VFull};
ghost use Rattle.ndr_scalars.specs.Scalars.{up};
ghost use Rattle.ndr_model.specs.Places.{Last, look};
ghost use Rattle.ndr_model.specs.Reading.{number};
ghost use Rattle.ndr_model.specs.Build.{cursor, ahead, built_each, built_times, built_arm, whole, behind_ref, behind_unique, behind_full, behind_known, in_struct, in_array};
ghost use Rattle.ndr_read.specs.Alone.{ended};
ghost use Rattle.ndr_pointers.specs.Views.{over};
ghost use Rattle.ndr_read.specs.Views.{cursor_of, last_of, Builds, BuildsAll, BuildsApart, Finds, build_of, one_of, referent_of, first_met};

use crate::alone::stands_alone;
use crate::leaves::{
    build_bool, build_byte, build_char, build_enum, build_handle, build_int, build_text, build_uint,
};
use crate::notes::{note, note_counts, note_front};
use crate::state::{Flat, Kept, Tail};
use ndr_model::{Departure, Mark};
use ndr_pointers::{ReadError, Reader, arm_for, if_last, scan_flat, tag_octets};
use ndr_value::{Arm, ArrayKind, Shape, Value};
use rpc_base::{NoMemory, Octets};

// Whether values of the shape are a level: each structure, union, array and pointer is one.
fn is_level(shape: &Shape) -> bool {
    match shape {
        Shape::Struct(_) | Shape::Union { .. } | Shape::Array(_, _) => true,
        Shape::Ref(_) | Shape::Unique(_) | Shape::Full(_) => true,
        _ => false,
    }
}

// The levels that are left below a value of the shape.
fn below(levels: u16, shape: &Shape) -> Result<u16, NoMemory>
    ensures { IfOk result (λ left. left ≤ levels) }
{
    if !is_level(shape) {
        return Ok(levels);
    }
    if levels == 0 {
        return Err(NoMemory);
    }
    Ok(levels - 1)
}

#[tactic(auto, unfolding(ndr_model::specs::Build::build))]
#[cycle(build)]
pub(crate) fn build_value<'a>(
    fuel: u32,
    levels: u16,
    reader: &Reader<'a>,
    room: u16,
    moved: Option<u32>,
    shape: &'a Shape,
    flat: &mut Flat,
    tail: &mut Tail<'a>,
) -> Result<Value, ReadError>
    ensures { Builds result flat.new tail.new (build_of reader.now fuel room moved (form shape.now) (cursor_of flat.old) (last_of tail.old)) }
{
    if fuel == 0 {
        return Err(ReadError::Departs(Departure::TooDeep(flat.at)));
    }
    let levels = below(levels, shape)?;
    build_one(fuel - 1, levels, reader, room, moved, shape, flat, tail)
}

#[cycle(build)]
fn build_one<'a>(
    fuel: u32,
    levels: u16,
    reader: &Reader<'a>,
    room: u16,
    moved: Option<u32>,
    shape: &'a Shape,
    flat: &mut Flat,
    tail: &mut Tail<'a>,
) -> Result<Value, ReadError>
    ensures { Builds result flat.new tail.new (one_of reader.now fuel room moved (form shape.now) (cursor_of flat.old) (last_of tail.old)) }
{
    match shape {
        Shape::Bool => build_bool(reader, flat),
        Shape::Byte => build_byte(reader, flat),
        Shape::Char => build_char(reader, flat),
        Shape::Int(size) => build_int(reader, *size, flat),
        Shape::Uint(size) => build_uint(reader, *size, flat),
        Shape::Enum(count) => build_enum(reader, *count, flat),
        Shape::Handle(_) => build_handle(reader, flat),
        Shape::Text(size) => build_text(reader, *size, moved, flat),
        Shape::Named(number, _) => match reader.named(*number) {
            None => Err(ReadError::Departs(Departure::TooDeep(flat.at))),
            Some(other) => build_value(fuel, levels, reader, room, moved, other, flat, tail),
        },
        Shape::Struct(members) => {
            build_struct(
                fuel, levels, reader, room, moved, shape, members, flat, tail,
            )
        }
        Shape::Union { tag, arms } => {
            build_union(fuel, levels, reader, room, shape, tag, arms, flat, tail)
        }
        Shape::Array(kind, inner) => {
            build_array(fuel, levels, reader, room, moved, kind, inner, flat, tail)
        }
        Shape::Ref(inner) => build_ref(fuel, levels, reader, room, inner, flat, tail),
        Shape::Unique(inner) => build_unique(fuel, levels, reader, room, inner, flat, tail),
        Shape::Full(inner) => build_full(fuel, levels, reader, room, inner, flat, tail),
    }
}

fn made_struct(values: Vec<Value>) -> Value
    ensures { val result ≡ VStruct (vals values.items) }
{
    Value::Struct(values)
}

fn made_array(values: Vec<Value>) -> Value
    ensures { val result ≡ VArray (vals values.items) }
{
    Value::Array(values)
}

// Adds a value to those before it.
#[inline(never)]
fn add(value: Value, values: &mut Vec<Value>) -> Result<(), NoMemory>
    ensures { OnOk result (values.new.items ≡ values.old.items ++ value ∷ []) }
{
    values.push(value)?;
    Ok(())
}

#[cycle(build)]
#[inline(never)]
fn build_struct<'a>(
    fuel: u32,
    levels: u16,
    reader: &Reader<'a>,
    room: u16,
    moved: Option<u32>,
    shape: &'a Shape,
    members: &'a [Shape],
    flat: &mut Flat,
    tail: &mut Tail<'a>,
) -> Result<Value, ReadError>
    requires { form shape.now ≡ OfStruct (forms members.now) }
    ensures { Builds result flat.new tail.new (one_of reader.now fuel room moved (form shape.now) (cursor_of flat.old) (last_of tail.old)) }
{
    let (own, begin) = reader.begin(shape, moved, flat.at)?;
    note_front(reader, moved, own, flat.at, tail)?;
    flat.at = begin;
    build_members(fuel, levels, reader, room, own, members, flat, tail)
}

#[cycle(build)]
fn build_members<'a>(
    fuel: u32,
    levels: u16,
    reader: &Reader<'a>,
    room: u16,
    own: Option<u32>,
    shapes: &'a [Shape],
    flat: &mut Flat,
    tail: &mut Tail<'a>,
) -> Result<Value, ReadError>
    ensures { Builds result flat.new tail.new (in_struct (built_each (build_of reader.now fuel room) own (forms shapes.now) (cursor_of flat.old) (last_of tail.old))) }
{
    let values = build_each(fuel, levels, reader, room, own, shapes, flat, tail)?;
    Ok(made_struct(values))
}

#[cycle(build)]
fn build_each<'a>(
    fuel: u32,
    levels: u16,
    reader: &Reader<'a>,
    room: u16,
    own: Option<u32>,
    shapes: &'a [Shape],
    flat: &mut Flat,
    tail: &mut Tail<'a>,
) -> Result<Vec<Value>, ReadError>
    ensures { BuildsAll result flat.new tail.new (built_each (build_of reader.now fuel room) own (forms shapes.now) (cursor_of flat.old) (last_of tail.old)) }
{
    let mut values = Vec::new(reader.alloc);
    let mut left = shapes.len();
    for shape in shapes {
        left -= 1;
        let moved = if_last(left, own);
        let value = build_value(fuel, levels, reader, room, moved, shape, flat, tail)?;
        add(value, &mut values)?;
    }
    Ok(values)
}

#[cycle(build)]
#[inline(never)]
fn build_union<'a>(
    fuel: u32,
    levels: u16,
    reader: &Reader<'a>,
    room: u16,
    shape: &'a Shape,
    kind: &'a Shape,
    arms: &'a [Arm],
    flat: &mut Flat,
    tail: &mut Tail<'a>,
) -> Result<Value, ReadError>
    requires { form shape.now ≡ OfUnion (form kind.now) (arms_of arms.now) }
    ensures { (moved : Option ℕ) → Builds result flat.new tail.new (one_of reader.now fuel room moved (form shape.now) (cursor_of flat.old) (last_of tail.old)) }
{
    let (tag, after) = reader.union_tag(shape, kind, arms, flat.at)?;
    let place = after - tag_octets(kind) as usize;
    match arm_for(kind, arms, tag) {
        None => Err(ReadError::Departs(Departure::Tag(place))),
        Some(arm) => {
            note(Mark::Number(place, tag), tail)?;
            flat.at = after;
            build_arm(fuel, levels, reader, room, arm, tag, flat, tail)
        }
    }
}

#[cycle(build)]
fn build_arm<'a>(
    fuel: u32,
    levels: u16,
    reader: &Reader<'a>,
    room: u16,
    arm: &'a Arm,
    tag: i64,
    flat: &mut Flat,
    tail: &mut Tail<'a>,
) -> Result<Value, ReadError>
    ensures { (i : ℕ) → Builds result flat.new tail.new (built_arm (Some (body arm.now.shape)) i tag (cursor_of flat.old) (last_of tail.old) (build_of reader.now fuel room None)) }
{
    match &arm.shape {
        None => Ok(Value::Union { tag, arm: None }),
        Some(shape) => {
            let value = build_value(fuel, levels, reader, room, None, shape, flat, tail)?;
            let arm = Some(Box::new(reader.alloc, value)?);
            Ok(Value::Union { tag, arm })
        }
    }
}

#[cycle(build)]
#[inline(never)]
fn build_array<'a>(
    fuel: u32,
    levels: u16,
    reader: &Reader<'a>,
    room: u16,
    moved: Option<u32>,
    kind: &ArrayKind,
    inner: &'a Shape,
    flat: &mut Flat,
    tail: &mut Tail<'a>,
) -> Result<Value, ReadError>
    ensures { Builds result flat.new tail.new (one_of reader.now fuel room moved (OfArray kind.now (form inner.now)) (cursor_of flat.old) (last_of tail.old)) }
{
    let (counts, after) = reader.counts(kind, moved, flat.at)?;
    note_counts(reader, kind, moved, counts, flat.at, after, tail)?;
    flat.at = after;
    build_items(fuel, levels, reader, room, inner, counts.actual, flat, tail)
}

#[cycle(build)]
fn build_items<'a>(
    fuel: u32,
    levels: u16,
    reader: &Reader<'a>,
    room: u16,
    shape: &'a Shape,
    count: u32,
    flat: &mut Flat,
    tail: &mut Tail<'a>,
) -> Result<Value, ReadError>
    ensures { Builds result flat.new tail.new (in_array (built_times (build_of reader.now fuel room None (form shape.now)) count (cursor_of flat.old) (last_of tail.old))) }
{
    match shape {
        Shape::Byte => build_bytes(fuel, reader, room, count, flat),
        _ => build_each_item(fuel, levels, reader, room, shape, count, flat, tail),
    }
}

#[cycle(build)]
fn build_each_item<'a>(
    fuel: u32,
    levels: u16,
    reader: &Reader<'a>,
    room: u16,
    shape: &'a Shape,
    count: u32,
    flat: &mut Flat,
    tail: &mut Tail<'a>,
) -> Result<Value, ReadError>
    ensures { Builds result flat.new tail.new (in_array (built_times (build_of reader.now fuel room None (form shape.now)) count (cursor_of flat.old) (last_of tail.old))) }
{
    let values = build_times(fuel, levels, reader, room, shape, count, flat, tail)?;
    Ok(made_array(values))
}

#[cycle(build)]
fn build_times<'a>(
    fuel: u32,
    levels: u16,
    reader: &Reader<'a>,
    room: u16,
    shape: &'a Shape,
    count: u32,
    flat: &mut Flat,
    tail: &mut Tail<'a>,
) -> Result<Vec<Value>, ReadError>
    ensures { BuildsAll result flat.new tail.new (built_times (build_of reader.now fuel room None (form shape.now)) count (cursor_of flat.old) (last_of tail.old)) }
{
    let mut values = Vec::new(reader.alloc);
    for _ in 0..count {
        let value = build_value(fuel, levels, reader, room, None, shape, flat, tail)?;
        add(value, &mut values)?;
    }
    Ok(values)
}

// As many octets, as they stand.
#[inline(never)]
fn build_bytes(
    fuel: u32,
    reader: &Reader<'_>,
    room: u16,
    count: u32,
    flat: &mut Flat,
) -> Result<Value, ReadError>
    ensures { (q : Last) → BuildsApart result flat.new q (in_array (built_times (build_of reader.now fuel room None OfByte) count (cursor_of flat.old) q)) }
{
    if count == 0 {
        return Ok(Value::Octets(Octets::new(reader.alloc)));
    }
    if fuel == 0 {
        return Err(ReadError::Departs(Departure::TooDeep(flat.at)));
    }
    let len = reader.octets.len();
    if flat.at > len {
        return Err(ReadError::Departs(Departure::Short(len)));
    }
    if len - flat.at < count as usize {
        return Err(ReadError::Departs(Departure::Short(len)));
    }
    let end = flat.at + count as usize;
    let octets = Vec::from_slice(reader.alloc, &reader.octets[flat.at..end])?;
    flat.at = end;
    Ok(Value::Octets(Octets::from_vec(octets)))
}

#[cycle(build)]
#[inline(never)]
fn build_ref<'a>(
    fuel: u32,
    levels: u16,
    reader: &Reader<'a>,
    room: u16,
    inner: &'a Shape,
    flat: &mut Flat,
    tail: &mut Tail<'a>,
) -> Result<Value, ReadError>
    ensures { Builds result flat.new tail.new (one_of reader.now fuel room None (OfRef (form inner.now)) (cursor_of flat.old) (last_of tail.old)) }
{
    let (_, after) = reader.word(flat.at)?;
    flat.at = after;
    build_referent(fuel, levels, reader, room, after - 4, inner, tail)
}

#[cycle(build)]
#[inline(never)]
fn build_unique<'a>(
    fuel: u32,
    levels: u16,
    reader: &Reader<'a>,
    room: u16,
    inner: &'a Shape,
    flat: &mut Flat,
    tail: &mut Tail<'a>,
) -> Result<Value, ReadError>
    ensures { Builds result flat.new tail.new (one_of reader.now fuel room None (OfUnique (form inner.now)) (cursor_of flat.old) (last_of tail.old)) }
{
    let (id, after) = reader.word(flat.at)?;
    flat.at = after;
    if id == 0 {
        return Ok(Value::Ptr(None));
    }
    let value = build_referent(fuel, levels, reader, room, after - 4, inner, tail)?;
    let pointed = Box::new(reader.alloc, value)?;
    Ok(Value::Ptr(Some(pointed)))
}

#[cycle(build)]
#[inline(never)]
fn build_full<'a>(
    fuel: u32,
    levels: u16,
    reader: &Reader<'a>,
    room: u16,
    inner: &'a Shape,
    flat: &mut Flat,
    tail: &mut Tail<'a>,
) -> Result<Value, ReadError>
    ensures { Builds result flat.new tail.new (one_of reader.now fuel room None (OfFull (form inner.now)) (cursor_of flat.old) (last_of tail.old)) }
{
    let (id, after) = reader.word(flat.at)?;
    flat.at = after;
    build_known(fuel, levels, reader, room, id, after - 4, inner, flat, tail)
}

// What a full pointer's id stands for.
#[cycle(build)]
fn build_known<'a>(
    fuel: u32,
    levels: u16,
    reader: &Reader<'a>,
    room: u16,
    id: u32,
    place: usize,
    inner: &'a Shape,
    flat: &mut Flat,
    tail: &mut Tail<'a>,
) -> Result<Value, ReadError>
    ensures { Builds result flat.new tail.new (behind_full id place (cursor_of flat.old) (last_of tail.old) (referent_of reader.now fuel room place (form inner.now) (first_met tail.old))) }
{
    if id == 0 {
        return Ok(Value::Full(None));
    }
    match tail.seen.referents.find(id) {
        None => Err(ReadError::Departs(Departure::Pointer(place))),
        Some((number, _)) => {
            if number as usize == flat.ids {
                return build_new(fuel, levels, reader, room, number, place, inner, flat, tail);
            }
            note(Mark::Referent(false), tail)?;
            Ok(Value::Full(Some(number)))
        }
    }
}

// The referent of a full pointer that brought its id.
#[cycle(build)]
fn build_new<'a>(
    fuel: u32,
    levels: u16,
    reader: &Reader<'a>,
    room: u16,
    number: u32,
    place: usize,
    inner: &'a Shape,
    flat: &mut Flat,
    tail: &mut Tail<'a>,
) -> Result<Value, ReadError>
    requires { flat.old.ids ≡ number }
    ensures { Builds result flat.new tail.new (behind_known number true (cursor_of flat.old) (last_of tail.old) (referent_of reader.now fuel room place (form inner.now) (first_met tail.old))) }
{
    note(Mark::Referent(true), tail)?;
    let value = build_referent(fuel, levels, reader, room, place, inner, tail)?;
    tail.items.push(Kept { number, value })?;
    flat.ids = number as usize + 1;
    Ok(Value::Full(Some(number)))
}

#[cycle(build)]
fn build_referent<'a>(
    fuel: u32,
    levels: u16,
    reader: &Reader<'a>,
    room: u16,
    place: usize,
    inner: &'a Shape,
    tail: &mut Tail<'a>,
) -> Result<Value, ReadError>
    ensures { Finds result tail.new (referent_of reader.now fuel room place (form inner.now) (last_of tail.old)) }
{
    if room == 0 {
        return Err(ReadError::Departs(Departure::TooDeep(place)));
    }
    build_whole(fuel, levels, reader, room - 1, inner, tail)
}

// A value without referents: what follows its flat part follows it.
#[cycle(build)]
#[inline(never)]
fn build_alone<'a>(
    fuel: u32,
    levels: u16,
    reader: &Reader<'a>,
    room: u16,
    shape: &'a Shape,
    tail: &mut Tail<'a>,
) -> Result<Value, ReadError>
    ensures { Finds result tail.new (ended (build_of reader.now fuel room None (form shape.now) (cursor (last_of tail.old).here) (last_of tail.old))) }
{
    let mut flat = Flat {
        at: tail.at,
        ids: tail.seen.referents.len() as usize,
        handles: tail.seen.wires.len(),
    };
    let value = build_value(fuel, levels, reader, room, None, shape, &mut flat, tail)?;
    tail.at = flat.at;
    Ok(value)
}

/// A value and its referents, where they go on.
#[cycle(build)]
pub(crate) fn build_whole<'a>(
    fuel: u32,
    levels: u16,
    reader: &Reader<'a>,
    room: u16,
    shape: &'a Shape,
    tail: &mut Tail<'a>,
) -> Result<Value, ReadError>
    ensures { Finds result tail.new (over reader.now whole fuel room (form shape.now) (last_of tail.old)) }
{
    if stands_alone(shape) {
        return build_alone(fuel, levels, reader, room, shape, tail);
    }
    let mut flat = Flat {
        at: tail.at,
        ids: tail.seen.referents.len() as usize,
        handles: tail.seen.wires.len(),
    };
    tail.at = scan_flat(fuel, reader, room, None, shape, tail.at, &mut tail.seen)?;
    build_value(fuel, levels, reader, room, None, shape, &mut flat, tail)
}
