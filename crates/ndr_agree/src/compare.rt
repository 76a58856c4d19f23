//! Values, compared part by part. Each step is a function of its own that isn't taken into its caller,
//! and the check goes by reference, so that the walk keeps little of each level on the stack.
ghost use Rattle.std.specs.Prelude.{◌≡◌, MatchOption, slice_get, Some, None};
ghost use Rattle.ndr_value.specs.Forms.{form, forms, arms_of, body, OfStruct, OfUnion};
ghost use Rattle.ndr_value.specs.Fits.{arm_of};
ghost use Rattle.ndr_value.specs.Values.{val, vals, bytes, msg};
ghost use Rattle.ndr_model.specs.Named.{nth};
ghost use Rattle.ndr_model.specs.Agree as agree;
ghost use Rattle.ndr_model.specs.Compare as spec;
ghost use Rattle.ndr_agree.specs.Views.{types_in, call_of, check_of, union_form, within, compare_in};

use crate::call::Call;
use crate::check::{Check, Stood};
use crate::named::value_at;
use ndr_model::Mark;
use ndr_value::{Arm, ArrayKind, Count, Shape, Value, selected_arm, tag_fits};

// Whether no count and no tag is named in the shape.
fn is_plain(shape: &Shape) -> bool
    ensures { result ≡ agree.is_plain (form shape.now) }
{
    match shape {
        Shape::Bool => true,
        Shape::Byte => true,
        Shape::Char => true,
        Shape::Int(_) => true,
        Shape::Uint(_) => true,
        Shape::Enum(_) => true,
        Shape::Text(_) => true,
        Shape::Handle(_) => true,
        _ => false,
    }
}

// The arm that a tag selects, where it is of the union's kind.
#[inline(never)]
fn arm_for<'a>(kind: &Shape, arms: &'a [Arm], tag: i64) -> Option<&'a Arm>
    ensures { MatchOption result (arm_of (union_form kind.now arms.now) tag ≡ None) (λ a. arm_of (union_form kind.now arms.now) tag ≡ Some (body a.now.shape)) }
{
    if tag_fits(kind, tag) {
        selected_arm(arms, tag)
    } else {
        None
    }
}

/// A value in a body of those members. `link` names the tag where it is a union, `moved` is a
/// max_count that stood in front of it.
#[tactic(auto, unfolding(ndr_model::specs::Compare::compare))]
#[cycle(compare)]
pub(crate) fn compare_value(
    fuel: u32,
    call: &Call<'_>,
    room: u16,
    body: &[Value],
    link: Option<Count>,
    moved: Option<Stood>,
    shape: &Shape,
    value: &Value,
    check: &mut Check<'_>,
)
    ensures { check_of check.new ≡ compare_in call.now fuel room (vals body.now) link moved (form shape.now) (val value.now) (check_of check.old) }
{
    if fuel == 0 {
        return check.stray();
    }
    compare_one(fuel - 1, call, room, body, link, moved, shape, value, check)
}

#[cycle(compare)]
fn compare_one(
    fuel: u32,
    call: &Call<'_>,
    room: u16,
    body: &[Value],
    link: Option<Count>,
    moved: Option<Stood>,
    shape: &Shape,
    value: &Value,
    check: &mut Check<'_>,
)
    ensures { check_of check.new ≡ within call.now spec.compare_at (compare_in call.now fuel) room (vals body.now) link moved (form shape.now) (val value.now) (check_of check.old) }
{
    match shape {
        Shape::Named(number, switch) => {
            compare_named(
                fuel, call, room, body, *number, *switch, moved, value, check,
            )
        }
        Shape::Struct(members) => {
            compare_struct(fuel, call, room, moved, shape, members, value, check)
        }
        Shape::Union { tag, arms } => {
            compare_union(fuel, call, room, body, link, tag, arms, value, check)
        }
        Shape::Array(kind, inner) => {
            compare_array(fuel, call, room, body, moved, kind, inner, value, check)
        }
        Shape::Ref(inner) => compare_referent(fuel, call, room, body, inner, value, check),
        Shape::Unique(inner) => compare_unique(fuel, call, room, body, inner, value, check),
        Shape::Full(inner) => compare_full(fuel, call, room, body, inner, value, check),
        _ => {}
    }
}

#[cycle(compare)]
fn compare_named(
    fuel: u32,
    call: &Call<'_>,
    room: u16,
    body: &[Value],
    number: usize,
    switch: Option<Count>,
    moved: Option<Stood>,
    value: &Value,
    check: &mut Check<'_>,
)
    ensures { check_of check.new ≡ spec.compare_type (compare_in call.now fuel room) (vals body.now) switch moved (slice_get (types_in call.now) number) (val value.now) (check_of check.old) }
{
    match call.table.types().get(number) {
        None => check.stray(),
        Some(shape) => compare_value(fuel, call, room, body, switch, moved, shape, value, check),
    }
}

// The max_count in front of a structure.
#[inline(never)]
fn front(
    call: &Call<'_>,
    structure: &Shape,
    moved: Option<Stood>,
    check: &mut Check<'_>,
) -> Option<Stood>
    ensures { (ss : _) → form structure.now ≡ OfStruct ss → (result, check_of check.new) ≡ spec.fronted (types_in call.now) ss moved (check_of check.old) }
{
    if moved.is_some() {
        return moved;
    }
    if call.table.ends_open(structure) {
        return taken(check);
    }
    None
}

// The first mark, which is a max_count.
fn taken(check: &mut Check<'_>) -> Option<Stood>
    ensures { (result, check_of check.new) ≡ spec.front_in check.old.left.now (check_of check.old) }
{
    match check.left.split_first() {
        None => {
            check.stray();
            None
        }
        Some((mark, rest)) => match mark {
            Mark::Number(at, is) => {
                check.left = rest;
                Some((*at, *is))
            }
            _ => {
                check.stray();
                None
            }
        },
    }
}

#[cycle(compare)]
#[inline(never)]
fn compare_struct(
    fuel: u32,
    call: &Call<'_>,
    room: u16,
    moved: Option<Stood>,
    shape: &Shape,
    members: &[Shape],
    value: &Value,
    check: &mut Check<'_>,
)
    requires { form shape.now ≡ OfStruct (forms members.now) }
    ensures { check_of check.new ≡ spec.compare_struct (types_in call.now) (compare_in call.now fuel room) moved (forms members.now) (val value.now) (check_of check.old) }
{
    match value {
        Value::Struct(values) => {
            let own = front(call, shape, moved, check);
            compare_each(fuel, call, room, own, members, values, check)
        }
        _ => check.stray(),
    }
}

// The last member alone has the max_count that moved.
#[tactic(auto, using(ndr_table::proofs::Aligns::last_is))]
fn for_last(others: &[Shape], own: Option<Stood>) -> Option<Stood>
    ensures { result ≡ agree.stood_last (forms others.now) own }
{
    if others.is_empty() { own } else { None }
}

// Members, in the body that they are.
#[cycle(compare)]
fn compare_each(
    fuel: u32,
    call: &Call<'_>,
    room: u16,
    own: Option<Stood>,
    members: &[Shape],
    values: &[Value],
    check: &mut Check<'_>,
)
    ensures { check_of check.new ≡ spec.compare_each (compare_in call.now fuel room) (vals values.now) own (forms members.now) (vals values.now) (check_of check.old) }
{
    let mut rest = members;
    for value in values {
        match rest.split_first() {
            None => return check.stray(),
            Some((member, others)) => {
                let moved = for_last(others, own);
                compare_value(fuel, call, room, values, None, moved, member, value, check);
                rest = others;
            }
        }
    }
    if !rest.is_empty() {
        check.stray();
    }
}

#[cycle(compare)]
#[inline(never)]
fn compare_union(
    fuel: u32,
    call: &Call<'_>,
    room: u16,
    body: &[Value],
    link: Option<Count>,
    kind: &Shape,
    arms: &[Arm],
    value: &Value,
    check: &mut Check<'_>,
)
    ensures { check_of check.new ≡ spec.compare_union (compare_in call.now fuel room) (call_of call.now) (vals body.now) link (union_form kind.now arms.now) (val value.now) (check_of check.old) }
{
    match value {
        Value::Union { tag, arm } => {
            check.tag(call, body, link, *tag);
            match arm {
                None => {}
                Some(inner) => compare_arm(fuel, call, room, kind, arms, *tag, inner, check),
            }
        }
        _ => check.stray(),
    }
}

#[cycle(compare)]
fn compare_arm(
    fuel: u32,
    call: &Call<'_>,
    room: u16,
    kind: &Shape,
    arms: &[Arm],
    tag: i64,
    value: &Value,
    check: &mut Check<'_>,
)
    ensures { check_of check.new ≡ spec.compare_arm (compare_in call.now fuel room) (arm_of (union_form kind.now arms.now) tag) (val value.now) (check_of check.old) }
{
    match arm_for(kind, arms, tag) {
        None => check.stray(),
        Some(arm) => match &arm.shape {
            None => check.stray(),
            Some(shape) => compare_value(fuel, call, room, &[], None, None, shape, value, check),
        },
    }
}

#[cycle(compare)]
#[inline(never)]
fn compare_array(
    fuel: u32,
    call: &Call<'_>,
    room: u16,
    body: &[Value],
    moved: Option<Stood>,
    kind: &ArrayKind,
    inner: &Shape,
    value: &Value,
    check: &mut Check<'_>,
)
    ensures { check_of check.new ≡ spec.compare_array (compare_in call.now fuel room) (call_of call.now) (vals body.now) moved kind.now (form inner.now) (val value.now) (check_of check.old) }
{
    match value {
        Value::Array(values) => {
            check.counts(call, body, moved, kind);
            compare_elements(fuel, call, room, body, inner, values, check)
        }
        Value::Octets(octets) => {
            check.counts(call, body, moved, kind);
            compare_octets(fuel, call, room, body, inner, octets.as_slice(), check)
        }
        _ => check.stray(),
    }
}

#[cycle(compare)]
fn compare_elements(
    fuel: u32,
    call: &Call<'_>,
    room: u16,
    body: &[Value],
    inner: &Shape,
    values: &[Value],
    check: &mut Check<'_>,
)
    ensures { check_of check.new ≡ spec.compare_elements (compare_in call.now fuel room) (vals body.now) (form inner.now) (vals values.now) (check_of check.old) }
{
    if is_plain(inner) {
        return;
    }
    for value in values {
        compare_value(fuel, call, room, body, None, None, inner, value, check);
    }
}

#[cycle(compare)]
#[inline(never)]
fn compare_octets(
    fuel: u32,
    call: &Call<'_>,
    room: u16,
    body: &[Value],
    inner: &Shape,
    octets: &[u8],
    check: &mut Check<'_>,
)
    ensures { check_of check.new ≡ spec.compare_elements (compare_in call.now fuel room) (vals body.now) (form inner.now) (bytes octets.now) (check_of check.old) }
{
    if is_plain(inner) {
        return;
    }
    for octet in octets {
        let value = Value::Byte(*octet);
        compare_value(fuel, call, room, body, None, None, inner, &value, check);
    }
}

// What a pointer points to, where there is a level for it.
#[cycle(compare)]
fn compare_referent(
    fuel: u32,
    call: &Call<'_>,
    room: u16,
    body: &[Value],
    inner: &Shape,
    value: &Value,
    check: &mut Check<'_>,
)
    ensures { check_of check.new ≡ spec.compare_referent (compare_in call.now fuel) room (vals body.now) (form inner.now) (Some (val value.now)) (check_of check.old) }
{
    if room == 0 {
        return check.stray();
    }
    compare_value(fuel, call, room - 1, body, None, None, inner, value, check)
}

#[cycle(compare)]
#[inline(never)]
fn compare_unique(
    fuel: u32,
    call: &Call<'_>,
    room: u16,
    body: &[Value],
    inner: &Shape,
    value: &Value,
    check: &mut Check<'_>,
)
    ensures { check_of check.new ≡ spec.compare_unique (compare_in call.now fuel) room (vals body.now) (form inner.now) (val value.now) (check_of check.old) }
{
    match value {
        Value::Ptr(pointed) => match pointed {
            None => {}
            Some(pointed) => compare_referent(fuel, call, room, body, inner, pointed, check),
        },
        _ => check.stray(),
    }
}

#[cycle(compare)]
#[inline(never)]
fn compare_full(
    fuel: u32,
    call: &Call<'_>,
    room: u16,
    body: &[Value],
    inner: &Shape,
    value: &Value,
    check: &mut Check<'_>,
)
    ensures { check_of check.new ≡ spec.compare_full (compare_in call.now fuel) room (call_of call.now) (vals body.now) (form inner.now) (val value.now) (check_of check.old) }
{
    match value {
        Value::Full(item) => match item {
            None => {}
            Some(item) => compare_item(fuel, call, room, body, inner, *item, check),
        },
        _ => check.stray(),
    }
}

// An item of the heap, where its pointer was met first.
#[cycle(compare)]
fn compare_item(
    fuel: u32,
    call: &Call<'_>,
    room: u16,
    body: &[Value],
    inner: &Shape,
    item: u32,
    check: &mut Check<'_>,
)
    ensures { check_of check.new ≡ spec.full_in (compare_in call.now fuel) room (call_of call.now) (vals body.now) (form inner.now) item check.old.left.now (check_of check.old) }
{
    match check.left.split_first() {
        None => check.stray(),
        Some((mark, rest)) => match mark {
            Mark::Referent(follows) => {
                check.left = rest;
                if *follows {
                    compare_known(fuel, call, room, body, inner, item, check);
                }
            }
            _ => check.stray(),
        },
    }
}

#[cycle(compare)]
fn compare_known(
    fuel: u32,
    call: &Call<'_>,
    room: u16,
    body: &[Value],
    inner: &Shape,
    item: u32,
    check: &mut Check<'_>,
)
    ensures { check_of check.new ≡ spec.compare_referent (compare_in call.now fuel) room (vals body.now) (form inner.now) (nth (msg call.now.said.now).heap item) (check_of check.old) }
{
    match value_at(call.said.heap.as_slice(), item as usize) {
        None => check.stray(),
        Some(value) => compare_referent(fuel, call, room, body, inner, value, check),
    }
}
