//! Whether two shapes are the same.
ghost use Rattle.std.specs.Prelude.{◌≡◌, ◌↔◌, ◌&&◌, IsTrue, false, MatchOption};
ghost use Rattle.ndr_value.specs.Forms.{Form, ArmForms, form, forms, arms_of, body, OfBool, OfByte, OfChar, OfInt, OfUint, OfEnum, OfNamed, OfStruct, OfUnion, OfArray, OfText, OfRef, OfUnique, OfFull, OfHandle};
ghost use Rattle.ndr_model.specs.Same.{IsSame, same_bool, same_count, same_kind, same_size, same_cases, same, same_each, same_body, same_arms};

use ndr_value::{Arm, ArrayKind, Count, Shape};

/// Whether two shapes are the same, item by item, but for what names the tags of the unions in them.
pub fn same_shape(shape: &Shape, other: &Shape) -> bool
    ensures { IsTrue result ↔ IsSame (form shape.now) (form other.now) }
{
    alike(shape, other)
}

#[cycle(same)]
pub(crate) fn alike(shape: &Shape, other: &Shape) -> bool
    ensures { result ≡ same (form shape.now) (form other.now) }
{
    match shape {
        Shape::Bool => matches!(other, Shape::Bool),
        Shape::Byte => matches!(other, Shape::Byte),
        Shape::Char => matches!(other, Shape::Char),
        Shape::Int(size) => is_int(*size, other),
        Shape::Uint(size) => is_uint(*size, other),
        Shape::Enum(count) => is_enum(*count, other),
        Shape::Named(number, _) => is_named(*number, other),
        Shape::Struct(members) => is_struct(members, other),
        Shape::Union { tag, arms } => match union_parts(other) {
            None => false,
            Some((own, others)) => alike(tag, own) && arms_alike(arms, others),
        },
        Shape::Array(kind, inner) => is_array(inner, kind, other),
        Shape::Text(most) => is_text(*most, other),
        Shape::Ref(inner) => is_ref(inner, other),
        Shape::Unique(inner) => is_unique(inner, other),
        Shape::Full(inner) => is_full(inner, other),
        Shape::Handle(kind) => is_handle(*kind, other),
    }
}

fn is_int(size: u8, other: &Shape) -> bool
    ensures { result ≡ same (OfInt size) (form other.now) }
{
    match other {
        Shape::Int(own) => size == *own,
        _ => false,
    }
}

fn is_uint(size: u8, other: &Shape) -> bool
    ensures { result ≡ same (OfUint size) (form other.now) }
{
    match other {
        Shape::Uint(own) => size == *own,
        _ => false,
    }
}

fn is_enum(count: u16, other: &Shape) -> bool
    ensures { result ≡ same (OfEnum count) (form other.now) }
{
    match other {
        Shape::Enum(own) => count == *own,
        _ => false,
    }
}

fn is_named(number: usize, other: &Shape) -> bool
    ensures { (switch : _) → result ≡ same (OfNamed number switch) (form other.now) }
{
    match other {
        Shape::Named(own, _) => number == *own,
        _ => false,
    }
}

fn is_handle(kind: u16, other: &Shape) -> bool
    ensures { result ≡ same (OfHandle kind) (form other.now) }
{
    match other {
        Shape::Handle(own) => kind == *own,
        _ => false,
    }
}

fn same_most(most: Option<u32>, other: Option<u32>) -> bool
    ensures { result ≡ same_size most other }
{
    match most {
        None => other.is_none(),
        Some(most) => match other {
            None => false,
            Some(own) => most == own,
        },
    }
}

fn is_text(most: Option<u32>, other: &Shape) -> bool
    ensures { result ≡ same (OfText most) (form other.now) }
{
    match other {
        Shape::Text(own) => same_most(most, *own),
        _ => false,
    }
}

fn same_names(count: &Count, other: &Count) -> bool
    ensures { result ≡ same_count count.now other.now }
{
    match (count, other) {
        (Count::Number(number), Count::Number(own)) => number == own,
        (
            Count::Param {
                index,
                through,
                plus,
            },
            Count::Param {
                index: at,
                through: behind,
                plus: more,
            },
        ) => index == at && through == behind && plus == more,
        (
            Count::Member { index, plus },
            Count::Member {
                index: at,
                plus: more,
            },
        ) => { index == at && plus == more }
        _ => false,
    }
}

fn same_counts(kind: &ArrayKind, other: &ArrayKind) -> bool
    ensures { result ≡ same_kind kind.now other.now }
{
    match (kind, other) {
        (ArrayKind::Fixed(size), ArrayKind::Fixed(own)) => size == own,
        (ArrayKind::Varying(size, count), ArrayKind::Varying(own, actual)) => {
            size == own && same_names(count, actual)
        }
        (ArrayKind::Conformant(count), ArrayKind::Conformant(own)) => same_names(count, own),
        (ArrayKind::ConformantVarying(most, count), ArrayKind::ConformantVarying(own, actual)) =>
            same_names(most, own) && same_names(count, actual),
        _ => false,
    }
}

#[cycle(same)]
fn is_struct(members: &[Shape], other: &Shape) -> bool
    ensures { result ≡ same (OfStruct (forms members.now)) (form other.now) }
{
    match other {
        Shape::Struct(own) => each_alike(members, own),
        _ => false,
    }
}

#[cycle(same)]
fn each_alike(shapes: &[Shape], others: &[Shape]) -> bool
    ensures { result ≡ same_each (forms shapes.now) (forms others.now) }
{
    let mut rest = others;
    for shape in shapes {
        match rest.split_first() {
            None => return false,
            Some((first, behind)) => {
                if !alike(shape, first) {
                    return false;
                }
                rest = behind;
            }
        }
    }
    rest.is_empty()
}

// A union's tag and arms.
fn union_parts(shape: &Shape) -> Option<(&Shape, &[Arm])>
    ensures { MatchOption result ((t : Form) (as' : ArmForms) → same (OfUnion t as') (form shape.now) ≡ false) (λ x. form shape.now ≡ OfUnion (form x.0.now) (arms_of x.1.now)) }
{
    match shape {
        Shape::Union { tag, arms } => Some((tag, arms.as_slice())),
        _ => None,
    }
}

#[cycle(same)]
fn arms_alike(arms: &[Arm], others: &[Arm]) -> bool
    ensures { result ≡ same_arms (arms_of arms.now) (arms_of others.now) }
{
    let mut rest = others;
    for arm in arms {
        match rest.split_first() {
            None => return false,
            Some((first, behind)) => {
                if !arm_alike(arm, first) {
                    return false;
                }
                rest = behind;
            }
        }
    }
    rest.is_empty()
}

fn cases_alike(cases: &[i64], others: &[i64]) -> bool
    ensures { result ≡ same_cases cases.now others.now }
{
    match (cases.split_first(), others.split_first()) {
        (None, None) => true,
        (Some((case, more)), Some((own, rest))) => case == own && cases_alike(more, rest),
        _ => false,
    }
}

#[cycle(same)]
fn arm_alike(arm: &Arm, other: &Arm) -> bool
    ensures { result ≡ (same_cases arm.now.cases other.now.cases && same_bool arm.now.default other.now.default && same_body (body arm.now.shape) (body other.now.shape)) }
{
    cases_alike(arm.cases.as_slice(), other.cases.as_slice())
        && arm.default == other.default
        && held_alike(&arm.shape, &other.shape)
}

#[cycle(same)]
fn held_alike(shape: &Option<Shape>, other: &Option<Shape>) -> bool
    ensures { result ≡ same_body (body shape.now) (body other.now) }
{
    match shape {
        None => other.is_none(),
        Some(shape) => match other {
            None => false,
            Some(own) => alike(shape, own),
        },
    }
}

#[cycle(same)]
fn is_array(inner: &Shape, kind: &ArrayKind, other: &Shape) -> bool
    ensures { result ≡ same (OfArray kind.now (form inner.now)) (form other.now) }
{
    match other {
        Shape::Array(own, element) => same_counts(kind, own) && alike(inner, element),
        _ => false,
    }
}

#[cycle(same)]
fn is_ref(inner: &Shape, other: &Shape) -> bool
    ensures { result ≡ same (OfRef (form inner.now)) (form other.now) }
{
    match other {
        Shape::Ref(own) => alike(inner, own),
        _ => false,
    }
}

#[cycle(same)]
fn is_unique(inner: &Shape, other: &Shape) -> bool
    ensures { result ≡ same (OfUnique (form inner.now)) (form other.now) }
{
    match other {
        Shape::Unique(own) => alike(inner, own),
        _ => false,
    }
}

#[cycle(same)]
fn is_full(inner: &Shape, other: &Shape) -> bool
    ensures { result ≡ same (OfFull (form inner.now)) (form other.now) }
{
    match other {
        Shape::Full(own) => alike(inner, own),
        _ => false,
    }
}
