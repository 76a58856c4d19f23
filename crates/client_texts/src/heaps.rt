//! The items of heaps, after rows of values.
ghost use Rattle.std.specs.Prelude.{◌≡◌, ◌++◌, ◌∷◌, [], map, codes, true, false, OnOk, IfOk, MatchBool, MatchOption, None, Some};
ghost use Rattle.ndr_value.specs.Forms.{form, types_of};
ghost use Rattle.ndr_value.specs.Values.{val, vals};
ghost use Rattle.ndr_table.specs.Tables.{param_form};
ghost use Rattle.client_texts.specs.Texts.{inwards};
ghost use Rattle.client_texts.specs.Heaps.{Aims, aims, first_aim, AreListed, IsHeapOf};
ghost use Rattle.client_texts.specs.Found.{ReadsText};
ghost use Rattle.client_texts.specs.Pointers.{aim_of, HasFirsts};
ghost use Rattle.client_texts.specs.Renaming.{is_none};

use crate::aims::{Aim, add_aims, add_row_aims};
use crate::items::read_item;
use crate::names::behind_all;
use ndr_table::Param;
use ndr_value::{Shape, Shapes, Value, Values};
use rpc_base::NoMemory;
use std::alloc::Global;
use std::collections::BTreeMap;

/// The first full pointer to each item, by its number.
type Firsts<'a> = BTreeMap<u64, Aim<'a>>;

// One more full pointer stands.
fn note_one<'a>(firsts: &mut Firsts<'a>, aim: Aim<'a>) -> Result<(), NoMemory>
    ensures { OnOk result ((before : Aims) → HasFirsts firsts.old before → HasFirsts firsts.new (before ++ aim_of aim.entry ∷ [])) }
{
    let number = u64::from(aim.number);
    if firsts.contains_key(&number) {
        return Ok(());
    }
    firsts.insert(number, aim)?;
    Ok(())
}

// More full pointers stand.
fn note<'a>(firsts: &mut Firsts<'a>, aims: &[Aim<'a>]) -> Result<(), NoMemory>
    ensures { OnOk result ((before : Aims) → HasFirsts firsts.old before → HasFirsts firsts.new (before ++ map aim_of aims.now)) }
{
    for aim in aims {
        note_one(firsts, *aim)?;
    }
    Ok(())
}

// Those in an item stand.
fn note_item<'a>(
    alloc: Global,
    types: &'a Shapes,
    shape: &'a Shape,
    item: &Value,
    firsts: &mut Firsts<'a>,
) -> Result<(), NoMemory>
    ensures { OnOk result ((before : Aims) → HasFirsts firsts.old before → HasFirsts firsts.new (before ++ aims (types_of types.now.items) (form shape.now) (val item.now))) }
{
    let mut found = Vec::new(alloc);
    add_aims(item, types, shape, &mut found)?;
    note(firsts, &found)
}

// The shape of the item of that number, where a full pointer to it stands.
fn shape_of<'a>(firsts: &Firsts<'a>, number: usize) -> Option<&'a Shape>
    ensures { (before : Aims) → HasFirsts firsts.now before → MatchOption result (first_aim before number ≡ None) (λ s. first_aim before number ≡ Some (form s.now)) }
{
    let aim = firsts.get(&(number as u64))?;
    Some(aim.shape)
}

// Whether items end here: whether there are some, and nothing is left but the closing bracket.
fn are_all(items: &[Value], text: &[u8]) -> bool
    ensures { MatchBool result ((is_none items.now ≡ false) × (text.now ≡ codes "]")) (text.now ≡ codes "]" → is_none items.now ≡ true) }
{
    !items.is_empty() && matches!(text, [b']'])
}

// Items up to the closing bracket, after such full pointers.
fn read_items<'a>(
    alloc: Global,
    types: &'a Shapes,
    before: &[Aim<'a>],
    text: &[u8],
) -> Result<Option<Values>, NoMemory>
    ensures { IfOk result (λ found. ReadsText found (λ vs. AreListed (types_of types.now.items) (map aim_of before.now) vs text.now) (λ x. vals x.items)) }
{
    let mut firsts = BTreeMap::new(alloc);
    note(&mut firsts, before)?;
    let mut items = Vec::new(alloc);
    let mut rest = text;
    while !are_all(&items, rest) {
        let Some(shape) = shape_of(&firsts, items.len()) else {
            return Ok(None);
        };
        let first = items.is_empty();
        let Some((item, after)) = read_item(alloc, types, shape, first, rest)? else {
            return Ok(None);
        };
        note_item(alloc, types, shape, &item, &mut firsts)?;
        items.push(item)?;
        rest = after;
    }
    Ok(Some(items))
}

/// The heap that stands after the values of the parameters that go in.
pub(crate) fn read_heap(
    alloc: Global,
    types: &Shapes,
    params: &[Param],
    values: &[Value],
    text: &[u8],
) -> Result<Option<Values>, NoMemory>
    ensures { IfOk result (λ found. ReadsText found
        (λ vs. IsHeapOf (types_of types.now.items) (inwards (map param_form params.now)) (vals values.now) vs text.now) (λ x. vals x.items)) }
{
    if text.is_empty() {
        return Ok(Some(Vec::new(alloc)));
    }
    let Some(list) = behind_all(b" heap [", text) else {
        return Ok(None);
    };
    let mut before = Vec::new(alloc);
    add_row_aims(values, types, params, &mut before)?;
    read_items(alloc, types, &before, list)
}
