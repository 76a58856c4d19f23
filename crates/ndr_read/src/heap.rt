//! The heap's items in the order of their numbers.
ghost use Rattle.std.specs.Prelude.{◌≡◌, ◌<◌, ◌==◌, ℕ, List, Option, Some, None, length, option_map, IfOk, if◌then◌else◌};
ghost use Rattle.ndr_value.specs.Values.{Val, val, vals};
ghost use Rattle.ndr_model.specs.Stub.{item};
ghost use Rattle.ndr_model.specs.Message.{heap_from};
ghost use Rattle.ndr_read.specs.Slots.{slot, or_then, AreItems};
ghost use Rattle.ndr_read.specs.Views.{items_of};

use crate::state::Kept;
use ndr_value::{Value, Values};
use rpc_base::NoMemory;
use std::alloc::Global;

// So many places with nothing in them.
fn empty(alloc: Global, count: usize) -> Result<Vec<Option<Value>>, NoMemory>
    ensures len { IfOk result (λ slots. length slots.items ≡ count) }
    ensures each { IfOk result (λ slots. (m : ℕ) → slot slots.items m ≡ None) }
{
    let mut slots = Vec::new(alloc);
    for _ in 0..count {
        slots.push(None)?;
    }
    Ok(slots)
}

// Puts an item in its place, if nothing stands there.
fn put(slots: &mut Vec<Option<Value>>, number: u32, value: Value)
    ensures len { length slots.new.items ≡ length slots.old.items }
    ensures each { (m : ℕ) → m < length slots.old.items → slot slots.new.items m ≡ or_then (slot slots.old.items m) (if number == m then Some (val value) else None) }
{
    let at = number as usize;
    if at >= slots.len() {
        return;
    }
    if slots[at].is_some() {
        return;
    }
    slots[at] = Some(value);
}

// Puts all items in their places, the last one first.
fn fill(items: Vec<Kept>, slots: &mut Vec<Option<Value>>)
    ensures len { length slots.new.items ≡ length slots.old.items }
    ensures each { (m : ℕ) → m < length slots.old.items → slot slots.new.items m ≡ or_then (slot slots.old.items m) (item (items_of items.items) m) }
{
    let mut left = items;
    for _ in 0..left.len() {
        match left.pop() {
            None => return,
            Some(kept) => put(slots, kept.number, kept.value),
        }
    }
}

// What stands in the places, if there is something in each.
fn gather(alloc: Global, slots: Vec<Option<Value>>) -> Result<Option<Values>, NoMemory>
    ensures { IfOk result (λ o. (items : List (ℕ × Val)) → AreItems slots.items items → option_map (λ h. vals h.items) o ≡ heap_from items 0 (length slots.items)) }
{
    let mut left = slots;
    let mut heap = Vec::new(alloc);
    for at in 0..left.len() {
        match left[at].take() {
            None => return Ok(None),
            Some(value) => heap.push(value)?,
        }
    }
    Ok(Some(heap))
}

/// So many items of the heap in order, if each is there.
pub(crate) fn in_order(
    alloc: Global,
    items: Vec<Kept>,
    count: usize,
) -> Result<Option<Values>, NoMemory>
    ensures { IfOk result (λ o. option_map (λ h. vals h.items) o ≡ heap_from (items_of items.items) 0 count) }
{
    if count == 0 {
        return Ok(Some(Vec::new(alloc)));
    }
    let mut slots = empty(alloc, count)?;
    fill(items, &mut slots);
    gather(alloc, slots)
}
