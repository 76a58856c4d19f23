//! Values of a list, one after the other.
ghost use Rattle.std.specs.Prelude.{◌≡◌, ◌≢◌, ◌++◌, List, ℕ, OnOk, IfOk, MatchOption};
ghost use Rattle.ndr_value.specs.Forms.{form, types_of};
ghost use Rattle.ndr_value.specs.Values.{val};
ghost use Rattle.value_text.specs.declared.departure.TextFault.TheVariants.{Memory};
ghost use Rattle.client_texts.specs.Renaming.{item_mark, ItemStands};
ghost use Rattle.client_texts.specs.Found.{ReadsFront};

use crate::names::behind;
use ndr_value::{Shape, Shapes, Value};
use rpc_base::NoMemory;
use std::alloc::Global;
use value_text::{TextFault, read_value};

/// What stands after the comma and the space in front of an item, which the first one hasn't.
fn behind_comma(first: bool, text: &[u8]) -> Option<&[u8]>
    ensures { MatchOption result ((rest : List ℕ) → text.now ≡ item_mark first ++ rest → ⊥) (λ rest. text.now ≡ item_mark first ++ rest.now) }
{
    if first {
        Some(text)
    } else {
        behind(b' ', behind(b',', text)?)
    }
}

/// Hands want of memory on, and nothing else.
fn unless_memory(fault: TextFault) -> Result<(), NoMemory>
    ensures { OnOk result (fault ≢ Memory) }
{
    match fault {
        TextFault::Memory => Err(NoMemory),
        _ => Ok(()),
    }
}

/// The value after others, and what stands after it.
pub(crate) fn read_item<'a>(
    alloc: Global,
    types: &Shapes,
    shape: &Shape,
    first: bool,
    text: &'a [u8],
) -> Result<Option<(Value, &'a [u8])>, NoMemory>
    ensures { IfOk result (λ found. ReadsFront found
        (ItemStands (types_of types.now.items) (form shape.now) first text.now) (λ x. val x.0) (λ x. x.1.now)) }
{
    let Some(text) = behind_comma(first, text) else {
        return Ok(None);
    };
    match read_value(alloc, types, shape, text, 0) {
        Ok((value, end)) => Ok(Some((value, text.split_at(end).1))),
        Err(fault) => {
            unless_memory(fault)?;
            Ok(None)
        }
    }
}
