//! Reads the lists of a line.
ghost use Rattle.std.specs.Prelude.{◌≡◌, IfOk, decimal};
ghost use Rattle.std.specs.List.{AllByRecursion};
ghost use Rattle.base_words.specs.Reads.{Reads};
ghost use Rattle.journal_text.specs.Texts as spec;
ghost use Rattle.journal_reader.specs.Fits.{FitsSlot, FitsOutcome, FitsCookie, FitsDue, FitsConn};
ghost use Rattle.journal_reader.specs.Lists.{IsItemText};

use crate::part::{read_cookie, read_due, read_outcome, read_slot};
use base_words::{cut_at, read_u32};
use handle_model::{Conns, Cookies, DueItem, DueItems, Outcome, Outcomes, Slot, Slots};
use rpc_base::{Items, NoMemory};
use std::alloc::Global;

/// What stands in a list.
trait Item: Drop + Sized {
    ghost use Rattle.std.specs.Prelude.{List, ℕ};
    ghost use Rattle.base_words.specs.Reads.{Reads};

    ghost fits_item: { Self → Type 0 };

    ghost text_of: { Self → List ℕ };

    /// An item by its whole text.
    fn read(text: &[u8]) -> Option<Self>
        ensures { Reads fits_item text_of text.now result };
}

impl Item for Slot {
    ghost fits_item = { FitsSlot };

    ghost text_of = { spec.slot_text };

    fn read(text: &[u8]) -> Option<Self> {
        read_slot(text)
    }
}

impl Item for Outcome {
    ghost fits_item = { FitsOutcome };

    ghost text_of = { spec.outcome_text };

    fn read(text: &[u8]) -> Option<Self> {
        read_outcome(text)
    }
}

impl Item for Option<u64> {
    ghost fits_item = { FitsCookie };

    ghost text_of = { spec.cookie_text };

    fn read(text: &[u8]) -> Option<Self> {
        read_cookie(text)
    }
}

impl Item for DueItem {
    ghost fits_item = { FitsDue };

    ghost text_of = { spec.due_text };

    fn read(text: &[u8]) -> Option<Self> {
        read_due(text)
    }
}

impl Item for u32 {
    ghost fits_item = { FitsConn };

    ghost text_of = { decimal };

    fn read(text: &[u8]) -> Option<Self> {
        read_u32(text)
    }
}

/// Items joined by commas; `-` where there is none.
fn read_list<T: Item>(alloc: Global, text: &[u8]) -> Result<Option<Items<T>>, NoMemory>
    requires { (x : T) → T.fits_item x → IsItemText (T.text_of x) }
    ensures { IfOk result (Reads (AllByRecursion T.fits_item) (spec.list_text T.text_of) text.now) }
{
    let mut items = Items::new(alloc);
    if text == b"-".as_slice() {
        return Ok(Some(items));
    }
    let mut rest = text;
    while let Some((piece, later)) = cut_at(b',', rest) {
        let Some(item) = T::read(piece) else {
            return Ok(None);
        };
        items.push(item)?;
        rest = later;
    }
    let Some(item) = T::read(rest) else {
        return Ok(None);
    };
    items.push(item)?;
    Ok(Some(items))
}

pub(crate) fn read_slots(alloc: Global, text: &[u8]) -> Result<Option<Slots>, NoMemory>
    ensures { IfOk result (Reads (AllByRecursion FitsSlot) (spec.list_text spec.slot_text) text.now) }
{
    read_list(alloc, text)
}

pub(crate) fn read_outcomes(alloc: Global, text: &[u8]) -> Result<Option<Outcomes>, NoMemory>
    ensures { IfOk result (Reads (AllByRecursion FitsOutcome) (spec.list_text spec.outcome_text) text.now) }
{
    read_list(alloc, text)
}

pub(crate) fn read_cookies(alloc: Global, text: &[u8]) -> Result<Option<Cookies>, NoMemory>
    ensures { IfOk result (Reads (AllByRecursion FitsCookie) (spec.list_text spec.cookie_text) text.now) }
{
    read_list(alloc, text)
}

pub(crate) fn read_dues(alloc: Global, text: &[u8]) -> Result<Option<DueItems>, NoMemory>
    ensures { IfOk result (Reads (AllByRecursion FitsDue) (spec.list_text spec.due_text) text.now) }
{
    read_list(alloc, text)
}

pub(crate) fn read_conns(alloc: Global, text: &[u8]) -> Result<Option<Conns>, NoMemory>
    ensures { IfOk result (Reads (AllByRecursion FitsConn) (spec.list_text decimal) text.now) }
{
    read_list(alloc, text)
}
