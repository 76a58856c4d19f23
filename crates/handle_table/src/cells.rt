//! What is found among the handles by their serials.
ghost use Rattle.std.specs.Prelude.{◌≡◌, IfOk};
ghost use Rattle.handle_table.specs.Handles.{item_at, item_of};
ghost use Rattle.handle_table.specs.Cells.{Climb, Sought, fresh, living};

use crate::serial_index::SerialIndex;
use handle_model::{DueItem, Home};
use rpc_base::{NoMemory, WireHandle};
use std::alloc::Global;

/// The place of the serial, or else the place where it would stand.
///
/// # Errors
/// The place where it would stand, where no cell has it.
pub fn seek(index: &SerialIndex, serial: u32) -> Result<usize, usize>
    requires { Climb 0 index.now.cells }
    ensures { Sought index.now.cells serial result }
{
    let at = index.below(serial);
    if at < index.len() && index.serial(at) == serial {
        Ok(at)
    } else {
        Err(at)
    }
}

/// The live handle of that serial.
pub fn item_at(index: &SerialIndex, serial: u32) -> Option<DueItem>
    requires { Climb 0 index.now.cells }
    ensures { result ≡ item_at (living index.now.cells) serial }
{
    match seek(index, serial) {
        Ok(at) => index.item(at),
        Err(_) => None,
    }
}

/// The live handle that is known by that wire handle.
#[tactic(auto, using(crate::proofs::Found::wiring))]
pub fn item_of(home: Home, index: &SerialIndex, wire: &WireHandle) -> Option<DueItem>
    requires { Climb 0 index.now.cells }
    ensures { result ≡ item_of home (living index.now.cells) wire.now }
{
    let serial = (wire.id % (1 << 32)) as u32;
    if *wire == home.wire(serial) {
        item_at(index, serial)
    } else {
        None
    }
}

/// These handles, which are live, with room for no more.
///
/// # Errors
/// `NoMemory` where memory runs out.
#[tactic(auto, using(handle_model::proofs::Rest::resting))]
pub fn index_of(alloc: Global, items: &[DueItem]) -> Result<SerialIndex, NoMemory>
    ensures { IfOk result (λ index. index.cells ≡ fresh items.now) }
{
    let mut index = SerialIndex::new(alloc);
    index.reserve(items.len())?;
    for item in items {
        index.push(*item);
    }
    Ok(index)
}
