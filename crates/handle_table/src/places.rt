//! The places of an index by serial, and the handles that stand under their keys.
ghost use Rattle.std.specs.Prelude.{◌≡◌, ◌+◌, ◌≤◌, ◌++◌, ◌↔◌, length, vec_len, vec_capacity, IsTrue, IfOk};
ghost use Rattle.handle_table.specs.Cells.{living};
ghost use Rattle.handle_table.specs.Places as spec;

use handle_model::DueItem;
use rpc_base::{Exact, NoMemory};
use slab::Slab;

/// The key of no handle: slabs have no more places than this.
pub const NO_KEY: u32 = u32::MAX;

/// A serial, and the key of its handle while that is live.
#[derive(Clone, Copy, Debug, PartialEq, Eq)]
pub struct Place {
    pub serial: u32,
    pub key: u32,
}

/// The handle of a place, while it is live.
pub fn held(handles: &Slab<DueItem>, place: Place) -> Option<DueItem>
    ensures { result ≡ spec.held handles.now place }
{
    if place.key == NO_KEY {
        return None;
    }
    match handles.get(place.key as usize) {
        Some(item) => Some(*item),
        None => None,
    }
}

/// How many serials are below this one. The newest handles mostly have all serials up to the last, so it looks first
/// where the serial stands if those behind it have.
pub fn below(places: &[Place], serial: u32) -> usize
    requires { spec.PlacesRise 0 places.now }
    ensures { spec.IsSerialPlace places.now serial result }
{
    let at = dense_place(places, serial);
    if splits(places, at, serial) {
        return at;
    }
    places.partition_point(|place| place.serial < serial)
}

/// Where the serial stands if every one from it to the last has a place.
fn dense_place(places: &[Place], serial: u32) -> usize
    ensures { result ≤ length places.now }
{
    match places.split_last() {
        Some((last, _)) => {
            let behind = (last.serial as usize + 1).saturating_sub(serial as usize);
            places.len().saturating_sub(behind)
        }
        None => 0,
    }
}

/// Whether the serials before this place are below the serial, and the others aren't, by the two beside it.
fn splits(places: &[Place], at: usize, serial: u32) -> bool
    requires rise { spec.PlacesRise 0 places.now }
    requires within { at ≤ length places.now }
    ensures { IsTrue result → spec.IsSerialPlace places.now serial at }
{
    if at > 0 && places[at - 1].serial >= serial {
        return false;
    }
    if at < places.len() && places[at].serial < serial {
        return false;
    }
    true
}

/// A copy of a slab, under the same keys, with room for `n` more.
///
/// # Errors
/// `NoMemory` where memory runs out, and where keys of 32 bits do.
pub fn grown(handles: &Slab<DueItem>, n: usize) -> Result<Slab<DueItem>, NoMemory>
    ensures { IfOk result (λ copy. spec.IsGrown handles.now copy n) }
{
    let mut copy = handles.clone()?;
    copy.reserve(n)?;
    if copy.capacity() > NO_KEY as usize {
        return Err(NoMemory);
    }
    Ok(copy)
}

/// Whether the live handles are these.
pub fn are_living(handles: &Slab<DueItem>, places: &[Place], items: &[DueItem]) -> bool
    ensures { IsTrue result ↔ (items.now ≡ living (spec.cells_in handles.now places.now)) }
{
    let Some((place, places)) = places.split_first() else {
        return items.is_empty();
    };
    let Some(live) = held(handles, *place) else {
        return are_living(handles, places, items);
    };
    match items.split_first() {
        Some((item, items)) => item.same(&live) && are_living(handles, places, items),
        None => false,
    }
}

/// Adds the live handles to a list that has a place for each. It takes no memory.
#[tactic(auto, using(handle_model::proofs::Rest::resting))]
pub fn put_living(handles: &Slab<DueItem>, places: &[Place], into: &mut Vec<DueItem>)
    requires { vec_len into.old + length (living (spec.cells_in handles.now places.now)) ≤ vec_capacity into.old }
    ensures { into.new.items ≡ into.old.items ++ living (spec.cells_in handles.now places.now) }
{
    for place in places {
        if let Some(item) = held(handles, *place) {
            into.push_reserved(item);
        }
    }
}
