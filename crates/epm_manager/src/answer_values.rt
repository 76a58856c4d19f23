//! Values of a response.
ghost use Rattle.std.specs.Prelude.{◌≡◌, ◌<◌, ◌^◌, IfOk, length};
ghost use Rattle.ndr_value.specs.Values.{val, vals};
ghost use Rattle.epm_manager.specs.Answered as spec;

use crate::Numbered;
use desk_kit::{structure, uuid_value};
use ndr_value::{Value, Values};
use rpc_base::{NoMemory, Octets};
use std::alloc::Global;
use tower_codec::{Tower, write_tower};

fn octets_value(alloc: Global, octets: Octets) -> Result<Value, NoMemory>
    ensures { IfOk result (λ v. val v ≡ spec.octets_value octets) }
{
    let mut members = Vec::new(alloc);
    members.push(Value::Uint(octets.len() as u64))?;
    members.push(Value::Octets(octets))?;
    Ok(structure(members))
}

fn tower_value(alloc: Global, tower: &Tower) -> Result<Value, NoMemory>
    ensures { IfOk result (λ v. val v ≡ spec.tower_value tower.now) }
{
    let mut octets = Vec::new(alloc);
    write_tower(tower, &mut octets)?;
    octets_value(alloc, Octets::from_vec(octets))
}

fn entry_value(alloc: Global, item: u32, numbered: &Numbered) -> Result<Value, NoMemory>
    ensures { IfOk result (λ v. val v ≡ spec.entry_value item numbered.now) }
{
    let mut members = Vec::new(alloc);
    members.push(uuid_value(alloc, &numbered.entry.object)?)?;
    members.push(Value::Full(Some(item)))?;
    members.push(Value::Text(numbered.entry.note.copy(alloc)?))?;
    Ok(structure(members))
}

/// The towers of the entries, as items of the heap.
///
/// # Errors
///
/// `NoMemory` where there is no memory for them.
#[tactic(auto, using(desk_kit::proofs::Rows::rows))]
pub fn tower_values(alloc: Global, entries: &[Numbered]) -> Result<Values, NoMemory>
    ensures { IfOk result (λ vs. vals vs.items ≡ spec.tower_values entries.now) }
{
    let mut towers = Values::new(alloc);
    for numbered in entries {
        towers.push(tower_value(alloc, &numbered.entry.tower)?)?;
    }
    Ok(towers)
}

/// The entries, whose towers are the items of the heap in order.
///
/// # Errors
///
/// `NoMemory` where there is no memory for them.
#[tactic(auto, using(desk_kit::proofs::Rows::rows))]
pub fn entry_values(alloc: Global, entries: &[Numbered]) -> Result<Values, NoMemory>
    requires { length entries.now < 2 ^ 32 }
    ensures { IfOk result (λ vs. vals vs.items ≡ spec.entry_values 0 entries.now) }
{
    let mut values = Values::new(alloc);
    let mut item = 0;
    for numbered in entries {
        values.push(entry_value(alloc, item, numbered)?)?;
        item += 1;
    }
    Ok(values)
}
