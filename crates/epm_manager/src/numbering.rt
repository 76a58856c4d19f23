//! Numbers of entries.
ghost use Rattle.std.specs.Prelude.{◌≡◌, IfOk};
ghost use Rattle.epm_manager.specs.Entries as spec;
ghost use Rattle.epm_manager.specs.Wholes.{AllTyped, IsTyped};

use crate::{MapEntry, Numbered};
use desk_kit::{note_octets, note_syntax, note_uuid};
use rpc_base::NoMemory;
use std::alloc::Global;

/// Entries with their numbers, and the last one.
#[derive(Debug, Drop)]
pub struct Numbering {
    pub entries: Vec<Numbered>,
    pub last: u64,
}

/// What the types of an entry's parts hold, for whoever keeps it.
pub fn note_types(entry: &MapEntry)
    ensures { IsTyped entry.now }
{
    note_uuid(&entry.object);
    note_syntax(&entry.tower.iface);
    note_syntax(&entry.tower.transfer);
    note_octets(&entry.tower.ip);
    let _minor = entry.tower.minor;
    let _port = entry.tower.port;
}

/// The entries with the numbers that follow the last one.
///
/// # Errors
///
/// `NoMemory` where there is no memory for the list.
pub fn numbered_from(
    alloc: Global,
    last: u64,
    entries: Vec<MapEntry>,
) -> Result<Numbering, NoMemory>
    ensures typed { IfOk result (λ n. AllTyped n.entries.items) }
    ensures entries { IfOk result (λ n. n.entries.items ≡ spec.numbered_from last entries.items) }
    ensures last { IfOk result (λ n. n.last ≡ spec.last_of last entries.items) }
{
    let mut numbered = Vec::new(alloc);
    let mut number = last;
    for entry in entries {
        note_types(&entry);
        number = number.saturating_add(1);
        numbered.push(Numbered { number, entry })?;
    }
    Ok(Numbering {
        entries: numbered,
        last: number,
    })
}
