//! Entries of the map.
ghost use Rattle.std.specs.Prelude.{◌≡◌};
ghost use Rattle.ndr_value.specs.Fits.{has_nul as has_nul_spec};
ghost use Rattle.epm_manager.specs.Entries.{is_note as is_note_spec};

use rpc_base::Octets;
use tower_codec::Tower;
use uuid::Uuid;

/// An entry of the map: where a server offers an interface, for one object or, where that is nil,
/// for every one. The note is a text for people, at most 63 octets without NUL.
#[derive(Debug, Drop)]
pub struct MapEntry {
    pub object: Uuid,
    pub tower: Tower,
    pub note: Octets,
}

/// An entry with its number. Entries are numbered from 1 as they come.
#[derive(Debug, Drop)]
pub struct Numbered {
    pub number: u64,
    pub entry: MapEntry,
}

/// What two entries have in common.
#[derive(Clone, Copy, Debug, PartialEq, Eq)]
pub enum Likeness {
    /// The object, the interface with its version, and the transfer syntax.
    Service,
    /// The object and the tower.
    Entry,
}

fn has_nul(note: &[u8]) -> bool
    ensures { result ≡ has_nul_spec note.now }
{
    note.iter().any(|octet| *octet == 0)
}

/// Whether an entry may have the note.
pub fn is_note(note: &[u8]) -> bool
    ensures { result ≡ is_note_spec note.now }
{
    note.len() <= 63 && !has_nul(note)
}
