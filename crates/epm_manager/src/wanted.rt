//! What a lookup or a mapping wants.
ghost use Rattle.std.specs.Prelude.{◌≡◌};
ghost use Rattle.epm_manager.specs.Wanted as spec;

use crate::compare::{same_syntax, same_uuid};
use crate::entry::MapEntry;
use rpc_base::SyntaxId;
use tower_codec::Tower;
use uuid::Uuid;

/// Which versions of an interface serve whoever asks for one.
#[derive(Clone, Copy, Debug, PartialEq, Eq)]
pub enum Versions {
    /// Any.
    All,
    /// Those of the same major number whose minor number isn't below.
    Compatible,
    /// That version alone.
    Exact,
    /// Those of the same major number.
    SameMajor,
    /// Those that aren't above.
    UpTo,
}

/// Which entries are wanted.
#[derive(Clone, Copy, Debug, PartialEq, Eq)]
pub enum Wanted {
    All,
    /// Those of an interface.
    Interface(SyntaxId, Versions),
    /// Those of an object.
    Object(Uuid),
    /// Those of an interface and an object.
    Both(SyntaxId, Versions, Uuid),
    /// Those that lead to what a tower asks for, for an object.
    Leading(Uuid, Tower),
    Nothing,
}

fn serves(which: Versions, asked: &SyntaxId, own: &SyntaxId) -> bool
    ensures { result ≡ spec.serves which asked.now own.now }
{
    match which {
        Versions::All => true,
        Versions::Compatible => own.major == asked.major && asked.minor <= own.minor,
        Versions::Exact => own.major == asked.major && own.minor == asked.minor,
        Versions::SameMajor => own.major == asked.major,
        Versions::UpTo => {
            own.major < asked.major || (own.major == asked.major && own.minor <= asked.minor)
        }
    }
}

fn is_of(which: Versions, asked: &SyntaxId, entry: &MapEntry) -> bool
    ensures { result ≡ spec.is_of which asked.now entry.now }
{
    same_uuid(&entry.tower.iface.id, &asked.id) && serves(which, asked, &entry.tower.iface)
}

/// Whether an entry is one of those that are wanted.
pub fn wants(wanted: &Wanted, entry: &MapEntry) -> bool
    ensures { result ≡ spec.wants wanted.now entry.now }
{
    match wanted {
        Wanted::All => true,
        Wanted::Interface(asked, which) => is_of(*which, asked, entry),
        Wanted::Object(object) => same_uuid(&entry.object, object),
        Wanted::Both(asked, which, object) => {
            is_of(*which, asked, entry) && same_uuid(&entry.object, object)
        }
        Wanted::Leading(object, tower) => {
            is_of(Versions::Compatible, &tower.iface, entry)
                && same_syntax(&entry.tower.transfer, &tower.transfer)
                && (entry.object.is_nil() || same_uuid(&entry.object, object))
        }
        Wanted::Nothing => false,
    }
}
