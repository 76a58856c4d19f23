//! What the types of identifiers hold, for whoever keeps them.
ghost use Rattle.std.specs.Prelude.{◌≡◌, length};
ghost use Rattle.rpc_base.specs.Fields.{IsOctets};
ghost use Rattle.desk_kit.specs.Typed.{IsSyntax, IsUuid};

use rpc_base::SyntaxId;
use uuid::Uuid;

// Octets are below 256.
fn all_octets(octets: &[u8])
    ensures { IsOctets octets.now }
{
    let _count = octets.len();
}

/// An array of octets has so many, and each is below 256.
pub fn note_octets<const N: usize>(octets: &[u8; N])
    ensures size { length octets.now ≡ N }
    ensures octets { IsOctets octets.now }
{
    all_octets(octets.as_slice());
}

/// A UUID has sixteen octets.
pub fn note_uuid(id: &Uuid)
    ensures { IsUuid id.now }
{
    note_octets(id.as_bytes());
}

/// The numbers of a version have 16 bits.
pub fn note_syntax(syntax: &SyntaxId)
    ensures { IsSyntax syntax.now }
{
    note_uuid(&syntax.id);
    let _major = syntax.major;
    let _minor = syntax.minor;
}
