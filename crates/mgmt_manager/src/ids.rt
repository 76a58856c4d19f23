//! The interfaces that are served.
ghost use Rattle.std.specs.Prelude.{◌≡◌, ◌+◌, ◌<◌, ◌^◌, length};

use rpc_base::{Items, SyntaxId};
use std::marker::Model;

/// The interfaces that are served, by rising number: fewer than 2^32 - 1, since the response counts them in 32 bits, and
/// so numbers them and their vector.
#[derive(Debug, Drop)]
pub struct Ids {
    items: Items<SyntaxId>,
}

impl Model for Ids {
    ghost use Rattle.std.specs.Prelude.{◌+◌, ◌<◌, ◌^◌, List, length};
    ghost use Rattle.rpc_base.specs.declared.identifiers.SyntaxId.{SyntaxId};

    ghost Value = { List SyntaxId };

    ghost view = { λ s. s.items };

    ghost invariant = { λ s. length s.items + 1 < 2 ^ 32 };
}

impl Ids {
    /// These.
    pub fn from_items(items: Items<SyntaxId>) -> Ids
        requires { length items + 1 < 2 ^ 32 }
        ensures { result ≡ items }
    {
        Ids { items }
    }

    /// Them as a slice.
    pub fn as_slice(&self) -> &[SyntaxId]
        ensures value { result.now ≡ self.now }
        ensures few { length self.now + 1 < 2 ^ 32 }
    {
        self.items.as_slice()
    }
}
