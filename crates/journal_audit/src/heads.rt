//! Whether a base's own line is as it should be.
ghost use Rattle.std.specs.Prelude.{◌≡◌, ◌<◌, ◌^◌, ◌↔◌, [], IsTrue};
ghost use Rattle.journal_audit.specs.SoFar.{IsSoundSoFar};

use crate::rising::is_head;
use handle_model::{Base, Home};

/// Whether a base may begin so: one without calls.
pub fn is_sound_head(home: Home, base: &Base) -> bool
    requires joins { base.now.joins < 2 ^ 32 }
    requires accepts { base.now.accepts < 2 ^ 32 }
    requires opens { base.now.opens < 2 ^ 32 }
    requires none { base.now.calls ≡ [] }
    ensures { IsTrue result ↔ IsSoundSoFar home base.now }
{
    let _whose = home;
    is_head(base)
}
