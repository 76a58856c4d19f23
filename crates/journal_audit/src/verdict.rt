//! What an audit says.
ghost use Rattle.std.specs.Prelude.{◌≡◌};
ghost use Rattle.journal_audit.specs.declared.verdict.AuditFault.TheVariants.{Memory};

use rpc_base::{Items, NoMemory};
use thiserror::Error;

/// What is said of a journal. The place of an entry is how many there were before it, those of the
/// base among them.
#[derive(Clone, Copy, Debug, PartialEq, Eq)]
pub enum Verdict {
    /// It is legal and settled; the number of its entries.
    Legal(usize),
    /// The place of the first entry that isn't allowed, or the number of entries where a Shut is due
    /// at the end.
    Breach { index: usize },
}

/// What is said of the journal of a group.
#[derive(Clone, Copy, Debug, PartialEq, Eq)]
pub struct GroupVerdict {
    /// The id of the group.
    pub group: u32,
    pub verdict: Verdict,
}

/// One verdict for each journal of a text, in their order.
pub type Verdicts = Items<GroupVerdict>;

/// Why a text has no verdicts.
#[derive(Clone, Copy, Debug, Drop, PartialEq, Eq, Error)]
pub enum AuditFault {
    /// The number, from 1, of the first line that departs from the texts of journals.
    #[error("journal line {0}")]
    BadText(usize),
    /// There was no memory.
    #[error("no memory")]
    Memory,
}

impl From<NoMemory> for AuditFault {
    ghost from_gives = { λ _ e. e ≡ Memory };

    fn from(_: NoMemory) -> AuditFault {
        AuditFault::Memory
    }
}
