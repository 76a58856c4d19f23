//! The audit of a text.
ghost use Rattle.std.specs.Prelude.{MatchResult};
ghost use Rattle.journal_audit.specs.Told.{Audited, Faulted};

use crate::journals::read_journal;
use crate::verdict::{AuditFault, Verdicts};
use rpc_base::Items;
use std::alloc::Global;

/// Says of each journal of a text whether it is legal and settled, or where the first entry stands
/// that isn't allowed. A text that isn't journals has no verdicts, but a first line that departs.
///
/// # Errors
/// `BadText` with the number, from 1, of the first line that departs; `Memory` where memory runs out.
pub fn audit(alloc: Global, text: &[u8]) -> Result<Verdicts, AuditFault>
    ensures { MatchResult result (Audited text.now) (Faulted text.now) }
{
    let mut verdicts = Items::new(alloc);
    let mut rest = text;
    let mut line = 0;
    while !rest.is_empty() {
        let (verdict, last, later) = read_journal(alloc, rest, line)?;
        verdicts.push(verdict)?;
        rest = later;
        line = last;
    }
    Ok(verdicts)
}
