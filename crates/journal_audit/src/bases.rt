//! Reads what a journal goes on from.
ghost use Rattle.std.specs.Prelude.{◌≡◌, ◌+◌, ◌≤◌, ◌<◌, ◌^◌, length, MatchResult, IfOk};
ghost use Rattle.journal_audit.specs.Told.{BaseRead, BaseFault};

use crate::verdict::AuditFault;
use crate::{Growing, is_sound_head};
use handle_model::{Base, Home};
use journal_reader::{next_base, next_call};
use std::alloc::Global;

/// The base whose lines stand behind the heading of a journal, the number of its last line, and what
/// follows; that of a new group where no line of one stands there. `line` is the number of the line
/// before.
pub(crate) fn read_base(
    alloc: Global,
    home: Home,
    text: &[u8],
    line: usize,
) -> Result<(Base, usize, &[u8]), AuditFault>
    requires { line + length text.now < 2 ^ 64 }
    ensures exact { MatchResult result (λ x. BaseRead home line x.0 x.1 x.2.now text.now) (BaseFault home line text.now) }
    ensures room { IfOk result (λ x. x.1 + length x.2.now ≤ line + length text.now) }
{
    let Some((base, after)) = next_base(alloc, text)? else {
        return Ok((Base::empty(alloc), line, text));
    };
    if !is_sound_head(home, &base) {
        return Err(AuditFault::BadText(line + 1));
    }
    let mut growing = Growing::of(alloc, home, base)?;
    let mut rest = after;
    let mut now = line + 1;
    while let Some((call, later)) = next_call(alloc, rest)? {
        if !growing.goes_on(&call) {
            return Err(AuditFault::BadText(now + 1));
        }
        growing = growing.with(call)?;
        rest = later;
        now += 1;
    }
    if !growing.is_held() {
        return Err(AuditFault::BadText(now));
    }
    Ok((growing.into_base(), now, rest))
}
