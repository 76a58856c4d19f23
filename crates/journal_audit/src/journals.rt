//! Reads a journal, and says what is to be said of it.
ghost use Rattle.std.specs.Prelude.{◌≡◌, ◌+◌, ◌≤◌, ◌<◌, ◌^◌, length, MatchResult, IfOk};
ghost use Rattle.journal_audit.specs.Told.{ToldOf, JournalFault};
ghost use Rattle.journal_audit.specs.Watching.{EntriesRead};

use crate::bases::read_base;
use crate::verdict::{AuditFault, GroupVerdict};
use crate::watch::Watch;
use journal_reader::{next_entry, next_group};
use rpc_base::NoMemory;
use std::alloc::Global;

/// Watches the entries whose lines begin a text, so many as there are. With the watch come the number
/// of the last line and what follows.
fn read_entries(
    alloc: Global,
    watch: Watch,
    text: &[u8],
    line: usize,
) -> Result<(Watch, usize, &[u8]), NoMemory>
    requires place { watch.place + length text.now < 2 ^ 64 }
    requires line { line + length text.now < 2 ^ 64 }
    ensures exact { IfOk result (λ x. EntriesRead watch line x.0 x.1 x.2.now text.now) }
    ensures room { IfOk result (λ x. x.1 + length x.2.now ≤ line + length text.now) }
{
    let mut watch = watch;
    let mut rest = text;
    let mut now = line;
    while let Some((entry, later)) = next_entry(alloc, rest)? {
        watch = watch.with(entry)?;
        rest = later;
        now += 1;
    }
    Ok((watch, now, rest))
}

/// What is said of the journal whose lines begin a text, the number of its last line, and what
/// follows. `line` is the number of the line before.
pub(crate) fn read_journal(
    alloc: Global,
    text: &[u8],
    line: usize,
) -> Result<(GroupVerdict, usize, &[u8]), AuditFault>
    requires { line + length text.now < 2 ^ 63 }
    ensures exact { MatchResult result (λ x. ToldOf line x.0 x.1 x.2.now text.now) (JournalFault line text.now) }
    ensures room { IfOk result (λ x. x.1 + length x.2.now ≤ line + length text.now) }
    ensures shorter { IfOk result (λ x. length x.2.now < length text.now) }
{
    let Some((home, headless)) = next_group(alloc, text)? else {
        return Err(AuditFault::BadText(line + 1));
    };
    let (base, now, baseless) = read_base(alloc, home, headless, line + 1)?;
    let watch = Watch::of(alloc, home, &base)?;
    let (watch, now, rest) = read_entries(alloc, watch, baseless, now)?;
    let verdict = watch.verdict();
    Ok((
        GroupVerdict {
            group: home.group,
            verdict,
        },
        now,
        rest,
    ))
}
