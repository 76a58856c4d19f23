//! What is said of the journals of a file.
ghost use Rattle.std.specs.Prelude.{◌≡◌, ◌++◌, [], IfOk, IfErr, OnOk};
ghost use Rattle.std.specs.List.{list_all};
ghost use Rattle.rpc_app.specs.Audits as spec;
ghost use Rattle.rpc_app.specs.Audits.{IsAudited};
ghost use Rattle.rpc_app.specs.Commands.{RefusesJournals};
ghost use Rattle.rpc_app.specs.Making.{Says};

use crate::make::MakeFault;
use base_words::{put, put_decimal};
use journal_audit::{AuditFault, GroupVerdict, Verdict, audit};
use replay::Replayed;
use rpc_base::{NoMemory, Octets};
use std::alloc::Global;

/// Whether a journal is legal and settled.
fn is_good(verdict: &GroupVerdict) -> bool
    ensures { result ≡ spec.is_good verdict.now }
{
    match verdict.verdict {
        Verdict::Legal(_) => true,
        Verdict::Breach { .. } => false,
    }
}

/// Whether all are.
fn are_good(verdicts: &[GroupVerdict]) -> bool
    ensures { result ≡ list_all spec.is_good verdicts.now }
{
    verdicts.iter().all(is_good)
}

fn put_verdict(alloc: Global, verdict: Verdict, into: &mut Vec<u8>) -> Result<(), NoMemory>
    ensures { OnOk result (into.new.items ≡ into.old.items ++ spec.verdict_text verdict) }
{
    match verdict {
        Verdict::Legal(count) => {
            put(b" legal ", into)?;
            put_decimal(alloc, count as u64, into)
        }
        Verdict::Breach { index } => {
            put(b" breach ", into)?;
            put_decimal(alloc, index as u64, into)
        }
    }
}

#[tactic(auto, unfolding(crate::specs::Audits::verdict_line))]
fn put_line(alloc: Global, of: &GroupVerdict, into: &mut Vec<u8>) -> Result<(), NoMemory>
    ensures { OnOk result (into.new.items ≡ into.old.items ++ spec.verdict_line of.now) }
{
    put(b"group ", into)?;
    put_decimal(alloc, u64::from(of.group), into)?;
    put_verdict(alloc, of.verdict, into)?;
    put(b"\n", into)
}

/// A line for each verdict.
fn verdict_lines(alloc: Global, verdicts: &[GroupVerdict]) -> Result<Vec<u8>, NoMemory>
    ensures { IfOk result (λ text. text.items ≡ spec.verdict_lines verdicts.now) }
{
    let mut text = Vec::new(alloc);
    for verdict in verdicts {
        put_line(alloc, verdict, &mut text)?;
    }
    Ok(text)
}

#[tactic(auto, unfolding(crate::specs::Audits::journal_refusal))]
fn journal_refusal(alloc: Global, line: usize) -> Result<Vec<u8>, NoMemory>
    ensures { IfOk result (λ text. text.items ≡ spec.journal_refusal line) }
{
    let mut text = Vec::new(alloc);
    put(b"refused: journal line ", &mut text)?;
    put_decimal(alloc, line as u64, &mut text)?;
    put(b"\n", &mut text)?;
    Ok(text)
}

/// Judges journals.
///
/// # Errors
///
/// `Refused` with the line that says where the text departs from the journals' grammar, or with the
/// verdicts where one isn't good, and `Memory` where memory runs out.
pub fn judge(alloc: Global, text: &[u8]) -> Result<Replayed, MakeFault>
    ensures out { IfOk result (λ r. IsAudited text.now r.out) }
    ensures log { IfOk result (λ r. r.log ≡ []) }
    ensures fault { IfErr result (Says (RefusesJournals text.now)) }
{
    let verdicts = match audit(alloc, text) {
        Ok(verdicts) => verdicts,
        Err(AuditFault::BadText(line)) => {
            return Err(MakeFault::Refused(journal_refusal(alloc, line)?));
        }
        Err(AuditFault::Memory) => return Err(MakeFault::Memory),
    };
    let said = verdict_lines(alloc, verdicts.as_slice())?;
    if are_good(verdicts.as_slice()) {
        return Ok(Replayed {
            out: Octets::from_vec(said),
            log: Octets::new(alloc),
        });
    }
    Err(MakeFault::Refused(said))
}
