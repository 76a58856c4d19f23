//! What the audit says of texts.

use base_words::{put, put_decimal};
use journal_audit::{AuditFault, GroupVerdict, Verdict, audit};
use rpc_base::NoMemory;
use std::alloc::Global;

fn put_verdict(alloc: Global, verdict: Verdict, into: &mut Vec<u8>) -> Result<(), NoMemory> {
    let (word, number) = match verdict {
        Verdict::Legal(count) => (b"legal ".as_slice(), count),
        Verdict::Breach { index } => (b"breach ".as_slice(), index),
    };
    put(word, into)?;
    put_decimal(alloc, number as u64, into)
}

fn put_group(alloc: Global, told: GroupVerdict, into: &mut Vec<u8>) -> Result<(), NoMemory> {
    put(b"group ", into)?;
    put_decimal(alloc, u64::from(told.group), into)?;
    put(b" ", into)?;
    put_verdict(alloc, told.verdict, into)?;
    put(b"\n", into)
}

/// Puts a line for each verdict of a text, or the one line that refuses it.
pub fn put_audit(alloc: Global, text: &[u8], into: &mut Vec<u8>) -> Result<(), NoMemory> {
    match audit(alloc, text) {
        Ok(verdicts) => {
            for verdict in verdicts.as_slice() {
                put_group(alloc, *verdict, into)?;
            }
            Ok(())
        }
        Err(AuditFault::BadText(line)) => {
            put(b"refused: journal line ", into)?;
            put_decimal(alloc, line as u64, into)
        }
        Err(AuditFault::Memory) => Err(NoMemory),
    }
}

/// Puts whether a journal may go on from the base of a text, which has nothing else.
pub fn put_base(alloc: Global, text: &[u8], into: &mut Vec<u8>) -> Result<(), NoMemory> {
    match audit(alloc, text) {
        Ok(_) => put(b"sound", into),
        Err(AuditFault::BadText(_)) => put(b"unsound", into),
        Err(AuditFault::Memory) => Err(NoMemory),
    }
}
