//! What came of links, and whether it is what lines want.

use crate::server::Done;
use crate::setup::{Setup, Way};
use crate::tied::Ties;
use base_words::{put, put_hex};
use cases_base::{Names, Step, are_octets, first_word, put_debug};
use cases_links::LinkPlan;
use journal_audit::{AuditFault, audit};
use rpc_base::NoMemory;
use std::alloc::Global;

/// A case in one of the ways in which it is played.
#[derive(Clone, Copy)]
pub struct Case<'a> {
    pub names: &'a Names,
    pub setup: &'a Setup,
    pub way: Way,
}

/// The lines of the links that come next, and what the last ones came to.
#[derive(Drop)]
pub struct Links<'a> {
    pub to_come: Vec<&'a str>,
    pub done: Vec<Done>,
}

/// Puts the lines of a text side by side.
pub fn put_joined(text: &[u8], into: &mut Vec<u8>) -> Result<(), NoMemory> {
    let lines = text.strip_suffix(b"\n").unwrap_or(text);
    for octet in lines {
        match octet {
            b'\n' => into.extend_from_slice(b" / ")?,
            octet => into.push(*octet)?,
        }
    }
    Ok(())
}

/// Puts a verdict for each group, by the audit of the journals' text.
pub fn put_audit(alloc: Global, text: &[u8], into: &mut Vec<u8>) -> Result<(), NoMemory> {
    let mut lines = Vec::new(alloc);
    match audit(alloc, text) {
        Ok(verdicts) => {
            for told in verdicts.as_slice() {
                put_debug(alloc, told, &mut lines)?;
                put(b"\n", &mut lines)?;
            }
        }
        Err(AuditFault::BadText(_)) => put(b"no journals", &mut lines)?,
        Err(AuditFault::Memory) => return Err(NoMemory),
    }
    put_joined(lines.as_slice(), into)
}

/// Whether what came is what is wanted.
pub fn judged(come: &[u8], wanted: &str) -> Step {
    if come == wanted.as_bytes() {
        Step::Held
    } else {
        Step::Differs
    }
}

impl<'a> Links<'a> {
    /// None.
    pub fn new(alloc: Global) -> Links<'a> {
        Links {
            to_come: Vec::new(alloc),
            done: Vec::new(alloc),
        }
    }

    /// The link of a line comes next, or as many as it says.
    pub fn add(&mut self, line: &'a str) -> Result<Step, NoMemory> {
        let (count, link) = match line.split_once(" x ") {
            Some((count, link)) => (count.parse::<u32>().unwrap_or(0), link),
            None => (1, line),
        };
        for _ in 0..count {
            self.to_come.push(link)?;
        }
        Ok(match first_word(link) {
            ("link" | "first" | "second" | "late", _) => Step::Held,
            _ => Step::Outside,
        })
    }

    /// The links that come next. None where a line says nothing of the kind.
    pub fn plans(
        &self,
        alloc: Global,
        case: Case<'_>,
        ties: &Ties,
    ) -> Result<Option<Vec<LinkPlan>>, NoMemory> {
        let mut plans = Vec::new(alloc);
        let mut number = 0u64;
        for line in &self.to_come {
            number = number.saturating_add(1);
            let plan = case
                .setup
                .plan(alloc, case.names, ties, case.way, number, line)?;
            match plan {
                Some(plan) => plans.push(plan)?,
                None => return Ok(None),
            }
        }
        Ok(Some(plans))
    }

    /// The connection of that number in its round, from 1 on, or of that number in a group.
    fn named(&self, kind: &str, name: &str) -> Option<&Done> {
        if kind == "link" {
            return self.done.get(name.parse::<usize>().ok()?.checked_sub(1)?);
        }
        let (group, number) = name.split_once('.')?;
        let joined = Some((group.parse::<u32>().ok()?, number.parse::<u32>().ok()?));
        self.done.iter().find(|done| done.joined == joined)
    }

    /// What a connection is to have come to.
    pub fn see_one(
        &self,
        alloc: Global,
        names: &Names,
        wanted: &str,
        come: &mut Vec<u8>,
    ) -> Result<Step, NoMemory> {
        let (kind, rest) = first_word(wanted);
        let (name, rest) = first_word(rest);
        let Some(done) = self.named(kind, name) else {
            put(b"no such connection", come)?;
            return Ok(Step::Differs);
        };
        match first_word(rest) {
            ("puts", words) if are_octets(alloc, names, done.puts.as_slice(), words)? => {
                Ok(Step::Held)
            }
            ("puts", _) => {
                put_hex(alloc, done.puts.as_slice(), come)?;
                Ok(Step::Differs)
            }
            ("ends", end) => {
                put(done.ends.as_slice(), come)?;
                Ok(judged(come.as_slice(), end))
            }
            _ => Ok(Step::Outside),
        }
    }

    /// What all connections are to have come to, as far as the end's text begins so.
    pub fn see_all(&self, wanted: &str, come: &mut Vec<u8>) -> Result<Step, NoMemory> {
        for done in &self.done {
            if !done.ends.as_slice().starts_with(wanted.as_bytes()) {
                put(done.ends.as_slice(), come)?;
                return Ok(Step::Differs);
            }
        }
        Ok(Step::Held)
    }
}
