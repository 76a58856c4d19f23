//! Texts of journals, line by line, and what is asked of each: lines `ASK: ANSWER`.

use crate::escapes::{put_joined, put_unescaped};
use crate::parts::{base_of, entries_of};
use crate::verdicts::{put_audit, put_base};
use base_words::{put, put_decimal};
use cases_base::{CasesFault, Names, Plays, Step, Told, first_word, played};
use handle_model::Base;
use journal_reader::next_group;
use journal_text::journal_text;
use rpc_base::NoMemory;
use std::alloc::Global;

/// The text of the present case so far.
#[derive(Drop)]
struct Texts {
    text: Vec<u8>,
}

/// What is done with a line.
#[derive(Clone, Copy)]
enum How<'a> {
    /// It is left out.
    Drop,
    /// It stands twice.
    Double,
    /// It stands behind the next.
    Swap,
    /// Another stands in its place.
    Put(&'a str),
}

/// What is done with the line of the entry at a place, counted from 0.
#[derive(Clone, Copy)]
struct Edit<'a> {
    place: usize,
    how: How<'a>,
}

fn edit_of(ask: &str) -> Option<Edit<'_>> {
    let (word, rest) = first_word(ask);
    let (place, line) = first_word(rest);
    let place = place.parse::<usize>().ok()?;
    let how = match word {
        "drop" => How::Drop,
        "double" => How::Double,
        "swap" => How::Swap,
        "put" => How::Put(line),
        _ => return None,
    };
    Some(Edit { place, how })
}

/// The lines with that edit, as far as there is a line at its place. The first one is a heading, and the last is empty.
fn edited<'a>(lines: &mut Vec<&'a [u8]>, edit: Edit<'a>) -> Result<(), NoMemory> {
    let at = edit.place.saturating_add(1);
    let next = at.saturating_add(1);
    if next >= lines.len() {
        return Ok(());
    }
    let Some(line) = lines.get(at).copied() else {
        return Ok(());
    };
    match edit.how {
        How::Drop => {
            lines.remove(at);
        }
        How::Double => lines.insert(at, line)?,
        How::Swap => lines.swap(at, next),
        How::Put(line) => lines[at] = line.as_bytes(),
    }
    Ok(())
}

/// The journal with that edit of its entries' lines.
fn edited_text(alloc: Global, text: &[u8], edit: Edit<'_>) -> Result<Vec<u8>, NoMemory> {
    let mut lines = Vec::new(alloc);
    for line in text.split(|octet| *octet == b'\n') {
        lines.push(line)?;
    }
    edited(&mut lines, edit)?;
    let mut again = Vec::new(alloc);
    for line in &lines {
        put(line, &mut again)?;
        put(b"\n", &mut again)?;
    }
    again.pop();
    Ok(again)
}

/// Puts how many lines of the text are a journal's, and whether they are written otherwise.
fn put_read(alloc: Global, text: &[u8], into: &mut Vec<u8>) -> Result<(), NoMemory> {
    let mut again = Vec::new(alloc);
    let mut rest = text;
    if let Some((home, after)) = next_group(alloc, text)? {
        let (base, after) = base_of(alloc, after)?;
        let (entries, after) = entries_of(alloc, after)?;
        let base = base.unwrap_or(Base::empty(alloc));
        journal_text(alloc, home, &base, entries.as_slice(), &mut again)?;
        rest = after;
    }
    let lines = again.iter().filter(|octet| **octet == b'\n').count();
    put_decimal(alloc, lines as u64, into)?;
    put(rest, &mut again)?;
    if again.as_slice() != text {
        put(b", otherwise written", into)?;
    }
    Ok(())
}

/// Puts what is told where a text is asked that. False where it is no ask.
fn put_told(alloc: Global, text: &[u8], ask: &str, into: &mut Vec<u8>) -> Result<bool, NoMemory> {
    let mut told = Vec::new(alloc);
    match ask {
        "audit" => put_audit(alloc, text, &mut told)?,
        "read" => put_read(alloc, text, &mut told)?,
        "base" => put_base(alloc, text, &mut told)?,
        _ => {
            let Some(edit) = edit_of(ask) else {
                return Ok(false);
            };
            let edited = edited_text(alloc, text, edit)?;
            put_audit(alloc, edited.as_slice(), &mut told)?;
        }
    }
    put_joined(told.as_slice(), into)?;
    Ok(true)
}

/// What a line asks, and the answer that it wants. A line between quotation marks is one of the text, and so is one without
/// a colon that a space follows or that is its end.
fn ask_of(line: &str) -> Option<(&str, &str)> {
    if line.starts_with('"') {
        return None;
    }
    match line.split_once(": ") {
        Some((ask, wanted)) => Some((ask, wanted.trim())),
        None => Some((line.strip_suffix(':')?, "")),
    }
}

impl Plays for Texts {
    fn begin(&mut self, _alloc: Global, _name: &str) -> Result<(), NoMemory> {
        self.text.clear();
        Ok(())
    }

    fn step(
        &mut self,
        alloc: Global,
        _names: &Names,
        line: &str,
        come: &mut Vec<u8>,
    ) -> Result<Step, NoMemory> {
        if let Some((ask, wanted)) = ask_of(line) {
            if !put_told(alloc, self.text.as_slice(), ask, come)? {
                return Ok(Step::Outside);
            }
            return Ok(if come.as_slice() == wanted.as_bytes() {
                Step::Held
            } else {
                Step::Differs
            });
        }
        if !put_unescaped(line, &mut self.text)? {
            self.text.push(b'\n')?;
        }
        Ok(Step::Held)
    }

    fn end(
        &mut self,
        _alloc: Global,
        _names: &Names,
        _come: &mut Vec<u8>,
    ) -> Result<Step, NoMemory> {
        Ok(Step::Held)
    }
}

/// What is told of texts of journals.
pub fn journal_texts(alloc: Global, text: &str) -> Result<Told, CasesFault> {
    let mut texts = Texts {
        text: Vec::new(alloc),
    };
    played(alloc, &mut texts, text)
}
