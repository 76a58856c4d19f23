//! The lines of a journal.
ghost use Rattle.std.specs.Prelude.{◌≡◌, ◌++◌, OnOk, OnErr};
ghost use Rattle.journal_text.specs.Texts as spec;

use crate::base::put_base;
use crate::part::{Text, order_word, put_head, put_list, reply_word};
use base_words::{put, put_decimal, put_hex_u64, put_octets};
use handle_model::{Asked, Base, Entry, Home, Outcome, Said};
use rpc_base::NoMemory;
use std::alloc::Global;

fn put_asked_end(alloc: Global, asked: &Asked, into: &mut Vec<u8>) -> Result<(), NoMemory>
    ensures { OnOk result (into.new.items ≡ into.old.items ++ spec.asked_end asked.now) }
{
    put(b" ", into)?;
    put(order_word(asked.order), into)?;
    put(b" ", into)?;
    put(reply_word(asked.reply), into)?;
    put(b" ", into)?;
    put_list(alloc, asked.slots.as_slice(), into)?;
    put(b" ", into)?;
    put_octets(alloc, asked.stub.as_slice(), into)
}

pub(crate) fn put_asked(alloc: Global, asked: &Asked, into: &mut Vec<u8>) -> Result<(), NoMemory>
    ensures { OnOk result (into.new.items ≡ into.old.items ++ spec.asked_text asked.now) }
{
    put_decimal(alloc, u64::from(asked.conn), into)?;
    put(b" ", into)?;
    put_decimal(alloc, u64::from(asked.iface), into)?;
    put(b".", into)?;
    put_decimal(alloc, u64::from(asked.op), into)?;
    put_asked_end(alloc, asked, into)
}

fn put_end(
    alloc: Global,
    call: u32,
    results: &[Outcome],
    said: &Said,
    into: &mut Vec<u8>,
) -> Result<(), NoMemory>
    ensures { OnOk result (into.new.items ≡ into.old.items ++ spec.line (Entry.End call results.now said.now)) }
{
    put_head(alloc, b"end", u64::from(call), into)?;
    put(b" ", into)?;
    put_list(alloc, results, into)?;
    put(b" ", into)?;
    said.put_text(alloc, into)
}

fn put_line(alloc: Global, entry: &Entry, into: &mut Vec<u8>) -> Result<(), NoMemory>
    ensures { OnOk result (into.new.items ≡ into.old.items ++ spec.line entry.now) }
{
    match entry {
        Entry::Join { conn } => put_head(alloc, b"join", u64::from(*conn), into)?,
        Entry::Accept { call, asked } => {
            put_head(alloc, b"accept", u64::from(*call), into)?;
            put(b" ", into)?;
            put_asked(alloc, asked, into)?;
        }
        Entry::Take { call, cookies } => {
            put_head(alloc, b"take", u64::from(*call), into)?;
            put(b" ", into)?;
            put_list(alloc, cookies.as_slice(), into)?;
        }
        Entry::Deny { call, slot } => {
            put_head(alloc, b"deny", u64::from(*call), into)?;
            put(b" ", into)?;
            put_decimal(alloc, u64::from(*slot), into)?;
        }
        Entry::Cancel { call } => put_head(alloc, b"cancel", u64::from(*call), into)?,
        Entry::Orphan { call } => put_head(alloc, b"orphan", u64::from(*call), into)?,
        Entry::End {
            call,
            results,
            said,
        } => put_end(alloc, *call, results.as_slice(), said, into)?,
        Entry::Leave { conn } => put_head(alloc, b"leave", u64::from(*conn), into)?,
        Entry::Shut { due } => {
            put(b"shut ", into)?;
            put_list(alloc, due.as_slice(), into)?;
        }
    }
    Ok(())
}

#[tactic(auto, unfolding(crate::specs::Texts::entry_text))]
fn put_entry(alloc: Global, entry: &Entry, into: &mut Vec<u8>) -> Result<(), NoMemory>
    ensures { OnOk result (into.new.items ≡ into.old.items ++ spec.entry_text entry.now) }
{
    put_line(alloc, entry, into)?;
    put(b"\n", into)
}

#[tactic(auto, unfolding(crate::specs::Texts::group_text))]
fn put_group(alloc: Global, home: Home, into: &mut Vec<u8>) -> Result<(), NoMemory>
    ensures { OnOk result (into.new.items ≡ into.old.items ++ spec.group_text home) }
{
    put_head(alloc, b"group", u64::from(home.group), into)?;
    put(b" boot ", into)?;
    put_hex_u64(alloc, home.boot, into)?;
    put(b"\n", into)
}

fn put_entries(alloc: Global, entries: &[Entry], into: &mut Vec<u8>) -> Result<(), NoMemory>
    ensures { OnOk result (into.new.items ≡ into.old.items ++ spec.entries_text entries.now) }
{
    for entry in entries {
        put_entry(alloc, entry, into)?;
    }
    Ok(())
}

/// Adds the line of an entry.
///
/// # Errors
/// `NoMemory` where memory runs out; nothing is then added.
pub fn entry_text(alloc: Global, entry: &Entry, into: &mut Vec<u8>) -> Result<(), NoMemory>
    ensures ok { OnOk result (into.new.items ≡ into.old.items ++ spec.entry_text entry.now) }
    ensures err { OnErr result (into.new.items ≡ into.old.items) }
{
    let mut line = Vec::new(alloc);
    put_entry(alloc, entry, &mut line)?;
    put(line.as_slice(), into)
}

/// Adds the heading line of a group's journal.
///
/// # Errors
/// `NoMemory` where memory runs out; nothing is then added.
pub fn group_text(alloc: Global, home: Home, into: &mut Vec<u8>) -> Result<(), NoMemory>
    ensures ok { OnOk result (into.new.items ≡ into.old.items ++ spec.group_text home) }
    ensures err { OnErr result (into.new.items ≡ into.old.items) }
{
    let mut line = Vec::new(alloc);
    put_group(alloc, home, &mut line)?;
    put(line.as_slice(), into)
}

/// Adds the text of a group's journal: its heading, the lines of its base where there were entries
/// before, and those of its entries, oldest first.
///
/// # Errors
/// `NoMemory` where memory runs out; nothing is then added.
pub fn journal_text(
    alloc: Global,
    home: Home,
    base: &Base,
    entries: &[Entry],
    into: &mut Vec<u8>,
) -> Result<(), NoMemory>
    ensures ok { OnOk result (into.new.items ≡ into.old.items ++ spec.journal_text home base.now entries.now) }
    ensures err { OnErr result (into.new.items ≡ into.old.items) }
{
    let mut text = Vec::new(alloc);
    put_group(alloc, home, &mut text)?;
    put_base(alloc, base, &mut text)?;
    put_entries(alloc, entries, &mut text)?;
    put(text.as_slice(), into)
}
