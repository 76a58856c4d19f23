//! The program: `cases FILE..` goes through files of cases, by hand or made by other programs, and prints each that comes to
//! something else than the file says, and then how many there were. The subject of a file is what stands in its name before
//! the first `_`. Beside `src/`, `data/` has the files. Cases that need threads are those of `cases_served` and `cases_runs`.
#![tactic(auto)]

use anyhow::{Error, Result};
use cases_base::{CasesFault, Told, subject_of};
use std::alloc::Global;
use std::thread::Threads;
use std::{env, fs};

/// What cases of PDUs, streams, connections and what they stand on come to. None where the subject is none of these.
fn of_octets(alloc: Global, subject: &str, text: &str) -> Result<Option<Told>, CasesFault> {
    let told = match subject {
        "fields" => cases_wire::fields(alloc, text)?,
        "pdus" => cases_wire::pdus(alloc, text)?,
        "streams" => cases_wire::streams(alloc, text)?,
        "contexts" => cases_wire::contexts(alloc, text)?,
        "conns" => cases_wire::conns(alloc, text)?,
        "multiplexed" => cases_wire::multiplexed(alloc, text)?,
        "towers" => cases_wire::towers(alloc, text)?,
        _ => return Ok(None),
    };
    Ok(Some(told))
}

/// What cases of words, lines and interface texts come to.
fn of_words(alloc: Global, subject: &str, text: &str) -> Result<Option<Told>, CasesFault> {
    let told = match subject {
        "words" => cases_words::words(alloc, text)?,
        "lines" => cases_words::lines(alloc, text)?,
        "asks" => cases_words::asks(alloc, text)?,
        "links" => cases_words::links(alloc, text)?,
        "idl" => cases_idl::texts(alloc, text)?,
        "interfaces" => cases_idl::interfaces(alloc, text)?,
        _ => return Ok(None),
    };
    Ok(Some(told))
}

/// What cases of values, stubs and callers come to.
fn of_values(alloc: Global, subject: &str, text: &str) -> Result<Option<Told>, CasesFault> {
    let told = match subject {
        "values" => cases_values::values(alloc, text)?,
        "stubs" => ndr_lines::stubs(alloc, text)?,
        "callers" => cases_callers::callers(alloc, text)?,
        "calls" => cases_callers::calls(alloc, text)?,
        "texts" => cases_callers::call_texts(alloc, text)?,
        _ => return Ok(None),
    };
    Ok(Some(told))
}

/// What cases of journals, groups, desks and worlds come to.
fn of_groups<R: Threads>(
    rt: &R,
    alloc: Global,
    subject: &str,
    text: &str,
) -> Result<Option<Told>, CasesFault> {
    let told = match subject {
        "entries" => cases_journal::entry_lines(alloc, text)?,
        "journals" => cases_journal::journal_texts(alloc, text)?,
        "groups" => cases_journal::group_calls(alloc, text)?,
        "desks" => cases_desks::desk_calls(rt, alloc, text)?,
        "worlds" => cases_worlds::worlds(alloc, text)?,
        _ => return Ok(None),
    };
    Ok(Some(told))
}

/// What cases of a subject come to.
fn played<R: Threads>(rt: &R, alloc: Global, subject: &str, text: &str) -> Result<Told> {
    if let Some(told) = of_octets(alloc, subject, text)? {
        return Ok(told);
    }
    if let Some(told) = of_words(alloc, subject, text)? {
        return Ok(told);
    }
    if let Some(told) = of_values(alloc, subject, text)? {
        return Ok(told);
    }
    match of_groups(rt, alloc, subject, text)? {
        Some(told) => Ok(told),
        None => Err(Error::msg("no such subject")),
    }
}

/// What is told of a file's cases.
fn line_of(alloc: Global, file: &str, told: &Told) -> Result<String> {
    let mut line = Vec::new(alloc);
    told.put_line(alloc, file, &mut line)?;
    Ok(String::from_utf8_lossy(alloc, line.as_slice())?)
}

fn main(rt: HostRuntime) -> Result<()> {
    let alloc = rt.alloc();
    for file in env::args(&rt)?.skip(1) {
        let text = fs::read_to_string(&rt, file.as_str())?;
        let told = played(&rt, alloc, subject_of(file.as_str()), text.as_str())?;
        let line = line_of(alloc, file.as_str(), &told)?;
        print!(rt; "{line}")?;
    }
    Ok(())
}
