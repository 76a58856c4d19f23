//! What links, doors and dials in memory answer.
ghost use Rattle.std.specs.Prelude.{◌≡◌, false};
ghost use Rattle.rpc_outside.specs.ScriptLinks.{shown};

use crate::doors::{put_dial, put_door};
use base_words::{put, put_decimal, put_hex, put_octets};
use cases_base::{Answers, CasesFault, Names, Told, answered, octets_of};
use rpc_base::{Items, NoMemory, Numbers, Octets};
use rpc_outside::{Link, LinkStep, LinkSteps, ScriptLink, Taken, put_all};
use std::alloc::Global;

/// `link CALLS / STEPS / MOST / TAKES / PUTS`: what the calls are answered, and what was put on the link. A call is `take:N` into
/// a buffer of N octets, 8 at most, `put:OCTETS`, or `all:OCTETS` in as many puts as it takes. A step of the peer is octets,
/// `quiet`, `await` or `end`; a put takes so many octets at most, and the takes and puts of these numbers fail. `door CALLS /
/// NUMBERS / STEPS ; STEPS` and `dial` likewise: see there.
#[derive(Clone, Copy)]
struct LinkRows;

impl Answers for LinkRows {
    fn answer(
        &mut self,
        alloc: Global,
        names: &Names,
        given: &str,
        into: &mut Vec<u8>,
    ) -> Result<bool, NoMemory> {
        if let Some(text) = given.strip_prefix("link ") {
            return put_link(alloc, names, text, into);
        }
        if let Some(text) = given.strip_prefix("door ") {
            return put_door(alloc, names, text, into);
        }
        match given.strip_prefix("dial ") {
            Some(text) => put_dial(alloc, names, text, into),
            None => Ok(false),
        }
    }
}

/// The numbers of a list of words.
pub fn numbers_of(alloc: Global, words: &str) -> Result<Numbers, NoMemory> {
    let mut numbers = Items::new(alloc);
    for word in words.split_whitespace() {
        if let Ok(number) = word.parse::<u64>() {
            numbers.push(number)?;
        }
    }
    Ok(numbers)
}

/// The steps of a list of words.
pub fn steps_of(alloc: Global, names: &Names, words: &str) -> Result<LinkSteps, NoMemory> {
    let mut steps = Items::new(alloc);
    for word in words.split_whitespace() {
        steps.push(match word {
            "quiet" => LinkStep::Quiet,
            "await" => LinkStep::AwaitPut,
            "end" => LinkStep::End,
            _ => LinkStep::Give(octets(alloc, names, word)?),
        })?;
    }
    Ok(steps)
}

fn octets(alloc: Global, names: &Names, word: &str) -> Result<Octets, NoMemory> {
    let octets = octets_of(alloc, names, word)?;
    Ok(Octets::from_vec(octets.unwrap_or(Vec::new(alloc))))
}

fn put_link(
    alloc: Global,
    names: &Names,
    text: &str,
    into: &mut Vec<u8>,
) -> Result<bool, NoMemory> {
    let mut parts = text.split('/');
    let (Some(calls), Some(steps), Some(most), Some(takes), Some(puts)) = (
        parts.next(),
        parts.next(),
        parts.next(),
        parts.next(),
        parts.next(),
    ) else {
        return Ok(false);
    };
    let Ok(most) = most.trim().parse::<usize>() else {
        return Ok(false);
    };
    let mut link = ScriptLink::new(
        alloc,
        steps_of(alloc, names, steps)?,
        most.max(1),
        numbers_of(alloc, takes)?,
        numbers_of(alloc, puts)?,
    );
    put_calls(alloc, names, &mut link, calls, into)?;
    link.close();
    put_octets(alloc, link.written().as_slice(), into)?;
    Ok(true)
}

/// Makes calls and puts their answers.
fn put_calls(
    alloc: Global,
    names: &Names,
    link: &mut ScriptLink,
    calls: &str,
    into: &mut Vec<u8>,
) -> Result<(), NoMemory>
    requires { (shown link.old).closed ≡ false }
    ensures { (shown link.new).closed ≡ false }
{
    for call in calls.split_whitespace() {
        put_call(alloc, names, link, call, into)?;
    }
    Ok(())
}

fn put_call(
    alloc: Global,
    names: &Names,
    link: &mut ScriptLink,
    call: &str,
    into: &mut Vec<u8>,
) -> Result<(), NoMemory>
    requires { (shown link.old).closed ≡ false }
    ensures { (shown link.new).closed ≡ false }
{
    let (verb, word) = call.split_once(':').unwrap_or((call, ""));
    match verb {
        "take" => put_take(alloc, link, word.parse::<usize>().unwrap_or(1), into),
        "put" => put_put(alloc, link, octets(alloc, names, word)?.as_slice(), into),
        "all" => match put_all(link, octets(alloc, names, word)?.as_slice()) {
            Ok(()) => put(b"all ", into),
            Err(_) => put(b"failed ", into),
        },
        _ => put(b"no such call ", into),
    }
}

/// Takes octets, and puts them.
pub fn put_take(
    alloc: Global,
    link: &mut ScriptLink,
    size: usize,
    into: &mut Vec<u8>,
) -> Result<(), NoMemory>
    requires { (shown link.old).closed ≡ false }
    ensures { (shown link.new).closed ≡ false }
{
    let mut buffer = vec![in alloc; 0_u8; size.max(1).min(8)]?;
    match link.take(buffer.as_mut_slice()) {
        Ok(Taken::Bytes(count)) => {
            buffer.truncate(count);
            put_hex(alloc, buffer.as_slice(), into)?;
        }
        Ok(Taken::Quiet) => put(b"quiet", into)?,
        Ok(Taken::End) => put(b"end", into)?,
        Err(_) => put(b"failed", into)?,
    }
    put(b" ", into)
}

/// Puts octets on the link, and how many of them it took.
pub fn put_put(
    alloc: Global,
    link: &mut ScriptLink,
    octets: &[u8],
    into: &mut Vec<u8>,
) -> Result<(), NoMemory>
    requires { (shown link.old).closed ≡ false }
    ensures { (shown link.new).closed ≡ false }
{
    if octets.is_empty() {
        return put(b"no octets ", into);
    }
    match link.put(octets) {
        Ok(count) => put_decimal(alloc, count as u64, into)?,
        Err(_) => put(b"failed", into)?,
    }
    put(b" ", into)
}

/// What is told of rows of links, doors and dials.
pub fn links(alloc: Global, text: &str) -> Result<Told, CasesFault> {
    answered(alloc, &mut LinkRows, text)
}
