//! Answers to what a connection waits for, as cases write them.
ghost use Rattle.std.specs.Bool.{OnTrue};
ghost use Rattle.std.specs.Option.{option_copied};
ghost use Rattle.conn_asks.specs.Answers.{FitsStub};

use base_words::read_hex_u32;
use cases_base::{Names, first_word, octets_of};
use conn_core::Conn;
use handle_model::Said;
use pdu_stream::MOST_STUB;
use rpc_base::{NoMemory, Octets, Status};
use std::alloc::Global;

/// Whether the verb is one of those by which the group or the call is answered.
pub fn answers(verb: &str) -> bool {
    matches!(verb, "bound" | "nak" | "fault" | "ran" | "out" | "drop")
}

/// `bound GROUP OCTETS`, `nak REASON OCTETS`: the octets are answered.
fn group_answer(conn: &mut Conn, verb: &str, word: &str) -> Result<Option<Octets>, NoMemory> {
    if !conn.is_grouping() {
        return Ok(None);
    }
    match (verb, word.parse::<u32>(), word.parse::<u16>()) {
        ("bound", Ok(group), _) => Ok(Some(conn.bound(group)?)),
        ("nak", _, Ok(reason)) => Ok(Some(conn.nak(reason)?)),
        _ => Ok(None),
    }
}

/// What a call is answered: `fault STATUS OCTETS`, `ran STATUS OCTETS` of a call that was executed, `out STUB as OCTETS`; and
/// `drop`, where it isn't.
pub fn said(
    alloc: Global,
    names: &Names,
    verb: &str,
    rest: &str,
) -> Result<Option<Said>, NoMemory> {
    if verb != "out" {
        let (word, _) = first_word(rest);
        return Ok(read_hex_u32(word.as_bytes()).map(|status| Said::Fault(Status(status))));
    }
    let (stub, _) = rest.split_once("as").unwrap_or((rest, ""));
    Ok(octets_of(alloc, names, stub)?.map(|stub| Said::Out(Octets::from_vec(stub))))
}

/// Whether a response may have that stub.
pub fn fits(said: Option<&Said>) -> bool
    ensures { OnTrue result (FitsStub (option_copied said.entry)) }
{
    match said {
        Some(Said::Out(stub)) => stub.len() <= MOST_STUB,
        _ => true,
    }
}

/// Answers the group or the call: the octets that are sent then. None where neither may be answered so.
pub fn answer(
    alloc: Global,
    names: &Names,
    conn: &mut Conn,
    verb: &str,
    rest: &str,
) -> Result<Option<Octets>, NoMemory> {
    if matches!(verb, "bound" | "nak") {
        return group_answer(conn, verb, first_word(rest).0);
    }
    let said = said(alloc, names, verb, rest)?;
    let said = said.as_ref();
    if !conn.is_calling() || !fits(said) || said.is_none() != (verb == "drop") {
        return Ok(None);
    }
    let executed = verb == "ran" || verb == "out";
    Ok(Some(conn.reply(said, executed)?))
}
