//! Texts of worlds, case by case.

use crate::moves::moves_of;
use crate::outcome::put_outcome;
use cases_base::{CasesFault, Told};
use ndr_lines::table_of;
use ndr_table::Table;
use rpc_base::NoMemory;
use std::alloc::Global;

/// A case: its name, its moves, and the outcome that is wanted.
#[derive(Clone, Copy)]
struct Case<'a> {
    name: &'a str,
    moves: &'a str,
    wanted: &'a str,
}

fn case_of(text: &str) -> Option<Case<'_>> {
    let (name, rest) = text.strip_prefix("# ")?.split_once('\n')?;
    let (moves, wanted) = rest.split_once("--\n")?;
    Some(Case {
        name,
        moves,
        wanted,
    })
}

/// What the case comes to. None where a line is no move.
fn come_of(alloc: Global, table: &Table, case: Case<'_>) -> Result<Option<Vec<u8>>, NoMemory> {
    let Some(moves) = moves_of(alloc, table, case.moves) else {
        return Ok(None);
    };
    let mut come = Vec::new(alloc);
    put_outcome(alloc, table, moves, case.wanted, &mut come)?;
    Ok(Some(come))
}

/// Plays the case of the text, which begins at the line of that number.
fn play(
    alloc: Global,
    table: &Table,
    number: u64,
    text: &str,
    told: &mut Told,
) -> Result<(), CasesFault> {
    let Some(case) = case_of(text) else {
        return Err(CasesFault::Line(number));
    };
    let Some(come) = come_of(alloc, table, case)? else {
        return Err(CasesFault::Line(number));
    };
    told.count();
    if come.as_slice() != case.wanted.as_bytes() {
        told.differs(alloc, case.name, number, case.wanted, &come)?;
    }
    Ok(())
}

/// The number of the line behind a text that begins at the line of that number, and the line that closes it.
fn number_behind(number: u64, text: &str) -> u64 {
    let mut number = number.saturating_add(1);
    for _ in text.lines() {
        number = number.saturating_add(1);
    }
    number
}

/// What is told of a text of worlds: each list of moves is a case.
///
/// # Errors
///
/// `Line` where an interface or a case begins that isn't in the form, `Memory` where memory runs out.
pub fn worlds(alloc: Global, text: &str) -> Result<Told, CasesFault> {
    let Some((interface, cases)) = text.split_once("--\n") else {
        return Err(CasesFault::Line(1));
    };
    let Some(table) = table_of(alloc, interface.as_bytes()) else {
        return Err(CasesFault::Line(1));
    };
    let mut told = Told::new(alloc);
    let mut number = number_behind(1, interface);
    for text in cases.split("==\n") {
        if !text.is_empty() {
            play(alloc, &table, number, text, &mut told)?;
        }
        number = number_behind(number, text);
    }
    Ok(told)
}
