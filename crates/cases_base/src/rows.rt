//! Cases that are rows: what is given, and what is wanted of it.

use crate::fault::CasesFault;
use crate::names::Names;
use crate::told::Told;
use crate::walk::Walk;
use rpc_base::NoMemory;
use std::alloc::Global;

/// A line `NAME | GIVEN | WANTED`.
#[derive(Clone, Copy, Debug)]
pub struct Row<'a> {
    pub name: &'a str,
    pub given: &'a str,
    pub wanted: &'a str,
}

/// What answers rows.
pub trait Answers {
    /// Puts what a row comes to, in the form in which rows want it. False where what is given is nothing of the kind.
    fn answer(
        &mut self,
        alloc: Global,
        names: &Names,
        given: &str,
        into: &mut Vec<u8>,
    ) -> Result<bool, NoMemory>;
}

fn row_of(line: &str) -> Option<Row<'_>> {
    let (name, rest) = line.split_once('|')?;
    let (given, wanted) = rest.rsplit_once('|')?;
    Some(Row {
        name: name.trim(),
        given: given.trim(),
        wanted: wanted.trim(),
    })
}

fn answer_row<A: Answers>(
    alloc: Global,
    walk: &mut Walk,
    answers: &mut A,
    line: &str,
) -> Result<(), CasesFault> {
    let Some(row) = row_of(line) else {
        return Err(walk.outside());
    };
    walk.told.count();
    let mut come = Vec::new(alloc);
    if !answers.answer(alloc, &walk.names, row.given, &mut come)? {
        return Err(walk.outside());
    }
    if come.as_slice() != row.wanted.as_bytes() {
        walk.told
            .differs(alloc, row.name, walk.number, row.wanted, come.as_slice())?;
    }
    Ok(())
}

/// What is told of a text of rows.
pub fn answered<A: Answers>(
    alloc: Global,
    answers: &mut A,
    text: &str,
) -> Result<Told, CasesFault> {
    let mut walk = Walk::new(alloc);
    for line in text.lines() {
        if let Some(line) = walk.next(alloc, line)? {
            answer_row(alloc, &mut walk, answers, line)?;
        }
    }
    Ok(walk.told)
}
