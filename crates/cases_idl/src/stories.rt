//! Stories of interface texts: the lines of a text, and those of its canonical text or of its table.

use crate::rows::declared;
use crate::spelling::spelled;
use crate::tables::put_table;
use base_words::put;
use cases_base::{CasesFault, Names, Plays, Step, Told, bare, first_word, played};
use idl_forms::copy_tree;
use idl_print::print_idl;
use idl_reader::{IdlFault, read_idl};
use rpc_base::NoMemory;
use std::alloc::Global;

/// What is told of stories of interface texts. A line `text` has the next line of the text, and `declare` declarations that stand
/// in an interface of a UUID; `printed` has the next line of the canonical text that is wanted, and `table` that of the table. Each
/// may stand between quotation marks. The canonical text is its own, and has the same table.
///
/// # Errors
///
/// `CasesFault::Line` where a line is none of a story, by its number from 1; `Memory` where memory runs out.
pub fn interfaces(alloc: Global, text: &str) -> Result<Told, CasesFault> {
    let mut story = Story {
        text: Vec::new(alloc),
        printed: Vec::new(alloc),
        table: Vec::new(alloc),
    };
    played(alloc, &mut story, text)
}

/// A text, and the texts that are wanted of it; empty ones are of no interest.
#[derive(Drop)]
struct Story {
    text: Vec<u8>,
    printed: Vec<u8>,
    table: Vec<u8>,
}

fn put_line(line: &[u8], into: &mut Vec<u8>) -> Result<(), NoMemory> {
    put(line, into)?;
    put(b"\n", into)
}

impl Plays for Story {
    fn begin(&mut self, _alloc: Global, _name: &str) -> Result<(), NoMemory> {
        self.text.clear();
        self.printed.clear();
        self.table.clear();
        Ok(())
    }

    fn step(
        &mut self,
        alloc: Global,
        _names: &Names,
        line: &str,
        _come: &mut Vec<u8>,
    ) -> Result<Step, NoMemory> {
        let (word, rest) = first_word(line);
        let Some(spelled) = spelled(alloc, bare(rest))? else {
            return Ok(Step::Outside);
        };
        match word {
            "text" => put_line(&spelled, &mut self.text)?,
            "printed" => put_line(&spelled, &mut self.printed)?,
            "table" => put_line(&spelled, &mut self.table)?,
            "declare" => self.text = declared(alloc, &spelled)?,
            _ => return Ok(Step::Outside),
        }
        Ok(Step::Held)
    }

    fn end(&mut self, alloc: Global, _names: &Names, come: &mut Vec<u8>) -> Result<Step, NoMemory> {
        let printed = printed(alloc, &self.text)?;
        if !self.printed.is_empty() && printed.as_slice() != self.printed.as_slice() {
            put(&printed, come)?;
            return Ok(Step::Differs);
        }
        if !self.table.is_empty() {
            put_table(alloc, &self.text, come)?;
            if come.as_slice() != self.table.as_slice() {
                return Ok(Step::Differs);
            }
        }
        canonical_held(alloc, &printed, &self.table, come)
    }
}

/// Whether a canonical text is that of itself, and has the table, where one is wanted.
fn canonical_held(
    alloc: Global,
    text: &[u8],
    table: &[u8],
    come: &mut Vec<u8>,
) -> Result<Step, NoMemory> {
    let mut own = Vec::new(alloc);
    put_table(alloc, text, &mut own)?;
    if !table.is_empty() && own.as_slice() != table {
        put(b"another table of the canonical text", come)?;
        return Ok(Step::Differs);
    }
    if printed(alloc, text)?.as_slice() != text {
        put(b"another canonical text of the canonical text", come)?;
        return Ok(Step::Differs);
    }
    Ok(Step::Held)
}

/// The canonical text, printed behind what was there.
fn printed(alloc: Global, text: &[u8]) -> Result<Vec<u8>, NoMemory> {
    let mut printed = Vec::new(alloc);
    let tree = match read_idl(alloc, text) {
        Ok(tree) => tree,
        Err(IdlFault::Memory) => return Err(NoMemory),
        Err(fault) => {
            put(format!(in alloc; "{fault}")?.as_bytes(), &mut printed)?;
            return Ok(printed);
        }
    };
    let mut behind = Vec::new(alloc);
    put(b"> ", &mut behind)?;
    print_idl(alloc, &copy_tree(alloc, &tree)?, &mut behind)?;
    match behind.strip_prefix(b"> ") {
        Some(text) => put(text, &mut printed)?,
        None => put(b"what was there is no more", &mut printed)?,
    }
    Ok(printed)
}
