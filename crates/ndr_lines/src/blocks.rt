//! Texts of stubs. A case is an interface, whose first line may be `# NAME`, a line `--`, and lines of stubs of its first
//! operation. Among these a line `asked OCTETS` has the request, in little-endian order, that the responses behind it answer, and
//! `fits TEXT = ANSWER` says whether the request of that text is of the operation. A case ends with a line `==`.

use crate::case::{Case, case_of, decoded, octets_of_words};
use crate::fit::put_fit;
use base_words::put;
use cases_base::{CasesFault, Told};
use idl_check::check;
use idl_reader::read_idl;
use marshal_table::build;
use ndr_codec::Way;
use ndr_table::Table;
use ndr_value::Message;
use rpc_base::{NoMemory, Order};
use std::alloc::Global;

/// What is told of a text of stubs: each stub is a case.
///
/// # Errors
///
/// Where a line isn't in the form, or memory runs out.
pub fn stubs(alloc: Global, text: &str) -> Result<Told, CasesFault> {
    let mut blocks = Blocks::new(alloc);
    for line in text.lines() {
        blocks.line(alloc, line)?;
    }
    Ok(blocks.told)
}

/// The table of an interface text, if it has one.
pub fn table_of(alloc: Global, text: &[u8]) -> Option<Table> {
    let tree = read_idl(alloc, text).ok()?;
    let checked = check(alloc, &tree).ok()?;
    build(alloc, &checked).ok()
}

/// The present case, and what is told of those before it.
#[derive(Drop)]
struct Blocks {
    name: String,
    text: Vec<u8>,
    is_text: bool,
    table: Option<Table>,
    asked: Option<Message>,
    number: u64,
    told: Told,
}

impl Blocks {
    fn new(alloc: Global) -> Blocks {
        Blocks {
            name: String::new(alloc),
            text: Vec::new(alloc),
            is_text: true,
            table: None,
            asked: None,
            number: 0,
            told: Told::new(alloc),
        }
    }

    fn outside(&self) -> CasesFault {
        CasesFault::Line(self.number)
    }

    fn text_line(&mut self, alloc: Global, line: &str) -> Result<(), CasesFault> {
        if let Some(name) = line.strip_prefix("# ") {
            self.name = String::from_str(alloc, name)?;
            return Ok(());
        }
        if line != "--" {
            put(line.as_bytes(), &mut self.text)?;
            put(b"\n", &mut self.text)?;
            return Ok(());
        }
        self.table = table_of(alloc, self.text.as_slice());
        self.text.clear();
        self.is_text = false;
        if self.table.is_none() {
            return Err(self.outside());
        }
        Ok(())
    }

    fn end_block(&mut self, alloc: Global) {
        self.name = String::new(alloc);
        self.is_text = true;
        self.table = None;
        self.asked = None;
    }

    // The request that is answered.
    fn asked_line(&mut self, alloc: Global, words: &str) -> Result<(), CasesFault> {
        let Some(stub) = octets_of_words(alloc, words)? else {
            return Err(self.outside());
        };
        let message = match &self.table {
            Some(table) => decoded(alloc, table, Way::Request, Order::Little, None, &stub).ok(),
            None => None,
        };
        if message.is_none() {
            return Err(self.outside());
        }
        self.asked = message;
        Ok(())
    }

    fn answer(&self, alloc: Global, case: &Case<'_>) -> Result<Option<Vec<u8>>, NoMemory> {
        match &self.table {
            Some(table) => case.answer(alloc, table, self.asked.as_ref()),
            None => Ok(None),
        }
    }

    // Tells of a line that came to this.
    fn compare(
        &mut self,
        alloc: Global,
        line: &str,
        wanted: &str,
        come: &[u8],
    ) -> Result<(), NoMemory> {
        self.told.count();
        if come == wanted.as_bytes() {
            return Ok(());
        }
        let (name, number) = (self.name.as_str(), self.number);
        self.told.differs(alloc, name, number, line, come)
    }

    fn case_line(&mut self, alloc: Global, line: &str) -> Result<(), CasesFault> {
        let Some(case) = case_of(line) else {
            return Err(self.outside());
        };
        let Some(answer) = self.answer(alloc, &case)? else {
            return Err(self.outside());
        };
        self.compare(alloc, line, case.wanted, &answer)?;
        Ok(())
    }

    fn fit_line(&mut self, alloc: Global, line: &str) -> Result<(), CasesFault> {
        let Some((text, wanted)) = line.rsplit_once(" = ") else {
            return Err(self.outside());
        };
        let mut come = Vec::new(alloc);
        let is_text = match &self.table {
            Some(table) => put_fit(alloc, table, text, &mut come)?,
            None => false,
        };
        if !is_text {
            return Err(self.outside());
        }
        self.compare(alloc, line, wanted, &come)?;
        Ok(())
    }

    // Goes through the next line.
    fn line(&mut self, alloc: Global, line: &str) -> Result<(), CasesFault> {
        self.number = self.number.saturating_add(1);
        if self.is_text {
            return self.text_line(alloc, line);
        }
        if line == "==" {
            self.end_block(alloc);
            return Ok(());
        }
        if let Some(words) = line.strip_prefix("asked ") {
            return self.asked_line(alloc, words);
        }
        match line.strip_prefix("fits ") {
            Some(line) => self.fit_line(alloc, line),
            None => self.case_line(alloc, line),
        }
    }
}
