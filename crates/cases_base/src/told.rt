//! What is told of a text of cases.

use base_words::{put, put_decimal};
use rpc_base::NoMemory;
use std::alloc::Global;

/// What a text of cases came to.
#[derive(Debug, Drop)]
pub struct Told {
    pub cases: u64,
    /// How many of them came to something else than the text says.
    pub wrong: u64,
    /// A line for each of those.
    pub differences: Vec<u8>,
}

impl Told {
    /// No case yet.
    pub fn new(alloc: Global) -> Told {
        Told {
            cases: 0,
            wrong: 0,
            differences: Vec::new(alloc),
        }
    }

    /// There is a case more.
    pub fn count(&mut self) {
        self.cases = self.cases.saturating_add(1);
    }

    /// A case came to something else: by its line of that number, which says what is wanted, there came that.
    pub fn differs(
        &mut self,
        alloc: Global,
        name: &str,
        number: u64,
        wanted: &str,
        come: &[u8],
    ) -> Result<(), NoMemory> {
        self.wrong = self.wrong.saturating_add(1);
        let into = &mut self.differences;
        put(b"line ", into)?;
        put_decimal(alloc, number, into)?;
        put(b", ", into)?;
        put(name.as_bytes(), into)?;
        put(b": wanted ", into)?;
        put(wanted.as_bytes(), into)?;
        put(b", came ", into)?;
        put(come, into)?;
        put(b"\n", into)
    }

    /// The line that is told of the cases of a file, after one for each that came to something else.
    pub fn put_line(&self, alloc: Global, file: &str, into: &mut Vec<u8>) -> Result<(), NoMemory> {
        put(self.differences.as_slice(), into)?;
        put(file.as_bytes(), into)?;
        put(b": ", into)?;
        put_decimal(alloc, self.cases, into)?;
        put(b" cases, ", into)?;
        put_decimal(alloc, self.wrong, into)?;
        put(b" differ\n", into)
    }
}

/// The subject of a file of cases: what stands in its name before the first `_`.
pub fn subject_of(file: &str) -> &str {
    match file.split_once('_') {
        Some((subject, _)) => subject,
        None => file,
    }
}
