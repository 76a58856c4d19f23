//! Texts of cases, line by line.

use crate::fault::CasesFault;
use crate::names::Names;
use crate::told::Told;
use std::alloc::Global;

/// What was read of a text so far: the names that it gave, what is told of its cases, and the number of its present line.
#[derive(Drop)]
pub struct Walk {
    pub names: Names,
    pub told: Told,
    pub number: u64,
}

impl Walk {
    /// Before the first line.
    pub fn new(alloc: Global) -> Walk {
        Walk {
            names: Names::new(alloc),
            told: Told::new(alloc),
            number: 0,
        }
    }

    /// The next line of the text, unless it says nothing or gave a name.
    pub fn next<'a>(
        &mut self,
        alloc: Global,
        line: &'a str,
    ) -> Result<Option<&'a str>, CasesFault> {
        self.number = self.number.saturating_add(1);
        let line = line.trim();
        if line.is_empty() || line.starts_with('#') {
            return Ok(None);
        }
        let Some(definition) = line.strip_prefix("let ") else {
            return Ok(Some(line));
        };
        if self.names.add(alloc, definition)? {
            Ok(None)
        } else {
            Err(self.outside())
        }
    }

    /// The present line is none of cases.
    pub fn outside(&self) -> CasesFault {
        CasesFault::Line(self.number)
    }
}
