//! Octets by their names.

use crate::octets::octets_of;
use rpc_base::NoMemory;
use std::alloc::Global;

#[derive(Debug, Drop)]
struct Named {
    name: String,
    octets: Vec<u8>,
}

/// Octets by their names, as lines `let NAME = OCTETS` give them.
#[derive(Debug, Drop)]
pub struct Names {
    named: Vec<Named>,
}

impl Names {
    /// No name yet.
    pub fn new(alloc: Global) -> Names {
        Names {
            named: Vec::new(alloc),
        }
    }

    /// The octets that were last given the name.
    pub fn find(&self, name: &[u8]) -> Option<&[u8]> {
        let mut found = None;
        for named in &self.named {
            if named.name.as_bytes() == name {
                found = Some(named.octets.as_slice());
            }
        }
        found
    }

    /// What stands behind `let` gives a name to octets. False where it is nothing of the kind.
    pub fn add(&mut self, alloc: Global, definition: &str) -> Result<bool, NoMemory> {
        let Some((name, words)) = definition.split_once('=') else {
            return Ok(false);
        };
        let Some(octets) = octets_of(alloc, self, words)? else {
            return Ok(false);
        };
        let name = String::from_str(alloc, name.trim())?;
        self.named.push(Named { name, octets })?;
        Ok(true)
    }
}
