//! The files of the system. Their faults are counted, and what they hold isn't told.
ghost use Rattle.std.specs.Prelude.{None, ◌≤◌, length, IfOk, ◌<◌};

use rpc_base::{OutFault, Shelf};
use std::alloc::Global;
use std::fs;
use std::io::Read;
use std::rt::Files;

/// The files of the system.
#[derive(Drop)]
pub struct FileShelf<'a, R: Files> {
    rt: &'a R,
    /// How many files could not be read.
    pub faults: u64,
}

impl<'a, R: Files> FileShelf<'a, R> {
    /// The files that names lead to, of which none failed so far.
    pub fn new(rt: &'a R) -> Self {
        FileShelf { rt, faults: 0 }
    }
}

impl<R: Files> Shelf for FileShelf<'_, R> {
    ghost faults = { λ s. s.faults };

    ghost files = { λ _. None };

    fn load(&mut self, alloc: Global, name: &str, most: usize) -> Result<Vec<u8>, OutFault> {
        let loaded = match fs::open(self.rt, name) {
            Ok(mut file) => read_front(alloc, &mut file, most),
            Err(_) => Err(OutFault::Failed),
        };
        if let Err(OutFault::Failed) = loaded {
            self.faults = self.faults.saturating_add(1);
        }
        loaded
    }
}

/// The first octets of a reader, or all.
fn read_front<R: Read>(alloc: Global, reader: &mut R, most: usize) -> Result<Vec<u8>, OutFault> {
    let mut octets = Vec::new(alloc);
    let mut buffer = [0u8; 4096];
    for _ in 0..u64::MAX {
        if octets.len() >= most {
            break;
        }
        let room = (most - octets.len()).min(4096);
        let Ok(count) = reader.read(&mut buffer[..room]) else {
            return Err(OutFault::Failed);
        };
        if count == 0 {
            break;
        }
        octets.extend_from_slice(&buffer[..count])?;
    }
    Ok(octets)
}
