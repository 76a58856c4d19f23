//! Files that are loaded whole by name.
ghost use Rattle.std.specs.Prelude.{◌≡◌, ℕ, ◌≤◌, List, ◌++◌, [], ◌∷◌, Option, Some, IfOk, OnOk, OnErr, IsErrOf, take};
ghost use Rattle.std.specs.Option.{option_copied};
ghost use Rattle.rpc_base.specs.Causes.{Rose};

use crate::{Items, Numbers, Octets, OutFault};
use std::alloc::Global;

/// Files that can be loaded by name.
pub trait Shelf {
    ghost use Rattle.rpc_base.specs.Shelves.{Files, IsLoad};

    /// How often it has failed.
    ghost faults: { Self → ℕ };

    /// The files by name, where it tells them.
    ghost files: { Self → Option Files };

    /// The first `most` octets of a file, or all where it has fewer.
    fn load(&mut self, alloc: Global, name: &str, most: usize) -> Result<Vec<u8>, OutFault>
        ensures load { IfOk result (λ octets. IsLoad (files self.old) name.now most octets.items) }
        ensures same { files self.new ≡ files self.old }
        ensures later { faults self.old ≤ faults self.new }
        ensures failed { IsErrOf result OutFault.Failed → Rose (faults self.old) (faults self.new) };
}

/// A file in memory.
#[derive(Debug, Drop)]
pub struct ShelfFile {
    pub name: Octets,
    pub octets: Octets,
}

/// A list of files. Of several of one name the first counts.
pub type ShelfFiles = Items<ShelfFile>;

/// Files in memory. The loads whose numbers, from 1, are listed fail, and so does one of a name that
/// no file has.
#[derive(Debug, Drop)]
pub struct MapShelf {
    files: ShelfFiles,
    failing: Numbers,
    calls: u64,
    faults: u64,
}

impl MapShelf {
    pub fn new(files: ShelfFiles, failing: Numbers) -> Self
        ensures files { result.files ≡ files }
        ensures failing { result.failing ≡ failing }
        ensures unused { (result.calls ≡ 0) × (result.faults ≡ 0) }
    {
        MapShelf {
            files,
            failing,
            calls: 0,
            faults: 0,
        }
    }
}

impl Shelf for MapShelf {
    ghost use Rattle.rpc_base.specs.Shelves.{file_of};

    ghost faults = { λ s. s.faults };

    ghost files = { λ s. Some (file_of s.files) };

    fn load(&mut self, alloc: Global, name: &str, most: usize) -> Result<Vec<u8>, OutFault> {
        self.calls = self.calls.saturating_add(1);
        if !self.failing.as_slice().contains(&self.calls) {
            if let Some(octets) = find(self.files.as_slice(), name.as_bytes()) {
                return Ok(front(octets, most).to_vec(alloc)?);
            }
        }
        self.faults = self.faults.saturating_add(1);
        Err(OutFault::Failed)
    }
}

ghost use Rattle.rpc_base.specs.Shelves.{file_of};

/// The octets of the first file of that name.
fn find<'a>(files: &'a [ShelfFile], name: &[u8]) -> Option<&'a [u8]>
    ensures { option_copied result ≡ file_of files.now name.now }
{
    for file in files {
        if file.name.as_slice() == name {
            return Some(file.octets.as_slice());
        }
    }
    None
}

fn front(octets: &[u8], most: usize) -> &[u8]
    ensures { result.now ≡ take most octets.now }
{
    if octets.len() <= most {
        octets
    } else {
        &octets[..most]
    }
}
