//! The files.
ghost use Rattle.std.specs.Prelude.{◌≡◌, ◌+◌, ◌<◌, ◌≤◌, ℕ, suc, List, length, slice_get, MatchOption, Some, None, OnErr, OnOk, true, bytes_eq, if◌then◌else◌};
ghost use Rattle.std.specs.List.{list_all};
ghost use Rattle.std.specs.Option.{option_copied};
ghost use Rattle.rpc_base.specs.Named.{at_name};
ghost use Rattle.ndr_value.specs.Values.{msg};
ghost use Rattle.manager_api.specs.Arguments.{bytes_at};
ghost use Rattle.store_manager.specs.Files as spec;
ghost use Rattle.store_manager.specs.Steps.{piece_at};
ghost use Rattle.store_manager.specs.Wholes.{AddsFile, AppendsOctets};

use crate::File;
use manager_api::append_bytes;
use ndr_value::Message;
use rpc_base::{Names, NoMemory, Octets};
use std::alloc::Global;

/// How many files there may be.
pub const MOST_FILES: usize = 1024;

/// How many octets a file may have.
pub const MOST_OCTETS: usize = 1 << 24;

/// Whether a file may have the name.
pub fn is_name(name: &[u8]) -> bool
    ensures { result ≡ spec.is_name name.now }
{
    1 <= name.len() && name.len() <= 255
}

/// The cookie of a file's number and a position.
pub fn cookie_of(number: u32, position: u32) -> u64
    ensures { result ≡ spec.cookie_of number position }
{
    u64::from(number) * (1 << 32) + u64::from(position)
}

/// The number in a cookie.
pub fn number_of(cookie: u64) -> u32
    ensures { result ≡ spec.number_of cookie }
{
    (cookie / (1 << 32)) as u32
}

/// The position in a cookie.
pub fn position_of(cookie: u64) -> u32
    ensures { result ≡ spec.position_of cookie }
{
    (cookie % (1 << 32)) as u32
}

fn item_at(files: &[File], at: usize) -> Option<&File>
    ensures { option_copied result ≡ slice_get files.now at }
{
    files.get(at)
}

/// The file that a cookie names.
pub fn file_of(files: &[File], cookie: u64) -> Option<&File>
    ensures { option_copied result ≡ spec.file_at files.now (spec.number_of cookie) }
{
    let number = number_of(cookie);
    if number == 0 {
        None
    } else {
        item_at(files, number as usize - 1)
    }
}

/// At most so many octets of a file, from a position on.
pub fn piece(octets: &[u8], position: usize, most: usize) -> &[u8]
    ensures { result.now ≡ piece_at octets.now position most }
{
    let from = position.min(octets.len());
    let rest = &octets[from..];
    let count = most.min(rest.len());
    &rest[..count]
}

/// AddsFile the octets of an argument to the file at an index.
///
/// # Errors
///
/// `NoMemory` where there is no memory for the octets: the files are as before then.
pub fn append_at(
    alloc: Global,
    message: &Message,
    files: &mut Vec<File>,
    index: usize,
) -> Result<(), NoMemory>
    requires { index < length files.old.items }
    ensures ok { OnOk result (AppendsOctets files.old.items index (bytes_at (msg message.now) 2) files.new.items) }
    ensures err { OnErr result (files.new.items ≡ files.old.items) }
{
    append_bytes(alloc, message, 2, &mut files[index].octets)
}

// Puts the number of a file at its name.
#[tactic(auto, using(rpc_base::proofs::NamePuts::puts))]
fn put_name(names: &mut Names<u32>, name: Vec<u8>, number: u32) -> Result<(), NoMemory>
    ensures ok { OnOk result ((other : List ℕ) → at_name names.new other ≡ (if bytes_eq name.items other then Some number else at_name names.old other)) }
    ensures err { OnErr result ((other : List ℕ) → at_name names.new other ≡ at_name names.old other) }
{
    match names.insert(name, number) {
        Ok(_) => Ok(()),
        Err(_) => Err(NoMemory),
    }
}

/// AddsFile an empty file of a name and of the number that follows the others'.
///
/// # Errors
///
/// `NoMemory` where there is no memory for the file or its name: files and names are as before then.
pub fn add_file(
    alloc: Global,
    name: &[u8],
    number: u32,
    files: &mut Vec<File>,
    names: &mut Names<u32>,
) -> Result<(), NoMemory>
    ensures ok { OnOk result (AddsFile files.old.items names.old name.now number files.new.items names.new) }
    ensures err { OnErr result ((files.new.items ≡ files.old.items) × ((other : List ℕ) → at_name names.new other ≡ at_name names.old other)) }
{
    let key = Vec::from_slice(alloc, name)?;
    let file = File {
        name: Octets::from_vec(Vec::from_slice(alloc, name)?),
        octets: Octets::new(alloc),
    };
    let count = files.len();
    files.push(file)?;
    match put_name(names, key, number) {
        Ok(()) => Ok(()),
        Err(NoMemory) => {
            files.truncate(count);
            Err(NoMemory)
        }
    }
}
