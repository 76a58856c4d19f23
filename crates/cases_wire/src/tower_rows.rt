//! Towers that are read and written.

use base_words::{put, put_hex};
use cases_base::{Answers, CasesFault, Names, Told, answered, first_word, octets_of};
use rpc_base::{NoMemory, SyntaxId};
use std::alloc::Global;
use tower_codec::{Tower, TowerFault, read_tower, write_tower};

/// `read OCTETS`: what a tower says, or why there is none. `again OCTETS`: `same` where what is read is written as these
/// octets. `fronts OCTETS`: how many fronts of them end within the tower. `memory`: the text of its want.
#[derive(Clone, Copy)]
struct TowerRows;

impl Answers for TowerRows {
    fn answer(
        &mut self,
        alloc: Global,
        names: &Names,
        given: &str,
        into: &mut Vec<u8>,
    ) -> Result<bool, NoMemory> {
        let (verb, words) = first_word(given);
        let Some(octets) = octets_of(alloc, names, words)? else {
            return Ok(false);
        };
        match verb {
            "read" => put_read(alloc, octets.as_slice(), into)?,
            "again" => put_again(alloc, octets.as_slice(), into)?,
            "fronts" => put_fronts(alloc, octets.as_slice(), into)?,
            "memory" => put_fault(alloc, TowerFault::from(NoMemory), into)?,
            _ => return Ok(false),
        }
        Ok(true)
    }
}

fn put_fault(alloc: Global, fault: TowerFault, into: &mut Vec<u8>) -> Result<(), NoMemory> {
    put(format!(in alloc; "{fault}")?.as_bytes(), into)
}

fn put_read(alloc: Global, octets: &[u8], into: &mut Vec<u8>) -> Result<(), NoMemory> {
    match read_tower(octets) {
        Ok(tower) => put_tower(alloc, &tower, into),
        Err(fault) => put_fault(alloc, fault, into),
    }
}

fn put_syntax(alloc: Global, syntax: &SyntaxId, into: &mut Vec<u8>) -> Result<(), NoMemory> {
    put_hex(alloc, syntax.id.as_bytes(), into)?;
    let (major, minor) = (syntax.major, syntax.minor);
    put(format!(in alloc; " {major}.{minor} ")?.as_bytes(), into)
}

fn put_tower(alloc: Global, tower: &Tower, into: &mut Vec<u8>) -> Result<(), NoMemory> {
    put_syntax(alloc, &tower.iface, into)?;
    put_syntax(alloc, &tower.transfer, into)?;
    let [a, b, c, d] = tower.ip;
    let (minor, port) = (tower.minor, tower.port);
    let text = format!(in alloc; "{minor} {a}.{b}.{c}.{d}:{port}")?;
    put(text.as_bytes(), into)
}

fn put_again(alloc: Global, octets: &[u8], into: &mut Vec<u8>) -> Result<(), NoMemory> {
    let Ok(tower) = read_tower(octets) else {
        return put(b"no tower", into);
    };
    let mut written = Vec::new(alloc);
    write_tower(&tower, &mut written)?;
    match written.as_slice() == octets {
        true => put(b"same", into),
        false => put_hex(alloc, written.as_slice(), into),
    }
}

fn put_fronts(alloc: Global, octets: &[u8], into: &mut Vec<u8>) -> Result<(), NoMemory> {
    let mut short = 0_u64;
    for size in 0..octets.len() {
        if read_tower(&octets[..size]) == Err(TowerFault::Short) {
            short = short.saturating_add(1);
        }
    }
    let size = octets.len();
    put(format!(in alloc; "{short} of {size}")?.as_bytes(), into)
}

/// What is told of rows of towers.
pub fn towers(alloc: Global, text: &str) -> Result<Told, CasesFault> {
    answered(alloc, &mut TowerRows, text)
}
