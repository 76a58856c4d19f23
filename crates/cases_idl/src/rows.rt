//! Rows of interface texts, `NAME | WORD TEXT | WANTED`.

use crate::spelling::spelled;
use crate::tokens::put_tokens;
use base_words::put;
use cases_base::{Answers, CasesFault, Names, Told, answered, first_word, put_debug};
use idl_check::{CheckFault, check};
use idl_reader::{IdlFault, read_idl};
use marshal_table::build;
use rpc_base::NoMemory;
use std::alloc::Global;
use std::fmt::Display;

/// What is told of rows of interface texts, each spelled on one line. The words are `tokens`, `read` for what the reader says of
/// a text, `tree` for its whole tree, `check` for what the reader or else the rules say of it, `declare` and `table` for the same
/// and for whether there is a table, of declarations that stand in an interface of a UUID; and `memory` for how faults of memory
/// are told.
///
/// # Errors
///
/// `CasesFault::Line` where a line is no row of that form, by its number from 1; `Memory` where memory runs out.
pub fn texts(alloc: Global, text: &str) -> Result<Told, CasesFault> {
    answered(alloc, &mut Rows, text)
}

/// The octets before the declarations of an interface.
const HEAD: &str = "[uuid(5f0c7a12-3b4d-4e6f-8a90-b1c2d3e4f506)]interface x{";

/// Interface texts.
#[derive(Drop)]
struct Rows;

impl Answers for Rows {
    fn answer(
        &mut self,
        alloc: Global,
        _names: &Names,
        given: &str,
        into: &mut Vec<u8>,
    ) -> Result<bool, NoMemory> {
        let (word, text) = first_word(given);
        let Some(text) = spelled(alloc, text)? else {
            return Ok(false);
        };
        match word {
            "tokens" => put_tokens(alloc, &text, into)?,
            "read" => put_read(alloc, &text, into)?,
            "tree" => put_tree(alloc, &text, into)?,
            "check" => put_checked(alloc, &text, into)?,
            "declare" => put_checked(alloc, &declared(alloc, &text)?, into)?,
            "table" => put_table(alloc, &declared(alloc, &text)?, into)?,
            "memory" => {
                put_told(alloc, &IdlFault::Memory, into)?;
                put(b", ", into)?;
                put_told(alloc, &CheckFault::Memory, into)?;
            }
            _ => return Ok(false),
        }
        Ok(true)
    }
}

/// An interface of these declarations.
///
/// # Errors
///
/// `NoMemory` where there is no memory for it.
pub fn declared(alloc: Global, declarations: &[u8]) -> Result<Vec<u8>, NoMemory> {
    let mut text = Vec::new(alloc);
    put(HEAD.as_bytes(), &mut text)?;
    put(declarations, &mut text)?;
    put(b"}", &mut text)?;
    Ok(text)
}

fn put_told<T: Display>(alloc: Global, fault: &T, into: &mut Vec<u8>) -> Result<(), NoMemory> {
    put(format!(in alloc; "{fault}")?.as_bytes(), into)
}

fn put_read(alloc: Global, text: &[u8], into: &mut Vec<u8>) -> Result<(), NoMemory> {
    match read_idl(alloc, text) {
        Ok(_) => put(b"tree", into),
        Err(fault) => put_told(alloc, &fault, into),
    }
}

fn put_tree(alloc: Global, text: &[u8], into: &mut Vec<u8>) -> Result<(), NoMemory> {
    match read_idl(alloc, text) {
        Ok(tree) => put_debug(alloc, &tree, into),
        Err(fault) => put_told(alloc, &fault, into),
    }
}

fn put_checked(alloc: Global, text: &[u8], into: &mut Vec<u8>) -> Result<(), NoMemory> {
    match read_idl(alloc, text) {
        Err(fault) => put_told(alloc, &fault, into),
        Ok(tree) => match check(alloc, &tree) {
            Ok(_) => put(b"legal", into),
            Err(fault) => put_told(alloc, &fault, into),
        },
    }
}

fn put_table(alloc: Global, text: &[u8], into: &mut Vec<u8>) -> Result<(), NoMemory> {
    let Ok(tree) = read_idl(alloc, text) else {
        return put(b"no tree", into);
    };
    match check(alloc, &tree) {
        Ok(checked) => match build(alloc, &checked) {
            Ok(_) => put(b"a table", into),
            Err(_) => put(b"no table", into),
        },
        Err(CheckFault::Rule { .. }) => put(b"not legal", into),
        Err(CheckFault::Memory) => put(b"no table", into),
    }
}
