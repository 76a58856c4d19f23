//! What the words of a command line ask, with a space between two of them.

use app_words::{Asked, asked};
use base_words::put;
use cases_base::{Answers, CasesFault, Names, Told, answered, bare};
use rpc_base::NoMemory;
use std::alloc::Global;

/// Reads words. Two spaces in a row have an empty word between them.
#[derive(Clone, Copy)]
struct AskRows;

impl Answers for AskRows {
    fn answer(
        &mut self,
        alloc: Global,
        _names: &Names,
        given: &str,
        into: &mut Vec<u8>,
    ) -> Result<bool, NoMemory> {
        let mut words = Vec::new(alloc);
        for word in bare(given).split(' ') {
            words.push(String::from_str(alloc, word)?)?;
        }
        match asked(alloc, words.as_slice())? {
            Some(asked) => put_asked(alloc, &asked, into)?,
            None => put(b"nothing", into)?,
        }
        Ok(true)
    }
}

fn put_asked(alloc: Global, asked: &Asked<'_>, into: &mut Vec<u8>) -> Result<(), NoMemory> {
    let text = match asked {
        Asked::Replay { file, idl } => {
            put(format!(in alloc; "replay [{file}]")?.as_bytes(), into)?;
            return put_idl(alloc, *idl, into);
        }
        Asked::Serve {
            ip,
            port,
            connections,
            idl,
        } => {
            let [a, b, c, d] = *ip;
            let text = format!(in alloc; "serve {a} {b} {c} {d} {port} {connections}")?;
            put(text.as_bytes(), into)?;
            return put_idl(alloc, *idl, into);
        }
        Asked::Idl { file } => format!(in alloc; "idl [{file}]")?,
        Asked::Audit { file } => format!(in alloc; "audit [{file}]")?,
        Asked::Load { number, steps } => format!(in alloc; "load {number} {steps}")?,
        Asked::Call {
            ip,
            port,
            idl,
            script,
        } => {
            let [a, b, c, d] = *ip;
            format!(in alloc; "call {a} {b} {c} {d} {port} idl [{idl}] script [{script}]")?
        }
    };
    put(text.as_bytes(), into)
}

fn put_idl(alloc: Global, idl: Option<&str>, into: &mut Vec<u8>) -> Result<(), NoMemory> {
    match idl {
        Some(idl) => put(format!(in alloc; " idl [{idl}]")?.as_bytes(), into),
        None => Ok(()),
    }
}

/// What is told of rows of words that ask.
pub fn asks(alloc: Global, text: &str) -> Result<Told, CasesFault> {
    answered(alloc, &mut AskRows, text)
}
