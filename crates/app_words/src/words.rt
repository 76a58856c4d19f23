//! What the words ask.
ghost use Rattle.std.specs.Prelude.{◌≡◌, Some, map, option_map, string_bytes, codes, IfOk, IfSome, IfNone};
ghost use Rattle.app_words.specs.Asks.{AsksFor, AsksForNothing, ReadsLine, line_of, load_line, serve_line, call_line};
ghost use Rattle.app_words.specs.Found.{ReadsReplay, ReadsPlain, ReadsLoad, ReadsServe, ReadsCall};

use crate::command::Asked;
use crate::read_address;
use crate::usage::program;
use base_words::{read_between, read_u64};
use clap::ArgMatches;
use clap::error::ErrorKind;
use rpc_base::NoMemory;
use std::alloc::Global;

/// How many steps a load has at most.
const MOST_STEPS: u64 = 100_000;

/// How many connections are served at most.
const MOST_CONNECTIONS: u64 = 1_000_000;

/// The load of these numbers, if they are numbers within their ranges.
fn load_of<'a>(number: &str, steps: &str) -> Option<Asked<'a>>
    ensures { ReadsLine (load_line number.now steps.now) result }
{
    let number = read_u64(number.as_bytes())?;
    let steps = read_between(steps.as_bytes(), 0, MOST_STEPS)?;
    Some(Asked::Load {
        number,
        steps: steps as u32,
    })
}

/// The serving that these texts ask for, if they are an address and a number within its range.
fn serve_of<'a>(address: &str, connections: &str, idl: Option<&'a str>) -> Option<Asked<'a>>
    ensures { ReadsLine (serve_line address.now connections.now (option_map (λ text. text.now) idl.entry)) result }
{
    let (ip, port) = read_address(address.as_bytes())?;
    let connections = read_between(connections.as_bytes(), 1, MOST_CONNECTIONS)?;
    Some(Asked::Serve {
        ip,
        port,
        connections: connections as u32,
        idl,
    })
}

/// The calls that these texts ask for, if the first is an address.
fn call_of<'a>(address: &str, idl: &'a str, script: &'a str) -> Option<Asked<'a>>
    ensures { ReadsLine (call_line address.now idl.entry.now script.entry.now) result }
{
    let (ip, port) = read_address(address.as_bytes())?;
    Some(Asked::Call {
        ip,
        port,
        idl,
        script,
    })
}

/// The command that `clap` found, with its operands and its options.
fn found<'a>(matches: &ArgMatches<'a>) -> Option<Asked<'a>>
    ensures replay { ReadsReplay matches.now result }
    ensures idl { ReadsPlain (codes "idl") matches.now result }
    ensures audit { ReadsPlain (codes "audit") matches.now result }
    ensures load { ReadsLoad matches.now result }
    ensures serve { ReadsServe matches.now result }
    ensures call { ReadsCall matches.now result }
{
    let (name, arguments) = matches.subcommand()?;
    match name {
        "replay" => {
            let file = arguments.get_str("FILE")?;
            let idl = arguments.get_str("idl");
            Some(Asked::Replay { file, idl })
        }
        "idl" => {
            let file = arguments.get_str("FILE")?;
            Some(Asked::Idl { file })
        }
        "audit" => {
            let file = arguments.get_str("FILE")?;
            Some(Asked::Audit { file })
        }
        "load" => {
            let number = arguments.get_str("NUMBER")?;
            let steps = arguments.get_str("N")?;
            load_of(number, steps)
        }
        "serve" => {
            let address = arguments.get_str("ADDRESS")?;
            let connections = arguments.get_str("connections")?;
            serve_of(address, connections, arguments.get_str("idl"))
        }
        "call" => {
            let address = arguments.get_str("ADDRESS")?;
            let idl = arguments.get_str("IDL")?;
            let script = arguments.get_str("SCRIPT")?;
            call_of(address, idl, script)
        }
        _ => None,
    }
}

/// What the words ask for, or `None` where they ask for nothing; `NoMemory` where memory ends while
/// they are read.
///
/// # Errors
///
/// `NoMemory` where there is no memory for reading the words.
pub fn asked(alloc: Global, words: &[String]) -> Result<Option<Asked<'_>>, NoMemory>
    ensures asked { IfOk result (λ o. IfSome o (AsksFor (map string_bytes words.now))) }
    ensures alone { IfOk result (λ o. IfSome o (λ a. (other : Asked) → AsksFor (map string_bytes words.now) other → line_of other ≡ line_of a)) }
    ensures nothing { IfOk result (λ o. IfNone o (AsksForNothing (map string_bytes words.now))) }
{
    match program(alloc)?.try_get_matches_from(words) {
        Ok(matches) => Ok(found(&matches)),
        Err(error) => match error.kind() {
            ErrorKind::OutOfMemory => Err(NoMemory),
            _ => Ok(None),
        },
    }
}
