//! What the words ask to be done.
ghost use Rattle.std.specs.Prelude.{◌≡◌, List, map, option_map, string_bytes, IfOk, IfSome, IfNone};
ghost use Rattle.rpc_app.specs.Asks.{Wanted as AWanted, ToDo, OfFile, Asks, AsksForNothing, wanted_of};
ghost use Rattle.rpc_app.specs.Words.{told_wanted};

use crate::command::Command;
use app_words::Asked;
use rpc_base::NoMemory;
use rpc_outside::Address;
use std::alloc::Global;

/// A command, the name of its file, and that of the interface text beside it.
#[derive(Clone, Copy, Debug)]
pub struct FileTask<'a> {
    pub command: Command,
    pub file: &'a str,
    pub idl: Option<&'a str>,
}

/// What is to be done.
#[derive(Clone, Copy, Debug)]
pub enum Task<'a> {
    /// A command with files.
    File(FileTask<'a>),
    /// The load of a number in so many steps.
    Load { number: u64, steps: u32 },
}

/// Connections that are to be served: the address to listen at, how many at most, and the name of the interface text whose
/// interface is served beside the built-in ones.
#[derive(Clone, Copy, Debug)]
pub struct ServeTask<'a> {
    pub at: Address,
    pub most: u32,
    pub idl: Option<&'a str>,
}

/// Calls that are to be made: the address of the server, the name of the interface text that has the operations, and that of
/// the script.
#[derive(Clone, Copy, Debug)]
pub struct CallTask<'a> {
    pub at: Address,
    pub idl: &'a str,
    pub script: &'a str,
}

/// What is wanted.
#[derive(Clone, Copy, Debug)]
pub enum Wanted<'a> {
    /// A task of files, which needs nobody else.
    Task(Task<'a>),
    /// Connections are to be served.
    Serve(ServeTask<'a>),
    /// Calls are to be made.
    Call(CallTask<'a>),
}

/// A command with a file, and the interface text beside it.
fn of_file<'a>(command: Command, file: &'a str, idl: Option<&'a str>) -> Wanted<'a>
    ensures { told_wanted result ≡ ToDo (OfFile (record { command = command; file = file.entry.now; idl = option_map (λ n. n.now) idl.entry })) }
{
    Wanted::Task(Task::File(FileTask { command, file, idl }))
}

/// What is wanted where that is asked.
fn wanted_in(asked: Asked<'_>) -> Wanted<'_>
    ensures { told_wanted result ≡ wanted_of asked.entry }
{
    match asked {
        Asked::Replay { file, idl } => of_file(Command::Replay, file, idl),
        Asked::Idl { file } => of_file(Command::Idl, file, None),
        Asked::Audit { file } => of_file(Command::Audit, file, None),
        Asked::Load { number, steps } => Wanted::Task(Task::Load { number, steps }),
        Asked::Serve {
            ip,
            port,
            connections,
            idl,
        } => Wanted::Serve(ServeTask {
            at: Address { ip, port },
            most: connections,
            idl,
        }),
        Asked::Call {
            ip,
            port,
            idl,
            script,
        } => Wanted::Call(CallTask {
            at: Address { ip, port },
            idl,
            script,
        }),
    }
}

/// What the words ask for, or `None` where they ask for nothing; `NoMemory` where memory ends while they are read.
///
/// # Errors
///
/// `NoMemory` where there is no memory for reading the words.
pub fn asked(alloc: Global, words: &[String]) -> Result<Option<Wanted<'_>>, NoMemory>
    ensures asked { IfOk result (λ o. IfSome o (λ w. Asks (map string_bytes words.now) (told_wanted w))) }
    ensures alone { IfOk result (λ o. IfSome o (λ w. (other : AWanted) → Asks (map string_bytes words.now) other → other ≡ told_wanted w)) }
    ensures nothing { IfOk result (λ o. IfNone o (AsksForNothing (map string_bytes words.now))) }
{
    match app_words::asked(alloc, words)? {
        Some(asked) => Ok(Some(wanted_in(asked))),
        None => Ok(None),
    }
}
