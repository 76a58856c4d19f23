//! What `clap` is told of the program's words.
ghost use Rattle.std.specs.Prelude.{◌≡◌, false, IfOk};
ghost use Rattle.clap.specs.Words.{app_of, shape_of};
ghost use Rattle.clap.specs.declared.builder.command.Command.TheViews.{out-Command};
ghost use Rattle.app_words.specs.Usage as spec;

use clap::{Arg, Command};
use std::alloc::{AllocError, Global};

/// A command that takes a file.
fn of_file<'a>(alloc: Global, name: &'a str) -> Result<Command<'a>, AllocError>
    ensures shape { IfOk result (λ c. shape_of c ≡ spec.told (spec.of_file name.entry.now)) }
    ensures local { IfOk result (λ c. (out-Command c).has_globals ≡ false) }
{
    Command::new(alloc, name).arg(Arg::new(alloc, "FILE").required(true))
}

/// The command `replay`, which takes an interface text too.
fn replay<'a>(alloc: Global) -> Result<Command<'a>, AllocError>
    ensures shape { IfOk result (λ c. shape_of c ≡ spec.told spec.replay) }
    ensures local { IfOk result (λ c. (out-Command c).has_globals ≡ false) }
{
    of_file(alloc, "replay")?.arg(Arg::new(alloc, "idl").long("idl"))
}

/// The command `load`.
fn load<'a>(alloc: Global) -> Result<Command<'a>, AllocError>
    ensures shape { IfOk result (λ c. shape_of c ≡ spec.told spec.load) }
    ensures local { IfOk result (λ c. (out-Command c).has_globals ≡ false) }
{
    Command::new(alloc, "load")
        .arg(Arg::new(alloc, "NUMBER").required(true))?
        .arg(Arg::new(alloc, "N").required(true))
}

/// The command `serve`, which must be told how many connections it serves.
fn serve<'a>(alloc: Global) -> Result<Command<'a>, AllocError>
    ensures shape { IfOk result (λ c. shape_of c ≡ spec.told spec.serve) }
    ensures local { IfOk result (λ c. (out-Command c).has_globals ≡ false) }
{
    let connections = Arg::new(alloc, "connections").long("connections");
    Command::new(alloc, "serve")
        .arg(Arg::new(alloc, "ADDRESS").required(true))?
        .arg(connections.required(true))?
        .arg(Arg::new(alloc, "idl").long("idl"))
}

/// The command `call`.
fn call<'a>(alloc: Global) -> Result<Command<'a>, AllocError>
    ensures shape { IfOk result (λ c. shape_of c ≡ spec.told spec.call) }
    ensures local { IfOk result (λ c. (out-Command c).has_globals ≡ false) }
{
    Command::new(alloc, "call")
        .arg(Arg::new(alloc, "ADDRESS").required(true))?
        .arg(Arg::new(alloc, "IDL").required(true))?
        .arg(Arg::new(alloc, "SCRIPT").required(true))
}

/// The program and its commands. No word asks for help or for a version.
///
/// # Errors
///
/// `AllocError` where there is no memory for the commands.
pub fn program<'a>(alloc: Global) -> Result<Command<'a>, AllocError>
    ensures app { IfOk result (λ c. app_of c ≡ spec.program) }
{
    Command::new(alloc, "dcerpc")
        .no_binary_name(true)
        .disable_help_flag(true)
        .disable_help_subcommand(true)
        .subcommand_required(true)
        .subcommand(replay(alloc)?)?
        .subcommand(of_file(alloc, "idl")?)?
        .subcommand(of_file(alloc, "audit")?)?
        .subcommand(load(alloc)?)?
        .subcommand(serve(alloc)?)?
        .subcommand(call(alloc)?)
}
