//! What a command makes of a file.
ghost use Rattle.std.specs.Prelude.{◌≡◌, IfOk, IfErr};
ghost use Rattle.server_command.specs.Tables.{shown_by};
ghost use Rattle.rpc_app.specs.Commands.{Makes, line_refusal};
ghost use Rattle.rpc_app.specs.Making.{IsWhy};

use crate::command::Command;
use crate::idl::reprint;
use crate::verdicts::judge;
use base_words::{put, put_decimal};
use ndr_table::Table;
use replay::{ReplayFault, Replayed, replay};
use rpc_base::NoMemory;
use std::alloc::Global;

/// Why a command makes nothing of a file.
#[derive(Debug, Drop)]
pub enum MakeFault {
    /// The file is none that the command takes, as this text says.
    Refused(Vec<u8>),
    /// There is no memory.
    Memory,
}

impl From<NoMemory> for MakeFault {
    ghost use Rattle.std.specs.Prelude.{◌≡◌};
    ghost use Rattle.rpc_app.specs.declared.make.MakeFault.TheVariants.{Memory};

    ghost from_gives = { λ _ e. e ≡ Memory };

    fn from(_: NoMemory) -> Self {
        MakeFault::Memory
    }
}

/// The refusal of a script's line, by its number, from 1.
///
/// # Errors
///
/// `NoMemory` where there is no memory for the text.
#[tactic(auto, unfolding(crate::specs::Commands::line_refusal))]
pub fn line_refusal(alloc: Global, line: usize) -> Result<Vec<u8>, NoMemory>
    ensures { IfOk result (λ text. text.items ≡ line_refusal line) }
{
    let mut text = Vec::new(alloc);
    put(b"refused: script line ", &mut text)?;
    put_decimal(alloc, line as u64, &mut text)?;
    put(b"\n", &mut text)?;
    Ok(text)
}

/// Replays a script.
fn play(alloc: Global, echo: Option<&Table>, text: &[u8]) -> Result<Replayed, MakeFault>
    ensures made { IfOk result (λ r. Makes (shown_by (λ t. t.now) echo.entry) Command.Replay text.now r.out r.log) }
    ensures fault { IfErr result (IsWhy (shown_by (λ t. t.now) echo.entry) Command.Replay text.now) }
{
    match replay(alloc, text, echo) {
        Ok(replayed) => Ok(replayed),
        Err(ReplayFault::Line(line)) => Err(MakeFault::Refused(line_refusal(alloc, line)?)),
        Err(ReplayFault::Memory) => Err(MakeFault::Memory),
    }
}

/// What the command makes of these octets, where the interface of an echo is served in a replay.
///
/// # Errors
///
/// `Refused` with the text that says why the file is none that the command takes, and `Memory`
/// where memory runs out.
pub fn make(
    alloc: Global,
    command: Command,
    echo: Option<&Table>,
    octets: &[u8],
) -> Result<Replayed, MakeFault>
    ensures made { IfOk result (λ r. Makes (shown_by (λ t. t.now) echo.entry) command octets.now r.out r.log) }
    ensures fault { IfErr result (IsWhy (shown_by (λ t. t.now) echo.entry) command octets.now) }
{
    match command {
        Command::Replay => play(alloc, echo, octets),
        Command::Idl => reprint(alloc, octets),
        Command::Audit => judge(alloc, octets),
    }
}
