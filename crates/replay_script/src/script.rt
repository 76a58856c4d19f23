//! The lines of a script that a step is.
ghost use Rattle.std.specs.Prelude.{◌≡◌, ◌∷◌, [], IfOk};
ghost use Rattle.replay_script.specs.declared.deed.Deed.TheVariants.{Open};
ghost use Rattle.replay_script.specs.LoadScripts as spec;

use crate::pdus::{bind, co_cancel, probe_close, probe_open};
use crate::{Deed, Line};
use rpc_base::NoMemory;
use std::alloc::Global;

/// The line of a script in front of the first step's.
pub fn first_line() -> Line
    ensures { result ≡ spec.first_line }
{
    Line::Boot(1)
}

fn one(alloc: Global, line: Line) -> Result<Vec<Line>, NoMemory>
    ensures { IfOk result (λ lines. lines.items ≡ line ∷ []) }
{
    let mut lines = Vec::new(alloc);
    lines.push(line)?;
    Ok(lines)
}

fn opening(alloc: Global, name: u32, group: u32) -> Result<Vec<Line>, NoMemory>
    ensures { IfOk result (λ lines. lines.items ≡ spec.lines_of (Open name group)) }
{
    let mut lines = one(alloc, Line::Open(name))?;
    lines.push(Line::Send(name, bind(alloc, group)?))?;
    Ok(lines)
}

/// The lines of what happens in a step.
///
/// # Errors
///
/// `NoMemory` where there is no memory for the octets of a PDU.
pub fn lines(alloc: Global, deed: Deed) -> Result<Vec<Line>, NoMemory>
    ensures { IfOk result (λ lines. lines.items ≡ spec.lines_of deed) }
{
    match deed {
        Deed::Open { name, group } => opening(alloc, name, group),
        Deed::Lose { name } => one(alloc, Line::Lose(name)),
        Deed::Run { name } => one(alloc, Line::Run(name)),
        Deed::Finish { name } => one(alloc, Line::Finish(name)),
        Deed::Cancel { name, call } => one(alloc, Line::Send(name, co_cancel(alloc, call)?)),
        Deed::Issue { name, call, number } => {
            one(alloc, Line::Send(name, probe_open(alloc, call, number)?))
        }
        Deed::Close { name, call, handle } => {
            one(alloc, Line::Send(name, probe_close(alloc, call, handle)?))
        }
    }
}
