//! A line.
ghost use Rattle.std.specs.Prelude.{IfOk};
ghost use Rattle.replay_script.specs.declared.line.Line.TheVariants as lines;
ghost use Rattle.replay.specs.Lines.{HasWorld, Comes};

use crate::finish::finish;
use crate::lose::lose;
use crate::run::run;
use crate::send::send;
use replay_events::Player;
use replay_script::Line;
use rpc_base::NoMemory;

/// Opens a connection, if none of that name was opened.
fn open(player: &mut Player, name: u32) -> Result<bool, NoMemory>
    requires { HasWorld player.old }
    ensures { IfOk result (λ taken. Comes player.old (lines.Open name) taken player.new) }
{
    let opened = player.open(name)?;
    Ok(opened)
}

/// Plays a line of a script behind the first one, where it may come now.
///
/// # Errors
///
/// `NoMemory` where there is no memory for what it asks.
pub fn play_line(player: &mut Player, line: Line) -> Result<bool, NoMemory>
    requires { HasWorld player.old }
    ensures { IfOk result (λ taken. Comes player.old line taken player.new) }
{
    match line {
        Line::Boot(_) => Ok(false),
        Line::Open(name) => open(player, name),
        Line::Send(name, octets) => send(player, name, octets.as_slice()),
        Line::Run(name) => run(player, name),
        Line::Finish(name) => finish(player, name),
        Line::Lose(name) => lose(player, name),
    }
}
