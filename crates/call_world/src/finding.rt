//! Connections among others.
ghost use Rattle.std.specs.Prelude.{◌≡◌, position};
ghost use Rattle.call_world.specs.Rows.{FindsLeast, is_named, stands_as, awaits, is_awaiting, is_lesser};

use crate::line::Line;
use world_ends::Waiting;

fn is_named(line: &Line, name: u32) -> bool
    ensures { result ≡ is_named name line.now }
{
    line.name == name
}

/// The place of the first connection of that name.
pub fn named(lines: &[Line], name: u32) -> Option<usize>
    ensures { result ≡ position (is_named name) lines.now }
{
    lines.iter().position(|line| is_named(line, name))
}

fn stands_as(line: &Line, name: u32) -> bool
    ensures { result ≡ stands_as name line.now }
{
    line.name == name && line.standing
}

/// The place of the first connection of that name that stands.
pub fn standing(lines: &[Line], name: u32) -> Option<usize>
    ensures { result ≡ position (stands_as name) lines.now }
{
    lines.iter().position(|line| stands_as(line, name))
}

fn awaits(waiting: Waiting, call: u32) -> bool
    ensures { result ≡ awaits call waiting }
{
    match waiting {
        Waiting::Call(k) => k == call,
        Waiting::Nothing | Waiting::Bind(_) | Waiting::Refused(_) => false,
    }
}

fn is_awaiting(line: &Line, call: u32) -> bool
    ensures { result ≡ is_awaiting call line.now }
{
    line.standing && awaits(line.serving.waiting, call)
}

/// The place of the first connection that stands, and on which that call waits for its answer.
pub fn awaiting(lines: &[Line], call: u32) -> Option<usize>
    ensures { result ≡ position (is_awaiting call) lines.now }
{
    lines.iter().position(|line| is_awaiting(line, call))
}

/// Whether the connection stands, and has a lesser name.
fn is_lesser(line: &Line, least: Option<(u32, usize)>) -> bool
    ensures { result ≡ is_lesser least line.now }
{
    if !line.standing {
        return false;
    }
    match least {
        None => true,
        Some((name, _)) => line.name < name,
    }
}

/// The place of the connection of the least name that stands.
pub fn least(lines: &[Line]) -> Option<usize>
    ensures { FindsLeast lines.now result }
{
    let mut least: Option<(u32, usize)> = None;
    for at in 0..lines.len() {
        if is_lesser(&lines[at], least) {
            least = Some((lines[at].name, at));
        }
    }
    match least {
        None => None,
        Some((_, at)) => Some(at),
    }
}
