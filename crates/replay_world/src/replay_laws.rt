//! What holds of every replay.
ghost use Rattle.std.specs.Prelude.{Option};
ghost use Rattle.ndr_table.specs.Tables.{TableForm};
ghost use Rattle.replay_world.specs.Plays.{OnlyThese};
ghost use Rattle.replay_world.specs.Replays.{OneReplay};

/// The desks of a replay, of which a law speaks, with an echo of any interface or without. No value of it is made.
pub trait Serves {
    ghost use Rattle.std.specs.Prelude.{Option};
    ghost use Rattle.ndr_table.specs.Tables.{TableForm};
    ghost use Rattle.replay_world.specs.Services.{Service};

    ghost service: { Option TableForm → Service };
}

/// A text has one replay: what is printed and what is logged follow from its octets, where the desks' answers follow from
/// what they keep and what they are asked.
pub fn one_replay<D: Serves>()
    ensures { (echo : Option TableForm) → OneReplay (D.service echo) }
{}

/// Only these lines are played: `open` of a connection that wasn't opened, `send` and `lose` of one that was opened and not
/// lost, `run` and `finish` of one that was opened.
pub fn only_these<D: Serves>()
    ensures { (echo : Option TableForm) → OnlyThese (D.service echo) }
{}
