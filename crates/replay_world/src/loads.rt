//! What holds of every load.
ghost use Rattle.std.specs.Prelude.{Option};
ghost use Rattle.ndr_table.specs.Tables.{TableForm};
ghost use Rattle.replay_world.specs.Loads.{OneLoad, LoadsAreReplays};

use crate::Serves;

/// A load of a number in so many steps comes to one end, and to one line, where the desks' answers follow from what they keep
/// and what they are asked.
pub fn one_load<D: Serves>()
    ensures { (echo : Option TableForm) → OneLoad (D.service echo) }
{}

/// A load is a replay: the lines of its rounds, behind a line with the boot word 1, are played to its end.
pub fn loads_are_replays<D: Serves>()
    ensures { (echo : Option TableForm) → LoadsAreReplays (D.service echo) }
{}
