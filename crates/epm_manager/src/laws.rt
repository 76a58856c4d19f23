//! A law of the definitions.
ghost use Rattle.epm_manager.specs.Laws.{StepsOwe};

/// Each operation of a map that is kept answers with a response to its request.
pub fn steps_owe()
    ensures { StepsOwe }
{}
