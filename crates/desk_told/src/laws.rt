//! Laws of histories, each the contract of a function that does nothing.
ghost use Rattle.desk_told.specs.Laws.{EachFollows};

use manager_api::Desk;

/// In a history each answer, and each run-down, is one that the desk gives in the state to which all its deeds before
/// have led: the answers are those of one sequence of its calls.
pub fn each_follows<D: Desk>()
    ensures { EachFollows D.may D.runs_down }
{}
