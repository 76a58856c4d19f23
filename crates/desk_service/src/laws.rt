//! Laws of the definitions, each the contract of a function that does nothing.
ghost use Rattle.desk_service.specs.Laws.{OneAnswer, TablesStay};

/// The answer to a call, and the services behind it, are one, unless memory ran out.
pub fn one_answer()
    ensures { OneAnswer }
{}

/// A call leaves the interfaces as they are.
pub fn tables_stay()
    ensures { TablesStay }
{}
