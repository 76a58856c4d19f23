//! Laws of what the groups keep, each the contract of a function that does nothing.
ghost use Rattle.replay_groups.specs.Laws.{HasWhere};

/// The group of an id was opened where there are so many journals.
pub fn has_where()
    ensures { HasWhere }
{}
