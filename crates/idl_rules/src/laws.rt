//! Laws of trees that are the same in every item.
ghost use Rattle.idl_rules.specs.Laws.{SameTreesHaveOneOutline, SameTreesBreakTheSameRules};

/// Trees that are the same have one outline.
pub fn same_trees_have_one_outline()
    ensures { SameTreesHaveOneOutline }
{}

/// Trees that are the same break the same rules at the same places.
pub fn same_trees_break_the_same_rules()
    ensures { SameTreesBreakTheSameRules }
{}
