//! Laws of texts and their trees.
ghost use Rattle.idl_forms.specs.Laws.{TokensHaveOneTree, TextHasOneTree, TokensOfTheSameKinds};

/// Tokens have one tree: two trees of theirs are the same in every item.
pub fn tokens_have_one_tree()
    ensures { TokensHaveOneTree }
{}

/// A text has one tree.
pub fn text_has_one_tree()
    ensures { TextHasOneTree }
{}

/// Trees of tokens of the same kinds, in whatever places, are the same but for their places.
pub fn tokens_of_the_same_kinds_have_alike_trees()
    ensures { TokensOfTheSameKinds }
{}
