//! Laws of interface texts (C706, chapter "Interface Definition Language"): the grammar in which one
//! token decides takes what the grammar as written takes, a text of the grammar does not depart
//! from it, and any other departs at one token alone; and `read_idl` answers what `print_idl` gives
//! with the same tree, places aside, unless memory runs out.
#![tactic(auto)]

ghost use Rattle.idl_laws.specs.Laws.{MatchesAsWritten, DepartsOnce, TakenDoNotDepart};
ghost use Rattle.idl_laws.specs.Printed.{PrintedTreeIsTheSame, PrintedTextHasNoFault, PrintedAgainIsTheSame};

/// The grammar in which one token decides takes the same tokens as the grammar as it is written.
pub fn grammar_matches_as_written()
    ensures { MatchesAsWritten }
{}

/// A text has one first departure.
pub fn texts_depart_once()
    ensures { DepartsOnce }
{}

/// A text of the grammar has none.
pub fn texts_of_the_grammar_do_not_depart()
    ensures { TakenDoNotDepart }
{}

/// A tree of the canonical text is the tree that was printed, places aside.
pub fn printed_tree_is_the_same()
    ensures { PrintedTreeIsTheSame }
{}

/// The canonical text is refused for want of memory alone.
pub fn printed_text_has_no_fault()
    ensures { PrintedTextHasNoFault }
{}

/// Printed again, its tree gives the same text.
pub fn printed_again_is_the_same_text()
    ensures { PrintedAgainIsTheSame }
{}
