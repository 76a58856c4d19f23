//! What folding keeps, each law the contract of a function that does nothing.
ghost use Rattle.journal_tables.specs.Folding.{KeepsLegal, GivesSound, Folds, AdvancesTo, AdvancesTwice};

/// Further entries are legal after a base that says what a journal says, and then both say the same.
pub fn keeps_legal()
    ensures { KeepsLegal }
{}

/// The base that a legal journal gives is sound, where its group goes on.
pub fn gives_sound()
    ensures { GivesSound }
{}

/// A journal that has begun and not ended may be folded at any entry: it stays legal and settled, and
/// says the same of all that is still open.
pub fn folds()
    ensures { Folds }
{}

/// Advancing a base by the entries of a legal journal gives the base that its selections give.
pub fn advances_to()
    ensures { AdvancesTo }
{}

/// Advancing by two runs of entries is advancing by both.
pub fn advances_twice()
    ensures { AdvancesTwice }
{}
