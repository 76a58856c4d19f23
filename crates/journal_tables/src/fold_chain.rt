//! What a fold of a journal is, however often it was folded, each law the contract of a function that does nothing.
ghost use Rattle.journal_tables.specs.FoldOf.{FoldsAgain, FoldsBack, FoldsOn, FoldsOnce, FoldsStand, FoldsTwice};

/// A journal that has not ended may be folded at any entry.
pub fn folds_once()
    ensures { FoldsOnce }
{}

/// With the same entries behind both, a fold stays one of the journal.
pub fn folds_on()
    ensures { FoldsOn }
{}

/// A fold of a fold is one of the journal.
pub fn folds_twice()
    ensures { FoldsTwice }
{}

/// So is a fold that is folded further and then goes on, as a group's journal does whenever a connection joins.
pub fn folds_again()
    ensures { FoldsAgain }
{}

/// A fold of a legal journal is legal and as long, with as many connections and calls; in both the same connections are
/// open, the same calls wait and run, and the same handles are live; a Shut is due in both or in neither.
pub fn folds_stand()
    ensures { FoldsStand }
{}

/// Entries that are legal behind a fold are legal behind the journal.
pub fn folds_back()
    ensures { FoldsBack }
{}
