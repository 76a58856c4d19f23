//! Laws of the texts of journals: what an audit says of a text is one.
ghost use Rattle.journal_audit.specs.Laws.{OneReading, NeitherBoth, OneDeparture, OneVerdict, GoodIsLegal};

/// A text is journals in one way.
pub fn one_reading()
    ensures { OneReading }
{}

/// A text that departs from journals at a line isn't journals.
pub fn neither_both()
    ensures { NeitherBoth }
{}

/// It departs from them at one line.
pub fn one_departure()
    ensures { OneDeparture }
{}

/// Of a journal one verdict is told: that it is legal, with the number of its entries, or the first place at which it is
/// not.
pub fn one_verdict()
    ensures { OneVerdict }
{}

/// Of a journal that is legal and settled nothing else is told.
pub fn good_is_legal()
    ensures { GoodIsLegal }
{}
