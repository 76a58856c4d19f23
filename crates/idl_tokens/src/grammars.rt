//! Grammars as values: what a grammar takes, where tokens depart from it, and the machine that
//! goes along a grammar token by token.
//!
//! A token is seen as a terminal, a class with a size, and a grammar is written as a standard writes
//! it, with one rule for each kind of brackets' content. Where one token decides everywhere (a test
//! that computes), the machine takes exactly what the grammar takes, in one way, and stops exactly
//! where the tokens depart. The machine is a device of proofs: readers are compared with it.
ghost use Rattle.idl_tokens.specs.EbnfLaws.{GoesAlongWhatMatches, MatchesWhatItGoesAlong, StopsAtDepartures, MatchesInOneWay};

/// What the machine goes along, the grammar takes.
pub fn goes_along_what_matches()
    ensures { GoesAlongWhatMatches }
{}

/// What the grammar takes, with nothing behind it that would carry it on, the machine goes along.
pub fn matches_what_it_goes_along()
    ensures { MatchesWhatItGoesAlong }
{}

/// Where the machine stops, the tokens depart from the grammar.
pub fn stops_at_departures()
    ensures { StopsAtDepartures }
{}

/// A front of the tokens is taken in one way.
pub fn matches_in_one_way()
    ensures { MatchesInOneWay }
{}
