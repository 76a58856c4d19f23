//! Tokens of the interface definition language, and the lexer (C706, "Interface Definition Language").
#![tactic(auto)]

pub mod class;
mod firsts;
mod gaps;
mod grammars;
mod kinds;
mod laws;
mod lexer;
mod marks;
mod numbers;
mod runs;
mod words;

pub use grammars::{
    goes_along_what_matches, matches_in_one_way, matches_what_it_goes_along, stops_at_departures,
};
pub use kinds::{Kind, RANGE_WORD, Token};
pub use laws::{places_rise, text_has_one_list_of_tokens, tokens_end_once};
pub use lexer::tokens;
pub use marks::{Bracket, Mark};
pub use words::Word;
