//! Interface texts as cases. Rows say of a text which tokens it has, how it is read, and which rule it breaks; stories say how
//! it is printed, and which marshalling table it has.
#![tactic(auto)]

mod rows;
mod spelling;
mod stories;
mod tables;
mod tokens;

pub use rows::texts;
pub use spelling::spelled;
pub use stories::interfaces;
