//! Values as cases: which text of a value a shape has, and which values are of a shape. A shape is written as the parameters of
//! an operation, of which the last has it.
#![tactic(auto)]

mod rows;
mod shapes;
mod texts;

pub use rows::values;
