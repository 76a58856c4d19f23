//! No text of a value of a table's shapes is answered by lack of memory for its depth, where these nest few levels and no reference
//! leads to a type, or where they nest few levels with what references lead to, as laws.
#![tactic(auto)]

ghost use Rattle.depth_laws.specs.Laws.{ShapesAreRead, ParamsAreRead, ResultsAreRead};
ghost use Rattle.depth_laws.specs.Through.{NearShapesAreRead};

/// Of no shape of a table is a text answered by lack of memory for its depth, where types and shapes nest 22 levels at most, no
/// reference of the types leads to a type, and none of the shape's but the outermost.
pub fn shapes_are_read()
    ensures { ShapesAreRead }
{}

/// So it is of each parameter.
pub fn params_are_read()
    ensures { ParamsAreRead }
{}

/// So it is of each result.
pub fn results_are_read()
    ensures { ResultsAreRead }
{}

/// References may lead to types too, where they are counted: where structures, unions, arrays and references nest 23 levels at most
/// up to other pointers.
pub fn near_shapes_are_read()
    ensures { NearShapesAreRead }
{}
