//! Whether values are of the shapes in their places.

use ndr_codec::Way;
use ndr_table::{Param, Table};
use ndr_value::{Message, Shape, Value, well_typed};

/// Whether a parameter is of that way.
pub fn goes(way: Way, param: &Param) -> bool {
    match way {
        Way::Request => param.inward,
        Way::Response => param.outward,
    }
}

// The values behind the first, if that is of the shape.
fn behind_typed<'a>(
    table: &Table,
    shape: &Shape,
    message: &Message,
    values: &'a [Value],
) -> Option<&'a [Value]> {
    let (first, rest) = values.split_first()?;
    if well_typed(table.types(), shape, first, &message.heap) {
        Some(rest)
    } else {
        None
    }
}

// The values behind those that are of the shapes in their places.
fn behind_all<'a>(table: &Table, way: Way, message: &'a Message) -> Option<&'a [Value]> {
    let op = table.op(0)?;
    let mut values = message.values.as_slice();
    for param in &op.params {
        if goes(way, param) {
            values = behind_typed(table, &param.shape, message, values)?;
        }
    }
    match (way, &op.result) {
        (Way::Response, Some(shape)) => behind_typed(table, shape, message, values),
        _ => Some(values),
    }
}

/// Whether each value is of the shape in its place, and there are no more.
pub fn are_typed(table: &Table, way: Way, message: &Message) -> bool {
    match behind_all(table, way, message) {
        Some(rest) => rest.is_empty(),
        None => false,
    }
}
