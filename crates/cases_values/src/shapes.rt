//! Shapes, by the parameters that have them.

use ndr_lines::table_of;
use ndr_value::{Arm, Cases, Shape, Shapes, copy_shape, copy_shapes};
use rpc_base::NoMemory;
use std::alloc::Global;

/// A shape, and the types that it names.
#[derive(Drop)]
pub struct Shaped {
    pub types: Shapes,
    pub shape: Shape,
}

/// The shape of the last of the parameters, as a copy; `h` is a type of context handles. Behind a `?` stands the name of a shape
/// that no interface has. None where the words are neither.
pub fn shape_of(alloc: Global, words: &str) -> Result<Option<Shaped>, NoMemory> {
    if let Some(name) = words.trim().strip_prefix('?') {
        return odd(alloc, name);
    }
    let text = format!(in alloc;
        "[uuid(5f0c7a12-3b4d-4e6f-8a90-b1c2d3e4f506)]interface x{{typedef[context_handle]void*h;void f({words});}}"
    )?;
    let Some(table) = table_of(alloc, text.as_bytes()) else {
        return Ok(None);
    };
    let Some(op) = table.op(0) else {
        return Ok(None);
    };
    let Some(param) = op.params.last() else {
        return Ok(None);
    };
    Ok(Some(Shaped {
        types: copy_shapes(alloc, table.types())?,
        shape: copy_shape(alloc, &param.shape)?,
    }))
}

/// Shapes that no interface has, over a name of a reference and two names in a circle.
fn odd(alloc: Global, name: &str) -> Result<Option<Shaped>, NoMemory> {
    let mut types = Shapes::new(alloc);
    types.push(Shape::Ref(Box::new(alloc, Shape::Uint(2))?))?;
    types.push(Shape::Named(2, None))?;
    types.push(Shape::Named(1, None))?;
    let shape = match name {
        "a name of a reference" => Shape::Named(0, None),
        "names in a circle" => Shape::Named(1, None),
        "no type" => Shape::Named(9, None),
        "a number of three octets" => Shape::Int(3),
        "a union by a byte" => union_by_byte(alloc)?,
        _ => return Ok(None),
    };
    Ok(Some(Shaped { types, shape }))
}

fn union_by_byte(alloc: Global) -> Result<Shape, NoMemory> {
    let mut arms = Vec::new(alloc);
    arms.push(Arm {
        cases: Cases::new(alloc),
        default: true,
        shape: Some(Shape::Bool),
    })?;
    Ok(Shape::Union {
        tag: Box::new(alloc, Shape::Byte)?,
        arms,
    })
}
