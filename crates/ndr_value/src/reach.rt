//! What stands behind names and Refs.
ghost use Rattle.std.specs.Prelude.{◌≡◌, ◌<◌, ℕ, map, length, MatchOption, None, Some};
ghost use Rattle.ndr_value.specs.Forms.{Form, form};
ghost use Rattle.ndr_value.specs.Judged.{behind_refs, named, plain};

use crate::shape::Shape;

// What stands behind Refs.
fn refs_off(shape: &Shape) -> &Shape
    ensures { form result.now ≡ behind_refs (form shape.now) }
{
    match shape {
        Shape::Ref(inner) => refs_off(inner),
        _ => shape,
    }
}

// What a name stands for.
fn named_shape<'a>(types: &'a [Shape], shape: &Shape) -> Option<&'a Shape>
    ensures { MatchOption result (named (map form types.now) (form shape.now) ≡ None) (λ s. named (map form types.now) (form shape.now) ≡ Some (form s.now)) }
{
    match shape {
        Shape::Named(number, _) => types.get(*number),
        _ => None,
    }
}

/// The shape behind Refs and at most that many names of the list of types. As many names as there
/// are types lead to a shape that is no name, unless the names go in a circle.
pub fn plain_shape<'a>(types: &'a [Shape], shape: &'a Shape, names: usize) -> &'a Shape
    ensures { form result.now ≡ plain (map form types.now) names (form shape.now) }
{
    let shape = refs_off(shape);
    if names == 0 {
        return shape;
    }
    match named_shape(types, shape) {
        None => shape,
        Some(other) => plain_shape(types, other, names - 1),
    }
}
