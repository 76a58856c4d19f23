//! Values that have no referents and no handles, so that what follows their flat part follows them.
ghost use Rattle.std.specs.Prelude.{◌≡◌};
ghost use Rattle.ndr_value.specs.Forms.{form};
ghost use Rattle.ndr_read.specs.Alone.{is_byte, alone};

use ndr_value::Shape;

fn is_octet(shape: &Shape) -> bool
    ensures { result ≡ is_byte (form shape.now) }
{
    match shape {
        Shape::Byte => true,
        _ => false,
    }
}

/// Whether its values are numbers, names, texts or arrays of octets.
pub(crate) fn stands_alone(shape: &Shape) -> bool
    ensures { result ≡ alone (form shape.now) }
{
    match shape {
        Shape::Bool => true,
        Shape::Byte => true,
        Shape::Char => true,
        Shape::Int(_) => true,
        Shape::Uint(_) => true,
        Shape::Enum(_) => true,
        Shape::Text(_) => true,
        Shape::Array(_, inner) => is_octet(inner),
        _ => false,
    }
}
