//! What parameters ask of attributes.
ghost use Rattle.std.specs.Prelude.{◌≡◌};
ghost use Rattle.idl_rules.specs.BadAttribute as rule;
ghost use Rattle.idl_uses.specs.Facts as facts;

use crate::facts::{Said, Together, has_star};
use idl_outline::{Declared, Field, Mark};
use idl_rules::{is_handle_t, is_pointer_layer, is_ref, is_ref_layer, is_unknown};

fn is_out_alone(field: &Field, said: Said) -> bool
    requires { said ≡ facts.said_by field.now }
    ensures { result ≡ rule.is_out_alone field.now }
{
    said.outward && !said.inward
}

/// Whether the attribute is at fault on a parameter.
pub(crate) fn bad_on_parameter(field: &Field, said: Said, together: Together, mark: &Mark) -> bool
    requires said { said ≡ facts.said_by field.now }
    requires together { together ≡ facts.holding field.now }
    ensures { result ≡ rule.bad_on_parameter field.now mark.now }
{
    match mark {
        Mark::Out => together.out_value,
        Mark::Pointer(class) => {
            !is_ref(*class) && is_out_alone(field, said) && together.own_pointer
        }
        _ => false,
    }
}

fn lacks_direction(field: &Field, said: Said, declared: &Declared) -> bool
    requires { said ≡ facts.said_by field.now }
    ensures { result ≡ rule.lacks_direction field.now declared.now }
{
    let core = declared.ty.core;
    !(said.inward || said.outward) && !(is_handle_t(core) || is_unknown(core))
}

fn is_brought_pointer(declared: &Declared) -> bool
    ensures { result ≡ rule.is_brought_pointer declared.now }
{
    let outer = declared.ty.outer();
    !has_star(declared) && is_pointer_layer(outer) && !is_ref_layer(outer)
}

/// Whether a parameter has no direction, or comes back alone through a pointer of a typedef that isn't
/// `ref`.
pub(crate) fn is_bad_parameter(field: &Field, said: Said, declared: &Declared) -> bool
    requires { said ≡ facts.said_by field.now }
    ensures { result ≡ rule.is_bad_parameter field.now declared.now }
{
    lacks_direction(field, said, declared)
        || is_out_alone(field, said) && is_brought_pointer(declared)
}
