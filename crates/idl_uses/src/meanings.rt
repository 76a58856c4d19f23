//! Where attributes have a meaning.
ghost use Rattle.std.specs.Prelude.{◌≡◌};
ghost use Rattle.idl_rules.specs.BadAttribute as rule;
ghost use Rattle.idl_uses.specs.Facts as facts;

use crate::facts::Together;
use idl_outline::{Bare, Field, Mark};
use idl_rules::{is_bare_union, is_operation, is_parameter, is_typedef, is_unknown, may_range};

fn is_bare(bare: Bare) -> bool
    ensures { result ≡ rule.is_bare bare }
{
    match bare {
        Bare::No => false,
        Bare::Tagless => true,
        Bare::Tagged(_) => true,
    }
}

fn is_switchable(field: &Field) -> bool
    ensures { result ≡ rule.is_switchable field.now }
{
    is_unknown(field.spec.core) || is_bare_union(field.spec.core)
}

/// Whether the attribute has a meaning on each declarator of its field.
pub(crate) fn has_meaning(field: &Field, together: Together, mark: &Mark) -> bool
    requires { together ≡ facts.holding field.now }
    ensures { result ≡ rule.has_meaning field.now mark.now }
{
    match mark {
        Mark::In => is_parameter(field.place),
        Mark::Out => is_parameter(field.place),
        Mark::Pointer(_) => together.pointed,
        Mark::Text => together.text,
        Mark::Idempotent => is_operation(field.place),
        Mark::Maybe => is_operation(field.place),
        Mark::Handle => is_typedef(field.place),
        Mark::SizeIs(_) => together.sizeable,
        Mark::MaxIs(_) => together.sizeable,
        Mark::LengthIs(_) => together.countable,
        Mark::SwitchIs(_) => is_switchable(field),
        Mark::SwitchType { .. } => is_bare(field.bare),
        Mark::Range(low, high) => may_range(field, *low, *high),
    }
}
