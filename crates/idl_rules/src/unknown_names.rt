//! The first rule: names that aren't declared before.
ghost use Rattle.std.specs.Prelude.{◌≡◌};
ghost use Rattle.idl_rules.specs.Least.{least};
ghost use Rattle.idl_rules.specs.Unknown as spec;

use crate::least::place_if;
use idl_outline::{Event, Outline};

/// The place of a name that the event uses and no event before it declares.
pub fn unknown(past: &Outline, event: &Event) -> Option<usize>
    ensures { result ≡ least (spec.unknown past.now event.now) }
{
    match event {
        Event::TypeUsed(name) => place_if(past.type_named(name.text.as_slice()).is_none(), name.at),
        Event::ConstantUsed(name) => place_if(
            past.constant_named(name.text.as_slice()).is_none(),
            name.at,
        ),
        Event::TagUsed { tag, pointed } => place_if(
            past.tag_named(*pointed, tag.text.as_slice()).is_none(),
            tag.at,
        ),
        _ => None,
    }
}
