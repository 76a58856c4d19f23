//! The seventh rule: types that hold themselves.
ghost use Rattle.std.specs.Prelude.{◌≡◌, List};
ghost use Rattle.idl_outline.specs.declared.event.Event.{Event};
ghost use Rattle.idl_rules.specs.Least.{least};
ghost use Rattle.idl_rules.specs.Recursion as spec;

use crate::least::place_if;
use idl_outline::Event;

/// The tag of a structure that holds itself without a pointer between.
pub fn recursion(event: &Event) -> Option<usize>
    ensures { (past : List Event) → result ≡ least (spec.recursion past event.now) }
{
    match event {
        Event::StructBegins {
            tag,
            holds_itself,
            ..
        } => place_if(*holds_itself, tag.at),
        _ => None,
    }
}
