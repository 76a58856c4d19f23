//! The sixth rule: an operation has at most four handle parameters.
ghost use Rattle.std.specs.Prelude.{◌≡◌, List, slice_get};
ghost use Rattle.std.specs.List.{filter};
ghost use Rattle.idl_outline.specs.declared.event.Event.{Event};
ghost use Rattle.idl_rules.specs.Least.{least};
ghost use Rattle.idl_rules.specs.TooManyHandles as spec;

use idl_outline::{Declared, Event, Field};
use idl_rules::is_context_handle;

fn is_handle(declared: &Declared) -> bool
    ensures { result ≡ spec.is_handle declared.now }
{
    is_context_handle(declared.ty.core)
}

/// The place of the item behind so many others, or how many are still to come before it.
fn behind(declared: &[Declared], count: usize) -> Result<usize, usize>
    ensures { spec.Behind declared.now count result }
{
    match declared.get(count) {
        Some(one) => Ok(one.name.at),
        None => Err(count - declared.len()),
    }
}

/// The place of the handle behind so many others, or how many are still to come before it.
fn handle_behind(declared: &[Declared], count: usize) -> Result<usize, usize>
    ensures { spec.Behind (filter spec.is_handle declared.now) count result }
{
    let mut left = count;
    for one in declared {
        if is_handle(one) {
            if left == 0 {
                return Ok(one.name.at);
            }
            left -= 1;
        }
    }
    Err(left)
}

/// The place of what a list of fields declares behind so many others.
pub(crate) fn place_behind(fields: &[Field], count: usize) -> Option<usize>
    ensures { result ≡ least (spec.place_if (slice_get (spec.declared_of fields.now) count)) }
{
    let mut left = count;
    for field in fields {
        match behind(field.declared.as_slice(), left) {
            Ok(at) => return Some(at),
            Err(more) => left = more,
        }
    }
    None
}

fn place_of_handle(fields: &[Field], count: usize) -> Option<usize>
    ensures { result ≡ least (spec.place_if (slice_get (spec.handles fields.now) count)) }
{
    let mut left = count;
    for field in fields {
        match handle_behind(field.declared.as_slice(), left) {
            Ok(at) => return Some(at),
            Err(more) => left = more,
        }
    }
    None
}

/// The place of an operation's fifth handle parameter.
pub fn too_many_handles(event: &Event) -> Option<usize>
    ensures { (past : List Event) → result ≡ least (spec.too_many_handles past event.now) }
{
    match event {
        Event::Call { parameters, .. } => place_of_handle(parameters.as_slice(), 4),
        _ => None,
    }
}
