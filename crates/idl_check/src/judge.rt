//! What the rules say of events.
ghost use Rattle.std.specs.Prelude.{◌≡◌, IfOk};
ghost use Rattle.idl_forms.specs.Forms.{tree_form};
ghost use Rattle.idl_outline.specs.Outline as outlines;
ghost use Rattle.idl_check.specs.Firsts as spec;

use crate::firsts::Firsts;
use crate::{outside_profile, too_many_handles, union_tag};
use idl_outline::{Event, Outline};
use idl_rules::{duplicate, recursion, unknown};
use idl_tree::Ast;
use idl_uses::{bad_attribute, bad_file, handle_use, size_name};
use rpc_base::NoMemory;
use std::alloc::Global;

fn judged(alloc: Global, past: &Outline, event: &Event) -> Result<Firsts, NoMemory>
    ensures { IfOk result (λ f. f ≡ spec.firsts_at past.now event.now) }
{
    let again = duplicate(alloc, past, event)?;
    let attributes = bad_attribute(alloc, event)?;
    let size = size_name(alloc, event)?;
    let tag = union_tag(alloc, event)?;
    Ok(Firsts {
        unknown: unknown(past, event),
        duplicate: again,
        bad_attribute: attributes,
        size_name: size,
        handle_use: handle_use(event),
        too_many_handles: too_many_handles(event),
        recursion: recursion(event),
        union_tag: tag,
        outside_profile: outside_profile(past, event),
    })
}

// The outline is put together again as its events are judged.
fn judged_events(alloc: Global, outline: Outline) -> Result<(Firsts, Outline), NoMemory>
    ensures firsts { IfOk result (λ p. p.0 ≡ spec.firsts_of outline) }
    ensures outline { IfOk result (λ p. p.1 ≡ outline) }
{
    let mut events = outline.into_events().into_vec();
    events.reverse();
    let mut past = Outline::new(alloc);
    let mut firsts = Firsts::none();
    while let Some(event) = events.pop() {
        firsts = judged(alloc, &past, &event)?.or(firsts);
        past.happen(event)?;
    }
    Ok((firsts, past))
}

fn judged_file(alloc: Global, tree: &Ast) -> Result<Firsts, NoMemory>
    ensures { IfOk result (λ f. f ≡ spec.firsts_of_file (tree_form tree.now)) }
{
    let attribute = bad_file(alloc, tree)?;
    Ok(Firsts {
        bad_attribute: attribute,
        ..Firsts::none()
    })
}

/// The first breach of each rule, and the outline again.
pub(crate) fn judged_tree(
    alloc: Global,
    tree: &Ast,
    outline: Outline,
) -> Result<(Firsts, Outline), NoMemory>
    requires { outline ≡ outlines.outline (tree_form tree.now) }
    ensures firsts { IfOk result (λ p. spec.Gives (spec.first_place (tree_form tree.now)) p.0) }
    ensures outline { IfOk result (λ p. p.1 ≡ outline) }
{
    let (events, past) = judged_events(alloc, outline)?;
    let file = judged_file(alloc, tree)?;
    Ok((file.or(events), past))
}
