//! Whether a tree breaks a rule.
ghost use Rattle.std.specs.Prelude.{◌≡◌, IfOk, IfErr, OnOk};
ghost use Rattle.idl_forms.specs.Forms.{Same, tree_form};
ghost use Rattle.idl_outline.specs.Outline as outlines;
ghost use Rattle.idl_rules.specs.Broken.{NoneBroken};
ghost use Rattle.idl_check.specs.Firsts as spec;

use crate::checked::Checked;
use crate::fault::CheckFault;
use crate::firsts::{Breach, first};
use crate::judge::judged_tree;
use idl_outline::Outline;
use idl_tree::Ast;
use idl_walk::outline;
use rpc_base::NoMemory;
use std::alloc::Global;

// The first breach, and the outline.
fn first_breach(alloc: Global, tree: &Ast) -> Result<(Option<Breach>, Outline), NoMemory>
    ensures breach { IfOk result (λ p. spec.IsFirst (spec.first_place (tree_form tree.now)) p.0) }
    ensures outlined { IfOk result (λ p. p.1 ≡ outlines.outline (tree_form tree.now)) }
{
    let past = outline(alloc, tree)?;
    let (firsts, past) = judged_tree(alloc, tree, past)?;
    Ok((first(firsts), past))
}

/// Checks an interface tree: `Ok` exactly where no rule is broken, with a tree that is the same in
/// every item; else the breach with the least place, and at that place the one with the least number
/// (C706, chapter "Interface Definition Language"; the rules are those of the profile).
///
/// # Errors
///
/// `CheckFault::Rule` only where a rule is broken, and `CheckFault::Memory` where memory ran out, or a
/// type has more than 1,024 pointers and arrays, or more than 64 where it is used by its name.
#[tactic(auto, using(crate::proofs::First::found))]
pub fn check(alloc: Global, tree: &Ast) -> Result<Checked, CheckFault>
    ensures kept { IfOk result (λ c. Same c tree.now) }
    ensures sound { OnOk result (NoneBroken tree.now) }
    ensures breach { IfErr result (spec.IsCause tree.now) }
{
    match first_breach(alloc, tree)? {
        (Some(breach), _) => Err(CheckFault::Rule {
            number: breach.number,
            at: breach.at,
        }),
        (None, past) => Ok(Checked::copy_of(alloc, tree, past)?),
    }
}
