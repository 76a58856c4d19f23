//! The canonical text of a tree.
ghost use Rattle.std.specs.Prelude.{◌≡◌, ◌++◌, OnOk, OnErr};
ghost use Rattle.idl_print.specs.Canonical.{canonical_text};

use crate::Page;
use crate::declaration::ast;
use idl_tree::Ast;
use rpc_base::NoMemory;
use std::alloc::Global;

/// Adds the canonical text of a tree (C706, "Interface Definition Language"): its tokens with one
/// space between two, but none before `,` `;` `)` `]` `(` `:` `.`, none after `(` `[` `*` `.` and
/// none before the `[` of a declarator. Numbers are decimal, UUIDs in small letters. A line ends
/// after the interface's `]`, after `{`, after `;` and at the end; `}` begins one; each open brace
/// indents by two spaces.
///
/// The text of a tree that a text of the grammar has is of the grammar too, with the same tokens.
/// It goes down the tree by recursion, and such a tree has at most 64 levels. In place of a part
/// that no text has, as an integer of three octets, a line ends.
///
/// # Errors
///
/// `NoMemory` where there is no memory for the text; nothing is then added.
#[tactic(auto, unfolding(crate::specs::Prints::Prints))]
pub fn print_idl(alloc: Global, tree: &Ast, into: &mut Vec<u8>) -> Result<(), NoMemory>
    ensures ok { OnOk result (into.new.items ≡ into.old.items ++ canonical_text tree.now) }
    ensures err { OnErr result (into.new.items ≡ into.old.items) }
{
    let mut page = Page::new(alloc);
    ast(&mut page, tree)?;
    into.extend_from_slice(page.text.as_slice())?;
    Ok(())
}
