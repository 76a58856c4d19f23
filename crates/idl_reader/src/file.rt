//! The reader of the tokens of a whole text.
ghost use Rattle.std.specs.Prelude.{◌≡◌, IfOk};
ghost use Rattle.idl_tokens.specs.Machine.{parse};
ghost use Rattle.idl_tokens.specs.Terminals.{terminals};
ghost use Rattle.idl_tree.specs.Grammar.{rule, file as file_part};
ghost use Rattle.idl_tree.specs.Pieces.{Written};
ghost use Rattle.idl_tree.specs.Files.{ast_pieces};
ghost use Rattle.idl_parts.specs.Reads.{Gives};

use crate::attributes::file_attrs;
use crate::declarations::decls;
use idl_parts::{Stop, end, name, word};
use idl_tokens::{Token, Word};
use idl_tree::Ast;
use std::alloc::Global;

/// Reads the tokens of a whole text.
///
/// # Errors
///
/// `Stop::At` where the tokens depart; `Stop::Memory` where memory runs out.
#[tactic(auto, using(crate::proofs::Loops::whole), unfolding(crate::specs::Along::file_at, idl_tree::specs::Files::ast_pieces))]
pub fn file(alloc: Global, tokens: &[Token]) -> Result<(Ast, &[Token]), Stop<'_>>
    ensures along { Gives (λ p. p.1.now) result (parse rule file_part (terminals tokens.now)) }
    ensures written { IfOk result (λ p. Written (ast_pieces p.0) tokens.now p.1.now) }
{
    let (attributes, rest) = file_attrs(alloc, tokens)?;
    let rest = word(rest, Word::Interface)?;
    let (name, rest) = name(alloc, rest)?;
    let (decls, rest) = decls(alloc, rest)?;
    let rest = end(rest)?;
    Ok((
        Ast {
            attributes,
            name,
            decls,
        },
        rest,
    ))
}
