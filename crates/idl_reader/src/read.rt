//! The reader of interface texts.
ghost use Rattle.std.specs.Prelude.{◌≡◌, ◌⊎◌, ◌<◌, IfOk, IfErr, true};
ghost use Rattle.idl_tokens.specs.Laws.{EndsOnce};
ghost use Rattle.idl_tokens.specs.Terminals.{terminal};
ghost use Rattle.idl_tree.specs.Idl.{IsTree, IsIdl};
ghost use Rattle.idl_tree.specs.declared.declaration.Ast.{Ast};
ghost use Rattle.idl_reader.specs.Causes.{Refuses, IsCause, IsCalled};

use crate::fault::IdlFault;
use crate::file::file;
use idl_parts::Stop;
use idl_tokens::{Kind, Token, tokens};
use idl_tree::Ast;
use std::alloc::Global;

/// The fault of a departure.
#[tactic(auto, using(crate::proofs::Causes::calling))]
fn fault(oversized: bool, token: &Token) -> IdlFault
    requires { oversized ≡ true → 0 < (terminal token.now.kind).size }
    ensures { IsCalled oversized token.now result }
{
    if oversized {
        match &token.kind {
            Kind::Number(_) => IdlFault::TooLarge(token.at),
            Kind::Open(_, _) => IdlFault::TooDeep(token.at),
            _ => unreachable!(),
        }
    } else {
        match &token.kind {
            Kind::Bad => IdlFault::BadToken(token.at),
            _ => IdlFault::Expected(token.at),
        }
    }
}

/// Reads the tree of a text's tokens.
#[tactic(auto, using(crate::proofs::Causes::reading))]
fn read_tokens(alloc: Global, tokens: &[Token]) -> Result<Ast, IdlFault>
    requires { EndsOnce tokens.now }
    ensures tree { IfOk result (IsTree tokens.now) }
    ensures refused { IfErr result (Refuses tokens.now) }
    ensures no_tree { IfErr result (λ e. (e ≡ IdlFault.Memory) ⊎ ((tree : Ast) → IsTree tokens.now tree → ⊥)) }
{
    match file(alloc, tokens) {
        Ok((tree, _)) => Ok(tree),
        Err(Stop::Memory) => Err(IdlFault::Memory),
        Err(Stop::At(oversized, rest)) => {
            let token = &tokens[tokens.len() - rest.len()];
            Err(fault(oversized, token))
        }
    }
}

/// Reads an interface text: exactly the texts of the grammar, each as its tree. Any other text is
/// refused with the fault at its first departure, the end of its longest prefix, counted in
/// tokens, that begins some text of the grammar (C706, chapter "Interface Definition Language").
/// Brackets nest to level 64, and so does the recursion.
///
/// # Errors
///
/// The fault at the first departure, counted in octets from 0, by what stands there: `BadToken` where octets begin no
/// token, `Expected` where the token may not stand there, `TooLarge` where the number passes its type, `TooDeep`
/// where the bracket opens level 65. `Memory` where memory runs out.
#[tactic(auto, using(crate::proofs::Causes::texts))]
pub fn read_idl(alloc: Global, text: &[u8]) -> Result<Ast, IdlFault>
    ensures tree { IfOk result (IsIdl text.now) }
    ensures refused { IfErr result (IsCause text.now) }
    ensures no_tree { IfErr result (λ e. (e ≡ IdlFault.Memory) ⊎ ((tree : Ast) → IsIdl text.now tree → ⊥)) }
{
    let tokens = tokens(alloc, text)?;
    read_tokens(alloc, &tokens)
}
