//! Interface texts.
ghost use Rattle.std.specs.Prelude.{◌≡◌, [], IfOk, IfErr, OnOk};
ghost use Rattle.idl_tree.specs.Idl.{IsIdl};
ghost use Rattle.idl_forms.specs.Forms.{Same};
ghost use Rattle.idl_rules.specs.Broken.{NoneBroken};
ghost use Rattle.idl_print.specs.Canonical.{canonical_text};
ghost use Rattle.ndr_table.specs.Shown.{shown};
ghost use Rattle.rpc_app.specs.Commands.{IsInterface, IsPrinted, RefusesInterface, Says, place_refusal, rule_refusal};
ghost use Rattle.rpc_app.specs.Making.{Says as Why};

use crate::make::MakeFault;
use base_words::{put, put_decimal};
use idl_check::{CheckFault, Checked, check};
use idl_print::print_idl;
use idl_reader::{IdlFault, read_idl};
use idl_tree::Ast;
use marshal_table::build;
use ndr_table::Table;
use replay::Replayed;
use rpc_base::{NoMemory, Octets};
use std::alloc::Global;

#[tactic(auto, unfolding(crate::specs::Commands::place_refusal))]
fn place_refusal(alloc: Global, number: u64, at: usize) -> Result<Vec<u8>, NoMemory>
    ensures { IfOk result (λ text. text.items ≡ place_refusal number at) }
{
    let mut text = Vec::new(alloc);
    put(b"refused: idl fault ", &mut text)?;
    put_decimal(alloc, number, &mut text)?;
    put(b" at ", &mut text)?;
    put_decimal(alloc, at as u64, &mut text)?;
    put(b"\n", &mut text)?;
    Ok(text)
}

/// How the fault of an interface text is said.
fn fault_line(alloc: Global, fault: IdlFault) -> Result<Vec<u8>, MakeFault>
    ensures said { IfOk result (λ text. Says fault text.items) }
    ensures err { IfErr result (λ e. e ≡ MakeFault.Memory) }
{
    let line = match fault {
        IdlFault::BadToken(at) => place_refusal(alloc, 1, at)?,
        IdlFault::Expected(at) => place_refusal(alloc, 2, at)?,
        IdlFault::TooLarge(at) => place_refusal(alloc, 3, at)?,
        IdlFault::TooDeep(at) => place_refusal(alloc, 4, at)?,
        IdlFault::Memory => return Err(MakeFault::Memory),
    };
    Ok(line)
}

/// How the breach of a rule is said.
#[tactic(auto, unfolding(crate::specs::Commands::rule_refusal))]
fn rule_refusal(alloc: Global, number: u8, at: usize) -> Result<Vec<u8>, NoMemory>
    ensures { IfOk result (λ text. text.items ≡ rule_refusal number at) }
{
    let mut text = Vec::new(alloc);
    put(b"refused: check fault ", &mut text)?;
    put_decimal(alloc, u64::from(number), &mut text)?;
    put(b" at ", &mut text)?;
    put_decimal(alloc, at as u64, &mut text)?;
    put(b"\n", &mut text)?;
    Ok(text)
}

/// The tree of a text.
fn read(alloc: Global, text: &[u8]) -> Result<Ast, MakeFault>
    ensures tree { IfOk result (IsIdl text.now) }
    ensures fault { IfErr result (Why (RefusesInterface text.now)) }
{
    match read_idl(alloc, text) {
        Ok(tree) => Ok(tree),
        Err(fault) => Err(MakeFault::Refused(fault_line(alloc, fault)?)),
    }
}

/// The tree of a text, where it breaks no rule.
fn checked(alloc: Global, text: &[u8], tree: &Ast) -> Result<Checked, MakeFault>
    requires { IsIdl text.now tree.now }
    ensures same { IfOk result (λ c. Same c tree.now) }
    ensures unbroken { OnOk result (NoneBroken tree.now) }
    ensures fault { IfErr result (Why (RefusesInterface text.now)) }
{
    match check(alloc, tree) {
        Ok(checked) => Ok(checked),
        Err(CheckFault::Rule { number, at }) => {
            Err(MakeFault::Refused(rule_refusal(alloc, number, at)?))
        }
        Err(CheckFault::Memory) => Err(MakeFault::Memory),
    }
}

/// The tree's canonical text.
fn printed(alloc: Global, tree: &Ast) -> Result<Replayed, NoMemory>
    ensures out { IfOk result (λ r. r.out ≡ canonical_text tree.now) }
    ensures log { IfOk result (λ r. r.log ≡ []) }
{
    let mut text = Vec::new(alloc);
    print_idl(alloc, tree, &mut text)?;
    Ok(Replayed {
        out: Octets::from_vec(text),
        log: Octets::new(alloc),
    })
}

/// Reads an interface text, checks its tree and prints it.
///
/// # Errors
///
/// `Refused` with the line that says where the text departs from the grammar or which rule it
/// breaks, and `Memory` where memory runs out.
pub fn reprint(alloc: Global, text: &[u8]) -> Result<Replayed, MakeFault>
    ensures out { IfOk result (λ r. IsPrinted text.now r.out) }
    ensures log { IfOk result (λ r. r.log ≡ []) }
    ensures fault { IfErr result (Why (RefusesInterface text.now)) }
{
    let tree = read(alloc, text)?;
    checked(alloc, text, &tree)?;
    let printed = printed(alloc, &tree)?;
    Ok(printed)
}

/// The table of the interface of a text.
///
/// # Errors
///
/// `Refused` with the line that says where the text departs from the grammar or which rule it
/// breaks, and `Memory` where memory runs out.
pub fn interface(alloc: Global, text: &[u8]) -> Result<Table, MakeFault>
    ensures made { IfOk result (λ t. IsInterface text.now (shown t)) }
    ensures fault { IfErr result (Why (RefusesInterface text.now)) }
{
    let tree = read(alloc, text)?;
    let checked = checked(alloc, text, &tree)?;
    let table = build(alloc, &checked)?;
    Ok(table)
}
