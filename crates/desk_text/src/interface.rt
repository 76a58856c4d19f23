//! The table of an interface text.
ghost use Rattle.std.specs.Prelude.{IfErr, IfOk};
ghost use Rattle.ndr_table.specs.Shown.{shown};
ghost use Rattle.desk_text.specs.Interfaces.{IsInterface, IsWhy};

use idl_check::{CheckFault, check};
use idl_reader::{IdlFault, read_idl};
use marshal_table::build;
use ndr_table::Table;
use rpc_base::NoMemory;
use std::alloc::Global;
use thiserror::Error;

/// Why a text has no table.
#[derive(Clone, Copy, Debug, PartialEq, Eq, Error)]
pub enum TextFault {
    /// The text departs from the grammar, or there is no memory for its tree.
    #[error("not an interface text: {0}")]
    Grammar(IdlFault),
    /// The tree breaks a rule, or there is no memory to check it.
    #[error("not an interface of the profile: {0}")]
    Rule(CheckFault),
    /// There is no memory for the table, or a type, a parameter or a result nests by value more than 256 levels.
    #[error("out of memory")]
    Memory,
}

/// The marshalling table of an interface text (C706, chapters "Interface Definition Language" and "Transfer Syntax NDR").
///
/// # Errors
///
/// `Grammar` where the text departs from the grammar, `Rule` where it breaks a rule of the profile, `Memory` where the
/// table isn't made. Each of the three may also say that memory ran out.
pub fn table_of(alloc: Global, text: &[u8]) -> Result<Table, TextFault>
    ensures made { IfOk result (λ t. IsInterface text.now (shown t)) }
    ensures why { IfErr result (IsWhy text.now) }
{
    let tree = match read_idl(alloc, text) {
        Ok(tree) => tree,
        Err(fault) => return Err(TextFault::Grammar(fault)),
    };
    let checked = match check(alloc, &tree) {
        Ok(checked) => checked,
        Err(fault) => return Err(TextFault::Rule(fault)),
    };
    match build(alloc, &checked) {
        Ok(table) => Ok(table),
        Err(NoMemory) => Err(TextFault::Memory),
    }
}
