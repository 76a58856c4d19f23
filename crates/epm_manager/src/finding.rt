//! The entries that a lookup or a mapping gives.
ghost use Rattle.std.specs.Prelude.{◌≡◌, IfOk, length, nat_lt, take};
ghost use Rattle.epm_manager.specs.Found as spec;

use crate::compare::copied;
use crate::entry::Numbered;
use crate::wanted::{Wanted, wants};
use rpc_base::NoMemory;
use std::alloc::Global;

/// The entries that are given, by rising number.
#[derive(Debug, Drop)]
pub struct Given {
    pub entries: Vec<Numbered>,
    /// Whether more are found than are given.
    pub more: bool,
}

fn is_found(wanted: &Wanted, after: u64, numbered: &Numbered) -> bool
    ensures { result ≡ spec.is_found wanted.now after numbered.now }
{
    after < numbered.number && wants(wanted, &numbered.entry)
}

/// At most so many of the entries with numbers above `after` that are wanted. It looks at each entry
/// once.
///
/// # Errors
///
/// `NoMemory` where there is no memory for copies of them.
pub fn find(
    alloc: Global,
    entries: &[Numbered],
    wanted: &Wanted,
    after: u64,
    most: u64,
) -> Result<Given, NoMemory>
    ensures entries { IfOk result (λ g. g.entries.items ≡ take most (spec.found wanted.now after entries.now)) }
    ensures more { IfOk result (λ g. g.more ≡ nat_lt most (length (spec.found wanted.now after entries.now))) }
{
    let mut given = Vec::new(alloc);
    let mut more = false;
    for numbered in entries {
        if is_found(wanted, after, numbered) {
            if (given.len() as u64) < most {
                given.push(copied(alloc, numbered)?)?;
            } else {
                more = true;
            }
        }
    }
    Ok(Given {
        entries: given,
        more,
    })
}

/// The number of the last entry; where there is none, the number before them.
pub fn last_number(before: u64, entries: &[Numbered]) -> u64
    ensures { result ≡ spec.last_number before entries.now }
{
    let mut last = before;
    for numbered in entries {
        last = numbered.number;
    }
    last
}
