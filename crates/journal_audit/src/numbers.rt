//! Sets of numbers.
ghost use Rattle.std.specs.Prelude.{◌≡◌, ℕ, ◌||◌, false, OnOk};
ghost use Rattle.handle_model.specs.Bases.{is_number};
ghost use Rattle.journal_audit.specs.Numbered.{has};

use rpc_base::NoMemory;
use std::alloc::Global;
use std::collections::BTreeSet;

/// A set of numbers.
pub(crate) type Numbers = BTreeSet<u32>;

/// An empty set.
pub(crate) fn no_numbers(alloc: Global) -> Numbers
    ensures { (n : ℕ) → has result n ≡ false }
{
    BTreeSet::new(alloc)
}

/// Whether the number is in the set.
pub(crate) fn has(numbers: &Numbers, number: u32) -> bool
    ensures { result ≡ has numbers.now number }
{
    numbers.contains(&number)
}

/// Adds a number.
#[tactic(auto, using(crate::proofs::Sets::adding))]
pub(crate) fn add(numbers: &mut Numbers, number: u32) -> Result<(), NoMemory>
    ensures { OnOk result ((n : ℕ) → has numbers.new n ≡ (is_number n number || has numbers.old n)) }
{
    match numbers.insert(number) {
        Ok(_) => Ok(()),
        Err(_) => Err(NoMemory),
    }
}
