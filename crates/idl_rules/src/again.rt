//! What stands again.
ghost use Rattle.std.specs.Prelude.{◌≡◌, ◌||◌, ℤ, IfOk, OnOk, false};
ghost use Rattle.std.specs.Ordering.{int_eq};
ghost use Rattle.idl_rules.specs.declared.again.Key.{Key};
ghost use Rattle.idl_rules.specs.Key.{same_key};
ghost use Rattle.idl_rules.specs.Least.{least};
ghost use Rattle.idl_rules.specs.Places.{repeats};
ghost use Rattle.idl_rules.specs.Seen as spec;

use crate::least::{lesser, place_if};
use rpc_base::NoMemory;
use std::alloc::Global;
use std::collections::BTreeSet;

/// What those that are the same have in common.
#[derive(Clone, Copy, PartialEq, Eq)]
pub enum Key {
    /// Nothing: no other is the same.
    Own,
    /// That they are the word that has no number.
    Word,
    Number(i128),
}

/// What may stand twice, at a place of the text.
pub trait Again {
    ghost use Rattle.std.specs.Prelude.{◌≡◌, ℕ, Bool};
    ghost use Rattle.idl_rules.specs.declared.again.Key.{Key};
    ghost use Rattle.idl_rules.specs.Key.{same_key};

    ghost same: { Self → Self → Bool };

    ghost place_of: { Self → ℕ };

    ghost key_of: { Self → Key };

    /// What it has in common with those that are the same.
    fn key(&self) -> Key
        ensures { result ≡ key_of self.now };

    /// The octet where it stands.
    fn place(&self) -> usize
        ensures { result ≡ place_of self.now };

    ghost by_key: { (a b : Self) → same a b ≡ same_key (key_of a) (key_of b) };
}

/// The keys that were seen.
#[derive(Drop)]
pub(crate) struct Seen {
    numbers: BTreeSet<i128>,
    word: bool,
}

fn nothing_seen(alloc: Global) -> Seen
    ensures { (key : Key) → spec.has_key result key ≡ false }
{
    Seen {
        numbers: BTreeSet::new(alloc),
        word: false,
    }
}

/// Whether the number was seen before; it has been seen now.
#[tactic(auto, using(crate::proofs::Seen::inserted))]
fn was_number(numbers: &mut BTreeSet<i128>, number: i128) -> Result<bool, NoMemory>
    ensures before { IfOk result (λ was. was ≡ spec.has_number numbers.old number) }
    ensures now { OnOk result ((other : ℤ) → spec.has_number numbers.new other ≡ (int_eq number other || spec.has_number numbers.old other)) }
{
    let was = numbers.contains(&number);
    let Ok(_) = numbers.insert(number) else {
        return Err(NoMemory);
    };
    Ok(was)
}

/// Whether the key was seen before; it has been seen now.
fn was_key(seen: &mut Seen, key: Key) -> Result<bool, NoMemory>
    ensures before { IfOk result (λ was. was ≡ spec.has_key seen.old key) }
    ensures now { OnOk result ((other : Key) → spec.has_key seen.new other ≡ (same_key key other || spec.has_key seen.old other)) }
{
    match key {
        Key::Own => Ok(false),
        Key::Word => {
            let was = seen.word;
            seen.word = true;
            Ok(was)
        }
        Key::Number(number) => was_number(&mut seen.numbers, number),
    }
}

/// The least place of an item that is the same as one before it.
///
/// # Errors
///
/// `NoMemory` where there is no memory for what was seen.
pub fn repeated<T: Again>(alloc: Global, items: &[T]) -> Result<Option<usize>, NoMemory>
    ensures { IfOk result (λ at. at ≡ least (repeats T.same T.place_of items.now)) }
{
    let mut seen = nothing_seen(alloc);
    let mut found = None;
    for item in items {
        let again = was_key(&mut seen, item.key())?;
        found = lesser(found, place_if(again, item.place()));
    }
    Ok(found)
}
