//! Whether the numbers of a base rise and are within its counts.
ghost use Rattle.std.specs.Prelude.{◌≡◌};
ghost use Rattle.handle_model.specs.Bases.{serials_of};
ghost use Rattle.handle_model.specs.Sound as spec;
ghost use Rattle.journal_audit.specs.Sounds.{is_head};

use handle_model::{Base, DueItem};

/// Whether the numbers rise from above `low`.
#[tactic(auto, using(handle_model::proofs::Rest::resting))]
fn rise_above(low: u32, numbers: &[u32]) -> bool
    ensures { result ≡ spec.rise_above low numbers.now }
{
    let mut last = low;
    for number in numbers {
        if *number <= last {
            return false;
        }
        last = *number;
    }
    true
}

/// Whether the numbers rise.
fn rise(numbers: &[u32]) -> bool
    ensures { result ≡ spec.rise numbers.now }
{
    match numbers.split_first() {
        None => true,
        Some((first, later)) => rise_above(*first, later),
    }
}

/// Whether no number is above `most`.
fn at_most(most: u32, numbers: &[u32]) -> bool
    ensures { result ≡ spec.at_most most numbers.now }
{
    numbers.iter().all(|number| *number <= most)
}

/// Whether the serials rise from 1 at least.
#[tactic(auto, using(handle_model::proofs::Rest::resting))]
fn serials_rise(items: &[DueItem]) -> bool
    ensures { result ≡ spec.rise_above 0 (serials_of items.now) }
{
    let mut last = 0;
    for item in items {
        if item.serial <= last {
            return false;
        }
        last = item.serial;
    }
    true
}

/// Whether no serial is above `most`.
#[tactic(auto, using(handle_model::proofs::Rest::resting))]
fn serials_within(most: u32, items: &[DueItem]) -> bool
    ensures { result ≡ spec.at_most most (serials_of items.now) }
{
    for item in items {
        if item.serial > most {
            return false;
        }
    }
    true
}

/// Whether the conns of a base rise and are at most its joins, and the serials of its handles rise,
/// from 1 at least, and are at most its opens.
pub fn is_head(base: &Base) -> bool
    ensures { result ≡ is_head base.now }
{
    rise(base.conns.as_slice())
        && at_most(base.joins, base.conns.as_slice())
        && serials_rise(base.handles.as_slice())
        && serials_within(base.opens, base.handles.as_slice())
}
