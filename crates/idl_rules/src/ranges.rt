//! What a range may stand on.
ghost use Rattle.std.specs.Prelude.{◌≡◌, ◌&&◌};
ghost use Rattle.std.specs.List.{list_all};
ghost use Rattle.idl_rules.specs.Ranges as spec;

use crate::asked::{by_value, is_parameter, is_ref_layer, is_unknown};
use crate::numbers::int_holds;
use crate::same::value_of;
use idl_outline::{Core, DataType, Declared, Field};
use idl_tree::Num;

#[tactic(auto, unfolding(crate::specs::Ranges::num_holds))]
fn num_holds(unsigned: bool, size: u8, number: Num) -> bool
    ensures { result ≡ spec.num_holds unsigned size number }
{
    int_holds(unsigned, size, value_of(number))
}

fn both_hold(unsigned: bool, size: u8, low: Num, high: Num) -> bool
    ensures { result ≡ (spec.num_holds unsigned size low && spec.num_holds unsigned size high) }
{
    num_holds(unsigned, size, low) && num_holds(unsigned, size, high)
}

#[tactic(auto, unfolding(crate::specs::Ranges::holds_both))]
fn holds_both(low: Num, high: Num, core: Core) -> bool
    ensures { result ≡ spec.holds_both low high core }
{
    match core {
        Core::Int { unsigned, size } => size <= 4 && both_hold(unsigned, size, low, high),
        _ => false,
    }
}

fn is_value_or_ref(ty: &DataType) -> bool
    ensures { result ≡ spec.is_value_or_ref ty.now }
{
    by_value(ty) || is_ref_layer(ty.outer()) && !ty.is_deeper()
}

fn is_ranged(low: Num, high: Num, declared: &Declared) -> bool
    ensures { result ≡ spec.is_ranged low high declared.now }
{
    let ty = &declared.ty;
    is_unknown(ty.core) || is_value_or_ref(ty) && holds_both(low, high, ty.core)
}

fn all_ranged(low: Num, high: Num, declared: &[Declared]) -> bool
    ensures { result ≡ list_all (spec.is_ranged low high) declared.now }
{
    declared.iter().all(|one| is_ranged(low, high, one))
}

fn in_order(low: Num, high: Num) -> bool
    ensures { result ≡ spec.in_order low high }
{
    value_of(low) <= value_of(high)
}

/// Whether a field is a parameter that is an integer of at most 32 bits that holds both numbers, or a
/// `ref` pointer to one, and the numbers are in order.
pub fn may_range(field: &Field, low: Num, high: Num) -> bool
    ensures { result ≡ spec.may_range field.now low high }
{
    is_parameter(field.place)
        && in_order(low, high)
        && all_ranged(low, high, field.declared.as_slice())
}
