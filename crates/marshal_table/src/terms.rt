//! What attributes give: counts, which name a parameter or a member by its index, and ranges.
ghost use Rattle.std.specs.Prelude.{◌≡◌, ◌≤◌, length, IfOk};
ghost use Rattle.marshal_table.specs.Shapes as spec;

use crate::numbers::{signed_64, sum_32};
use crate::said::Terms;
use idl_outline::{Attribute, Mark, NameRef, Place, Size};
use idl_tree::Ident;
use ndr_table::Bounds;
use ndr_value::Count;
use rpc_base::NoMemory;

fn index_of(name: &[u8], names: &[Ident]) -> usize
    ensures index { result ≡ spec.index_of name.now names.now }
    ensures within { result ≤ length names.now }
{
    let mut index = 0;
    for other in names {
        if other.text.as_slice() == name {
            return index;
        }
        index += 1;
    }
    index
}

// The count that a name stands for, as a parameter or a member. A name that isn't among the others is
// refused too.
fn named_count(place: Place, names: &[Ident], plus: u8, by: &NameRef) -> Result<Count, NoMemory>
    ensures { IfOk result (λ c. c ≡ spec.named_count place names.now plus by.now.star by.now.name) }
{
    let found = index_of(by.name.text.as_slice(), names);
    if found > 255 || found == names.len() {
        return Err(NoMemory);
    }
    let index = found as u8;
    match place {
        Place::Parameter => Ok(Count::Param {
            index,
            through: by.star,
            plus,
        }),
        Place::Typedef | Place::Alone | Place::Operation | Place::Member | Place::Arm => {
            Ok(Count::Member { index, plus })
        }
    }
}

fn count(place: Place, names: &[Ident], plus: u8, size: &Size) -> Result<Count, NoMemory>
    ensures { IfOk result (λ c. c ≡ spec.count place names.now plus size.now) }
{
    match size {
        Size::Number(number) => Ok(Count::Number(sum_32(*number, plus)?)),
        Size::Of(by) => named_count(place, names, plus, by),
    }
}

fn most_of(mark: &Mark, place: Place, names: &[Ident]) -> Result<Option<Count>, NoMemory>
    ensures { IfOk result (λ c. c ≡ spec.most_in place names.now mark.now) }
{
    match mark {
        Mark::SizeIs(size) => Ok(Some(count(place, names, 0, size)?)),
        Mark::MaxIs(size) => Ok(Some(count(place, names, 1, size)?)),
        _ => Ok(None),
    }
}

fn travel_of(mark: &Mark, place: Place, names: &[Ident]) -> Result<Option<Count>, NoMemory>
    ensures { IfOk result (λ c. c ≡ spec.travel_in place names.now mark.now) }
{
    match mark {
        Mark::LengthIs(size) => Ok(Some(count(place, names, 0, size)?)),
        _ => Ok(None),
    }
}

fn switch_of(mark: &Mark, place: Place, names: &[Ident]) -> Result<Option<Count>, NoMemory>
    ensures { IfOk result (λ c. c ≡ spec.switch_in place names.now mark.now) }
{
    match mark {
        Mark::SwitchIs(by) => Ok(Some(named_count(place, names, 0, by)?)),
        _ => Ok(None),
    }
}

fn range_of(mark: &Mark) -> Result<Option<Bounds>, NoMemory>
    ensures { IfOk result (λ r. r ≡ spec.range_in mark.now) }
{
    match mark {
        Mark::Range(low, high) => Ok(Some(Bounds {
            low: signed_64(*low)?,
            high: signed_64(*high)?,
        })),
        _ => Ok(None),
    }
}

fn most(list: &[Attribute], place: Place, names: &[Ident]) -> Result<Option<Count>, NoMemory>
    ensures { IfOk result (λ c. c ≡ spec.given (spec.most_in place names.now) list.now) }
{
    for one in list {
        let found = most_of(&one.mark, place, names)?;
        if found.is_some() {
            return Ok(found);
        }
    }
    Ok(None)
}

fn travel(list: &[Attribute], place: Place, names: &[Ident]) -> Result<Option<Count>, NoMemory>
    ensures { IfOk result (λ c. c ≡ spec.given (spec.travel_in place names.now) list.now) }
{
    for one in list {
        let found = travel_of(&one.mark, place, names)?;
        if found.is_some() {
            return Ok(found);
        }
    }
    Ok(None)
}

fn switch(list: &[Attribute], place: Place, names: &[Ident]) -> Result<Option<Count>, NoMemory>
    ensures { IfOk result (λ c. c ≡ spec.given (spec.switch_in place names.now) list.now) }
{
    for one in list {
        let found = switch_of(&one.mark, place, names)?;
        if found.is_some() {
            return Ok(found);
        }
    }
    Ok(None)
}

/// The numbers that the first `range` allows.
///
/// # Errors
///
/// `NoMemory` where a number has no room in 64 bits with a sign: no interface that keeps the rules has
/// such a range.
pub fn range(list: &[Attribute]) -> Result<Option<Bounds>, NoMemory>
    ensures { IfOk result (λ r. r ≡ spec.given spec.range_in list.now) }
{
    for one in list {
        let found = range_of(&one.mark)?;
        if found.is_some() {
            return Ok(found);
        }
    }
    Ok(None)
}

/// What attributes give. `names`: those of all parameters, or of all members of the body.
///
/// # Errors
///
/// `NoMemory` where a size or a switch names none of them, or a number or an index has no room in its
/// field: no interface that keeps the rules has such an attribute.
pub fn terms(list: &[Attribute], place: Place, names: &[Ident]) -> Result<Terms, NoMemory>
    ensures { IfOk result (λ t. t ≡ spec.terms place names.now list.now) }
{
    let most = most(list, place, names)?;
    let travel = travel(list, place, names)?;
    let switch = switch(list, place, names)?;
    Ok(Terms {
        most,
        travel,
        switch,
    })
}
