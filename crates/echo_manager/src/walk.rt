//! The items that the parameters that come out lead to.
ghost use Rattle.std.specs.Prelude.{◌≡◌, map, slice_get, OnOk, MatchOption, Some, None};
ghost use Rattle.std.specs.Option.{option_copied};
ghost use Rattle.ndr_value.specs.Forms.{form, types_of};
ghost use Rattle.ndr_value.specs.Values.{val, vals};
ghost use Rattle.ndr_table.specs.Tables.{param_form};
ghost use Rattle.ndr_model.specs.Stub.{of_param};
ghost use Rattle.ndr_model.specs.Named.{nth};
ghost use Rattle.echo_manager.specs.Met as spec;
ghost use Rattle.echo_manager.specs.Views.{flat_of, lead_of};

use crate::flat::flat_value;
use crate::lead::Lead;
use crate::met::Met;
use ndr_table::Param;
use ndr_value::{Shape, Value};
use rpc_base::NoMemory;
use std::alloc::Global;

// Types, parameters and results nest by value 256 levels at most, so there are fewer constructs and
// names between two pointers.
const DEEP: u32 = 1024;

/// The types of an interface, and the heap of a message.
#[derive(Clone, Copy)]
pub struct Walk<'a> {
    pub alloc: Global,
    pub types: &'a [Shape],
    pub heap: &'a [Value],
}

fn item_at(values: &[Value], at: usize) -> Option<&Value>
    ensures { option_copied result ≡ slice_get values.now at }
{
    values.get(at)
}

/// The value at that place.
pub fn value_at(values: &[Value], index: usize) -> Option<&Value>
    ensures { MatchOption result (nth (vals values.now) index ≡ None) (λ v. nth (vals values.now) index ≡ Some (val v.now)) }
{
    item_at(values, index)
}

#[cycle(whole)]
fn whole_value<'a>(
    levels: u16,
    walk: &Walk<'a>,
    shape: &'a Shape,
    value: &'a Value,
    met: &mut Met,
) -> Result<(), NoMemory>
    ensures { OnOk result (met.new ≡ spec.met_at (types_of walk.now.types.now) (vals walk.now.heap.now) levels (form shape.now) (Some (val value.now)) met.old) }
{
    let mut behind = Vec::new(walk.alloc);
    flat_value(DEEP, walk.types, shape, value, met, &mut behind)?;
    each_behind(levels, walk, behind.as_slice(), met)
}

#[cycle(whole)]
fn each_behind<'a>(
    levels: u16,
    walk: &Walk<'a>,
    behind: &[Lead<'a>],
    met: &mut Met,
) -> Result<(), NoMemory>
    ensures { OnOk result (met.new ≡ spec.each_behind (types_of walk.now.types.now) (spec.whole (types_of walk.now.types.now) (vals walk.now.heap.now) levels) (map lead_of behind.now) met.old) }
{
    for lead in behind {
        whole(levels, walk, *lead, met)?;
    }
    Ok(())
}

#[cycle(whole)]
fn whole_item<'a>(
    levels: u16,
    walk: &Walk<'a>,
    shape: &'a Shape,
    number: u32,
    met: &mut Met,
) -> Result<(), NoMemory>
    ensures { OnOk result (met.new ≡ spec.met_at (types_of walk.now.types.now) (vals walk.now.heap.now) levels (form shape.now) (nth (vals walk.now.heap.now) number) met.old) }
{
    match value_at(walk.heap, number as usize) {
        None => Ok(()),
        Some(value) => whole_value(levels, walk, shape, value, met),
    }
}

// What a pointer leads to, on at most so many levels of pointers.
#[tactic(auto, using(crate::proofs::Walks::wholes), unfolding(crate::specs::Met::whole))]
#[cycle(whole)]
fn whole<'a>(levels: u16, walk: &Walk<'a>, lead: Lead<'a>, met: &mut Met) -> Result<(), NoMemory>
    ensures { OnOk result (met.new ≡ spec.whole (types_of walk.now.types.now) (vals walk.now.heap.now) levels (lead_of lead.entry) met.old) }
{
    if levels == 0 {
        return Ok(());
    }
    match lead {
        Lead::Value(shape, value) => whole_value(levels - 1, walk, shape, value, met),
        Lead::Item(shape, number) => whole_item(levels - 1, walk, shape, number, met),
    }
}

// What stands in a stub for a parameter: its own reference has no octets.
fn own_shape(shape: &Shape) -> &Shape
    ensures { form result.now ≡ of_param (form shape.now) }
{
    match shape {
        Shape::Ref(inner) => inner,
        _ => shape,
    }
}

// The value of a parameter that comes out.
fn meet_value<'a>(
    walk: &Walk<'a>,
    shape: &'a Shape,
    value: &'a Value,
    met: &mut Met,
) -> Result<(), NoMemory>
    ensures { OnOk result (met.new ≡ spec.whole (types_of walk.now.types.now) (vals walk.now.heap.now) 257 (spec.to_value (of_param (form shape.now)) (val value.now)) met.old) }
{
    whole(257, walk, Lead::Value(own_shape(shape), value), met)
}

/// The items that the parameters that come out lead to, of the values that go in.
///
/// # Errors
///
/// `NoMemory` where there is no memory to note what is met.
pub fn met_in<'a>(
    walk: &Walk<'a>,
    params: &'a [Param],
    values: &'a [Value],
    met: &mut Met,
) -> Result<(), NoMemory>
    ensures { OnOk result (met.new ≡ spec.met_in (types_of walk.now.types.now) (vals walk.now.heap.now) (map param_form params.now) (vals values.now) met.old) }
{
    let mut rest = values;
    for param in params {
        if param.inward {
            match rest.split_first() {
                None => return Ok(()),
                Some((value, others)) => {
                    if param.outward {
                        meet_value(walk, &param.shape, value, met)?;
                    }
                    rest = others;
                }
            }
        }
    }
    Ok(())
}
