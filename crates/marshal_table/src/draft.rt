//! Types and operations, as the events of an interface come.
ghost use Rattle.std.specs.Prelude.{◌≡◌, ◌++◌, map, true, IfOk, OnOk};
ghost use Rattle.std.specs.List.{flat_map, list_all};
ghost use Rattle.ndr_value.specs.Forms.{types_of};
ghost use Rattle.ndr_table.specs.Tables.{op_form};
ghost use Rattle.marshal_table.specs.Bodies as bodies;
ghost use Rattle.marshal_table.specs.Interfaces as spec;

use crate::bodies::body_shape;
use crate::operations::{op_of, uses_of};
use idl_outline::Event;
use ndr_table::{Ops, Uses};
use ndr_value::Shapes;
use rpc_base::NoMemory;
use std::alloc::Global;

/// What a table has, up to a place of the text.
#[derive(Drop)]
pub struct Draft {
    pub types: Shapes,
    pub ops: Ops,
    pub uses: Uses,
}

fn add_type(alloc: Global, event: &Event, types: &mut Shapes) -> Result<(), NoMemory>
    ensures { OnOk result (types_of types.new.items ≡ types_of types.old.items ++ bodies.type_in event.now) }
{
    match event {
        Event::Body { tag, fields } => {
            let shape = body_shape(alloc, *tag, fields.as_slice())?;
            types.push(shape)?;
            Ok(())
        }
        _ => Ok(()),
    }
}

fn add_op(alloc: Global, event: &Event, ops: &mut Ops) -> Result<(), NoMemory>
    ensures { OnOk result (map op_form ops.new.items ≡ map op_form ops.old.items ++ spec.op_in event.now) }
{
    match event {
        Event::Call { result, parameters } => {
            ops.push(op_of(alloc, result, parameters.as_slice())?)?;
            Ok(())
        }
        _ => Ok(()),
    }
}

fn add_uses(alloc: Global, event: &Event, uses: &mut Uses) -> Result<(), NoMemory>
    ensures uses { OnOk result (uses.new.items ≡ uses.old.items ++ spec.uses_in event.now) }
    ensures few { OnOk result (list_all spec.is_few uses.old.items ≡ true → list_all spec.is_few uses.new.items ≡ true) }
{
    match event {
        Event::Call { parameters, .. } => {
            uses.push(uses_of(alloc, parameters.as_slice())?)?;
            Ok(())
        }
        _ => Ok(()),
    }
}

/// The types, operations and uses of handles of these events.
///
/// # Errors
///
/// `NoMemory` where there is no memory for them, or a number has no room in its field.
pub fn drafted(alloc: Global, events: &[Event]) -> Result<Draft, NoMemory>
    ensures types { IfOk result (λ d. types_of d.types.items ≡ flat_map bodies.type_in events.now) }
    ensures ops { IfOk result (λ d. map op_form d.ops.items ≡ flat_map spec.op_in events.now) }
    ensures uses { IfOk result (λ d. d.uses.items ≡ flat_map spec.uses_in events.now) }
    ensures few { IfOk result (λ d. list_all spec.is_few d.uses.items ≡ true) }
{
    let mut types = Shapes::new(alloc);
    let mut ops = Ops::new(alloc);
    let mut uses = Uses::new(alloc);
    for event in events {
        add_type(alloc, event, &mut types)?;
        add_op(alloc, event, &mut ops)?;
        add_uses(alloc, event, &mut uses)?;
    }
    Ok(Draft { types, ops, uses })
}
