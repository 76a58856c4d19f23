//! Identifiers as values.
ghost use Rattle.std.specs.Prelude.{◌≡◌, IfOk};
ghost use Rattle.ndr_value.specs.Values.{val};
ghost use Rattle.desk_kit.specs.MessageParts as spec;

use crate::holders::structure;
use ndr_value::Value;
use rpc_base::{NoMemory, Octets, SyntaxId};
use std::alloc::Global;
use uuid::Uuid;

/// A UUID (C706, appendix "Universal Unique Identifier").
///
/// # Errors
///
/// `NoMemory` where there is no memory for it.
pub fn uuid_value(alloc: Global, id: &Uuid) -> Result<Value, NoMemory>
    ensures { IfOk result (λ v. val v ≡ spec.uuid_value id.now) }
{
    let (first, second, third, rest) = id.as_fields();
    let octets = Octets::from_vec(Vec::from_slice(alloc, &rest)?);
    let mut members = Vec::new(alloc);
    members.push(Value::Uint(u64::from(first)))?;
    members.push(Value::Uint(u64::from(second)))?;
    members.push(Value::Uint(u64::from(third)))?;
    members.push(Value::Octets(octets))?;
    Ok(structure(members))
}

/// The identifier of an interface: a UUID and the two numbers of its version.
///
/// # Errors
///
/// `NoMemory` where there is no memory for it.
pub fn syntax_value(alloc: Global, syntax: &SyntaxId) -> Result<Value, NoMemory>
    ensures { IfOk result (λ v. val v ≡ spec.syntax_value syntax.now) }
{
    let mut members = Vec::new(alloc);
    members.push(uuid_value(alloc, &syntax.id)?)?;
    members.push(Value::Uint(u64::from(syntax.major)))?;
    members.push(Value::Uint(u64::from(syntax.minor)))?;
    Ok(structure(members))
}
