//! What requests ask for.
ghost use Rattle.std.specs.Prelude.{◌≡◌, IfOk};
ghost use Rattle.ndr_value.specs.Values.{msg, val, vals};
ghost use Rattle.manager_api.specs.Arguments.{value_at as value_at_spec};
ghost use Rattle.epm_manager.specs.Asked as spec;

use crate::request_values::{
    append_in, append_u16, append_u32, members_of, pointed_to, text_in, uint_in, value_at,
};
use crate::{MapEntry, Versions, Wanted, is_note};
use manager_api::uint_at;
use ndr_value::{Message, Value};
use rpc_base::{NoMemory, Octets, SyntaxId};
use std::alloc::Global;
use tower_codec::{Tower, read_tower};
use uuid::Uuid;

fn if_uuid(octets: &[u8]) -> Option<Uuid>
    ensures { result ≡ spec.if_uuid octets.now }
{
    match Uuid::from_slice(octets) {
        Ok(uuid) => Some(uuid),
        Err(_) => None,
    }
}

fn uuid_of(alloc: Global, value: &Value) -> Result<Option<Uuid>, NoMemory>
    ensures { IfOk result (λ o. o ≡ spec.uuid_of (val value.now)) }
{
    let members = members_of(value);
    let mut octets = Octets::new(alloc);
    append_u32(uint_in(members, 0), &mut octets)?;
    append_u16(uint_in(members, 1), &mut octets)?;
    append_u16(uint_in(members, 2), &mut octets)?;
    append_in(alloc, members, 3, &mut octets)?;
    Ok(if_uuid(octets.as_slice()))
}

fn uuid_in(alloc: Global, values: &[Value], at: usize) -> Result<Option<Uuid>, NoMemory>
    ensures { IfOk result (λ o. o ≡ spec.uuid_of (value_at_spec (vals values.now) at)) }
{
    match value_at(values, at) {
        Some(value) => uuid_of(alloc, value),
        None => Ok(None),
    }
}

fn uuid_behind(
    alloc: Global,
    heap: &[Value],
    values: &[Value],
    at: usize,
) -> Result<Option<Uuid>, NoMemory>
    ensures { IfOk result (λ o. o ≡ spec.uuid_of (spec.pointed_to (vals heap.now) (value_at_spec (vals values.now) at))) }
{
    match pointed_to(heap, values, at) {
        Some(value) => uuid_of(alloc, value),
        None => Ok(None),
    }
}

fn with_version(members: &[Value], id: Option<Uuid>) -> Option<SyntaxId>
    ensures { result ≡ spec.with_version (vals members.now) id }
{
    match id {
        Some(id) => Some(SyntaxId {
            id,
            major: (uint_in(members, 1) % (1 << 16)) as u16,
            minor: (uint_in(members, 2) % (1 << 16)) as u16,
        }),
        None => None,
    }
}

fn interface_of(alloc: Global, value: &Value) -> Result<Option<SyntaxId>, NoMemory>
    ensures { IfOk result (λ o. o ≡ spec.interface_of (val value.now)) }
{
    let members = members_of(value);
    let id = uuid_in(alloc, members, 0)?;
    Ok(with_version(members, id))
}

fn interface_behind(
    alloc: Global,
    heap: &[Value],
    values: &[Value],
    at: usize,
) -> Result<Option<SyntaxId>, NoMemory>
    ensures { IfOk result (λ o. o ≡ spec.interface_of (spec.pointed_to (vals heap.now) (value_at_spec (vals values.now) at))) }
{
    match pointed_to(heap, values, at) {
        Some(value) => interface_of(alloc, value),
        None => Ok(None),
    }
}

/// The tower that octets spell, if they spell one.
pub fn tower_of(octets: &[u8]) -> Option<Tower>
    ensures { result ≡ spec.tower_of octets.now }
{
    match read_tower(octets) {
        Ok(tower) => Some(tower),
        Err(_) => None,
    }
}

fn tower_in(alloc: Global, value: &Value) -> Result<Option<Tower>, NoMemory>
    ensures { IfOk result (λ o. o ≡ spec.tower_in (val value.now)) }
{
    let mut octets = Octets::new(alloc);
    append_in(alloc, members_of(value), 1, &mut octets)?;
    Ok(tower_of(octets.as_slice()))
}

fn tower_behind(
    alloc: Global,
    heap: &[Value],
    values: &[Value],
    at: usize,
) -> Result<Option<Tower>, NoMemory>
    ensures { IfOk result (λ o. o ≡ spec.tower_in (spec.pointed_to (vals heap.now) (value_at_spec (vals values.now) at))) }
{
    match pointed_to(heap, values, at) {
        Some(value) => tower_in(alloc, value),
        None => Ok(None),
    }
}

fn with_note(
    alloc: Global,
    object: Uuid,
    tower: Tower,
    note: &[u8],
) -> Result<Option<MapEntry>, NoMemory>
    ensures { IfOk result (λ o. o ≡ spec.with_note object tower note.now) }
{
    if !is_note(note) {
        return Ok(None);
    }
    Ok(Some(MapEntry {
        object,
        tower,
        note: Octets::from_vec(Vec::from_slice(alloc, note)?),
    }))
}

fn entry_of(alloc: Global, heap: &[Value], value: &Value) -> Result<Option<MapEntry>, NoMemory>
    ensures { IfOk result (λ o. o ≡ spec.entry_of (vals heap.now) (val value.now)) }
{
    let members = members_of(value);
    let object = uuid_in(alloc, members, 0)?;
    let tower = tower_behind(alloc, heap, members, 1)?;
    match object {
        None => Ok(None),
        Some(object) => match tower {
            None => Ok(None),
            Some(tower) => with_note(alloc, object, tower, text_in(members, 2)),
        },
    }
}

fn each_entry(
    alloc: Global,
    heap: &[Value],
    values: &[Value],
) -> Result<Option<Vec<MapEntry>>, NoMemory>
    ensures { IfOk result (λ o. spec.listed o ≡ spec.entries_of (vals heap.now) (vals values.now)) }
{
    let mut entries = Vec::new(alloc);
    for value in values {
        match entry_of(alloc, heap, value)? {
            None => return Ok(None),
            Some(entry) => entries.push(entry)?,
        }
    }
    Ok(Some(entries))
}

fn entries_of(
    alloc: Global,
    heap: &[Value],
    value: &Value,
) -> Result<Option<Vec<MapEntry>>, NoMemory>
    ensures { IfOk result (λ o. spec.listed o ≡ spec.entries_of (vals heap.now) (spec.elements_of (val value.now))) }
{
    match value {
        Value::Array(values) => each_entry(alloc, heap, values),
        Value::Octets(octets) => {
            // octets are no entries
            if !octets.is_empty() {
                return Ok(None);
            }
            Ok(Some(Vec::new(alloc)))
        }
        _ => Ok(Some(Vec::new(alloc))),
    }
}

/// The entries that a request names; none where a tower is null or unreadable.
///
/// # Errors
///
/// `NoMemory` where there is no memory for them.
pub fn entries_at(alloc: Global, message: &Message) -> Result<Option<Vec<MapEntry>>, NoMemory>
    ensures { IfOk result (λ o. spec.listed o ≡ spec.entries_at (msg message.now)) }
{
    match value_at(&message.values, 1) {
        Some(value) => entries_of(alloc, &message.heap, value),
        None => Ok(Some(Vec::new(alloc))),
    }
}

fn versions_of(number: u64) -> Option<Versions>
    ensures { result ≡ spec.versions_of number }
{
    match number {
        1 => Some(Versions::All),
        2 => Some(Versions::Compatible),
        3 => Some(Versions::Exact),
        4 => Some(Versions::SameMajor),
        5 => Some(Versions::UpTo),
        _ => None,
    }
}

fn by_interface(asked: Option<SyntaxId>, which: Option<Versions>) -> Wanted
    ensures { result ≡ spec.by_interface asked which }
{
    match (asked, which) {
        (Some(asked), Some(which)) => Wanted::Interface(asked, which),
        _ => Wanted::Nothing,
    }
}

fn by_object(object: Option<Uuid>) -> Wanted
    ensures { result ≡ spec.by_object object }
{
    match object {
        Some(object) => Wanted::Object(object),
        None => Wanted::Nothing,
    }
}

fn by_both(asked: Option<SyntaxId>, which: Option<Versions>, object: Option<Uuid>) -> Wanted
    ensures { result ≡ spec.by_both asked which object }
{
    match (asked, which, object) {
        (Some(asked), Some(which), Some(object)) => Wanted::Both(asked, which, object),
        _ => Wanted::Nothing,
    }
}

fn inquiry(
    number: u64,
    object: Option<Uuid>,
    asked: Option<SyntaxId>,
    which: Option<Versions>,
) -> Wanted
    ensures { result ≡ spec.inquiry number object asked which }
{
    match number {
        0 => Wanted::All,
        1 => by_interface(asked, which),
        2 => by_object(object),
        3 => by_both(asked, which, object),
        _ => Wanted::Nothing,
    }
}

/// What a request of ept_lookup asks for (C706, "Endpoint Mapper Interface Definition", inquiry
/// types and version options).
///
/// # Errors
///
/// `NoMemory` where there is no memory for its parts.
pub fn lookup_wants(alloc: Global, message: &Message) -> Result<Wanted, NoMemory>
    ensures { IfOk result (λ w. w ≡ spec.lookup_wants (msg message.now)) }
{
    let object = uuid_behind(alloc, &message.heap, &message.values, 1)?;
    let asked = interface_behind(alloc, &message.heap, &message.values, 2)?;
    let which = versions_of(uint_at(message, 3));
    Ok(inquiry(uint_at(message, 0), object, asked, which))
}

fn leading(object: Option<Uuid>, tower: Option<Tower>) -> Wanted
    ensures { result ≡ spec.leading object tower }
{
    match tower {
        Some(tower) => Wanted::Leading(object.unwrap_or(Uuid::nil()), tower),
        None => Wanted::Nothing,
    }
}

/// What a request of ept_map asks for.
///
/// # Errors
///
/// `NoMemory` where there is no memory for its parts.
pub fn map_wants(alloc: Global, message: &Message) -> Result<Wanted, NoMemory>
    ensures { IfOk result (λ w. w ≡ spec.map_wants (msg message.now)) }
{
    let object = uuid_behind(alloc, &message.heap, &message.values, 0)?;
    let tower = tower_behind(alloc, &message.heap, &message.values, 1)?;
    Ok(leading(object, tower))
}
