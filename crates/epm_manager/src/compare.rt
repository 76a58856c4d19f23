//! How entries compare.
ghost use Rattle.std.specs.Prelude.{◌≡◌, not, IfOk, bytes_eq};
ghost use Rattle.epm_manager.specs.Entries as spec;

use crate::entry::{Likeness, MapEntry, Numbered};
use rpc_base::{NoMemory, SyntaxId};
use std::alloc::Global;
use tower_codec::Tower;
use uuid::Uuid;

/// Whether two UUIDs are one.
pub fn same_uuid(a: &Uuid, b: &Uuid) -> bool
    ensures { result ≡ bytes_eq a.now b.now }
{
    a.as_bytes().as_slice() == b.as_bytes().as_slice()
}

/// Whether two interfaces or transfer syntaxes are one, in one version.
pub fn same_syntax(a: &SyntaxId, b: &SyntaxId) -> bool
    ensures { result ≡ spec.same_syntax a.now b.now }
{
    same_uuid(&a.id, &b.id) && a.major == b.major && a.minor == b.minor
}

fn same_tower(a: &Tower, b: &Tower) -> bool
    ensures { result ≡ spec.same_tower a.now b.now }
{
    same_syntax(&a.iface, &b.iface)
        && same_syntax(&a.transfer, &b.transfer)
        && a.minor == b.minor
        && a.port == b.port
        && a.ip.as_slice() == b.ip.as_slice()
}

/// Whether two entries have that in common.
pub fn is_like(how: Likeness, a: &MapEntry, b: &MapEntry) -> bool
    ensures { result ≡ spec.is_like how a.now b.now }
{
    match how {
        Likeness::Service => {
            same_uuid(&a.object, &b.object)
                && same_syntax(&a.tower.iface, &b.tower.iface)
                && same_syntax(&a.tower.transfer, &b.tower.transfer)
        }
        Likeness::Entry => same_uuid(&a.object, &b.object) && same_tower(&a.tower, &b.tower),
    }
}

fn is_like_any(how: Likeness, others: &[MapEntry], entry: &MapEntry) -> bool
    ensures { result ≡ spec.is_like_any how others.now entry.now }
{
    others.iter().any(|other| is_like(how, entry, other))
}

fn is_unlike(how: Likeness, others: &[MapEntry], numbered: &Numbered) -> bool
    ensures { result ≡ spec.is_unlike how others.now numbered.now }
{
    !is_like_any(how, others, &numbered.entry)
}

fn is_there(entry: &MapEntry, entries: &[Numbered]) -> bool
    ensures { result ≡ spec.is_there entries.now entry.now }
{
    entries.iter().any(|numbered| is_like(Likeness::Entry, entry, &numbered.entry))
}

/// Whether each of the others is one of the entries.
pub fn are_there(others: &[MapEntry], entries: &[Numbered]) -> bool
    ensures { result ≡ spec.are_there others.now entries.now }
{
    others.iter().all(|other| is_there(other, entries))
}

/// # Errors
///
/// `NoMemory` where there is no memory for the copy.
pub fn copied(alloc: Global, numbered: &Numbered) -> Result<Numbered, NoMemory>
    ensures { IfOk result (λ n. n ≡ numbered.now) }
{
    let entry = &numbered.entry;
    Ok(Numbered {
        number: numbered.number,
        entry: MapEntry {
            object: entry.object,
            tower: entry.tower,
            note: entry.note.copy(alloc)?,
        },
    })
}

/// Copies of the entries that are like none of the others.
///
/// # Errors
///
/// `NoMemory` where there is no memory for the copies.
pub fn unlike(
    alloc: Global,
    how: Likeness,
    others: &[MapEntry],
    entries: &[Numbered],
) -> Result<Vec<Numbered>, NoMemory>
    ensures { IfOk result (λ v. v.items ≡ spec.unlike how others.now entries.now) }
{
    let mut rest = Vec::new(alloc);
    for numbered in entries {
        if is_unlike(how, others, numbered) {
            rest.push(copied(alloc, numbered)?)?;
        }
    }
    Ok(rest)
}
