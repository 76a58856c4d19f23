//! What doors and dials in memory hand out and take back.
ghost use Rattle.std.specs.Prelude.{◌≡◌, true, IfOk, OnOk};
ghost use Rattle.rpc_outside.specs.LinkLists.{are_new};
ghost use Rattle.rpc_outside.specs.ScriptDoors.{door_shown};
ghost use Rattle.rpc_outside.specs.ScriptDials.{dial_shown};

use crate::link_rows::{numbers_of, put_put, put_take, steps_of};
use base_words::{put, put_octets};
use cases_base::Names;
use rpc_base::{Items, NoMemory};
use rpc_outside::{Address, Dial, Door, Links, ScriptDial, ScriptDoor, ScriptLink};
use std::alloc::Global;

const AT: Address = Address {
    ip: [127, 0, 0, 1],
    port: 5000,
};

/// New links, whose peers have these steps.
fn links_of(alloc: Global, names: &Names, text: &str) -> Result<Links, NoMemory>
    ensures { IfOk result (λ links. are_new links.items ≡ true) }
{
    let mut links = Links::new(alloc);
    for peer in text.split(';') {
        let steps = steps_of(alloc, names, peer)?;
        links.push(ScriptLink::new(alloc, steps, 9, Items::new(alloc), Items::new(alloc)))?;
    }
    Ok(links)
}

/// The calls, the numbers of those that fail, and the links.
fn parts_of(text: &str) -> Option<(&str, &str, &str)> {
    let mut parts = text.split('/');
    Some((parts.next()?, parts.next()?, parts.next()?))
}

/// Puts what was put on each of the links.
fn put_written(alloc: Global, links: &Links, into: &mut Vec<u8>) -> Result<(), NoMemory> {
    put(b"back", into)?;
    for at in 0..links.len() {
        if let Some(link) = links.get(at) {
            put(b" ", into)?;
            put_octets(alloc, link.written().as_slice(), into)?;
        }
    }
    Ok(())
}

/// Makes the calls one after the other. A link that is handed out is given back behind those of later calls.
fn put_nexts(
    alloc: Global,
    door: &mut ScriptDoor,
    calls: &[&str],
    into: &mut Vec<u8>,
) -> Result<(), NoMemory>
    ensures { OnOk result ((door_shown door.new).out ≡ (door_shown door.old).out) }
{
    let Some((call, later)) = calls.split_first() else {
        return Ok(());
    };
    if *call == "listen" {
        match door.listen(AT) {
            Ok(()) => put(b"listens ", into)?,
            Err(_) => put(b"failed ", into)?,
        }
        return put_nexts(alloc, door, later, into);
    }
    match door.next() {
        Ok(Some(mut link)) => {
            put_take(alloc, &mut link, 4, into)?;
            if *call == "put" {
                put_put(alloc, &mut link, b"abc", into)?;
            }
            put_nexts(alloc, door, later, into)?;
            door.back(link);
            Ok(())
        }
        Ok(None) => {
            put(b"none ", into)?;
            put_nexts(alloc, door, later, into)
        }
        Err(_) => {
            put(b"failed ", into)?;
            put_nexts(alloc, door, later, into)
        }
    }
}

/// The same of a dial.
fn put_dials(
    alloc: Global,
    dial: &mut ScriptDial,
    calls: &[&str],
    into: &mut Vec<u8>,
) -> Result<(), NoMemory>
    ensures { OnOk result ((dial_shown dial.new).out ≡ (dial_shown dial.old).out) }
{
    let Some((call, later)) = calls.split_first() else {
        return Ok(());
    };
    match dial.dial(AT) {
        Ok(mut link) => {
            put_take(alloc, &mut link, 4, into)?;
            if *call == "put" {
                put_put(alloc, &mut link, b"abc", into)?;
            }
            put_dials(alloc, dial, later, into)?;
            dial.back(link);
            Ok(())
        }
        Err(_) => {
            put(b"failed ", into)?;
            put_dials(alloc, dial, later, into)
        }
    }
}

/// `CALLS / NUMBERS / STEPS ; STEPS`: what the calls of a door are answered, `listen`, `next` and `put`, which hand out a link:
/// what is taken from it, and where the word is `put`, how many of three octets it takes. Then, link by link as they were given
/// back, the octets put on it. The calls of these numbers fail.
pub fn put_door(
    alloc: Global,
    names: &Names,
    text: &str,
    into: &mut Vec<u8>,
) -> Result<bool, NoMemory> {
    let Some((calls, failing, links)) = parts_of(text) else {
        return Ok(false);
    };
    let links = links_of(alloc, names, links)?;
    let mut door = ScriptDoor::new(alloc, links, numbers_of(alloc, failing)?);
    let calls: Vec<&str> = calls.split_whitespace().collect(alloc)?;
    put_nexts(alloc, &mut door, calls.as_slice(), into)?;
    put_written(alloc, door.given_back(), into)?;
    Ok(true)
}

/// The same of a dial, whose calls are `dial` and `put`.
pub fn put_dial(
    alloc: Global,
    names: &Names,
    text: &str,
    into: &mut Vec<u8>,
) -> Result<bool, NoMemory> {
    let Some((calls, failing, links)) = parts_of(text) else {
        return Ok(false);
    };
    let links = links_of(alloc, names, links)?;
    let mut dial = ScriptDial::new(alloc, links, numbers_of(alloc, failing)?);
    let calls: Vec<&str> = calls.split_whitespace().collect(alloc)?;
    put_dials(alloc, &mut dial, calls.as_slice(), into)?;
    put_written(alloc, dial.given_back(), into)?;
    Ok(true)
}
