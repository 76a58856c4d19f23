//! Writing towers.
ghost use Rattle.std.specs.Prelude.{◌≡◌, ◌+◌, ◌<◌, ◌^◌, ◌++◌, [], length, OnOk, OnErr};
ghost use Rattle.rpc_base.specs.Fields.{uuid_octets, u16_octets};
ghost use Rattle.tower_codec.specs.Towers.{tower_octets, floor, syntax_floor, ip_protocol};
ghost use Rattle.tower_codec.specs.Writing.{KeepsFront};

use crate::tower::{Tower, protocols};
use rpc_base::{NoMemory, Order, SyntaxId, put_u16, put_uuid};

/// Adds the tower's octets at the end (C706, "Protocol Tower Encoding"). Where there is no memory,
/// nothing is added.
///
/// # Errors
///
/// `NoMemory` where there is no memory for the octets; nothing is added then.
pub fn write_tower(tower: &Tower, into: &mut Vec<u8>) -> Result<(), NoMemory>
    ensures ok { OnOk result (into.new.items ≡ into.old.items ++ tower_octets tower.now) }
    ensures err { OnErr result (into.new.items ≡ into.old.items) }
{
    let start = into.len();
    match put_tower(tower, into) {
        Ok(()) => Ok(()),
        Err(refused) => {
            into.truncate(start);
            Err(refused)
        }
    }
}

#[tactic(auto, unfolding(crate::specs::Towers::tower_octets))]
fn put_tower(tower: &Tower, into: &mut Vec<u8>) -> Result<(), NoMemory>
    ensures ok { OnOk result (into.new.items ≡ into.old.items ++ tower_octets tower.now) }
    ensures err { OnErr result (KeepsFront into.old.items into.new.items) }
{
    put_u16(Order::Little, 5, into)?;
    put_syntax(&tower.iface, into)?;
    put_syntax(&tower.transfer, into)?;
    put_number(protocols::RPC, Order::Little, tower.minor, into)?;
    put_number(protocols::TCP, Order::Big, tower.port, into)?;
    put_address(&tower.ip, into)?;
    Ok(())
}

/// Adds the floor of an interface or of a transfer syntax.
fn put_syntax(syntax: &SyntaxId, into: &mut Vec<u8>) -> Result<(), NoMemory>
    ensures ok { OnOk result (into.new.items ≡ into.old.items ++ syntax_floor syntax.now) }
    ensures err { OnErr result (KeepsFront into.old.items into.new.items) }
{
    put_u16(Order::Little, size(syntax.id.as_bytes()) + 3, into)?;
    put(&[protocols::UUID], into)?;
    put_uuid(Order::Little, &syntax.id, into)?;
    put_u16(Order::Little, syntax.major, into)?;
    put_u16(Order::Little, 2, into)?;
    put_u16(Order::Little, syntax.minor, into)?;
    Ok(())
}

/// How many octets a UUID has.
fn size(id: &[u8; 16]) -> u16
    ensures size { result ≡ 16 }
    ensures all { length id.now ≡ 16 }
{
    id.len() as u16
}

/// Adds the floor of a protocol that has a number on its right and no data on its left.
fn put_number(protocol: u8, order: Order, value: u16, into: &mut Vec<u8>) -> Result<(), NoMemory>
    ensures ok { OnOk result (into.new.items ≡ into.old.items ++ floor protocol [] (u16_octets order value)) }
    ensures err { OnErr result (KeepsFront into.old.items into.new.items) }
{
    put_u16(Order::Little, 1, into)?;
    put(&[protocol], into)?;
    put_u16(Order::Little, 2, into)?;
    put_u16(order, value, into)?;
    Ok(())
}

/// Adds the floor of an IP address.
fn put_address(address: &[u8; 4], into: &mut Vec<u8>) -> Result<(), NoMemory>
    ensures ok { OnOk result (into.new.items ≡ into.old.items ++ floor ip_protocol [] address.now) }
    ensures err { OnErr result (KeepsFront into.old.items into.new.items) }
{
    put_u16(Order::Little, 1, into)?;
    put(&[protocols::IP], into)?;
    put_u16(Order::Little, address.len() as u16, into)?;
    put(address, into)?;
    Ok(())
}

fn put(octets: &[u8], into: &mut Vec<u8>) -> Result<(), NoMemory>
    ensures ok { OnOk result (into.new.items ≡ into.old.items ++ octets.now) }
    ensures err { OnErr result (into.new.items ≡ into.old.items) }
{
    into.extend_from_slice(octets)?;
    Ok(())
}
