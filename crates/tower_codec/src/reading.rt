//! Reading towers.
ghost use Rattle.std.specs.Prelude.{◌≡◌, ◌+◌, ◌<◌, ◌++◌, ◌^◌, [], length, IfOk, IfErr, OnOk, Some, Ok};
ghost use Rattle.rpc_base.specs.Fields.{u16_octets};
ghost use Rattle.rpc_base.specs.declared.identifiers.Order.TheVariants.{Little};
ghost use Rattle.tower_codec.specs.Towers.{IsTower, IsSyntaxFloor, floor, ip_protocol};
ghost use Rattle.tower_codec.specs.Departures.{departs, departure, StopsFixed, StopsFree, StopsFloor};

use crate::fault::TowerFault;
use crate::tower::{Tower, protocols};
use rpc_base::{Order, SyntaxId, get_u16, get_uuid};

/// The tower that the octets spell, all of them (C706, "Protocol Tower Encoding"). It takes no memory.
///
/// # Errors
///
/// The fault at the first field that departs from the encoding.
pub fn read_tower(octets: &[u8]) -> Result<Tower, TowerFault>
    // What is read is spelled so.
    ensures found { IfOk result (λ tower. IsTower tower octets.now) }
    // What is spelled so is read.
    ensures only { (tower : Tower) → IsTower tower octets.now → result ≡ Ok tower }
    // Which fault it is.
    ensures fault { IfErr result (λ fault. departure octets.now ≡ Some fault) }
{
    parse_tower(octets)
}

/// The tower that the octets spell.
fn parse_tower(octets: &[u8]) -> Result<Tower, TowerFault>
    ensures found { IfOk result (λ tower. IsTower tower octets.now) }
    ensures fault { IfErr result (λ fault. departure octets.now ≡ Some fault) }
{
    let rest = take_count(octets, 5, TowerFault::Floors)?;
    let first = take_floor(rest, 1, protocols::UUID, 18, 2)?;
    let second = take_floor(first.rest, 2, protocols::UUID, 18, 2)?;
    let (minor, rest) = take_number(second.rest, 3, protocols::RPC, Order::Little)?;
    let (port, rest) = take_number(rest, 4, protocols::TCP, Order::Big)?;
    let (ip, rest) = take_address(rest, 5)?;
    take_end(rest)?;
    Ok(Tower {
        iface: read_syntax(first.left, first.right),
        transfer: read_syntax(second.left, second.right),
        minor,
        port,
        ip,
    })
}

/// The interface or the transfer syntax that a floor's sides say.
fn read_syntax(left: &[u8], right: &[u8]) -> SyntaxId
    requires left { length left.now ≡ 18 }
    requires right { length right.now ≡ 2 }
    ensures { IsSyntaxFloor result left.now right.now }
{
    SyntaxId {
        id: get_uuid(Order::Little, left, 0),
        major: get_u16(Order::Little, left, 16),
        minor: get_u16(Order::Little, right, 0),
    }
}

/// The number on the right of a floor that has no data on the left, and what stands after it.
fn take_number(
    octets: &[u8],
    number: u8,
    protocol: u8,
    order: Order,
) -> Result<(u16, &[u8]), TowerFault>
    ensures ok { IfOk result (λ r. (r.0 < 2 ^ 16) × (octets.now ≡ floor protocol [] (u16_octets order r.0) ++ r.1.now)) }
    ensures err { IfErr result (StopsFloor number protocol 0 2 octets.now) }
{
    let floor = take_floor(octets, number, protocol, 0, 2)?;
    Ok((get_u16(order, floor.right, 0), floor.rest))
}

/// The address on the right of a floor that has no data on the left, and what stands after it.
fn take_address(octets: &[u8], number: u8) -> Result<([u8; 4], &[u8]), TowerFault>
    ensures ok { IfOk result (λ r. (length r.0 ≡ 4) × (octets.now ≡ floor ip_protocol [] r.0 ++ r.1.now)) }
    ensures err { IfErr result (StopsFloor number ip_protocol 0 4 octets.now) }
{
    let floor = take_floor(octets, number, protocols::IP, 0, 4)?;
    let mut address = [0; 4];
    address.copy_from_slice(floor.right);
    Ok((address, floor.rest))
}

/// A floor in the midst of octets: its data on the left and on the right, and what stands after it.
#[derive(Drop)]
struct Floor<'a> {
    left: &'a [u8],
    right: &'a [u8],
    rest: &'a [u8],
}

/// The floor of a protocol that has so many octets of data on its sides.
fn take_floor(
    octets: &[u8],
    number: u8,
    protocol: u8,
    left: u16,
    right: u16,
) -> Result<Floor<'_>, TowerFault>
    requires { left + 1 < 2 ^ 16 }
    ensures ok { IfOk result (λ f. (length f.left.now ≡ left) × (length f.right.now ≡ right) × (octets.now ≡ floor protocol f.left.now f.right.now ++ f.rest.now)) }
    ensures err { IfErr result (StopsFloor number protocol left right octets.now) }
{
    let fault = TowerFault::FloorKind(number);
    let rest = take_count(octets, left + 1, fault)?;
    let rest = take_fixed(rest, &[protocol], fault)?;
    let (left, rest) = take_free(rest, left as usize)?;
    let rest = take_count(rest, right, fault)?;
    let (right, rest) = take_free(rest, right as usize)?;
    Ok(Floor { left, right, rest })
}

/// What stands after a count, as every tower has it there.
#[tactic(auto, unfolding(rpc_base::specs::Fields::number_octets))]
fn take_count(octets: &[u8], count: u16, fault: TowerFault) -> Result<&[u8], TowerFault>
    ensures ok { IfOk result (λ rest. octets.now ≡ u16_octets Little count ++ rest.now) }
    ensures err { IfErr result (StopsFixed (u16_octets Little count) fault octets.now) }
{
    take_fixed(octets, &count.to_le_bytes(), fault)
}

/// What stands after octets that every tower has there.
fn take_fixed<'a>(
    octets: &'a [u8],
    wanted: &[u8],
    fault: TowerFault,
) -> Result<&'a [u8], TowerFault>
    ensures ok { IfOk result (λ rest. octets.now ≡ wanted.now ++ rest.now) }
    ensures err { IfErr result (StopsFixed wanted.now fault octets.now) }
{
    if octets.len() < wanted.len() {
        return Err(TowerFault::Short);
    }
    let (front, rest) = octets.split_at(wanted.len());
    if front != wanted {
        return Err(fault);
    }
    Ok(rest)
}

/// So many octets, and what stands after them.
fn take_free(octets: &[u8], size: usize) -> Result<(&[u8], &[u8]), TowerFault>
    ensures ok { IfOk result (λ r. (length r.0.now ≡ size) × (octets.now ≡ r.0.now ++ r.1.now)) }
    ensures err { IfErr result (StopsFree size octets.now) }
{
    if octets.len() < size {
        return Err(TowerFault::Short);
    }
    Ok(octets.split_at(size))
}

/// That nothing stands after the last floor.
#[tactic(auto, using(crate::proofs::TowerLaws::trailing, crate::proofs::TowerLaws::nothing_left))]
fn take_end(rest: &[u8]) -> Result<(), TowerFault>
    ensures ok { OnOk result (rest.now ≡ []) }
    ensures err { IfErr result (λ fault. departs [] rest.now ≡ Some fault) }
{
    if 0 < rest.len() {
        return Err(TowerFault::Trailing);
    }
    Ok(())
}
