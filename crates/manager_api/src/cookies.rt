//! Which cookies a call is given.
ghost use Rattle.std.specs.Prelude.{◌≡◌, is_some, not};
ghost use Rattle.std.specs.List.{list_any};
ghost use Rattle.manager_api.specs.Calls as spec;

use ndr_table::HandleUse;
use rpc_base::WireHandle;

// Whether the handle parameter names a handle that the group has.
fn is_given(handle: &HandleUse, wire: &WireHandle) -> bool
    ensures { result ≡ spec.is_given handle.now wire.now }
{
    handle.inward && (!handle.outward || !wire.is_null())
}

fn are_none(cookies: &[Option<u64>]) -> bool
    ensures { result ≡ not (list_any is_some cookies.now) }
{
    match cookies.split_first() {
        None => true,
        Some((cookie, rest)) => cookie.is_none() && are_none(rest),
    }
}

/// Whether these are the cookies of a call with these handle parameters and wire handles: one for
/// each handle that the group has, none at the other places.
pub fn has_cookies(uses: &[HandleUse], wires: &[WireHandle], cookies: &[Option<u64>]) -> bool
    ensures { result ≡ spec.has_cookies uses.now wires.now cookies.now }
{
    match (uses.split_first(), cookies.split_first()) {
        (None, _) => are_none(cookies),
        (Some(_), None) => false,
        (Some((first, others)), Some((cookie, rest))) => match wires.split_first() {
            None => !first.inward && cookie.is_none() && has_cookies(others, wires, rest),
            Some((wire, behind)) => {
                let left = if first.inward { behind } else { wires };
                cookie.is_some() == is_given(first, wire) && has_cookies(others, left, rest)
            }
        },
    }
}
