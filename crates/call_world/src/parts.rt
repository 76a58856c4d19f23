//! Octets on a way.
ghost use Rattle.std.specs.Prelude.{◌≡◌, ◌≤◌, length, take, drop};

/// So many octets at the front.
pub fn front_of(octets: &Vec<u8>, count: usize) -> &[u8]
    requires { count ≤ length octets.now.items }
    ensures { result.now ≡ take count octets.now.items }
{
    let (front, _) = octets.as_slice().split_at(count);
    front
}

/// Drops so many octets from the front.
pub fn drop_front(octets: &mut Vec<u8>, count: usize)
    requires { count ≤ length octets.old.items }
    ensures { octets.new.items ≡ drop count octets.old.items }
{
    let left = octets.len() - count;
    octets.copy_within(count.., 0);
    octets.truncate(left);
}
