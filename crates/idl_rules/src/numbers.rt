//! The numbers that types hold.
ghost use Rattle.std.specs.Prelude.{◌≡◌};
ghost use Rattle.idl_rules.specs.Numbers as spec;

/// Whether the number is at least `low` and below `high`.
pub fn within(low: i128, high: i128, number: i128) -> bool
    ensures { result ≡ spec.within low high number }
{
    low <= number && number < high
}

fn unsigned_holds(size: u8, number: i128) -> bool
    ensures { result ≡ spec.unsigned_holds size number }
{
    match size {
        1 => within(0, 1 << 8, number),
        2 => within(0, 1 << 16, number),
        4 => within(0, 1 << 32, number),
        8 => within(0, 1 << 64, number),
        _ => false,
    }
}

fn signed_holds(size: u8, number: i128) -> bool
    ensures { result ≡ spec.signed_holds size number }
{
    match size {
        1 => within(-(1 << 7), 1 << 7, number),
        2 => within(-(1 << 15), 1 << 15, number),
        4 => within(-(1 << 31), 1 << 31, number),
        8 => within(-(1 << 63), 1 << 63, number),
        _ => false,
    }
}

/// Whether an integer of so many octets holds the number.
pub fn int_holds(unsigned: bool, size: u8, number: i128) -> bool
    ensures { result ≡ spec.int_holds unsigned size number }
{
    if unsigned {
        unsigned_holds(size, number)
    } else {
        signed_holds(size, number)
    }
}
