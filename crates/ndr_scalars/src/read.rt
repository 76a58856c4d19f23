//! Numbers that are read.
ghost use Rattle.std.specs.Prelude.{◌≡◌, ◌<◌, ◌≤◌, ◌+◌, ℕ, ℤ, length, MatchOption, MatchResult, IfOk, IfSome, IsOkAnd, None, Some};
ghost use Rattle.std.specs.Int.{w16, w32, w64};
ghost use Rattle.rpc_base.specs.Fields.{number_of};
ghost use Rattle.ndr_scalars.specs.Scalars.{up, octets_of, number_in, number_at, signed, signed_at, Scalar, AreCells};

use rpc_base::Order;

/// The octets end before a number's last.
#[derive(Clone, Copy, Debug, PartialEq, Eq)]
pub struct Short;

// Where a number of the size begins, if it ends within the octets.
fn start(size: u8, octets: &[u8], at: usize) -> Option<usize>
    ensures { MatchOption result (length octets.now < up at (octets_of size) + octets_of size) (λ s. (s ≡ up at (octets_of size)) × (s + octets_of size ≤ length octets.now)) }
{
    let len = octets.len();
    if at > len {
        return None;
    }
    let (place, wide) = match size {
        1 => (at, 1),
        2 => ((at + 1) / 2 * 2, 2),
        4 => ((at + 3) / 4 * 4, 4),
        _ => ((at + 7) / 8 * 8, 8),
    };
    if place + wide <= len {
        Some(place)
    } else {
        None
    }
}

#[tactic(auto, unfolding(rpc_base::specs::Fields::number_of))]
fn two(order: Order, cells: &[u8]) -> u16
    requires { length cells.now ≡ 2 }
    ensures { result ≡ number_of order w16 cells.now }
{
    let cells = [cells[0], cells[1]];
    match order {
        Order::Big => u16::from_be_bytes(cells),
        Order::Little => u16::from_le_bytes(cells),
    }
}

#[tactic(auto, unfolding(rpc_base::specs::Fields::number_of))]
fn four(order: Order, cells: &[u8]) -> u32
    requires { length cells.now ≡ 4 }
    ensures { result ≡ number_of order w32 cells.now }
{
    let cells = [cells[0], cells[1], cells[2], cells[3]];
    match order {
        Order::Big => u32::from_be_bytes(cells),
        Order::Little => u32::from_le_bytes(cells),
    }
}

#[tactic(auto, unfolding(rpc_base::specs::Fields::number_of))]
fn eight(order: Order, cells: &[u8]) -> u64
    requires { length cells.now ≡ 8 }
    ensures { result ≡ number_of order w64 cells.now }
{
    let cells = [
        cells[0], cells[1], cells[2], cells[3], cells[4], cells[5], cells[6], cells[7],
    ];
    match order {
        Order::Big => u64::from_be_bytes(cells),
        Order::Little => u64::from_le_bytes(cells),
    }
}

// The number in as many octets of the order.
fn number(order: Order, size: u8, cells: &[u8]) -> u64
    requires { length cells.now ≡ octets_of size }
    ensures { result ≡ number_in order size cells.now }
{
    match size {
        1 => u64::from(cells[0]),
        2 => u64::from(two(order, cells)),
        4 => u64::from(four(order, cells)),
        _ => eight(order, cells),
    }
}

// The same as a signed number.
fn signed_number(order: Order, size: u8, cells: &[u8]) -> i64
    requires { length cells.now ≡ octets_of size }
    ensures { result ≡ signed size (number_in order size cells.now) }
{
    match size {
        1 => i64::from(cells[0].cast_signed()),
        2 => i64::from(two(order, cells).cast_signed()),
        4 => i64::from(four(order, cells).cast_signed()),
        _ => eight(order, cells).cast_signed(),
    }
}

// The octets of the number at the next multiple of its size, and the index after them.
fn cells(size: u8, octets: &[u8], at: usize) -> Option<(&[u8], usize)>
    ensures is { MatchOption result (length octets.now < up at (octets_of size) + octets_of size) (λ x. AreCells size octets.now at x.0.now x.1) }
    ensures many { IfSome result (λ x. length x.0.now ≡ octets_of size) }
{
    match start(size, octets, at) {
        None => None,
        Some(place) => {
            let wide = match size {
                1 => 1,
                2 => 2,
                4 => 4,
                _ => 8,
            };
            Some((&octets[place..place + wide], place + wide))
        }
    }
}

/// The number at the next multiple of its size, which is 1, 2, 4 or 8 octets, and the index after
/// it. It takes no memory.
///
/// # Errors
///
/// `Short` where the octets end before the number's last.
pub fn read_uint(order: Order, size: u8, octets: &[u8], at: usize) -> Result<(u64, usize), Short>
    // What is read stands there, and what stands there is read.
    ensures found { IfOk result (λ x. Scalar order octets.now size x.0 at x.1) }
    ensures only { (n j : ℕ) → Scalar order octets.now size n at j → IsOkAnd result (λ x. x ≡ (n, j)) }
    ensures exact { MatchResult result (λ x. number_at order size octets.now at ≡ Some x) (λ _. number_at order size octets.now at ≡ None) }
    // So that a caller can tell where the number began.
    ensures place { IfOk result (λ x. x.1 ≡ up at (octets_of size) + octets_of size) }
{
    uint_at(order, size, octets, at)
}

#[tactic(auto, unfolding(crate::specs::Scalars::number_at))]
fn uint_at(order: Order, size: u8, octets: &[u8], at: usize) -> Result<(u64, usize), Short>
    ensures exact { MatchResult result (λ x. number_at order size octets.now at ≡ Some x) (λ _. number_at order size octets.now at ≡ None) }
    ensures place { IfOk result (λ x. x.1 ≡ up at (octets_of size) + octets_of size) }
{
    match cells(size, octets, at) {
        None => Err(Short),
        Some((found, after)) => Ok((number(order, size, found), after)),
    }
}

/// The number of two octets at the next multiple of two, and the index after it. It takes no memory.
///
/// # Errors
///
/// `Short` where the octets end before the number's last.
#[tactic(auto, unfolding(crate::specs::Scalars::number_at))]
pub fn read_half_word(order: Order, octets: &[u8], at: usize) -> Result<(u16, usize), Short>
    ensures exact { MatchResult result (λ x. number_at order 2 octets.now at ≡ Some x) (λ _. number_at order 2 octets.now at ≡ None) }
    ensures place { IfOk result (λ x. x.1 ≡ up at 2 + 2) }
{
    match cells(2, octets, at) {
        None => Err(Short),
        Some((found, after)) => Ok((two(order, found), after)),
    }
}

/// The number of four octets at the next multiple of four, and the index after it: a count, an
/// offset or a pointer's id. It takes no memory.
///
/// # Errors
///
/// `Short` where the octets end before the number's last.
#[tactic(auto, unfolding(crate::specs::Scalars::number_at))]
pub fn read_word(order: Order, octets: &[u8], at: usize) -> Result<(u32, usize), Short>
    ensures exact { MatchResult result (λ x. number_at order 4 octets.now at ≡ Some x) (λ _. number_at order 4 octets.now at ≡ None) }
    ensures place { IfOk result (λ x. x.1 ≡ up at 4 + 4) }
{
    match cells(4, octets, at) {
        None => Err(Short),
        Some((found, after)) => Ok((four(order, found), after)),
    }
}

/// The signed number, in two's complement, at the next multiple of its size, which is 1, 2, 4 or 8
/// octets, and the index after it. It takes no memory.
///
/// # Errors
///
/// `Short` where the octets end before the number's last.
#[tactic(auto, unfolding(crate::specs::Scalars::number_at))]
pub fn read_int(order: Order, size: u8, octets: &[u8], at: usize) -> Result<(i64, usize), Short>
    ensures exact { MatchResult result (λ x. signed_at order size octets.now at ≡ Some x) (λ _. signed_at order size octets.now at ≡ None) }
    ensures place { IfOk result (λ x. x.1 ≡ up at (octets_of size) + octets_of size) }
{
    match cells(size, octets, at) {
        None => Err(Short),
        Some((found, after)) => Ok((signed_number(order, size, found), after)),
    }
}
