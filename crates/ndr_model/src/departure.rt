//! Where a stub departs from NDR.

/// The first departure of a stub. Each but `Short` and `Trailing` has the index of the number that
/// departs, after its gap.
#[derive(Clone, Copy, Debug, PartialEq, Eq)]
pub enum Departure {
    /// The octets end too early; how many there are.
    Short(usize),
    /// An offset that isn't 0, or an actual_count above the maximum.
    Bound(usize),
    /// A tag without an arm.
    Tag(usize),
    /// A full pointer's id that was met with another shape.
    Pointer(usize),
    /// A text without NUL, by its actual_count, or a name outside its enumeration.
    Text(usize),
    /// A pointer whose referent would be the 257th level.
    TooDeep(usize),
    /// More than seven octets behind the last value; how many.
    Trailing(usize),
}
