//! What is noted of a stub while it is read, for the comparison of counts and tags with what names them.

/// A count, a tag, a full pointer, or a number with a range, in the order in which they are met: the
/// referents of a value before what follows the value.
#[derive(Clone, Copy, Debug, PartialEq, Eq)]
pub enum Mark {
    /// A count or a tag at that index.
    Number(usize, i64),
    /// A full pointer that isn't null, and whether its referent stands in the stub for it.
    Referent(bool),
    /// The number at that index has a range.
    Ranged(usize),
}
