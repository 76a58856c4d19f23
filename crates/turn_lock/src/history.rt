//! What a value says of its history.
ghost use Rattle.std.specs.Prelude.{List, ℕ};

/// A value that stands for a history of entries, the earliest first.
pub trait Storied: Drop {
    /// What the history consists of.
    type Entry;

    /// What says how a history begins.
    type Start;

    // The entries that the history begins with. No pass entered them.
    ghost first: { Self.Start → List Self.Entry };

    // The value stands for this history. Nothing else is known of the history by the value.
    ghost tells: { Self → List Self.Entry → Type 0 };

    // The entry, where it is entered behind those, is tied to the one at that place, counted from 0.
    // Only a pass that entered the earlier one may enter it.
    ghost ties: { List Self.Entry → Self.Entry → ℕ → Type 0 };
}
