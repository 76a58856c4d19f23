//! What a running call may ask.
ghost use Rattle.std.specs.Prelude.{◌≡◌, ◌||◌, Bool};

/// Tells a running call whether it was cancelled.
pub trait Probe {
    /// What is known of the probe besides.
    type Key;

    /// Whether it told of a cancel.
    ghost told: { Self → Bool };

    /// What stays while it is asked.
    ghost key: { Self → Self.Key };

    /// Whether the call was cancelled.
    fn asked(&mut self) -> bool
        ensures told { told self.new ≡ (result || told self.old) }
        ensures key { key self.new ≡ key self.old };
}
