//! What gives the numbers.
ghost use Rattle.std.specs.Prelude.{List, ℕ};

/// Numbers of calls and packets.
pub trait Stats {
    /// Which numbers it may give, in the order of `read`.
    ghost gives: { Self → List ℕ → Type 0 };

    /// Calls in, calls out, packets in and packets out.
    fn read(&self) -> [u32; 4]
        ensures { gives self.now result };
}
