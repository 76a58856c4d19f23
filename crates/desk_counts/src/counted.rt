//! Plain numbers.
ghost use Rattle.std.specs.Prelude.{◌≡◌};
ghost use Rattle.desk_counts.specs.Numbers as spec;

use crate::stats::Stats;
use std::marker::Model;

/// Numbers that one owner adds to.
#[derive(Debug, Drop)]
pub struct Counted {
    calls: u32,
    packets_in: u32,
    packets_out: u32,
}

impl Model for Counted {
    ghost use Rattle.desk_counts.specs.Numbers.{Numbers};

    ghost Value = { Numbers };

    ghost view = { λ c. record { calls = c.calls; packets_in = c.packets_in; packets_out = c.packets_out } };
}

impl Counted {
    /// None yet.
    pub fn new() -> Counted
        ensures { result ≡ spec.none_yet }
    {
        Counted {
            calls: 0,
            packets_in: 0,
            packets_out: 0,
        }
    }

    /// Adds so many.
    pub fn add(&mut self, calls: u32, packets_in: u32, packets_out: u32)
        ensures { self.new ≡ spec.with_more self.old calls packets_in packets_out }
    {
        self.calls = self.calls.saturating_add(calls);
        self.packets_in = self.packets_in.saturating_add(packets_in);
        self.packets_out = self.packets_out.saturating_add(packets_out);
    }
}

impl Stats for Counted {
    ghost use Rattle.std.specs.Prelude.{◌≡◌};
    ghost use Rattle.desk_counts.specs.Numbers.{listed};

    ghost gives = { λ c numbers. numbers ≡ listed c };

    fn read(&self) -> [u32; 4] {
        [self.calls, 0, self.packets_in, self.packets_out]
    }
}
