//! The state: how many guests there are.
ghost use Rattle.std.specs.Prelude.{◌≡◌};
ghost use Rattle.hello_desk.specs.Steps as spec;

use std::marker::Model;

/// The most guests that the room has.
pub const MOST_GUESTS: u64 = 100;

/// The room. Contracts see it as the number of guests in it.
#[derive(Debug, Drop)]
pub struct Hello {
    guests: u64,
}

impl Model for Hello {
    ghost use Rattle.std.specs.Prelude.{ℕ, ◌≤◌};

    ghost Value = { ℕ };

    ghost view = { λ room. room.guests };

    ghost invariant = { λ room. room.guests ≤ 100 };
}

impl Hello {
    /// An empty one.
    pub fn new() -> Hello
        ensures { result ≡ 0 }
    {
        Hello { guests: 0 }
    }

    /// How many guests there are.
    pub fn guests(&self) -> u64
        ensures { result ≡ self.now }
    {
        self.guests
    }

    /// Whether so many more have room.
    pub(crate) fn has_room(&self, more: u64) -> bool
        ensures { result ≡ spec.has_room self.now more }
    {
        more <= MOST_GUESTS - self.guests
    }

    /// So many come in, where they have room.
    pub(crate) fn enter(&mut self, more: u64)
        ensures { self.new ≡ spec.entered self.old more }
    {
        if self.has_room(more) {
            self.guests += more;
        }
    }

    /// So many leave.
    pub(crate) fn leave(&mut self, some: u64)
        ensures { self.new ≡ spec.left self.old some }
    {
        self.guests = self.guests.saturating_sub(some);
    }
}
