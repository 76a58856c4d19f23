//! A probe that knows.
ghost use Rattle.std.specs.Prelude.{◌≡◌, ◌&&◌, not, false};

use manager_api::Probe;

/// The probe of a call of which is known whether it was cancelled.
#[derive(Drop)]
pub struct Marked {
    cancelled: bool,
    told: bool,
    ghost honest: { (told && not cancelled) ≡ false },
}

impl Marked {
    ghost use Rattle.std.specs.Prelude.{◌≡◌, true, false};

    /// One that has told nothing yet.
    pub fn new(cancelled: bool) -> Marked
        ensures told { result.told ≡ false }
        ensures cancelled { result.cancelled ≡ cancelled }
    {
        Marked {
            cancelled,
            told: false,
        }
    }

    /// It has told of a cancel only where there was one.
    pub fn is_honest(&self)
        ensures { self.now.told ≡ true → self.now.cancelled ≡ true }
    {}
}

impl Probe for Marked {
    type Key = bool;

    ghost told = { λ p. p.told };

    ghost key = { λ p. p.cancelled };

    fn asked(&mut self) -> bool {
        if self.cancelled {
            self.told = true;
        }
        self.cancelled
    }
}
