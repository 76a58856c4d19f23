//! Whether a take looks before it waits.

/// How many takes in a row wait at once at most.
const LONGEST: u32 = 32;

/// Whether a take looks for octets before it waits, where nothing is known to have come. A look that finds some saves the wait,
/// and one in vain costs a call of the system, so takes look while looks find something. Behind one in vain they wait at once for
/// a spell, which is twice as long each time.
#[derive(Clone, Copy)]
pub(crate) struct Habit {
    // How many takes wait at once behind the next look in vain.
    spell: u32,
    // How many more do so now.
    left: u32,
}

impl Habit {
    /// A take looks first.
    pub(crate) fn new() -> Habit {
        Habit { spell: 1, left: 0 }
    }

    /// Whether this take looks first.
    pub(crate) fn looks(&mut self) -> bool {
        if self.left == 0 {
            return true;
        }
        self.left -= 1;
        false
    }

    /// A take looked first, and found something or not.
    pub(crate) fn learn(&mut self, found: bool) {
        if found {
            self.spell = 1;
        } else {
            self.left = self.spell;
            self.spell = self.spell.saturating_mul(2).min(LONGEST);
        }
    }
}
