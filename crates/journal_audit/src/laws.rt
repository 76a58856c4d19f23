//! What the definitions come to.
ghost use Rattle.journal_audit.specs.SoFar.{SoundByLines};

/// A base whose lines are each as they should be, and in which something is open, is sound.
pub fn sound_by_lines()
    ensures { SoundByLines }
{}
