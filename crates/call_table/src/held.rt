//! The waiting and running calls of a group, however they are kept.
ghost use Rattle.std.specs.Prelude.{◌≡◌, ◌↔◌, None, IsTrue};

use crate::row::Row;
use handle_model::Slot;

/// The waiting and running calls of a group, however they are kept.
pub trait OpenRows {
    ghost use Rattle.std.specs.Prelude.{List};
    ghost use Rattle.std.specs.Option.{option_copied};
    ghost use Rattle.call_table.specs.declared.row.Row.{Row};
    ghost use Rattle.call_table.specs.Rows.{row_at, blocker_of};

    ghost rows: { Self → List Row };

    /// The call of that number.
    fn row_of(&self, call: u32) -> Option<&Row>
        ensures { option_copied result ≡ row_at (rows self.now) call };

    /// Whether no other call stands in the way of one with these slots.
    fn is_free(&self, call: u32, slots: &[Slot]) -> bool
        ensures { IsTrue result ↔ (blocker_of slots.now call (rows self.now) ≡ None) };
}
