//! The live handles of a group, however they are kept.
ghost use Rattle.std.specs.Prelude.{◌≡◌};

use handle_model::{DueItem, Slot};

/// The live handles of a group, however they are kept.
pub trait LiveHandles {
    ghost use Rattle.std.specs.Prelude.{List};
    ghost use Rattle.handle_model.specs.declared.entry.Home.{Home};
    ghost use Rattle.handle_model.specs.declared.entry.DueItem.{DueItem};
    ghost use Rattle.handle_table.specs.Uses.{item_named};

    ghost home: { Self → Home };

    ghost items: { Self → List DueItem };

    /// The live handle that a slot names.
    fn named(&self, slot: &Slot) -> Option<DueItem>
        ensures { result ≡ item_named (home self.now) (items self.now) slot.now };
}
