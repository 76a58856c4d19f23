//! Which handles a call can't name.
ghost use Rattle.handle_model.specs.Refused.{UsableNamesLive, NullAtFault, ForeignAtFault, TwiceAtFault, FaultRefuses};

/// A slot is usable exactly where it names a live handle of the group, of the slot's kind.
pub fn usable_names_live()
    ensures { UsableNamesLive }
{}

/// A slot that names null is at fault.
pub fn null_at_fault()
    ensures { NullAtFault }
{}

/// A slot that names a handle of another group, or of another server, is at fault.
pub fn foreign_at_fault()
    ensures { ForeignAtFault }
{}

/// A handle that a call names twice, once of them alone, is at fault at its second slot.
pub fn twice_at_fault()
    ensures { TwiceAtFault }
{}

/// A call with a slot at fault is never taken.
pub fn fault_refuses()
    ensures { FaultRefuses }
{}
