//! Which way the handles of an interface text go, as a law (C706, chapter "Interface Definition Language": context handles).
#![tactic(auto)]

ghost use Rattle.handle_ways.specs.Ways.{EachGoes, EachHandleGoes};
ghost use Rattle.marshal_table.specs.Interfaces as tables;

use idl_check::Checked;

/// In the table of a tree that breaks no rule each handle parameter of each operation goes in or out.
pub fn each_handle_goes()
    ensures { EachHandleGoes }
{}

/// So it is in the table of a checked interface.
pub fn handles_go(checked: &Checked)
    ensures { EachGoes (tables.tabled checked.now) }
{
    checked.tree();
}
