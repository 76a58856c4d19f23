//! A stub has one departure with a cause at most, and none where it is a message's, as laws (C706, chapter "Transfer Syntax NDR").
#![tactic(auto)]

ghost use Rattle.stub_laws.specs.One.{AmissIsRead, CauseIsTold, NoCause, NoneAmiss, OneCause, OneNumber};

/// Of the numbers that have to be something in a message that stands in octets, one stands at an index at most. So of two that disagree
/// one comes first.
pub fn one_number()
    ensures { OneNumber }
{}

/// A part that is come to and departs, by what stands in the octets alone, departs as reading tells it. So no other does.
pub fn amiss_is_read()
    ensures { AmissIsRead }
{}

/// Where the values of a message stand, none does.
pub fn none_amiss()
    ensures { NoneAmiss }
{}

/// Two departures of one stub that both have their cause are the same.
pub fn one_cause()
    ensures { OneCause }
{}

/// A stub of a message has no departure.
pub fn no_cause()
    ensures { NoCause }
{}

/// A fault that has its cause is the one that reading tells.
pub fn cause_is_told()
    ensures { CauseIsTold }
{}
