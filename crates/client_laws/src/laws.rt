//! Laws of the definitions, each the contract of a function that does nothing.
ghost use Rattle.client_laws.specs.Ends.{RequestsArrive, AnswersAreTold, CallsMeet, BindsMeet};
ghost use Rattle.client_laws.specs.Sending.{AsksAreSent, SentAsks};
ghost use Rattle.client_laws.specs.Parts.{RepliesTellLast};

use ndr_laws::{one_message, stub_is_read, written_is_stub};

/// A request arrives, in whatever pieces its octets come and however they are cut into fragments: the server
/// is given one call, whose stub data are those of the caller's message and of no other.
pub fn requests_arrive()
    ensures { RequestsArrive }
{
    written_is_stub();
    one_message();
}

/// The answer to a call is told, in whatever pieces its octets come and however they are cut into
/// fragments: the fault, which ran where the server executed the call, or the message whose stub data
/// were answered.
pub fn answers_are_told()
    ensures { AnswersAreTold }
{
    one_message();
    stub_is_read();
}

/// A call and its response: each end reads the message that the other one wrote, and both are ready for the
/// next call.
pub fn calls_meet()
    ensures { CallsMeet }
{
    written_is_stub();
    one_message();
    stub_is_read();
}

/// A bind and its answer: the server is asked for the group that the caller wants, the caller is told the
/// one that it got, and both are ready for a call.
pub fn binds_meet()
    ensures { BindsMeet }
{}

/// A caller that binds once asks what it began, by the octets that it sends: its bind, then each call with its
/// message's stub data, and each cancel of the call that was out, in order, and nothing else.
pub fn sent_asks()
    ensures { SentAsks }
{}

/// Of an answer of which only a part came the caller is told nothing, and its call stays out; with the last
/// PDU it is told what the server said.
pub fn replies_tell_last()
    ensures { RepliesTellLast }
{
    one_message();
    stub_is_read();
}

/// What a caller that binds once began is what its octets ask, in order, and nothing else.
pub fn asks_are_sent()
    ensures { AsksAreSent }
{}
