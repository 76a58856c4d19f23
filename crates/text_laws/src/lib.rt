//! What has a text in a call script, as laws over the messages of a table's operations.
#![tactic(auto)]

ghost use Rattle.text_laws.specs.Requests.{EachRequestHasAText};

/// Each message of an operation, as a request, has a text in a call script, where its handles are null or came, and its numbers and
/// octets are those that its types hold.
pub fn each_request_has_a_text()
    ensures { EachRequestHasAText }
{}
