//! Laws of the texts of calls.
ghost use Rattle.client_texts.specs.Laws.{OneAnswer, OneMessage, OneRequest};

/// A text is that of one request's message at most.
pub fn one_message()
    ensures { OneMessage }
{}

/// A request's message has one text at most.
pub fn one_request()
    ensures { OneRequest }
{}

/// The values of an answer's message have one text at most.
pub fn one_answer()
    ensures { OneAnswer }
{}
