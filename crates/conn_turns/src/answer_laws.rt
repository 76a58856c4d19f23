//! Laws of the definitions, each the contract of a function that does nothing.
ghost use Rattle.conn_turns.specs.AnswerLaws.{TurnsArePut, OnePiece, TurnsAnswer, StoriesAnswer};

/// What is put on a connection is what its turns answered.
pub fn turns_are_put()
    ensures { TurnsArePut }
{}

/// A request has one answer.
pub fn one_piece()
    ensures { OnePiece }
{}

/// Turns that are over and that the journal replies to answer what was asked, if it came to their events.
pub fn turns_answer()
    ensures { TurnsAnswer }
{}

/// The octets that a connection put are the answers to what it was asked, by its group's journal, once its turns are
/// over: to a front of it, and to all of it where nothing is waited for and no whole PDU is left, where the connection
/// is closed, and where its bind was refused or it left its last call.
pub fn stories_answer()
    ensures { StoriesAnswer }
{}
