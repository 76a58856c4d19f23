//! Laws of the definitions, each the contract of a function that does nothing.
ghost use Rattle.conn_turns.specs.Laws.{TurnsAreReplied, TurnsHaveEnded, TurnsStay};
ghost use Rattle.conn_turns.specs.Steps.{TurnsGoOn, TurnsAreLeft};
ghost use Rattle.conn_turns.specs.Reasons.{TurnsHaveReasons, ReasonsStay};
ghost use Rattle.conn_turns.specs.Lasting.{DuesStay, StoriesStay, FinishedStay};

/// A server, of whose connections a law speaks. No value of it is made.
pub trait Serving {
    ghost use Rattle.conn_histories.specs.Stories.{Server};

    ghost server: { Server };
}

/// Where a journal says of the calls of a connection just what its turns say, its reply to each is the turn's.
pub fn turns_are_replied()
    ensures { TurnsAreReplied }
{}

/// No call of a connection that is gone waits or runs, where no turn says so.
pub fn turns_have_ended()
    ensures { TurnsHaveEnded }
{}

/// What a journal says of the calls of a connection stays, whatever others enter.
pub fn turns_stay()
    ensures { TurnsStay }
{}

/// A connection's turns go on by an entry of one of its calls.
pub fn turns_go_on()
    ensures { TurnsGoOn }
{}

/// They go on by the connection's Leave, at which a call that is open is one that it leaves.
pub fn turns_are_left()
    ensures { TurnsAreLeft }
{}

/// Each call of a connection in a legal journal came to what its turn says by entries that fitted when they came: it
/// was accepted; denied at the slot that was its first at fault, with none in its way; cancelled, orphaned or left while
/// it waited; taken with none in its way; left while it ran; ended.
pub fn turns_have_reasons()
    ensures { TurnsHaveReasons }
{}

/// These reasons stay, whatever is entered afterwards.
pub fn reasons_stay()
    ensures { ReasonsStay }
{}

/// What each turn has for its reason by what the server offers and what its managers may answer stays, whatever is
/// entered afterwards.
pub fn dues_stay<S: Serving>()
    ensures { DuesStay S.server }
{}

/// A connection's story stays behind what others enter, in a legal journal.
pub fn stories_stay<S: Serving>()
    ensures { StoriesStay S.server }
{}

/// So does the story of a connection that is over.
pub fn finished_stay<S: Serving>()
    ensures { FinishedStay S.server }
{}
