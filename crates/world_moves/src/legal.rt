//! The journal of each list of moves of a caller and a server is legal, as a law; with it, what the caller is told of its
//! calls is true, and handles are kept.

ghost use Rattle.world_moves.specs.Legal.{AllJournalsAreSound, FatesAreAlwaysTrue, HandlesAreAlwaysKept};

use world_laws::{fates_are_true, handles_are_kept};

/// Over every list of moves the journal is legal, and no Shut is due. The table is what each of the library's is: of its
/// operations each has four handles at most, as a legal journal asks of each call.
pub fn journals_are_legal()
    ensures { AllJournalsAreSound }
{}

/// So what the caller is told of its calls is true, whatever the moves are.
pub fn fates_are_always_true()
    ensures { FatesAreAlwaysTrue }
{
    fates_are_true();
}

/// So is each handle that came in a call told done live or run down, as long as the calls that name it keep it.
pub fn handles_are_always_kept()
    ensures { HandlesAreAlwaysKept }
{
    handles_are_kept();
}
