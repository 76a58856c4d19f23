//! Laws of the definitions, each the contract of a function that does nothing.
ghost use Rattle.std.specs.Prelude.{◌≡◌, ◌<◌, ◌++◌, ◌∷◌, [], ℕ, Bool, List, map, Option, Some, None, Result, Ok};
ghost use Rattle.rpc_base.specs.Fields.{IsOctets};
ghost use Rattle.pdu_codec.specs.declared.pdu.Pdu.{Pdu};
ghost use Rattle.pdu_codec.specs.declared.fault.PduFault.{PduFault};
ghost use Rattle.pdu_codec.specs.Pdus.{IsPdu, AreSpelled};
ghost use Rattle.pdu_stream.specs.declared.cut.Cut.{Cut};
ghost use Rattle.pdu_stream.specs.declared.joined.Joined.{Joined};
ghost use Rattle.pdu_stream.specs.Cuts.{IsStop, IsCut, Fed, HasGiven, NextIsOfCut, NextGoesOn};
ghost use Rattle.pdu_stream.specs.Fragments.{Fragment, stub_of, joined_of, AddsFragment};
ghost use Rattle.pdu_stream.specs.Runs.{IsJoining, IsWhole, Changes};
ghost use Rattle.pdu_stream.specs.Pieces.{ArePieces, IsCovered};

/// A stream has one cut, so it doesn't matter in which pieces it came.
pub fn one_cut()
    ensures { (stream : List ℕ) (a b : Cut) → IsCut stream a → IsCut stream b → a ≡ b }
{}

/// Every stream of octets has a cut.
pub fn has_cut()
    ensures { (stream : List ℕ) → IsOctets stream → (cut : Cut) × IsCut stream cut }
{}

/// What was cut off and the cut of what follows are the cut of the whole.
pub fn cut_goes_on()
    ensures { (front stream : List ℕ) (pdus : List Pdu) (cut : Cut) → AreSpelled IsPdu pdus front → IsCut stream cut
        → IsCut (front ++ stream) (record cut { pdus = pdus ++ cut.pdus }) }
{}

/// A fault stays, whatever comes after.
pub fn fault_stays()
    ensures { (rest more : List ℕ) (fault : PduFault) → IsStop rest fault → IsStop (rest ++ more) fault }
{}

/// Further octets of a stream leave what was given of it.
pub fn push_goes_on()
    ensures { (stream piece : List ℕ) (given : List Pdu) (old : Fed) → HasGiven stream given old
        → HasGiven (stream ++ piece) given (record { rest = old.rest ++ piece; fault = old.fault }) }
{}

/// What `Feed::next` answers is what the cut of the whole stream so far has after the PDUs given, whatever the
/// pieces were and whenever it was called.
pub fn next_of_cut()
    ensures tells { (stream : List ℕ) (given : List Pdu) (cut : Cut) → IsCut stream cut → NextIsOfCut stream given cut }
    ensures goes_on { (stream : List ℕ) (given : List Pdu) → NextGoesOn stream given }
{}

/// What is being joined after PDUs goes on with each further one as a `Joiner` does.
pub fn runs_go_on()
    ensures { (pdus : List Pdu) (p : Pdu) (run new : Option Joined) → IsJoining pdus run → Changes run p p.body new → IsJoining (pdus ++ p ∷ []) new }
{}

/// What a `Joiner` answers at a last fragment is what its whole run joins to, and such a fragment is always
/// taken: the stub is that of all fragments of the run, in order.
pub fn runs_join()
    ensures joins { (pdus : List Pdu) (run new : Option Joined) (f : Fragment) (j : Joined)
        → IsJoining pdus run → AddsFragment (Ok run) f (Ok (Some j)) (Ok new) → IsWhole pdus f j }
    ensures taken { (pdus : List Pdu) (run : Option Joined) (f : Fragment) (j : Joined)
        → IsJoining pdus run → IsWhole pdus f j → AddsFragment (Ok run) f (Ok (Some j)) (Ok None) }
{}

/// The pieces of a stub cover it once, in order, and `piece` gives their places.
pub fn pieces_cover()
    ensures { (size : ℕ) (stub : List ℕ) → 0 < size → (pieces : List (List ℕ)) × ArePieces size stub pieces × IsCovered size stub pieces }
{}

/// A stub has its pieces in one way.
pub fn one_cutting()
    ensures { (size : ℕ) (stub : List ℕ) (a b : List (List ℕ)) → ArePieces size stub a → ArePieces size stub b → a ≡ b }
{}

/// Fragments whose stubs are the pieces of a stub join to that stub, whatever their size.
pub fn pieces_join()
    ensures { (size : ℕ) (stub : List ℕ) (first : Fragment) (later : List Fragment) (cancelled : Bool)
        → ArePieces size stub (map stub_of (first ∷ later)) → (joined_of first later cancelled).stub ≡ stub }
{}
