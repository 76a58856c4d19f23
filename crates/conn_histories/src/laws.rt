//! Laws of the definitions, each the contract of a function that does nothing.
ghost use Rattle.conn_histories.specs.Laws.{ComesOn, GoesOnInTheStream, LeavesOfAll, ActStays, SkippedBefore, OneAct};
ghost use Rattle.conn_histories.specs.Continued.{AllHasCome, EachGoes, EachRests, OneAnswer, SameActs, SameAnswers};
ghost use Rattle.conn_histories.specs.Played.{ActsAreAsks, OneAsking, EachAsks};
ghost use Rattle.conn_histories.specs.Serving.{CallsStayUnanswered, OthersWhileFree, HistoriesGoOn, OneEventMore, PutInOrder, CloseIsLast, AsksGoOn, EachReply, EachCallAnswered};
ghost use Rattle.conn_histories.specs.WholeRuns.{CallsAreWholeRuns, WholeRunsAreRuns};

/// The PDUs that were taken and the octets behind them are what came, whatever the pieces.
pub fn comes_on()
    ensures { ComesOn }
{}

/// An act takes PDUs from the front of what came, and leaves the rest.
pub fn goes_on_in_the_stream()
    ensures { GoesOnInTheStream }
{}

/// What the octets behind a state leave uncut is what all octets that came leave.
pub fn leaves_of_all()
    ensures { LeavesOfAll }
{}

/// An act stays, whatever octets come behind.
pub fn act_stays()
    ensures { ActStays }
{}

/// PDUs that were skipped before further octets came are skipped with these too: the next act is the same.
pub fn skipped_before()
    ensures { SkippedBefore }
{}

/// A state has one next act, or none, and one state behind it, unless memory runs out.
pub fn one_act()
    ensures { OneAct }
{}

/// The octets that came are the PDUs that were taken and the octets behind them, whatever happened.
pub fn all_has_come()
    ensures { AllHasCome }
{}

/// Each state of a connection to which octets came has a next act, or none.
pub fn each_goes()
    ensures { EachGoes }
{}

/// Each state of a connection to which octets came is at rest behind some further acts, with no further
/// octets and no decision of the server.
pub fn each_rests()
    ensures { EachRests }
{}

/// What the server decides in a state is answered by one list of octets, and leads to one state.
pub fn one_answer()
    ensures { OneAnswer }
{}

/// Octets that come in other pieces give the same acts and answers, in the same order, where each decision of
/// the server comes behind as many of them; and the same state, once nothing more is to be done.
pub fn same_acts()
    ensures { SameActs }
{}

/// Octets that come in other pieces give the same answers, and the same acts but for cancels and orphanings,
/// in the same order, and end at the same state, whenever the server decides the same. Only which cancels and
/// orphanings find their call unanswered depends on when it is answered.
pub fn same_answers()
    ensures { SameAnswers }
{}

/// A PDU asks a call exactly where a bind came before and the PDU is the last fragment of a whole run.
pub fn calls_are_whole_runs()
    ensures { CallsAreWholeRuns }
{}

/// A whole run goes from a first fragment to the next last one among the requests, all of one call,
/// context, operation and order. Its stub is that of all of them, in order; it is marked where one of them
/// has PENDING_CANCEL or a co_cancel with its id came between; no orphaned with its id did.
pub fn whole_runs_are_runs()
    ensures { WholeRunsAreRuns }
{}

/// What is done and answered on a connection is what the octets that came ask, in order: each ask has its
/// piece, and nothing else is done or answered. All of it is done where nothing is waited for and no whole
/// PDU is left, and where the connection is closed, unless its bind was refused.
pub fn acts_are_asks()
    ensures { ActsAreAsks }
{}

/// Octets ask one list.
pub fn one_asking()
    ensures { OneAsking }
{}

/// All octets ask something, or nothing: there is such a list.
pub fn each_asks()
    ensures { EachAsks }
{}

/// While a call is unanswered the next act is a cancel or an orphaning of it, and it stays unanswered.
pub fn calls_stay_unanswered()
    ensures { CallsStayUnanswered }
{}

/// While nothing is waited for the next act is neither a cancel nor an orphaning.
pub fn others_while_free()
    ensures { OthersWhileFree }
{}

/// One history and then another are a history.
pub fn histories_go_on()
    ensures { HistoriesGoOn }
{}

/// A history with one event more at its end is a history.
pub fn one_event_more()
    ensures { OneEventMore }
{}

/// What came, was decided, seen and put in two histories stands in their order, and what is put is put where
/// acts and decisions are seen.
pub fn put_in_order()
    ensures { PutInOrder }
{}

/// A close by a fault is the last that is asked.
pub fn close_is_last()
    ensures { CloseIsLast }
{}

/// What a longer stream asks goes on from what its front asks.
pub fn asks_go_on()
    ensures { AsksGoOn }
{}

/// Whatever a call's end says within the limit of a stub, there are octets for it.
pub fn each_reply()
    ensures { EachReply }
{}

/// While a call is unanswered, whatever its end says within the limit of a stub is answered.
pub fn each_call_answered()
    ensures { EachCallAnswered }
{}
