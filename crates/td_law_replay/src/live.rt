// Traces of live families are told by what a checker finds along the replay; each law is the contract of a function
// with an empty body.
ghost use Rattle.std.specs.Prelude.{◌↔◌, ℕ, List};
ghost use Rattle.td_trace.specs.declared.entry.TraceEntry.{TraceEntry};
ghost use Rattle.td_trace.specs.declared.log.EditorLog.{EditorLog};
ghost use Rattle.td_law_replay.specs.Traced.{AreInRange};
ghost use Rattle.td_law_replay.specs.Judging.{States};
ghost use Rattle.td_law_replay.specs.Replay.{Reaches, AllDone};
ghost use Rattle.td_law_replay.specs.Ended.{VotesWereSent};
ghost use Rattle.td_law_replay.specs.Accepted.{IsLiveTrace, AreTextsOnTheWay, IsAcceptedAt, IsAccepted};

/// Whatever the trace, an end of its replay at which each vote was sent has texts on the way to it.
pub fn ends_have_texts_on_their_way()
    ensures { (all : List (List TraceEntry)) → AreInRange all → (last : States) → Reaches all last → AllDone all last
        → VotesWereSent all last → (text_at : ℕ → ℕ → List ℕ) × AreTextsOnTheWay all last text_at }
{}

/// A trace that is accepted at an end of its replay is that of a live family.
pub fn an_accepted_trace_is_live()
    ensures { (all : List (List TraceEntry)) (logs : List EditorLog) (texts : List (List ℕ)) → AreInRange all
        → (last : States) → Reaches all last → AllDone all last → (text_at : ℕ → ℕ → List ℕ)
        → AreTextsOnTheWay all last text_at → IsAcceptedAt all last text_at logs texts
        → IsLiveTrace all logs texts }
{}

/// The trace of a live family is accepted at whatever end of its replay is reached, in whatever order of sites. So a
/// checker that finds otherwise at one end knows that there is no such family.
pub fn a_live_trace_is_accepted()
    ensures { (all : List (List TraceEntry)) (logs : List EditorLog) (texts : List (List ℕ))
        → IsLiveTrace all logs texts → (last : States) → Reaches all last → AllDone all last
        → (text_at : ℕ → ℕ → List ℕ) → AreTextsOnTheWay all last text_at
        → IsAcceptedAt all last text_at logs texts }
{}

/// The replay of a trace comes to an end where it is accepted exactly where the trace is that of a live family.
pub fn traces_are_accepted_exactly()
    ensures { (all : List (List TraceEntry)) (logs : List EditorLog) (texts : List (List ℕ))
        → IsAccepted all logs texts ↔ IsLiveTrace all logs texts }
{}
