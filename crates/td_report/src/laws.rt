// What the definition of a trace comes to: it is made of the lines that the calls answer, one behind the other.
ghost use Rattle.std.specs.Prelude.{◌≡◌, ◌+◌, ◌++◌, ◌∷◌, [], ℕ, List, length};
ghost use Rattle.td_trace.specs.declared.entry.TraceEntry.{TraceEntry};
ghost use Rattle.td_trace.specs.declared.log.EditorLog.{EditorLog};
ghost use Rattle.td_report.specs.Trace.{all_written, history_said, log_said, numbered, text_said, trace};
ghost use Rattle.td_report.specs.TraceLines.{Ended, SitesAre, written};

/// A trace is its first line, the lines of its sites, of its editors and of its texts, and its last line.
pub fn traces_are_their_parts()
    ensures { (sites : ℕ) (histories : List (List TraceEntry)) (logs : List EditorLog) (texts : List (List ℕ))
        → trace sites histories logs texts
        ≡ written (SitesAre sites)
        ++ (all_written (numbered history_said 1 histories)
        ++ (all_written (numbered log_said 1 logs)
        ++ (all_written (numbered text_said 1 texts) ++ written Ended))) }
{}

/// The lines of one more site, editor or text stand behind those before it.
pub fn traces_grow_at_their_ends()
    ensures sites { (histories : List (List TraceEntry)) (history : List TraceEntry)
        → all_written (numbered history_said 1 (histories ++ history ∷ []))
        ≡ all_written (numbered history_said 1 histories)
        ++ all_written (history_said (1 + length histories) history) }
    ensures editors { (logs : List EditorLog) (log : EditorLog)
        → all_written (numbered log_said 1 (logs ++ log ∷ []))
        ≡ all_written (numbered log_said 1 logs) ++ all_written (log_said (1 + length logs) log) }
    ensures texts { (texts : List (List ℕ)) (text : List ℕ)
        → all_written (numbered text_said 1 (texts ++ text ∷ []))
        ≡ all_written (numbered text_said 1 texts) ++ all_written (text_said (1 + length texts) text) }
{}
