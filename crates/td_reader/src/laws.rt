// What the form of a trace comes to: a trace has no faulty line, no bytes are the traces of two values, and each line
// has its number.
ghost use Rattle.std.specs.Prelude.{◌≡◌, ℕ, List};
ghost use Rattle.td_reader.specs.LineNumbers.{LinesAreNumbered};
ghost use Rattle.td_reader.specs.Form.{IsFaultyForm, IsTraceOf, cut_lines};
ghost use Rattle.td_reader.specs.Values.{TraceValue};

/// No line of a trace is faulty, so what is written is read again, unless there is no memory.
#[tactic(auto, using(crate::proofs::Collecting::no_fault))]
pub fn written_traces_have_no_fault()
    ensures { (bytes : List ℕ) (t : TraceValue) (line : ℕ)
        → IsTraceOf bytes t → ¬ IsFaultyForm (cut_lines bytes) line }
{}

/// No bytes are the traces of two values.
#[tactic(auto, using(crate::proofs::Collecting::one_value))]
pub fn bytes_are_the_trace_of_one_value()
    ensures { (bytes : List ℕ) (t u : TraceValue) → IsTraceOf bytes t → IsTraceOf bytes u → t ≡ u }
{}

/// The line of each entry, of what each editor did, of each text and of the end is the one that its number says.
#[tactic(auto, using(crate::proofs::PartLines::numbered_lines))]
pub fn lines_are_where_their_numbers_say()
    ensures { (t : TraceValue) → LinesAreNumbered t }
{}
