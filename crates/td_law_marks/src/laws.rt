// What holds of marked texts in every consistent family; each law is the contract of a function with an empty body.
ghost use Rattle.td_machine.specs.History.{Family, IsConsistent};
ghost use Rattle.td_law_marks.specs.Promises.{MarksConverge, CommitsKeepMarks};

/// Marked text converges: two moments, of one site or of two, with the same operations and the same operations on
/// marks show one marked text, in whatever order these came and whatever was flattened.
pub fn marked_texts_converge()
    ensures { (family : Family) → IsConsistent family → MarksConverge family }
{}

/// Commits keep the marks: a step in which a commit is made or taken leaves the marked text.
pub fn commits_keep_the_marks()
    ensures { (family : Family) → IsConsistent family → CommitsKeepMarks family }
{}
