// What the rows and the texts of a consistent family are, whatever was flattened; each law is the contract of a
// function with an empty body.
ghost use Rattle.td_machine.specs.History.{Family, IsConsistent};
ghost use Rattle.td_law_convergence.specs.Promises.{RowsAreTheOrder, RowsArePart, RowsAgree, ConvergentAtoms, ConvergentText, TextsConverge};
ghost use Rattle.td_law_convergence.specs.Subtrees.{SubtreesMeet};
ghost use Rattle.td_law_convergence.specs.Headline.{KeepsPromises};

/// Where no commit renamed the middle atom of an insert, the rows in its subtree are those of the inserts under that
/// insert.
pub fn subtrees_stay_whole()
    ensures { (family : Family) → IsConsistent family → SubtreesMeet family }
{}

/// Rows are part of the order: at every moment the rows of a site's document are some of the atoms of the one order
/// of its operations, in this order, and each atom that is no row has a delete there. So two atoms that are rows at
/// two sites stand in one order at both, also where one has taken commits that the other has not. Where no commit was
/// taken, the rows are all of the order.
pub fn rows_are_part_of_the_order()
    ensures part { (family : Family) → IsConsistent family → RowsArePart family }
    ensures agree { (family : Family) → IsConsistent family → RowsAgree family }
    ensures whole { (family : Family) → IsConsistent family → RowsAreTheOrder family }
{}

/// Convergent text: at every moment the text of a site is the one that its operations show, atom by atom. So two
/// moments, of one site or of two, with the same operations show the same text, in whatever order these came.
pub fn texts_converge()
    ensures atoms { (family : Family) → IsConsistent family → ConvergentAtoms family }
    ensures text { (family : Family) → IsConsistent family → ConvergentText family }
    ensures converge { (family : Family) → IsConsistent family → TextsConverge family }
{}

/// The six promises hold of every consistent family. That two sites with the same operations show the same text is
/// part of the first.
pub fn consistent_families_keep_the_promises()
    ensures { (family : Family) → IsConsistent family → KeepsPromises family }
{}
