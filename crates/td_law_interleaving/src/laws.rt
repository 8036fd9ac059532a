// That words typed at once are not mixed, each law as the contract of a function with an empty body.
ghost use Rattle.td_machine.specs.History.{Family, IsConsistent};
ghost use Rattle.td_law_interleaving.specs.Typing.{NoStrangerBetween, NoStrangerAtAtom, NoStrangerInDocument, TypedBehind, TypedInFront};

/// What stands between two atoms that hang on an insertion was put by that insertion, or by one whose site knew it;
/// and what stands between an atom and what hangs at it hangs at it. So in the order of any part of a family, and in
/// each document, whatever was flattened.
pub fn no_stranger_comes_between()
    ensures order { (family : Family) → IsConsistent family → NoStrangerBetween family }
    ensures atoms { (family : Family) → IsConsistent family → NoStrangerAtAtom family }
    ensures documents { (family : Family) → IsConsistent family → NoStrangerInDocument family }
{}

/// What is typed right behind a letter that no commit renamed hangs on the letter, and so does what is typed right in
/// front of what was just typed there. So a word typed in one go, forwards or backwards, hangs on its first letter.
pub fn what_is_typed_hangs_on_its_neighbour()
    ensures behind { (family : Family) → IsConsistent family → TypedBehind family }
    ensures in_front { TypedInFront }
{}
