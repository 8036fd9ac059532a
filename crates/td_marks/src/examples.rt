// Worked examples, computed by the definitions.
ghost use Rattle.std.specs.Prelude.{◌≡◌, [], ◌∷◌, codes};
ghost use Rattle.td_marks.specs.Text.{marked_text};
ghost use Rattle.td_marks.specs.Examples.{rows, marked, removed, added_beside, piece};

/// An operation is about the atoms alone that it names: what was typed between them, unseen, is not marked.
pub fn what_is_typed_between_is_not_marked()
    ensures { marked_text marked rows ≡ piece (codes "a") 8 ∷ piece (codes "x") 0 ∷ piece (codes "b") 8 ∷ [] }
{}

/// A removal takes the add that its maker had seen, from the atoms that it names. An add beside it stays.
pub fn an_add_stays_beside_a_removal()
    ensures removed { marked_text removed rows ≡ piece (codes "a") 8 ∷ piece (codes "xb") 0 ∷ [] }
    ensures beside { marked_text added_beside rows
        ≡ piece (codes "a") 8 ∷ piece (codes "x") 0 ∷ piece (codes "b") 8 ∷ [] }
{}
