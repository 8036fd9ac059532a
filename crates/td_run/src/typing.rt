// What edits come to.
ghost use Rattle.std.specs.Prelude.{◌<◌, ◌≤◌, ℕ, List, All};
ghost use Rattle.td_base.specs.Atom.{IsAtom};
ghost use Rattle.td_world.specs.World.{WorldValue, IsWorld, size};
ghost use Rattle.td_report.specs.Asking.{deletes, inserts, pastes};
ghost use Rattle.td_run.specs.Asking.{ask_all};
ghost use Rattle.td_text.specs.Runs.{runs_of};
ghost use Rattle.td_run.specs.Typing.{IsCut, IsTyped};

/// Typing is typing: at every site of every world, whatever was edited and flattened before, what is put at an index
/// stands there among the atoms shown, in its order, what is deleted goes, and no other atom moves.
#[tactic(auto, using(crate::proofs::EditsShown::inserts_are_typed, crate::proofs::EditsShown::pastes_are_typed, crate::proofs::EditsShown::deletes_cut))]
pub fn typing_is_typing()
    ensures ins { (w : WorldValue) (site index : ℕ) (atoms : List (List ℕ)) → IsWorld w → 0 < site → site ≤ size w
        → All IsAtom atoms → IsTyped site index atoms w (ask_all site (inserts index atoms) w) }
    ensures paste { (w : WorldValue) (site index : ℕ) (atoms : List (List ℕ)) → IsWorld w → 0 < site → site ≤ size w
        → All IsAtom atoms → IsTyped site index atoms w (ask_all site (pastes index (runs_of atoms)) w) }
    ensures del { (w : WorldValue) (site index count : ℕ) → IsWorld w → 0 < site → site ≤ size w
        → IsCut site index w (ask_all site (deletes index count) w) }
{}
