// Worked examples, computed by the definitions themselves.
ghost use Rattle.std.specs.Prelude.{◌≡◌, [], ◌∷◌, true, false};
ghost use Rattle.td_base.specs.declared.bit.Bit.TheVariants.{Left, Right};
ghost use Rattle.td_path.specs.declared.slot.Slot.TheVariants.{Root, At};
ghost use Rattle.td_machine.specs.History.{IsConsistent, machine};
ghost use Rattle.td_machine.specs.Stage.{atom_id};
ghost use Rattle.td_idle.specs.Stable.{stable};
ghost use Rattle.td_idle.specs.Candidate.{is_candidate};
ghost use Rattle.td_idle.specs.Examples.{typed_at_both, stable_after, candidate_after, flattened, commit_taken};

/// A site knows of another what that one had when it made its last operation that came. A slot with a letter that is
/// not stable is no candidate.
pub fn what_two_typists_know_of_each_other()
    ensures first { stable_after 2 typed_at_both 1 ≡ 2 ∷ 1 ∷ [] }
    ensures second { stable_after 2 typed_at_both 2 ≡ 2 ∷ 0 ∷ [] }
    ensures candidate { candidate_after 2 typed_at_both 1 (At (atom_id 1 1 0) Right) ≡ true }
    ensures unstable { candidate_after 2 typed_at_both 1 (At (atom_id 1 1 0) Left) ≡ false }
    ensures root { candidate_after 2 typed_at_both 1 Root ≡ false }
{}

/// The premises of the laws can be met: in a consistent family a site knows a candidate, and there is an operation of
/// the family that it does not have yet.
#[tactic(auto, using(td_machine::proofs::FlattenWitness::consistent))]
pub fn a_candidate_with_an_operation_to_come()
    ensures consistent { IsConsistent flattened }
    ensures stable { stable commit_taken ≡ 5 ∷ 0 ∷ [] }
    ensures candidate { is_candidate commit_taken Root ≡ true }
    ensures made { (machine flattened 1).have ≡ 6 ∷ 0 ∷ [] }
{}
