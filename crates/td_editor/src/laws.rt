// What steps and editors come to, each law as the contract of a function with an empty body.
ghost use Rattle.std.specs.Prelude.{◌≡◌, ◌↔◌, List, Some};
ghost use Rattle.std.specs.List.{AllByRecursion};
ghost use Rattle.td_base.specs.Lists.{In};
ghost use Rattle.td_op.specs.declared.change.Change.{Change};
ghost use Rattle.td_op.specs.declared.input.Input.{Input};
ghost use Rattle.td_op.specs.Change.{CanChange};
ghost use Rattle.td_op.specs.Input.{IsInput};
ghost use Rattle.td_op.specs.Op.{OpValue};
ghost use Rattle.td_doc.specs.Document.{live_atoms, text_of};
ghost use Rattle.td_machine.specs.History.{IsReached, IsConsistent};
ghost use Rattle.td_machine.specs.Machine.{Machine};
ghost use Rattle.td_machine.specs.Shown.{change_between};
ghost use Rattle.td_machine.specs.Step.{step};
ghost use Rattle.td_law_convergence.specs.Headline.{KeepsPromises};
ghost use Rattle.td_replica.specs.Replica.{ReplicaValue};
ghost use Rattle.td_editor.specs.Screens.{changed_all};
ghost use Rattle.td_editor.specs.Editors.{after_steps, changes_of};
ghost use Rattle.td_editor.specs.Together.{AreTogether, family_of};

/// The index of the change that is told of a step is in range of the atoms shown before.
#[tactic(auto, using(crate::proofs::InRange::in_range))]
pub fn changes_are_in_range()
    ensures { (m : Machine) (input : Input) (change : Change) → IsReached m → IsInput input
        → change_between m (step m input).machine ≡ Some change → CanChange change (live_atoms m.doc) }
{}

/// The changes of some steps, applied in order to what was shown before, give what is shown after.
#[tactic(auto, using(crate::proofs::Steps::lead_on))]
pub fn changes_lead_on()
    ensures { (inputs : List Input) (r : ReplicaValue) → IsReached r.machine → AllByRecursion IsInput inputs
        → live_atoms (after_steps inputs r).machine.doc
        ≡ changed_all (changes_of inputs r) (live_atoms r.machine.doc) }
{}

/// Editors that take packets of each other keep the six promises. So two of them that have the same operations show
/// the same text.
pub fn editors_converge()
    ensures consistent { (replicas : List ReplicaValue) → AreTogether replicas → IsConsistent (family_of replicas) }
    ensures promises { (replicas : List ReplicaValue) → AreTogether replicas → KeepsPromises (family_of replicas) }
    ensures text { (replicas : List ReplicaValue) (r s : ReplicaValue) → AreTogether replicas → In r replicas
        → In s replicas → ((x : OpValue) → In x r.machine.log ↔ In x s.machine.log)
        → text_of r.machine.doc ≡ text_of s.machine.doc }
{}
