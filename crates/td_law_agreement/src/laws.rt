// What the sites of a consistent family agree on; each law is the contract of a function with an empty body.
ghost use Rattle.std.specs.Prelude.{List};
ghost use Rattle.td_base.specs.Lists.{In};
ghost use Rattle.td_op.specs.Op.{OpValue};
ghost use Rattle.td_machine.specs.History.{Family, IsConsistent, IsOpOf};
ghost use Rattle.td_order.specs.Causal.{HasEpochs};
ghost use Rattle.td_law_agreement.specs.Agreement.{InsertsFindSlotsEmpty, EditsMeet, CommitsMeet, SiblingsMeet};
ghost use Rattle.td_law_agreement.specs.Unfit.{NothingUnfit};
ghost use Rattle.td_law_agreement.specs.Parts.{PartsKeepOrder, StableOrder};

/// Wherever it comes, an edit meets the row that it names, with the path that the row had where the edit was made;
/// and a commit finds in its slot the rows, with the paths and the deletes, that its proposer had there.
pub fn sites_agree()
    ensures edits { (family : Family) → IsConsistent family → EditsMeet family }
    ensures commits { (family : Family) → IsConsistent family → CommitsMeet family }
{}

/// Nothing unfit: no message that a site takes is unfit, and none that waited is dropped.
pub fn nothing_is_unfit()
    ensures { (family : Family) → IsConsistent family → NothingUnfit family }
{}

/// Siblings at arrival: when an insert is made, its slot has no row; and the rows that stand right in its slot where
/// it comes are the middle atoms of the inserts in that slot that its maker did not know, each where its insert put
/// it.
pub fn siblings_at_arrival()
    ensures made { (family : Family) → IsConsistent family → InsertsFindSlotsEmpty family }
    ensures taken { (family : Family) → IsConsistent family → SiblingsMeet family }
{}

/// Epochs: where one insert in a slot is in the past of another, each third one in the slot comes after the first or
/// before the second.
pub fn slots_have_epochs()
    ensures { (family : Family) → IsConsistent family → (ops : List OpValue)
        → ((x : OpValue) → In x ops → IsOpOf family x) → HasEpochs ops }
{}

/// Order of a part, and stable order: a part of a family has the order of each greater part, with atoms left out; so
/// each site has at every moment the order of all operations of the family, with atoms left out.
pub fn a_part_keeps_the_order_of_its_family()
    ensures parts { (family : Family) → IsConsistent family → PartsKeepOrder family }
    ensures stable { (family : Family) → IsConsistent family → StableOrder family }
{}
