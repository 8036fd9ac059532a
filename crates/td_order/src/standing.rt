// What is under what, and where atoms stand, two at a time; each law is the contract of a function with an empty body.
ghost use Rattle.std.specs.Prelude.{◌≡◌, ◌↔◌, List, IsTrue};
ghost use Rattle.td_base.specs.Value.{AtomIdValue};
ghost use Rattle.td_op.specs.Op.{OpValue};
ghost use Rattle.td_op.specs.declared.insertion.Insertion.{Insertion};
ghost use Rattle.td_order.specs.Insertions.{IsInsertionOf};
ghost use Rattle.td_op.specs.Insertion.{insertions};
ghost use Rattle.td_order.specs.LineUp.{line_up};
ghost use Rattle.td_order.specs.Under.{IsUnder, under};
ghost use Rattle.td_order.specs.Order.{order};
ghost use Rattle.td_order.specs.Standing.{ObeysRules};
ghost use Rattle.td_order.specs.Causal.{HasEpochs, IsWellRooted};

/// An insertion is under another where a chain of slots, each at an atom of the next insertion, leads from it to the
/// other.
#[tactic(auto, using(crate::proofs::UnderLemmas::under_by_slots))]
pub fn under_goes_by_slots()
    ensures { (ops : List OpValue) → IsWellRooted ops → (b c : Insertion) → IsInsertionOf ops b → IsInsertionOf ops c
        → IsTrue (under (insertions (line_up ops)) b.dot c.dot) ↔ IsUnder ops b c }
{}

/// The order obeys the rules, each of which says of two atoms which stands first, and is the only list that does.
#[tactic(auto, using(crate::proofs::RulesFix::rules_of_order))]
pub fn order_is_fixed_by_rules()
    ensures obeyed { (ops : List OpValue) → IsWellRooted ops → HasEpochs ops → ObeysRules ops (order ops) }
    ensures only { (ops : List OpValue) (list : List AtomIdValue) → IsWellRooted ops → HasEpochs ops
        → ObeysRules ops list → list ≡ order ops }
{}
