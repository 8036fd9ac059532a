// A part of the operations has the order of the whole; each law is the contract of a function with an empty body.
ghost use Rattle.std.specs.Prelude.{◌≡◌, List, [], ◌∷◌, IsTrue, codes};
ghost use Rattle.td_op.specs.Op.{OpValue};
ghost use Rattle.td_op.specs.declared.insertion.Insertion.{Insertion};
ghost use Rattle.td_base.specs.Lists.{IsSublist};
ghost use Rattle.td_order.specs.Insertions.{IsInsertionOf};
ghost use Rattle.td_order.specs.Place.{precedes};
ghost use Rattle.td_order.specs.Order.{order};
ghost use Rattle.td_order.specs.Show.{show};
ghost use Rattle.td_order.specs.Example.{atom, history, known_to_second, known_to_third, without_epochs};
ghost use Rattle.td_order.specs.Causal.{HasEpochs, IsPart, IsWellRooted};

/// A part of a family's operations that has the past of each of them has the order of the whole, with atoms left out.
#[tactic(auto, using(crate::proofs::OrderOfPart::a_part_in_order))]
pub fn a_part_keeps_the_order()
    ensures { (all part : List OpValue) → IsWellRooted all → HasEpochs all → IsPart part all
        → IsSublist (order part) (order all) }
{}

/// Where no insertion in a slot is in the past of another, slots have epochs.
pub fn a_slot_used_once_has_epochs()
    ensures { (ops : List OpValue)
        → ((c d : Insertion) → IsInsertionOf ops c → IsInsertionOf ops d → c.slot ≡ d.slot → ¬ IsTrue (precedes c d))
        → HasEpochs ops }
{}

/// The conditions of `a_part_keeps_the_order` can be met, by a history in which a slot is used again after a flatten.
/// The order of what the second site knew is that of all, with p left out.
#[tactic(auto, using(crate::proofs::ExampleHolds::example))]
pub fn a_small_history()
    ensures rooted { IsWellRooted history }
    ensures epochs { HasEpochs history }
    ensures part { IsPart known_to_second history }
    ensures whole_order { order history ≡ atom 1 1 ∷ atom 1 6 ∷ atom 2 1 ∷ atom 1 2 ∷ [] }
    ensures part_order { order known_to_second ≡ atom 1 1 ∷ atom 2 1 ∷ atom 1 2 ∷ [] }
    ensures text { show history ≡ codes "xpq" }
{}

/// Without `HasEpochs` a part need not have the order of the whole: here a stands before c in the part, and after it
/// in the whole.
#[tactic(auto, using(crate::proofs::ExampleHolds::others))]
pub fn epochs_are_needed()
    ensures rooted { IsWellRooted without_epochs }
    ensures part { IsPart known_to_third without_epochs }
    ensures part_order { order known_to_third ≡ atom 3 1 ∷ atom 1 1 ∷ [] }
    ensures whole_order { order without_epochs ≡ atom 1 1 ∷ atom 2 1 ∷ atom 3 1 ∷ [] }
{}
