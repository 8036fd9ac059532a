// What the definitions come to, each law as the contract of a function with an empty body.
ghost use Rattle.std.specs.Prelude.{◌≡◌, ◌≢◌, ◌↔◌, List, true, filter, IsTrue};
ghost use Rattle.std.specs.List.Sorted.{IsPermutation};
ghost use Rattle.td_base.specs.Value.{AtomIdValue};
ghost use Rattle.td_base.specs.Lists.{In, Successive, IsSpliced};
ghost use Rattle.td_op.specs.Op.{OpValue};
ghost use Rattle.td_op.specs.Past.{in_past};
ghost use Rattle.td_op.specs.declared.insertion.Insertion.{Insertion};
ghost use Rattle.td_order.specs.Insertions.{IsAtomOf, is_insertion};
ghost use Rattle.td_op.specs.Insertion.{ids_of};
ghost use Rattle.td_order.specs.LineUp.{DotsDiffer, comes_before, line_up};
ghost use Rattle.td_order.specs.Place.{place};
ghost use Rattle.td_order.specs.Order.{order};
ghost use Rattle.td_order.specs.Show.{show};
ghost use Rattle.td_order.specs.Causal.{IsCausal};

/// The line-up has the operations that it was made of, and each comes after all that follow it in the list.
#[tactic(auto, using(crate::proofs::LineUpLemmas::lined_up))]
pub fn line_up_is_in_order()
    ensures same { (ops : List OpValue) (x : OpValue) → In x (line_up ops) ↔ In x ops }
    ensures falls { (ops : List OpValue) → DotsDiffer ops
        → Successive (λ (x y : OpValue). IsTrue (comes_before y x)) (line_up ops) }
{}

/// Where each operation knew all that those in its past knew, it is lined up after all of its past.
#[tactic(auto, using(crate::proofs::OrderOfPart::past_before))]
pub fn line_up_follows_the_past()
    ensures { (ops : List OpValue) → IsCausal ops
        → Successive (λ (x y : OpValue). ¬ IsTrue (in_past x y)) (line_up ops) }
{}

/// An insertion's atoms are placed next to each other, in their order, and no other atom moves.
#[tactic(auto, using(crate::proofs::Spliced::place_spliced))]
pub fn placing_moves_no_atom()
    ensures { (placed : List Insertion) (list : List AtomIdValue) (a : Insertion)
        → IsSpliced (ids_of a) list (place placed list a) }
{}

/// The order has the atoms of all insertions and no other, and each once.
#[tactic(auto, using(crate::proofs::Spliced::each_once))]
pub fn order_has_each_atom_once()
    ensures atoms { (ops : List OpValue) (x : AtomIdValue) → In x (order ops) ↔ IsAtomOf ops x }
    ensures once { (ops : List OpValue) → DotsDiffer ops → Successive (λ (x y : AtomIdValue). x ≢ y) (order ops) }
{}

/// The order and the text are those of a set of operations: in which order a list has them does not matter.
#[tactic(auto, using(crate::proofs::SetOfOps::of_a_set))]
pub fn order_is_of_a_set()
    ensures order { (ops others : List OpValue) → DotsDiffer ops → DotsDiffer others
        → ((o : OpValue) → In o ops ↔ In o others) → order ops ≡ order others }
    ensures text { (ops others : List OpValue) → DotsDiffer ops → DotsDiffer others
        → ((o : OpValue) → In o ops ↔ In o others) → show ops ≡ show others }
    ensures permuted_order { (ops others : List OpValue) → DotsDiffer ops → IsPermutation ops others
        → order ops ≡ order others }
    ensures permuted_text { (ops others : List OpValue) → DotsDiffer ops → IsPermutation ops others
        → show ops ≡ show others }
{}

/// The order is that of the insertions alone: deletes, proposals, commits and aborts make no difference. So two lists
/// with the same insertions have one order, whatever else they have.
#[tactic(auto, using(crate::proofs::OrderAlone::order_alone, crate::proofs::OrderAlone::order_of_same_insertions))]
pub fn insertions_alone_fix_the_order()
    ensures alone { (ops : List OpValue) → DotsDiffer ops → order ops ≡ order (filter is_insertion ops) }
    ensures same { (ops others : List OpValue) → DotsDiffer ops → DotsDiffer others
        → ((x : OpValue) → is_insertion x ≡ true → In x ops ↔ In x others) → order ops ≡ order others }
{}
