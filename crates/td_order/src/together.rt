// What hangs together stands together; each law is the contract of a function with an empty body.
ghost use Rattle.std.specs.Prelude.{◌≡◌, ◌⊎◌, List, IsTrue};
ghost use Rattle.td_base.specs.Value.{AtomIdValue};
ghost use Rattle.td_base.specs.Lists.{In, StandsBefore};
ghost use Rattle.td_op.specs.Op.{OpValue};
ghost use Rattle.td_op.specs.declared.insertion.Insertion.{Insertion};
ghost use Rattle.td_op.specs.Insertion.{ids_of};
ghost use Rattle.td_order.specs.Insertions.{IsAtomOf, IsInsertionOf};
ghost use Rattle.td_order.specs.Under.{IsUnder};
ghost use Rattle.td_order.specs.Place.{precedes};
ghost use Rattle.td_order.specs.Order.{order};
ghost use Rattle.td_order.specs.Standing.{HangsAt, HangsOn};
ghost use Rattle.td_order.specs.Causal.{HasEpochs, IsWellRooted};

/// What stands between two atoms that hang on an insertion hangs on it, and what stands between two that hang at an
/// atom hangs at it. Each insertion under another is that one, or knew it. So no atom of an insertion that did not
/// know a stands between two atoms that hang on a.
pub fn what_hangs_together_stands_together()
    ensures on { (ops : List OpValue) → IsWellRooted ops → HasEpochs ops → (a : Insertion) → IsInsertionOf ops a
        → (x y z : AtomIdValue) → HangsOn ops a x → HangsOn ops a z
        → StandsBefore x y (order ops) → StandsBefore y z (order ops) → HangsOn ops a y }
    ensures at { (ops : List OpValue) → IsWellRooted ops → HasEpochs ops → (v x y z : AtomIdValue) → IsAtomOf ops v
        → HangsAt ops v x → HangsAt ops v z
        → StandsBefore x y (order ops) → StandsBefore y z (order ops) → HangsAt ops v y }
    ensures known { (ops : List OpValue) → IsWellRooted ops → (a c : Insertion) → IsInsertionOf ops a
        → IsInsertionOf ops c → IsUnder ops a c → (c ≡ a) ⊎ IsTrue (precedes a c) }
    ensures no_stranger { (ops : List OpValue) → IsWellRooted ops → HasEpochs ops → (a c : Insertion)
        → IsInsertionOf ops a → IsInsertionOf ops c → (x y z : AtomIdValue) → HangsOn ops a x → HangsOn ops a z
        → In y (ids_of c) → StandsBefore x y (order ops) → StandsBefore y z (order ops)
        → (c ≡ a) ⊎ IsTrue (precedes a c) }
{}
