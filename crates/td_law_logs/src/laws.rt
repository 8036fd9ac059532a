// What is known of the logs of a consistent family, each law as the contract of a function with an empty body.
ghost use Rattle.std.specs.Prelude.{◌↔◌, List, IsTrue};
ghost use Rattle.td_base.specs.Lists.{In, Successive};
ghost use Rattle.td_op.specs.Op.{OpValue};
ghost use Rattle.td_op.specs.Past.{in_past};
ghost use Rattle.td_machine.specs.History.{Family, Moment, IsConsistent, IsOpOf, machine_at};
ghost use Rattle.td_order.specs.LineUp.{line_up};
ghost use Rattle.td_order.specs.Causal.{IsWellRooted};
ghost use Rattle.td_law_logs.specs.Part.{IsPartOf};
ghost use Rattle.td_law_logs.specs.Logs.{IsLogOf, base_from};
ghost use Rattle.td_law_logs.specs.AllOps.{IsAllOf, all_ops};

/// What a site has made and taken at a moment is a log of the family.
pub fn logs_of_moments()
    ensures { (family : Family) → IsConsistent family → (t : Moment family) → IsLogOf family (machine_at family t).log }
{}

/// It is a part of the family: operations, each once, with the past of each.
pub fn logs_are_parts()
    ensures { (family : Family) → IsConsistent family → (t : Moment family)
        → IsPartOf family (machine_at family t).log }
{}

/// The operations of a part are ones that sites can make one after another: no dot comes twice, each operation is
/// valid and knew all that those in its past knew, and each insertion puts some atom in a slot whose atom an
/// insertion in its past put. So their order is one, and has each atom once.
pub fn parts_are_well_rooted()
    ensures { (family : Family) → IsConsistent family → (ops : List OpValue) → IsPartOf family ops → IsWellRooted ops }
{}

/// So they are lined up each after all of its past.
pub fn line_ups_follow_the_past()
    ensures { (family : Family) → IsConsistent family → (ops : List OpValue) → IsPartOf family ops
        → Successive (λ (x y : OpValue). ¬ IsTrue (in_past x y)) (line_up ops) }
{}

/// What was there where an operation was made is its past.
pub fn what_was_there_is_the_past()
    ensures { (family : Family) → IsConsistent family → (o x : OpValue) → IsOpOf family o
        → In x (base_from family o.dot) ↔ (IsOpOf family x × IsTrue (in_past x o)) }
{}

/// `all_ops` is a list of all operations of the family, each once; so it is a part, the whole.
pub fn all_operations_of_a_family()
    ensures all { (family : Family) → IsConsistent family → IsAllOf family (all_ops family) }
    ensures part { (family : Family) → IsConsistent family → IsPartOf family (all_ops family) }
{}
