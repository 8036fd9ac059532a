// What the past of an operation is like, each law as the contract of a function with an empty body.
ghost use Rattle.std.specs.Prelude.{◌≡◌, ◌≢◌, ◌<◌, length, IsTrue};
ghost use Rattle.td_clock.specs.Vector.{vector_covers};
ghost use Rattle.td_op.specs.Op.{OpValue, IsOp};
ghost use Rattle.td_op.specs.Past.{in_past, op_sum, Concurrent};

/// No operation is in its own past, and what is in the past of y is in the past of each z that knew all that y knew.
#[tactic(auto, using(crate::proofs::PastLemmas::strict))]
pub fn past_is_strict()
    ensures irreflexive { (x : OpValue) → IsOp x → ¬ IsTrue (in_past x x) }
    ensures passed_on { (x y z : OpValue) → IsTrue (in_past x y)
        → IsTrue (vector_covers z.deps y.deps) → IsTrue (in_past x z) }
{}

/// Of two operations of one site the earlier is in the past of the later, so they are not concurrent.
#[tactic(auto, using(crate::proofs::PastLemmas::one_site))]
pub fn sites_are_in_order()
    ensures earlier { (x y : OpValue) → IsOp y → x.dot.site ≡ y.dot.site
        → x.dot.seq < y.dot.seq → IsTrue (in_past x y) }
    ensures concurrent { (x y : OpValue) → IsOp x → IsOp y → x.dot ≢ y.dot
        → Concurrent x y → x.dot.site ≢ y.dot.site }
{}

/// Concurrency goes both ways.
pub fn concurrency_is_symmetric()
    ensures { (x y : OpValue) → Concurrent x y → Concurrent y x }
{}

/// An operation that has another in its past, and knew all that the other knew, has the greater sum. So pasts have no
/// cycle.
#[tactic(auto, using(crate::proofs::PastLemmas::past_sum))]
pub fn sums_grow_with_the_past()
    ensures { (x y : OpValue) → IsOp x → length x.deps ≡ length y.deps
        → IsTrue (vector_covers y.deps x.deps) → IsTrue (in_past x y) → op_sum x < op_sum y }
{}
