// What the definitions of vectors mean, each law as the contract of a function with an empty body.
ghost use Rattle.std.specs.Prelude.{◌≡◌, ◌≢◌, ◌↔◌, ◌<◌, ◌≤◌, ◌+◌, ℕ, List, length, IsTrue, ◌||◌, sum};
ghost use Rattle.td_base.specs.Value.{DotValue};
ghost use Rattle.td_clock.specs.Vector.{vector_get, vector_has, vector_covers};
ghost use Rattle.td_clock.specs.Vector.{vector_join, vector_bump};

use crate::vector::Vector;

/// A vector has the dots up to its number for their site, and none of a site past its size.
pub fn has_is_up_to_the_number()
    ensures has { (v : List ℕ) (d : DotValue) → IsTrue (vector_has v d) ↔ (d.seq ≤ vector_get v d.site) }
    ensures past { (v : List ℕ) (d : DotValue)
        → length v < d.site → 1 ≤ d.seq → ¬ IsTrue (vector_has v d) }
{}

/// Vectors are partly ordered by covering.
#[tactic(auto, using(crate::proofs::VectorLemmas::covering))]
pub fn covers_is_an_order()
    ensures reflexive { (v : List ℕ) → IsTrue (vector_covers v v) }
    ensures antisymmetric { (v w : List ℕ)
        → IsTrue (vector_covers v w) → IsTrue (vector_covers w v) → v ≡ w }
    ensures transitive { (u v w : List ℕ)
        → IsTrue (vector_covers u v) → IsTrue (vector_covers v w) → IsTrue (vector_covers u w) }
{}

/// One vector covers another of its size exactly where it has all its dots.
#[tactic(auto, using(crate::proofs::VectorLemmas::dots))]
pub fn covers_is_having_the_dots()
    ensures covers { (v w : List ℕ) → IsTrue (vector_covers v w)
        → (d : DotValue) → IsTrue (vector_has w d) → IsTrue (vector_has v d) }
    ensures has { (v w : List ℕ) → length w ≤ length v
        → ((d : DotValue) → IsTrue (vector_has w d) → IsTrue (vector_has v d))
        → IsTrue (vector_covers v w) }
{}

/// The join of two vectors is the least vector that covers both, and has the dots of both.
#[tactic(auto, using(crate::proofs::VectorLemmas::joining))]
pub fn join_is_the_least_cover()
    ensures first { (v w : List ℕ) → IsTrue (vector_covers (vector_join v w) v) }
    ensures second { (v w : List ℕ) → IsTrue (vector_covers (vector_join v w) w) }
    ensures least { (u v w : List ℕ) → IsTrue (vector_covers u v) → IsTrue (vector_covers u w)
        → IsTrue (vector_covers u (vector_join v w)) }
    ensures dots { (v w : List ℕ) (d : DotValue)
        → vector_has (vector_join v w) d ≡ (vector_has v d || vector_has w d) }
{}

/// A bump raises the number of its site by one, and no other.
pub fn bumps_raise_one_place()
    ensures raised { (v : List ℕ) (site : ℕ) → 1 ≤ site → site ≤ length v
        → vector_get (vector_bump v site) site ≡ vector_get v site + 1 }
    ensures others { (v : List ℕ) (site other : ℕ) → 1 ≤ site → 1 ≤ other → other ≢ site
        → vector_get (vector_bump v site) other ≡ vector_get v other }
    ensures size { (v : List ℕ) (site : ℕ) → length (vector_bump v site) ≡ length v }
{}

/// A vector that covers another of its size and differs from it has the greater sum.
#[tactic(auto, using(crate::proofs::VectorLemmas::sum_grows))]
pub fn sums_grow()
    ensures { (v w : List ℕ)
        → length v ≡ length w → IsTrue (vector_covers v w) → v ≢ w → sum w < sum v }
{}

/// Vectors compare as equal exactly where their numbers are the same.
pub fn vectors_are_compared_by_their_numbers()
    ensures { (v w : List ℕ) → IsTrue (⟦<Vector as PartialEq>⟧.eq v w) ↔ (v ≡ w) }
{}
