ghost use Rattle.std.specs.Prelude.{◌≡◌, IsTrue};
ghost use Rattle.td_base.specs.Value.{DotValue};
ghost use Rattle.td_clock.specs.Vector.{vector_has};

use std::marker::Model;
use td_base::{Dot, MAX_SITE};
use td_clock::Vector;

/// The dots that were ever seen, as the vector that has them. No call takes memory.
#[derive(Clone, Copy, Debug)]
pub struct Seen {
    vector: Vector,
}

impl Model for Seen {
    ghost use Rattle.std.specs.Prelude.{◌≡◌, ℕ, List, length};
    ghost use Rattle.td_base.specs.declared.site.TheConstants.{MAX_SITE};

    ghost Value = { List ℕ };

    ghost view = { λ s. s.vector };

    ghost invariant = { λ s. length s.vector ≡ MAX_SITE };

    ghost inverse = { λ v. record { vector = v } };
}

impl Seen {
    /// Nothing was seen.
    pub fn new() -> Seen {
        Seen {
            vector: Vector::new(MAX_SITE),
        }
    }

    /// Sees a dot.
    pub fn add(&mut self, dot: Dot)
        ensures kept { (d : DotValue) → IsTrue (vector_has self.old d) → IsTrue (vector_has self.new d) }
        ensures added { IsTrue (vector_has self.new dot) }
    {
        if !self.vector.has(dot) {
            self.vector.set(dot.site, dot.seq);
        }
    }

    /// Whether the vector, of any size, has all dots that were seen.
    pub fn is_known(&self, v: &Vector) -> bool
        ensures { IsTrue result → (d : DotValue) → IsTrue (vector_has self.now d) → IsTrue (vector_has v.now d) }
    {
        let known = v.numbers();
        for (place, number) in self.vector.numbers().iter().enumerate() {
            if *number > 0 && (place >= known.len() || *number > known[place]) {
                return false;
            }
        }
        true
    }
}
