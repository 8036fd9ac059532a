ghost use Rattle.std.specs.Prelude.{◌++◌, ◌∷◌, ℕ, List};
ghost use Rattle.td_disk.specs.Gated.{Stands};

/// No file has its front with a piece behind it, and without one.
pub fn a_piece_is_there_or_it_is_not()
    ensures { (front body file : List ℕ) → Stands front file → ¬ Stands (front ++ 1 ∷ body) file }
{}
