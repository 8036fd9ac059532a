// Words typed at once, computed by the definitions of machines.
ghost use Rattle.std.specs.Prelude.{◌≡◌, [], ◌∷◌, codes};
ghost use Rattle.td_base.specs.declared.bit.Bit.TheVariants.{Left, Right};
ghost use Rattle.td_path.specs.declared.slot.Slot.TheVariants.{Root, At};
ghost use Rattle.td_machine.specs.Stage.{atom_id, live_row, rows_after, text_after};
ghost use Rattle.td_law_interleaving.specs.Examples.{forwards, backwards, one_each, in_a_gap, knew_the_first, behind_what_was_flattened};

/// Words typed at once stay whole, whichever way each is typed.
pub fn words_typed_at_once_stay_whole()
    ensures forwards { text_after 2 forwards 1 ≡ codes "abcxyz" }
    ensures same_forwards { text_after 2 forwards 2 ≡ codes "abcxyz" }
    ensures backwards { text_after 2 backwards 1 ≡ codes "abcxyz" }
    ensures same_backwards { text_after 2 backwards 2 ≡ codes "abcxyz" }
    ensures one_each { text_after 2 one_each 1 ≡ codes "abcxyz" }
    ensures same_one_each { text_after 2 one_each 2 ≡ codes "abcxyz" }
    ensures gap { text_after 2 in_a_gap 1 ≡ codes "mabwxn" }
    ensures same_gap { text_after 2 in_a_gap 2 ≡ codes "mabwxn" }
{}

/// The limit: who knew the first letter may come between it and what was typed behind it at once.
pub fn who_knew_the_first_letter_may_come_between()
    ensures between { text_after 2 knew_the_first 1 ≡ codes "axb" }
    ensures same { text_after 2 knew_the_first 2 ≡ codes "axb" }
{}

/// Why no commit may have renamed the letter: c was moved to the right of b, so x, typed behind b, is put at c, which
/// does not hang on b.
pub fn a_flatten_may_part_what_is_typed_later()
    ensures text { text_after 1 behind_what_was_flattened 1 ≡ codes "abxc" }
    ensures rows { rows_after 1 behind_what_was_flattened 1 ≡
        live_row (atom_id 1 3 0) (At (atom_id 1 2 0) Left) (codes "a")
        ∷ live_row (atom_id 1 2 0) Root (codes "b")
        ∷ live_row (atom_id 1 6 0) (At (atom_id 1 1 0) Left) (codes "x")
        ∷ live_row (atom_id 1 1 0) (At (atom_id 1 2 0) Right) (codes "c")
        ∷ [] }
{}
