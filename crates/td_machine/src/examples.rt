// Worked examples, computed by the definitions themselves.
ghost use Rattle.std.specs.Prelude.{◌≡◌, [], ◌∷◌, true, false, Some, codes};
ghost use Rattle.td_base.specs.declared.bit.Bit.TheVariants.{Left, Right};
ghost use Rattle.td_path.specs.declared.slot.Slot.TheVariants.{Root, At};
ghost use Rattle.td_op.specs.declared.reply.Reply.TheVariants.{Made, Cancelled, Held, NotOpen, New, Later, Repeat, Taken, Idle};
ghost use Rattle.td_machine.specs.History.{IsConsistent};
ghost use Rattle.td_machine.specs.Stage.{dot, atom_id, live_row, tombstone, vote_yes, vote_no, replies, text_after, rows_after, votes_after, decision_after, family_after};
ghost use Rattle.td_machine.specs.Examples.{one_gap, reordered, three_typists, both_delete, beside_a_tombstone, flatten_alone, held, edit_first, overlapping, disjoint, used_again, late_yes, unseen_commit, split_paste, with_a_flatten, held_at_both, untold_slot, untold_commit};

/// Atoms put into one gap at once stand by their dots.
pub fn one_gap_for_two_sites()
    ensures text { text_after 2 one_gap 2 ≡ codes "aXYc" }
    ensures rows { rows_after 2 one_gap 1 ≡
        live_row (atom_id 1 1 0) Root (codes "a")
        ∷ live_row (atom_id 1 3 0) (At (atom_id 1 2 0) Left) (codes "X")
        ∷ live_row (atom_id 2 1 0) (At (atom_id 1 2 0) Left) (codes "Y")
        ∷ live_row (atom_id 1 2 0) (At (atom_id 1 1 0) Right) (codes "c")
        ∷ [] }
{}

/// An operation waits until its past is there.
pub fn operations_come_in_order()
    ensures replies { replies 2 reordered ≡
        Made (dot 1 1) ∷ Made (dot 1 2) ∷ Later ∷ Repeat ∷ New ∷ Taken (dot 1 2) ∷ Idle ∷ [] }
    ensures text { text_after 2 reordered 2 ≡ codes "ab" }
{}

/// What sites type at once does not interleave.
pub fn typed_words_stay_whole()
    ensures text { text_after 3 three_typists 2 ≡ codes "abcdef" }
{}

/// A tombstone keeps the dots of all deletes that named it.
pub fn deletes_of_one_atom()
    ensures text { text_after 2 both_delete 1 ≡ codes "b" }
    ensures rows { rows_after 2 both_delete 2 ≡
        tombstone (atom_id 1 1 0) Root (codes "a") (dot 1 3 ∷ dot 2 1 ∷ [])
        ∷ live_row (atom_id 1 2 0) (At (atom_id 1 1 0) Right) (codes "b")
        ∷ [] }
{}

/// A tombstone keeps its place, and what is put after a live atom goes before it.
pub fn what_goes_beside_a_tombstone()
    ensures text { text_after 1 beside_a_tombstone 1 ≡ codes "axc" }
    ensures rows { rows_after 1 beside_a_tombstone 1 ≡
        live_row (atom_id 1 1 0) Root (codes "a")
        ∷ live_row (atom_id 1 5 0) (At (atom_id 1 2 0) Left) (codes "x")
        ∷ tombstone (atom_id 1 2 0) (At (atom_id 1 1 0) Right) (codes "b") (dot 1 4 ∷ [])
        ∷ live_row (atom_id 1 3 0) (At (atom_id 1 2 0) Right) (codes "c")
        ∷ [] }
{}

/// With one site the own Yes is the last, and the rows become an array.
pub fn one_site_decides_at_once()
    ensures replies { replies 1 flatten_alone ≡
        Made (dot 1 1) ∷ Made (dot 1 2) ∷ Made (dot 1 3) ∷ Made (dot 1 4) ∷ Made (dot 1 5) ∷ [] }
    ensures decision { decision_after 1 flatten_alone 1 (dot 1 5) ≡ Some true }
    ensures rows { rows_after 1 flatten_alone 1 ≡
        live_row (atom_id 1 1 0) (At (atom_id 1 2 0) Left) (codes "a")
        ∷ live_row (atom_id 1 2 0) (At (atom_id 1 3 0) Left) (codes "b")
        ∷ live_row (atom_id 1 3 0) Root (codes "c")
        ∷ live_row (atom_id 1 4 0) (At (atom_id 1 3 0) Right) (codes "d")
        ∷ [] }
{}

/// A proposal holds its slot at each site that said Yes, until the decision comes there.
pub fn a_hold_refuses_edits()
    ensures replies { replies 2 held ≡
        Made (dot 1 1) ∷ Made (dot 1 2) ∷ Made (dot 1 3) ∷ Held (dot 1 3) ∷ New ∷ New ∷ New ∷ Held (dot 1 3) ∷ New ∷
        Made (dot 1 5) ∷ Held (dot 1 3) ∷ New ∷ New ∷ [] }
    ensures votes { votes_after 2 held ≡ vote_yes 2 (dot 1 3) ∷ [] }
    ensures text { text_after 2 held 2 ≡ codes "xab" }
{}

/// A concurrent edit of the slot makes the vote No.
pub fn an_edit_takes_precedence()
    ensures votes { votes_after 2 edit_first ≡ vote_no 2 (dot 1 3) ∷ [] }
    ensures decision { decision_after 2 edit_first 2 (dot 1 3) ≡ Some false }
    ensures rows { rows_after 2 edit_first 1 ≡
        live_row (atom_id 1 1 0) Root (codes "a")
        ∷ live_row (atom_id 1 2 0) (At (atom_id 1 1 0) Right) (codes "b")
        ∷ live_row (atom_id 2 1 0) (At (atom_id 1 2 0) Right) (codes "c")
        ∷ [] }
{}

/// Of two proposals at once that overlap, both fall.
pub fn proposals_that_overlap()
    ensures votes { votes_after 2 overlapping ≡ vote_no 1 (dot 2 1) ∷ vote_no 2 (dot 1 4) ∷ [] }
    ensures first { decision_after 2 overlapping 2 (dot 1 4) ≡ Some false }
    ensures second { decision_after 2 overlapping 1 (dot 2 1) ≡ Some false }
{}

/// Of two proposals at once that do not overlap, both are committed.
pub fn proposals_that_are_disjoint()
    ensures votes { votes_after 2 disjoint ≡ vote_yes 1 (dot 2 1) ∷ vote_yes 2 (dot 1 4) ∷ [] }
    ensures first { decision_after 2 disjoint 2 (dot 1 4) ≡ Some true }
    ensures second { decision_after 2 disjoint 1 (dot 2 1) ≡ Some true }
{}

/// After a flatten without its tombstone a slot is empty, and is allocated again.
pub fn a_slot_used_again()
    ensures text { text_after 2 used_again 2 ≡ codes "xpq" }
    ensures rows { rows_after 2 used_again 1 ≡
        live_row (atom_id 1 1 0) Root (codes "x")
        ∷ live_row (atom_id 1 6 0) (At (atom_id 1 1 0) Right) (codes "p")
        ∷ live_row (atom_id 2 1 0) (At (atom_id 1 1 0) Right) (codes "q")
        ∷ [] }
{}

/// A vote after the decision changes nothing, and a decided proposal can not be given up.
pub fn a_late_yes_is_a_repeat()
    ensures replies { replies 2 late_yes ≡
        Made (dot 1 1) ∷ New ∷ Made (dot 1 2) ∷ New ∷ Cancelled ∷ Repeat ∷ Held (dot 1 2) ∷ New ∷ Made (dot 2 1) ∷
        NotOpen (dot 1 2) ∷ [] }
{}

/// A commit that a proposal does not know, and that overlaps it, makes the vote No.
pub fn a_commit_that_the_proposer_had_not_seen()
    ensures votes { votes_after 3 unseen_commit ≡
        vote_yes 2 (dot 1 5) ∷ vote_yes 3 (dot 1 5) ∷ vote_no 3 (dot 2 1) ∷ [] }
    ensures decision { decision_after 3 unseen_commit 3 (dot 1 5) ≡ Some true }
{}

/// A run stands as its array, and what others put between its atoms parts it there.
pub fn a_run_split_by_two_sites()
    ensures text { text_after 2 split_paste 2 ≡ codes "azxybcd" }
    ensures rows { rows_after 2 split_paste 1 ≡
        live_row (atom_id 1 1 0) (At (atom_id 1 1 1) Left) (codes "a")
        ∷ live_row (atom_id 1 2 0) (At (atom_id 1 1 0) Right) (codes "z")
        ∷ live_row (atom_id 2 1 0) (At (atom_id 2 1 1) Left) (codes "x")
        ∷ live_row (atom_id 2 1 1) (At (atom_id 1 1 0) Right) (codes "y")
        ∷ live_row (atom_id 1 1 1) (At (atom_id 1 1 2) Left) (codes "b")
        ∷ live_row (atom_id 1 1 2) Root (codes "c")
        ∷ live_row (atom_id 1 1 3) (At (atom_id 1 1 2) Right) (codes "d")
        ∷ [] }
{}

/// The premise of the laws on families can be met, with a commit, messages in another order, one that comes twice and
/// one that never comes: these histories are a consistent family.
pub fn a_family_with_a_flatten_is_consistent()
    ensures consistent { IsConsistent (family_after 2 with_a_flatten) }
    ensures replies { replies 2 with_a_flatten ≡
        Made (dot 1 1) ∷ Made (dot 1 2) ∷ Later ∷ New ∷ Taken (dot 1 2) ∷ Repeat ∷ Made (dot 1 3) ∷ New ∷
        Made (dot 1 4) ∷ New ∷ New ∷ Held (dot 1 4) ∷ New ∷ Made (dot 2 1) ∷ Made (dot 1 6) ∷ New ∷ [] }
    ensures first { decision_after 2 with_a_flatten 1 (dot 1 4) ≡ Some true }
    ensures second { decision_after 2 with_a_flatten 2 (dot 1 4) ≡ Some true }
    ensures lost { text_after 2 with_a_flatten 1 ≡ codes "bd" }
    ensures text { text_after 2 with_a_flatten 2 ≡ codes "bdc" }
{}

/// A hold refuses deletes and proposals too, not inserts alone.
pub fn a_hold_refuses_deletes_and_proposals()
    ensures replies { replies 2 held_at_both ≡
        Made (dot 1 1) ∷ Made (dot 1 2) ∷ New ∷ New ∷ Held (dot 1 2) ∷ Held (dot 1 2) ∷ [] }
{}

/// A proposal whose atom is gone gets a No.
pub fn a_slot_whose_atom_is_gone()
    ensures votes { votes_after 3 untold_slot ≡ vote_yes 2 (dot 1 4) ∷ vote_yes 3 (dot 1 4) ∷ vote_no 3 (dot 2 1) ∷ [] }
    ensures decision { decision_after 3 untold_slot 3 (dot 1 4) ≡ Some true }
{}

/// A commit that the proposer had not seen makes the vote No also where its own slot is gone.
pub fn a_commit_whose_slot_is_gone()
    ensures votes { votes_after 3 untold_commit ≡ vote_yes 2 (dot 1 4) ∷ vote_yes 3 (dot 1 4) ∷ vote_yes 2 (dot 1 7)
        ∷ vote_yes 3 (dot 1 7) ∷ vote_no 3 (dot 2 1) ∷ [] }
    ensures first { decision_after 3 untold_commit 3 (dot 1 4) ≡ Some true }
    ensures second { decision_after 3 untold_commit 3 (dot 1 7) ≡ Some true }
{}
