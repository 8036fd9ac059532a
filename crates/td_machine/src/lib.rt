//! The machine: what a replica of a Treedoc buffer is and does, as definitions over lists, with their first laws. It
//! has no code: the crates that keep indexes, tallies and trees are proved against these words.
//!
//! Begin at `specs/Step.antt`, the machine step, and read from there: `specs/Request.antt` what an editor asks,
//! `specs/Taking.antt` what another site sends, `specs/Vote.antt` and `specs/Decision.antt` the two rules of a flatten
//! (two-phase commitment, Gray 1978), and `specs/History.antt` what sites can have made together.
#![tactic(auto)]

mod examples;
mod laws;

pub use examples::{
    a_commit_that_the_proposer_had_not_seen, a_commit_whose_slot_is_gone,
    a_family_with_a_flatten_is_consistent, a_hold_refuses_deletes_and_proposals,
    a_hold_refuses_edits, a_late_yes_is_a_repeat, a_run_split_by_two_sites, a_slot_used_again,
    a_slot_whose_atom_is_gone, an_edit_takes_precedence, deletes_of_one_atom,
    one_gap_for_two_sites, one_site_decides_at_once, operations_come_in_order,
    proposals_that_are_disjoint, proposals_that_overlap, typed_words_stay_whole,
    what_goes_beside_a_tombstone,
};
pub use laws::{
    a_decision_has_room, a_document_is_that_of_its_log, a_refusal_changes_nothing,
    ballots_are_on_own_proposals, documents_are_known, documents_obey_their_rules, families_go_on,
    histories_go_on, holds_keep_apart, logs_are_causal, logs_are_made_and_taken,
    moments_are_reached, operations_are_of_its_sites, operations_change_the_atoms_shown,
    operations_name_their_past, pasts_are_in_order, steps_change_the_atoms_shown,
};
