// Worked examples, computed by the definitions themselves.
ghost use Rattle.std.specs.Prelude.{◌≡◌, [], ◌∷◌, false, true, codes};
ghost use Rattle.td_op.specs.declared.reply.Reply.TheVariants.{New, Later};
ghost use Rattle.td_machine.specs.Stage.{dot};
ghost use Rattle.td_law_replay.specs.Replay.{Reaches, AllDone};
ghost use Rattle.td_law_replay.specs.Rounds.{Course, IsLostAt, IsWrongAt, IsStuck};
ghost use Rattle.td_law_replay.specs.Ended.{VotesWereSent, IsReplayed};
ghost use Rattle.td_law_replay.specs.Accepted.{IsLiveTrace};
ghost use Rattle.td_law_replay.specs.Judging.{begin};
ghost use Rattle.td_law_replay.specs.Stage.{puts, takes, after_sites, text_after_sites};
ghost use Rattle.td_law_replay.specs.Examples.{crossing, crossing_sites, crossing_logs, crossing_texts, never_made, not_late, misnumbered, each_first, never_voted};

/// The premise of the laws can be met where no order in time is: site 1 takes an operation of site 2 before it makes
/// one that site 2 takes before it makes that. Both only wait there, so the replay comes to the end.
#[tactic(auto, using(crate::proofs::Crossing::crossing_replayed))]
pub fn no_order_in_time_is_asked()
    ensures replayed { IsReplayed crossing }
    ensures first { text_after_sites crossing crossing_sites 1 ≡ codes "abyx" }
    ensures second { text_after_sites crossing crossing_sites 2 ≡ codes "abyx" }
    ensures third { text_after_sites crossing crossing_sites 3 ≡ codes "abyx" }
{}

/// The premise of the laws on live families can be met too, with calls and a look.
#[tactic(auto, using(crate::proofs::CrossingLive::crossing_live))]
pub fn a_trace_of_a_live_family()
    ensures { IsLiveTrace crossing crossing_logs crossing_texts }
{}

/// The replay is stopped as missing at an operation that no entry made.
#[tactic(auto, using(crate::proofs::Stops::never_made_course, crate::proofs::Stops::never_made_lost))]
pub fn an_operation_that_no_entry_made()
    ensures course { Course never_made (after_sites never_made (1 ∷ [])) 2 true }
    ensures lost { IsLostAt never_made 2 (after_sites never_made (1 ∷ [])) (takes (dot 1 2) New) }
{}

/// The replay is stopped at the reply that an operation waits, where it is ready.
#[tactic(auto, using(crate::proofs::Stops::not_late_course, crate::proofs::Stops::not_late_wrong))]
pub fn an_operation_that_need_not_wait()
    ensures course { Course not_late (after_sites not_late (1 ∷ [])) 2 true }
    ensures wrong { IsWrongAt not_late 2 (after_sites not_late (1 ∷ [])) (takes (dot 1 1) Later) }
{}

/// The replay is stopped at the reply with the number of another operation.
#[tactic(auto, using(crate::proofs::Stops::misnumbered_course, crate::proofs::Stops::misnumbered_wrong))]
pub fn an_operation_with_a_wrong_number()
    ensures course { Course misnumbered (begin misnumbered) 1 false }
    ensures wrong { IsWrongAt misnumbered 1 (begin misnumbered) (puts (codes "a") (dot 1 2)) }
{}

/// The replay is stopped as missing where two sites use each other's operations before they make them.
#[tactic(auto, using(crate::proofs::Stops::each_first_stuck))]
pub fn operations_used_before_they_are_made()
    ensures { IsStuck each_first (begin each_first) }
{}

/// A vote stands whole in its entry, so the replay comes to the end; there it is found that its voter never sent it.
#[tactic(auto, using(crate::proofs::Stops::never_voted_reaches, crate::proofs::Stops::never_voted_over))]
pub fn a_vote_that_was_not_sent()
    ensures reaches { Reaches never_voted (after_sites never_voted (1 ∷ 1 ∷ 1 ∷ [])) }
    ensures over { AllDone never_voted (after_sites never_voted (1 ∷ 1 ∷ 1 ∷ [])) }
    ensures missing { ¬ VotesWereSent never_voted (after_sites never_voted (1 ∷ 1 ∷ 1 ∷ [])) }
{}
