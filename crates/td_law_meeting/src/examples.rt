// Worked examples, computed by the definitions themselves.
ghost use Rattle.std.specs.Prelude.{◌≡◌, [], ◌∷◌, true, false};
ghost use Rattle.td_law_meeting.specs.Thin.{thin, messages_to};
ghost use Rattle.td_law_meeting.specs.Peers.{sent_to};
ghost use Rattle.td_law_meeting.specs.Accounts.{AreSettled, family_of};
ghost use Rattle.td_law_meeting.specs.Examples.{vote_on, five, lossy, lossless, first_insert, its_packet};
ghost use Rattle.td_law_meeting.specs.Examples.{one_letter, its_maker, its_taker};
ghost use Rattle.td_machine.specs.Stage.{family_after};
ghost use Rattle.td_wire.specs.Spelling.{SpellsIn};

/// Of five messages the second and the fourth are lost, and the third comes twice.
pub fn what_is_lost_and_what_comes_twice()
    ensures lossy { thin lossy 1 five ≡ vote_on 1 1 ∷ vote_on 1 3 ∷ vote_on 1 3 ∷ vote_on 1 5 ∷ [] }
    ensures lossless { thin lossless 1 five ≡ five }
{}

/// An operation is for every other site, a vote for the proposer alone.
pub fn votes_go_to_the_proposer()
    ensures { messages_to 2 (first_insert ∷ vote_on 1 1 ∷ vote_on 2 1 ∷ []) ≡ first_insert ∷ vote_on 2 1 ∷ [] }
{}

/// With two messages dealt with the third is sent none, one or two times.
pub fn a_message_is_sent_once_of_two_times()
    ensures not_yet { sent_to lossy 1 2 false five ≡ vote_on 1 1 ∷ [] }
    ensures once { sent_to lossy 1 2 true five ≡ vote_on 1 1 ∷ vote_on 1 3 ∷ [] }
    ensures twice { sent_to lossy 1 3 false five ≡ vote_on 1 1 ∷ vote_on 1 3 ∷ vote_on 1 3 ∷ [] }
{}

/// A worker that made an insert and one that took its packet are settled.
pub fn two_workers_are_settled()
    ensures packet { SpellsIn first_insert its_packet }
    ensures settled { AreSettled (its_maker ∷ its_taker ∷ []) }
    ensures family { family_of (its_maker ∷ its_taker ∷ []) ≡ family_after 2 one_letter }
{}
