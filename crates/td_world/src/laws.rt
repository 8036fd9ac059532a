// What worlds come to, each law as the contract of a function with an empty body.
ghost use Rattle.std.specs.Prelude.{◌≡◌, ◌≢◌, ◌↔◌, ◌<◌, ◌≤◌, ◌+◌, ◌*◌, ℕ, [], true, false, length, Some, None};
ghost use Rattle.td_op.specs.declared.message.Message.{Message};
ghost use Rattle.td_base.specs.Lists.{kth};
ghost use Rattle.td_machine.specs.History.{IsAddressed};
ghost use Rattle.td_op.specs.Message.{sender, is_for};
ghost use Rattle.td_replica.specs.declared.given.Given.TheVariants.{NoSuch, Stray};
ghost use Rattle.td_world.specs.World.{WorldValue, Move, IsWorld, IsFit, size, machine_of, moved, moved_all};
ghost use Rattle.td_replica.specs.Replica.{has_ready};
ghost use Rattle.td_world.specs.Calls.{nexts_after, numbered_given, pass, passes, IsSettled};
ghost use Rattle.td_world.specs.Promises.{NobodyReady, SameVectors, AllDecided, IsPromised, AtomsAreShown, TextsAreShown};

/// A move of which the input may be given to its site leads from a world to a world.
pub fn worlds_go_on()
    ensures { (w : WorldValue) (move : Move) → IsWorld w → IsFit w move → IsWorld (moved move w) }
{}

/// A message is for a site exactly where another site sent it and it is addressed to this one.
#[tactic(auto, using(crate::proofs::Causes::for_is))]
pub fn messages_are_for_others()
    ensures { (site : ℕ) (message : Message)
        → is_for site message ≡ true ↔ (sender message ≢ site) × IsAddressed site message }
{}

/// `give` answers NoSuch exactly where no message has the number, and Stray exactly where it is not for the site.
#[tactic(auto, using(crate::proofs::Causes::no_such_is, crate::proofs::Causes::stray_is))]
pub fn causes_of_give()
    ensures no_such { (site number : ℕ) (w : WorldValue)
        → numbered_given site number w ≡ NoSuch ↔ (kth number w.sent ≡ None) }
    ensures stray { (site number : ℕ) (w : WorldValue)
        → numbered_given site number w ≡ Stray
        ↔ ((message : Message) × (kth number w.sent ≡ Some message) × (is_for site message ≡ false)) }
{}

/// As many steps as operations wait are enough: then none of them is ready.
pub fn nothing_ready_is_left()
    ensures { (w : WorldValue) (site : ℕ) → 0 < site → site ≤ size w
        → has_ready (machine_of (moved_all (nexts_after site w) w) site) ≡ false }
{}

/// What `settle` leaves is one world, and one number is answered, however many passes are looked at.
pub fn settled_worlds_are_one()
    ensures { (old new other : WorldValue) (given more : ℕ) → IsSettled old new given → IsSettled old other more
        → (new ≡ other) × (given ≡ more) }
{}

/// Passes end. Where nobody is ready, three leave nothing to give: in the first all operations go out, and so all votes
/// are made; in the second all decisions are made; and in the third they are taken. Where an operation that waits is
/// ready at some sites, each of these may bring two more, as it is taken only with the next message that its site is
/// given.
#[tactic(auto, using(crate::proofs::Ending::three_enough, crate::proofs::Ending::always_enough))]
pub fn passes_end()
    ensures three { (w : WorldValue) → IsWorld w → NobodyReady w → pass (moved_all (passes 3 w) w) ≡ [] }
    ensures always { (w : WorldValue) → IsWorld w → pass (moved_all (passes (2 * size w + 3) w) w) ≡ [] }
{}

/// Where nobody is ready and a pass gives nothing, all sites have the same operations, and each proposal is decided.
#[tactic(auto, using(crate::proofs::Passes::settled_vectors, crate::proofs::Passes::settled_decided))]
pub fn settled_worlds_agree()
    ensures vectors { (w : WorldValue) → IsWorld w → NobodyReady w → pass w ≡ [] → SameVectors w }
    ensures decided { (w : WorldValue) → IsWorld w → NobodyReady w → pass w ≡ [] → AllDecided w }
{}

/// Every world keeps the six promises, at every moment up to now; so now each site shows what its operations show.
#[tactic(auto, using(crate::proofs::Promised::promised, crate::proofs::Promised::atoms_shown, crate::proofs::Promised::shown))]
pub fn worlds_keep_the_promises()
    ensures promises { (w : WorldValue) → IsWorld w → IsPromised w }
    ensures atoms { (w : WorldValue) → IsWorld w → AtomsAreShown w }
    ensures texts { (w : WorldValue) → IsWorld w → TextsAreShown w }
{}
