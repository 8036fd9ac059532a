// What the definitions come to, as the contract of a function with an empty body.
ghost use Rattle.std.specs.Prelude.{◌≡◌, ℕ, List, Ok};
ghost use Rattle.td_replica.specs.Replica.{ReplicaValue};
ghost use Rattle.td_session.specs.Saved.{IsLoaded, IsSaved};

/// What is saved is loaded: a session that is made of the journal of another, at its site, is that one, to the last
/// change.
pub fn what_is_saved_is_loaded()
    ensures { (old new : ReplicaValue) (journal : List ℕ) → IsSaved old (Ok journal)
        → IsLoaded old.machine.site old.machine.size journal (Ok new) → new ≡ old }
{}
