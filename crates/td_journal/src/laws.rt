// What the definitions come to, each law as the contract of a function with an empty body.
ghost use Rattle.std.specs.Prelude.{◌≡◌, ◌≤◌, ℕ, List, length, take};
ghost use Rattle.std.specs.List.{AllByRecursion};
ghost use Rattle.td_op.specs.declared.input.Input.{Input};
ghost use Rattle.td_machine.specs.History.{Family, history, IsConsistent};
ghost use Rattle.td_replica.specs.Replica.{ReplicaValue, IsReplica};
ghost use Rattle.td_input.specs.Spelling.{CanWrite};
ghost use Rattle.td_journal.specs.declared.format.Format.{Format};
ghost use Rattle.td_journal.specs.Journal.{inputs_of, IsJournal, IsJournalOfEither};
ghost use Rattle.td_journal.specs.Kept.{acknowledged_of, IsCounted};
ghost use Rattle.td_journal.specs.Reopened.{IsReopened, AreReleased, with_history};
ghost use Rattle.td_journal.specs.Whole.{IsJournalOf};

/// No file is two journals of a site, in whatever formats.
pub fn a_file_is_one_journal()
    ensures { (f g : Format) (site n : ℕ) (ks ls : List Input) (file : List ℕ) → AllByRecursion CanWrite ks
        → AllByRecursion CanWrite ls → IsJournal f site n ks file → IsJournal g site n ls file → (f ≡ g) × (ks ≡ ls) }
{}

/// A file is the journal of one replica. So what `save` writes of a replica is loaded as that replica, whole: its
/// machine, its history, and what the last step did.
pub fn what_is_saved_is_loaded()
    ensures { (site n : ℕ) (file : List ℕ) (a b : ReplicaValue) → IsJournalOf site n file a
        → IsJournalOf site n file b → a ≡ b }
{}

/// Reopening restores the history. A crash leaves a journal of the acknowledged inputs, or of these and those that were
/// staged; so who opens it has the first entries that the replica had, the acknowledged ones among them.
pub fn reopening_restores_the_history()
    ensures reopened { (f g : Format) (count : ℕ) (old new : ReplicaValue) (file : List ℕ)
        → AllByRecursion CanWrite (inputs_of old.entries) → AllByRecursion CanWrite (inputs_of new.entries)
        → new.machine.site ≡ old.machine.site → new.machine.size ≡ old.machine.size
        → IsJournalOfEither f old.machine.site old.machine.size (acknowledged_of count old) (inputs_of old.entries) file
        → IsJournal g new.machine.site new.machine.size (inputs_of new.entries) file → IsReopened count old new }
    ensures restored { (count : ℕ) (old new : ReplicaValue) → IsReplica old → IsReplica new
        → (o : IsReopened count old new) → new.entries ≡ take o.kept old.entries }
{}

/// Released messages survive: a replica that comes back has sent them, in their places.
pub fn released_messages_survive()
    ensures { (count released : ℕ) (old new : ReplicaValue) → IsReplica old → IsReplica new → IsReopened count old new
        → IsCounted old count released
        → (released ≤ length new.machine.sent) × (take released new.machine.sent ≡ take released old.machine.sent) }
{}

/// So a consistent family stays one, where others took no message of a site that it had not released, and the site
/// comes back after a crash.
pub fn families_survive_crashes()
    ensures { (family : Family) (count released : ℕ) (old new : ReplicaValue) → IsConsistent family
        → IsReplica old → IsReplica new → IsReopened count old new → IsCounted old count released
        → old.machine.size ≡ length family → history family old.machine.site ≡ old.entries
        → AreReleased family old.machine.site released
        → IsConsistent (with_history family old.machine.site new.entries) }
{}
