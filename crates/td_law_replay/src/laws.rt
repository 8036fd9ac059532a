// What the replay of a trace comes to; each law is the contract of a function with an empty body.
ghost use Rattle.std.specs.Prelude.{◌≡◌, ◌⊎◌, ◌↔◌, ◌<◌, ◌≤◌, ◌-◌, List, ℕ, Bool, Some, length};
ghost use Rattle.td_base.specs.Lists.{In};
ghost use Rattle.td_doc.specs.Document.{text_of};
ghost use Rattle.td_op.specs.Message.{IsOpValue};
ghost use Rattle.td_op.specs.Op.{OpValue};
ghost use Rattle.td_machine.specs.Machine.{Machine};
ghost use Rattle.td_machine.specs.History.{Family, IsReached, IsConsistent, IsOpOf, history};
ghost use Rattle.td_trace.specs.declared.entry.TraceEntry.{TraceEntry};
ghost use Rattle.td_trace.specs.Entries.{traced_family};
ghost use Rattle.td_trace.specs.Family.{text_past};
ghost use Rattle.td_law_replay.specs.Traced.{AreInRange};
ghost use Rattle.td_law_replay.specs.Counting.{made_deps};
ghost use Rattle.td_law_replay.specs.Judging.{SiteState, States};
ghost use Rattle.td_law_replay.specs.Replay.{Goes, Reaches, GoesOnTo, AllDone};
ghost use Rattle.td_law_replay.specs.Rounds.{Course, IsLostAt, IsWrongAt, IsStuck};
ghost use Rattle.td_law_replay.specs.Ended.{VotesWereSent, IsReplayOf, IsBehind, IsReplayed, IsConsistentTrace};

/// Entries can be replayed to the end exactly where they are those of a consistent family.
pub fn entries_are_replayed_exactly()
    ensures { (all : List (List TraceEntry)) → IsReplayed all ↔ IsConsistentTrace all }
{}

/// A consistent family never stops the replay of its entries: in whatever order the sites are taken, as long as an
/// entry is left, the next entry of some site can be done. For an operation that is waited for was made with all that
/// its maker had used, so what that maker waits for in its turn has the smaller sum (Lamport 1978).
#[tactic(auto, using(crate::proofs::Progress::never_stops))]
pub fn a_consistent_family_never_stops()
    ensures { (family : Family) → IsConsistent family → (states : States) → Reaches (traced_family family) states
        → AllDone (traced_family family) states ⊎ ((new : States) × Goes (traced_family family) states new) }
{}

/// Rounds are a replay, and in a consistent family nothing stops them: no entry is lost, no reply is wrong, and no
/// round passes in which nothing was done, with entries left.
#[tactic(auto, using(crate::proofs::Rounding::reaches_of))]
pub fn rounds_of_a_consistent_family_do_not_stop()
    ensures replay { (all : List (List TraceEntry)) (states : States) (site : ℕ) (moved : Bool)
        → Course all states site moved → Reaches all states }
    ensures lost { (family : Family) → IsConsistent family → (states : States)
        → Reaches (traced_family family) states → (site : ℕ) → 0 < site → site ≤ length family
        → (entry : TraceEntry) → ¬ IsLostAt (traced_family family) site states entry }
    ensures wrong { (family : Family) → IsConsistent family → (states : States)
        → Reaches (traced_family family) states → (site : ℕ) → 0 < site → site ≤ length family
        → (entry : TraceEntry) → ¬ IsWrongAt (traced_family family) site states entry }
    ensures stuck { (family : Family) → IsConsistent family → (states : States)
        → ¬ IsStuck (traced_family family) states }
{}

/// Where the replay is stopped, or a vote that was taken was not sent, no consistent family has these entries.
pub fn a_stop_shows_that_there_is_no_family()
    ensures lost { (all : List (List TraceEntry)) (states : States) → Reaches all states → (site : ℕ) → 0 < site
        → site ≤ length all → (entry : TraceEntry) → IsLostAt all site states entry → ¬ IsConsistentTrace all }
    ensures wrong { (all : List (List TraceEntry)) (states : States) → Reaches all states → (site : ℕ) → 0 < site
        → site ≤ length all → (entry : TraceEntry) → IsWrongAt all site states entry → ¬ IsConsistentTrace all }
    ensures stuck { (all : List (List TraceEntry)) (states : States) → IsStuck all states → ¬ IsConsistentTrace all }
    ensures unsent { (all : List (List TraceEntry)) (last : States) → Reaches all last → AllDone all last
        → ¬ VotesWereSent all last → ¬ IsConsistentTrace all }
{}

/// A replay that reaches the end shows a consistent family: its entries are these, the machines are those that it ends
/// with, and on the way each site was behind a front of its history.
pub fn a_replay_shows_a_consistent_family()
    ensures { (all : List (List TraceEntry)) → AreInRange all → (last : States) → Reaches all last → AllDone all last
        → VotesWereSent all last
        → (family : Family) × IsReplayOf family all last
        × ((states : States) → Reaches all states → GoesOnTo all states last → (site : ℕ) → 0 < site
        → site ≤ length all → IsBehind family site (states site)) }
{}

/// Whatever consistent family it is that has these entries: on the way each site is behind a front of its history; and
/// at the end the machines are those of the family, and each vote that was taken was sent.
#[tactic(auto, using(crate::proofs::Progress::reached_follows, crate::proofs::Shown::ends_as))]
pub fn its_replay_ends_with_its_machines()
    ensures follows { (family : Family) → IsConsistent family → (states : States)
        → Reaches (traced_family family) states → (site : ℕ) → 0 < site → site ≤ length family
        → IsBehind family site (states site) }
    ensures machines { (family : Family) → IsConsistent family → (last : States)
        → Reaches (traced_family family) last → AllDone (traced_family family) last
        → IsReplayOf family (traced_family family) last }
    ensures votes { (family : Family) → IsConsistent family → (last : States)
        → Reaches (traced_family family) last → AllDone (traced_family family) last
        → VotesWereSent (traced_family family) last }
{}

/// Where a site is behind a front of its history, its text is that behind so many entries.
pub fn texts_on_the_way()
    ensures { (family : Family) (site : ℕ) (state : SiteState) → IsBehind family site state
        → text_of state.machine.doc
        ≡ text_past family site (length (history family site) - length state.left) }
{}

/// Whether the replay reaches the end does not depend on the order in which the sites are taken.
pub fn the_order_of_sites_makes_no_difference()
    ensures { (all : List (List TraceEntry)) → AreInRange all → (one other : States) → Reaches all one
        → AllDone all one → VotesWereSent all one → Reaches all other
        → AllDone all other ⊎ ((new : States) × Goes all other new) }
{}

/// What the entries of a site say that it made, it made: of each operation of a consistent family they tell what it
/// depends on, whatever dots they print.
#[tactic(auto, using(crate::proofs::Made::made_deps_of))]
pub fn entries_tell_what_was_made()
    ensures { (family : Family) → IsConsistent family → (x : OpValue) → IsOpOf family x
        → made_deps (traced_family family) x.dot ≡ Some x.deps }
{}

/// The operations of a machine that a legal history reached are values of their type.
pub fn operations_are_values()
    ensures { (m : Machine) → IsReached m → (x : OpValue) → In x m.log → IsOpValue x }
{}
