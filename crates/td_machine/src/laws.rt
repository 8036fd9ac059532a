// What the definitions come to, each law as the contract of a function with an empty body.
ghost use Rattle.std.specs.Prelude.{◌≡◌, ◌≢◌, ◌↔◌, ◌<◌, ◌≤◌, ◌+◌, ◌++◌, [], ◌∷◌, replicate, ℕ, List, true, false, length, IsTrue, Some, None};
ghost use Rattle.td_base.specs.Value.{DotValue, AtomIdValue};
ghost use Rattle.td_base.specs.declared.site.TheConstants.{MAX_SITE};
ghost use Rattle.td_base.specs.declared.dot.TheConstants.{MAX_SEQ};
ghost use Rattle.td_base.specs.Lists.{In, Successive};
ghost use Rattle.td_clock.specs.Vector.{vector_get, vector_has, vector_covers};
ghost use Rattle.td_op.specs.declared.input.Input.{Input};
ghost use Rattle.td_op.specs.declared.input.Input.TheVariants.{Take};
ghost use Rattle.td_op.specs.declared.message.Message.{Message};
ghost use Rattle.td_op.specs.Input.{IsInput};
ghost use Rattle.td_path.specs.declared.slot.Slot.{Slot};
ghost use Rattle.td_path.specs.declared.slot.Slot.TheVariants.{Root};
ghost use Rattle.td_op.specs.declared.body.Body.{Body};
ghost use Rattle.td_op.specs.declared.body.Body.TheVariants.{Insert};
ghost use Rattle.td_op.specs.Op.{OpValue, IsOp, named_atom};
ghost use Rattle.td_op.specs.Past.{in_past, op_sum};
ghost use Rattle.td_doc.specs.Document.{DocRow, IsDocument, live_atoms};
ghost use Rattle.td_doc.specs.Slots.{overlaps, is_known};
ghost use Rattle.td_machine.specs.Counts.{ops_of};
ghost use Rattle.td_op.specs.Insertion.{Inserts};
ghost use Rattle.td_machine.specs.Hold.{Hold};
ghost use Rattle.td_machine.specs.Decision.{Ballot, is_open};
ghost use Rattle.td_machine.specs.Log.{proposed_slot, decision};
ghost use Rattle.std.specs.Option.{is_some};
ghost use Rattle.td_doc.specs.Answers.{IsFresh, is_rooted};
ghost use Rattle.td_machine.specs.Making.{effect};
ghost use Rattle.td_machine.specs.Shown.{change_by, changed_by, change_between};
ghost use Rattle.td_machine.specs.Machine.{Machine, start, made, undecided};
ghost use Rattle.td_machine.specs.Step.{step, IsRefusal};
ghost use Rattle.td_machine.specs.Replay.{doc_of};
ghost use Rattle.td_machine.specs.Logged.{IsLogged};
ghost use Rattle.td_machine.specs.History.{History, Family, Moment, IsLegal, IsReached, after, IsConsistent, IsOpOf, MayCome, log_of, machine, machine_at, with_entry};

/// A reply that is a refusal leaves the machine as it was.
#[tactic(auto, using(crate::proofs::Refusals::kept))]
pub fn a_refusal_changes_nothing()
    ensures { (m : Machine) (input : Input) → IsRefusal (step m input).reply → (step m input).machine ≡ m }
{}

/// The machine at the start of a site is one that a legal history reaches, and so is the machine after each step. So
/// what the start has and each step keeps, each legal history has.
pub fn histories_go_on()
    ensures begins { (site size : ℕ) → 0 < site → site ≤ size → size ≤ MAX_SITE → IsReached (start site size) }
    ensures steps { (m : Machine) (input : Input) → IsReached m → IsInput input → IsReached (step m input).machine }
{}

/// After every legal history the vector counts the operations of each site in the log, the operations of a site are
/// its first ones in their order, and each operation stands in the log after all of its past (causal delivery; Lamport
/// 1978).
pub fn logs_are_causal()
    ensures counted { (m : Machine) → IsReached m → (site : ℕ) → 0 < site → site ≤ m.size
        → vector_get m.have site ≡ length (ops_of site m.log) }
    ensures numbered { (m : Machine) → IsReached m → (newer : List OpValue) (x : OpValue) (older : List OpValue)
        → m.log ≡ newer ++ x ∷ older → x.dot.seq ≡ length (ops_of x.dot.site older) + 1 }
    ensures past { (m : Machine) → IsReached m → (newer : List OpValue) (x : OpValue) (older : List OpValue)
        → m.log ≡ newer ++ x ∷ older → (d : DotValue) → 0 < d.site → 0 < d.seq → IsTrue (vector_has x.deps d)
        → (y : OpValue) × In y older × (y.dot ≡ d) }
{}

/// After every legal history an operation is in the log exactly where an entry made it, or took it: a `Take` of it that
/// was answered New, or a `Next` that was answered Taken, with it as the least ready operation of those that waited.
#[tactic(auto, using(crate::proofs::Logged::logged))]
pub fn logs_are_made_and_taken()
    ensures { (site size : ℕ) (entries : History) → IsLegal site size entries → (x : OpValue)
        → In x (after (start site size) entries).log ↔ IsLogged (start site size) entries x }
{}

/// No site is 0, and none is past the size: whatever a machine was given, the dots of its operations, and of those
/// that wait, are of its sites, and of those that wait none is its own.
pub fn operations_are_of_its_sites()
    ensures had { (m : Machine) → IsReached m → (x : OpValue) → In x m.log
        → (0 < x.dot.site) × (x.dot.site ≤ m.size) × (0 < x.dot.seq) }
    ensures waiting { (m : Machine) → IsReached m → (x : OpValue) → In x m.waiting
        → (0 < x.dot.site) × (x.dot.site ≤ m.size) × (0 < x.dot.seq) × (x.dot.site ≢ m.site) }
{}

/// A decision can always be made: the operations that a site made and its undecided proposals are together at most the
/// greatest number of an operation.
pub fn a_decision_has_room()
    ensures { (m : Machine) → IsReached m → made m + undecided m ≤ MAX_SEQ }
{}

/// The document of a machine obeys the rules of a document, whatever its site did and was given.
pub fn documents_obey_their_rules()
    ensures { (m : Machine) → IsReached m → IsDocument m.doc }
{}

/// And it is the one that the operations of its log leave.
pub fn a_document_is_that_of_its_log()
    ensures { (m : Machine) → IsReached m → m.doc ≡ doc_of m.log }
{}

/// What an operation does to the list of atoms that a document shows is the change that is told of it, where an insert
/// is a new one in a slot whose atom is a row.
#[tactic(auto, using(crate::proofs::Showing::shown_after))]
pub fn operations_change_the_atoms_shown()
    ensures { (log : List OpValue) (dot : DotValue) (body : Body) (rows : List DocRow) → IsDocument rows
        → ((slot : Slot) (run : List (List ℕ)) → body ≡ Insert slot run
        → IsFresh rows dot × IsTrue (is_rooted rows slot))
        → live_atoms (effect log dot body rows) ≡ changed_by (change_by dot body rows) (live_atoms rows) }
{}

/// What a step does to the list of atoms shown is the change that is told of the first operation that it makes or
/// takes, and nothing where it makes and takes none: the decision that may come second changes no atom shown.
pub fn steps_change_the_atoms_shown()
    ensures { (m : Machine) (input : Input) → IsReached m → IsInput input
        → live_atoms (step m input).machine.doc
        ≡ changed_by (change_between m (step m input).machine) (live_atoms m.doc) }
{}

/// The vector of a machine has all that was done to the rows of its document. So a vector that covers it has too, and a
/// vote need look at no row then.
pub fn documents_are_known()
    ensures { (m : Machine) → IsReached m → IsTrue (is_known m.doc Root m.have) }
{}

/// The holds of a machine never overlap, and the atom of a held slot is a row.
pub fn holds_keep_apart()
    ensures rooted { (m : Machine) → IsReached m → (h : Hold) → In h m.holds → is_rooted m.doc h.slot ≡ true }
    ensures apart { (m : Machine) → IsReached m
        → Successive (λ (g h : Hold). overlaps m.doc g.slot h.slot ≡ false) m.holds }
{}

/// Ballots are on proposals that the site made, and an open one is on a proposal of the log that is not decided there.
pub fn ballots_are_on_own_proposals()
    ensures own { (m : Machine) → IsReached m → (b : Ballot) → In b m.ballots
        → (b.proposal.site ≡ m.site) × IsTrue (vector_has m.have b.proposal) }
    ensures opened { (m : Machine) → IsReached m → (b : Ballot) → In b m.ballots → is_open b ≡ true
        → IsTrue (is_some (proposed_slot b.proposal m.log)) × (decision b.proposal m.log ≡ None) }
{}

/// Sites that have done nothing are a consistent family, and a consistent family with one more entry is one, where the
/// entry is of an input that its site may be given at its end. So whatever is given so, in whatever order, the
/// histories are a consistent family.
pub fn families_go_on()
    ensures begins { (size : ℕ) → 0 < size → size ≤ MAX_SITE → IsConsistent (replicate size []) }
    ensures steps { (family : Family) → IsConsistent family → (site : ℕ) → 0 < site → site ≤ length family
        → (input : Input) → IsInput input
        → ((message : Message) → input ≡ Take message → MayCome family site (machine family site) message)
        → IsConsistent (with_entry family site
        (record { input = input; reply = (step (machine family site) input).reply })) }
{}

/// At every moment of a consistent family the machine of a site is one that a legal history reaches, so all that is
/// said of these holds then, whatever comes later. What its log has then is the older part of what it has at the end.
/// And with an operation it has all of its past.
pub fn moments_are_reached()
    ensures reached { (family : Family) → IsConsistent family → (t : Moment family) → IsReached (machine_at family t) }
    ensures older { (family : Family) → IsConsistent family → (t : Moment family)
        → (newer : List OpValue) × (log_of family t.site ≡ newer ++ (machine_at family t).log) }
    ensures past { (family : Family) → IsConsistent family → (t : Moment family) → (x y : OpValue)
        → In x (machine_at family t).log → IsOpOf family y → IsTrue (in_past y x) → In y (machine_at family t).log }
{}

/// In a consistent family the past is an order: no operation is in its own past, what is in the past of y is in the
/// past of each z that has y in its past, and where x is in the past of y, y knew all that x knew and has the greater
/// sum.
pub fn pasts_are_in_order()
    ensures covers { (family : Family) → IsConsistent family → (x y : OpValue) → IsOpOf family x → IsOpOf family y
        → IsTrue (in_past x y) → IsTrue (vector_covers y.deps x.deps) }
    ensures sums { (family : Family) → IsConsistent family → (x y : OpValue) → IsOpOf family x → IsOpOf family y
        → IsTrue (in_past x y) → op_sum x < op_sum y }
    ensures irreflexive { (family : Family) → IsConsistent family → (x : OpValue) → IsOpOf family x
        → ¬ IsTrue (in_past x x) }
    ensures transitive { (family : Family) → IsConsistent family → (x y z : OpValue) → IsOpOf family x → IsOpOf family y
        → IsOpOf family z → IsTrue (in_past x y) → IsTrue (in_past y z) → IsTrue (in_past x z) }
{}

/// In a consistent family each operation is valid, no run is empty, and the atom that an operation names (that of its
/// slot, or its target) is one of an insert in its past.
pub fn operations_name_their_past()
    ensures valid { (family : Family) → IsConsistent family → (x : OpValue) → IsOpOf family x → IsOp x }
    ensures full { (family : Family) → IsConsistent family → (x : OpValue) → IsOpOf family x
        → (slot : Slot) (run : List (List ℕ)) → x.body ≡ Insert slot run → 0 < length run }
    ensures names { (family : Family) → IsConsistent family → (x : OpValue) → IsOpOf family x
        → (z : AtomIdValue) → named_atom x.body ≡ Some z
        → (y : OpValue) × IsOpOf family y × IsTrue (in_past y x) × Inserts y z }
{}
