// What the definitions come to, each law as the contract of a function with an empty body.
ghost use Rattle.std.specs.Prelude.{◌≡◌, ◌<◌, ℕ, List, Bool, true, false, map, if◌then◌else◌};
ghost use Rattle.std.specs.Int.{bit_at};
ghost use Rattle.std.specs.List.{concat};
ghost use Rattle.td_base.specs.Lists.{In};
ghost use Rattle.td_base.specs.Value.{AtomIdValue};
ghost use Rattle.td_doc.specs.Document.{DocRow, IsDocument, text_of};
ghost use Rattle.td_doc.specs.Flatten.{flatten};
ghost use Rattle.td_path.specs.declared.slot.Slot.{Slot};
ghost use Rattle.td_marks.specs.Laws.{SameOps, NeighboursDiffer};
ghost use Rattle.td_marks.specs.Mark.{MarkOpValue, adds, has_name, names_of, removes};
ghost use Rattle.td_marks.specs.Text.{joined, marked_text};
ghost use Rattle.td_marks.specs.declared.mark_op.TheConstants.{NAMES};
ghost use Rattle.td_marks.specs.declared.piece.Piece.{Piece as PieceValue};

/// Adds win: an add that no removal had seen gives the name, whatever came when.
pub fn an_add_not_seen_stays()
    ensures { (ops : List MarkOpValue) (x : AtomIdValue) (m : ℕ) (a : MarkOpValue) → In a ops → adds x m a ≡ true
        → ((r : MarkOpValue) → In r ops → removes x m a.dot r ≡ false) → has_name ops x m ≡ true }
{}

/// A removal that had seen every add of the name takes it away.
pub fn a_removal_takes_what_it_had_seen()
    ensures { (ops : List MarkOpValue) (x : AtomIdValue) (m : ℕ) (r : MarkOpValue) → In r ops
        → ((a : MarkOpValue) → In a ops → adds x m a ≡ true → removes x m a.dot r ≡ true)
        → has_name ops x m ≡ false }
{}

/// Bit m of the names is set exactly where the atom has the name m.
pub fn each_bit_tells_a_name()
    ensures { (ops : List MarkOpValue) (x : AtomIdValue) (m : ℕ) → m < NAMES
        → bit_at (names_of ops x) m ≡ (if has_name ops x m then 1 else 0) }
{}

/// Names, and the marked text, are those of the set of operations, in whatever order these came.
pub fn marks_are_of_a_set()
    ensures names { (ops others : List MarkOpValue) → SameOps ops others
        → (x : AtomIdValue) → names_of ops x ≡ names_of others x }
    ensures text { (ops others : List MarkOpValue) → SameOps ops others
        → (rows : List DocRow) → marked_text ops rows ≡ marked_text others rows }
{}

/// Commits keep the marks: a flatten changes no marked text.
pub fn a_flatten_keeps_the_marks()
    ensures { (ops : List MarkOpValue) (rows : List DocRow) (slot : Slot) → IsDocument rows
        → marked_text ops (flatten slot rows) ≡ marked_text ops rows }
{}

/// The pieces of a marked text are its text, cut where the names change and nowhere else.
pub fn pieces_are_the_longest()
    ensures text { (ops : List MarkOpValue) (rows : List DocRow)
        → concat (map (λ (p : PieceValue). p.text) (marked_text ops rows)) ≡ text_of rows }
    ensures longest { (ops : List MarkOpValue) (rows : List DocRow) → NeighboursDiffer (marked_text ops rows) }
{}
