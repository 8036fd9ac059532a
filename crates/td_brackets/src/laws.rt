// What the definitions of brackets come to.
ghost use Rattle.std.specs.Prelude.{◌≡◌, ◌≢◌, ◌+◌, ◌/◌, ◌++◌, ℕ, List, [], ◌∷◌, length, map, Some, IsNone, IsTrue};
ghost use Rattle.std.specs.declared.cmp.Ordering.TheVariants.{Less};
ghost use Rattle.td_base.specs.Lists.{In, Successive};
ghost use Rattle.td_base.specs.Value.{DotValue, AtomIdValue};
ghost use Rattle.td_base.specs.Order.{id_cmp};
ghost use Rattle.td_brackets.specs.Brackets.{Token, Open, Atom, Close, Leaf, Entry, Level, atom_of, numbers_of, slot_of, rows_from, rows_of, IsWord, IsBrackets};
ghost use Rattle.td_brackets.specs.Laws.{Sides, Standing, AllAfter, exploded, leaf_word, live_numbers, ExplodedTo};
ghost use Rattle.td_doc.specs.Document.{DocRow, row_id, find_row, live_rows, IsDocument};
ghost use Rattle.td_doc.specs.Array.{named, array};
ghost use Rattle.td_base.specs.RunAtoms.{run_atoms};
ghost use Rattle.td_doc.specs.Slots.{slot_path};
ghost use Rattle.td_doc.specs.Answers.{is_rooted};
ghost use Rattle.td_doc.specs.Insertion.{insert_atom, insert_run};
ghost use Rattle.td_path.specs.declared.slot.Slot.{Slot};

/// The brackets of a row part the tokens into words, which mean the rows of its slots.
#[tactic(auto, using(crate::proofs::SidesOf::sides_of))]
pub fn brackets_part_the_tokens()
    ensures { (table : ℕ → Entry) (tokens : List Token) (x : ℕ) → IsBrackets table tokens → In (Open x) tokens
        → Sides table tokens x }
{}

/// A leaf may be exploded one step, and the rows are as before.
#[tactic(auto, using(crate::proofs::Leaves::explode))]
pub fn exploding_changes_no_row()
    ensures { (table : ℕ → Entry) (stack : List Level) (front back : List Token) (before : List ℕ)
        (m : ℕ) (after : List ℕ)
        → length before ≡ length (before ++ m ∷ after) / 2 → (table m).deletes ≡ []
        → rows_from table stack (front ++ Leaf (before ++ m ∷ after) ∷ back)
        ≡ rows_from table stack (front ++ (exploded before m after ++ back)) }
{}

/// In the walk over siblings a leaf goes by its middle row: over it where that is smaller, and else all behind stands
/// after.
#[tactic(auto, using(crate::proofs::Leaves::over_leaf, crate::proofs::Leaves::at_leaf))]
pub fn a_walk_passes_leaves_by_their_top()
    ensures over { (table : ℕ → Entry) (tokens : List Token) (stack : List Level) (id : AtomIdValue) (before : List ℕ)
        (m : ℕ) (after : List ℕ)
        → length before ≡ length (before ++ m ∷ after) / 2 → (table m).deletes ≡ [] → (front rest : List Token)
        → Standing table tokens stack id front (Leaf (before ++ m ∷ after) ∷ rest) → id_cmp (table m).id id ≡ Less
        → Standing table tokens stack id (front ++ Leaf (before ++ m ∷ after) ∷ []) rest }
    ensures at { (table : ℕ → Entry) (tokens : List Token) (stack : List Level) (id : AtomIdValue) (before : List ℕ)
        (m : ℕ) (after : List ℕ)
        → length before ≡ length (before ++ m ∷ after) / 2 → (table m).deletes ≡ [] → (front rest : List Token)
        → IsBrackets table tokens
        → Standing table tokens stack id front (Leaf (before ++ m ∷ after) ∷ rest) → id_cmp id (table m).id ≡ Less
        → AllAfter table stack id (Leaf (before ++ m ∷ after) ∷ rest) }
{}

/// A run of new rows, put as one leaf at the place of its middle row, is the insertion of the run.
pub fn a_run_may_be_put_as_one_leaf()
    ensures { (table : ℕ → Entry) (tokens : List Token) (stack : List Level) (before : List ℕ) (m : ℕ) (after : List ℕ)
        → length before ≡ length (before ++ m ∷ after) / 2 → (table m).deletes ≡ [] → (front back : List Token)
        → IsDocument (rows_of table tokens) → ((s : DocRow) → In s (rows_of table tokens) → row_id s ≢ (table m).id)
        → Standing table tokens stack (table m).id front back → AllAfter table stack (table m).id back
        → (slot : Slot) (dot : DotValue) (run : List (List ℕ))
        → slot_path (rows_of table tokens) slot ≡ Some (slot_of table stack)
        → map (atom_of table) (before ++ m ∷ after) ≡ run_atoms dot run
        → rows_of table (front ++ Leaf (before ++ m ∷ after) ∷ back) ≡ insert_run slot dot run (rows_of table tokens) }
{}

/// A leaf exploded one step leaves brackets.
pub fn exploding_leaves_brackets()
    ensures { (table : ℕ → Entry) (front back : List Token) (before : List ℕ) (m : ℕ) (after : List ℕ)
        → length before ≡ length (before ++ m ∷ after) / 2
        → IsBrackets table (front ++ Leaf (before ++ m ∷ after) ∷ back)
        → IsBrackets table (front ++ (exploded before m after ++ back)) }
{}

/// A leaf may be exploded down to each of its rows: what comes to stand in its place means the same rows, and the row
/// is a node in it.
#[tactic(auto, using(crate::proofs::ExplodeTo::explode_to))]
pub fn a_leaf_explodes_down_to_each_row()
    ensures { (table : ℕ → Entry) (front back : List Token) (rs : List ℕ) (x : ℕ)
        → IsBrackets table (front ++ Leaf rs ∷ back) → In x rs
        → ExplodedTo table front back rs x }
{}

/// No token stands twice where each row stands once.
pub fn no_token_stands_twice()
    ensures { (table : ℕ → Entry) (tokens : List Token) → IsWord tokens
        → Successive (λ (r s : ℕ). (table r).id ≢ (table s).id) (numbers_of tokens)
        → Successive (λ (s t : Token). s ≢ t) tokens }
{}

/// One leaf of the live rows of a word means the array into which a flatten makes them, and leaves brackets.
pub fn a_word_may_be_made_a_leaf()
    ensures rows { (table : ℕ → Entry) (stack : List Level) (word : List Token)
        → rows_from table stack (leaf_word (live_numbers table word))
        ≡ array (slot_of table stack) (map named (live_rows (rows_from table stack word))) }
    ensures brackets { (table : ℕ → Entry) (front word back : List Token) → IsWord word
        → IsBrackets table (front ++ (word ++ back))
        → IsDocument (rows_of table (front ++ (leaf_word (live_numbers table word) ++ back)))
        → IsBrackets table (front ++ (leaf_word (live_numbers table word) ++ back)) }
{}

/// A new row, put at a place before which each row stands before it and behind which each stands after it, is the
/// insertion of its atom, and leaves brackets.
pub fn a_new_row_is_an_insertion()
    ensures { (table next : ℕ → Entry) (tokens : List Token) → IsBrackets table tokens
        → (new : ℕ) (id : AtomIdValue) (atom : List ℕ)
        → ((s : ℕ) → In s (numbers_of tokens) → next s ≡ table s)
        → next new ≡ record { id = id; atom = atom; deletes = [] }
        → IsNone (find_row id (rows_of table tokens)) → (front back : List Token) → tokens ≡ front ++ back
        → (stack : List Level) (slot : Slot)
        → Standing next tokens stack (next new).id front back → AllAfter next stack (next new).id back
        → slot_path (rows_of table tokens) slot ≡ Some (slot_of next stack)
        → IsTrue (is_rooted (rows_of table tokens) slot)
        → (rows_of next (front ++ (Open new ∷ Atom new ∷ Close new ∷ back))
        ≡ insert_atom slot id atom (rows_of table tokens))
        × IsBrackets next (front ++ (Open new ∷ Atom new ∷ Close new ∷ back)) }
{}
