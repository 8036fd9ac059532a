// What the definitions of the language come to: the grammar and the first fault fit each other.
ghost use Rattle.std.specs.Prelude.{◌≡◌, ℕ, List, None};
ghost use Rattle.td_script.specs.KeptFaults.{first_kept_fault};
ghost use Rattle.td_script.specs.KeptScript.{IsKeptScript, SpellsKept, kept_spelled};
ghost use Rattle.td_script.specs.declared.kept.script.KeptScript.{KeptScript};

/// Bytes have no fault where they spell a kept script, and only there.
#[tactic(auto, using(crate::proofs::KeptScriptLaws::no_kept_fault, crate::proofs::KeptScriptLaws::kept_of_no_fault))]
pub fn kept_scripts_have_no_fault()
    ensures script { (bytes : List ℕ) (script : KeptScript) → SpellsKept bytes script → first_kept_fault bytes ≡ None }
    ensures other { (bytes : List ℕ) → first_kept_fault bytes ≡ None → (script : KeptScript) × SpellsKept bytes script }
{}

/// No bytes spell two kept scripts.
#[tactic(auto, using(crate::proofs::KeptScriptLaws::kept_unique))]
pub fn spelled_kept_scripts_are_unique()
    ensures { (bytes : List ℕ) (s t : KeptScript) → SpellsKept bytes s → SpellsKept bytes t → s ≡ t }
{}

/// A kept script that is written line by line is spelled by what is written.
#[tactic(auto, using(crate::proofs::KeptScriptLaws::kept_read_again))]
pub fn written_kept_scripts_are_read_again()
    ensures { (script : KeptScript) → IsKeptScript script → SpellsKept (kept_spelled script.commands) script }
{}
