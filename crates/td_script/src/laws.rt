// What the definitions of the language come to: the grammar and the first fault fit each other.
ghost use Rattle.std.specs.Prelude.{◌≡◌, ℕ, List, None};
ghost use Rattle.td_script.specs.Faults.{first_fault};
ghost use Rattle.td_script.specs.Script.{IsScript, Spells, spelled};
ghost use Rattle.td_script.specs.declared.script.Script.{Script};

/// Bytes have no fault where they spell a script, and only there.
#[tactic(auto, using(crate::proofs::ScriptLaws::no_fault, crate::proofs::ScriptLaws::script_of_no_fault))]
pub fn scripts_have_no_fault()
    ensures script { (bytes : List ℕ) (script : Script) → Spells bytes script → first_fault bytes ≡ None }
    ensures other { (bytes : List ℕ) → first_fault bytes ≡ None → (script : Script) × Spells bytes script }
{}

/// No bytes spell two scripts.
#[tactic(auto, using(crate::proofs::ScriptLaws::unique))]
pub fn spelled_scripts_are_unique()
    ensures { (bytes : List ℕ) (s t : Script) → Spells bytes s → Spells bytes t → s ≡ t }
{}

/// A script that is written line by line is spelled by what is written.
#[tactic(auto, using(crate::proofs::ScriptLaws::read_again))]
pub fn written_scripts_are_read_again()
    ensures { (script : Script) → IsScript script → Spells (spelled script.commands) script }
{}
