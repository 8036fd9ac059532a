// What is promised of an output, as the contract of a function with an empty body.
ghost use Rattle.std.specs.Prelude.{◌≡◌, ℕ, List};
ghost use Rattle.td_run.specs.Outputs.{IsOutputOf, IsSummary};
ghost use Rattle.td_script.specs.Script.{AreCommands};
ghost use Rattle.td_script.specs.declared.script.Script.{Script};

/// Every script has an output: in each world each of its commands can be done, and its passes end.
#[tactic(auto, using(crate::proofs::Onward::has_output))]
pub fn scripts_have_an_output()
    ensures { (script : Script) → AreCommands script.sites script.commands
        → (bytes : List ℕ) × IsOutputOf script bytes }
{}

/// A script has one output at most, and so has a generated one: what a run prints is fixed by the words and the input.
#[tactic(auto, using(crate::proofs::Unique::one_output, crate::proofs::Unique::one_summary))]
pub fn outputs_are_unique()
    ensures script { (script : Script) (a b : List ℕ) → IsOutputOf script a → IsOutputOf script b → a ≡ b }
    ensures summary { (size number : ℕ) (a b : List ℕ) → IsSummary size number a → IsSummary size number b → a ≡ b }
{}
