// What the definition of the generator comes to.
ghost use Rattle.std.specs.Prelude.{◌≤◌, ◌+◌, ◌*◌, ℕ, All, length};
ghost use Rattle.td_gen.specs.Commands.{IsGenerated};
ghost use Rattle.td_gen.specs.Generator.{generated};

/// A generated script has edits and flattens of the whole text, at its own sites, and settles; no more than four
/// commands for each edit, and two.
#[tactic(auto, using(crate::proofs::Commands::generated_are, crate::proofs::Commands::generated_few))]
pub fn generated_scripts_edit_and_flatten()
    ensures commands { (size number : ℕ) → All IsGenerated (generated size number).commands }
    ensures few { (size number : ℕ) → length (generated size number).commands ≤ 4 * size + 2 }
{}
