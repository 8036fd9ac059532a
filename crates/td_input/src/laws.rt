ghost use Rattle.std.specs.Prelude.{◌≡◌};
ghost use Rattle.td_op.specs.declared.input.Input.{Input};
ghost use Rattle.td_input.specs.Spelling.{CanWrite, input_bytes};

/// No bytes are two inputs.
#[tactic(auto, using(crate::proofs::Whole::one_input))]
pub fn inputs_are_unique()
    ensures { (a b : Input) → CanWrite a → CanWrite b → input_bytes a ≡ input_bytes b → a ≡ b }
{}
