// What the verdict on a trace comes to.
ghost use Rattle.std.specs.Prelude.{◌≡◌, ◌≤◌, ℕ, List, codes, length};
ghost use Rattle.td_check.specs.Verdict.{IsPossible, IsVerdict};
ghost use Rattle.td_check.specs.declared.verdict.Verdict.TheVariants.{Yes};
ghost use Rattle.td_reader.specs.declared.trace.TheConstants.{MAX_TRACE};
ghost use Rattle.td_run.specs.Answer.{IsOutputFor};
ghost use Rattle.td_run.specs.Kept.{TracesLiveFamily};
ghost use Rattle.td_run.specs.declared.words.Language.TheVariants.{Live, Trace};

/// A trace with the verdict yes is that of a live family, and of all that happened there the six promises hold: as it
/// is one that live replicas may have made, whoever made it, its sites converged and agreed. (The trace of a script
/// without a command has no site.)
#[tactic(auto, using(crate::proofs::YesKept::yes_kept, crate::proofs::YesKept::possible_kept))]
pub fn a_trace_with_yes_keeps_the_promises()
    ensures yes { (bytes : List ℕ) → IsVerdict bytes Yes → TracesLiveFamily bytes }
    ensures possible { (bytes : List ℕ) → IsPossible bytes → TracesLiveFamily bytes }
{}

/// Whatever `live` prints of a live script is a possible trace, so `check` says yes to it, if it is no longer than a
/// trace may be. (The last clause is what is printed of a script without a command.)
#[tactic(auto, using(crate::proofs::LivePasses::none_has_yes))]
pub fn what_live_prints_passes()
    ensures possible { (input bytes : List ℕ) → IsOutputFor Live input bytes → length bytes ≤ MAX_TRACE
        → IsPossible bytes }
    ensures yes { (input bytes : List ℕ) → IsOutputFor Live input bytes → length bytes ≤ MAX_TRACE
        → IsVerdict bytes Yes }
    ensures printed { (input bytes line : List ℕ) → IsOutputFor Live input bytes → length bytes ≤ MAX_TRACE
        → IsOutputFor Trace bytes line → line ≡ codes "yes\n" }
    ensures nothing { IsVerdict (codes "sites 0\nend\n") Yes }
{}
