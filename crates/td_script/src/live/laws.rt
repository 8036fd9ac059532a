// What the definitions of the language come to: the grammar and the first fault fit each other.
ghost use Rattle.std.specs.Prelude.{◌≡◌, ◌≤◌, ℕ, List, None, length};
ghost use Rattle.std.specs.List.{AllByRecursion};
ghost use Rattle.td_base.specs.declared.site.TheConstants.{MAX_SITE};
ghost use Rattle.td_script.specs.Script.{IsSiteOf};
ghost use Rattle.td_script.specs.LiveFaults.{first_live_fault};
ghost use Rattle.td_script.specs.LiveScript.{IsLiveScript, SpellsLive, live_of, live_spelled};
ghost use Rattle.td_script.specs.declared.live.command.LiveCommand.{LiveCommand};
ghost use Rattle.td_script.specs.declared.live.script.Live.{Live};
ghost use Rattle.td_script.specs.declared.live.script.TheConstants.{MAX_EDITORS};

/// Bytes have no fault where they spell a live script, and only there.
pub fn live_scripts_have_no_fault()
    ensures script { (bytes : List ℕ) (live : Live) → SpellsLive bytes live → first_live_fault bytes ≡ None }
    ensures other { (bytes : List ℕ) → first_live_fault bytes ≡ None → (live : Live) × SpellsLive bytes live }
{}

/// No bytes spell two live scripts.
pub fn spelled_live_scripts_are_unique()
    ensures { (bytes : List ℕ) (s t : Live) → SpellsLive bytes s → SpellsLive bytes t → s ≡ t }
{}

/// A live script that is written line by line is spelled by what is written.
pub fn written_live_scripts_are_read_again()
    ensures { (sites : ℕ) (cs : List LiveCommand)
        → IsLiveScript sites cs → SpellsLive (live_spelled cs) (live_of sites cs) }
{}

/// A live script that bytes spell has no more sites and no more editors than there can be, each editor is at one of the
/// sites, and each has its lines.
pub fn spelled_live_scripts_are_fit()
    ensures sites { (bytes : List ℕ) (live : Live) → SpellsLive bytes live → live.sites ≤ MAX_SITE }
    ensures editors { (bytes : List ℕ) (live : Live) → SpellsLive bytes live
        → AllByRecursion (IsSiteOf live.sites) live.homes }
    ensures few { (bytes : List ℕ) (live : Live) → SpellsLive bytes live → length live.homes ≤ MAX_EDITORS }
    ensures lines { (bytes : List ℕ) (live : Live) → SpellsLive bytes live → length live.lines ≡ length live.homes }
{}
