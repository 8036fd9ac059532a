// What workers come to that have met, each law as the contract of a function with an empty body.
ghost use Rattle.std.specs.Prelude.{◌≡◌, ◌<◌, ◌≤◌, ◌+◌, ◌↔◌, ℕ, List, true, length, Some, slice_get};
ghost use Rattle.td_base.specs.declared.site.TheConstants.{MAX_SITE};
ghost use Rattle.td_op.specs.declared.message.Message.{Message};
ghost use Rattle.td_machine.specs.History.{IsConsistent, IsAddressed};
ghost use Rattle.td_law_meeting.specs.Thin.{is_addressed};
ghost use Rattle.td_law_meeting.specs.Accounts.{Account, IsAccount, AreSettled, family_of};
ghost use Rattle.td_law_meeting.specs.Peers.{Met};
ghost use Rattle.td_law_meeting.specs.Rows.{AllMatch, rows_of};

/// The test of whom a message is for is that of a consistent family.
pub fn messages_are_addressed()
    ensures { (site : ℕ) (message : Message) → is_addressed site message ≡ true ↔ IsAddressed site message }
{}

/// The histories of workers whose links are settled are a consistent family, whatever was lost, sent twice, or still
/// lay in the links.
pub fn settled_workers_are_consistent()
    ensures { (accounts : List Account) → AreSettled accounts → IsConsistent (family_of accounts) }
{}

/// Where the links are settled in this order, those of the first worker with each one behind it, then those of the
/// second, and so on, all are settled.
pub fn rows_that_met_are_settled()
    ensures { (accounts : List Account) → 0 < length accounts → length accounts ≤ MAX_SITE
        → ((place : ℕ) (a : Account) → slice_get accounts place ≡ Some a
        → (a.site ≡ place + 1) × IsAccount (length accounts) a)
        → AllMatch Met (length accounts) (rows_of accounts) → AreSettled accounts }
{}
