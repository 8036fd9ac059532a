// What the editors of a trace did, against the entries of their sites and the looks that were found true.
ghost use Rattle.std.specs.Prelude.{◌≡◌, ◌↔◌, ◌<◌, ◌≤◌, ◌+◌, ℕ, List, length, take, true, IsTrue, MatchOption, Some};
ghost use Rattle.std.specs.Prelude.{option_map, slice_get};
ghost use Rattle.std.specs.List.{AllByRecursion};
ghost use Rattle.td_trace.specs.Editors.{IsDid, further, nothing_yet};
ghost use Rattle.td_trace.specs.Entries.{is_request_at};
ghost use Rattle.td_trace.specs.declared.log.Did.TheVariants.{Call as CallIs};
ghost use Rattle.td_trace.specs.declared.log.EditorLog.{EditorLog};
ghost use Rattle.td_reader.specs.Said.{did_of};
ghost use Rattle.td_law_replay.specs.Accepted.{IsLogIn};
ghost use Rattle.td_law_replay.specs.Traced.{site_entries};
ghost use Rattle.td_check.specs.Findings.{AreAllLogs, IsFirstDeed, fault_of};
ghost use Rattle.td_check.specs.Looks.{AreLooks, all_seen, did_at};

use crate::looks::Looks;
use crate::verdict::Fault;
use std::marker::Model;
use td_base::Site;
use td_reader::{ReadDid, ReadTrace};
use td_trace::ToldInput;

/// The line of what an editor did, and what is wrong with it.
#[derive(Debug, Drop)]
pub(crate) struct BadDeed {
    pub(crate) line: u32,
    pub(crate) fault: Fault,
}

// How many calls an editor made so far, the entry of the last one, and behind how many entries it last looked.
#[derive(Debug, Drop)]
struct Done {
    calls: u64,
    entry: u64,
    upto: u64,
}

impl Model for Done {
    ghost use Rattle.td_trace.specs.Editors.{Sofar};

    ghost Value = { Sofar };

    ghost view = { λ d. record { calls = d.calls; entry = d.entry; upto = d.upto } };
}

/// The first of what the editors did, in the order of lines, that is not so, where all texts were seen.
pub(crate) fn first_deed(trace: &ReadTrace<'_>, looks: &Looks) -> Option<BadDeed>
    ensures { (text_at : ℕ → ℕ → List ℕ) → AreLooks trace.now (all_seen trace.now) text_at looks.now
        → MatchOption result (AreAllLogs trace.now text_at) (λ bad. IsFirstDeed trace.now text_at bad.line bad.fault) }
{
    for editor in 0..trace.editors() {
        if let Some(bad) = first_of(trace, looks, editor) {
            return Some(bad);
        }
    }
    None
}

// The first of what this editor did, where what the editors before it did is so.
fn first_of(trace: &ReadTrace<'_>, looks: &Looks, editor: u32) -> Option<BadDeed>
    requires { editor < length trace.now.logs }
    ensures { (text_at : ℕ → ℕ → List ℕ) → AreLooks trace.now (all_seen trace.now) text_at looks.now
        → AllByRecursion (IsLogIn trace.now.histories text_at) (take editor trace.now.logs)
        → MatchOption result (AllByRecursion (IsLogIn trace.now.histories text_at) (take (editor + 1) trace.now.logs))
        (λ bad. IsFirstDeed trace.now text_at bad.line bad.fault) }
{
    // its parts are in range
    let _ = trace.sites();
    let home = trace.home(editor)?;
    let mut done = Done::nothing();
    for index in 0..trace.dids(editor) {
        let did = trace.did(editor, index)?;
        if !done.goes_on(trace, looks, home, editor, index, &did) {
            return Some(BadDeed {
                line: trace.line_of_did(editor + 1, index + 1),
                fault: fault_of(&did),
            });
        }
    }
    None
}

impl Done {
    // Nothing yet.
    fn nothing() -> Done
        ensures { result ≡ nothing_yet }
    {
        Done {
            calls: 0,
            entry: 0,
            upto: 0,
        }
    }

    // Whether what the editor did next is so; it is then done too.
    fn goes_on(
        &mut self,
        trace: &ReadTrace<'_>,
        looks: &Looks,
        home: Site,
        editor: u32,
        index: u32,
        did: &ReadDid<'_>,
    ) -> bool
        requires home { option_map (λ (log : EditorLog). log.home) (slice_get trace.now.logs editor) ≡ Some home }
        requires did { did_at trace.now editor index ≡ Some (did_of did.now) }
        ensures is { (text_at : ℕ → ℕ → List ℕ) → AreLooks trace.now (all_seen trace.now) text_at looks.now
            → IsTrue result
            ↔ IsDid (site_entries trace.now.histories home) (text_at home) self.old (did_of did.now) }
        ensures new { IsTrue result → self.new ≡ further self.old (did_of did.now) }
    {
        match did {
            ReadDid::Call { call, entry } => self.calls_on(trace, home, *call, *entry),
            ReadDid::Look { calls, upto, .. } => {
                let is_true = looks.is_true(editor, index);
                self.looks_on(trace, home, *calls, *upto) && is_true
            }
        }
    }

    // Whether a call has the next number, and is a request behind the entry of the call before; it is then done too.
    fn calls_on(&mut self, trace: &ReadTrace<'_>, home: Site, call: u64, entry: u64) -> bool
        ensures is { IsTrue result ↔ (call ≡ self.old.calls + 1) × (self.old.entry < entry)
            × (is_request_at (site_entries trace.now.histories home) entry ≡ true) }
        ensures new { IsTrue result → self.new ≡ further self.old (CallIs call entry) }
    {
        if self.calls.checked_add(1) != Some(call)
            || entry <= self.entry
            || !is_request(trace, home, entry)
        {
            return false;
        }
        self.calls = call;
        self.entry = entry;
        true
    }

    // Whether a look is behind all calls, and at a text that the site has, none before that of the last call or the
    // last look; it is then done too.
    fn looks_on(&mut self, trace: &ReadTrace<'_>, home: Site, calls: u64, upto: u64) -> bool
        ensures is { IsTrue result ↔ (calls ≡ self.old.calls)
            × (upto ≤ length (site_entries trace.now.histories home)) × (self.old.entry ≤ upto)
            × (self.old.upto ≤ upto) }
        ensures new { IsTrue result → self.new ≡ record self.old { upto = upto } }
    {
        let entries = u64::from(trace.entries(home));
        if calls != self.calls || upto > entries || upto < self.entry || upto < self.upto {
            return false;
        }
        self.upto = upto;
        true
    }
}

/// Whether the entry of the site with this number, from 1, is a request.
pub(crate) fn is_request(trace: &ReadTrace<'_>, site: Site, number: u64) -> bool
    ensures { result ≡ is_request_at (site_entries trace.now.histories site) number }
{
    if number == 0 || number > u64::from(trace.entries(site)) {
        return false;
    }
    match trace.entry(site, (number - 1) as u32) {
        Some(entry) => matches!(entry.told, ToldInput::Asked(_)),
        None => false,
    }
}

// What is wrong where it is not so.
fn fault_of(did: &ReadDid<'_>) -> Fault
    ensures { result ≡ fault_of (did_of did.now) }
{
    match did {
        ReadDid::Call { .. } => Fault::Call,
        ReadDid::Look { .. } => Fault::Look,
    }
}
