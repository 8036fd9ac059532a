// The requests of a trace, against the calls of its editors.
ghost use Rattle.std.specs.Prelude.{◌≡◌, ◌<◌, ◌≤◌, ◌+◌, ◌∷◌, ℕ, [], length, take, IfOk, MatchOption, Some, slice_get};
ghost use Rattle.td_trace.specs.Editors.{calls_at};
ghost use Rattle.td_trace.specs.declared.log.EditorLog.{EditorLog};
ghost use Rattle.td_reader.specs.Said.{did_of};
ghost use Rattle.td_check.specs.Alone.{AreCounts, AreRows, IsFirstAloneAt, IsRowOfCalls, counted_at};
ghost use Rattle.td_check.specs.Findings.{IsAlone, IsFirstAlone, NoneAlone};

use crate::deeds::is_request;
use std::alloc::Global;
use td_base::{Memory, Site};
use td_reader::{ReadDid, ReadTrace};

/// The line of the first request, in the order of lines, that is the entry of no call or of more than one. Takes a byte
/// of memory for each entry.
pub(crate) fn first_alone(alloc: Global, trace: &ReadTrace<'_>) -> Result<Option<u32>, Memory>
    ensures { IfOk result (λ found. MatchOption found (NoneAlone trace.now) (λ line. IsFirstAlone trace.now line)) }
{
    let rows = all_counts(alloc, trace)?;
    Ok(first_in(trace, &rows))
}

// How many calls each entry is, up to 255.
fn all_counts(alloc: Global, trace: &ReadTrace<'_>) -> Result<Vec<Vec<u8>>, Memory>
    ensures { IfOk result (λ rows. AreRows trace.now trace.now.logs trace.now.sites rows.items) }
{
    let mut rows = no_counts(alloc, trace)?;
    for editor in 0..trace.editors() {
        count_editor(&mut rows, trace, editor);
    }
    Ok(rows)
}

// A count of 0 for each entry.
fn no_counts(alloc: Global, trace: &ReadTrace<'_>) -> Result<Vec<Vec<u8>>, Memory>
    ensures { IfOk result (λ rows. AreRows trace.now [] trace.now.sites rows.items) }
{
    let mut rows = Vec::new(alloc);
    for n in 0..trace.sites() {
        let row = no_counts_of(alloc, trace, Site::at(n))?;
        rows.push(row)?;
    }
    Ok(rows)
}

// A count of 0 for each entry of the site.
fn no_counts_of(alloc: Global, trace: &ReadTrace<'_>, site: Site) -> Result<Vec<u8>, Memory>
    ensures { IfOk result (λ row. IsRowOfCalls trace.now [] site row.items) }
{
    let entries = trace.entries(site) as usize;
    Ok(vec![in alloc; 0; entries]?)
}

// Adds the calls of the editor.
fn count_editor(rows: &mut Vec<Vec<u8>>, trace: &ReadTrace<'_>, editor: u32)
    requires { editor < length trace.now.logs }
    ensures { AreRows trace.now (take editor trace.now.logs) trace.now.sites rows.old.items
        → AreRows trace.now (take (editor + 1) trace.now.logs) trace.now.sites rows.new.items }
{
    let Some(home) = trace.home(editor) else {
        return;
    };
    let place = home.place();
    if place < rows.len() {
        count_calls(&mut rows[place], trace, editor);
    }
}

// Adds the calls of the editor, of which these are the entries.
fn count_calls(row: &mut [u8], trace: &ReadTrace<'_>, editor: u32)
    ensures { (log : EditorLog) → slice_get trace.now.logs editor ≡ Some log → (before : ℕ → ℕ)
        → AreCounts before row.old → AreCounts (λ (i : ℕ). before i + calls_at (i + 1) log.did) row.new }
{
    for index in 0..trace.dids(editor) {
        if let Some(did) = trace.did(editor, index) {
            count_did(row, &did);
        }
    }
}

// Adds what was done, where it is a call.
fn count_did(row: &mut [u8], did: &ReadDid<'_>)
    ensures { (before : ℕ → ℕ) → AreCounts before row.old
        → AreCounts (λ (i : ℕ). before i + calls_at (i + 1) (did_of did.now ∷ [])) row.new }
{
    match did {
        ReadDid::Call { entry, .. } => count_entry(row, *entry),
        ReadDid::Look { .. } => {}
    }
}

// Adds one to the count of the entry with this number, from 1, where there is one.
fn count_entry(row: &mut [u8], entry: u64)
    ensures { (before : ℕ → ℕ) → AreCounts before row.old → AreCounts (counted_at entry before) row.new }
{
    let Some(place) = entry.checked_sub(1) else {
        return;
    };
    if place < row.len() as u64 {
        let count = &mut row[place as usize];
        *count = count.saturating_add(1);
    }
}

// The line of the first request whose count is not 1.
fn first_in(trace: &ReadTrace<'_>, rows: &[Vec<u8>]) -> Option<u32>
    requires { AreRows trace.now trace.now.logs trace.now.sites rows.now }
    ensures { MatchOption result (NoneAlone trace.now) (λ line. IsFirstAlone trace.now line) }
{
    for n in 0..trace.sites() {
        let row = &rows[usize::from(n)];
        if let Some(line) = first_of(trace, Site::at(n), row) {
            return Some(line);
        }
    }
    None
}

// That of the first of this site.
fn first_of(trace: &ReadTrace<'_>, site: Site, row: &[u8]) -> Option<u32>
    requires some { 0 < site }
    requires within { site ≤ length trace.now.histories }
    requires row { IsRowOfCalls trace.now trace.now.logs site row.now }
    ensures { MatchOption result ((k : ℕ) → ¬ IsAlone trace.now site k) (λ line. IsFirstAloneAt trace.now site line) }
{
    for index in 0..trace.entries(site) {
        let number = index + 1;
        if row[index as usize] != 1 && is_request(trace, site, u64::from(number)) {
            return Some(trace.line_of_entry(site, number));
        }
    }
    None
}
