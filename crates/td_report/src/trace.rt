ghost use Rattle.std.specs.Prelude.{◌≡◌, ◌++◌, IfOk, OnOk};
ghost use Rattle.std.specs.List.{flat_map};
ghost use Rattle.td_base.specs.Lists.{kth};
ghost use Rattle.td_trace.specs.Entries.{traced_history};
ghost use Rattle.td_report.specs.Parts.{if_any};
ghost use Rattle.td_report.specs.Trace.{all_written, did_said, entry_said, entry_written, history_said, log_said};
ghost use Rattle.td_report.specs.Trace.{numbered};
ghost use Rattle.td_report.specs.TraceLines.{EditorAt, Ended, SitesAre, TextIs, written};

use crate::entry::push_entry;
use crate::parts::{begin, push_spaced};
use crate::show::push_quoted;
use std::alloc::Global;
use td_base::{Bytes, Memory, Site};
use td_doc::Doc;
use td_replica::Replica;
use td_trace::{Did, EditorLog};

/// `sites N`: the first line of a trace. N is 0 where a live script has no command.
pub fn trace_head(alloc: Global, sites: u8) -> Result<Bytes, Memory>
    ensures { IfOk result (λ line. line ≡ written (SitesAre sites)) }
{
    let mut line = Bytes::new(alloc);
    line.push(b"sites")?;
    push_spaced(&mut line, u64::from(sites))?;
    line.push(b"\n")?;
    Ok(line)
}

/// `site R`, and a line for each entry of its history.
pub fn trace_site<D: Doc>(alloc: Global, replica: &Replica<D>) -> Result<Bytes, Memory>
    ensures { IfOk result (λ lines. lines ≡ all_written
        (history_said replica.now.machine.site (traced_history replica.now.entries))) }
{
    let mut lines = begin(alloc, b"site", replica.site())?;
    lines.push(b"\n")?;
    push_entries(&mut lines, replica)?;
    Ok(lines)
}

// A line for each entry.
#[tactic(auto, using(crate::proofs::Tracing::next_entry))]
fn push_entries<D: Doc>(lines: &mut Bytes, replica: &Replica<D>) -> Result<(), Memory>
    ensures { OnOk result (lines.new ≡ lines.old ++ all_written
        (numbered entry_said 1 (traced_history replica.now.entries))) }
{
    for k in 0..replica.entries() {
        push_entry_at(lines, replica, k + 1)?;
    }
    Ok(())
}

// The line of the entry with this number, where there is one.
fn push_entry_at<D: Doc>(lines: &mut Bytes, replica: &Replica<D>, number: u64) -> Result<(), Memory>
    ensures { OnOk result (lines.new
        ≡ lines.old ++ if_any (entry_written number) (kth number replica.now.entries)) }
{
    match replica.entry(number) {
        Some(entry) => push_entry(lines, number, &entry),
        None => Ok(()),
    }
}

/// `editor E R`, and a line for each call and each look of the editor.
#[tactic(auto, using(crate::proofs::Tracing::all_did))]
pub fn trace_editor(alloc: Global, number: u32, log: &EditorLog) -> Result<Bytes, Memory>
    ensures { IfOk result (λ lines. lines ≡ all_written (log_said number log.now)) }
{
    let mut lines = editor_line(alloc, number, log.home)?;
    push_all(&mut lines, log.did.as_slice())?;
    Ok(lines)
}

fn editor_line(alloc: Global, number: u32, home: Site) -> Result<Bytes, Memory>
    ensures { IfOk result (λ line. line ≡ written (EditorAt number home)) }
{
    let mut line = Bytes::new(alloc);
    line.push(b"editor")?;
    push_spaced(&mut line, u64::from(number))?;
    push_spaced(&mut line, u64::from(home.number()))?;
    line.push(b"\n")?;
    Ok(line)
}

// A line for each call and each look.
fn push_all(lines: &mut Bytes, all: &[Did]) -> Result<(), Memory>
    ensures { OnOk result (lines.new ≡ lines.old ++ flat_map (λ did. written (did_said did)) all.now) }
{
    for did in all {
        push_did(lines, did)?;
    }
    Ok(())
}

// A call or a look.
fn push_did(lines: &mut Bytes, did: &Did) -> Result<(), Memory>
    ensures { OnOk result (lines.new ≡ lines.old ++ written (did_said did.now)) }
{
    match did {
        Did::Call { call, entry } => {
            lines.push(b"call")?;
            push_spaced(lines, u64::from(*call))?;
            push_spaced(lines, *entry)?;
            lines.push(b"\n")
        }
        Did::Look { calls, upto, text } => {
            lines.push(b"look")?;
            push_spaced(lines, u64::from(*calls))?;
            push_spaced(lines, *upto)?;
            push_quoted(lines, text.as_slice())?;
            lines.push(b"\n")
        }
    }
}

/// `text R "text"`: the text of the site at the end.
pub fn trace_text(alloc: Global, site: Site, text: &[u8]) -> Result<Bytes, Memory>
    ensures { IfOk result (λ line. line ≡ written (TextIs site text.now)) }
{
    let mut line = begin(alloc, b"text", site)?;
    push_quoted(&mut line, text)?;
    line.push(b"\n")?;
    Ok(line)
}

/// `end`: the last line of a trace.
pub fn trace_end(alloc: Global) -> Result<Bytes, Memory>
    ensures { IfOk result (λ line. line ≡ written Ended) }
{
    let mut line = Bytes::new(alloc);
    line.push(b"end\n")?;
    Ok(line)
}
