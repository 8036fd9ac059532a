// The trace of a world, with what its editors did.
ghost use Rattle.std.specs.Prelude.{◌≡◌, ◌<◌, ◌≤◌, ◌+◌, ◌++◌, length, IfOk, OnOk};
ghost use Rattle.td_base.specs.declared.site.TheConstants.{MAX_SITE};
ghost use Rattle.td_doc.specs.Document.{text_of};
ghost use Rattle.td_report.specs.Trace.{all_written, numbered, history_said, log_said, text_said};
ghost use Rattle.td_trace.specs.Entries.{traced_history, traced_family};
ghost use Rattle.td_world.specs.World.{family_of, replica_from, size};
ghost use Rattle.td_live.specs.Live.{IsTraced};
ghost use Rattle.td_live.specs.Printing.{texts_of};

use std::alloc::Global;
use td_base::{Bytes, Memory, Site};
use td_doc::Doc;
use td_report::{trace_editor, trace_end, trace_head, trace_site, trace_text};
use td_trace::EditorLog;
use td_world::World;

/// The trace of a world of so many sites, and of these logs. `Memory` also past `u32::MAX` logs, which no memory holds.
pub(crate) fn trace_of<D: Doc>(
    alloc: Global,
    world: &World<D>,
    sites: u8,
    logs: &[EditorLog],
) -> Result<Bytes, Memory>
    requires sites { sites ≡ size world.now }
    requires few { sites ≤ MAX_SITE }
    ensures { IfOk result (IsTraced (family_of world.now) logs.now) }
{
    let mut bytes = trace_head(alloc, sites)?;
    push_sites(alloc, world, sites, &mut bytes)?;
    push_editors(alloc, logs, &mut bytes)?;
    push_texts(alloc, world, sites, &mut bytes)?;
    let end = trace_end(alloc)?;
    bytes.push(end.as_slice())?;
    // its histories are a consistent family
    let _ = world.sent();
    Ok(bytes)
}

// The history of each site.
fn push_sites<D: Doc>(
    alloc: Global,
    world: &World<D>,
    sites: u8,
    bytes: &mut Bytes,
) -> Result<(), Memory>
    requires sites { sites ≡ size world.now }
    requires few { sites ≤ MAX_SITE }
    ensures { OnOk result (bytes.new ≡ bytes.old
        ++ all_written (numbered history_said 1 (traced_family (family_of world.now)))) }
{
    for place in 0..sites {
        push_site(alloc, world, place, bytes)?;
    }
    Ok(())
}

fn push_site<D: Doc>(
    alloc: Global,
    world: &World<D>,
    place: u8,
    bytes: &mut Bytes,
) -> Result<(), Memory>
    requires there { place < size world.now }
    requires few { place < MAX_SITE }
    ensures { OnOk result (bytes.new ≡ bytes.old
        ++ all_written (history_said (place + 1) (traced_history (replica_from world.now.replicas place).entries))) }
{
    let lines = trace_site(alloc, world.replica(Site::at(place)))?;
    bytes.push(lines.as_slice())?;
    Ok(())
}

// What each editor did.
fn push_editors(alloc: Global, logs: &[EditorLog], bytes: &mut Bytes) -> Result<(), Memory>
    ensures { OnOk result (bytes.new ≡ bytes.old ++ all_written (numbered log_said 1 logs.now)) }
{
    for (place, log) in logs.iter().enumerate() {
        push_editor(alloc, place, log, bytes)?;
    }
    Ok(())
}

fn push_editor(
    alloc: Global,
    place: usize,
    log: &EditorLog,
    bytes: &mut Bytes,
) -> Result<(), Memory>
    ensures { OnOk result (bytes.new ≡ bytes.old ++ all_written (log_said (place + 1) log.now)) }
{
    let number = number_at(place)?;
    let lines = trace_editor(alloc, number, log)?;
    bytes.push(lines.as_slice())?;
    Ok(())
}

// The number of the editor at the place.
fn number_at(place: usize) -> Result<u32, Memory>
    ensures { IfOk result (λ number. number ≡ place + 1) }
{
    if place >= u32::MAX as usize {
        return Err(Memory);
    }
    Ok(place as u32 + 1)
}

// The text of each site.
fn push_texts<D: Doc>(
    alloc: Global,
    world: &World<D>,
    sites: u8,
    bytes: &mut Bytes,
) -> Result<(), Memory>
    requires sites { sites ≡ size world.now }
    requires few { sites ≤ MAX_SITE }
    ensures { OnOk result (bytes.new ≡ bytes.old
        ++ all_written (numbered text_said 1 (texts_of world.now.replicas))) }
{
    for place in 0..sites {
        push_text(alloc, world, place, bytes)?;
    }
    Ok(())
}

fn push_text<D: Doc>(
    alloc: Global,
    world: &World<D>,
    place: u8,
    bytes: &mut Bytes,
) -> Result<(), Memory>
    requires there { place < size world.now }
    requires few { place < MAX_SITE }
    ensures { OnOk result (bytes.new ≡ bytes.old
        ++ all_written (text_said (place + 1) (text_of (replica_from world.now.replicas place).machine.doc))) }
{
    let site = Site::at(place);
    let text = world.replica(site).text(alloc)?;
    let line = trace_text(alloc, site, text.as_slice())?;
    bytes.push(line.as_slice())?;
    Ok(())
}
