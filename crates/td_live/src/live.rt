// A live script, from its opening to its trace.
ghost use Rattle.std.specs.Prelude.{◌≡◌, ◌<◌, ℕ, List, [], length, map, sum_by, IfOk, OnOk};
ghost use Rattle.std.specs.List.{AllZip};
ghost use Rattle.td_report.specs.Trace.{trace};
ghost use Rattle.td_room.specs.Rooms.{AreOfOneRoom};
ghost use Rattle.td_script.specs.declared.live.editor_line.EditorLine.{EditorLine};
ghost use Rattle.td_script.specs.LiveScript.{SpellsLive, calls};
ghost use Rattle.td_live.specs.Live.{IsTraceAmong, IsLiveTraceOf};
ghost use Rattle.td_live.specs.Seating.{CanSit, SatDown, homes_of, seated};

use crate::alone::conclude_alone;
use crate::desk::Desk;
use crate::ending::{conclude, quit_all};
use crate::working::work;
use std::alloc::Global;
use std::sync::Wait;
use std::thread::Threads;
use td_base::{Bytes, Memory};
use td_line::{Editor, Gate};
use td_report::{trace_end, trace_head};
use td_room::{RoomFault, Worker, room};
use td_script::{EditorLines, Live};
use td_tree::Tree;
use td_view::Opener;

/// What a live script comes to, as a trace. Its workers and its editors run at once, each on a thread of its own, for
/// as many turns as it says; then what is left of the editors' lines is done. Where no room can be opened all lines
/// are done so. It may wait.
pub fn live_trace<R: Threads + Wait + Copy + Send + Sync, G: Gate + Sync>(
    rt: &R,
    alloc: Global,
    script: Live,
    gate: &G,
) -> Result<Bytes, Memory>
    requires { (bytes : List ℕ) × SpellsLive bytes script }
    ensures { IfOk result (IsLiveTraceOf script) }
{
    let Live {
        sites,
        turns,
        loss,
        homes,
        lines,
    } = script;
    if sites == 0 {
        return trace_of_nobody(alloc);
    }
    let calls = calls_of(alloc, lines.as_slice())?;
    let lines = lines.into_vec();
    let mut opener = Opener::new();
    let opened = room::<Tree, R>(
        rt,
        alloc,
        &mut opener,
        sites,
        homes.as_slice(),
        &calls,
        loss.drop_each,
        loss.double_each,
    );
    match opened {
        Ok((workers, editors)) => in_room(rt, alloc, gate, turns, workers, editors, lines),
        Err(RoomFault::Refused) => conclude_alone::<Tree>(alloc, sites, homes.as_slice(), lines),
        Err(RoomFault::Memory) => Err(Memory),
    }
}

// The trace of no site.
fn trace_of_nobody(alloc: Global) -> Result<Bytes, Memory>
    ensures { IfOk result (λ bytes. bytes ≡ trace 0 [] [] []) }
{
    let mut bytes = trace_head(alloc, 0)?;
    let end = trace_end(alloc)?;
    bytes.push(end.as_slice())?;
    Ok(bytes)
}

// How many calls the lines of each editor can ask for.
fn calls_of(alloc: Global, lines: &[EditorLines]) -> Result<Vec<u32>, Memory>
    ensures { IfOk result (λ counts. counts.items ≡ map (λ (own : List EditorLine). sum_by calls own) lines.now) }
{
    let mut counts = Vec::new(alloc);
    for own in lines {
        counts.push(own.calls())?;
    }
    Ok(counts)
}

// What the workers and editors of a room come to, where the editors have these lines.
fn in_room<R: Threads + Wait + Sync, G: Gate + Sync>(
    rt: &R,
    alloc: Global,
    gate: &G,
    turns: u32,
    workers: Vec<Worker<Tree>>,
    editors: Vec<Editor>,
    lines: Vec<EditorLines>,
) -> Result<Bytes, Memory>
    requires room { AreOfOneRoom workers.items editors.items }
    requires can { AllZip CanSit editors.items lines.items }
    ensures { IfOk result (IsTraceAmong (length workers.items) (homes_of editors.items) lines.items) }
{
    let Ok(desks) = seat_all(alloc, editors, lines) else {
        quit_all(rt, workers);
        return Err(Memory);
    };
    let mut workers = workers;
    let mut desks = desks;
    work(rt, gate, turns, &mut workers, &mut desks);
    conclude(rt, alloc, workers, desks)
}

// Each editor sits down at a desk, with its lines.
fn seat_all(
    alloc: Global,
    editors: Vec<Editor>,
    lines: Vec<EditorLines>,
) -> Result<Vec<Desk>, Memory>
    requires { AllZip CanSit editors.items lines.items }
    ensures { IfOk result (λ desks. desks.items ≡ seated editors.items lines.items) }
{
    let mut editors = editors;
    let mut lines = lines;
    let mut desks = Vec::new(alloc);
    while editors.len() > 0 {
        seat_next(alloc, &mut editors, &mut lines, &mut desks)?;
    }
    Ok(desks)
}

fn seat_next(
    alloc: Global,
    editors: &mut Vec<Editor>,
    lines: &mut Vec<EditorLines>,
    desks: &mut Vec<Desk>,
) -> Result<(), Memory>
    requires some { 0 < length editors.old.items }
    requires can { AllZip CanSit editors.old.items lines.old.items }
    ensures { OnOk result (SatDown editors.old.items editors.new.items lines.old.items lines.new.items
        desks.old.items desks.new.items) }
{
    let editor = editors.remove(0);
    let own = lines.remove(0);
    desks.push(Desk::new(alloc, editor, own))?;
    Ok(())
}
