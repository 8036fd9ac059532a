// How a room is closed.
ghost use Rattle.std.specs.Prelude.{◌≡◌, ◌≤◌, ◌<◌, ◌+◌, ◌++◌, ◌∷◌, ℕ, [], length, map, IfOk, OnOk};
ghost use Rattle.std.specs.List.{AllByRecursion, AllZip};
ghost use Rattle.td_machine.specs.History.{IsConsistent};
ghost use Rattle.td_replica.specs.Replica.{ReplicaValue};
ghost use Rattle.td_world.specs.World.{AreSites, replica_from, world_of};
ghost use Rattle.td_world.specs.Promises.{NobodyReady};
ghost use Rattle.td_line.specs.Calls.{local_at};
ghost use Rattle.td_line.specs.Editors.{EditorValue};
ghost use Rattle.td_room.specs.Rooms.{AreOfOneRoom, editors_of};
ghost use Rattle.td_room.specs.Closing.{GoesOn, IsAnsweredAtHome, all_at, answers_of, AreLooked};
ghost use Rattle.td_room.specs.Ending.{AllEnded, EndedNext, FirstJoined, others_of};

use crate::answers::SiteAnswers;
use crate::closed::Closed;
use crate::gathering::{gather, homes_of};
use crate::worker::Worker;
use std::alloc::Global;
use std::sync::Wait;
use td_base::{Memory, Site};
use td_doc::Doc;
use td_line::Editor;
use td_peer::{Row, meet_all};
use td_replica::Replica;

/// Ends all workers and editors of a room: each worker does all that it owes to its own replica and to its editors, and
/// each editor sees the last text. What still lies in a link between workers, or is still to be sent, is lost. After
/// `Memory` all is gone. It may wait for readers.
pub fn close<D: Doc, R: Wait>(
    rt: &R,
    alloc: Global,
    workers: Vec<Worker<D>>,
    editors: Vec<Editor>,
) -> Result<Closed<D>, Memory>
    requires { AreOfOneRoom workers.items editors.items }
    ensures sites { IfOk result (λ closed. AreSites closed.replicas.items) }
    ensures all { IfOk result (λ closed. length closed.replicas.items ≡ length workers.items) }
    ensures nobody { IfOk result (λ closed. NobodyReady (world_of closed.replicas.items)) }
    ensures consistent { IfOk result (λ closed.
        IsConsistent (map (λ (r : ReplicaValue). r.entries) closed.replicas.items)) }
    ensures goes_on { IfOk result (λ closed. AllZip GoesOn workers.items closed.replicas.items) }
    ensures answered { IfOk result (λ closed.
        AllZip (IsAnsweredAtHome closed.replicas.items) editors.items closed.answers.items) }
    ensures only { IfOk result (λ closed. (place k : ℕ) → place < length workers.items
        → all_at k (answers_of (place + 1) editors.items closed.answers.items)
        ≡ local_at (replica_from closed.replicas.items place).entries k) }
    ensures looks { IfOk result (λ closed. AllZip (AreLooked editors.items) workers.items closed.replicas.items) }
{
    let mut workers = workers;
    let Ok(homes) = homes_of(alloc, &editors) else {
        quit_all(rt, workers);
        return Err(Memory);
    };
    let Ok((rows, replicas, answers)) = end_each(rt, alloc, &mut workers, editors) else {
        quit_all(rt, workers);
        return Err(Memory);
    };
    workers.destroy_empty();
    meet_all(rt, alloc, rows)?;
    let answers = gather(alloc, homes, answers)?;
    Ok(Closed { replicas, answers })
}

// Ends each worker with its editors. The links between workers are not settled yet.
fn end_each<D: Doc, R: Wait>(
    rt: &R,
    alloc: Global,
    workers: &mut Vec<Worker<D>>,
    editors: Vec<Editor>,
) -> Result<(Vec<Row>, Vec<Replica<D>>, Vec<SiteAnswers>), Memory>
    requires { AreOfOneRoom workers.old.items editors.items }
    ensures none { OnOk result (length workers.new.items ≡ 0) }
    ensures ended { IfOk result (λ left.
        AllEnded editors.items workers.old.items left.1.items left.2.items left.0.items) }
{
    let mut editors = editors;
    let mut rows = Vec::new(alloc);
    let mut replicas = Vec::new(alloc);
    let mut answers = Vec::new(alloc);
    while workers.len() > 0 {
        editors = end_next(
            rt,
            alloc,
            workers,
            editors,
            &mut rows,
            &mut replicas,
            &mut answers,
        )?;
    }
    Ok((rows, replicas, answers))
}

// Ends the first worker with its editors. Those of the others are answered.
fn end_next<D: Doc, R: Wait>(
    rt: &R,
    alloc: Global,
    workers: &mut Vec<Worker<D>>,
    editors: Vec<Editor>,
    rows: &mut Vec<Row>,
    replicas: &mut Vec<Replica<D>>,
    answers: &mut Vec<SiteAnswers>,
) -> Result<Vec<Editor>, Memory>
    requires some { 0 < length workers.old.items }
    requires joined { FirstJoined workers.old.items editors.items }
    ensures { IfOk result (λ others. EndedNext workers.old.items workers.new.items editors.items others.items
        rows.old.items rows.new.items replicas.old.items replicas.new.items answers.old.items answers.new.items) }
{
    let worker = first_worker(workers);
    let home = worker.home();
    let Ok((own, others)) = split(alloc, home, editors) else {
        worker.quit(rt);
        return Err(Memory);
    };
    let (replica, given, row) = worker.end(rt, alloc, own)?;
    rows.push(row)?;
    replicas.push(replica)?;
    answers.push(given)?;
    Ok(others)
}

fn first_worker<D: Doc>(workers: &mut Vec<Worker<D>>) -> Worker<D>
    requires { 0 < length workers.old.items }
    ensures { workers.old.items ≡ result ∷ workers.new.items }
{
    workers.remove(0)
}

// The editors of this site, and the others.
fn split(
    alloc: Global,
    home: Site,
    editors: Vec<Editor>,
) -> Result<(Vec<Editor>, Vec<Editor>), Memory>
    ensures own { IfOk result (λ parts. parts.0.items ≡ editors_of home editors.items) }
    ensures others { IfOk result (λ parts. parts.1.items ≡ others_of home editors.items) }
{
    let mut editors = editors;
    let mut own = Vec::new(alloc);
    let mut others = Vec::new(alloc);
    while editors.len() > 0 {
        sort_next(home, &mut editors, &mut own, &mut others)?;
    }
    Ok((own, others))
}

fn sort_next(
    home: Site,
    editors: &mut Vec<Editor>,
    own: &mut Vec<Editor>,
    others: &mut Vec<Editor>,
) -> Result<(), Memory>
    requires { 0 < length editors.old.items }
    ensures own { OnOk result (own.new.items ++ editors_of home editors.new.items
        ≡ own.old.items ++ editors_of home editors.old.items) }
    ensures others { OnOk result (others.new.items ++ others_of home editors.new.items
        ≡ others.old.items ++ others_of home editors.old.items) }
    ensures fewer { length editors.new.items < length editors.old.items }
{
    let editor = editors.remove(0);
    if editor.home() == home {
        own.push(editor)?;
        return Ok(());
    }
    others.push(editor)?;
    Ok(())
}

// Ends these workers alone.
pub(crate) fn quit_all<D: Doc, R: Wait>(rt: &R, workers: Vec<Worker<D>>) {
    let mut workers = workers;
    while workers.len() > 0 {
        let worker = workers.remove(0);
        worker.quit(rt);
    }
    workers.destroy_empty();
}
