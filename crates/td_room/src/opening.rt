// How a room is opened.
ghost use Rattle.std.specs.Prelude.{◌≡◌, ◌<◌, ◌≤◌, ◌+◌, ◌==◌, ◌++◌, ◌∷◌, [], ℕ, List, All, length, map, count_by, IfOk, IfErr, OnOk};
ghost use Rattle.td_base.specs.declared.site.TheConstants.{MAX_SITE};
ghost use Rattle.td_view.specs.Values.{ReaderValue, one_more};
ghost use Rattle.td_law_meeting.specs.Thin.{Loss as LossValue};
ghost use Rattle.td_line.specs.Editors.{EditorValue};
ghost use Rattle.td_peer.specs.Peers.{PeerState};
ghost use Rattle.td_peer.specs.Opening.{IsFreshRow};
ghost use Rattle.td_room.specs.Workers.{WorkerValue};
ghost use Rattle.td_room.specs.declared.room_fault.RoomFault.TheVariants.{Refused, Memory as WantOfMemory};
ghost use Rattle.td_room.specs.Opening.{IsRoom, IsOpen, AreOpen, IsEditorOpened, AreOpened};
ghost use Rattle.td_room.specs.Opening.{AreFreshRowsFrom, OpenedNext, CanOpen, OpensOne};

use crate::closing::quit_all;
use crate::readers::Readers;
use crate::room_fault::RoomFault;
use crate::worker::Worker;
use std::alloc::Global;
use std::sync::Wait;
use td_base::{Memory, Site};
use td_doc::Doc;
use td_line::{Editor, open_line};
use td_peer::{Loss, Row, open_rows};
use td_replica::Replica;
use td_site::Site as Shown;
use td_view::{Opener, ViewsFault, views};

/// A room of n sites: a worker for each site, in order, and an editor for each home, in order, who may make so many
/// calls. Of the packets for one peer, counted from 1, each is lost whose number `drop_each` divides, and of the others
/// each is sent twice whose number `double_each` divides; 0 divides none. It may wait for readers.
pub fn room<D: Doc, R: Wait>(
    rt: &R,
    alloc: Global,
    opener: &mut Opener,
    n: u8,
    homes: &[Site],
    calls: &[u32],
    drop_each: u32,
    double_each: u32,
) -> Result<(Vec<Worker<D>>, Vec<Editor>), RoomFault>
    requires some { 1 ≤ n }
    requires few { n ≤ MAX_SITE }
    requires editors { length homes.now ≤ 64 }
    requires within { All (λ home. home ≤ n) homes.now }
    requires calls { length calls.now ≡ length homes.now }
    ensures room { IfOk result (λ made. IsRoom n homes.now calls.now
        (record { drop_each = drop_each; double_each = double_each }) made.0.items made.1.items) }
    ensures refused { IfErr result (λ fault. fault ≡ Refused → opener.new ≡ one_more opener.old) }
    ensures memory { IfErr result (λ fault. fault ≡ WantOfMemory → opener.new ≡ opener.old) }
    ensures opened { IfOk result (λ _. opener.new ≡ opener.old) }
{
    let loss = Loss {
        drop_each,
        double_each,
    };
    let Ok(rows) = open_rows(alloc, n, loss) else {
        return Err(RoomFault::Memory);
    };
    let mut workers = Vec::new(alloc);
    let readers = match open_sites(rt, alloc, opener, n, rows, homes, &mut workers) {
        Ok(readers) => readers,
        Err(fault) => {
            quit_all(rt, workers);
            return Err(fault);
        }
    };
    let Ok(editors) = open_editors(alloc, homes, calls, &mut workers, readers) else {
        quit_all(rt, workers);
        return Err(RoomFault::Memory);
    };
    Ok((workers, editors))
}

// Opens a site for each of these rows, which are those of sites 1 to n. For each, the readers of its editors.
fn open_sites<D: Doc, R: Wait>(
    rt: &R,
    alloc: Global,
    opener: &mut Opener,
    n: u8,
    rows: Vec<Row>,
    homes: &[Site],
    workers: &mut Vec<Worker<D>>,
) -> Result<Vec<Readers>, RoomFault>
    requires few { n ≤ MAX_SITE }
    requires editors { length homes.now ≤ 64 }
    requires all { length rows.items ≡ n }
    requires none { workers.old.items ≡ [] }
    requires fresh { (lost : LossValue) × AreFreshRowsFrom n lost 1 rows.items }
    ensures opens { IfOk result (λ readers. (lost : LossValue) → AreFreshRowsFrom n lost 1 rows.items
        → AreOpen [] homes.now n lost [] 1 workers.new.items readers.items) }
    ensures peers { OnOk result (map (λ (w : WorkerValue). w.peers) workers.new.items ≡ rows.items) }
    ensures refused { IfErr result (λ fault. fault ≡ Refused → opener.new ≡ one_more opener.old) }
    ensures memory { IfErr result (λ fault. fault ≡ WantOfMemory → opener.new ≡ opener.old) }
    ensures opened { OnOk result (opener.new ≡ opener.old) }
{
    let mut rows = rows;
    let mut readers = Vec::new(alloc);
    while rows.len() > 0 {
        open_next(
            rt,
            alloc,
            opener,
            n,
            homes,
            &mut rows,
            workers,
            &mut readers,
        )?;
    }
    Ok(readers)
}

// Opens the site of the first row.
fn open_next<D: Doc, R: Wait>(
    rt: &R,
    alloc: Global,
    opener: &mut Opener,
    n: u8,
    homes: &[Site],
    rows: &mut Vec<Row>,
    workers: &mut Vec<Worker<D>>,
    readers: &mut Vec<Readers>,
) -> Result<(), RoomFault>
    requires few { n ≤ MAX_SITE }
    requires editors { length homes.now ≤ 64 }
    requires some { 0 < length rows.old.items }
    requires within { length workers.old.items + length rows.old.items ≡ n }
    requires fresh { (lost : LossValue) × AreFreshRowsFrom n lost (length workers.old.items + 1) rows.old.items }
    ensures next { OnOk result ((row : List PeerState) × (rows.old.items ≡ row ∷ rows.new.items)
        × OpenedNext homes.now n (length workers.old.items + 1) row workers.old.items workers.new.items
        readers.old.items readers.new.items) }
    ensures refused { IfErr result (λ fault. fault ≡ Refused → opener.new ≡ one_more opener.old) }
    ensures memory { IfErr result (λ fault. fault ≡ WantOfMemory → opener.new ≡ opener.old) }
    ensures opened { OnOk result (opener.new ≡ opener.old) }
{
    let site = Site::at(workers.len() as u8);
    let Ok(()) = workers.reserve(1) else {
        return Err(RoomFault::Memory);
    };
    let Ok(()) = readers.reserve(1) else {
        return Err(RoomFault::Memory);
    };
    let row = first_row(rows);
    let (worker, its) = open_site(rt, alloc, opener, site, n, row, homes)?;
    workers.push_reserved(worker);
    readers.push_reserved(its);
    Ok(())
}

fn first_row(rows: &mut Vec<Row>) -> Row
    requires { 0 < length rows.old.items }
    ensures { rows.old.items ≡ result ∷ rows.new.items }
{
    rows.remove(0)
}

// Opens one site, with a reader for each of its editors and one more, which its worker keeps.
fn open_site<D: Doc, R: Wait>(
    rt: &R,
    alloc: Global,
    opener: &mut Opener,
    site: Site,
    n: u8,
    row: Row,
    homes: &[Site],
) -> Result<(Worker<D>, Readers), RoomFault>
    requires few { n ≤ MAX_SITE }
    requires within { site ≤ n }
    requires editors { length homes.now ≤ 64 }
    requires fresh { (lost : LossValue) × IsFreshRow n site lost row }
    ensures peers { IfOk result (λ made. made.0.peers ≡ row) }
    ensures opens { IfOk result (λ made. (lost : LossValue) → IsFreshRow n site lost row
        → IsOpen [] homes.now n lost [] site made.0 made.1) }
    ensures refused { IfErr result (λ fault. fault ≡ Refused → opener.new ≡ one_more opener.old) }
    ensures memory { IfErr result (λ fault. fault ≡ WantOfMemory → opener.new ≡ opener.old) }
    ensures opened { OnOk result (opener.new ≡ opener.old) }
{
    let (writer, mut readers) = match views(rt, alloc, opener, editors_at(site, homes) + 1) {
        Ok(made) => made,
        Err(ViewsFault::Refused) => return Err(RoomFault::Refused),
        Err(ViewsFault::Memory) => return Err(RoomFault::Memory),
    };
    let Ok(replica) = Replica::new(alloc, site, n) else {
        writer.quit(rt);
        return Err(RoomFault::Memory);
    };
    let reader = readers.remove(0);
    let worker = Worker::new(alloc, Shown::new(replica, writer), row.peers(), reader);
    Ok((worker, Readers::of(readers)))
}

// How many editors the site has.
fn editors_at(site: Site, homes: &[Site]) -> u32
    requires { length homes.now ≤ 64 }
    ensures count { result ≡ count_by (λ home. home == site) homes.now }
    ensures few { result ≤ 64 }
{
    homes.iter().filter(|home| **home == site).count() as u32
}

// Opens a line to each editor, of which these are the homes and the numbers of calls.
fn open_editors<D: Doc>(
    alloc: Global,
    homes: &[Site],
    calls: &[u32],
    workers: &mut Vec<Worker<D>>,
    readers: Vec<Readers>,
) -> Result<Vec<Editor>, Memory>
    requires calls { length calls.now ≡ length homes.now }
    requires few { length homes.now ≤ 64 }
    requires within { All (λ home. home ≤ length workers.old.items) homes.now }
    requires opens { (size : ℕ) × (lost : LossValue)
        × AreOpen [] homes.now size lost [] 1 workers.old.items readers.items }
    ensures opens { IfOk result (λ editors. (size : ℕ) (lost : LossValue)
        → AreOpen [] homes.now size lost [] 1 workers.old.items readers.items
        → (left : List (List ReaderValue)) × AreOpen homes.now [] size lost editors.items 1 workers.new.items left) }
    ensures opened { IfOk result (λ editors. AreOpened homes.now calls.now editors.items) }
    ensures peers { OnOk result (map (λ (w : WorkerValue). w.peers) workers.new.items
        ≡ map (λ (w : WorkerValue). w.peers) workers.old.items) }
{
    let mut readers = readers;
    let mut editors = Vec::new(alloc);
    for i in 0..homes.len() {
        open_editor(
            alloc,
            i as u32 + 1,
            homes[i],
            calls[i],
            workers,
            &mut readers,
            &mut editors,
        )?;
    }
    Ok(editors)
}

// Opens the line to the next editor, who has this number.
fn open_editor<D: Doc>(
    alloc: Global,
    number: u32,
    home: Site,
    calls: u32,
    workers: &mut Vec<Worker<D>>,
    readers: &mut Vec<Readers>,
    editors: &mut Vec<Editor>,
) -> Result<(), Memory>
    requires within { home ≤ length workers.old.items }
    requires opens { CanOpen number home workers.old.items readers.old.items editors.old.items }
    ensures opens { OnOk result (OpensOne number home workers.old.items workers.new.items readers.old.items
        readers.new.items editors.old.items editors.new.items) }
    ensures opened { OnOk result ((e : EditorValue) × (editors.new.items ≡ editors.old.items ++ e ∷ [])
        × IsEditorOpened home calls e) }
    ensures peers { OnOk result (map (λ (w : WorkerValue). w.peers) workers.new.items
        ≡ map (λ (w : WorkerValue). w.peers) workers.old.items) }
{
    let place = home.place();
    let its = &mut readers[place];
    let reader = its.take_first();
    let (line, editor) = open_line(alloc, number, home, reader, calls)?;
    let worker = &mut workers[place];
    worker.push_line(line)?;
    editors.push(editor)?;
    Ok(())
}
