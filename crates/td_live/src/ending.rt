// What is left when the threads are done becomes one live family, and its trace.
ghost use Rattle.std.specs.Prelude.{◌≡◌, ◌<◌, ◌≤◌, ◌++◌, [], ℕ, List, length, map, IfOk, OnOk};
ghost use Rattle.std.specs.List.{AllByRecursion, AllZip};
ghost use Rattle.td_base.specs.declared.site.TheConstants.{MAX_SITE};
ghost use Rattle.td_room.specs.Rooms.{AreOfOneRoom};
ghost use Rattle.td_script.specs.declared.live.editor_line.EditorLine.{EditorLine};
ghost use Rattle.td_world.specs.World.{family_of, size};
ghost use Rattle.td_world.specs.Promises.{NobodyReady};
ghost use Rattle.td_live.specs.Desks.{DeskValue, HasDoneLines, IsDesk};
ghost use Rattle.td_live.specs.Books.{BookValue, AreBooks};
ghost use Rattle.td_live.specs.Drafts.{CanBringUp, TakenApart, all_brought_up, book_of};
ghost use Rattle.td_live.specs.Ending.{IsTraceFrom, IsLiveEnd};

use crate::book::Book;
use crate::desk::Desk;
use crate::finishing::finish;
use crate::printing::trace_of;
use std::alloc::Global;
use std::sync::Wait;
use td_base::{Bytes, Memory};
use td_doc::Doc;
use td_line::Editor;
use td_room::{Answers, Closed, Worker, close};
use td_world::World;

/// Ends the workers and the desks of a room: what the editors have not done yet of their lines is done, one editor
/// after the other, and all sites get all that was sent. The trace of what all that comes to, by whatever lines the
/// desks follow. After `Memory` all is gone. It may wait for readers.
pub fn conclude<D: Doc, R: Wait>(
    rt: &R,
    alloc: Global,
    workers: Vec<Worker<D>>,
    desks: Vec<Desk>,
) -> Result<Bytes, Memory>
    requires { AreOfOneRoom workers.items (map (λ (d : DeskValue). d.editor) desks.items) }
    ensures { IfOk result (λ bytes. (lines : List (List EditorLine)) → AllZip HasDoneLines lines desks.items
        → IsLiveEnd workers.items lines desks.items bytes) }
{
    let Ok((editors, books)) = take_apart(alloc, desks) else {
        quit_all(rt, workers);
        return Err(Memory);
    };
    let sites = workers.len() as u8;
    let Closed { replicas, answers } = close(rt, alloc, workers, editors)?;
    let books = bring_all_up(alloc, books, answers)?;
    let world = World::of_replicas(alloc, replicas)?;
    let bytes = wind_up(alloc, world, sites, books)?;
    Ok(bytes)
}

/// Does what is left of the books' lines in a world of so many sites, gives all sites what was sent, and tells of it.
pub(crate) fn wind_up<D: Doc>(
    alloc: Global,
    world: World<D>,
    sites: u8,
    books: Vec<Book>,
) -> Result<Bytes, Memory>
    requires sites { sites ≡ size world }
    requires few { sites ≤ MAX_SITE }
    requires homes { AllByRecursion (λ (b : BookValue). b.home ≤ size world) books.items }
    requires nobody { NobodyReady world }
    ensures { IfOk result (λ bytes. (lines : List (List EditorLine)) → AreBooks (family_of world) lines books.items
        → IsTraceFrom lines (family_of world) books.items bytes) }
{
    let mut world = world;
    let logs = finish(alloc, &mut world, books)?;
    world.settle()?;
    let bytes = trace_of(alloc, &world, sites, &logs)?;
    Ok(bytes)
}

// Each desk becomes an editor and a book.
fn take_apart(alloc: Global, desks: Vec<Desk>) -> Result<(Vec<Editor>, Vec<Book>), Memory>
    ensures editors { IfOk result (λ parts. parts.0.items ≡ map (λ (d : DeskValue). d.editor) desks.items) }
    ensures books { IfOk result (λ parts. parts.1.items ≡ map book_of desks.items) }
    ensures desks { OnOk result (AllByRecursion IsDesk desks.items) }
{
    let mut desks = desks;
    let mut editors = Vec::new(alloc);
    let mut books = Vec::new(alloc);
    while desks.len() > 0 {
        take_next_apart(&mut desks, &mut editors, &mut books)?;
    }
    Ok((editors, books))
}

fn take_next_apart(
    desks: &mut Vec<Desk>,
    editors: &mut Vec<Editor>,
    books: &mut Vec<Book>,
) -> Result<(), Memory>
    requires { 0 < length desks.old.items }
    ensures { OnOk result (TakenApart desks.old.items desks.new.items editors.old.items editors.new.items
        books.old.items books.new.items) }
{
    let desk = desks.remove(0);
    let (editor, agenda, did) = desk.parts();
    books.push(Book::of(editor.home(), agenda, did)?)?;
    editors.push(editor)?;
    Ok(())
}

// Each book gets the answer that it has not yet.
fn bring_all_up(alloc: Global, books: Vec<Book>, answers: Vec<Answers>) -> Result<Vec<Book>, Memory>
    requires { AllZip CanBringUp answers.items books.items }
    ensures { IfOk result (λ all. all.items ≡ all_brought_up answers.items books.items) }
{
    let mut books = books;
    let mut answers = answers;
    let mut all = Vec::new(alloc);
    while books.len() > 0 {
        bring_next_up(&mut books, &mut answers, &mut all)?;
    }
    Ok(all)
}

fn bring_next_up(
    books: &mut Vec<Book>,
    answers: &mut Vec<Answers>,
    all: &mut Vec<Book>,
) -> Result<(), Memory>
    requires some { 0 < length books.old.items }
    requires can { AllZip CanBringUp answers.old.items books.old.items }
    ensures can { OnOk result (AllZip CanBringUp answers.new.items books.new.items) }
    ensures all { OnOk result (all.new.items ++ all_brought_up answers.new.items books.new.items
        ≡ all.old.items ++ all_brought_up answers.old.items books.old.items) }
    ensures fewer { length books.new.items < length books.old.items }
{
    let mut book = books.remove(0);
    let its = answers.remove(0);
    book.bring_up(its.as_slice())?;
    all.push(book)?;
    Ok(())
}

// Ends these workers alone.
pub(crate) fn quit_all<D: Doc, R: Wait>(rt: &R, workers: Vec<Worker<D>>) {
    let mut workers = workers;
    while workers.len() > 0 {
        let worker = workers.remove(0);
        worker.quit(rt);
    }
    workers.destroy_empty();
}
