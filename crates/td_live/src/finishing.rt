// The lines that are left of all editors, done one editor after the other.
ghost use Rattle.std.specs.Prelude.{◌≡◌, ◌≤◌, ◌<◌, [], length, true, false, OnOk, IfOk, IsTrue};
ghost use Rattle.std.specs.List.{AllByRecursion};
ghost use Rattle.td_world.specs.World.{IsWorld, size, family_of};
ghost use Rattle.td_world.specs.Promises.{NobodyReady};
ghost use Rattle.td_live.specs.declared.next.Next.TheVariants as What;
ghost use Rattle.td_live.specs.Agenda.{IsNextToDo};
ghost use Rattle.td_live.specs.Following.{HasNothingLeft};
ghost use Rattle.td_live.specs.Books.{BookValue, GoesFurther};
ghost use Rattle.td_live.specs.Finishing.{IsFinishing, FinishedNext, steps_left};

use crate::book::Book;
use crate::next::Next;
use std::alloc::Global;
use td_base::Memory;
use td_doc::Doc;
use td_op::Request;
use td_trace::EditorLog;
use td_world::World;

/// Does all lines that are left of these books. The logs are those of the books, in their order.
pub(crate) fn finish<D: Doc>(
    alloc: Global,
    world: &mut World<D>,
    books: Vec<Book>,
) -> Result<Vec<EditorLog>, Memory>
    requires homes { AllByRecursion (λ (b : BookValue). b.home ≤ size world.old) books.items }
    ensures finished { IfOk result (λ logs.
        IsFinishing (family_of world.old) books.items (family_of world.new) logs.items []) }
    ensures nobody { OnOk result (NobodyReady world.old → NobodyReady world.new) }
{
    let mut books = books;
    let mut logs = Vec::new(alloc);
    while books.len() > 0 {
        finish_next(alloc, world, &mut books, &mut logs)?;
    }
    Ok(logs)
}

// Does all lines that are left of the first book.
fn finish_next<D: Doc>(
    alloc: Global,
    world: &mut World<D>,
    books: &mut Vec<Book>,
    logs: &mut Vec<EditorLog>,
) -> Result<(), Memory>
    requires some { 0 < length books.old.items }
    requires homes { AllByRecursion (λ (b : BookValue). b.home ≤ size world.old) books.old.items }
    ensures finished { OnOk result (FinishedNext (family_of world.old) books.old.items logs.old.items
        (family_of world.new) books.new.items logs.new.items) }
    ensures size { OnOk result (size world.new ≡ size world.old) }
    ensures nobody { OnOk result (NobodyReady world.old → NobodyReady world.new) }
{
    let mut book = books.remove(0);
    finish_book(alloc, world, &mut book)?;
    logs.push(book.into_log())?;
    Ok(())
}

// Does all that is left of the book's lines.
fn finish_book<D: Doc>(alloc: Global, world: &mut World<D>, book: &mut Book) -> Result<(), Memory>
    requires home { book.old.home ≤ size world.old }
    ensures further { OnOk result (GoesFurther (family_of world.old) book.old (family_of world.new) book.new) }
    ensures size { OnOk result (size world.new ≡ size world.old) }
    ensures over { OnOk result (HasNothingLeft book.new.rest) }
    ensures nobody { OnOk result (NobodyReady world.old → NobodyReady world.new) }
{
    let mut over = false;
    while !over {
        over = step(alloc, world, book)?;
    }
    Ok(())
}

// Does what is next, and answers whether there was nothing left to do.
fn step<D: Doc>(alloc: Global, world: &mut World<D>, book: &mut Book) -> Result<bool, Memory>
    requires home { book.old.home ≤ size world.old }
    ensures further { OnOk result (GoesFurther (family_of world.old) book.old (family_of world.new) book.new) }
    ensures size { OnOk result (size world.new ≡ size world.old) }
    ensures over { IfOk result (λ over. over ≡ true → HasNothingLeft book.new.rest) }
    ensures less { IfOk result (λ over. over ≡ false → steps_left book.new.rest < steps_left book.old.rest) }
    ensures nobody { OnOk result (NobodyReady world.old → NobodyReady world.new) }
{
    match book.next() {
        Next::Ask(request) => {
            call(world, book, request)?;
            Ok(false)
        }
        Next::Look => {
            look(alloc, world, book)?;
            Ok(false)
        }
        Next::Over => Ok(true),
    }
}

// The call that is next.
fn call<D: Doc>(world: &mut World<D>, book: &mut Book, request: Request) -> Result<(), Memory>
    requires home { book.old.home ≤ size world.old }
    requires next { IsNextToDo (What.Ask request) book.old.rest }
    ensures further { OnOk result (GoesFurther (family_of world.old) book.old (family_of world.new) book.new) }
    ensures size { OnOk result (size world.new ≡ size world.old) }
    ensures less { OnOk result (steps_left book.new.rest < steps_left book.old.rest) }
    ensures nobody { OnOk result (NobodyReady world.old → NobodyReady world.new) }
{
    let home = book.home();
    let reply = world.call(home, request)?;
    let entry = world.replica(home).entries();
    book.put_call(entry, &reply)?;
    Ok(())
}

// The look that is next, at the text that the site has now.
fn look<D: Doc>(alloc: Global, world: &World<D>, book: &mut Book) -> Result<(), Memory>
    requires home { book.old.home ≤ size world.now }
    requires next { IsNextToDo What.Look book.old.rest }
    ensures further { OnOk result (GoesFurther (family_of world.now) book.old (family_of world.now) book.new) }
    ensures less { OnOk result (steps_left book.new.rest < steps_left book.old.rest) }
{
    let home = book.home();
    let replica = world.replica(home);
    let text = replica.text(alloc)?;
    let upto = replica.entries();
    book.put_look(upto, text)?;
    Ok(())
}
