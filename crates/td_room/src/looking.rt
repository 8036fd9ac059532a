// The last looks of the editors of a site.
ghost use Rattle.std.specs.Prelude.{◌≡◌, ◌++◌, ◌∷◌, [], ◌<◌, length, None, OnOk};
ghost use Rattle.std.specs.List.{AllByRecursion};
ghost use mathlib.Core.List.{IsPrefix};
ghost use Rattle.td_view.specs.Publishes.{again, AreLegal};
ghost use Rattle.td_view.specs.Values.{ReaderValue};
ghost use Rattle.td_room.specs.Ending.{SeenFrom};

use std::alloc::Global;
use std::sync::Wait;
use td_base::Memory;
use td_view::{Reader, Told, Writer};

// Looks until a look answers.
fn look_once<R: Wait>(rt: &R, reader: &mut Reader)
    ensures known { IsPrefix reader.old.known reader.new.seen }
    ensures seen { IsPrefix reader.old.seen reader.new.seen }
    ensures legal { AreLegal reader.new.seen }
{
    for _ in rt.forever() {
        if let Some(()) = reader.look(|_shown| ()) {
            break;
        }
    }
}

// Learns the end, and looks until a look answers.
fn see_end<R: Wait>(rt: &R, reader: Reader, told: Told)
    requires { told.views ≡ reader.views }
    ensures { SeenFrom told.list reader }
{
    let mut reader = reader;
    reader.learn(told);
    look_once(rt, &mut reader);
}

// Lets each reader see the end.
fn see_all<R: Wait>(rt: &R, readers: Vec<Reader>, told: &Told)
    requires { AllByRecursion (λ (r : ReaderValue). r.views ≡ told.now.views) readers.items }
    ensures { AllByRecursion (SeenFrom told.now.list) readers.items }
{
    let mut readers = readers;
    while readers.len() > 0 {
        let reader = first_reader(&mut readers);
        see_end(rt, reader, told.again());
    }
}

fn first_reader(readers: &mut Vec<Reader>) -> Reader
    requires { 0 < length readers.old.items }
    ensures { readers.old.items ≡ result ∷ readers.new.items }
{
    readers.remove(0)
}

// Ends what the readers look at, when each has seen the end.
pub(crate) fn end_views<R: Wait>(
    rt: &R,
    alloc: Global,
    writer: Writer,
    readers: Vec<Reader>,
) -> Result<(), Memory>
    requires nothing { writer.owed ≡ None }
    requires views { AllByRecursion (λ (r : ReaderValue). r.views ≡ writer.views) readers.items }
    ensures { OnOk result (AllByRecursion
        (λ (r : ReaderValue). IsPrefix r.seen (writer.publishes ++ again writer.shown 1 ∷ [])) readers.items) }
{
    let (ended, tolds) = writer.end(rt, alloc, 1)?;
    see_all(rt, readers, &tolds[0]);
    ended.quit(rt);
    Ok(())
}
