ghost use Rattle.std.specs.Prelude.{◌≡◌, ◌<◌, ◌∷◌, [], length, drop, replicate, None, IfErr, IfOk};
ghost use Rattle.left_right.specs.Sides.{view as seat};
ghost use Rattle.td_view.specs.declared.views_fault.ViewsFault.{ViewsFault};
ghost use Rattle.td_view.specs.declared.views_fault.ViewsFault.TheVariants.{Refused, Memory as WantOfMemory};
ghost use Rattle.td_view.specs.History.{head_of};
ghost use Rattle.td_view.specs.Publishes.{start};
ghost use Rattle.td_view.specs.Deeds.{publish_of};
ghost use Rattle.td_view.specs.Tied.{StandsAtEnd, IsUngiven};
ghost use Rattle.td_view.specs.Values.{new_reader, one_more};

use crate::history::{Head, Publishes};
use crate::opener::Opener;
use crate::reader::Reader;
use crate::shown::Shown;
use crate::table::{Looker, Names, Press, Tells};
use crate::views_fault::ViewsFault;
use crate::writer::Writer;
use logbook::{Seen, Start, Word};
use std::alloc::{AllocError, Global};
use std::sync::Wait;
use td_rope::Rope;

/// A writer, and so many readers of what it publishes.
pub fn views<R: Wait>(
    rt: &R,
    alloc: Global,
    opener: &mut Opener,
    readers: u32,
) -> Result<(Writer, Vec<Reader>), ViewsFault>
    requires { 0 < readers }
    ensures writer { IfOk result (λ made.
        (made.0.publishes ≡ start ∷ []) × (made.0.shown ≡ start) × (made.0.owed ≡ None)) }
    ensures readers { IfOk result (λ made. made.1.items ≡ replicate readers (new_reader made.0.views (start ∷ []))) }
    ensures refused { IfErr result (λ fault. fault ≡ Refused → opener.new ≡ one_more opener.old) }
    ensures same { IfErr result (λ fault. fault ≡ WantOfMemory → opener.new ≡ opener.old) }
    ensures opened { IfOk result (λ _. opener.new ≡ opener.old) }
{
    let (past, head) = history();
    let Ok(press) = first_press(rt, alloc, &past, readers) else {
        return Err(ViewsFault::Memory);
    };
    let (press, made) = row(alloc, opener, press, &past, readers);
    match made {
        Ok(all) => Ok((Writer::new(press, head, past, 1, None, 0), all)),
        Err(fault) => {
            press.take(rt);
            Err(fault)
        }
    }
}

// A new history, with its word.
fn history() -> (Publishes, Head)
    ensures { (result.0.log ≡ start ∷ []) × (result.1 ≡ head_of result.0.book) }
{
    let (past, mut pen, _second) = Seen::open(Start::alone(), 1, 0);
    let head = Word::tracked(1, &mut pen);
    (past, head)
}

// The press with the text before anything is published. Its seat knows the history.
fn first_press<R: Wait>(
    rt: &R,
    alloc: Global,
    past: &Publishes,
    readers: u32,
) -> Result<Press, AllocError>
    requires past { past.now.log ≡ start ∷ [] }
    requires readers { 0 < readers }
    ensures stands { IfOk result (λ press. StandsAtEnd press.desk.shown.value
        × (publish_of press.desk.shown.value ≡ start) × (press.desk.shown.value.past ≡ past.now)) }
    ensures nothing { IfOk result (λ press. drop press.behind press.log.items ≡ []) }
    ensures fresh { IfOk result (λ press. IsUngiven past.now (seat press.desk.place)) }
{
    let one = Shown::start(Rope::new(alloc), past.again());
    let two = Shown::start(Rope::new(alloc), past.again());
    let press = Press::new(alloc, one, two, readers as usize)?;
    let (press, named) = name(rt, press);
    if named.is_err() {
        press.take(rt);
        return Err(AllocError);
    }
    Ok(press)
}

// An empty publish, by which the seat of the press learns which history the texts carry.
fn name<R: Wait>(rt: &R, press: Press) -> (Press, Result<(), AllocError>)
    requires nothing { drop press.behind press.log.items ≡ [] }
    requires stands { StandsAtEnd press.desk.shown.value }
    ensures { IfOk result.1 (λ _. StandsAtEnd result.0.desk.shown.value
        × (publish_of result.0.desk.shown.value ≡ publish_of press.desk.shown.value)
        × (result.0.desk.shown.value.past ≡ press.desk.shown.value.past)
        × (drop result.0.behind result.0.log.items ≡ [])
        × IsUngiven result.0.desk.shown.value.past (seat result.0.desk.place)) }
{
    press.publish_as::<Names, R>(rt)
}

// So many readers. Every refusal of one is counted.
fn row(
    alloc: Global,
    opener: &mut Opener,
    press: Press,
    past: &Publishes,
    readers: u32,
) -> (Press, Result<Vec<Reader>, ViewsFault>)
    requires past { length past.now.log ≡ 1 }
    requires fresh { IsUngiven past.now (seat press.desk.place) }
    ensures kept { (result.0.desk.shown ≡ press.desk.shown)
        × (drop result.0.behind result.0.log.items ≡ drop press.behind press.log.items) }
    ensures readers { IfOk result.1 (λ all. all.items ≡ replicate readers (new_reader past.now.book past.now.log)) }
    ensures refused { IfErr result.1 (λ fault. fault ≡ Refused → opener.new ≡ one_more opener.old) }
    ensures same { IfErr result.1 (λ fault. fault ≡ WantOfMemory → opener.new ≡ opener.old) }
    ensures opened { IfOk result.1 (λ _. opener.new ≡ opener.old) }
{
    let mut press = press;
    let mut all = Vec::new(alloc);
    for _ in 0..readers {
        if all.reserve(1).is_err() {
            return (press, Err(ViewsFault::Memory));
        }
        let Ok(one) = looker(&mut press, past) else {
            opener.refuse();
            return (press, Err(ViewsFault::Refused));
        };
        all.push_reserved(Reader::new(one, past, 1));
    }
    (press, Ok(all))
}

// A seat that knows the history.
fn looker(press: &mut Press, past: &Publishes) -> Result<Looker, AllocError>
    requires { IsUngiven past.now (seat press.old.desk.place) }
    ensures kept { (press.new.desk.shown ≡ press.old.desk.shown)
        × (drop press.new.behind press.new.log.items ≡ drop press.old.behind press.old.log.items)
        × (seat press.new.desk.place ≡ seat press.old.desk.place) }
    ensures fresh { IfOk result (λ looker. IsUngiven past.now (seat looker.place)) }
{
    let _ = past;
    let mut reader = press.factory().reader()?;
    reader.learn::<Tells>(press.tell::<Tells>());
    Ok(reader)
}
