ghost use Rattle.std.specs.Prelude.{◌≡◌, ◌≤◌, [], ◌∷◌, Some, None, IfOk, IsTrue};
ghost use Rattle.td_view.specs.Publishes.{start};

use super::*;
use std::alloc::Global;
use std::process::Abort;
use std::sync::Wait;
use std::test::Fail;
use td_base::Site;
use td_link::{Rx, Tx, link};
use td_op::{Reply, Request};
use td_view::{Opener, Reader, Writer, views};

// A request that a site with no text refuses so.
const ASKED: Request = Request::Delete { index: 0 };

const REFUSED: Reply = Reply::Position { len: 0 };

// A writer of views and its one reader.
fn opened<R: Wait>(rt: &R, alloc: Global) -> Result<(Writer, Reader), Fail>
    ensures views { IfOk result (λ made. made.1.views ≡ made.0.views) }
    ensures start { IfOk result (λ made.
        (made.0.publishes ≡ start ∷ []) × (made.0.shown ≡ start) × (made.0.owed ≡ None)) }
{
    let mut opener = Opener::new();
    let (writer, mut readers) = views(rt, alloc, &mut opener, 1).map_err(|_| "views")?;
    match readers.pop() {
        Some(reader) => Ok((writer, reader)),
        None => {
            writer.quit(rt);
            Err("no reader".into())
        }
    }
}

// An editor that may make so many calls, and the other ends of its queues.
fn editor_of(
    alloc: Global,
    reader: Reader,
    calls: u32,
) -> Result<(Rx<Ask>, Tx<Report>, Editor), Fail>
    ensures { IfOk result (λ ends. ends.1.mark ≡ Some reader.views) }
{
    let (sender, asks) = link::<Ask>(alloc, 2, ())?;
    let (answers, taker) = link::<Report>(alloc, 2, reader.mark())?;
    let editor = Editor {
        home: Site::new(2).ok_or("a site")?,
        asks: sender,
        answers: taker,
        reader,
        entry: 0,
        made: 0,
        calls,
        polled: 0,
    };
    Ok((asks, answers, editor))
}

// Publishes, of a writer that owes nothing. False where memory ran out.
#[tactic(auto, using(td_view::specs::Owing::owing_none))]
fn publish<R: Wait>(rt: &R, writer: &mut Writer, upto: u64) -> bool
    requires nothing { writer.old.owed ≡ None }
    requires rises { writer.old.shown.upto ≤ upto }
    ensures published { IsTrue result → (writer.new.owed ≡ None) × (writer.new.shown.upto ≡ upto) }
    ensures views { writer.new.views ≡ writer.old.views }
{
    writer.publish(rt, upto, &[]).is_ok()
}

// Sends the answer of a call whose entry is shown.
fn answer<R: Wait>(rt: &R, writer: &Writer, answers: &mut Tx<Report>, call: u32, entry: u64) -> bool
    requires mark { answers.old.mark ≡ Some writer.now.views }
    requires shown { entry ≤ writer.now.shown.upto }
    ensures mark { answers.new.mark ≡ answers.old.mark }
{
    let answer = Answer {
        call,
        entry,
        reply: REFUSED,
    };
    let told = writer.told();
    answers.try_send(rt, Report { answer, told }).is_ok()
}

// The number of the next call that comes.
fn next_call<R: Wait>(rt: &R, asks: &mut Rx<Ask>) -> Option<u32> {
    Some(asks.try_take(rt)?.call)
}

// One call, from its request to a look, of an editor that may make no more.
fn call_once<R: Wait + Abort>(
    rt: &R,
    writer: &mut Writer,
    asks: &mut Rx<Ask>,
    answers: &mut Tx<Report>,
    editor: &mut Editor,
) -> Result<(), Fail>
    requires mark { answers.old.mark ≡ Some writer.old.views }
    requires start { (writer.old.owed ≡ None) × (writer.old.shown.upto ≡ 0) }
{
    assert_eq!(rt; editor.poll(rt), None);
    assert_eq!(rt; editor.submit(rt, ASKED), Ok(1));
    assert_eq!(rt; editor.submit(rt, ASKED), Err(NotSent::Busy { pending: 1 }));
    assert_eq!(rt; next_call(rt, asks), Some(1));
    if !publish(rt, writer, 7) {
        return Err("memory".into());
    }
    assert!(rt; answer(rt, writer, answers, 1, 7));
    assert_eq!(rt;
        editor.poll(rt),
        Some(Answer {
            call: 1,
            entry: 7,
            reply: REFUSED
        })
    );
    assert_eq!(rt; editor.look(|shown| shown.upto()), Some(7));
    assert_eq!(rt; editor.submit(rt, ASKED), Err(NotSent::Spent { calls: 1 }));
    assert_eq!(rt; (editor.refused(), editor.home().number()), (0, 2));
    Ok(())
}

#[test]
fn a_call_is_answered_and_what_it_did_is_looked_at(rt: HostRuntime) -> Result<(), Fail> {
    let (mut writer, reader) = opened(&rt, rt.alloc())?;
    let called = match editor_of(rt.alloc(), reader, 1) {
        Ok((mut asks, mut answers, mut editor)) => {
            call_once(&rt, &mut writer, &mut asks, &mut answers, &mut editor)
        }
        Err(fail) => Err(fail),
    };
    writer.quit(&rt);
    called
}

// Two calls that are answered though nobody took their requests, and so a third that finds no place.
fn call_thrice<R: Wait + Abort>(
    rt: &R,
    writer: &Writer,
    answers: &mut Tx<Report>,
    editor: &mut Editor,
) -> Result<(), Fail>
    requires { answers.old.mark ≡ Some writer.now.views }
{
    assert_eq!(rt; editor.submit(rt, ASKED), Ok(1));
    assert!(rt; answer(rt, writer, answers, 1, 0) && editor.poll(rt).is_some());
    assert_eq!(rt; editor.submit(rt, ASKED), Ok(2));
    assert!(rt; answer(rt, writer, answers, 2, 0) && editor.poll(rt).is_some());
    assert_eq!(rt; editor.submit(rt, ASKED), Err(NotSent::Full));
    Ok(())
}

#[test]
fn a_queue_of_two_places_takes_no_third_request(rt: HostRuntime) -> Result<(), Fail> {
    let (writer, reader) = opened(&rt, rt.alloc())?;
    let called = match editor_of(rt.alloc(), reader, 3) {
        Ok((_asks, mut answers, mut editor)) => {
            call_thrice(&rt, &writer, &mut answers, &mut editor)
        }
        Err(fail) => Err(fail),
    };
    writer.quit(&rt);
    called
}

mod turns;
