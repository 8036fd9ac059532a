// The two ends of a line, on one thread.
ghost use Rattle.std.specs.Prelude.{◌≡◌, false, IfOk};
ghost use Rattle.td_replica.specs.Replica.{new_replica};
ghost use Rattle.td_line.specs.Editors.{LaterEditor};

use super::opened;
use crate::{Answer, Ask, Editor, Gate, Line, open_line};
use std::alloc::Global;
use std::marker::Model;
use std::process::Abort;
use std::sync::Wait;
use std::sync::atomic::{AtomicU64, Ordering};
use std::test::Fail;
use td_base::{Atom, Dot, Site as Number};
use td_doc::Rows;
use td_op::{Reply, Request};
use td_replica::Replica;
use td_site::Site;
use td_view::Reader;

// Counts the requests taken and the answers sent.
#[derive(Drop)]
struct Counts {
    taken: AtomicU64,
    sent: AtomicU64,
}

impl Gate for Counts {
    fn before(&self, _site: Number, _editor: u32, _call: u32) {
        self.taken.fetch_add(1, Ordering::SeqCst);
    }

    fn after(&self, _site: Number, _editor: u32, _call: u32) {
        self.sent.fetch_add(1, Ordering::SeqCst);
    }

    fn turned(&self, _site: Number) {}
}

impl Counts {
    fn new() -> Counts {
        Counts {
            taken: AtomicU64::new(0),
            sent: AtomicU64::new(0),
        }
    }

    fn so_far(&self) -> (u64, u64) {
        let taken = self.taken.load(Ordering::SeqCst);
        (taken, self.sent.load(Ordering::SeqCst))
    }
}

// A site with the two ends of a line.
struct Ends {
    site: Site<Rows>,
    line: Line,
    editor: Editor,
}

impl Model for Ends {
    ghost use Rattle.std.specs.Prelude.{◌≡◌, false, Some};
    ghost use Rattle.td_site.specs.Sites.{SiteValue};
    ghost use Rattle.td_line.specs.Lines.{LineValue, HasServed};
    ghost use Rattle.td_line.specs.Editors.{EditorValue, Belongs};

    ghost Value = { SiteValue × LineValue × EditorValue };

    ghost view = { λ e. (e.site, e.line, e.editor) };

    ghost invariant = { λ e.
        (e.site.late ≡ false)
        × HasServed e.site.replica.entries e.line
        × (e.line.answers.mark ≡ Some e.site.writer.views)
        × Belongs e.line e.editor };
}

fn number() -> Result<Number, Fail>
    ensures { IfOk result (λ number. number ≡ 1) }
{
    Ok(Number::new(1).ok_or("a site")?)
}

// The replica of the one site, which has done nothing.
fn replica(alloc: Global) -> Result<Replica<Rows>, Fail>
    ensures { IfOk result (λ replica. replica ≡ new_replica 1 1) }
{
    Ok(Replica::new(alloc, number()?, 1)?)
}

// The one site, with a reader of its text.
fn site_of_one<R: Wait>(rt: &R, alloc: Global) -> Result<(Site<Rows>, Reader), Fail>
    ensures late { IfOk result (λ opened. opened.0.late ≡ false) }
    ensures views { IfOk result (λ opened. opened.1.views ≡ opened.0.writer.views) }
{
    let (writer, reader) = opened(rt, alloc)?;
    match replica(alloc) {
        Ok(replica) => Ok((Site::new(replica, writer), reader)),
        Err(fail) => {
            writer.quit(rt);
            Err(fail)
        }
    }
}

// The ends of a line of so many calls.
fn open<R: Wait>(rt: &R, alloc: Global, calls: u32) -> Result<Ends, Fail> {
    let (site, reader) = site_of_one(rt, alloc)?;
    let home = site.replica().site();
    match open_line(alloc, 1, home, reader, calls) {
        Ok((line, editor)) => Ok(Ends { site, line, editor }),
        Err(_) => {
            site.quit(rt);
            Err("memory".into())
        }
    }
}

// Sends the next request, also where the last call has no answer polled.
fn send<R: Wait + Abort>(rt: &R, editor: &mut Editor, request: Request)
    ensures { LaterEditor editor.old editor.new }
{
    assert!(rt; editor.made < editor.calls);
    let call = editor.made + 1;
    match editor.asks.try_send(rt, Ask { call, request }) {
        Ok(()) => editor.made = call,
        Err(_) => assert!(rt; false),
    }
}

impl Ends {
    fn ask<R: Wait + Abort>(&mut self, rt: &R, request: Request) {
        send(rt, &mut self.editor, request);
    }

    // A turn. After want of memory the next one goes on.
    fn turn<R: Wait + Abort>(&mut self, rt: &R, gate: &Counts) {
        if self.line.serve(rt, gate, &mut self.site).is_err() {
            assert_eq!(rt; self.line.serve(rt, gate, &mut self.site), Ok(()));
        }
    }

    // The next answer.
    fn poll<R: Wait>(&mut self, rt: &R) -> Option<Answer> {
        self.editor.poll(rt)
    }

    // How many entries the text has that is looked at.
    fn upto(&mut self) -> Option<u64> {
        self.editor.look(|shown| shown.upto())
    }

    // All answers.
    fn end<R: Wait>(self, rt: &R, alloc: Global) -> Result<Vec<Answer>, Fail> {
        let Ends {
            mut site,
            line,
            editor,
        } = self;
        let ended = line.end(rt, alloc, &mut site, editor);
        site.quit(rt);
        let (answers, _reader) = ended?;
        Ok(answers)
    }
}

// What the calls ask for: the third is refused.
fn requests() -> Result<[Request; 4], Fail> {
    let first = Atom::new(b"a").map_err(|_| "an atom")?;
    let second = Atom::new(b"b").map_err(|_| "an atom")?;
    Ok([
        Request::Insert {
            index: 0,
            atom: first,
        },
        Request::Insert {
            index: 1,
            atom: second,
        },
        Request::Delete { index: 2 },
        Request::Delete { index: 0 },
    ])
}

fn made(seq: u32) -> Result<Reply, Fail> {
    let dot = Dot::new(number()?, seq).ok_or("a dot")?;
    Ok(Reply::Made { dot })
}

fn answer(call: u8, reply: Reply) -> Answer {
    Answer {
        call: u32::from(call),
        entry: u64::from(call),
        reply,
    }
}

// And what each is answered.
fn answers() -> Result<[Answer; 4], Fail> {
    Ok([
        answer(1, made(1)?),
        answer(2, made(2)?),
        answer(3, Reply::Position { len: 2 }),
        answer(4, made(3)?),
    ])
}

// Each call by itself, after a turn with nothing to do.
fn in_turn<R: Wait + Abort>(
    rt: &R,
    ends: &mut Ends,
    requests: &[Request; 4],
    answers: &[Answer; 4],
) {
    let gate = Counts::new();
    ends.turn(rt, &gate);
    assert_eq!(rt; (ends.poll(rt), gate.so_far()), (None, (0, 0)));
    for (request, answer) in requests.iter().zip(answers) {
        ends.ask(rt, *request);
        ends.turn(rt, &gate);
        assert_eq!(rt; ends.poll(rt), Some(*answer));
        assert_eq!(rt; ends.upto(), Some(answer.entry));
        assert_eq!(rt; gate.so_far(), (answer.entry, answer.entry));
    }
}

#[test]
fn each_request_is_one_entry_is_shown_and_answered(rt: HostRuntime) -> Result<(), Fail> {
    let requests = requests()?;
    let answers = answers()?;
    let mut ends = open(&rt, rt.alloc(), 4)?;
    in_turn(&rt, &mut ends, &requests, &answers);
    assert_eq!(rt; ends.end(&rt, rt.alloc())?.len(), 4);
    Ok(())
}

// Two calls are asked for at once, and two more while the first has no answer polled.
fn owed<R: Wait + Abort>(rt: &R, ends: &mut Ends, requests: &[Request; 4], answers: &[Answer; 4]) {
    let [first, second, third, fourth] = *requests;
    let gate = Counts::new();
    ends.ask(rt, first);
    ends.ask(rt, second);
    ends.turn(rt, &gate);
    ends.turn(rt, &gate);
    assert_eq!(rt; gate.so_far(), (2, 2));
    ends.ask(rt, third);
    ends.ask(rt, fourth);
    ends.turn(rt, &gate);
    ends.turn(rt, &gate);
    assert_eq!(rt; gate.so_far(), (3, 2));
    assert_eq!(rt; ends.poll(rt), Some(answers[0]));
    ends.turn(rt, &gate);
    assert_eq!(rt; gate.so_far(), (4, 3));
    assert_eq!(rt;
        (ends.poll(rt), ends.poll(rt)),
        (Some(answers[1]), Some(answers[2]))
    );
    ends.turn(rt, &gate);
    assert_eq!(rt; (ends.poll(rt), ends.upto()), (Some(answers[3]), Some(4)));
}

#[test]
fn no_request_is_taken_while_an_answer_is_owed(rt: HostRuntime) -> Result<(), Fail> {
    let requests = requests()?;
    let answers = answers()?;
    let mut ends = open(&rt, rt.alloc(), 4)?;
    owed(&rt, &mut ends, &requests, &answers);
    assert_eq!(rt; ends.end(&rt, rt.alloc())?.as_slice(), answers.as_slice());
    Ok(())
}

// Three calls are done, of which two are answered, and a fourth is asked for.
fn left_open<R: Wait + Abort>(rt: &R, ends: &mut Ends, requests: &[Request; 4]) {
    let [first, second, third, fourth] = *requests;
    let gate = Counts::new();
    ends.ask(rt, first);
    ends.ask(rt, second);
    ends.turn(rt, &gate);
    ends.turn(rt, &gate);
    ends.ask(rt, third);
    ends.turn(rt, &gate);
    ends.ask(rt, fourth);
    assert_eq!(rt; gate.so_far(), (3, 2));
}

#[test]
fn the_end_does_what_was_asked_and_keeps_all_answers(rt: HostRuntime) -> Result<(), Fail> {
    let requests = requests()?;
    let answers = answers()?;
    let mut ends = open(&rt, rt.alloc(), 4)?;
    left_open(&rt, &mut ends, &requests);
    assert_eq!(rt; ends.end(&rt, rt.alloc())?.as_slice(), answers.as_slice());
    Ok(())
}
