// A desk, turn by turn.
use crate::live::agenda::{Line, lines_of};
use std::alloc::Global;
use std::process::Abort;
use std::sync::Wait;
use std::test::Fail;
use td_base::{Bytes, Memory, Site};
use td_line::Always;
use td_live::{Desk, Went, conclude};
use td_room::{Worker, room};
use td_script::EditorLines;
use td_tree::Tree;
use td_view::Opener;

// The line of an editor that types a letter.
fn a_letter(rt: &impl Abort, alloc: Global) -> Result<EditorLines, Fail> {
    lines_of(rt, alloc, &[Line::Ins(0, "a")])
}

// The worker of a new room of one site, and the desk of its one editor with these lines.
fn open<R: Wait + Abort>(rt: &R, alloc: Global, lines: EditorLines) -> (Worker<Tree>, Desk) {
    let homes = [Site::new(1).expect(rt, "a site")];
    let calls = [lines.calls()];
    let mut opener = Opener::new();
    let (mut workers, mut editors) = room::<Tree, R>(
        rt,
        alloc,
        &mut opener,
        1,
        &homes,
        &calls,
        0,
        0,
    ).expect(rt, "a room");
    assert!(rt; workers.len() == 1);
    let worker = workers.remove(0);
    workers.destroy_empty();
    assert!(rt; editors.len() == 1);
    let editor = editors.remove(0);
    (worker, Desk::new(alloc, editor, lines))
}

#[test]
fn a_desk_sends_its_call_and_goes_on_when_the_answer_came(rt: HostRuntime) -> Result<(), Fail> {
    let lines = a_letter(&rt, rt.alloc())?;
    let (mut worker, mut desk) = open(&rt, rt.alloc(), lines);
    let sent = [desk.turn(&rt), desk.turn(&rt)];
    let turned = worker.turn(&rt, &Always);
    let answered = [desk.turn(&rt), desk.turn(&rt), desk.turn(&rt)];
    worker.quit(&rt);
    assert_eq!(rt; sent, [Ok(Went::Submitted), Ok(Went::Again)]);
    assert_eq!(rt; turned, Ok(()));
    assert_eq!(rt;
        answered,
        [Ok(Went::Answered), Ok(Went::Over), Ok(Went::Over)]
    );
    Ok(())
}

// What a room of one site comes to where its one editor has these lines, and nobody makes a turn.
fn concluded<R: Wait + Abort>(rt: &R, alloc: Global, lines: EditorLines) -> Result<Bytes, Memory> {
    let homes = [Site::new(1).expect(rt, "a site")];
    let calls = [lines.calls()];
    let mut opener = Opener::new();
    let (workers, mut editors) = room::<Tree, R>(
        rt,
        alloc,
        &mut opener,
        1,
        &homes,
        &calls,
        0,
        0,
    ).expect(rt, "a room");
    assert!(rt; editors.len() == 1);
    let editor = editors.remove(0);
    let desks = vec![in alloc; Desk::new(alloc, editor, lines)].expect(rt, "memory");
    conclude(rt, alloc, workers, desks)
}

#[test]
fn what_a_desk_has_not_done_is_done_at_the_end(rt: HostRuntime) -> Result<(), Fail> {
    let lines = a_letter(&rt, rt.alloc())?;
    let trace = concluded(&rt, rt.alloc(), lines)?;
    let told =
        "sites 1\nsite 1\n1 insert 0 \"a\" -> made 1.1\neditor 1 1\ncall 1 1\ntext 1 \"a\"\nend\n";
    assert_eq!(rt; trace.as_slice(), told.as_bytes());
    Ok(())
}
