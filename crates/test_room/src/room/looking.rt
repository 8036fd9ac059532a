// An editor that looks while a publish of its site waits for another one.
use crate::room::stage::site;
use std::process::Abort;
use std::sync::Wait;
use std::sync::atomic::{AtomicU32, Ordering};
use std::thread;
use std::thread::{Threads, join};
use td_base::{Atom, Site};
use td_doc::Rows;
use td_line::{Editor, Gate};
use td_op::Request;
use td_room::{Worker, room};
use td_view::Opener;

// So often it is looked whether something has happened.
const PATIENCE: u64 = 30_000_000;

// The last call of which the request was taken, and the last one that was answered.
#[derive(Drop)]
struct Calls {
    taken: AtomicU32,
    answered: AtomicU32,
}

impl Gate for Calls {
    fn before(&self, _site: Site, _editor: u32, call: u32) {
        self.taken.store(call, Ordering::SeqCst);
    }

    fn after(&self, _site: Site, _editor: u32, call: u32) {
        self.answered.store(call, Ordering::SeqCst);
    }

    fn turned(&self, _site: Site) {}
}

// Makes turns up to the answer to call 2.
fn work<R: Wait>(rt: &R, calls: &Calls, worker: &mut Worker<Rows>) {
    for _ in 0..PATIENCE {
        let _turned = worker.turn(rt, calls);
        if calls.answered.load(Ordering::SeqCst) == 2 {
            return;
        }
        thread::yield_now();
    }
}

fn ask<R: Wait>(rt: &R, editor: &mut Editor, atom: Atom) {
    let _sent = editor.submit(rt, Request::Insert { index: 0, atom });
}

fn wait_for_answer<R: Wait>(rt: &R, editor: &mut Editor) {
    for _ in 0..PATIENCE {
        if editor.poll(rt).is_some() {
            return;
        }
        thread::yield_now();
    }
}

fn wait_for_second_request(calls: &Calls) {
    for _ in 0..PATIENCE {
        if calls.taken.load(Ordering::SeqCst) == 2 {
            return;
        }
        thread::yield_now();
    }
}

// The first editor looks, and meanwhile the other one makes two calls: the second publish waits for that look. How many
// entries each was shown then, and which call had been answered last.
fn look_within<R: Wait>(
    rt: &R,
    calls: &Calls,
    first: &mut Editor,
    other: &mut Editor,
    atom: Atom,
) -> Option<(u64, Option<u64>, u32)> {
    first.look(|shown| {
        ask(rt, other, atom);
        wait_for_answer(rt, other);
        ask(rt, other, atom);
        wait_for_second_request(calls);
        let seen = other.look(|shown| shown.upto());
        (shown.upto(), seen, calls.answered.load(Ordering::SeqCst))
    })
}

fn look_beside<R: Threads + Wait + Sync>(
    rt: &R,
    calls: &Calls,
    worker: &mut Worker<Rows>,
    first: &mut Editor,
    other: &mut Editor,
    atom: Atom,
) -> Option<(u64, Option<u64>, u32)> {
    let (_, looked) = join(
        rt,
        || work(rt, calls, worker),
        || look_within(rt, calls, first, other, atom),
    );
    looked
}

#[test]
fn an_editor_looks_while_a_publish_waits(rt: HostRuntime) {
    let calls = Calls {
        taken: AtomicU32::new(0),
        answered: AtomicU32::new(0),
    };
    let homes = [site(&rt, 1), site(&rt, 1)];
    let mut opener = Opener::new();
    let (mut workers, mut editors) = room(
        &rt,
        rt.alloc(),
        &mut opener,
        1,
        &homes,
        &[0, 2],
        0,
        0,
    ).expect(&rt, "a room");
    assert!(rt; workers.len() == 1 && editors.len() == 2);
    let mut worker = workers.remove(0);
    workers.destroy_empty();
    let (first, other) = editors.split_at_mut(1);
    let atom = Atom::new(b"a").expect(&rt, "an atom");
    let looked = look_beside(&rt, &calls, &mut worker, &mut first[0], &mut other[0], atom);
    worker.quit(&rt);
    assert_eq!(rt; looked, Some((0, Some(1), 1)));
    assert_eq!(rt; calls.answered.load(Ordering::SeqCst), 2);
}
