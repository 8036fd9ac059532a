ghost use Rattle.std.specs.Prelude.{◌≡◌, ◌≤◌, None, IsTrue};

use crossbeam_utils::atomic::AtomicCell;
use std::alloc::Global;
use std::process::Abort;
use std::sync::Wait;
use std::test::Fail;
use std::thread;
use std::thread::{Threads, join};
use td_base::{Atom, Bytes, Memory, Run};
use td_op::Change;
use td_view::*;

// Publishes, of a writer that owes nothing. False where memory ran out.
#[tactic(auto, using(td_view::specs::Owing::owing_none))]
fn publish<R: Wait>(rt: &R, writer: &mut Writer, upto: u64, changes: &[Change]) -> bool
    requires nothing { writer.old.owed ≡ None }
    requires rises { writer.old.shown.upto ≤ upto }
    ensures published { IsTrue result → (writer.new.owed ≡ None) × (writer.new.shown.upto ≡ upto) }
    ensures views { writer.new.views ≡ writer.old.views }
{
    writer.publish(rt, upto, changes).is_ok()
}

fn atom(letter: u8) -> Result<Atom, Fail> {
    Ok(Atom::new(&[letter]).map_err(|_| "an atom")?)
}

// Whether the atoms of the text are these letters.
fn spells(shown: &Shown, letters: &[u8]) -> bool {
    for i in 0..shown.len() {
        let letter = letters.get(i as usize);
        if shown.atom(i).map(|atom| atom.bytes()[0]) != letter.copied() {
            return false;
        }
    }
    shown.len() as usize == letters.len() && shown.atom(shown.len()).is_none()
}

// Whether the text is these letters, as a whole and in two ranges.
fn tells(alloc: Global, shown: &Shown, letters: &[u8]) -> Result<bool, Memory> {
    let mut all = Bytes::new(alloc);
    shown.push_text(&mut all)?;
    let mut parts = Bytes::new(alloc);
    shown.push_range(0, 1, &mut parts)?;
    shown.push_range(1, shown.len(), &mut parts)?;
    Ok(all.as_slice() == letters && parts.as_slice() == letters)
}

// Publishes the changes, looks at these letters, and ends. After that a look is refused.
fn play<R: Wait + Abort>(
    rt: &R,
    alloc: Global,
    changes: &[Change],
    letters: &[u8],
) -> Result<(), Fail> {
    let mut opener = Opener::new();
    let (mut writer, mut readers) = views(rt, alloc, &mut opener, 1).map_err(|_| "views")?;
    if !publish(rt, &mut writer, 1, changes) {
        writer.quit(rt);
        return Err("memory".into());
    }
    let reader = &mut readers[0];
    assert_eq!(rt;
        reader.look(|shown| (shown.upto(), spells(shown, letters))),
        Some((1, true))
    );
    assert_eq!(rt;
        reader.look(|shown| tells(alloc, shown, letters)),
        Some(Ok(true))
    );
    assert_eq!(rt; (reader.refused(), opener.refused()), (0, 0));
    let (ended, tolds) = writer.end(rt, alloc, 1)?;
    assert_eq!(rt; tolds.len(), 1);
    ended.quit(rt);
    assert_eq!(rt;
        (reader.look(|shown| shown.upto()), reader.refused()),
        (None, 1)
    );
    Ok(())
}

#[test]
fn what_is_published_is_looked_at(rt: HostRuntime) -> Result<(), Fail> {
    let a = atom(b'a')?;
    play(&rt, rt.alloc(), &[Change::Put { index: 0, atom: a }], b"a")
}

#[test]
fn changes_are_done_in_order_and_a_run_is_put_whole(rt: HostRuntime) -> Result<(), Fail> {
    let (a, b, c) = (atom(b'a')?, atom(b'b')?, atom(b'c')?);
    let run = Run::new(&[b, c]).map_err(|_| "a run")?;
    let changes = [
        Change::Put { index: 0, atom: c },
        Change::Put { index: 0, atom: a },
        Change::PutRun { index: 1, run },
        Change::Cut { index: 2 },
        Change::Put { index: 9, atom: a },
        Change::Cut { index: 4 },
    ];
    play(&rt, rt.alloc(), &changes, b"abca")
}

// Publishes so often, and answers how often it did.
fn publish_all<R: Wait>(rt: &R, writer: &mut Writer, count: u64) -> u64
    requires { (writer.old.owed ≡ None) × (writer.old.shown.upto ≡ 0) }
{
    let mut upto = 0;
    for _ in rt.forever() {
        if upto >= count || !publish(rt, writer, upto + 1, &[]) {
            break;
        }
        upto += 1;
    }
    upto
}

// Looks so often, and answers how often a look was answered with an upto that did not fall.
fn look_all<R: Wait>(rt: &R, reader: &mut Reader, count: u64) -> u64 {
    let mut looks = 0;
    let mut last = 0;
    for _ in rt.forever() {
        if looks >= count {
            break;
        }
        match reader.look(|shown| shown.upto()) {
            Some(upto) if upto >= last => last = upto,
            _ => break,
        }
        looks += 1;
    }
    looks
}

fn look_beside<R: Threads + Wait + Sync>(
    rt: &R,
    writer: &mut Writer,
    reader: &mut Reader,
    count: u64,
) -> (u64, u64)
    requires { (writer.old.owed ≡ None) × (writer.old.shown.upto ≡ 0) }
{
    join(
        rt,
        || -> u64
            requires { (writer.now.owed ≡ None) × (writer.now.shown.upto ≡ 0) }
        { publish_all(rt, writer, count) },
        || look_all(rt, reader, count),
    )
}

#[test]
fn looks_beside_publishes_never_fall_back_and_are_never_refused(
    rt: HostRuntime,
) -> Result<(), Fail> {
    let mut opener = Opener::new();
    let (mut writer, mut readers) = views(&rt, rt.alloc(), &mut opener, 1).map_err(|_| "views")?;
    let reader = &mut readers[0];
    assert_eq!(rt;
        look_beside(&rt, &mut writer, reader, 200_000),
        (200_000, 200_000)
    );
    assert_eq!(rt;
        (reader.look(|shown| shown.upto()), reader.refused()),
        (Some(200_000), 0)
    );
    writer.quit(&rt);
    Ok(())
}

// How far the two threads of the next test have come.
const LOOKS: u32 = 1;

const PUBLISHED: u32 = 2;

// Waits until they have come so far.
fn wait<R: Wait>(rt: &R, state: &AtomicCell<u32>, wanted: u32) {
    for _ in rt.forever() {
        if state.load() == wanted {
            break;
        }
        thread::yield_now();
    }
}

// Publishes while the other thread looks, and then again, which waits for the end of that look.
fn publish_twice<R: Wait>(rt: &R, writer: &mut Writer, state: &AtomicCell<u32>) -> bool
    requires { (writer.old.owed ≡ None) × (writer.old.shown.upto ≡ 0) }
{
    wait(rt, state, LOOKS);
    let first = publish(rt, writer, 1, &[]);
    state.store(PUBLISHED);
    first && publish(rt, writer, 2, &[])
}

// Looks, and within that look looks with another reader, once the writer has published: what both are shown.
fn look_within<R: Wait>(
    rt: &R,
    outer: &mut Reader,
    inner: &mut Reader,
    state: &AtomicCell<u32>,
) -> Option<(u64, Option<u64>)> {
    outer.look(|shown| {
        state.store(LOOKS);
        wait(rt, state, PUBLISHED);
        (shown.upto(), inner.look(|shown| shown.upto()))
    })
}

// Whether both publishes were made, and what the two readers were shown in between.
fn look_while_it_waits<R: Threads + Wait + Sync>(
    rt: &R,
    writer: &mut Writer,
    outer: &mut Reader,
    inner: &mut Reader,
) -> (bool, Option<(u64, Option<u64>)>)
    requires { (writer.old.owed ≡ None) × (writer.old.shown.upto ≡ 0) }
{
    let state = AtomicCell::new(0u32);
    join(
        rt,
        || -> bool
            requires { (writer.now.owed ≡ None) × (writer.now.shown.upto ≡ 0) }
        { publish_twice(rt, writer, &state) },
        || look_within(rt, outer, inner, &state),
    )
}

#[test]
fn a_text_is_looked_at_while_a_publish_waits(rt: HostRuntime) -> Result<(), Fail> {
    let mut opener = Opener::new();
    let (mut writer, mut readers) = views(&rt, rt.alloc(), &mut opener, 2).map_err(|_| "views")?;
    let (outer, inner) = readers.split_at_mut(1);
    let looked = look_while_it_waits(&rt, &mut writer, &mut outer[0], &mut inner[0]);
    assert_eq!(rt; looked, (true, Some((0, Some(1)))));
    assert_eq!(rt; outer[0].look(|shown| shown.upto()), Some(2));
    writer.quit(&rt);
    Ok(())
}

// Whether each of the readers is shown a text with no atoms.
fn all_look(readers: &mut [Reader]) -> bool {
    for reader in readers.iter_mut() {
        if reader.look(|shown| shown.len()) != Some(0) {
            return false;
        }
    }
    true
}

#[test]
fn as_many_readers_as_are_asked_for_are_opened_and_look(rt: HostRuntime) -> Result<(), Fail> {
    for count in [1, 2, 64, 65] {
        let mut opener = Opener::new();
        let (writer, mut readers) = views(&rt, rt.alloc(), &mut opener, count).map_err(
            |_| "views",
        )?;
        let looked = all_look(&mut readers);
        writer.quit(&rt);
        assert_eq!(rt;
            (readers.len(), looked, opener.refused()),
            (count as usize, true, 0)
        );
    }
    Ok(())
}

#[test]
fn a_reader_that_learns_is_shown_what_it_learnt(rt: HostRuntime) -> Result<(), Fail> {
    let mut opener = Opener::new();
    let (mut writer, mut readers) = views(&rt, rt.alloc(), &mut opener, 1).map_err(|_| "views")?;
    if !publish(&rt, &mut writer, 7, &[]) {
        writer.quit(&rt);
        return Err("memory".into());
    }
    let told = writer.told();
    let reader = &mut readers[0];
    reader.learn(told.again());
    reader.learn(told);
    assert_eq!(rt; reader.look(|shown| shown.upto()), Some(7));
    writer.quit(&rt);
    Ok(())
}
