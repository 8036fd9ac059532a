ghost use Rattle.std.specs.Prelude.{◌≡◌, ◌≤◌, [], ◌∷◌, false, None, IfOk};
ghost use Rattle.td_replica.specs.Replica.{new_replica};
ghost use Rattle.td_view.specs.Publishes.{start};

use std::alloc::Global;
use std::process::Abort;
use std::sync::Wait;
use std::test::Fail;
use td_base::{Atom, Dot};
use td_doc::Rows;
use td_op::{Input, Reply, Request};
use td_replica::Replica;
use td_site::*;
use td_view::{Opener, Reader, Shown, Writer, views};

fn number(site: u8) -> Result<td_base::Site, Fail>
    ensures { IfOk result (λ number. number ≡ site) }
{
    Ok(td_base::Site::new(site).ok_or("a site")?)
}

fn made(seq: u32) -> Result<Reply, Fail> {
    let dot = Dot::new(number(1)?, seq).ok_or("a dot")?;
    Ok(Reply::Made { dot })
}

fn put(index: u32, letter: u8) -> Result<Request, Fail> {
    let atom = Atom::new(&[letter]).map_err(|_| "an atom")?;
    Ok(Request::Insert { index, atom })
}

// The replica of a site of two, which has done nothing.
fn replica(alloc: Global, site: u8) -> Result<Replica<Rows>, Fail>
    requires { site ≤ 2 }
    ensures { IfOk result (λ replica. replica ≡ new_replica site 2) }
{
    Ok(Replica::new(alloc, number(site)?, 2)?)
}

// A writer of views, and its one reader.
fn one_reader<R: Wait>(rt: &R, alloc: Global) -> Result<(Writer, Reader), Fail>
    ensures start { IfOk result (λ made.
        (made.0.publishes ≡ start ∷ []) × (made.0.shown ≡ start) × (made.0.owed ≡ None)) }
    ensures views { IfOk result (λ made. made.1.views ≡ made.0.views) }
{
    let mut opener = Opener::new();
    let (writer, mut readers) = views(rt, alloc, &mut opener, 1).map_err(|_| "views")?;
    let reader = readers.remove(0);
    Ok((writer, reader))
}

// The first site of two, and a reader of its text.
fn open<R: Wait>(rt: &R, alloc: Global) -> Result<(Site<Rows>, Reader), Fail>
    ensures late { IfOk result (λ opened. opened.0.late ≡ false) }
    ensures views { IfOk result (λ opened. opened.1.views ≡ opened.0.writer.views) }
{
    let (writer, reader) = one_reader(rt, alloc)?;
    match replica(alloc, 1) {
        Ok(replica) => Ok((Site::new(replica, writer), reader)),
        Err(fail) => {
            writer.quit(rt);
            Err(fail)
        }
    }
}

// Whether the atoms of the text are these letters.
fn spells(shown: &Shown, letters: &str) -> bool {
    let letters = letters.as_bytes();
    for i in 0..shown.len() {
        let letter = letters.get(i as usize);
        if shown.atom(i).map(|atom| atom.bytes()[0]) != letter.copied() {
            return false;
        }
    }
    shown.len() as usize == letters.len()
}

// The reader is shown these letters, after so many entries.
fn reads<R: Abort>(rt: &R, reader: &mut Reader, upto: u64, letters: &str)
    ensures { reader.new.views ≡ reader.old.views }
{
    assert_eq!(rt;
        reader.look(|shown| (shown.upto(), spells(shown, letters))),
        Some((upto, true))
    );
}

// The site gives this reply, and shows the step.
fn act<R: Wait + Abort>(rt: &R, site: &mut Site<Rows>, input: &Input, reply: Reply)
    requires { site.old.late ≡ false }
    ensures late { site.new.late ≡ false }
    ensures views { site.new.writer.views ≡ site.old.writer.views }
{
    assert_eq!(rt; site.step(input), Ok(reply));
    assert_eq!(rt; site.show(rt), Ok(()));
}

#[test]
fn each_step_is_shown_and_a_refused_request_too(rt: HostRuntime) -> Result<(), Fail> {
    let first = (Input::Local(put(0, b'a')?), made(1)?);
    let second = (Input::Local(put(1, b'b')?), made(2)?);
    let third = (Input::Local(put(0, b'c')?), made(3)?);
    let refused = Input::Local(Request::Delete { index: 3 });
    let (mut site, mut reader) = open(&rt, rt.alloc())?;
    reads(&rt, &mut reader, 0, "");
    act(&rt, &mut site, &first.0, first.1);
    reads(&rt, &mut reader, 1, "a");
    act(&rt, &mut site, &second.0, second.1);
    reads(&rt, &mut reader, 2, "ab");
    act(&rt, &mut site, &third.0, third.1);
    act(&rt, &mut site, &refused, Reply::Position { len: 3 });
    reader.learn(site.told());
    reads(&rt, &mut reader, 4, "cab");
    let (replica, writer) = site.parts();
    assert_eq!(rt; replica.entries(), 4);
    writer.quit(&rt);
    Ok(())
}

fn write(replica: &mut Replica<Rows>, text: &[u8]) -> Result<(), Fail> {
    for (letter, index) in text.iter().zip(0..) {
        replica.step_on(&Input::Local(put(index, *letter)?))?;
    }
    Ok(())
}

// The replica of the second site of two, which has typed three letters. In a list, since what is dropped where a test
// ends is proved with it, and a replica is much.
fn typist(alloc: Global) -> Result<Vec<Replica<Rows>>, Fail> {
    let mut replicas = Vec::new(alloc);
    replicas.push(replica(alloc, 2)?)?;
    for replica in &mut replicas {
        write(replica, b"xyz")?;
    }
    Ok(replicas)
}

// The site takes this message of the replica with this reply, and then what it may take and shows it all.
fn take<R: Wait + Abort>(
    rt: &R,
    site: &mut Site<Rows>,
    from: &Replica<Rows>,
    message: u64,
    reply: Reply,
)
    requires { site.old.late ≡ false }
    ensures { site.new.late ≡ false }
{
    let message = from.sent_at(message).expect(rt, "a message");
    assert_eq!(rt; site.step(&Input::Take(message)), Ok(reply));
    assert_eq!(rt; site.catch_up(rt), Ok(()));
}

fn take_all<R: Wait + Abort>(
    rt: &R,
    site: &mut Site<Rows>,
    reader: &mut Reader,
    from: &Replica<Rows>,
)
    requires { site.old.late ≡ false }
{
    take(rt, site, from, 3, Reply::Later);
    take(rt, site, from, 2, Reply::Later);
    reads(rt, reader, 2, "");
    take(rt, site, from, 1, Reply::New);
    reads(rt, reader, 5, "xyz");
}

#[test]
fn what_waited_is_taken_and_shown(rt: HostRuntime) -> Result<(), Fail> {
    let others = typist(rt.alloc())?;
    let (mut site, mut reader) = open(&rt, rt.alloc())?;
    let other = others.first().expect(&rt, "a replica");
    take_all(&rt, &mut site, &mut reader, other);
    site.quit(&rt);
    Ok(())
}
