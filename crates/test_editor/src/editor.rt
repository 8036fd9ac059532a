ghost use Rattle.std.specs.Prelude.{◌≤◌, IfOk};

use std::alloc::Global;
use std::test::Fail;
use td_base::{Atom, Dot, Run, Site};
use td_editor::*;
use td_op::{Change, Reply, Request};
use td_tree::Tree;

fn site(number: u8) -> Result<Site, Fail>
    ensures { IfOk result (λ site. site ≤ number) }
{
    Ok(Site::new(number).ok_or("a site")?)
}

fn letter(text: &str) -> Result<Atom, Fail> {
    Ok(Atom::new(text.as_bytes()).ok().ok_or("an atom")?)
}

fn made(number: u8, seq: u32) -> Result<Reply, Fail> {
    let dot = Dot::new(site(number)?, seq).ok_or("a dot")?;
    Ok(Reply::Made { dot })
}

// The other editor takes the message with this number.
fn hand<S: Screen, T: Screen>(
    from: &Editor<Tree, S>,
    number: u64,
    to: &mut Editor<Tree, T>,
) -> Result<Received, Fail> {
    let packet = from.packet(to.replica().site(), number).ok_or("a packet")?;
    Ok(to.receive(packet.bytes())?)
}

const NEW: Received = Received::Took {
    reply: Reply::New,
    next: 0,
};

#[test]
fn each_change_comes_to_the_screens(rt: HostRuntime) -> Result<(), Fail> {
    let alloc = rt.alloc();
    let (a, b, c) = (letter("a")?, letter("b")?, letter("c")?);
    let run = Run::new(&[b, c]).ok().ok_or("a run")?;
    let mut ann: Editor<Tree, Page> = Editor::new(alloc, site(1)?, 2, Page::new(alloc))?;
    let mut bob: Editor<Tree, Feed> = Editor::new(alloc, site(2)?, 2, Feed::new(alloc))?;
    assert_eq!(rt; ann.insert(0, a)?, made(1, 1)?);
    assert_eq!(rt; ann.paste(1, run)?, made(1, 2)?);
    assert_eq!(rt; ann.delete(0)?, made(1, 3)?);
    assert_eq!(rt; ann.screen().atoms(), &[b, c][..]);
    // The second and the third come first, and wait for the first.
    let later = Received::Took {
        reply: Reply::Later,
        next: 0,
    };
    assert_eq!(rt; hand(&ann, 3, &mut bob)?, later);
    assert_eq!(rt; hand(&ann, 2, &mut bob)?, later);
    let all = Received::Took {
        reply: Reply::New,
        next: 2,
    };
    assert_eq!(rt; hand(&ann, 1, &mut bob)?, all);
    let first = Change::Put { index: 0, atom: a };
    let second = Change::PutRun { index: 1, run };
    let third = Change::Cut { index: 0 };
    assert_eq!(rt; bob.screen().changes(), &[first, second, third][..]);
    assert_eq!(rt; bob.catch_up()?, 0);
    let _drawn = bob.replace(Feed::new(alloc));
    assert_eq!(rt; bob.screen().changes().len(), 0);
    assert_eq!(rt;
        bob.receive(b"T2")?,
        Received::Malformed(td_wire::Malformed { at: 2 })
    );
    let own = ann.replica().sent_at(1).ok_or("a message")?;
    assert_eq!(rt; ann.take(&own)?, Received::Stray);
    Ok(())
}

#[test]
fn a_flatten_changes_no_screen(rt: HostRuntime) -> Result<(), Fail> {
    let alloc = rt.alloc();
    let a = letter("a")?;
    let mut ann: Editor<Tree, Page> = Editor::new(alloc, site(1)?, 2, Page::new(alloc))?;
    let mut bob: Editor<Tree, Page> = Editor::new(alloc, site(2)?, 2, Page::new(alloc))?;
    assert_eq!(rt;
        ann.request(Request::Insert { index: 0, atom: a })?,
        made(1, 1)?
    );
    assert_eq!(rt; hand(&ann, 1, &mut bob)?, NEW);
    assert_eq!(rt; bob.flatten()?, made(2, 1)?);
    assert_eq!(rt; hand(&bob, 1, &mut ann)?, NEW);
    assert_eq!(rt; hand(&ann, 2, &mut bob)?, NEW);
    assert_eq!(rt; hand(&bob, 2, &mut ann)?, NEW);
    assert_eq!(rt; ann.flatten()?, made(1, 2)?);
    let proposal = Dot::new(site(1)?, 2).ok_or("a dot")?;
    assert_eq!(rt; ann.cancel(proposal)?, Reply::Cancelled);
    assert_eq!(rt; ann.screen().atoms(), &[a][..]);
    assert_eq!(rt; bob.screen().atoms(), &[a][..]);
    Ok(())
}

#[test]
fn a_blank_screen_makes_room(rt: HostRuntime) -> Result<(), Fail> {
    let alloc = rt.alloc();
    let mut page = Page::new(alloc);
    page.reserve()?;
    assert_eq!(rt; page.atoms().len(), 0);
    let mut feed = Feed::new(alloc);
    feed.reserve()?;
    assert_eq!(rt; feed.changes().len(), 0);
    Ok(())
}
