ghost use Rattle.std.specs.Prelude.{◌≡◌, ◌≤◌, length, IfOk, None};
ghost use Rattle.td_history.specs.Past.{decided_by};

use std::alloc::Global;
use std::test::Fail;
use td_base::{Atom, Dot, Run, Site};
use td_clock::Vector;
use td_history::*;
use td_op::{Body, Message, Op};
use td_path::Slot;

fn site(number: u8) -> Result<Site, Fail>
    ensures { IfOk result (λ site. site ≡ number) }
{
    match Site::new(number) {
        Some(site) => Ok(site),
        None => Err(Fail::from("a site")),
    }
}

fn dot(number: u8, seq: u32) -> Result<Dot, Fail>
    ensures { IfOk result (λ dot. dot ≡ record { site = number; seq = seq }) }
{
    match Dot::new(site(number)?, seq) {
        Some(dot) => Ok(dot),
        None => Err(Fail::from("a dot")),
    }
}

fn letter(byte: u8) -> Result<Atom, Fail> {
    match Atom::new(&[byte]) {
        Ok(atom) => Ok(atom),
        Err(_) => Err(Fail::from("a letter")),
    }
}

fn run([first, second]: [u8; 2]) -> Result<Run, Fail> {
    match Run::new(&[letter(first)?, letter(second)?]) {
        Ok(run) => Ok(run),
        Err(_) => Err(Fail::from("a run")),
    }
}

// The first operation of site 1 of two.
fn first() -> Result<Op, Fail>
    ensures deps { IfOk result (λ x. length x.deps ≡ 2) }
    ensures dot { IfOk result (λ x. x.dot ≡ record { site = 1; seq = 1 }) }
    ensures body { IfOk result (λ x. decided_by x.body ≡ None) }
{
    let (slot, run) = (Slot::Root, run(*b"ab")?);
    match Op::new(dot(1, 1)?, Vector::new(2), Body::Insert { slot, run }) {
        Some(op) => Ok(op),
        None => Err(Fail::from("an operation")),
    }
}

// The history of site 1 of two that made this operation, its first.
fn made(alloc: Global, own: Site, first: &Op) -> Result<History, Fail>
    requires own { own ≡ 1 }
    requires deps { length first.now.deps ≡ 2 }
    requires dot { first.now.dot ≡ record { site = 1; seq = 1 } }
    requires body { decided_by first.now.body ≡ None }
    ensures { IfOk result (λ h. h.size ≡ 2) }
{
    let mut history = History::new(alloc, own, 2)?;
    history.reserve(own)?;
    history.make(first);
    Ok(history)
}

fn is_found(history: &History, own: Site, op: &Op, other: Dot) -> bool
    requires { own ≤ history.now.size }
{
    history.find(op.dot()) == Some(0)
        && history.find(other).is_none()
        && history.last_of(own) == Some(*op)
}

// Whether the operation is all that is sent, as the first message.
fn is_sent(history: &History, op: &Op) -> bool {
    history.sent_at(0).is_none()
        && history.sent_at(1) == Some(Message::Op(*op))
        && history.sent_at(2).is_none()
}

#[test]
fn what_is_made_is_sent_and_found(rt: HostRuntime) -> Result<(), Fail> {
    let (own, other, first) = (site(1)?, dot(64, 1)?, first()?);
    let history = made(rt.alloc(), own, &first)?;
    assert!(rt; is_found(&history, own, &first, other));
    assert!(rt; is_sent(&history, &first));
    Ok(())
}
