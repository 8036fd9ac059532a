ghost use Rattle.std.specs.Prelude.{◌≡◌, length, IfOk};

use std::process::Abort;
use std::test::Fail;
use td_base::{AtomId, Dot, Site};
use td_causal::{Buffer, Offer};
use td_clock::Vector;
use td_op::{Body, Op};

// What is done with the second operation of site 1, which had the first one.
#[derive(Clone, Copy)]
enum Do {
    Nothing,
    // It is offered under a number to a site that has so many of each of the two sites.
    Offer([u16; 2], u32),
    Remove,
}

// What it shows, what is done, what is answered, and the number by which the operation waits then.
const STEPS: [(&str, Do, Option<Offer>, Option<u32>); 6] = [
    ("nothing waits at first", Do::Nothing, None, None),
    (
        "the one before is missing",
        Do::Offer([0, 0], 7),
        Some(Offer::Later),
        Some(7),
    ),
    (
        "it waits already",
        Do::Offer([0, 0], 8),
        Some(Offer::Repeat),
        Some(7),
    ),
    ("it is taken away", Do::Remove, None, None),
    (
        "the one before is there",
        Do::Offer([1, 0], 9),
        Some(Offer::Ready),
        None,
    ),
    (
        "it is there itself",
        Do::Offer([2, 0], 9),
        Some(Offer::Repeat),
        None,
    ),
];

fn second() -> Result<Op, Fail>
    ensures { IfOk result (λ x. length x.deps ≡ 2) }
{
    let site = Site::new(1).ok_or("a site")?;
    let dot = Dot::new(site, 2).ok_or("a dot")?;
    let target = AtomId::of(dot);
    Ok(Op::new(dot, Vector::of(&[1, 0]), Body::Delete { target }).ok_or("an operation")?)
}

fn step(buffer: &mut Buffer, op: &Op, what: Do) -> Result<Option<Offer>, Fail>
    requires { length op.now.deps ≡ 2 }
{
    Ok(match what {
        Do::Nothing => None,
        Do::Offer(have, number) => Some(buffer.offer(&Vector::of(&have), op, number)?),
        Do::Remove => {
            buffer.remove(op.dot());
            None
        }
    })
}

// Whether the operation waits alone, by that number, or there is none that waits.
fn waits_by(buffer: &Buffer, dot: Dot, number: Option<u32>) -> bool {
    let waits = number.is_some();
    buffer.number_of(dot) == number
        && buffer.waits(dot) == waits
        && buffer.is_empty() != waits
        && buffer.len() == u32::from(waits)
}

fn all_hold(rt: &impl Abort, buffer: &mut Buffer, op: &Op) -> Result<(), Fail>
    requires { length op.now.deps ≡ 2 }
{
    for (name, what, answer, number) in STEPS {
        assert_eq!(rt; step(buffer, op, what)?, answer, "{name}");
        assert!(rt; waits_by(buffer, op.dot(), number), "{name}");
    }
    Ok(())
}

#[test]
fn an_operation_waits_for_the_one_before_it(rt: HostRuntime) -> Result<(), Fail> {
    let op = second()?;
    let mut buffer = Buffer::new(rt.alloc());
    all_hold(&rt, &mut buffer, &op)
}
