ghost use Rattle.std.specs.Prelude.{◌≡◌, ◌≤◌, Some, IfSome};

use std::sync::Wait;
use std::test::Fail;
use std::thread;
use std::thread::{Threads, join};
use td_link::*;

// A number, which fits any link.
#[derive(Clone, Copy, Debug, PartialEq, Eq)]
struct Numbered {
    number: u32,
}

impl Item for Numbered {
    type Mark = ();

    ghost fits = { λ mark item. Unit {0} };
}

// How large a number may be.
#[derive(Clone, Copy)]
struct Limit {
    most: u32,
}

// A number that is within the limit of its link.
#[derive(Drop)]
struct Small {
    number: u32,
}

impl Item for Small {
    type Mark = Limit;

    ghost fits = { λ limit item. item.number ≤ limit.most };
}

fn letter(letter: char) -> Numbered {
    Numbered {
        number: letter as u32,
    }
}

#[test]
fn two_places_take_two_letters_and_what_is_left_is_the_second(rt: HostRuntime) -> Result<(), Fail> {
    let (mut tx, mut rx) = link::<Numbered>(rt.alloc(), 2, ())?;
    assert!(rt; tx.try_send(&rt, letter('a')).is_ok());
    assert!(rt; tx.try_send(&rt, letter('b')).is_ok());
    match tx.try_send(&rt, letter('c')) {
        Ok(()) => assert!(rt; false),
        Err(full) => assert_eq!(rt; full.item, letter('c')),
    }
    assert_eq!(rt; rx.try_take(&rt), Some(letter('a')));
    let mut left = settle(&rt, rt.alloc(), tx, rx)?;
    assert_eq!(rt; left.take_first(), Some(letter('b')));
    assert_eq!(rt; left.take_first(), None);
    Ok(())
}

// Sends the numbers below the count, in order.
fn send_all<R: Wait>(rt: &R, tx: &mut Tx<Numbered>, count: u32) {
    let mut next = 0;
    for _ in rt.forever() {
        if next >= count {
            break;
        }
        match tx.try_send(rt, Numbered { number: next }) {
            Ok(()) => next += 1,
            Err(_) => thread::yield_now(),
        }
    }
}

// Takes so many numbers. Answers how many came in order.
fn take_all<R: Wait>(rt: &R, rx: &mut Rx<Numbered>, count: u32) -> u32 {
    let mut next = 0;
    for _ in rt.forever() {
        if next >= count {
            break;
        }
        match rx.try_take(rt) {
            Some(item) => {
                if item.number != next {
                    break;
                }
                next += 1;
            }
            None => thread::yield_now(),
        }
    }
    next
}

// Sends in one thread and takes in another.
fn send_beside<R: Threads + Wait + Sync>(
    rt: &R,
    mut tx: Tx<Numbered>,
    mut rx: Rx<Numbered>,
    count: u32,
) -> u32 {
    let (_, taken) = join(
        rt,
        || send_all(rt, &mut tx, count),
        || take_all(rt, &mut rx, count),
    );
    taken
}

#[test]
fn all_items_come_in_order_on_two_threads(rt: HostRuntime) -> Result<(), Fail> {
    let (tx, rx) = link::<Numbered>(rt.alloc(), 64, ())?;
    assert_eq!(rt; send_beside(&rt, tx, rx, 200_000), 200_000);
    Ok(())
}

// Takes an item, which is within the limit of the link.
fn take_small<R: Wait>(rt: &R, rx: &mut Rx<Small>, limit: &Limit) -> Option<u32>
    requires { rx.old.mark ≡ Some limit.now }
    ensures small { IfSome result (λ number. number ≤ limit.now.most) }
    ensures mark { rx.new.mark ≡ rx.old.mark }
{
    let _most = limit.most;
    Some(rx.try_take(rt)?.number)
}

#[test]
fn an_item_that_is_taken_fits_the_mark(rt: HostRuntime) -> Result<(), Fail> {
    let limit = Limit { most: 9 };
    let (mut tx, mut rx) = link::<Small>(rt.alloc(), 1, limit)?;
    assert!(rt; take_small(&rt, &mut rx, &limit).is_none());
    assert!(rt; tx.try_send(&rt, Small { number: 9 }).is_ok());
    assert_eq!(rt; take_small(&rt, &mut rx, &limit), Some(9));
    Ok(())
}
