// Documents of a few letters, by worked examples.
use super::steps::Answer::{Done, Gone, Is, Named, Number};
use super::steps::Ask::{
    After, Alloc, Contains, Delete, DeleteAt, Empty, Find, Flatten, IsLive, IsRow, Known, Live,
    LiveAt, Put, Rows, Within,
};
use super::steps::{Answer, Place, Step, plays};
use std::test::Fail;
use td_base::Bit::{Left, Right};

// A "b" at the root, an "a" on its left, which is deleted, and a "c" on its right.
const ABC: [Step; 4] = [
    (Put(None, (1, 1), b'b'), Done),
    (Put(Some((1, 1, Left)), (1, 2), b'a'), Done),
    (Put(Some((1, 1, Right)), (1, 3), b'c'), Done),
    (Delete((1, 2), (2, 1)), Done),
];

#[test]
fn an_atom_of_no_row_is_gone(rt: HostRuntime) -> Result<(), Fail> {
    const STEPS: [Step; 5] = [
        (Put(None, (1, 1), b'a'), Done),
        (Put(Some((2, 7, Right)), (1, 2), b'b'), Gone((2, 7))),
        (Delete((2, 7), (1, 3)), Gone((2, 7))),
        (Flatten(Some((2, 7, Left))), Gone((2, 7))),
        (Rows, Number(1)),
    ];
    plays(&rt, rt.alloc(), &[], &STEPS, "<a")
}

// "ac" by site 1, and then X by site 1 and Y by site 2 in the gap: two mini nodes in one slot.
#[test]
fn concurrent_atoms_of_one_slot_stand_by_their_sites(rt: HostRuntime) -> Result<(), Fail> {
    const GAP: Place = Some((1, 2, Left));
    const STEPS: [Step; 18] = [
        (Put(None, (1, 1), b'a'), Done),
        (Put(Some((1, 1, Right)), (1, 2), b'c'), Done),
        (Put(GAP, (2, 1), b'Y'), Done),
        (Put(GAP, (1, 3), b'X'), Done),
        (Live, Number(4)),
        (After(None), Named(Some((1, 1)))),
        (LiveAt(0), Named(Some((1, 1)))),
        (Find((1, 1)), Answer::Row(None, b'a', 0, 0)),
        (After(Some((1, 1))), Named(Some((1, 3)))),
        (LiveAt(1), Named(Some((1, 3)))),
        (Find((1, 3)), Answer::Row(GAP, b'X', 0, 1)),
        (After(Some((1, 3))), Named(Some((2, 1)))),
        (LiveAt(2), Named(Some((2, 1)))),
        (Find((2, 1)), Answer::Row(GAP, b'Y', 0, 2)),
        (After(Some((2, 1))), Named(Some((1, 2)))),
        (LiveAt(3), Named(Some((1, 2)))),
        (Find((1, 2)), Answer::Row(Some((1, 1, Right)), b'c', 0, 3)),
        (After(Some((1, 2))), Named(None)),
    ];
    plays(&rt, rt.alloc(), &[], &STEPS, "<aXYc")
}

#[test]
fn the_slot_of_what_is_placed_follows_the_table(rt: HostRuntime) -> Result<(), Fail> {
    const STEPS: [Step; 8] = [
        (Alloc(None), Answer::Slot(None)),
        (Empty(None), Is(true)),
        (Put(None, (1, 1), b'a'), Done),
        (Alloc(None), Answer::Slot(Some((1, 1, Left)))),
        (Alloc(Some((1, 1))), Answer::Slot(Some((1, 1, Right)))),
        (Put(Some((1, 1, Right)), (1, 2), b'b'), Done),
        (Empty(Some((1, 1, Right))), Is(false)),
        (Alloc(Some((1, 1))), Answer::Slot(Some((1, 2, Left)))),
    ];
    plays(&rt, rt.alloc(), &[], &STEPS, "<ab")
}

#[test]
fn a_deleted_atom_stays_until_a_flatten(rt: HostRuntime) -> Result<(), Fail> {
    const STEPS: [Step; 16] = [
        (Put(None, (1, 1), b'a'), Done),
        (Put(Some((1, 1, Right)), (1, 2), b'b'), Done),
        (Delete((1, 1), (2, 1)), Done),
        (Delete((1, 1), (1, 3)), Done),
        (Delete((1, 1), (2, 1)), Done),
        (Rows, Number(2)),
        (Live, Number(1)),
        (DeleteAt((1, 1), 0), Named(Some((1, 3)))),
        (DeleteAt((1, 1), 1), Named(Some((2, 1)))),
        (DeleteAt((1, 1), 2), Named(None)),
        (Within((1, 2), Some((1, 1, Right))), Is(true)),
        (Within((1, 1), Some((1, 1, Right))), Is(false)),
        (Flatten(None), Done),
        (Rows, Number(1)),
        (Live, Number(1)),
        (Find((1, 2)), Answer::Row(None, b'b', 0, 0)),
    ];
    plays(&rt, rt.alloc(), &[], &STEPS, "<b")
}

#[test]
fn an_empty_document_is_flattened_and_adds_no_text(rt: HostRuntime) -> Result<(), Fail> {
    plays(&rt, rt.alloc(), &[], &[(Flatten(None), Done)], "<")
}

#[test]
fn a_tombstone_is_a_row_that_is_not_live(rt: HostRuntime) -> Result<(), Fail> {
    const STEPS: [Step; 8] = [
        (IsRow((1, 1)), Is(true)),
        (IsLive((1, 1)), Is(true)),
        (IsRow((1, 2)), Is(true)),
        (IsLive((1, 2)), Is(false)),
        (IsRow((1, 3)), Is(true)),
        (IsLive((1, 3)), Is(true)),
        (IsRow((1, 4)), Is(false)),
        (IsLive((1, 4)), Is(false)),
    ];
    plays(&rt, rt.alloc(), &ABC, &STEPS, "<bc")
}

#[test]
fn a_flatten_takes_each_slot(rt: HostRuntime) -> Result<(), Fail> {
    const STEPS: [Step; 10] = [
        (Flatten(Some((1, 1, Right))), Done),
        (Rows, Number(3)),
        (Flatten(Some((1, 1, Left))), Done),
        (Rows, Number(2)),
        (Flatten(Some((1, 1, Left))), Done),
        (Rows, Number(2)),
        (Flatten(None), Done),
        (Rows, Number(2)),
        (Flatten(Some((1, 1, Right))), Done),
        (Rows, Number(2)),
    ];
    plays(&rt, rt.alloc(), &ABC, &STEPS, "<bc")
}

#[test]
fn a_slot_contains_itself_and_what_hangs_below(rt: HostRuntime) -> Result<(), Fail> {
    const LEFT: Place = Some((1, 1, Left));
    const RIGHT: Place = Some((1, 1, Right));
    const BELOW: Place = Some((1, 2, Right));
    const STEPS: [Step; 8] = [
        (Contains(None, None), Is(true)),
        (Contains(None, BELOW), Is(true)),
        (Contains(BELOW, None), Is(false)),
        (Contains(LEFT, LEFT), Is(true)),
        (Contains(LEFT, BELOW), Is(true)),
        (Contains(BELOW, LEFT), Is(false)),
        (Contains(LEFT, RIGHT), Is(false)),
        (Contains(RIGHT, BELOW), Is(false)),
    ];
    plays(&rt, rt.alloc(), &ABC, &STEPS, "<bc")
}

#[test]
fn a_slot_is_known_with_its_deletes(rt: HostRuntime) -> Result<(), Fail> {
    const RIGHT: Place = Some((1, 1, Right));
    const STEPS: [Step; 9] = [
        (Put(None, (1, 1), b'a'), Done),
        (Put(RIGHT, (1, 2), b'b'), Done),
        (Delete((1, 1), (2, 1)), Done),
        (Known(None, [0, 0]), Is(false)),
        (Known(RIGHT, [0, 0]), Is(false)),
        (Known(None, [2, 0]), Is(false)),
        (Known(RIGHT, [2, 0]), Is(true)),
        (Known(None, [2, 1]), Is(true)),
        (Known(RIGHT, [2, 1]), Is(true)),
    ];
    plays(&rt, rt.alloc(), &[], &STEPS, "<b")
}
