//! The worked examples, as tables.

use crate::world::moves::Do::{
    Cancel, Delete, Give, GiveAll, Offer, Propose, ProposeRoot, Settle, Type,
};
use crate::world::moves::Told::{
    Cancelled, Gave, Held, Later, Made, New, NoSuch, NotGiven, NotOpen, Repeat, Stray,
};
use crate::world::moves::{Example, all_play};
use std::test::Fail;
use td_base::Bit::{Left, Right};

const EXAMPLES: [Example; 12] = [
    Example {
        name: "what comes twice or too early",
        sites: 2,
        moves: &[
            (Type(1, 0, b'a'), Made(1)),
            (Type(1, 1, b'b'), Made(2)),
            (Type(1, 2, b'c'), Made(3)),
            (Give(2, 2), Later(0)),
            (Give(2, 2), Repeat(0)),
            (Give(2, 1), New(1)),
            (Give(2, 2), Repeat(0)),
            (Give(1, 1), Stray),
            (Give(2, 9), NoSuch),
            (Give(2, 0), NoSuch),
            (GiveAll(1), Gave(0)),
            (GiveAll(2), Gave(1)),
            (GiveAll(2), Gave(0)),
            (Settle, Gave(0)),
        ],
        text: "abc",
        shown_at: &[1, 2],
    },
    Example {
        name: "three typists settle",
        sites: 3,
        moves: &[
            (Type(1, 0, b'a'), Made(1)),
            (Type(1, 1, b'b'), Made(2)),
            (Type(2, 0, b'c'), Made(1)),
            (Type(2, 1, b'd'), Made(2)),
            (Type(3, 0, b'e'), Made(1)),
            (Type(3, 1, b'f'), Made(2)),
            (Settle, Gave(12)),
            (Settle, Gave(0)),
        ],
        text: "abcdef",
        shown_at: &[1, 2, 3],
    },
    Example {
        name: "deletes settle",
        sites: 2,
        moves: &[
            (Type(1, 0, b'a'), Made(1)),
            (Type(1, 1, b'b'), Made(2)),
            (Settle, Gave(2)),
            (Delete(1, 0), Made(3)),
            (Delete(2, 0), Made(1)),
            (Settle, Gave(2)),
        ],
        text: "b",
        shown_at: &[1, 2],
    },
    Example {
        name: "one site settles",
        sites: 1,
        moves: &[(Settle, Gave(0))],
        text: "",
        shown_at: &[1],
    },
    Example {
        name: "sixty four sites settle",
        sites: 64,
        moves: &[
            (Type(64, 0, b'a'), Made(1)),
            (Type(1, 0, b'b'), Made(1)),
            (Settle, Gave(126)),
        ],
        text: "ba",
        shown_at: &[1, 2, 33, 64],
    },
    Example {
        name: "a flatten is held and decided",
        sites: 2,
        moves: &[
            (Type(1, 0, b'a'), Made(1)),
            (Type(1, 1, b'b'), Made(2)),
            (ProposeRoot(1), Made(3)),
            (Type(1, 0, b'x'), Held(1, 3)),
            (GiveAll(2), Gave(3)),
            (Type(2, 0, b'y'), Held(1, 3)),
            // the vote, which brings the commit
            (GiveAll(1), Gave(1)),
            (Type(1, 0, b'x'), Made(5)),
            (Type(2, 0, b'y'), Held(1, 3)),
            (Settle, Gave(2)),
        ],
        text: "xab",
        shown_at: &[1, 2],
    },
    Example {
        name: "a flatten is given up",
        sites: 2,
        moves: &[
            (Type(1, 0, b'a'), Made(1)),
            (Settle, Gave(1)),
            (ProposeRoot(1), Made(2)),
            (Give(2, 2), New(0)),
            (Cancel(1, 2), Cancelled),
            (Give(1, 3), Repeat(0)),
            (Type(2, 0, b'z'), Held(1, 2)),
            (Settle, Gave(1)),
            (Type(2, 0, b'z'), Made(1)),
            (Cancel(1, 2), NotOpen),
            (Settle, Gave(1)),
        ],
        text: "za",
        shown_at: &[1, 2],
    },
    Example {
        name: "two votes bring the commit",
        sites: 3,
        moves: &[
            (Type(1, 0, b'a'), Made(1)),
            (Type(1, 1, b'b'), Made(2)),
            (Give(2, 2), Later(0)),
            (Give(2, 2), Repeat(0)),
            (Give(2, 1), New(1)),
            (ProposeRoot(1), Made(3)),
            (Settle, Gave(8)),
            (Cancel(1, 3), NotOpen),
        ],
        text: "ab",
        shown_at: &[1, 2, 3],
    },
    Example {
        name: "proposals that overlap settle",
        sites: 2,
        moves: &[
            (Type(1, 0, b'a'), Made(1)),
            (Type(1, 1, b'b'), Made(2)),
            (Type(1, 2, b'c'), Made(3)),
            (Settle, Gave(3)),
            (ProposeRoot(1), Made(4)),
            (Propose(2, 0, Right), Made(1)),
            (Settle, Gave(6)),
        ],
        text: "abc",
        shown_at: &[1, 2],
    },
    Example {
        name: "proposals that are apart settle",
        sites: 2,
        moves: &[
            (Type(1, 0, b'a'), Made(1)),
            (Type(1, 1, b'b'), Made(2)),
            (Type(1, 2, b'c'), Made(3)),
            (Settle, Gave(3)),
            (Propose(1, 1, Left), Made(4)),
            (Propose(2, 1, Right), Made(1)),
            (Settle, Gave(6)),
        ],
        text: "abc",
        shown_at: &[1, 2],
    },
    Example {
        name: "a flattened slot is used again",
        sites: 2,
        moves: &[
            (Type(1, 0, b'x'), Made(1)),
            (Type(1, 1, b'y'), Made(2)),
            (Settle, Gave(2)),
            (Delete(1, 1), Made(3)),
            (Settle, Gave(1)),
            (Propose(1, 0, Right), Made(4)),
            (Settle, Gave(3)),
            (Type(1, 1, b'p'), Made(6)),
            (Type(2, 1, b'q'), Made(1)),
            (Settle, Gave(2)),
        ],
        text: "xpq",
        shown_at: &[1, 2],
    },
    Example {
        name: "what is known or is for others is not offered",
        sites: 2,
        moves: &[
            (Type(1, 0, b'a'), Made(1)),
            (Offer(2, 1), New(0)),
            (Offer(2, 1), NotGiven),
            (Offer(1, 1), NotGiven),
            (Offer(2, 9), NotGiven),
        ],
        text: "a",
        shown_at: &[1, 2],
    },
];

#[test]
fn moves_of_a_world(rt: HostRuntime) -> Result<(), Fail> {
    all_play(&rt, rt.alloc(), &EXAMPLES)
}
