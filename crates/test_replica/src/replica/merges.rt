//! Edits that meet, by the worked examples: in any order, repeated, lost.

use crate::replica::steps::Ask::{Delete, Insert, Next, Take};
use crate::replica::steps::Told::{Idle, Later, Made, New, Position, Repeat, Taken};
use crate::replica::steps::{Example, all_play};
use std::test::Fail;

const EXAMPLES: [Example; 7] = [
    Example {
        name: "what comes too early waits",
        sites: 2,
        steps: &[
            (1, Insert(0, b'a'), Made(1, 1)),
            (1, Insert(1, b'b'), Made(1, 2)),
            (2, Insert(1, b'x'), Position(0)),
            (2, Take(1, 2), Later),
            (2, Take(1, 2), Repeat),
            (2, Next, Idle),
            (2, Take(1, 1), New),
            (2, Take(1, 1), Repeat),
            (2, Next, Taken(1, 2)),
            (2, Next, Idle),
            (2, Take(1, 2), Repeat),
        ],
        text: Some("ab"),
    },
    Example {
        name: "what is lost is waited for",
        sites: 2,
        steps: &[
            (1, Insert(0, b'a'), Made(1, 1)),
            (1, Insert(1, b'b'), Made(1, 2)),
            (1, Insert(2, b'c'), Made(1, 3)),
            (2, Take(1, 1), New),
            (2, Next, Idle),
            (2, Take(1, 3), Later),
            (2, Next, Idle),
            (2, Take(1, 2), New),
            (2, Next, Taken(1, 3)),
        ],
        text: Some("abc"),
    },
    Example {
        name: "three sites have one order",
        sites: 3,
        steps: &[
            (1, Insert(0, b'a'), Made(1, 1)),
            (1, Insert(1, b'b'), Made(1, 2)),
            (2, Insert(0, b'c'), Made(2, 1)),
            (2, Insert(1, b'd'), Made(2, 2)),
            (3, Insert(0, b'e'), Made(3, 1)),
            (3, Insert(1, b'f'), Made(3, 2)),
            (1, Take(2, 1), New),
            (1, Take(2, 2), New),
            (1, Take(3, 1), New),
            (1, Take(3, 2), New),
            (2, Take(3, 2), Later),
            (2, Take(1, 2), Later),
            (2, Take(3, 1), New),
            (2, Take(1, 1), New),
            (2, Next, Taken(1, 2)),
            (2, Next, Taken(3, 2)),
            (2, Next, Idle),
            (3, Take(1, 1), New),
            (3, Take(2, 1), New),
            (3, Take(1, 2), New),
            (3, Take(2, 2), New),
        ],
        text: Some("abcdef"),
    },
    Example {
        name: "one gap takes the letters of two sites",
        sites: 2,
        steps: &[
            (1, Insert(0, b'a'), Made(1, 1)),
            (1, Insert(1, b'c'), Made(1, 2)),
            (2, Take(1, 1), New),
            (2, Take(1, 2), New),
            (1, Insert(1, b'X'), Made(1, 3)),
            (2, Insert(1, b'Y'), Made(2, 1)),
            (1, Take(2, 1), New),
            (2, Take(1, 3), New),
        ],
        text: Some("aXYc"),
    },
    Example {
        name: "an atom is deleted twice",
        sites: 2,
        steps: &[
            (1, Insert(0, b'a'), Made(1, 1)),
            (1, Insert(1, b'b'), Made(1, 2)),
            (2, Take(1, 1), New),
            (2, Take(1, 2), New),
            (1, Delete(0), Made(1, 3)),
            (2, Delete(0), Made(2, 1)),
            (1, Take(2, 1), New),
            (2, Take(1, 3), New),
            (1, Delete(1), Position(1)),
        ],
        text: Some("b"),
    },
    Example {
        name: "what is typed beside a tombstone stands there",
        sites: 1,
        steps: &[
            (1, Insert(0, b'a'), Made(1, 1)),
            (1, Insert(1, b'b'), Made(1, 2)),
            (1, Insert(2, b'c'), Made(1, 3)),
            (1, Delete(1), Made(1, 4)),
            (1, Insert(1, b'x'), Made(1, 5)),
        ],
        text: Some("axc"),
    },
    Example {
        name: "sixty four sites merge",
        sites: 64,
        steps: &[
            (64, Insert(0, b'a'), Made(64, 1)),
            (1, Insert(0, b'b'), Made(1, 1)),
            (2, Take(64, 1), New),
            (2, Take(1, 1), New),
            (1, Take(64, 1), New),
        ],
        text: None,
    },
];

#[test]
fn edits_that_meet_merge(rt: HostRuntime) -> Result<(), Fail> {
    all_play(&rt, rt.alloc(), &EXAMPLES)
}
