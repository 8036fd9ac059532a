//! Proposals, votes and decisions, by the worked examples.

use crate::replica::steps::Ask::{Cancel, Delete, Insert, Propose, ProposeRoot, Take};
use crate::replica::steps::Told::{Cancelled, Held, Made, New, NotOpen, Position, Repeat};
use crate::replica::steps::{Example, all_play};
use std::test::Fail;
use td_base::Bit::{Left, Right};

const EXAMPLES: [Example; 7] = [
    Example {
        name: "what is held is not edited",
        sites: 2,
        steps: &[
            (1, Insert(0, b'a'), Made(1, 1)),
            (1, Insert(1, b'b'), Made(1, 2)),
            (1, ProposeRoot, Made(1, 3)),
            (1, Insert(0, b'x'), Held(1, 3)),
            (1, Delete(0), Held(1, 3)),
            (1, ProposeRoot, Held(1, 3)),
            (2, Take(1, 1), New),
            (2, Take(1, 2), New),
            (2, Take(1, 3), New),
            (2, Insert(0, b'y'), Held(1, 3)),
            // the vote Yes, and so the commit 1.4
            (1, Take(2, 1), New),
            (1, Insert(0, b'x'), Made(1, 5)),
            (2, Insert(0, b'y'), Held(1, 3)),
            (2, Take(1, 4), New),
            (2, Take(1, 5), New),
        ],
        text: Some("xab"),
    },
    Example {
        name: "an edit takes precedence",
        sites: 2,
        steps: &[
            (1, Insert(0, b'a'), Made(1, 1)),
            (1, Insert(1, b'b'), Made(1, 2)),
            (2, Take(1, 1), New),
            (2, Take(1, 2), New),
            (1, ProposeRoot, Made(1, 3)),
            (2, Insert(2, b'c'), Made(2, 1)),
            (2, Take(1, 3), New),
            // the vote No, and so the abort 1.4
            (1, Take(2, 2), New),
            (1, Take(2, 1), New),
            (2, Take(1, 4), New),
            (1, Cancel(1, 3), NotOpen(1, 3)),
        ],
        text: Some("abc"),
    },
    Example {
        name: "proposals that overlap refuse each other",
        sites: 2,
        steps: &[
            (1, Insert(0, b'a'), Made(1, 1)),
            (1, Insert(1, b'b'), Made(1, 2)),
            (1, Insert(2, b'c'), Made(1, 3)),
            (2, Take(1, 1), New),
            (2, Take(1, 2), New),
            (2, Take(1, 3), New),
            (1, ProposeRoot, Made(1, 4)),
            (2, Propose(0, Right), Made(2, 1)),
            (2, Propose(3, Right), Position(3)),
            (1, Take(2, 1), New),
            (2, Take(1, 4), New),
            // the votes No, and so the aborts 2.2 and 1.5
            (2, Take(1, 5), New),
            (1, Take(2, 2), New),
            (1, Take(2, 3), New),
            (2, Take(1, 6), New),
            (1, Insert(3, b'd'), Made(1, 6)),
            (2, Take(1, 7), New),
        ],
        text: Some("abcd"),
    },
    Example {
        name: "proposals that are apart both commit",
        sites: 2,
        steps: &[
            (1, Insert(0, b'a'), Made(1, 1)),
            (1, Insert(1, b'b'), Made(1, 2)),
            (1, Insert(2, b'c'), Made(1, 3)),
            (2, Take(1, 1), New),
            (2, Take(1, 2), New),
            (2, Take(1, 3), New),
            (1, Propose(1, Left), Made(1, 4)),
            (2, Propose(1, Right), Made(2, 1)),
            (1, Take(2, 1), New),
            (2, Take(1, 4), New),
            // the votes Yes, and so the commits 2.2 and 1.5
            (2, Take(1, 5), New),
            (1, Take(2, 2), New),
            (1, Take(2, 3), New),
            (2, Take(1, 6), New),
        ],
        text: Some("abc"),
    },
    Example {
        name: "a flattened slot is used again",
        sites: 2,
        steps: &[
            (1, Insert(0, b'x'), Made(1, 1)),
            (1, Insert(1, b'y'), Made(1, 2)),
            (2, Take(1, 1), New),
            (2, Take(1, 2), New),
            (1, Delete(1), Made(1, 3)),
            (2, Take(1, 3), New),
            (1, Propose(0, Right), Made(1, 4)),
            (2, Take(1, 4), New),
            // the vote Yes, and so the commit 1.5
            (1, Take(2, 1), New),
            (2, Take(1, 5), New),
            (1, Insert(1, b'p'), Made(1, 6)),
            (2, Insert(1, b'q'), Made(2, 1)),
            (1, Take(2, 2), New),
            (2, Take(1, 6), New),
        ],
        text: Some("xpq"),
    },
    Example {
        name: "a late yes changes nothing after a cancel",
        sites: 2,
        steps: &[
            (1, Insert(0, b'a'), Made(1, 1)),
            (2, Take(1, 1), New),
            (1, ProposeRoot, Made(1, 2)),
            (2, Take(1, 2), New),
            (1, Cancel(1, 2), Cancelled),
            (1, Take(2, 1), Repeat),
            (2, Insert(0, b'z'), Held(1, 2)),
            (2, Take(1, 3), New),
            (2, Insert(0, b'z'), Made(2, 1)),
            (1, Cancel(1, 2), NotOpen(1, 2)),
            (1, Take(2, 2), New),
        ],
        text: Some("za"),
    },
    Example {
        name: "a vote looks at commits that the proposal had not seen",
        sites: 3,
        steps: &[
            (1, Insert(0, b'a'), Made(1, 1)),
            (1, Insert(1, b'b'), Made(1, 2)),
            (2, Take(1, 1), New),
            (2, Take(1, 2), New),
            (3, Take(1, 1), New),
            (3, Take(1, 2), New),
            (2, ProposeRoot, Made(2, 1)),
            (2, Cancel(2, 1), Cancelled),
            (1, ProposeRoot, Made(1, 3)),
            (2, Take(1, 3), New),
            (3, Take(1, 3), New),
            // the votes Yes of 2 and of 3, and so the commit 1.4
            (1, Take(2, 3), New),
            (1, Take(3, 1), New),
            (3, Take(1, 4), New),
            // the proposal 2.1, on which 3 votes No
            (3, Take(2, 1), New),
            (2, Take(3, 2), Repeat),
            (3, Take(2, 2), New),
            (2, Take(1, 4), New),
        ],
        text: Some("ab"),
    },
];

#[test]
fn proposals_are_decided_by_their_votes(rt: HostRuntime) -> Result<(), Fail> {
    all_play(&rt, rt.alloc(), &EXAMPLES)
}
