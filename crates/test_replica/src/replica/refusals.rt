//! What a replica refuses by name, and where a run goes that is pasted behind an atom.

use crate::replica::steps::Ask::{
    DeleteAtom, Insert, InsertAfter, Next, PasteAfter, Propose, ProposeBeside,
};
use crate::replica::steps::Told::{Gone, Idle, Made, Position};
use crate::replica::steps::{Example, all_play};
use std::test::Fail;
use td_base::Bit;

const EXAMPLES: [Example; 2] = [
    Example {
        name: "an empty replica has no atom and no index but the start",
        sites: 2,
        steps: &[
            (1, Insert(1, b'a'), Position(0)),
            (1, InsertAfter(2, 1, b'a'), Gone(2, 1)),
            (1, DeleteAtom(1, 1), Gone(1, 1)),
            (1, ProposeBeside(1, 1, Bit::Left), Gone(1, 1)),
            (1, Next, Idle),
            (1, Propose(0, Bit::Left), Position(0)),
        ],
        text: Some(""),
    },
    Example {
        name: "a run is placed after a live atom",
        sites: 1,
        steps: &[
            (1, PasteAfter(None, *b"ab"), Made(1, 1)),
            (1, PasteAfter(Some((2, 7)), *b"ab"), Gone(2, 7)),
            (1, PasteAfter(Some((1, 1)), *b"xy"), Made(1, 2)),
        ],
        text: Some("axyb"),
    },
];

#[test]
fn what_has_no_place_is_refused(rt: HostRuntime) -> Result<(), Fail> {
    all_play(&rt, rt.alloc(), &EXAMPLES)
}
