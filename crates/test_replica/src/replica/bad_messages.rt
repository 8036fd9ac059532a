use crate::replica::steps::Ask::{Insert, Next, Take, TakeOp, TakeVote};
use crate::replica::steps::Content::{CommitOf, DeleteOf, Letter, ProposalOfRoot};
use crate::replica::steps::Told::{Dropped, Idle, Later, Made, New, Repeat, Unfit};
use crate::replica::steps::{Example, all_play};
use std::test::Fail;
use td_op::Why;

const EXAMPLES: [Example; 3] = [
    Example {
        name: "what does not fit changes nothing",
        sites: 2,
        steps: &[
            (1, Insert(0, b'a'), Made(1, 1)),
            (1, TakeOp(2, 1, &[0, 0, 0], Letter), Unfit(Why::Size)),
            (1, TakeOp(1, 1, &[0, 0], Letter), Repeat),
            (1, TakeOp(1, 2, &[1, 0], Letter), Unfit(Why::Own)),
            (1, TakeOp(2, 1, &[2, 0], Letter), Unfit(Why::Own)),
            (1, TakeOp(2, 1, &[1, 0], DeleteOf(2, 7)), Unfit(Why::Atom)),
            (
                1,
                TakeOp(2, 1, &[1, 0], CommitOf(1, 1)),
                Unfit(Why::Proposal),
            ),
            (1, TakeVote(1, 1, 3), Unfit(Why::Size)),
            (1, TakeVote(2, 1, 2), Unfit(Why::Address)),
            (1, TakeVote(1, 1, 2), Unfit(Why::Proposal)),
            (1, Next, Idle),
            (2, Take(1, 1), New),
        ],
        text: Some("a"),
    },
    Example {
        name: "a commit against the own vote is unfit",
        sites: 2,
        steps: &[
            (1, Insert(0, b'a'), Made(1, 1)),
            (1, TakeOp(2, 1, &[0, 0], ProposalOfRoot), New),
            (1, TakeOp(2, 2, &[0, 1], CommitOf(2, 1)), Unfit(Why::Vote)),
        ],
        text: None,
    },
    Example {
        name: "what is unfit when it is ready is dropped",
        sites: 2,
        steps: &[
            (1, Insert(0, b'a'), Made(1, 1)),
            (1, TakeOp(2, 2, &[0, 1], DeleteOf(2, 7)), Later),
            (1, TakeOp(2, 1, &[0, 0], Letter), New),
            (1, Next, Dropped(2, 2, Why::Atom)),
            (1, Next, Idle),
        ],
        text: None,
    },
];

#[test]
fn a_message_that_does_not_fit_changes_nothing(rt: HostRuntime) -> Result<(), Fail> {
    all_play(&rt, rt.alloc(), &EXAMPLES)
}
