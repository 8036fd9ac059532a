use crate::pair::Do::{Flatten, Mark, Meet, Names, Take, TakeAlone, Type, Unmark};
use crate::pair::Told::{Done, Made, Met, Named, Refused, Taken};
use crate::pair::{Do, Pair, Told};
use std::alloc::Global;
use std::process::Abort;
use std::test::Fail;
use td_doc::Rows;
use td_marks::{MarkFault, MarkTaken, Marks, Piece, marked_text};

// What it shows, what was typed before, what is done and what comes of it, how many operations both sites have then,
// and what both show: the pieces of the text with their names, bit m for the name m.
struct Example {
    name: &'static str,
    typed: &'static [u8],
    steps: &'static [(Do, Told)],
    ops: u32,
    pieces: &'static [(&'static [u8], u32)],
}

const NO_PLACE: Told = Refused(MarkFault::Position { len: 66 });

const WIDE: Told = Refused(MarkFault::Wide { count: 65 });

const EXAMPLES: [Example; 5] = [
    Example {
        name: "marks stay through a flatten",
        typed: b"abc",
        steps: &[
            (Mark(1, 3, 0, 2), Made(1, 1)),
            (Meet(2), Met(1)),
            (Unmark(2, 3, 1, 1), Made(2, 1)),
            (Mark(1, 3, 1, 1), Made(1, 2)),
            (Meet(1), Met(1)),
            (Meet(2), Met(1)),
            (Flatten, Done),
            (Names(2), Named(8)),
        ],
        ops: 3,
        pieces: &[(b"ab", 8), (b"c", 0)],
    },
    Example {
        name: "what is typed between is not marked",
        typed: b"ab",
        steps: &[
            (Mark(1, 0, 0, 2), Made(1, 1)),
            (Mark(1, 31, 1, 1), Made(1, 2)),
            (Type(3, b'x', 2), Done),
            (Meet(2), Met(2)),
        ],
        ops: 2,
        pieces: &[(b"a", 1), (b"x", 0), (b"b", 0x8000_0001)],
    },
    Example {
        name: "nothing of an empty text can be marked",
        typed: b"",
        steps: &[(Mark(1, 3, 0, 1), Refused(MarkFault::Position { len: 0 }))],
        ops: 0,
        pieces: &[],
    },
    Example {
        name: "what cannot be marked is refused",
        typed: &[b'a'; 66],
        steps: &[
            (Mark(1, 3, 0, 0), NO_PLACE),
            (Mark(1, 3, 66, 1), NO_PLACE),
            (Mark(1, 3, u32::MAX, u32::MAX), NO_PLACE),
            (Mark(1, 3, 0, 65), WIDE),
            (Mark(1, 3, 1, 65), WIDE),
            (Mark(1, 3, 2, 65), NO_PLACE),
            (Mark(1, 3, 2, 64), Made(1, 1)),
            (Mark(1, 3, 65, 1), Made(1, 2)),
            (Meet(2), Met(2)),
        ],
        ops: 2,
        pieces: &[(b"aa", 0), (&[b'a'; 64], 8)],
    },
    Example {
        name: "operations are taken in their order",
        typed: b"ab",
        steps: &[
            (Mark(1, 3, 0, 1), Made(1, 1)),
            (Unmark(1, 3, 0, 1), Made(1, 2)),
            (Take(2), Taken(MarkTaken::Gap { want: 1 })),
            (Take(1), Taken(MarkTaken::New)),
            (Take(1), Taken(MarkTaken::Repeat)),
            (Take(2), Taken(MarkTaken::New)),
            (TakeAlone(1), Taken(MarkTaken::Size)),
        ],
        ops: 2,
        pieces: &[(b"ab", 0)],
    },
];

fn is_piece(piece: &Piece, (text, names): (&[u8], u32)) -> bool {
    piece.text.as_slice() == text && piece.names == names
}

// Whether the text with these marks is shown in these pieces.
fn shows(
    alloc: Global,
    marks: &Marks,
    doc: &Rows,
    expected: &[(&[u8], u32)],
) -> Result<bool, Fail> {
    let pieces: Vec<Piece> = marked_text(alloc, marks, doc)?;
    let mut same = pieces.len() == expected.len();
    for (piece, told) in pieces.iter().zip(expected) {
        same = same && is_piece(piece, *told);
    }
    Ok(same)
}

// Whether there are so many operations, from 1 on.
fn has(marks: &Marks, ops: u32) -> bool {
    marks.ops() == ops && marks.op(0).is_none() && marks.op(ops.wrapping_add(1)).is_none()
}

// What is shown with the marks of a site, when all is done.
fn stands(
    rt: &impl Abort,
    alloc: Global,
    marks: &mut Marks,
    doc: &mut Rows,
    example: &Example,
) -> Result<(), Fail> {
    let name = example.name;
    assert!(rt; has(marks, example.ops), "{name}");
    assert!(rt; shows(alloc, marks, doc, example.pieces)?, "{name}");
    Ok(())
}

fn holds(rt: &impl Abort, alloc: Global, pair: &mut Pair, example: &Example) -> Result<(), Fail> {
    let name = example.name;
    for (what, told) in example.steps {
        assert_eq!(rt; pair.step(alloc, *what)?, *told, "{name}");
    }
    stands(rt, alloc, &mut pair.first, &mut pair.doc, example)?;
    stands(rt, alloc, &mut pair.second, &mut pair.doc, example)
}

#[test]
fn worked_examples(rt: HostRuntime) -> Result<(), Fail> {
    for example in &EXAMPLES {
        let mut pair = Pair::new(rt.alloc(), example.typed)?;
        holds(&rt, rt.alloc(), &mut pair, example)?;
    }
    Ok(())
}
