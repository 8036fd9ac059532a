//! What is printed of marks.

use std::alloc::Global;
use std::test::Fail;
use td_base::{Bytes, Site};
use td_marks::{MarkFault, Piece};
use td_report::{flat_none_line, mark_line, marks_lines, meet_line};

fn site(number: u8) -> Result<Site, Fail> {
    Ok(Site::new(number).ok_or("a site")?)
}

#[test]
fn a_mark_is_told_with_its_atoms_or_why_there_is_none(rt: HostRuntime) -> Result<(), Fail> {
    for (add, count, refusal, text) in [
        (true, 2, None, "mark 1 2\n"),
        (false, 1, None, "unmark 1 1\n"),
        (
            true,
            1,
            Some(MarkFault::Position { len: 0 }),
            "mark 1 position 0\n",
        ),
        (
            false,
            65,
            Some(MarkFault::Wide { count: 65 }),
            "unmark 1 wide 65\n",
        ),
        (
            true,
            1,
            Some(MarkFault::Limit { made: 65_535 }),
            "mark 1 limit 65535\n",
        ),
    ] {
        let line = mark_line(rt.alloc(), site(1)?, add, count, refusal)?;
        assert_eq!(rt; line.as_slice(), text.as_bytes(), "{text}");
    }
    let line = meet_line(rt.alloc(), site(2)?, site(1)?, 3)?;
    assert_eq!(rt; line.as_slice(), b"meet 2 1 3\n".as_slice());
    let line = flat_none_line(rt.alloc(), site(1)?)?;
    assert_eq!(rt; line.as_slice(), b"flat 1 none\n".as_slice());
    Ok(())
}

fn piece(alloc: Global, text: &str, names: u32) -> Result<Piece, Fail> {
    let mut bytes = Bytes::new(alloc);
    bytes.push(text.as_bytes())?;
    Ok(Piece { text: bytes, names })
}

#[test]
fn a_marked_text_has_a_line_for_each_piece(rt: HostRuntime) -> Result<(), Fail> {
    let mut pieces = Vec::new(rt.alloc());
    for (text, names) in [("ab", 0x8), ("c", 0), ("\n\"", 0x8000_0005)] {
        pieces.push(piece(rt.alloc(), text, names)?)?;
    }
    let lines = marks_lines(rt.alloc(), site(2)?, &pieces)?;
    let wanted = "marks 2 3\n\"ab\" 3\n\"c\" -\n\"\\n\\\"\" 0 2 31\n";
    assert_eq!(rt; lines.as_slice(), wanted.as_bytes());
    let lines = marks_lines(rt.alloc(), site(2)?, &[])?;
    assert_eq!(rt; lines.as_slice(), b"marks 2 0\n".as_slice());
    Ok(())
}
