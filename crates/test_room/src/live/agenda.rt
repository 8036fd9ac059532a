// What lines ask for, given the replies.
use std::alloc::Global;
use std::process::Abort;
use std::test::Fail;
use td_base::{Dot, Site};
use td_live::{Agenda, Next};
use td_op::{Reply, Request};
use td_script::{EditorLine, EditorLines};
use td_text::cut;

// A line of an editor.
pub enum Line {
    Ins(u32, &'static str),
    Paste(u32, &'static str),
    Del(u32, u32),
    Look,
}

// Lines, whether each call makes an operation, and what is done.
struct Row {
    name: &'static str,
    lines: &'static [Line],
    made: &'static [bool],
    done: &'static str,
}

// 64 letters are a run.
const ROWS: [Row; 6] = [
    Row {
        name: "three clusters are typed one behind the other",
        lines: &[Line::Ins(4, "abc"), Line::Look],
        made: &[true, true, true],
        done: "insert 4 a, insert behind 1.0 b, insert behind 2.0 c, look, over",
    },
    Row {
        name: "a refused call ends its line",
        lines: &[Line::Ins(4, "abc"), Line::Del(2, 1)],
        made: &[true, false, true],
        done: "insert 4 a, insert behind 1.0 b, delete 2, over",
    },
    Row {
        name: "the second run of a paste stands behind the last atom of the first",
        lines: &[Line::Paste(
            1,
            "0123456789012345678901234567890123456789012345678901234567890123xyz",
        )],
        made: &[true, true],
        done: "paste 1 0123456789012345678901234567890123456789012345678901234567890123, paste behind 1.63 xyz, over",
    },
    Row {
        name: "as many deletes as the line says",
        lines: &[Line::Del(7, 3)],
        made: &[true, true, true],
        done: "delete 7, delete 7, delete 7, over",
    },
    Row {
        name: "looks are done one by one",
        lines: &[Line::Look, Line::Look],
        made: &[],
        done: "look, look, over",
    },
    Row {
        name: "a line without calls is passed over",
        lines: &[
            Line::Ins(0, ""),
            Line::Paste(0, ""),
            Line::Del(0, 0),
            Line::Del(3, 1),
        ],
        made: &[true],
        done: "delete 3, over",
    },
];

#[test]
fn lines_ask_for_their_calls_as_they_are_answered(rt: HostRuntime) -> Result<(), Fail> {
    for row in &ROWS {
        let mut agenda = Agenda::new(lines_of(&rt, rt.alloc(), row.lines)?);
        let done = all_done(rt.alloc(), &mut agenda, row)?;
        assert_eq!(rt; done.as_str(), row.done, "{}", row.name);
    }
    Ok(())
}

// What is done of the lines, in words.
fn all_done(alloc: Global, agenda: &mut Agenda, row: &Row) -> Result<String, Fail> {
    let mut replies = row.made.iter();
    let mut done = String::new(alloc);
    for number in 1..9 {
        match agenda.next() {
            Next::Ask(request) => {
                let made = *replies.next().ok_or("a call too many")?;
                agenda.replied(&reply(number, made)?);
                done.push_str(&words(alloc, &request)?)?;
            }
            Next::Look => {
                agenda.looked();
                done.push_str("look, ")?;
            }
            Next::Over => {
                done.push_str("over")?;
                return Ok(done);
            }
        }
    }
    Err("more than 8 things to do")?
}

// The lines of one editor.
pub fn lines_of(rt: &impl Abort, alloc: Global, lines: &[Line]) -> Result<EditorLines, Fail> {
    let mut all = EditorLines::new(alloc);
    push_all(rt, alloc, &mut all, lines)?;
    Ok(all)
}

fn push_all(
    rt: &impl Abort,
    alloc: Global,
    all: &mut EditorLines,
    lines: &[Line],
) -> Result<(), Fail> {
    for line in lines {
        let line = line_of(alloc, line)?;
        assert!(rt; all.calls() < 1000 && line.calls() < 1000);
        all.push(line)?;
    }
    Ok(())
}

fn line_of(alloc: Global, line: &Line) -> Result<EditorLine, Fail> {
    Ok(match line {
        Line::Ins(index, text) => EditorLine::Ins {
            index: *index,
            atoms: cut(alloc, text)?,
        },
        Line::Paste(index, text) => EditorLine::Paste {
            index: *index,
            atoms: cut(alloc, text)?,
        },
        Line::Del(index, count) => EditorLine::Del {
            index: *index,
            count: *count,
        },
        Line::Look => EditorLine::Look,
    })
}

// The call makes the operation with this number of site 1, or is refused.
fn reply(number: u32, made: bool) -> Result<Reply, Fail> {
    if !made {
        return Ok(Reply::Position { len: 0 });
    }
    let site = Site::new(1).ok_or("a site")?;
    Ok(Reply::Made {
        dot: Dot::new(site, number).ok_or("a dot")?,
    })
}

fn words(alloc: Global, request: &Request) -> Result<String, Fail> {
    Ok(match request {
        Request::Insert { index, atom } => {
            let text = str::from_utf8(atom.bytes()).ok().ok_or("text")?;
            format!(in alloc; "insert {index} {text}, ")?
        }
        Request::InsertAfter {
            after: Some(id),
            atom,
        } => {
            let text = str::from_utf8(atom.bytes()).ok().ok_or("text")?;
            format!(in alloc; "insert behind {}.{} {text}, ", id.dot.seq, id.offset)?
        }
        Request::Paste { index, run } => {
            let text = str::from_utf8(run.bytes()).ok().ok_or("text")?;
            format!(in alloc; "paste {index} {text}, ")?
        }
        Request::PasteAfter {
            after: Some(id),
            run,
        } => {
            let text = str::from_utf8(run.bytes()).ok().ok_or("text")?;
            format!(in alloc; "paste behind {}.{} {text}, ", id.dot.seq, id.offset)?
        }
        Request::Delete { index } => format!(in alloc; "delete {index}, ")?,
        _ => format!(in alloc; "another, ")?,
    })
}
