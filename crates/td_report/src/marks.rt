ghost use Rattle.std.specs.Prelude.{◌≡◌, ◌<◌, ◌++◌, IfOk, OnOk};
ghost use Rattle.std.specs.List.{flat_map, range_with_len};
ghost use Rattle.td_script.specs.Spelling.{mark_word};
ghost use Rattle.td_report.specs.Marks.{mark_line, marked_part, marks_lines, meet_line};
ghost use Rattle.td_report.specs.Marks.{name_part, names_part, piece_line, unmarked_part};

use crate::parts::{begin, push_spaced};
use crate::show::push_escaped;
use std::alloc::Global;
use td_base::{Bytes, Memory, Site};
use td_marks::{MarkFault, NAMES, Piece};

/// `mark R K`, or `unmark R K` where the name is removed: it was asked of so many atoms. Where that was refused, why
/// stands in the place of K; a refusal is never for want of memory.
pub fn mark_line(
    alloc: Global,
    site: Site,
    add: bool,
    count: u32,
    refusal: Option<MarkFault>,
) -> Result<Bytes, Memory>
    ensures { IfOk result (λ line. line ≡ mark_line site add count refusal) }
{
    let mut line = begin(alloc, mark_word(add), site)?;
    push_marked(&mut line, count, &refusal)?;
    line.push(b"\n")?;
    Ok(line)
}

fn mark_word(add: bool) -> &'static [u8]
    ensures { result.now ≡ mark_word add }
{
    if add { b"mark" } else { b"unmark" }
}

// How many atoms were marked, or why none were.
fn push_marked(line: &mut Bytes, count: u32, refusal: &Option<MarkFault>) -> Result<(), Memory>
    ensures { OnOk result (line.new ≡ line.old ++ marked_part count refusal.now) }
{
    match refusal {
        Some(fault) => push_unmarked(line, fault),
        None => push_spaced(line, u64::from(count)),
    }
}

fn push_unmarked(line: &mut Bytes, fault: &MarkFault) -> Result<(), Memory>
    ensures { OnOk result (line.new ≡ line.old ++ unmarked_part fault.now) }
{
    match *fault {
        MarkFault::Position { len } => {
            line.push(b" position")?;
            push_spaced(line, u64::from(len))
        }
        MarkFault::Wide { count } => {
            line.push(b" wide")?;
            push_spaced(line, u64::from(count))
        }
        MarkFault::Limit { made } => {
            line.push(b" limit")?;
            push_spaced(line, u64::from(made))
        }
        MarkFault::Memory => Ok(()),
    }
}

/// `meet R Q C`: the site was given so many operations on marks of the other one that it did not have.
pub fn meet_line(alloc: Global, site: Site, other: Site, count: u32) -> Result<Bytes, Memory>
    ensures { IfOk result (λ line. line ≡ meet_line site other count) }
{
    let mut line = begin(alloc, b"meet", site)?;
    push_spaced(&mut line, u64::from(other.number()))?;
    push_spaced(&mut line, u64::from(count))?;
    line.push(b"\n")?;
    Ok(line)
}

/// `marks R W`, W the pieces of the marked text, and then a line for each: its text, and its names, or `-` where it
/// has none.
pub fn marks_lines(alloc: Global, site: Site, pieces: &[Piece]) -> Result<Bytes, Memory>
    ensures { IfOk result (λ lines. lines ≡ marks_lines site pieces.now) }
{
    let mut lines = begin(alloc, b"marks", site)?;
    push_spaced(&mut lines, pieces.len() as u64)?;
    lines.push(b"\n")?;
    push_pieces(&mut lines, pieces)?;
    Ok(lines)
}

fn push_pieces(lines: &mut Bytes, pieces: &[Piece]) -> Result<(), Memory>
    ensures { OnOk result (lines.new ≡ lines.old ++ flat_map piece_line pieces.now) }
{
    for piece in pieces {
        push_piece(lines, piece)?;
    }
    Ok(())
}

fn push_piece(lines: &mut Bytes, piece: &Piece) -> Result<(), Memory>
    ensures { OnOk result (lines.new ≡ lines.old ++ piece_line piece.now) }
{
    lines.push(b"\"")?;
    push_escaped(lines, piece.text.as_slice())?;
    lines.push(b"\"")?;
    push_names(lines, piece.names)?;
    lines.push(b"\n")
}

// The names in rising order; `-` where there is none.
fn push_names(line: &mut Bytes, names: u32) -> Result<(), Memory>
    ensures { OnOk result (line.new ≡ line.old ++ names_part names) }
{
    if names == 0 {
        return line.push(b" -");
    }
    push_all_names(line, names)
}

fn push_all_names(line: &mut Bytes, names: u32) -> Result<(), Memory>
    ensures { OnOk result (line.new ≡ line.old ++ flat_map (name_part names) (range_with_len 0 NAMES)) }
{
    for name in 0..NAMES {
        push_name(line, names, name)?;
    }
    Ok(())
}

// The name behind a space, where its bit is set.
fn push_name(line: &mut Bytes, names: u32, name: u8) -> Result<(), Memory>
    requires { name < NAMES }
    ensures { OnOk result (line.new ≡ line.old ++ name_part names name) }
{
    if (names >> name) & 1 == 1 {
        return push_spaced(line, u64::from(name));
    }
    Ok(())
}
