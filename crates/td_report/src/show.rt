ghost use Rattle.std.specs.Prelude.{◌≡◌, ◌++◌, IfOk, OnOk};
ghost use Rattle.std.specs.List.{flat_map};
ghost use Rattle.td_script.specs.Texts.{escaped};
ghost use Rattle.td_report.specs.Parts.{spaced_quoted};
ghost use Rattle.td_report.specs.Tree.{show_line};

use crate::parts::begin;
use std::alloc::Global;
use td_base::{Bytes, Memory, Site};

/// `show R "text"`: the text, with escapes for the quote, the backslash and LF.
pub fn show_line(alloc: Global, site: Site, text: &[u8]) -> Result<Bytes, Memory>
    ensures { IfOk result (λ line. line ≡ show_line site text.now) }
{
    let mut line = begin(alloc, b"show", site)?;
    push_quoted(&mut line, text)?;
    line.push(b"\n")?;
    Ok(line)
}

/// A text in quotes, behind a space.
pub(crate) fn push_quoted(line: &mut Bytes, text: &[u8]) -> Result<(), Memory>
    ensures { OnOk result (line.new ≡ line.old ++ spaced_quoted text.now) }
{
    line.push(b" \"")?;
    push_escaped(line, text)?;
    line.push(b"\"")
}

/// The bytes of a text, as they are written between quotes.
pub(crate) fn push_escaped(line: &mut Bytes, text: &[u8]) -> Result<(), Memory>
    ensures { OnOk result (line.new ≡ line.old ++ flat_map escaped text.now) }
{
    for byte in text {
        push_byte(line, *byte)?;
    }
    Ok(())
}

fn push_byte(line: &mut Bytes, byte: u8) -> Result<(), Memory>
    ensures { OnOk result (line.new ≡ line.old ++ escaped byte) }
{
    match byte {
        b'"' => line.push(b"\\\""),
        b'\\' => line.push(b"\\\\"),
        b'\n' => line.push(b"\\n"),
        _ => line.push(&[byte]),
    }
}
