ghost use Rattle.std.specs.Prelude.{◌≡◌, ◌≤◌, false, IfOk, IfSome, IfNone, Some, None, length, drop, string_bytes};
ghost use Rattle.td_script.specs.Answers.{IsLineAnswer, IsTextAnswer};
ghost use Rattle.td_script.specs.Arguments.{behind, cluster_at, cluster_of, last, text_at};
ghost use Rattle.td_script.specs.Texts.{unescaped, unquoted};

use crate::argument::argument;
use crate::kind::{Kind, LineFault};
use std::alloc::Global;
use td_base::{Atom, Memory};
use td_text::{AtomList, CutFault, cut};

/// The text in quotes that is the last argument of a line, in clusters.
pub(crate) fn last_text(alloc: Global, rest: &str) -> Result<AtomList, LineFault>
    ensures { IsLineAnswer (behind (text_at rest.now) last) result }
{
    let (atoms, left) = text(alloc, rest)?;
    if left > 0 {
        return Err(LineFault::Faulty(Kind::End));
    }
    Ok(atoms)
}

/// The text of one cluster that is the last argument of a line.
pub(crate) fn last_cluster(alloc: Global, rest: &str) -> Result<Atom, LineFault>
    ensures { IsLineAnswer (behind (cluster_at rest.now) last) result }
{
    let (atoms, left) = text(alloc, rest)?;
    let atom = cluster(atoms)?;
    if left > 0 {
        return Err(LineFault::Faulty(Kind::End));
    }
    Ok(atom)
}

// A text in quotes, in clusters, and how many bytes are left behind it.
fn text(alloc: Global, rest: &str) -> Result<(AtomList, usize), LineFault>
    ensures { IsTextAnswer rest.now result }
{
    let argument = argument(rest)?;
    let Some(quoted) = argument.strip_prefix('"') else {
        return Err(LineFault::Faulty(Kind::Quote));
    };
    let Some((text, len)) = unquote(alloc, quoted)? else {
        return Err(LineFault::Faulty(Kind::Quote));
    };
    match cut(alloc, &text) {
        Err(CutFault::Memory) => Err(LineFault::Memory),
        Err(CutFault::Long { .. }) => Err(LineFault::Faulty(Kind::Atom)),
        Ok(atoms) => Ok((atoms, quoted.len() - len)),
    }
}

// The one cluster that the text is.
fn cluster(atoms: AtomList) -> Result<Atom, Kind>
    ensures { result ≡ cluster_of atoms }
{
    let mut atoms = atoms.into_atoms();
    let first = atoms.next_atom().ok_or(Kind::Atom)?;
    match atoms.next_atom() {
        None => Ok(first),
        Some(_) => Err(Kind::Atom),
    }
}

// The text up to the closing quote, its escapes replaced, and the length up to that quote and with it.
fn unquote(alloc: Global, quoted: &str) -> Result<Option<(String, usize)>, Memory>
    ensures some { IfOk result (λ read. IfSome read (λ text. (text.1 ≤ length quoted.now)
        × (unquoted false quoted.now ≡ Some (string_bytes text.0, drop text.1 quoted.now)))) }
    ensures none { IfOk result (λ read. IfNone read (unquoted false quoted.now ≡ None)) }
{
    // a text without escapes is copied at once
    if let Some((text, _)) = quoted.split_once('"')
        && !text.contains('\\')
    {
        return Ok(Some((String::from_str(alloc, text)?, text.len() + 1)));
    }
    let mut text = Vec::new(alloc);
    let mut is_escaped = false;
    for (at, byte) in quoted.as_bytes().iter().enumerate() {
        match *byte {
            b'"' if !is_escaped => return Ok(Some((String::from_utf8(text).unwrap(), at + 1))),
            b'\\' if !is_escaped => is_escaped = true,
            byte => {
                let Some(spelled) = unescaped(is_escaped, byte) else {
                    return Ok(None);
                };
                text.push(spelled)?;
                is_escaped = false;
            }
        }
    }
    Ok(None)
}

// The byte that is written so, maybe behind a backslash.
fn unescaped(is_escaped: bool, byte: u8) -> Option<u8>
    ensures { result ≡ unescaped is_escaped byte }
{
    if !is_escaped {
        return Some(byte);
    }
    match byte {
        b'"' | b'\\' => Some(byte),
        b'n' => Some(b'\n'),
        _ => None,
    }
}
