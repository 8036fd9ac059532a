ghost use Rattle.std.specs.Prelude.{◌≡◌, ◌≤◌, ◌<◌, ◌↔◌, IsTrue, false, length, take, ◌++◌, IfOk};
ghost use Rattle.std.specs.Prelude.{OnOk, IfSome, IfNone, MatchOption, None, Some, if◌then◌else◌};
ghost use Rattle.td_reader.specs.Arguments.{is_atom_len, is_escape, plain, raw_at, text_at, turned, unescaped};

use std::alloc::Global;
use std::marker::Model;
use td_base::{Atom, Bytes, MAX_ATOM_LEN, Memory};

/// A text as it stands between its quotes. Contracts see the text, its escapes replaced.
#[derive(Debug, Drop)]
pub struct Quoted<'a> {
    raw: &'a [u8],
}

impl<'a> Model for Quoted<'a> {
    ghost use Rattle.std.specs.Prelude.{ℕ, List, false};
    ghost use Rattle.td_reader.specs.Arguments.{IsRaw, plain};

    ghost Value = { List ℕ };

    ghost view = { λ q. plain false q.raw.now };

    ghost invariant = { λ q. IsRaw q.raw.now };
}

impl Quoted<'_> {
    /// The length of the text in bytes. Takes no memory.
    pub fn len(&self) -> usize
        ensures { result ≡ length self.now }
    {
        plain_len(self.raw)
    }

    /// Whether it is this text. Takes no memory.
    pub fn is(&self, text: &[u8]) -> bool
        ensures { IsTrue result ↔ (self.now ≡ text.now) }
    {
        is_plain(self.raw, text)
    }

    /// The text.
    pub fn text(&self, alloc: Global) -> Result<Bytes, Memory>
        ensures { IfOk result (λ text. text ≡ self.now) }
    {
        let mut text = Bytes::new(alloc);
        push_plain(&mut text, self.raw)?;
        Ok(text)
    }

    /// The atom that the text is, where it is one.
    pub(crate) fn atom(&self) -> Option<Atom>
        ensures { result ≡ (if is_atom_len (length self.now) then Some self.now else None) }
    {
        let mut bytes = [0; MAX_ATOM_LEN];
        let len = fill_plain(&mut bytes, self.raw)?;
        if len == 0 {
            return None;
        }
        Some(Atom::of(&bytes[..len]))
    }
}

/// The text up to its closing quote, and what is left behind that quote.
#[tactic(auto, unfolding(crate::specs::Arguments::text_at))]
pub(crate) fn text(bytes: &[u8]) -> Option<(Quoted<'_>, &[u8])>
    ensures { let read = text_at bytes.now in
        MatchOption result (read ≡ None) (λ found. read ≡ Some (found.0, found.1.now)) }
{
    let (raw, rest) = split_raw(bytes)?;
    let Ok(_) = str::from_utf8(raw) else {
        return None;
    };
    Some((Quoted { raw }, rest))
}

// What stands up to the closing quote, and what is left behind that quote.
fn split_raw(bytes: &[u8]) -> Option<(&[u8], &[u8])>
    ensures { let read = raw_at false bytes.now in
        MatchOption result (read ≡ None) (λ found. read ≡ Some (found.0.now, found.1.now)) }
{
    let mut is_escaped = false;
    for (at, byte) in bytes.iter().enumerate() {
        if !is_escaped && *byte == b'"' {
            return Some((&bytes[..at], &bytes[at + 1..]));
        }
        is_escaped = turned(is_escaped, *byte)?;
    }
    None
}

// Whether what follows the byte stands behind a backslash. None where the byte cannot stand there.
fn turned(is_escaped: bool, byte: u8) -> Option<bool>
    ensures { result ≡ turned is_escaped byte }
{
    if is_escaped {
        is_escape(byte).then_some(false)
    } else if byte == b'\n' {
        None
    } else {
        Some(byte == b'\\')
    }
}

// What may stand behind a backslash.
fn is_escape(byte: u8) -> bool
    ensures { result ≡ is_escape byte }
{
    byte == b'"' || byte == b'\\' || byte == b'n'
}

// The byte that stands behind a backslash.
fn unescaped(byte: u8) -> u8
    ensures { result ≡ unescaped byte }
{
    if byte == b'n' { b'\n' } else { byte }
}

// The length of the text that stands so.
fn plain_len(raw: &[u8]) -> usize
    ensures { result ≡ length (plain false raw.now) }
{
    let mut len = 0;
    let mut is_escaped = false;
    for byte in raw {
        if !is_escaped && *byte == b'\\' {
            is_escaped = true;
        } else {
            len += 1;
            is_escaped = false;
        }
    }
    len
}

// Whether the text that stands so is this one.
fn is_plain(raw: &[u8], text: &[u8]) -> bool
    ensures { IsTrue result ↔ (plain false raw.now ≡ text.now) }
{
    let mut at = 0;
    let mut is_escaped = false;
    for byte in raw {
        if !is_escaped && *byte == b'\\' {
            is_escaped = true;
        } else {
            let byte = if is_escaped { unescaped(*byte) } else { *byte };
            if at == text.len() || text[at] != byte {
                return false;
            }
            at += 1;
            is_escaped = false;
        }
    }
    at == text.len()
}

// The text that stands so, at the end.
fn push_plain(text: &mut Bytes, raw: &[u8]) -> Result<(), Memory>
    ensures { OnOk result (text.new ≡ text.old ++ plain false raw.now) }
{
    let mut is_escaped = false;
    for byte in raw {
        if !is_escaped && *byte == b'\\' {
            is_escaped = true;
        } else {
            let byte = if is_escaped { unescaped(*byte) } else { *byte };
            text.push(&[byte])?;
            is_escaped = false;
        }
    }
    Ok(())
}

// The text that stands so, at the front of the bytes, and its length. None where it has more than `MAX_ATOM_LEN`.
fn fill_plain(bytes: &mut [u8; MAX_ATOM_LEN], raw: &[u8]) -> Option<usize>
    ensures some { IfSome result (λ len. (len ≤ MAX_ATOM_LEN) × (take len bytes.new ≡ plain false raw.now)) }
    ensures none { IfNone result (MAX_ATOM_LEN < length (plain false raw.now)) }
{
    let mut len = 0;
    let mut is_escaped = false;
    for byte in raw {
        if !is_escaped && *byte == b'\\' {
            is_escaped = true;
        } else {
            if len == MAX_ATOM_LEN {
                return None;
            }
            bytes[len] = if is_escaped { unescaped(*byte) } else { *byte };
            len += 1;
            is_escaped = false;
        }
    }
    Some(len)
}
