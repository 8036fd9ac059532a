// Reading a line, with its LF.
ghost use Rattle.std.specs.Prelude.{◌≡◌, MatchOption, None, Some};
ghost use Rattle.td_reader.specs.Lines.{call_at, editor_at, ending_at, entry_at, history_at};
ghost use Rattle.td_reader.specs.Lines.{line_at, look_at, sites_at};
ghost use Rattle.td_reader.specs.Said.{said_by};

use crate::cursor::behind;
use crate::line::ReadLine;
use crate::names::site;
use crate::number::{long, number, short};
use crate::quoted::text;
use crate::reply::reply;
use crate::request::told;
use td_base::MAX_SITE;
use td_trace::TraceEntry;

/// A line with its LF, and what is left behind it. None where what stands at the front is no line of any trace.
#[tactic(auto, unfolding(crate::specs::Lines::line_at))]
pub(crate) fn line(bytes: &[u8]) -> Option<(ReadLine<'_>, &[u8])>
    ensures { let read = line_at bytes.now in
        MatchOption result (read ≡ None) (λ found. read ≡ Some (said_by found.0, found.1.now)) }
{
    if let Some(rest) = behind(bytes, b"sites ") {
        return sites(rest);
    }
    if let Some(rest) = behind(bytes, b"site ") {
        return history(rest);
    }
    if let Some(rest) = behind(bytes, b"editor ") {
        return editor(rest);
    }
    if let Some(rest) = behind(bytes, b"call ") {
        return call(rest);
    }
    if let Some(rest) = behind(bytes, b"look ") {
        return look(rest);
    }
    if let Some(rest) = behind(bytes, b"text ") {
        return ending(rest);
    }
    if let Some(rest) = behind(bytes, b"end\n") {
        return Some((ReadLine::End, rest));
    }
    entry(bytes)
}

// How many sites there are.
#[tactic(auto, unfolding(crate::specs::Lines::sites_at))]
fn sites(bytes: &[u8]) -> Option<(ReadLine<'_>, &[u8])>
    ensures { let read = sites_at bytes.now in
        MatchOption result (read ≡ None) (λ found. read ≡ Some (said_by found.0, found.1.now)) }
{
    let (n, rest) = number(bytes, u64::from(MAX_SITE))?;
    let rest = behind(rest, b"\n")?;
    Some((ReadLine::Sites { n: n as u8 }, rest))
}

// The site of a history.
#[tactic(auto, unfolding(crate::specs::Lines::history_at))]
fn history(bytes: &[u8]) -> Option<(ReadLine<'_>, &[u8])>
    ensures { let read = history_at bytes.now in
        MatchOption result (read ≡ None) (λ found. read ≡ Some (said_by found.0, found.1.now)) }
{
    let Some((site, rest)) = site(bytes) else {
        return None;
    };
    let rest = behind(rest, b"\n")?;
    Some((ReadLine::Site { site }, rest))
}

// An entry, with its number.
#[tactic(auto, unfolding(crate::specs::Lines::entry_at))]
fn entry(bytes: &[u8]) -> Option<(ReadLine<'_>, &[u8])>
    ensures { let read = entry_at bytes.now in
        MatchOption result (read ≡ None) (λ found. read ≡ Some (said_by found.0, found.1.now)) }
{
    let (number, rest) = long(bytes)?;
    let Some((told, rest)) = told(rest) else {
        return None;
    };
    let rest = behind(rest, b" ->")?;
    let Some((reply, rest)) = reply(rest) else {
        return None;
    };
    let rest = behind(rest, b"\n")?;
    let entry = TraceEntry { told, reply };
    Some((ReadLine::Entry { number, entry }, rest))
}

// The number of an editor, and its site.
#[tactic(auto, unfolding(crate::specs::Lines::editor_at))]
fn editor(bytes: &[u8]) -> Option<(ReadLine<'_>, &[u8])>
    ensures { let read = editor_at bytes.now in
        MatchOption result (read ≡ None) (λ found. read ≡ Some (said_by found.0, found.1.now)) }
{
    let (number, rest) = short(bytes)?;
    let rest = behind(rest, b" ")?;
    let Some((home, rest)) = site(rest) else {
        return None;
    };
    let rest = behind(rest, b"\n")?;
    Some((ReadLine::Editor { number, home }, rest))
}

// The number of a call, and its entry.
#[tactic(auto, unfolding(crate::specs::Lines::call_at))]
fn call(bytes: &[u8]) -> Option<(ReadLine<'_>, &[u8])>
    ensures { let read = call_at bytes.now in
        MatchOption result (read ≡ None) (λ found. read ≡ Some (said_by found.0, found.1.now)) }
{
    let (call, rest) = long(bytes)?;
    let rest = behind(rest, b" ")?;
    let (entry, rest) = long(rest)?;
    let rest = behind(rest, b"\n")?;
    Some((ReadLine::Call { call, entry }, rest))
}

// The numbers and the text of a look.
#[tactic(auto, unfolding(crate::specs::Lines::look_at))]
fn look(bytes: &[u8]) -> Option<(ReadLine<'_>, &[u8])>
    ensures { let read = look_at bytes.now in
        MatchOption result (read ≡ None) (λ found. read ≡ Some (said_by found.0, found.1.now)) }
{
    let (calls, rest) = long(bytes)?;
    let rest = behind(rest, b" ")?;
    let (upto, rest) = long(rest)?;
    let rest = behind(rest, b" \"")?;
    let Some((text, rest)) = text(rest) else {
        return None;
    };
    let rest = behind(rest, b"\n")?;
    let look = ReadLine::Look { calls, upto, text };
    Some((look, rest))
}

// A site, and its text at the end.
#[tactic(auto, unfolding(crate::specs::Lines::ending_at))]
fn ending(bytes: &[u8]) -> Option<(ReadLine<'_>, &[u8])>
    ensures { let read = ending_at bytes.now in
        MatchOption result (read ≡ None) (λ found. read ≡ Some (said_by found.0, found.1.now)) }
{
    let Some((site, rest)) = site(bytes) else {
        return None;
    };
    let rest = behind(rest, b" \"")?;
    let Some((text, rest)) = text(rest) else {
        return None;
    };
    let rest = behind(rest, b"\n")?;
    Some((ReadLine::Text { site, text }, rest))
}
