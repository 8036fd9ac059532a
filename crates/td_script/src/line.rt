ghost use Rattle.std.specs.Prelude.{◌≡◌, ◌≢◌, ◌<◌, ◌∷◌, ◌++◌, All, IfNone, IfSome, MatchOption, MatchResult};
ghost use Rattle.std.specs.Prelude.{false, true, length};
ghost use Rattle.std.specs.Char.{is_ascii_control};
ghost use Rattle.std.specs.List.{list_any};
ghost use Rattle.td_script.specs.Judging.{heard};
ghost use Rattle.td_script.specs.Lines.{is_skipped, is_text_line, lines_of};

use crate::kind::Kind;
use crate::script::MAX_LINE;

/// The text of a line that says something, in whichever language.
pub(crate) fn hear(line: &[u8]) -> Result<Option<&str>, Kind>
    ensures { MatchResult result
        (λ text. MatchOption text (heard line.now ≡ Ok None)
        (λ text. (text.now ≡ line.now) × (heard line.now ≡ Ok (Some line.now))))
        (λ kind. heard line.now ≡ Err kind) }
{
    if line.len() > MAX_LINE {
        return Err(Kind::Long);
    }
    let text = text_of_line(line).ok_or(Kind::Bytes)?;
    if is_skipped(text) {
        return Ok(None);
    }
    Ok(Some(text))
}

// The line as a text, where it is UTF-8 without control characters.
fn text_of_line(line: &[u8]) -> Option<&str>
    ensures some { IfSome result (λ text. (text.now ≡ line.now) × (is_text_line line.now ≡ true)) }
    ensures none { IfNone result (is_text_line line.now ≡ false) }
{
    if has_control(line) {
        return None;
    }
    str::from_utf8(line).ok()
}

// Whether the line has a control character of ASCII.
fn has_control(line: &[u8]) -> bool
    ensures { result ≡ list_any is_ascii_control line.now }
{
    line.iter().any(|byte| byte.is_ascii_control())
}

// An empty line, and a line that begins with `#`, says nothing.
fn is_skipped(line: &str) -> bool
    ensures { result ≡ is_skipped line.now }
{
    line.is_empty() || line.starts_with('#')
}

/// The first line, without its LF, and what stands behind it.
pub(crate) fn split_line(bytes: &[u8]) -> (&[u8], &[u8])
    requires { 0 < length bytes.now }
    ensures lines { lines_of bytes.now ≡ result.0.now ∷ lines_of result.1.now }
    ensures shorter { length result.1.now < length bytes.now }
{
    split_once(bytes, b'\n').unwrap_or((bytes, &[]))
}

// What stands before the first such byte, and what stands behind it.
fn split_once(bytes: &[u8], delimiter: u8) -> Option<(&[u8], &[u8])>
    ensures some { IfSome result (λ parts. All (λ byte. byte ≢ delimiter) parts.0.now
        × (bytes.now ≡ parts.0.now ++ delimiter ∷ parts.1.now)) }
    ensures none { IfNone result (All (λ byte. byte ≢ delimiter) bytes.now) }
{
    let place = bytes.iter().position(|byte| *byte == delimiter)?;
    Some((&bytes[..place], &bytes[place + 1..]))
}
