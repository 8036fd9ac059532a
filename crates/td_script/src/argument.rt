// Arguments of one word: each is read from what is left of a line, and leaves what stands behind it.
ghost use Rattle.std.specs.Prelude.{◌≡◌, ◌≤◌, MatchResult, Ok, Err};
ghost use Rattle.td_script.specs.Arguments.{argument, by_word, cut_word, last, word_at};
ghost use Rattle.td_script.specs.Arguments.{bit_of, dot_of, name_of, number_of, site_of};

use crate::kind::Kind;
use crate::number::number_of;
use td_base::{Bit, Dot, MAX_SITE, Site};
use td_marks::NAMES;

/// What stands up to the next space or to the end, and what stands from there on.
pub(crate) fn split_word(text: &str) -> (&str, &str)
    ensures { cut_word text.now ≡ (result.0.now, result.1.now) }
{
    let end = text.find(' ').unwrap_or(text.len());
    text.split_at(end)
}

/// What an argument begins with, behind exactly one space. `End` where nothing is left, or such a space alone.
pub(crate) fn argument(rest: &str) -> Result<&str, Kind>
    ensures { MatchResult result (λ text. argument rest.now ≡ Ok text.now) (λ kind. argument rest.now ≡ Err kind) }
{
    match rest.strip_prefix(' ') {
        Some(text) if !text.is_empty() => Ok(text),
        _ => Err(Kind::End),
    }
}

/// The word of an argument.
pub(crate) fn next_word(rest: &str) -> Result<(&str, &str), Kind>
    ensures { let read = word_at rest.now in
        MatchResult result (λ found. read ≡ Ok (found.0.now, found.1.now)) (λ kind. read ≡ Err kind) }
{
    let text = argument(rest)?;
    Ok(split_word(text))
}

/// The number that the word is.
pub(crate) fn number_word(word: &str) -> Result<u32, Kind>
    ensures { result ≡ number_of word.now }
{
    number_of(word.as_bytes()).ok_or(Kind::Number)
}

/// A number.
pub(crate) fn number(rest: &str) -> Result<(u32, &str), Kind>
    ensures { let read = by_word number_of rest.now in
        MatchResult result (λ found. read ≡ Ok (found.0, found.1.now)) (λ kind. read ≡ Err kind) }
{
    let (text, rest) = next_word(rest)?;
    let number = number_word(text)?;
    Ok((number, rest))
}

/// The site that the word is, among so many.
pub(crate) fn site_word(word: &str, sites: u8) -> Result<Site, Kind>
    requires { sites ≤ MAX_SITE }
    ensures { result ≡ site_of sites word.now }
{
    let number = number_word(word)?;
    if number > u32::from(sites) {
        return Err(Kind::Site);
    }
    Site::new(number as u8).ok_or(Kind::Site)
}

/// The name of a mark that the word is.
pub(crate) fn name_word(word: &str) -> Result<u8, Kind>
    ensures { result ≡ name_of word.now }
{
    let number = number_word(word)?;
    if number >= u32::from(NAMES) {
        return Err(Kind::Number);
    }
    Ok(number as u8)
}

/// The dot that the word is, of so many sites.
pub(crate) fn dot_word(word: &str, sites: u8) -> Result<Dot, Kind>
    requires { sites ≤ MAX_SITE }
    ensures { result ≡ dot_of sites word.now }
{
    let Some((site, seq)) = word.split_once('.') else {
        return Err(Kind::Dot);
    };
    let (Ok(site), Ok(seq)) = (site_word(site, sites), number_word(seq)) else {
        return Err(Kind::Dot);
    };
    Dot::new(site, seq).ok_or(Kind::Dot)
}

/// The bit that the word is.
pub(crate) fn bit_word(word: &str) -> Result<Bit, Kind>
    ensures { result ≡ bit_of word.now }
{
    match word {
        "left" => Ok(Bit::Left),
        "right" => Ok(Bit::Right),
        _ => Err(Kind::Word),
    }
}

/// `End` where something is left behind the last argument.
pub(crate) fn last<T: Drop>(value: T, rest: &str) -> Result<T, Kind>
    ensures { result ≡ last value rest.now }
{
    if !rest.is_empty() {
        return Err(Kind::End);
    }
    Ok(value)
}
