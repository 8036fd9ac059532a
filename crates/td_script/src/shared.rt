// What commands of more than one language ask for behind their words.
ghost use Rattle.std.specs.Prelude.{◌≡◌, ◌≤◌};
ghost use Rattle.td_script.specs.Answers.{IsLineAnswer};
ghost use Rattle.td_script.specs.Shared.{index_and_text, place_at, place_beside, place_of, proposal_at};
ghost use Rattle.td_script.specs.Shared.{sites_at, two_numbers};

use crate::argument::{bit_word, dot_word, last, next_word, number, number_word};
use crate::before::MAX_NARROW;
use crate::command::Place;
use crate::kind::{Kind, LineFault};
use crate::quoted::last_text;
use crate::script::MAX_WIDE_SCRIPT;
use std::alloc::Global;
use td_base::{Dot, MAX_SITE};
use td_text::AtomList;

/// How many sites there are, in a script of so many bytes.
pub(crate) fn sites_number(size: usize, rest: &str) -> Result<u8, Kind>
    ensures { result ≡ sites_at size rest.now }
{
    let (n, rest) = number(rest)?;
    if n == 0 || n > u32::from(MAX_SITE) {
        return Err(Kind::Sites);
    }
    let n = n as u8;
    if n > MAX_NARROW && size > MAX_WIDE_SCRIPT {
        return Err(Kind::Size);
    }
    last(n, rest)
}

/// An index and a text, in clusters.
pub(crate) fn index_and_text(alloc: Global, rest: &str) -> Result<(u32, AtomList), LineFault>
    ensures { IsLineAnswer (index_and_text rest.now) result }
{
    let (index, rest) = number(rest)?;
    let atoms = last_text(alloc, rest)?;
    Ok((index, atoms))
}

/// Two numbers.
pub(crate) fn two_numbers(rest: &str) -> Result<(u32, u32), Kind>
    ensures { result ≡ two_numbers rest.now }
{
    let (first, rest) = number(rest)?;
    let (second, rest) = number(rest)?;
    last((first, second), rest)
}

/// What is flattened: all, or one side of the atom at an index.
pub(crate) fn place(rest: &str) -> Result<Place, Kind>
    ensures { result ≡ place_at rest.now }
{
    let (word, rest) = next_word(rest)?;
    place_named(word, rest)
}

/// The same, behind its first word.
pub(crate) fn place_named(word: &str, rest: &str) -> Result<Place, Kind>
    ensures { result ≡ place_of word.now rest.now }
{
    match word {
        "root" => last(Place::Root, rest),
        _ => place_beside(word, rest),
    }
}

// The word is the index.
fn place_beside(word: &str, rest: &str) -> Result<Place, Kind>
    ensures { result ≡ place_beside word.now rest.now }
{
    let index = number_word(word)?;
    let (bit, rest) = next_word(rest)?;
    let bit = bit_word(bit)?;
    last(Place::Beside { index, bit }, rest)
}

/// The dot of a proposal, of so many sites.
pub(crate) fn proposal(sites: u8, rest: &str) -> Result<Dot, Kind>
    requires { sites ≤ MAX_SITE }
    ensures { result ≡ proposal_at sites rest.now }
{
    let (dot, rest) = next_word(rest)?;
    let proposal = dot_word(dot, sites)?;
    last(proposal, rest)
}
