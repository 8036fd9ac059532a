ghost use Rattle.std.specs.Prelude.{◌≡◌, ◌<◌, ◌≤◌, length, take, IfOk};
ghost use Rattle.td_base.specs.declared.atom.TheConstants.{MAX_ATOM_LEN};
ghost use Rattle.td_wire.specs.Reading.{Gives, Passes, atom_at, text_at, character_at, lead_at, continuations_at};
ghost use Rattle.td_wire.specs.Reading.{character_len, second_least, second_most};

use crate::reader::{Fault, Reader};
use td_base::Atom;

/// The least and the greatest byte that continues a character (RFC 3629).
const CONTINUATION: (u8, u8) = (0x80, 0xBF);

impl Reader<'_> {
    /// An atom of `len` bytes.
    pub fn atom(&mut self, len: u8) -> Result<Atom, Fault>
        requires some { 1 ≤ len }
        requires short { len ≤ MAX_ATOM_LEN }
        ensures { Gives result self.new.rest.now (atom_at len self.old.rest.now) }
    {
        let bytes = self.rest;
        self.text(len)?;
        Ok(Atom::of(&bytes[..len as usize]))
    }

    // A text of `len` bytes.
    pub(crate) fn text(&mut self, len: u8) -> Result<(), Fault>
        ensures { Passes result self.new.rest.now (text_at len len self.old.rest.now) len }
    {
        let mut left = len;
        while left > 0 {
            left -= self.character(left)?;
        }
        Ok(())
    }

    // A character of at most `room` bytes. What is answered is its length.
    #[tactic(auto, unfolding(crate::specs::Reading::character_at))]
    fn character(&mut self, room: u8) -> Result<u8, Fault>
        ensures read { Gives result self.new.rest.now (character_at room self.old.rest.now) }
        ensures some { IfOk result (λ len. 0 < len) }
        ensures short { IfOk result (λ len. len ≤ room) }
    {
        let first = self.lead(room)?;
        let (least, most) = second_range(first);
        let len = character_len(first);
        self.continuations(len - 1, least, most)?;
        Ok(len)
    }

    // The first byte of a character of at most `room` bytes.
    fn lead(&mut self, room: u8) -> Result<u8, Fault>
        ensures read { Gives result self.new.rest.now (lead_at room self.old.rest.now) }
        ensures some { IfOk result (λ first. 0 < character_len first) }
        ensures short { IfOk result (λ first. character_len first ≤ room) }
    {
        if let [first, rest @ ..] = self.rest {
            let len = character_len(*first);
            if 0 < len && len <= room {
                self.rest = rest;
                return Ok(*first);
            }
        }
        Err(Fault {
            left: self.rest.len(),
        })
    }

    // So many bytes that continue a character, of which the first is in a range of its own.
    fn continuations(&mut self, count: u8, mut least: u8, mut most: u8) -> Result<(), Fault>
        ensures { Passes result self.new.rest.now (continuations_at count least most self.old.rest.now) count }
    {
        for _ in 0..count {
            self.byte(least, most)?;
            (least, most) = CONTINUATION;
        }
        Ok(())
    }
}

// How many bytes a character has that begins with this byte (RFC 3629): 0 where none does.
fn character_len(first: u8) -> u8
    ensures { result ≡ character_len first }
{
    match first {
        0x00..=0x7F => 1,
        0xC2..=0xDF => 2,
        0xE0..=0xEF => 3,
        0xF0..=0xF4 => 4,
        _ => 0,
    }
}

// The least and the greatest byte that may follow the first byte of a character (RFC 3629).
fn second_range(first: u8) -> (u8, u8)
    ensures least { result.0 ≡ second_least first }
    ensures most { result.1 ≡ second_most first }
{
    match first {
        0xE0 => (0xA0, 0xBF),
        0xED => (0x80, 0x9F),
        0xF0 => (0x90, 0xBF),
        0xF4 => (0x80, 0x8F),
        _ => CONTINUATION,
    }
}
