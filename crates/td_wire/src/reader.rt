ghost use Rattle.std.specs.Prelude.{◌≡◌, ◌≤◌};
ghost use Rattle.td_base.specs.declared.site.TheConstants.{MAX_SITE};
ghost use Rattle.td_wire.specs.Reading.{Gives, byte_at, number_at, dot_at, identity_at, slot_at};

use crate::format::{AT, Format, LEFT, RIGHT, ROOT};
use td_base::{AtomId, Bit, Dot, MAX_OFFSET, MAX_SEQ, Site};
use td_path::Slot;

/// The greatest number of an operation at its site.
pub(crate) const MAX_NUMBER: u16 = MAX_SEQ as u16;

/// The bytes that are still to be read. Each call reads one field at their front, and answers a fault where none is
/// there. Takes no memory.
#[derive(Drop)]
pub struct Reader<'a> {
    pub rest: &'a [u8],
}

/// Where bytes stop being the front of a spelling: `left` of them stand from the first one on that no spelling has
/// there, and none where they end too early.
#[derive(Clone, Copy, Debug, PartialEq, Eq)]
pub struct Fault {
    pub left: usize,
}

impl Reader<'_> {
    /// A byte in a range.
    pub fn byte(&mut self, least: u8, most: u8) -> Result<u8, Fault>
        ensures { Gives result self.new.rest.now (byte_at least most self.old.rest.now) }
    {
        match self.rest {
            [first, rest @ ..] if least <= *first && *first <= most => {
                self.rest = rest;
                Ok(*first)
            }
            _ => Err(Fault {
                left: self.rest.len(),
            }),
        }
    }

    // A number in a range, in four bytes of which the first two are 0.
    pub(crate) fn number(&mut self, least: u16, most: u16) -> Result<u16, Fault>
        ensures { Gives result self.new.rest.now (number_at least most self.old.rest.now) }
    {
        // All four bytes at once.
        if let [first, second, third, fourth, rest @ ..] = self.rest {
            let number = u32::from_be_bytes([*first, *second, *third, *fourth]);
            if u32::from(least) <= number && number <= u32::from(most) {
                self.rest = rest;
                return Ok(number as u16);
            }
        }
        // Else one by one, up to the one at fault. No call is handed this reader, so that a loop can keep it in
        // registers.
        let mut bytes = Reader { rest: self.rest };
        let number = bytes.number_by_bytes(least, most)?;
        self.rest = bytes.rest;
        Ok(number)
    }

    // The same, byte by byte, up to the first one at fault.
    #[cold]
    #[tactic(auto, unfolding(crate::specs::Reading::number_at))]
    fn number_by_bytes(&mut self, least: u16, most: u16) -> Result<u16, Fault>
        ensures { Gives result self.new.rest.now (number_at least most self.old.rest.now) }
    {
        self.byte(0, 0)?;
        self.byte(0, 0)?;
        let high = self.byte((least / 256) as u8, (most / 256) as u8)?;
        let least_low = if u16::from(high) == least / 256 {
            (least % 256) as u8
        } else {
            0
        };
        let most_low = if u16::from(high) == most / 256 {
            (most % 256) as u8
        } else {
            u8::MAX
        };
        let low = self.byte(least_low, most_low)?;
        Ok(u16::from(high) * 256 + u16::from(low))
    }

    pub(crate) fn site(&mut self, max_site: u8) -> Result<Site, Fault>
        requires { max_site ≤ MAX_SITE }
        ensures { Gives result self.new.rest.now (byte_at 1 max_site self.old.rest.now) }
    {
        let number = self.byte(1, max_site)?;
        Ok(Site::new(number).unwrap())
    }

    /// A dot, of a site up to this number.
    #[tactic(auto, unfolding(crate::specs::Reading::dot_at))]
    pub fn dot(&mut self, max_site: u8) -> Result<Dot, Fault>
        requires { max_site ≤ MAX_SITE }
        ensures { Gives result self.new.rest.now (dot_at max_site self.old.rest.now) }
    {
        let site = self.site(max_site)?;
        let seq = self.number(1, MAX_NUMBER)?;
        Ok(Dot::new(site, u32::from(seq)).unwrap())
    }

    /// The identity of an atom of a site up to this number.
    #[tactic(auto, unfolding(crate::specs::Reading::identity_at))]
    pub fn identity(&mut self, format: Format, max_site: u8) -> Result<AtomId, Fault>
        requires { max_site ≤ MAX_SITE }
        ensures { Gives result self.new.rest.now (identity_at format max_site self.old.rest.now) }
    {
        let dot = self.dot(max_site)?;
        match format {
            Format::One => Ok(AtomId::of(dot)),
            Format::Two => {
                let offset = self.byte(0, MAX_OFFSET)?;
                Ok(AtomId::new(dot, offset).unwrap())
            }
        }
    }

    /// A slot, beside an atom of a site up to this number where it is not the root.
    #[tactic(auto, unfolding(crate::specs::Reading::slot_at))]
    pub fn slot(&mut self, format: Format, max_site: u8) -> Result<Slot, Fault>
        requires { max_site ≤ MAX_SITE }
        ensures { Gives result self.new.rest.now (slot_at format max_site self.old.rest.now) }
    {
        let tag = self.byte(ROOT, AT)?;
        if tag == ROOT {
            return Ok(Slot::Root);
        }
        let bit = self.byte(LEFT, RIGHT)?;
        let bit = if bit == LEFT { Bit::Left } else { Bit::Right };
        let atom = self.identity(format, max_site)?;
        Ok(Slot::At { atom, bit })
    }
}
