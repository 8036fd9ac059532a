// How much a stretch of a text is: how many atoms, and how wide in each unit.
ghost use Rattle.std.specs.Prelude.{◌≡◌, ◌<◌, ◌^◌, List, ℕ, [], length, All};
ghost use Rattle.std.specs.List.{concat};
ghost use Rattle.td_base.specs.Atom.{IsAtom};
ghost use Rattle.td_rope.specs.Sizes.{IsPartOf, IsSize, IsSmall, minus, plus, width_in};
ghost use Rattle.td_rope.specs.Units.{units, width};

use crate::unit::Unit;

/// The size of a stretch of atoms.
#[derive(Clone, Copy, Debug, PartialEq, Eq)]
pub struct Size {
    pub atoms: u32,
    pub bytes: u64,
    pub utf16: u64,
    pub points: u64,
}

impl Size {
    /// That of no atoms.
    pub fn none() -> Size
        ensures { IsSize [] result }
    {
        Size {
            atoms: 0,
            bytes: 0,
            utf16: 0,
            points: 0,
        }
    }

    /// That of so many atoms, which have these bytes.
    pub fn of(count: u32, bytes: &[u8]) -> Size
        requires { length bytes.now < 2 ^ 63 }
        ensures { (atoms : List (List ℕ)) → All IsAtom atoms → count ≡ length atoms → bytes.now ≡ concat atoms
            → IsSize atoms result }
    {
        Size {
            atoms: count,
            bytes: bytes.len() as u64,
            utf16: width(Unit::Utf16, bytes),
            points: width(Unit::CodePoint, bytes),
        }
    }

    /// How many units it has.
    pub fn width_in(&self, unit: Unit) -> u64
        ensures { result ≡ width_in unit self.now }
    {
        match unit {
            Unit::Byte => self.bytes,
            Unit::Utf16 => self.utf16,
            Unit::CodePoint => self.points,
        }
    }

    /// So much more.
    pub fn plus(&self, more: &Size) -> Size
        requires { IsSmall (plus self.now more.now) }
        ensures { result ≡ plus self.now more.now }
    {
        Size {
            atoms: self.atoms + more.atoms,
            bytes: self.bytes + more.bytes,
            utf16: self.utf16 + more.utf16,
            points: self.points + more.points,
        }
    }

    /// So much less.
    pub fn minus(&self, less: &Size) -> Size
        requires { IsPartOf self.now less.now }
        ensures { result ≡ minus self.now less.now }
    {
        Size {
            atoms: self.atoms - less.atoms,
            bytes: self.bytes - less.bytes,
            utf16: self.utf16 - less.utf16,
            points: self.points - less.points,
        }
    }
}

/// How many units the bytes have.
pub fn width(unit: Unit, bytes: &[u8]) -> u64
    requires { length bytes.now < 2 ^ 63 }
    ensures { result ≡ width unit bytes.now }
{
    let mut width = 0;
    for byte in bytes {
        width += units(unit, *byte);
    }
    width
}

// How many units a byte adds.
fn units(unit: Unit, byte: u8) -> u64
    ensures { result ≡ units unit byte }
{
    match unit {
        Unit::Byte => 1,
        Unit::Utf16 if byte < 128 => 1,
        Unit::Utf16 if byte < 192 => 0,
        Unit::Utf16 if byte < 240 => 1,
        Unit::Utf16 => 2,
        Unit::CodePoint if byte < 128 => 1,
        Unit::CodePoint if byte < 192 => 0,
        Unit::CodePoint => 1,
    }
}
