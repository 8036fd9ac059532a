ghost use Rattle.std.specs.Prelude.{◌≡◌, ◌++◌, ℕ, List, codes, replicate};
ghost use Rattle.td_crc.specs.Crc.{crc32c, crc32c_behind};

/// The check goes on behind that of the bytes before.
#[tactic(auto, using(crate::proofs::Moves::goes_on))]
pub fn checks_go_on()
    ensures { (front bytes : List ℕ) → crc32c_behind (crc32c front) bytes ≡ crc32c (front ++ bytes) }
{}

/// Published checks: that of the nine digits, by which such a code is told, and those of RFC 3720, B.4.
#[tactic(auto, unfolding(crate::specs::Crc::moved))]
pub fn published()
    ensures digits { crc32c (codes "123456789") ≡ 0xE306_9283 }
    ensures zeros { crc32c (replicate 32 0) ≡ 0x8A91_36AA }
    ensures ones { crc32c (replicate 32 0xFF) ≡ 0x62A8_AB43 }
{}
