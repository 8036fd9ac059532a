ghost use Rattle.std.specs.Prelude.{◌≡◌};
ghost use Rattle.td_crc.specs.Crc.{crc32c, crc32c_behind, after_byte};

use crate::table::TABLE;

/// The check of the bytes.
pub fn crc32c(bytes: &[u8]) -> u32
    ensures { result ≡ crc32c bytes.now }
{
    crc32c_append(0, bytes)
}

/// The check of the bytes behind those that have this check.
pub fn crc32c_append(crc: u32, bytes: &[u8]) -> u32
    ensures { result ≡ crc32c_behind crc bytes.now }
{
    let mut register = u32::MAX ^ crc;
    for byte in bytes {
        register = with_byte(register, *byte);
    }
    u32::MAX ^ register
}

fn with_byte(register: u32, byte: u8) -> u32
    ensures { result ≡ after_byte register byte }
{
    let low = (register ^ u32::from(byte)) % 256;
    (register >> 8) ^ TABLE[low as usize]
}
