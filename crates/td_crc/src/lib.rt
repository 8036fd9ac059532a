//! CRC-32C, the check of bytes with the polynomial of Castagnoli (1993), as iSCSI has it (RFC 3720, B.4).
//!
//! `crc32c` is that of some bytes, and `crc32c_append` goes on behind them. The code takes a byte at a time, by a
//! table; `specs/Crc.antt` says bit by bit what it is.
#![tactic(auto)]

mod crc;
mod laws;
mod table;

pub use crc::{crc32c, crc32c_append};
pub use laws::{checks_go_on, published};
