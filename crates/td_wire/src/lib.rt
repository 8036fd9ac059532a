//! Packets: what a message is on a wire, and back.
//!
//! What comes over a wire is exactly one message, or it is refused at the first byte that no message has there.
//! `encode` writes format 2; `decode` reads format 2 and the older format 1. A `Reader` reads the fields of a message
//! one by one, for formats of others that have such fields. Begin at `specs/Spelling.antt`, which has
//! the spellings of messages field by field and the place of a fault, at `specs/Format.antt`, which says what each
//! format can say, and at `reading` for `decode`. That no bytes spell two messages is in `laws`.
#![tactic(auto)]

mod format;
mod laws;
mod length;
mod operation;
mod packet;
mod packet_bytes;
mod reader;
mod reading;
mod run;
mod text;
mod writing;

pub use format::Format;
pub use laws::{decode_encoded, spellings_are_unique};
pub use length::MAX_PACKET_LEN;
pub use packet::Packet;
pub use reader::{Fault, Reader};
pub use reading::{Malformed, decode};
pub use writing::encode;
