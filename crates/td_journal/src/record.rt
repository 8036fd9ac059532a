ghost use Rattle.std.specs.Prelude.{◌≡◌, IfOk};
ghost use Rattle.td_input.specs.Spelling.{CanWrite};
ghost use Rattle.td_journal.specs.Check.{bytes_of};
ghost use Rattle.td_journal.specs.Journal.{header, next_check, record_bytes};

use crate::check::Check;
use crate::format::Format;
use std::alloc::Global;
use td_base::{Bytes, Memory, Site};
use td_input::write_input;
use td_op::Input;

/// The mark, the site and the number of sites.
pub(crate) fn header(format: Format, site: Site, n: u8) -> [u8; 5]
    ensures { result ≡ header format site n }
{
    let digit = match format {
        Format::Plain => b'1',
        Format::Checked => b'2',
    };
    [b'T', b'J', digit, site.number(), n]
}

/// A record as it is written, and the check behind it.
#[derive(Drop)]
pub(crate) struct Written {
    pub(crate) bytes: Bytes,
    pub(crate) check: Check,
}

/// The record of an input behind this check.
pub(crate) fn write_record(alloc: Global, check: Check, input: &Input) -> Result<Written, Memory>
    ensures bytes { IfOk result (λ w. w.bytes ≡ record_bytes check.format (bytes_of check) input.now) }
    ensures check { IfOk result (λ w. bytes_of w.check ≡ next_check check.format (bytes_of check) input.now) }
    ensures format { IfOk result (λ w. w.check.format ≡ check.format) }
    ensures can { CanWrite input.now }
{
    let body = write_input(alloc, input)?;
    let len = body.as_slice().len() as u16;
    let mut bytes = Bytes::new(alloc);
    bytes.push(&[1])?;
    bytes.push(&len.to_be_bytes())?;
    bytes.push(body.as_slice())?;
    let check = check.next(&bytes.as_slice()[1..]);
    check.push(&mut bytes)?;
    Ok(Written { bytes, check })
}
