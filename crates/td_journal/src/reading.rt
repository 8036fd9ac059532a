ghost use Rattle.std.specs.Prelude.{◌≡◌, ◌≢◌, ◌≤◌, ◌<◌, ◌+◌, ◌++◌, ℕ, take};
ghost use Rattle.std.specs.Prelude.{IfOk, IfErr, IfSome, IfNone};
ghost use Rattle.td_op.specs.declared.input.Input.{Input};
ghost use Rattle.td_input.specs.Spelling.{CanWrite};
ghost use Rattle.td_journal.specs.declared.fault.OpenFault.{OpenFault};
ghost use Rattle.td_journal.specs.Bad.{format_in, Begins, IsBadHeadAt};
ghost use Rattle.td_journal.specs.Check.{bytes_of};
ghost use Rattle.td_journal.specs.Journal.{head_bytes, first_check, next_check, record_bytes};

use crate::check::Check;
use crate::fault::OpenFault;
use crate::format::Format;
use crate::record::header;
use td_base::Site;
use td_input::read_input;
use td_op::Input;
use td_records::record_len;

/// The format that the third byte tells.
fn format_of(bytes: &[u8]) -> Format
    ensures { result ≡ format_in bytes.now }
{
    if bytes.get(2) == Some(&b'2') {
        Format::Checked
    } else {
        Format::Plain
    }
}

/// The header at the front: its check, and what stands behind that.
pub(crate) fn read_head(site: Site, n: u8, bytes: &[u8]) -> Result<(Check, &[u8]), OpenFault>
    ensures is { IfOk result (λ r. bytes.now ≡ head_bytes (format_in bytes.now) site n ++ r.1.now) }
    ensures check { IfOk result (λ r. bytes_of r.0 ≡ first_check (format_in bytes.now) site n) }
    ensures format { IfOk result (λ r. r.0.format ≡ format_in bytes.now) }
    ensures err { IfErr result (λ why. (at : ℕ) × (why ≡ OpenFault.Bad at) × IsBadHeadAt site n bytes.now at) }
{
    let format = format_of(bytes);
    let header = header(format, site, n);
    let front = common(bytes, &header);
    if front < header.len() {
        return Err(OpenFault::Bad { at: front as u32 });
    }
    let check = Check::new(format, &header);
    match check.strip(bytes.split_at(front).1) {
        Some(rest) => Ok((check, rest)),
        None => Err(OpenFault::Bad { at: front as u32 }),
    }
}

// How many bytes of the header are in front of the bytes.
fn common(bytes: &[u8], header: &[u8; 5]) -> usize
    ensures within { result ≤ 5 }
    ensures front { take result bytes.now ≡ take result header.now }
    ensures differs { result < 5 → take (result + 1) bytes.now ≢ take (result + 1) header.now }
{
    for i in 0..5 {
        if bytes.get(i) != Some(&header[i]) {
            return i;
        }
    }
    5
}

/// The record at the front, behind this check: its input, its check, and what stands behind it.
pub(crate) fn read_record(check: Check, bytes: &[u8]) -> Option<(Input, Check, &[u8])>
    ensures found { IfSome result (λ r.
        bytes.now ≡ record_bytes check.format (bytes_of check) r.0 ++ r.2.now) }
    ensures can { IfSome result (λ r. CanWrite r.0) }
    ensures check { IfSome result (λ r. bytes_of r.1 ≡ next_check check.format (bytes_of check) r.0) }
    ensures format { IfSome result (λ r. r.1.format ≡ check.format) }
    ensures none { IfNone result ((input : Input) → CanWrite input
        → ¬ Begins (record_bytes check.format (bytes_of check) input) bytes.now) }
{
    let len = record_len(bytes)?;
    let (record, rest) = bytes.split_at(3 + len);
    let input = read_input(record.split_at(3).1)?;
    let next = check.next(record.split_at(1).1);
    let rest = next.strip(rest)?;
    Some((input, next, rest))
}
