ghost use Rattle.std.specs.Prelude.{◌≡◌, ◌+◌, ◌*◌, length, OnOk};
ghost use Rattle.td_million.specs.Drafts.{draft_rows};

use crate::fault::Fault;
use crate::letters::{letter, letters};
use crate::writer::Writer;
use td_base::Run;
use td_doc::Doc;

/// Pastes so many runs, each behind the last atom.
pub(crate) fn paste(writer: &mut Writer, runs: u32) -> Result<(), Fault>
    ensures { OnOk result (length (draft_rows writer.new) ≡ length (draft_rows writer.old) + 64 * runs) }
{
    for _number in 0..runs {
        let end = writer.doc().live();
        writer.put(end, letters(end)?)?;
    }
    Ok(())
}

/// Types so many letters, all over the text.
pub(crate) fn type_letters(writer: &mut Writer, count: u32) -> Result<(), Fault>
    ensures { OnOk result (length (draft_rows writer.new) ≡ length (draft_rows writer.old) + count) }
{
    for number in 0..count {
        type_letter(writer, typed_at(number))?;
    }
    Ok(())
}

/// Types a letter at an index of the text.
pub(crate) fn type_letter(writer: &mut Writer, index: u32) -> Result<(), Fault>
    ensures { OnOk result (length (draft_rows writer.new) ≡ length (draft_rows writer.old) + 1) }
{
    writer.put(index, Run::one(letter(index)?))
}

/// Deletes so many of the letters pasted, each half way between two that were typed.
pub(crate) fn delete_letters(writer: &mut Writer, count: u32) -> Result<(), Fault>
    ensures { OnOk result (length (draft_rows writer.new) ≡ length (draft_rows writer.old)) }
{
    for number in 0..count {
        writer.delete(deleted_at(number))?;
    }
    Ok(())
}

// Behind the first of each 1,000 letters that were pasted. Those before have a letter more by then.
fn typed_at(number: u32) -> u32 {
    number.saturating_mul(1_001).saturating_add(1)
}

// Behind the 500th letter after it. Those before have a letter more and a letter less by then.
fn deleted_at(number: u32) -> u32 {
    number.saturating_mul(1_000).saturating_add(501)
}
