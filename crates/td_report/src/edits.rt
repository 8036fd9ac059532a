ghost use Rattle.std.specs.Prelude.{◌≡◌, ◌++◌, IfOk, codes};
ghost use Rattle.std.specs.Fmt.{decimal};
ghost use Rattle.td_script.specs.Spelling.{spaced};
ghost use Rattle.td_report.specs.Replies.{del_line, edit_line, ins_line, paste_line};

use crate::parts::{begin, push_number, push_refusal_of, push_spaced};
use std::alloc::Global;
use td_base::{Bytes, Memory, Site};
use td_op::Reply;

/// `ins R A/B`: so many of so many clusters were inserted. A reply Held, Position or Limit says why not all.
pub fn ins_line(
    alloc: Global,
    site: Site,
    done: u32,
    all: u32,
    refused: Option<Reply>,
) -> Result<Bytes, Memory>
    ensures { IfOk result (λ line. line ≡ ins_line site done all refused) }
{
    edit_line(alloc, b"ins", site, done, all, &refused)
}

/// `paste R A/B`: so many of so many clusters were placed. A reply Held, Position or Limit says why not all.
pub fn paste_line(
    alloc: Global,
    site: Site,
    done: u32,
    all: u32,
    refused: Option<Reply>,
) -> Result<Bytes, Memory>
    ensures { IfOk result (λ line. line ≡ paste_line site done all refused) }
{
    edit_line(alloc, b"paste", site, done, all, &refused)
}

/// `del R A/K`: so many of so many deletes were made. A reply Held, Position or Limit says why not all.
pub fn del_line(
    alloc: Global,
    site: Site,
    done: u32,
    all: u32,
    refused: Option<Reply>,
) -> Result<Bytes, Memory>
    ensures { IfOk result (λ line. line ≡ del_line site done all refused) }
{
    edit_line(alloc, b"del", site, done, all, &refused)
}

fn edit_line(
    alloc: Global,
    word: &[u8],
    site: Site,
    done: u32,
    all: u32,
    refused: &Option<Reply>,
) -> Result<Bytes, Memory>
    ensures { IfOk result (λ line. line ≡ edit_line word.now site done all refused.now) }
{
    let mut line = begin_edit(alloc, word, site, done, all)?;
    push_refusal_of(&mut line, refused)?;
    line.push(b"\n")?;
    Ok(line)
}

/// The begin of the line of an edit: its word, its site, and how many of how many were done.
pub(crate) fn begin_edit(
    alloc: Global,
    word: &[u8],
    site: Site,
    done: u32,
    all: u32,
) -> Result<Bytes, Memory>
    ensures { IfOk result (λ line.
        line ≡ word.now ++ (spaced site ++ (spaced done ++ (codes "/" ++ decimal all)))) }
{
    let mut line = begin(alloc, word, site)?;
    push_spaced(&mut line, u64::from(done))?;
    line.push(b"/")?;
    push_number(&mut line, u64::from(all))?;
    Ok(line)
}
