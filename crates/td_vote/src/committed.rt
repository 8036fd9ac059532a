// A commit, and where it stands among those of its site.
ghost use Rattle.std.specs.Prelude.{◌≡◌, ◌≤◌, length, insert, vec_len, vec_capacity, OnOk, OnErr};
ghost use Rattle.td_path.specs.declared.slot.Slot.{Slot};
ghost use Rattle.td_machine.specs.Log.{commit_at};
ghost use Rattle.td_machine.specs.Vote.{is_apart};
ghost use Rattle.td_vote.specs.Commits.{put_commit, InOrder};

use crate::slots::{is_rooted, overlap};
use std::marker::Model;
use td_base::{Dot, Memory};
use td_doc::Doc;
use td_path::Slot;

/// A commit by its own dot, with the slot of its proposal. Contracts see the two.
#[derive(Debug, Drop)]
pub struct Committed {
    pub dot: Dot,
    pub slot: Slot,
}

impl Model for Committed {
    ghost use Rattle.td_machine.specs.Log.{Committed as CommittedValue};

    ghost Value = { CommittedValue };

    ghost view = { λ c. record { dot = c.dot; slot = c.slot } };
}

/// Puts a commit among others in the order of their dots. One with a greater dot than theirs comes last, and moves none
/// of them. `Memory` comes only where there was no room.
pub fn put(commits: &mut Vec<Committed>, dot: Dot, slot: Slot) -> Result<(), Memory>
    requires { InOrder commits.old.items }
    ensures ok { OnOk result (commits.new.items ≡ put_commit (commit_at dot slot) commits.old.items) }
    ensures err { OnErr result (commits.new.items ≡ commits.old.items) }
    ensures memory { OnErr result (vec_capacity commits.old ≤ vec_len commits.old) }
{
    let place = place_of(commits, dot);
    commits.insert(place, Committed { dot, slot })?;
    Ok(())
}

// The place of a commit with the dot among them. Mostly it is the newest: the last is looked at first.
fn place_of(commits: &[Committed], dot: Dot) -> usize
    requires { InOrder commits.now }
    ensures bound { result ≤ length commits.now }
    ensures place { (slot : Slot) → insert commits.now result (commit_at dot slot)
        ≡ put_commit (commit_at dot slot) commits.now }
{
    if let Some(last) = commits.last()
        && last.dot < dot
    {
        return commits.len();
    }
    commits.partition_point(|commit| commit.dot < dot)
}

/// Whether the slot of the commit can still be told, and lies apart from the other.
pub fn is_apart<D: Doc>(doc: &D, commit: &Committed, slot: &Slot) -> bool
    ensures { result ≡ is_apart (D.rows doc.now) slot.now commit.now }
{
    is_rooted(doc, &commit.slot) && !overlap(doc, &commit.slot, slot)
}
