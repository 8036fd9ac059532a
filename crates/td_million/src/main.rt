//! The program `td_million`, a test: a document of a million rows, by the fast document `td_tree::Tree`.
//!
//! It pastes 1,000,000 letters as 15,625 runs, types and deletes 1,000 letters all over the text, flattens the whole
//! document and types one letter in its middle. After each step it prints how many rows, live rows and nodes there are,
//! and at the end where some of the atoms are found: so it shows that a document of this size is edited in seconds, and
//! that an array of a million atoms is opened by 20 nodes. Begin at `writer`, which edits the document by `Doc` alone
//! and never uses a dot twice; `steps` are the steps in turn.
#![tactic(auto)]

mod fault;
mod letters;
mod places;
mod steps;
mod tally;
mod writer;

use fault::Fault;
use places::{atom_of, index_of};
use std::io;
use steps::{delete_letters, paste, type_letter, type_letters};
use tally::count;
use td_base::{AtomId, Site};
use td_tree::Tree;
use writer::Writer;

// 64 letters each.
const RUNS: u32 = 15_625;

const EDITS: u32 = 1_000;

const MIDDLE: u32 = 500_000;

// The nodes that `stdout` tells of are counted here by how an array is halved. The atom at a place of an array of n is
// reached from the middle, n / 2, by steps to the middle of the part before or after. Opened to it, a leaf gives a node
// for each step, and what is left beside the steps are leaves.
//
// - A run is put as one leaf, and the next run on the right of its last atom. That opens the leaf to the place 63,
//   through 32, 48, 56, 60 and 62. The last run stays a leaf: 15,624 * 6 = 93,744 nodes.
// - The k-th letter, from 0, is typed behind the 1,000k-th atom pasted, and the k-th delete takes the 500th atom pasted
//   after that one. These are in runs of their own, and none in the last run.
// - Letters are typed behind the places 1,000k mod 64 of their runs: 0, 8, .. 56, each 125 times. On the right of the
//   place 0 nothing stands. On the right of another stands the next place, and the letter goes to that one's left. With
//   the letter these are 7, 6, 6, 6, 5, 5, 4 and 3 nodes more: 125 * 42 = 5,250.
// - Deletes take the places (1,000k + 500) mod 64 of their runs: 4, 12, .. 60, each 125 times. These are 3, 3, 3, 3, 2,
//   2, 1 and 0 nodes more: 125 * 17 = 2,125.
// - Flattened, the document is one leaf of 1,000,000. The letter in the middle is typed behind the place 499,999, which
//   is reached through parts of 1,000,000, 500,000, 249,999, 124,999, 62,499, 31,249, 15,624, 7,811, 3,905, 1,952, 975,
//   487, 243, 121, 60, 29, 14, 6 and 2 atoms: 19 nodes, and the letter.
//
// At the end each 1,000 letters pasted have one letter more and one less. So the letter 501 of site 2, behind the
// 500,000th atom pasted, stands at 500,001, and one further with the letter in the middle before it.
fn main(rt: HostRuntime) -> anyhow::Result<()> {
    let mut writer = Writer::new(rt.alloc(), Site::new(1).ok_or(Fault::NoValue)?)?;
    write(&rt, &mut writer)
}

// Each step, and what there is after it.
fn write(rt: &impl Print, writer: &mut Writer) -> anyhow::Result<()> {
    paste(writer, RUNS)?;
    print_tally(rt, "pasted", writer.doc())?;
    writer.next_site()?;
    type_letters(writer, EDITS)?;
    print_tally(rt, "typed", writer.doc())?;
    writer.next_site()?;
    delete_letters(writer, EDITS)?;
    print_tally(rt, "deleted", writer.doc())?;
    writer.flatten()?;
    print_tally(rt, "flattened", writer.doc())?;
    writer.next_site()?;
    type_letter(writer, MIDDLE)?;
    print_tally(rt, "typed in the middle", writer.doc())?;
    print_places(rt, writer.doc())
}

fn print_tally(rt: &impl Print, step: &str, doc: &Tree) -> io::Result<()> {
    println!(rt; "{step}: {}", count(doc))
}

// The first and the last atom pasted, one deleted, and the letters typed half way and at the end.
fn print_places(rt: &impl Print, doc: &Tree) -> anyhow::Result<()> {
    print_place(rt, doc, atom_of(1, 1, 0)?)?;
    print_place(rt, doc, atom_of(1, 8, 52)?)?;
    print_place(rt, doc, atom_of(4, 1, 0)?)?;
    print_place(rt, doc, atom_of(2, 501, 0)?)?;
    print_place(rt, doc, atom_of(1, RUNS, 63)?)
}

fn print_place(rt: &impl Print, doc: &Tree, id: AtomId) -> anyhow::Result<()> {
    let AtomId { dot, offset } = id;
    let site = dot.site.number();
    match index_of(doc, id)? {
        Some(index) => println!(rt; "atom {site}.{}.{offset}: index {index}", dot.seq)?,
        None => println!(rt; "atom {site}.{}.{offset}: gone", dot.seq)?,
    }
    Ok(())
}
