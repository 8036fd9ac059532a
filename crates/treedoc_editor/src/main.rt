//! The program `treedoc_editor`, to copy from: two editors of one text, which send each other packets.
//!
//! Ann and Bob type at once, without asking anybody; then each hears of what the other did, and both see one text.
//! What stands between a replica and a screen is `td_editor`; here is what an editor adds to it: a desk, which cuts
//! what is typed into atoms and sends its packets. docs/EMBEDDING.md goes through it line by line.
#![tactic(auto)]

mod desk;
mod fault;

use desk::Desk;
use fault::Fault;
use std::io;

fn main(rt: HostRuntime) -> anyhow::Result<()> {
    let mut ann = Desk::open(rt.alloc(), 1)?;
    let mut bob = Desk::open(rt.alloc(), 2)?;
    ann.type_text(0, "tea milk")?;
    exchange(&mut ann, &mut bob)?;
    print_both(&rt, "Ann typed", &ann, &bob)?;
    ann.type_text(3, ",")?;
    bob.delete(4, 4)?;
    bob.paste(4, "rum?")?;
    print_both(&rt, "both type at once", &ann, &bob)?;
    exchange(&mut ann, &mut bob)?;
    print_both(&rt, "each has heard of the other", &ann, &bob)?;
    ann.flatten()?;
    exchange(&mut ann, &mut bob)?;
    print_both(&rt, "flattened", &ann, &bob)?;
    Ok(())
}

// Each sends what it has not sent, twice: a proposal that comes is answered by a vote, the last vote by a decision.
fn exchange(ann: &mut Desk, bob: &mut Desk) -> Result<(), Fault> {
    for _ in 0..2 {
        ann.send_to(bob)?;
        bob.send_to(ann)?;
    }
    Ok(())
}

fn print_both(rt: &impl Print, when: &str, ann: &Desk, bob: &Desk) -> io::Result<()> {
    println!(rt; "{when}:")?;
    print_desk(rt, "Ann", ann)?;
    print_desk(rt, "Bob", bob)
}

// What is on the screen, and how many rows the document has, tombstones included.
fn print_desk(rt: &impl Print, name: &str, desk: &Desk) -> io::Result<()> {
    print!(rt; "  {name} sees \"")?;
    for atom in desk.atoms() {
        print!(rt; "{}", str::from_utf8(atom.bytes()).unwrap_or("?"))?;
    }
    println!(rt; "\", {} rows", desk.rows())
}
