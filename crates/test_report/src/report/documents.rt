//! What is printed of replicas that edited, by the worked examples.

use std::alloc::Global;
use std::process::Abort;
use std::test::Fail;
use td_base::{Atom, MAX_SITE, Run, Site};
use td_doc::Rows;
use td_op::{Input, Request};
use td_replica::Replica;
use td_report::{count_line, summary_lines, tree_lines};

// What a site does.
#[derive(Clone, Copy)]
enum Act {
    // The letters at the index, all in one insert.
    Paste(u32, &'static str),
    Delete(u32),
    // The message with this number of those that the site sent.
    Take(u8, u64),
}

type Replicas = Vec<Replica<Rows>>;

fn run(letters: &str) -> Result<Run, Fail> {
    let mut atoms = [Atom::new(b"a").ok().ok_or("an atom")?; 64];
    let letters = letters.as_bytes();
    if letters.len() > 64 {
        return Err(Fail::from("a run"));
    }
    for (place, letter) in letters.iter().enumerate() {
        atoms[place] = Atom::new(&[*letter]).ok().ok_or("an atom")?;
    }
    Ok(Run::new(&atoms[..letters.len()]).ok().ok_or("a run")?)
}

fn input(replicas: &Replicas, act: Act) -> Result<Input, Fail> {
    Ok(match act {
        Act::Paste(index, letters) => Input::Local(Request::Paste {
            index,
            run: run(letters)?,
        }),
        Act::Delete(index) => Input::Local(Request::Delete { index }),
        Act::Take(site, number) => {
            let replica = replicas
                .get(usize::from(site).wrapping_sub(1))
                .ok_or("a site")?;
            Input::Take(replica.sent_at(number).ok_or("a message")?)
        }
    })
}

// The replicas of n sites after the acts.
fn played(rt: &impl Abort, alloc: Global, n: u8, acts: &[(u8, Act)]) -> Result<Replicas, Fail> {
    assert!(rt; n <= MAX_SITE);
    let mut replicas = Vec::new(alloc);
    for number in 1..=n {
        assert!(rt; number <= n);
        let site = Site::new(number).ok_or("a site")?;
        assert!(rt; site.number() <= n);
        replicas.push(Replica::new(alloc, site, n)?)?;
    }
    for (site, act) in acts {
        let input = input(&replicas, *act)?;
        let replica = replicas
            .get_mut(usize::from(*site).wrapping_sub(1))
            .ok_or("a site")?;
        replica.step(input)?;
    }
    Ok(replicas)
}

// A tree is that of the site after the acts.
fn is_tree(
    rt: &impl Abort,
    alloc: Global,
    acts: &[(u8, Act)],
    number: u8,
    text: &str,
) -> Result<(), Fail> {
    let replicas = played(rt, alloc, 2, acts)?;
    let replica = replicas
        .get(usize::from(number).wrapping_sub(1))
        .ok_or("a site")?;
    let lines = tree_lines(alloc, replica.site(), replica.doc())?;
    assert_eq!(rt; lines.as_slice(), text.as_bytes(), "{text}");
    Ok(())
}

#[test]
fn trees_have_their_rows_in_infix_order(rt: HostRuntime) -> Result<(), Fail> {
    // one gap, two sites
    let acts = [
        (1, Act::Paste(0, "a")),
        (1, Act::Paste(1, "c")),
        (2, Act::Take(1, 1)),
        (2, Act::Take(1, 2)),
        (1, Act::Paste(1, "X")),
        (2, Act::Paste(1, "Y")),
        (1, Act::Take(2, 1)),
    ];
    let text =
        "tree 1 4\n1.1 root \"a\"\n1.3 1.2 left \"X\"\n2.1 1.2 left \"Y\"\n1.2 1.1 right \"c\"\n";
    is_tree(&rt, rt.alloc(), &acts, 1, text)
}

#[test]
fn a_tombstone_has_its_deletes(rt: HostRuntime) -> Result<(), Fail> {
    // both delete one atom
    let acts = [
        (1, Act::Paste(0, "a")),
        (1, Act::Paste(1, "b")),
        (2, Act::Take(1, 1)),
        (2, Act::Take(1, 2)),
        (1, Act::Delete(0)),
        (2, Act::Delete(0)),
        (2, Act::Take(1, 3)),
    ];
    let text = "tree 2 2\n1.1 root \"a\" dead 1.3 2.1\n1.2 1.1 right \"b\"\n";
    is_tree(&rt, rt.alloc(), &acts, 2, text)
}

#[test]
fn an_atom_of_a_run_has_its_offset(rt: HostRuntime) -> Result<(), Fail> {
    // a paste split by two sites
    let acts = [
        (1, Act::Paste(0, "abcd")),
        (2, Act::Take(1, 1)),
        (2, Act::Paste(1, "xy")),
        (1, Act::Paste(1, "z")),
        (1, Act::Take(2, 1)),
    ];
    let text =
        "tree 1 7\n1.1 1.1+1 left \"a\"\n1.2 1.1 right \"z\"\n2.1 2.1+1 left \"x\"\n2.1+1 1.1 right \"y\"\n\
        1.1+1 1.1+2 left \"b\"\n1.1+2 root \"c\"\n1.1+3 1.1+2 right \"d\"\n";
    is_tree(&rt, rt.alloc(), &acts, 1, text)
}

#[test]
fn what_waits_is_counted(rt: HostRuntime) -> Result<(), Fail> {
    // loss
    let acts = [
        (1, Act::Paste(0, "a")),
        (1, Act::Paste(1, "b")),
        (1, Act::Paste(2, "c")),
        (2, Act::Take(1, 1)),
        (2, Act::Take(1, 3)),
    ];
    let replicas = played(&rt, rt.alloc(), 2, &acts)?;
    let line = count_line(rt.alloc(), replicas.get(1).ok_or("site 2")?)?;
    assert_eq!(rt;
        line.as_slice(),
        b"count 2 live 1 rows 1 waiting 1 holds 0\n".as_slice()
    );
    Ok(())
}

// The summary of three sites after the acts.
fn is_summary(
    rt: &impl Abort,
    alloc: Global,
    generated: (u32, u64, u32),
    acts: &[(u8, Act)],
    text: &str,
) -> Result<(), Fail> {
    let (size, number, commands) = generated;
    let replicas = played(rt, alloc, 3, acts)?;
    let one = replicas.get(0).ok_or("site 1")?;
    let two = replicas.get(1).ok_or("site 2")?;
    let three = replicas.get(2).ok_or("site 3")?;
    let lines = summary_lines(alloc, size, number, commands, one, two, three)?;
    assert_eq!(rt; lines.as_slice(), text.as_bytes(), "{text}");
    Ok(())
}

#[test]
fn a_summary_has_the_head_of_the_first_text(rt: HostRuntime) -> Result<(), Fail> {
    // generated
    let acts = [
        (1, Act::Paste(0, "w")),
        (2, Act::Paste(0, "a")),
        (3, Act::Paste(0, "x")),
        (1, Act::Take(2, 1)),
        (1, Act::Take(3, 1)),
        (2, Act::Take(1, 1)),
        (2, Act::Take(3, 1)),
        (3, Act::Take(1, 1)),
        (3, Act::Take(2, 1)),
    ];
    let text = "gen 3 42\ncommands 5\nsite 1 live 3 rows 3 made 1\nsite 2 live 3 rows 3 made 1\n\
        site 3 live 3 rows 3 made 1\nhead \"wax\"\n";
    is_summary(&rt, rt.alloc(), (3, 42, 5), &acts, text)
}

#[test]
fn a_head_has_32_atoms(rt: HostRuntime) -> Result<(), Fail> {
    let acts = [
        (1, Act::Paste(0, "abcdefghijklmnopqrstuvwxyzabcdefghij")),
        (1, Act::Delete(1)),
        (2, Act::Paste(0, "z")),
    ];
    let text = "gen 0 7\ncommands 2\nsite 1 live 35 rows 36 made 2\nsite 2 live 1 rows 1 made 1\n\
        site 3 live 0 rows 0 made 0\nhead \"acdefghijklmnopqrstuvwxyzabcdefg\"\n";
    is_summary(&rt, rt.alloc(), (0, 7, 2), &acts, text)
}
