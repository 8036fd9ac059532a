use std::process::Abort;
use std::test::Fail;
use td_base::{AtomId, Dot, Site};
use td_clock::Vector;
use td_identities::*;

fn dot(site: u8, seq: u32) -> Result<Dot, Fail> {
    let site = Site::new(site).ok_or("a site")?;
    Ok(Dot::new(site, seq).ok_or("a dot")?)
}

// An identity by the numbers of its site and its operation, and its place there.
type Named = (u8, u32, u8);

fn id((site, seq, offset): Named) -> Result<AtomId, Fail> {
    Ok(AtomId::new(dot(site, seq)?, offset).ok_or("an identity")?)
}

// From an identity on the first number, and how many there are. The last two are none that a replica would make: in
// the middle of an insert, and again.
const PUT: [(Named, u16, u8); 4] = [
    ((1, 7, 0), 100, 3),
    ((64, 2, 0), 103, 1),
    ((64, 2, 5), 104, 2),
    ((1, 7, 1), 200, 1),
];

const NUMBERS: [(Named, Option<u32>); 10] = [
    ((1, 7, 0), Some(100)),
    ((1, 7, 1), Some(200)),
    ((1, 7, 2), Some(102)),
    ((1, 7, 3), None),
    ((1, 6, 0), None),
    ((2, 7, 0), None),
    ((64, 2, 0), Some(103)),
    ((64, 2, 4), None),
    ((64, 2, 5), Some(104)),
    ((64, 2, 6), Some(105)),
];

fn put(identities: &mut Identities, named: Named, first: u16, count: u8) -> Result<(), Fail> {
    let id = id(named)?;
    identities.make_room(id.dot)?;
    identities.put(id, u32::from(first), count);
    Ok(())
}

fn all_lead(rt: &impl Abort, identities: &mut Identities) -> Result<(), Fail> {
    for (named, first, count) in &PUT {
        put(identities, *named, *first, *count)?;
    }
    for (named, number) in &NUMBERS {
        assert_eq!(rt; identities.number(id(*named)?), *number);
    }
    Ok(())
}

#[test]
fn identities_lead_to_their_latest_numbers(rt: HostRuntime) -> Result<(), Fail> {
    let mut identities = Identities::empty(rt.alloc());
    all_lead(&rt, &mut identities)
}

#[test]
fn a_vector_knows_what_was_seen_or_not(rt: HostRuntime) -> Result<(), Fail> {
    let mut seen = Seen::new();
    assert!(rt; seen.is_known(&Vector::new(1)));
    seen.add(dot(2, 5)?);
    seen.add(dot(2, 3)?);
    assert!(rt; seen.is_known(&Vector::of(&[0, 5])));
    assert!(rt; seen.is_known(&Vector::of(&[1, 6, 1])));
    assert!(rt; !seen.is_known(&Vector::of(&[9, 4])));
    assert!(rt; !seen.is_known(&Vector::of(&[9])));
    Ok(())
}

#[test]
fn numbers_are_kept_by_the_number_of_the_operation(rt: HostRuntime) -> Result<(), Fail> {
    let mut operations = Operations::new(rt.alloc());
    operations.reach(9)?;
    operations.set(9, Numbers::new(70, 3));
    assert_eq!(rt; operations.get(9).nth(2), Some(72));
    assert!(rt; operations.get(8).is_empty() && operations.get(10_000).is_empty());
    Ok(())
}
