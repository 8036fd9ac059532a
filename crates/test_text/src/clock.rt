use std::test::Fail;
use td_base::{Dot, MAX_SITE, Site};
use td_clock::*;

#[test]
fn the_last_of_64_places_is_a_place_like_any(rt: HostRuntime) -> Result<(), Fail> {
    let site = Site::new(MAX_SITE).ok_or("the last site")?;
    let mut v = Vector::new(MAX_SITE);
    v.set(site, 65_534);
    v.bump(site);
    assert_eq!(rt; v.size(), 64);
    assert_eq!(rt; v.get(site), 65_535);
    assert_eq!(rt; v.sum(), 65_535);
    assert!(rt; v.has(Dot::new(site, 65_535).ok_or("the last dot")?));
    Ok(())
}

#[test]
fn two_sites_that_know_of_themselves_alone_are_joined(rt: HostRuntime) -> Result<(), Fail> {
    let first = Site::new(1).ok_or("site 1")?;
    let second = Site::new(2).ok_or("site 2")?;
    let mut v = Vector::new(2);
    let mut w = Vector::new(2);
    v.set(first, 2);
    w.set(second, 3);
    assert_eq!(rt; Vector::of(&[2, 0]), v);
    assert_eq!(rt; w.numbers(), [0, 3].as_slice());
    assert!(rt; !v.covers(&w) && !w.covers(&v));
    let mut both = v;
    both.join(&w);
    assert!(rt; both.covers(&v) && both.covers(&w) && both != v);
    assert_eq!(rt; both.sum(), 5);
    for (site, seq, known) in [(1, 2, true), (1, 3, false), (2, 3, true), (3, 1, false)] {
        let site = Site::new(site).ok_or("a site")?;
        let dot = Dot::new(site, seq).ok_or("a dot")?;
        assert_eq!(rt; both.has(dot), known, "at {dot:?}");
    }
    Ok(())
}
