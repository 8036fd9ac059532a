use std::test::Fail;
use td_base::*;

#[test]
fn values_out_of_range_are_none(rt: HostRuntime) -> Result<(), Fail> {
    assert_eq!(rt; Site::new(0), None);
    assert_eq!(rt; Site::new(65), None);
    let site = Site::new(1).ok_or("site 1")?;
    assert_eq!(rt; Dot::new(site, 0), None);
    assert_eq!(rt; Dot::new(site, 65_536), None);
    let dot = Dot::new(site, 65_535).ok_or("the last dot of a site")?;
    assert_eq!(rt; AtomId::new(dot, 64), None);
    assert_eq!(rt; AtomId::new(dot, 0), Some(AtomId::of(dot)));
    Ok(())
}

#[test]
fn bytes_that_are_no_atom_are_refused_by_the_first_cause(rt: HostRuntime) {
    let letters = [b'a'; 65];
    for (bytes, fault) in [
        (&letters[..0], AtomFault::Empty),
        (&letters[..], AtomFault::Long { len: 65 }),
        (&[0xff], AtomFault::Utf8 { at: 0 }),
        (&[0x61, 0xc3], AtomFault::Utf8 { at: 1 }),
    ] {
        assert_eq!(rt; Atom::new(bytes).err(), Some(fault), "at {bytes:?}");
    }
}

#[test]
fn an_atom_of_64_bytes_is_read_back(rt: HostRuntime) -> Result<(), Fail> {
    let letters = [b'a'; 64];
    let atom = Atom::new(&letters).ok().ok_or("64 letters")?;
    assert_eq!(rt; atom.bytes(), letters.as_slice());
    assert_eq!(rt; atom.padded(), &letters);
    assert_eq!(rt; Run::one(atom).only(), Some(atom));
    Ok(())
}

#[test]
fn no_atoms_and_65_letters_are_no_run(rt: HostRuntime) -> Result<(), Fail> {
    let letter = Atom::new(b"a").ok().ok_or("a letter")?;
    let letters = [letter; 65];
    assert_eq!(rt; Run::new(&letters[..0]).err(), Some(RunFault::Empty));
    assert_eq!(rt; Run::new(&letters).err(), Some(RunFault::Long { len: 65 }));
    Ok(())
}

#[test]
fn a_run_of_64_letters_is_read_back(rt: HostRuntime) -> Result<(), Fail> {
    let letter = Atom::new(b"a").ok().ok_or("a letter")?;
    let run = Run::new(&[letter; 64]).ok().ok_or("64 letters")?;
    assert_eq!(rt; run.len(), 64);
    assert_eq!(rt; run.atom(63), Some(letter));
    assert_eq!(rt; run.atom(64), None);
    assert_eq!(rt; run.only(), None);
    assert_eq!(rt; Run::new(&[letter]).ok(), Some(Run::one(letter)));
    assert_eq!(rt; Run::one(letter).only(), Some(letter));
    Ok(())
}

#[test]
fn atoms_of_one_to_four_bytes_are_read_back(rt: HostRuntime) -> Result<(), Fail> {
    let atoms = [
        Atom::new("a".as_bytes()).ok().ok_or("one byte")?,
        Atom::new("é".as_bytes()).ok().ok_or("two bytes")?,
        Atom::new("€".as_bytes()).ok().ok_or("three bytes")?,
        Atom::new("😀".as_bytes()).ok().ok_or("four bytes")?,
    ];
    let run = Run::new(&atoms).ok().ok_or("ten bytes")?;
    assert_eq!(rt; run.len(), 4);
    for (i, atom) in atoms.iter().enumerate() {
        assert_eq!(rt; run.atom(i as u8), Some(*atom), "at {i}");
        assert_eq!(rt; Run::one(*atom).only(), Some(*atom), "at {i}");
    }
    assert_eq!(rt;
        run.iter().collect::<Vec<Atom>>(rt.alloc())?.as_slice(),
        atoms.as_slice()
    );
    assert_eq!(rt; run.bytes(), "aé€😀".as_bytes());
    assert_eq!(rt; &run.lengths()[..5], [1, 2, 3, 4, 0].as_slice());
    Ok(())
}

#[test]
fn a_piece_is_pushed_and_cut(rt: HostRuntime) -> Result<(), Fail> {
    let mut bytes = Bytes::new(rt.alloc());
    bytes.push(b"ab")?;
    assert_eq!(rt; bytes.as_slice(), b"ab".as_slice());
    bytes.truncate(3);
    assert_eq!(rt; bytes.as_slice(), b"ab".as_slice());
    bytes.truncate(1);
    assert_eq!(rt; bytes.as_slice(), b"a".as_slice());
    Ok(())
}
