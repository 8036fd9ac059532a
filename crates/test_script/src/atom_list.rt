use std::process::Abort;
use std::test::Fail;
use td_base::Atom;
use td_text::AtomList;

#[test]
fn atoms_are_read_back_with_their_bytes_and_lengths(rt: HostRuntime) -> Result<(), Fail> {
    let pieces: [&[u8]; 3] = [b"a", "\u{1f476}".as_bytes(), &[b'x'; 64]];
    let mut atoms = AtomList::new(rt.alloc());
    assert!(rt; atoms.is_empty());
    for piece in pieces {
        atoms.push(Atom::new(piece).ok().ok_or("an atom")?)?;
    }
    assert_eq!(rt; atoms.len(), 3);
    assert!(rt; !atoms.is_empty());
    assert_eq!(rt; atoms.lengths(), [1, 4, 64].as_slice());
    assert_eq!(rt; atoms.bytes().len(), 69);
    assert_eq!(rt; atoms.bytes()[..5], *"a\u{1f476}".as_bytes());
    assert_eq!(rt; atoms.iter().count(), 3);
    for (atom, piece) in atoms.iter().zip(pieces) {
        assert_eq!(rt; atom.bytes(), piece);
    }
    Ok(())
}
