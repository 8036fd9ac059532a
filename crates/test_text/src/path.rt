use std::cmp::Ordering;
use std::test::Fail;
use td_base::{AtomId, Bit, Dot, Site};
use td_path::*;

fn id(site: u8, seq: u32) -> Result<AtomId, Fail> {
    let site = Site::new(site).ok_or("a site")?;
    Ok(AtomId::of(Dot::new(site, seq).ok_or("a dot")?))
}

#[test]
fn a_pair_is_pushed(rt: HostRuntime) -> Result<(), Fail> {
    let mut path = Path::new(rt.alloc());
    assert!(rt; path.is_empty());
    path.push(Bit::Right, id(1, 1)?)?;
    assert_eq!(rt; path.len(), 1);
    assert_eq!(rt; path.pair(0), Some((Bit::Right, id(1, 1)?)));
    assert_eq!(rt; path.pair(1), None);
    Ok(())
}

#[test]
fn what_hangs_on_the_left_comes_first(rt: HostRuntime) -> Result<(), Fail> {
    let mut node = Path::new(rt.alloc());
    node.push(Bit::Right, id(1, 1)?)?;
    let mut left = node.try_clone()?;
    left.push(Bit::Left, id(2, 1)?)?;
    let mut right = node.try_clone()?;
    right.push(Bit::Right, id(1, 2)?)?;
    assert_eq!(rt; infix(&left, &node), Ordering::Less);
    assert_eq!(rt; infix(&node, &right), Ordering::Less);
    assert_eq!(rt; infix(&right, &left), Ordering::Greater);
    assert_eq!(rt; infix(&node, &node), Ordering::Equal);
    Ok(())
}

#[test]
fn a_slot_contains_what_goes_on_by_its_bit(rt: HostRuntime) -> Result<(), Fail> {
    let mut node = Path::new(rt.alloc());
    node.push(Bit::Right, id(1, 1)?)?;
    let mut left = node.try_clone()?;
    left.push(Bit::Left, id(2, 1)?)?;
    let left_slot = SlotPath::Below {
        path: node.try_clone()?,
        bit: Bit::Left,
    };
    let right_slot = SlotPath::Below {
        path: node.try_clone()?,
        bit: Bit::Right,
    };
    assert!(rt; contains(&left_slot, &left));
    assert!(rt; !contains(&left_slot, &node));
    assert!(rt; !contains(&right_slot, &left));
    assert!(rt; contains(&SlotPath::Root, &node));
    assert!(rt; !overlap(&left_slot, &right_slot));
    assert!(rt; overlap(&left_slot, &SlotPath::Root));
    Ok(())
}

#[test]
fn a_slot_names_an_atom_and_its_site(rt: HostRuntime) -> Result<(), Fail> {
    let atom = id(3, 1)?;
    let left = Slot::At {
        atom,
        bit: Bit::Left,
    };
    assert_eq!(rt; left.atom(), Some(atom));
    assert_eq!(rt; left.site(), Some(atom.dot.site));
    assert!(rt; Slot::Root.atom().is_none());
    assert!(rt; Slot::Root.site().is_none());
    Ok(())
}

#[test]
fn arrays_of_up_to_nine_atoms_have_their_shapes(rt: HostRuntime) -> Result<(), Fail> {
    // for each number of atoms the bits of each, 0 to the left and 1 to the right
    let shapes = [
        "",
        "-",
        "0 -",
        "0 - 1",
        "00 0 - 1",
        "00 0 - 10 1",
        "00 0 01 - 10 1",
        "00 0 01 - 10 1 11",
        "000 00 0 01 - 10 1 11",
        "000 00 0 01 - 100 10 1 11",
    ];
    for (k, shape) in shapes.iter().enumerate() {
        let k = k as u32;
        let mut atoms = 0;
        for spelled in shape.split_ascii_whitespace() {
            let mut bits = Vec::new(rt.alloc());
            for letter in spelled.bytes() {
                match letter {
                    b'0' => bits.push(Bit::Left)?,
                    b'1' => bits.push(Bit::Right)?,
                    _ => {}
                }
            }
            assert_eq!(rt; shape_index(k, &bits), Some(atoms), "{spelled} of {k}");
            assert!(rt; atoms < k);
            assert!(rt;
                shape_path(rt.alloc(), k, atoms)? == bits,
                "atom {atoms} of {k}"
            );
            atoms += 1;
        }
        assert_eq!(rt; atoms, k);
    }
    assert_eq!(rt; shape_index(0, &[]), None);
    assert_eq!(rt; shape_index(4, &[Bit::Right, Bit::Right]), None);
    assert_eq!(rt; shape_index(4, &[Bit::Right, Bit::Left]), None);
    Ok(())
}
