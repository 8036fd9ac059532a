ghost use Rattle.std.specs.Prelude.{◌≡◌, ◌<◌, ◌+◌, ◌^◌, ◌∷◌, [], IfOk};
ghost use Rattle.td_gen.specs.Generator.{letter, letters_from};

use std::alloc::Global;
use td_base::{Atom, Memory};
use td_text::AtomList;

/// So many letters from this one on, each an atom. `a` is 0, and comes after `z`.
#[tactic(auto, using(crate::proofs::Alphabet::one_more))]
pub(crate) fn letters_from(alloc: Global, first: u32, count: u32) -> Result<AtomList, Memory>
    requires { first + count < 2 ^ 32 }
    ensures { IfOk result (λ atoms. atoms ≡ letters_from first count) }
{
    let mut atoms = AtomList::new(alloc);
    for place in 0..count {
        atoms.push(letter(first + place))?;
    }
    Ok(atoms)
}

// The letter with this number.
fn letter(number: u32) -> Atom
    ensures { result ≡ letter number ∷ [] }
{
    match Atom::new(&[b'a' + (number % 26) as u8]) {
        Ok(atom) => atom,
        Err(_) => unreachable!(),
    }
}
