ghost use Rattle.std.specs.Prelude.{◌≡◌, length, IfOk};

use crate::fault::Fault;
use td_base::{Atom, MAX_RUN_LEN, Run};

/// 64 letters of the alphabet, round and round, from a place on.
pub(crate) fn letters(first: u32) -> Result<Run, Fault>
    ensures { IfOk result (λ run. length run ≡ 64) }
{
    let mut atoms = [letter(0)?; MAX_RUN_LEN];
    for (atom, place) in atoms.iter_mut().zip(first % 26..) {
        *atom = letter(place)?;
    }
    Run::new(&atoms).ok().ok_or(Fault::NoValue)
}

/// The letter at a place of the alphabet, read round and round.
pub(crate) fn letter(place: u32) -> Result<Atom, Fault> {
    let byte = b'a' + (place % 26) as u8;
    Atom::new(&[byte]).ok().ok_or(Fault::NoValue)
}
