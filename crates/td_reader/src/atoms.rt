// Atoms, runs and sides.
ghost use Rattle.std.specs.Prelude.{◌≡◌, ◌≤◌, take, IfSome, MatchOption, None, Some};
ghost use Rattle.td_reader.specs.Arguments.{atom_at, atoms_upto, bit_at, run_at, spaced_atom_at};

use crate::cursor::behind;
use crate::quoted::text;
use td_base::{Atom, Bit, MAX_RUN_LEN, Run};

// An atom up to its closing quote, and what is left behind that quote.
#[tactic(auto, unfolding(crate::specs::Arguments::atom_at))]
fn atom(bytes: &[u8]) -> Option<(Atom, &[u8])>
    ensures { let read = atom_at bytes.now in
        MatchOption result (read ≡ None) (λ found. read ≡ Some (found.0, found.1.now)) }
{
    let Some((text, rest)) = text(bytes) else {
        return None;
    };
    let atom = text.atom()?;
    Some((atom, rest))
}

/// An atom in its quotes, behind a space, and what is left behind it.
#[tactic(auto, unfolding(crate::specs::Arguments::spaced_atom_at))]
pub(crate) fn spaced_atom(bytes: &[u8]) -> Option<(Atom, &[u8])>
    ensures { let read = spaced_atom_at bytes.now in
        MatchOption result (read ≡ None) (λ found. read ≡ Some (found.0, found.1.now)) }
{
    let rest = behind(bytes, b" \"")?;
    atom(rest)
}

/// The atoms of a run, each in its quotes behind a space, and what is left behind them.
#[tactic(auto, unfolding(crate::specs::Arguments::run_at))]
pub(crate) fn run(bytes: &[u8]) -> Option<(Run, &[u8])>
    ensures { let read = run_at bytes.now in
        MatchOption result (read ≡ None) (λ found. read ≡ Some (found.0, found.1.now)) }
{
    let Some((first, _)) = spaced_atom(bytes) else {
        return None;
    };
    let mut atoms = [first; MAX_RUN_LEN];
    let (len, rest) = fill_atoms(&mut atoms, bytes)?;
    let run = Run::new(&atoms[..len]).ok()?;
    Some((run, rest))
}

// The atoms that stand at the front of the bytes, at most `MAX_RUN_LEN`: how many, and what is left behind them.
fn fill_atoms<'a>(atoms: &mut [Atom; MAX_RUN_LEN], bytes: &'a [u8]) -> Option<(usize, &'a [u8])>
    ensures read { let read = atoms_upto MAX_RUN_LEN bytes.now in
        MatchOption result (read ≡ None) (λ found. read ≡ Some (take found.0 atoms.new, found.1.now)) }
    ensures range { IfSome result (λ found. found.0 ≤ MAX_RUN_LEN) }
{
    let mut rest = bytes;
    for len in 0..MAX_RUN_LEN {
        let Some(inner) = behind(rest, b" \"") else {
            return Some((len, rest));
        };
        let Some(read) = atom(inner) else {
            return None;
        };
        atoms[len] = read.0;
        rest = read.1;
    }
    Some((MAX_RUN_LEN, rest))
}

/// A side, behind a space, and what is left behind it.
#[tactic(auto, unfolding(crate::specs::Arguments::bit_at))]
pub(crate) fn bit(bytes: &[u8]) -> Option<(Bit, &[u8])>
    ensures { let read = bit_at bytes.now in
        MatchOption result (read ≡ None) (λ found. read ≡ Some (found.0, found.1.now)) }
{
    if let Some(rest) = behind(bytes, b" left") {
        return Some((Bit::Left, rest));
    }
    if let Some(rest) = behind(bytes, b" right") {
        return Some((Bit::Right, rest));
    }
    None
}
