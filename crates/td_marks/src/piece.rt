ghost use Rattle.std.specs.Prelude.{◌≡◌, ◌++◌, ◌∷◌, [], List, OnOk};
ghost use Rattle.td_marks.specs.Text.{joined};
ghost use Rattle.td_marks.specs.declared.piece.Piece.{Piece as PieceValue};

use std::alloc::Global;
use td_base::{Bytes, Memory};

/// A piece of a marked text, whose atoms have the same names.
#[derive(Debug, Drop)]
pub struct Piece {
    pub text: Bytes,
    /// Bit m is set where its atoms have the name m.
    pub names: u32,
}

// Puts an atom with its names behind what was joined so far.
pub(crate) fn add_atom(
    pieces: &mut Vec<Piece>,
    alloc: Global,
    atom: &[u8],
    names: u32,
) -> Result<(), Memory>
    ensures { OnOk result ((front : List PieceValue) → pieces.old.items ≡ joined front
        → pieces.new.items ≡ joined (front ++ record { text = atom.now; names = names } ∷ [])) }
{
    if let Some(last) = pieces.last_mut() {
        if last.names == names {
            return last.text.push(atom);
        }
    }
    let mut text = Bytes::new(alloc);
    text.push(atom)?;
    pieces.push(Piece { text, names })?;
    Ok(())
}
