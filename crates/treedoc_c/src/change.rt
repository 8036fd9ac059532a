ghost use Rattle.std.specs.Prelude.{◌≡◌, ◌≤◌, length, Some};
ghost use Rattle.td_base.specs.declared.run.TheConstants.{MAX_RUN_LEN};
ghost use Rattle.td_base.specs.Padded.{padded_with_zeros};
ghost use Rattle.treedoc_c.specs.Changes.{change_of, kind_number, no_change, put_change};

use td_base::{MAX_RUN_LEN, Run};
use td_op::Change;

/// What a step did to the text.
#[derive(Clone, Copy, Debug, PartialEq, Eq)]
pub(crate) enum Kind {
    /// The text is as it was.
    Nothing,
    /// Atoms were put.
    Put,
    /// An atom was taken out.
    Cut,
}

impl Kind {
    /// Its number in `treedoc.h`.
    pub(crate) fn number(self) -> u32
        ensures { result ≡ kind_number self }
    {
        match self {
            Kind::Nothing => 0,
            Kind::Put => 1,
            Kind::Cut => 2,
        }
    }
}

/// What the last step did to the text: the number of its kind, the index at which atoms were put or one was taken out,
/// and what was put. C calls it `td_change`.
#[repr(C)]
#[derive(Clone, Copy, Debug, PartialEq, Eq)]
pub struct TextChange {
    pub kind: u32,
    pub index: u32,
    /// How many atoms were put.
    pub atoms: u32,
    /// How many bytes these have together.
    pub len: u32,
    /// These bytes, and zeros behind them.
    pub text: [u8; MAX_RUN_LEN],
    /// How many bytes each of the atoms has, and zeros behind these numbers.
    pub lengths: [u8; MAX_RUN_LEN],
}

impl TextChange {
    /// The change in numbers and bytes.
    pub(crate) fn of(change: &Option<Change>) -> TextChange
        ensures { result ≡ change_of change.now }
    {
        match change {
            None => no_change(),
            Some(change) => one_change(change),
        }
    }
}

fn one_change(change: &Change) -> TextChange
    ensures { result ≡ change_of (Some change.now) }
{
    match change {
        Change::Put { index, atom } => put_change(*index, &Run::one(*atom)),
        Change::PutRun { index, run } => put_change(*index, run),
        Change::Cut { index } => TextChange {
            kind: Kind::Cut.number(),
            index: *index,
            ..no_change()
        },
    }
}

fn no_change() -> TextChange
    ensures { result ≡ no_change }
{
    TextChange {
        kind: Kind::Nothing.number(),
        index: 0,
        atoms: 0,
        len: 0,
        text: [0; MAX_RUN_LEN],
        lengths: [0; MAX_RUN_LEN],
    }
}

fn put_change(index: u32, run: &Run) -> TextChange
    ensures { result ≡ put_change index run.now }
{
    let atoms = run.len();
    let bytes = run.bytes();
    TextChange {
        kind: Kind::Put.number(),
        index,
        atoms: u32::from(atoms),
        len: bytes.len() as u32,
        text: padded(bytes),
        lengths: run.lengths(),
    }
}

// The bytes, and zeros behind them.
fn padded(bytes: &[u8]) -> [u8; MAX_RUN_LEN]
    requires { length bytes.now ≤ MAX_RUN_LEN }
    ensures { result ≡ padded_with_zeros MAX_RUN_LEN bytes.now }
{
    let mut text = [0; MAX_RUN_LEN];
    text[..bytes.len()].copy_from_slice(bytes);
    text
}
