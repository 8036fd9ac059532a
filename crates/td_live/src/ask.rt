ghost use Rattle.std.specs.Prelude.{◌≡◌, ◌≤◌};
ghost use Rattle.td_base.specs.declared.atom_id.TheConstants.{MAX_OFFSET};
ghost use Rattle.td_live.specs.Asking.{made_atom, request_of};

use td_base::{Atom, AtomId, Dot, Run};
use td_op::Request;

/// A call that a line asks for, by the operation that was made last.
#[derive(Clone, Copy, Debug, PartialEq, Eq)]
pub(crate) enum Ask {
    /// This request, whatever was made.
    Plain(Request),
    /// The cluster, right behind the first atom made.
    TypeOn(Atom),
    /// The run, right behind the last atom made: these were as many as the run `before` has.
    PasteOn { before: Run, run: Run },
}

impl Ask {
    /// The request, where this operation was made last. Takes no memory.
    pub(crate) fn request(&self, made: Option<Dot>) -> Request
        ensures { result ≡ request_of self.now made }
    {
        match self {
            Ask::Plain(request) => *request,
            Ask::TypeOn(atom) => Request::InsertAfter {
                after: made_atom(0, made),
                atom: *atom,
            },
            Ask::PasteOn { before, run } => Request::PasteAfter {
                after: made_atom(before.len() - 1, made),
                run: *run,
            },
        }
    }
}

// The atom with so many atoms before it of the operation that was made, where one was.
fn made_atom(offset: u8, made: Option<Dot>) -> Option<AtomId>
    requires { offset ≤ MAX_OFFSET }
    ensures { result ≡ made_atom offset made }
{
    let dot = made?;
    Some(AtomId { dot, offset })
}
