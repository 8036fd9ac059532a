ghost use Rattle.std.specs.Prelude.{◌≡◌};
ghost use Rattle.td_history.specs.Puts.{put_of};

use td_base::{AtomId, Run};
use td_op::Request;
use td_store::CompactId;

/// Where a request puts its text. With the text it stands for `put_of` both.
#[derive(Clone, Copy, Debug, PartialEq, Eq)]
pub enum CompactPut {
    Insert { index: u32 },
    InsertAfter { after: Option<CompactId> },
    Paste { index: u32 },
    PasteAfter { after: Option<CompactId> },
}

impl CompactPut {
    /// The request that puts this text there. An insert puts the first atom alone.
    pub fn request(&self, text: &Run) -> Option<Request>
        ensures { result ≡ put_of text.now self.now }
    {
        match *self {
            CompactPut::Insert { index } => {
                let atom = text.atom(0)?;
                Some(Request::Insert { index, atom })
            }
            CompactPut::InsertAfter { after } => {
                let atom = text.atom(0)?;
                let after = whole_id(after);
                Some(Request::InsertAfter { after, atom })
            }
            CompactPut::Paste { index } => Some(Request::Paste { index, run: *text }),
            CompactPut::PasteAfter { after } => Some(Request::PasteAfter {
                after: whole_id(after),
                run: *text,
            }),
        }
    }
}

/// The identity, made compact.
pub fn compact_id(id: Option<AtomId>) -> Option<CompactId>
    ensures { result ≡ id }
{
    id.map(CompactId::of)
}

// The identity that it stands for.
fn whole_id(id: Option<CompactId>) -> Option<AtomId>
    ensures { result ≡ id }
{
    id.map(|id| id.id())
}
