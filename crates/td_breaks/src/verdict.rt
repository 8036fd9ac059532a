ghost use Rattle.std.specs.Prelude.{◌≡◌, ◌↔◌, true, IfOk, IsTrue};
ghost use Rattle.std.specs.List.{concat};
ghost use Rattle.unicode_segmentation.specs.Grapheme.{graphemes};
ghost use Rattle.td_breaks.specs.declared.verdict.Verdict.TheVariants.{Same};

use crate::sample::{before_comment, clusters_of, sample_of, text_of};
use std::alloc::Global;
use td_text::{AtomList, CutFault, cut};

/// What comes of a line.
#[derive(Debug, Drop)]
pub(crate) enum Verdict {
    /// The line is empty, or a comment.
    NoSample,
    /// The line is neither that nor a sample.
    Unreadable,
    /// The text is cut where the sample breaks.
    Same,
    /// The text is cut as in this sample.
    Otherwise(String),
}

/// Reads the line, and cuts the text of its sample.
pub(crate) fn judge(alloc: Global, line: &str) -> Result<Verdict, CutFault> {
    let sample = before_comment(line);
    if sample.is_empty() {
        return Ok(Verdict::NoSample);
    }
    match clusters_of(alloc, sample)? {
        Some(clusters) => compare(alloc, &clusters),
        None => Ok(Verdict::Unreadable),
    }
}

// Cuts the text that the clusters make up, and compares.
fn compare(alloc: Global, clusters: &AtomList) -> Result<Verdict, CutFault>
    ensures { IfOk result (λ verdict. (verdict ≡ Same) ↔ (graphemes true (concat clusters.now) ≡ clusters.now)) }
{
    let text = text_of(alloc, clusters)?;
    let atoms = cut(alloc, &text)?;
    if are_same(&atoms, clusters) {
        return Ok(Verdict::Same);
    }
    let found = sample_of(alloc, &atoms)?;
    Ok(Verdict::Otherwise(found))
}

// Whether the lists have the same atoms.
fn are_same(a: &AtomList, b: &AtomList) -> bool
    ensures { IsTrue result ↔ (a.now ≡ b.now) }
{
    a.lengths() == b.lengths() && a.bytes() == b.bytes()
}
