ghost use Rattle.std.specs.Prelude.{◌≡◌, length};
ghost use Rattle.td_doc.specs.Document.{live_rows};
ghost use Rattle.td_tree.specs.Parts.{doc_rows, nodes_of, tokens};

use std::fmt;
use td_doc::Doc;
use td_tree::Tree;

/// How many rows a document has, how many of them are live, and how many are nodes.
#[derive(Clone, Copy, Debug, PartialEq, Eq)]
pub(crate) struct Tally {
    rows: u32,
    live: u32,
    nodes: u32,
}

/// Counts the rows.
pub(crate) fn count(doc: &Tree) -> Tally
    ensures { result ≡ record {
      rows = length (doc_rows doc.now);
      live = length (live_rows (doc_rows doc.now));
      nodes = nodes_of (tokens doc.now);
    } }
{
    Tally {
        rows: doc.rows(),
        live: doc.live(),
        nodes: doc.nodes(),
    }
}

impl fmt::Display for Tally {
    fn fmt<W: fmt::Write>(&self, f: &mut fmt::Formatter<W>) -> fmt::Result {
        write!(
            f,
            "{} rows, {} live, {} nodes",
            self.rows, self.live, self.nodes
        )
    }
}
