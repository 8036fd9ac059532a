// All lines are done with no room.
ghost use Rattle.std.specs.Prelude.{◌≡◌, ◌≤◌, length, IfOk};
ghost use Rattle.std.specs.List.{AllByRecursion};
ghost use Rattle.td_base.specs.declared.site.TheConstants.{MAX_SITE};
ghost use Rattle.td_script.specs.Script.{IsSiteOf};
ghost use Rattle.td_live.specs.Live.{IsTraceAmong};
ghost use Rattle.td_live.specs.Alone.{new_books};

use crate::book::Book;
use crate::ending::wind_up;
use std::alloc::Global;
use td_base::{Bytes, Memory, Site};
use td_doc::Doc;
use td_script::EditorLines;
use td_world::World;

/// Does all lines of editors at these sites, among so many, one editor after the other. The trace of what that comes
/// to.
pub(crate) fn conclude_alone<D: Doc>(
    alloc: Global,
    sites: u8,
    homes: &[Site],
    lines: Vec<EditorLines>,
) -> Result<Bytes, Memory>
    requires some { 1 ≤ sites }
    requires few { sites ≤ MAX_SITE }
    requires homes { AllByRecursion (IsSiteOf sites) homes.now }
    requires each { length lines.items ≡ length homes.now }
    ensures { IfOk result (IsTraceAmong sites homes.now lines.items) }
{
    let books = open_books(alloc, homes, lines)?;
    let world = World::<D>::new(alloc, sites)?;
    let bytes = wind_up(alloc, world, sites, books)?;
    Ok(bytes)
}

// A book of each editor.
fn open_books(alloc: Global, homes: &[Site], lines: Vec<EditorLines>) -> Result<Vec<Book>, Memory>
    requires { length lines.items ≡ length homes.now }
    ensures { IfOk result (λ books. books.items ≡ new_books homes.now lines.items) }
{
    let mut lines = lines;
    let mut books = Vec::new(alloc);
    for home in homes {
        books.push(Book::new(alloc, *home, lines.remove(0)))?;
    }
    Ok(books)
}
