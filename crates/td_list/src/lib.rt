//! A list with handles: each item has a name, a small number, by which its place is found (the order-maintenance
//! problem of Dietz and Sleator, 1987, solved by chunks of bounded length).
//!
//! A list puts pieces before a named item, replaces a stretch between two items, tells which of two items stands
//! first, and finds an item by its weight or the weight before an item, each in a few scans of a chunk. The chunks
//! stand in an order that is again such a list; the order of the chunks of items is told the weight of a chunk that
//! changes again and again once another changes (`deferred`). What is typed waits in a gap buffer, and is put into a
//! chunk together (`buffered`). Begin at `sequence`, which says what a list answers, and
//! at `specs/Items.antt`, which says it in terms of one plain list of items.
#![tactic(auto)]

mod buffered;
mod chunk;
mod chunked;
mod deferred;
mod edit;
mod gap;
mod homes;
mod index;
mod item;
mod line;
mod order;
mod replacement;
mod room;
mod scan;
mod sequence;

pub use buffered::{Buffered, List};
pub use chunked::Chunked;
pub use deferred::Deferred;
pub use edit::put_each;
pub use item::{Item, Share};
pub use line::Line;
pub use room::reserve_by_quarter;
pub use sequence::{Sequence, put_at};
