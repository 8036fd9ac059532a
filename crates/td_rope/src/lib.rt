//! A text in chunks: a rope (Boehm, Atkinson and Plass, 1995). Its atoms stand one after another, their bytes in chunks
//! of some hundred bytes, and the chunks in rows.
//!
//! An edit costs a chunk, and the walk to it one step for each row and for each chunk of a row. An atom by its index
//! costs that walk. The whole text and a stretch of it are added to a list of bytes in one pass. Contracts see the list
//! of the atoms. Begin at `rope`; `part` says what a chunk and a row have in common.
//!
//! Editors and languages count a text in bytes, in units of UTF-16 or in code points (`unit`). Each chunk and each row
//! keeps how wide it is in all three (`size`), so that the way from an offset to an atom and back costs the same walk.
//! `laws` says that these widths are the Unicode Standard's, and that the way leads back.
#![tactic(auto)]

mod chunk;
mod crossing;
mod cutting;
mod laws;
mod part;
mod piece;
mod rope;
mod row;
mod seat;
mod size;
mod stretch;
mod unit;

pub use laws::{an_offset_has_one_index, an_offset_leads_back, widths_count_units};
pub use rope::Rope;
pub use unit::Unit;
