//! What stands between a replica and the widget of an editor: nothing that a replica shows is missed.
//!
//! An `Editor` is a replica with a screen. A screen is whatever hears of each change of the atoms shown: a list of
//! atoms (`Page`), a list of the changes that a widget elsewhere has still to make (`Feed`), or a widget of your own,
//! by the trait `Screen`. Each call does its steps of the machine and hands each change on, once and in order; so the
//! screen shows the atoms of the replica, always. Where there is no memory a step is not done at all, and what was
//! done before it was handed on.
//!
//! Begin at `editor` and at `specs/Editors.antt`; `screen` has the trait, `receiving` what becomes of a packet, and
//! `sending` what is sent. `laws` has what changes come to, and that editors which exchange packets keep the promises
//! of replicas. docs/EMBEDDING.md goes through a program that uses it.
#![tactic(auto)]

mod editor;
mod feed;
mod laws;
mod page;
mod received;
mod receiving;
mod screen;
mod sending;

pub use editor::Editor;
pub use feed::Feed;
pub use laws::{changes_are_in_range, changes_lead_on, editors_converge};
pub use page::Page;
pub use received::Received;
pub use screen::Screen;
