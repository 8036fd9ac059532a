//! What a worker keeps for another worker: the two links between them, the message that waits, and what is sent.
//!
//! Begin at `peer`. What is taken is in `hearing`, what is sent in `telling`, how the links begin in
//! `opening` and how they end in `meeting`. What
//! contracts see is in `specs/Peers.antt`, how it stands to the own replica in `specs/Serving.antt`.
#![tactic(auto)]

mod hearing;
mod laws;
mod loss;
mod meeting;
mod opening;
mod parcel;
mod peer;
mod row;
mod telling;

pub use laws::{
    fresh_peers_owe_nothing, linked_peers_stay_linked, no_packet_was_there,
    nothing_is_left_to_send, peers_serve_on,
};
pub use loss::Loss;
pub use meeting::meet_all;
pub use opening::{PLACES, open_rows};
pub use parcel::Parcel;
pub use peer::Peer;
pub use row::Row;
