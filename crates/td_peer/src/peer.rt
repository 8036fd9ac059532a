use crate::loss::Loss;
use crate::parcel::Parcel;
use std::marker::Model;
use td_base::Site;
use td_link::{Rx, Tx};
use td_op::Message;

/// What the worker of one site keeps for that of another one. Contracts see a `PeerState`.
#[derive(Drop)]
pub struct Peer {
    pub(crate) own: Site,
    pub(crate) site: Site,
    pub(crate) inbox: Rx<Parcel>,
    pub(crate) outbox: Tx<Parcel>,
    // what was taken last, while it is not given to the replica
    pub(crate) waiting: Option<Message>,
    // so many messages of the replica are dealt with, and so many of these are for the other site
    pub(crate) dealt: u64,
    pub(crate) addressed: u64,
    // the next has been sent once, and is to be sent again
    pub(crate) again: bool,
    pub(crate) loss: Loss,
}

impl Model for Peer {
    ghost use Rattle.td_peer.specs.Peers.{PeerState, IsPeer};

    ghost Value = { PeerState };

    ghost view = { λ p. record {
      own = p.own;
      site = p.site;
      inbox = p.inbox;
      outbox = p.outbox;
      waiting = p.waiting;
      dealt = p.dealt;
      addressed = p.addressed;
      again = p.again;
      loss = p.loss;
    } };

    ghost invariant = { λ p. IsPeer p.own p.site p.inbox p.outbox p.waiting p.dealt p.addressed };
}
