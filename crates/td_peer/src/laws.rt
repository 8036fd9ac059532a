// What holds of peers, each law as the contract of a function with an empty body.
ghost use Rattle.std.specs.Prelude.{◌≡◌, ◌++◌, [], ℕ, List, length};
ghost use Rattle.td_op.specs.declared.message.Message.{Message};
ghost use Rattle.td_link.specs.Moments.{WasEmpty};
ghost use Rattle.td_law_meeting.specs.Thin.{Loss, thin, messages_to};
ghost use Rattle.td_law_meeting.specs.Peers.{ArePackets, Hears, new_peer};
ghost use Rattle.td_peer.specs.Peers.{PeerState, peer_of, packets, AreLinked};
ghost use Rattle.td_peer.specs.Serving.{Serves, LaterPeer, TakesNext};
ghost use Rattle.td_peer.specs.Opening.{IsNewPeer};

/// Where nothing was sent either way a peer has taken what no history takes, and serves any replica.
#[tactic(auto, using(crate::proofs::Later::fresh_is_new, crate::proofs::Later::fresh_serves, crate::proofs::Later::fresh_hears))]
pub fn fresh_peers_owe_nothing()
    ensures peer { (one other places : ℕ) (loss : Loss) (p : PeerState) → IsNewPeer one other places loss p
        → peer_of p ≡ new_peer other loss }
    ensures serves { (one other places : ℕ) (loss : Loss) (p : PeerState) (sent : List Message)
        → IsNewPeer one other places loss p → Serves sent p }
    ensures hears { (one other places : ℕ) (loss : Loss) (p : PeerState) → IsNewPeer one other places loss p
        → Hears [] (peer_of p) }
{}

/// A peer that serves a replica still serves it when the replica has sent more.
#[tactic(auto, using(crate::proofs::Later::serves_more))]
pub fn peers_serve_on()
    ensures { (sent more : List Message) (p : PeerState) → Serves sent p → Serves (sent ++ more) p }
{}

/// Where all messages of the replica are dealt with, what was sent is `thin` of those for the peer.
#[tactic(auto, using(crate::proofs::Later::all_sent))]
pub fn nothing_is_left_to_send()
    ensures { (sent : List Message) (p : PeerState) → Serves sent p → p.dealt ≡ length sent
        → ArePackets (thin p.loss 1 (messages_to p.site sent)) (packets p.outbox.sent) }
{}

/// Where the next packet was to be taken, and none was, the link was empty at a moment, whatever became of a message
/// that waits.
#[tactic(auto, using(crate::proofs::Taking::took_next))]
pub fn no_packet_was_there()
    ensures { (before taken after : PeerState) → TakesNext before taken → after.inbox.taken ≡ taken.inbox.taken
        → after.inbox.taken ≡ before.inbox.taken → WasEmpty before.inbox.taken }
{}

/// Peers that were linked stay linked.
#[tactic(auto, using(crate::proofs::Later::later_then, crate::proofs::Later::linked_later))]
pub fn linked_peers_stay_linked()
    ensures later { (p q r : PeerState) → LaterPeer p q → LaterPeer q r → LaterPeer p r }
    ensures linked { (p q r s : PeerState) → LaterPeer p r → LaterPeer q s → AreLinked p q → AreLinked r s }
{}
