// What a worker takes from another one.
ghost use Rattle.std.specs.Prelude.{◌≡◌, ◌<◌, ◌≤◌, ◌+◌, length, false, Some, None, OnOk};
ghost use Rattle.td_op.specs.declared.input.Input.TheVariants.{Take};
ghost use Rattle.td_op.specs.declared.message.Message.{Message};
ghost use Rattle.td_machine.specs.History.{known_of};
ghost use Rattle.td_op.specs.Message.{sender};
ghost use Rattle.td_machine.specs.Machine.{made};
ghost use Rattle.td_site.specs.Later.{NothingReady};
ghost use Rattle.td_peer.specs.Serving.{TookOrEmpty};
ghost use Rattle.td_room.specs.Later.{Heard};

use std::sync::Wait;
use td_base::Memory;
use td_doc::Doc;
use td_op::Input;
use td_peer::Peer;
use td_site::Site;

// Gives the replica the message that waits, as soon as that may be; then takes at most one packet, and gives the
// replica what it says. After each, what waited in the replica for it.
pub(crate) fn hear<D: Doc, R: Wait>(
    rt: &R,
    site: &mut Site<D>,
    peer: &mut Peer,
) -> Result<(), Memory>
    requires own { peer.old.own ≡ site.old.replica.machine.site }
    requires late { site.old.late ≡ false }
    requires ready { NothingReady site.old.replica.machine }
    ensures heard { Heard site.old peer.old site.new peer.new }
    ensures late { OnOk result (site.new.late ≡ false) }
    ensures ready { OnOk result (NothingReady site.new.replica.machine) }
    ensures kept { OnOk result ((m : Message) → peer.new.waiting ≡ Some m
        → made site.new.replica.machine < known_of peer.new.own m) }
    ensures took { OnOk result (TookOrEmpty peer.old peer.new) }
    ensures one { length peer.new.inbox.taken ≤ length peer.old.inbox.taken + 1 }
{
    give(rt, site, peer)?;
    peer.take_packet(rt);
    give(rt, site, peer)
}

// Gives the replica the message that waits, where that may be.
pub(crate) fn give<D: Doc, R: Wait>(
    rt: &R,
    site: &mut Site<D>,
    peer: &mut Peer,
) -> Result<(), Memory>
    requires own { peer.old.own ≡ site.old.replica.machine.site }
    requires late { site.old.late ≡ false }
    requires ready { NothingReady site.old.replica.machine }
    ensures heard { Heard site.old peer.old site.new peer.new }
    ensures inbox { peer.new.inbox ≡ peer.old.inbox }
    ensures late { OnOk result (site.new.late ≡ false) }
    ensures ready { OnOk result (NothingReady site.new.replica.machine) }
    ensures kept { OnOk result ((m : Message) → peer.new.waiting ≡ Some m
        → made site.new.replica.machine < known_of peer.new.own m) }
    ensures stays { (m : Message) → peer.old.waiting ≡ Some m → made site.old.replica.machine < known_of peer.old.own m
        → peer.new ≡ peer.old }
{
    if let Some(message) = peer.due(site.replica()) {
        take(site, peer, &Input::Take(message))?;
        site.catch_up(rt)?;
    }
    Ok(())
}

// Gives the replica this message, which waits.
fn take<D: Doc>(site: &mut Site<D>, peer: &mut Peer, input: &Input) -> Result<(), Memory>
    requires own { peer.old.own ≡ site.old.replica.machine.site }
    requires late { site.old.late ≡ false }
    requires waits { (m : Message) × (input.now ≡ Take m) × (peer.old.waiting ≡ Some m)
        × (sender m ≡ peer.old.site) × (known_of peer.old.own m ≤ made site.old.replica.machine) }
    ensures heard { Heard site.old peer.old site.new peer.new }
    ensures inbox { peer.new.inbox ≡ peer.old.inbox }
    ensures done { OnOk result (peer.new.waiting ≡ None) }
{
    let _ = site.replica().entries();
    input.is_in_range();
    site.step(input)?;
    peer.done();
    Ok(())
}
