//! Peers that are heard, and what ends as one began again.
ghost use Rattle.std.specs.Prelude.{◌≡◌, ◌++◌, ◌∷◌, true, if◌then◌else◌, None, Ok, Err, IfOk, IfSome, IfNone, OnOk, OnErr};
ghost use Rattle.std.specs.FinMap as finite;
ghost use Rattle.sd_session.specs.Peers.{Saw, may_hold};
ghost use Rattle.someip_node_rules.specs.declared.drops.DropReason.TheVariants.{PeersFull};
ghost use Rattle.someip_node_rules.specs.declared.output.Output.TheVariants.{Rebooted};
ghost use Rattle.someip_node_rules.specs.histories.Items.{changed, PeerRebooted};
ghost use Rattle.someip_node_rules.specs.rules.Learning.{reboot_endings};
ghost use Rattle.someip_node_rules.specs.rules.Plans.{act, plain, run, Drops, Hears};
ghost use Rattle.someip_node_engine.specs.Working.{working};

use crate::endings::tell_endings;
use crate::engine::Engine;
use crate::outputs::Giving;
use sd_session::{Channel, PeerTable, Seen, SessionError, Stamp};
use someip_node_rules::{DropReason, Output};
use someip_tp::Reassembly;
use std::alloc::AllocError;
use std::net::Ipv4Addr;

impl<R: Reassembly> Engine<R> {
    /// A message of Service Discovery comes with this stamp: its peer is heard, where there is room
    /// for it, and the message is dropped where there is none. Says whether there is.
    #[tactic(auto, using(crate::proofs::HearingLemmas::peer_heard))]
    pub(crate) fn hear(
        &mut self,
        peer: Ipv4Addr,
        channel: Channel,
        stamp: Stamp,
        giving: &mut Giving,
    ) -> Result<bool, AllocError>
        ensures room { IfOk result (λ has_room. has_room
            ≡ may_hold self.old.config.common.peers self.old.peers peer) }
        ensures heard { IfOk result (λ has_room. working self.new giving.new
            ≡ run plain (if has_room then act (Hears peer channel stamp) else act (Drops PeersFull))
            (working self.old giving.old)) }
        ensures config { self.new.config ≡ self.old.config }
    {
        match seen(&mut self.peers, peer, channel, stamp)? {
            Some(Seen::Same) => Ok(true),
            Some(Seen::Rebooted) => {
                self.forget_peer(peer, &mut giving.outputs)?;
                Ok(true)
            }
            None => {
                giving.dropped(DropReason::PeersFull)?;
                Ok(false)
            }
        }
    }

    /// The known offers of a peer that began again end, the node's subscriptions at it, and those that it
    /// made at the node. Calls and requests that wait stay, and so does what has come of messages.
    fn forget_peer(&mut self, peer: Ipv4Addr, outputs: &mut Vec<Output>) -> Result<(), AllocError>
        ensures tables { OnOk result (self.new ≡ changed self.old (PeerRebooted peer)) }
        ensures outputs { OnOk result (outputs.new.items
            ≡ outputs.old.items ++ Rebooted peer ∷ reboot_endings peer self.old) }
        ensures config { self.new.config ≡ self.old.config }
    {
        outputs.push(Output::Rebooted { peer })?;
        let gone = self.seeker.peer_reboot(peer, self.clock)?;
        let ended = self.subscriptions.peer_reboot(peer)?;
        self.subscribers.peer_reboot(peer);
        tell_endings(&self.config, &gone, &ended, outputs)?;
        Ok(())
    }
}

/// Enters a message of a peer in the table of peers, and says what it tells of the peer, or that there is
/// no room for it. Memory runs out only for a new peer for which there is room.
fn seen(
    peers: &mut PeerTable,
    peer: Ipv4Addr,
    channel: Channel,
    stamp: Stamp,
) -> Result<Option<Seen>, AllocError>
    ensures entered { IfOk result (λ seen. IfSome seen (λ told. Saw peers.old.limit peer channel stamp
        peers.old.held (Ok told) peers.new.held)) }
    ensures full { IfOk result (λ seen. IfNone seen (Saw peers.old.limit peer channel stamp
        peers.old.held (Err SessionError.PeersFull) peers.new.held)) }
    ensures room { OnErr result (may_hold peers.old.limit peers.old.held peer ≡ true) }
    ensures is_new { OnErr result (finite.get peers.old.held peer ≡ None) }
    ensures limit { peers.new.limit ≡ peers.old.limit }
{
    match peers.saw(peer, channel, stamp.session, stamp.reboot) {
        Ok(seen) => Ok(Some(seen)),
        Err(SessionError::PeersFull) => Ok(None),
        Err(SessionError::OutOfMemory) => Err(AllocError),
    }
}
