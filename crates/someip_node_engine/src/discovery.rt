//! Messages of Service Discovery that come.
ghost use Rattle.std.specs.Prelude.{◌≡◌, map, OnOk};
ghost use Rattle.someip_wire.specs.View.{view};
ghost use Rattle.sd_wire.specs.contents.Values.{view_read, view_sd};
ghost use Rattle.someip_node_rules.specs.rules.Handling.{discovery_plan, entries_plan, heard_plan};
ghost use Rattle.someip_node_rules.specs.rules.Handling.{is_valid_discovery};
ghost use Rattle.someip_node_rules.specs.forms.Receivers.{messages_plan_to};
ghost use Rattle.someip_node_rules.specs.declared.receiver.Receiver.TheVariants.{Peer};
ghost use Rattle.someip_node_rules.specs.rules.Plans.{plain, replying, run};
ghost use Rattle.someip_node_engine.specs.Working.{working};

use crate::engine::Engine;
use crate::outputs::Giving;
use sd_session::{Channel, Stamp};
use sd_wire::{ReadEntry, SdError, SdRead, read_sd};
use someip_node_rules::{DropReason, Receiver};
use someip_tp::Reassembly;
use someip_wire::{Header, Message};
use std::alloc::AllocError;
use std::mem;
use std::net::Ipv4Addr;

impl<R: Reassembly> Engine<R> {
    /// A message comes to Service Discovery.
    pub(crate) fn discovery_came(
        &mut self,
        peer: Ipv4Addr,
        channel: Channel,
        message: &Message<'_>,
        giving: &mut Giving,
    ) -> Result<(), AllocError>
        ensures work { OnOk result (working self.new giving.new
            ≡ run plain (discovery_plan peer channel (view message.now))
            (working self.old giving.old)) }
        ensures config { self.new.config ≡ self.old.config }
    {
        if !is_valid_discovery(&message.header) {
            return giving.dropped(DropReason::NotSd);
        }
        match SdError::apart(read_sd(self.alloc, message.payload))? {
            Ok(read) => self.heard(peer, channel, message.header.session, &read, giving),
            Err(fault) => giving.dropped(DropReason::Sd(fault)),
        }
    }

    /// A message was read: its peer is heard, and then its entries are taken.
    fn heard(
        &mut self,
        peer: Ipv4Addr,
        channel: Channel,
        session: u16,
        read: &SdRead,
        giving: &mut Giving,
    ) -> Result<(), AllocError>
        ensures work { OnOk result (working self.new giving.new
            ≡ run plain (heard_plan peer channel session (view_sd read.now))
            (working self.old giving.old)) }
        ensures config { self.new.config ≡ self.old.config }
    {
        let stamp = Stamp {
            session,
            reboot: read.flags.reboot,
        };
        if self.hear(peer, channel, stamp, giving)? {
            self.answered_entries(peer, &read.entries, giving)?;
        }
        Ok(())
    }

    /// The entries of a message come, and the replies to them go out.
    fn answered_entries(
        &mut self,
        peer: Ipv4Addr,
        entries: &[ReadEntry],
        giving: &mut Giving,
    ) -> Result<(), AllocError>
        ensures work { OnOk result (working self.new giving.new
            ≡ run plain (entries_plan peer (map view_read entries.now))
            (working self.old giving.old)) }
        ensures config { self.new.config ≡ self.old.config }
    {
        self.entries(peer, entries, giving)?;
        self.reply(peer, giving)
    }

    /// The replies so far go out.
    fn reply(&mut self, peer: Ipv4Addr, giving: &mut Giving) -> Result<(), AllocError>
        ensures work { OnOk result (working self.new giving.new
            ≡ run plain (replying (messages_plan_to (Peer peer))) (working self.old giving.old)) }
        ensures config { self.new.config ≡ self.old.config }
    {
        let replies = mem::replace(&mut giving.replies, Vec::new(self.alloc));
        self.send_entries(Receiver::Peer(peer), &replies, giving)
    }
}

/// Whether this is the header of a message of Service Discovery that its sender counted.
fn is_valid_discovery(header: &Header) -> bool
    ensures { result ≡ is_valid_discovery header.now }
{
    header.is_discovery() && header.session != 0
}
