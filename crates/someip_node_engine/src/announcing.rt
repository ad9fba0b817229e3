//! Messages of Service Discovery that are sent.
ghost use Rattle.std.specs.Prelude.{◌≡◌, ◌≤◌, ◌^◌, map, length, IfOk, OnOk};
ghost use Rattle.std.specs.FinMap as finite;
ghost use Rattle.someip_tables.specs.Endpoints.{address_cmp};
ghost use Rattle.someip_tables.specs.Tables.{map_of};
ghost use Rattle.someip_wire.specs.Spelling.{spelling};
ghost use Rattle.sd_wire.specs.contents.Values.{view_entry};
ghost use Rattle.sd_wire.specs.fronts.Fronts.{front_lengths, fronts_of};
ghost use Rattle.sd_session.specs.Sessions.{following};
ghost use Rattle.someip_node_rules.specs.forms.Entries.{discovery_header, discovery_message, discovery_payload};
ghost use Rattle.someip_node_engine.specs.FrontSizes.{AreWithin};
ghost use Rattle.someip_node_rules.specs.histories.Items.{changed, PeerAddressed};
ghost use Rattle.someip_node_rules.specs.rules.Plans.{act, each, plain, run, Announces, RepliesTo};
ghost use Rattle.someip_node_rules.specs.forms.Receivers.{message_plan_to, messages_plan_to};
ghost use Rattle.someip_node_rules.specs.forms.Setups.{discovery_endpoint};
ghost use Rattle.someip_node_rules.specs.histories.Tables.{stamp_for};
ghost use Rattle.someip_node_engine.specs.Working.{working};

use crate::engine::Engine;
use crate::outputs::Giving;
use crate::own_config::own_endpoint;
use sd_session::{Counter, Stamp};
use sd_wire::{Entry, SdError, SdFlags, SdMessage, split_entries, write_sd};
use someip_node_rules::{Config, Output, Payload, Receiver};
use someip_tp::{Reassembly, append_message};
use someip_wire::{Header, Message, MessageType, ReturnCode};
use std::alloc::{AllocError, Global};
use std::collections::BTreeMap;
use std::net::{Ipv4Addr, SocketAddrV4};

impl<R: Reassembly> Engine<R> {
    /// Sends entries, in as many messages as are needed.
    pub(crate) fn send_entries(
        &mut self,
        receiver: Receiver,
        entries: &[Entry],
        giving: &mut Giving,
    ) -> Result<(), AllocError>
        ensures work { OnOk result (working self.new giving.new
            ≡ run plain (messages_plan_to receiver (map view_entry entries.now))
            (working self.old giving.old)) }
        ensures config { self.new.config ≡ self.old.config }
    {
        let lengths = lengths_of_fronts(self.alloc, entries)?;
        self.send_fronts(receiver, &lengths, entries, giving)
    }

    /// Sends fronts of these lengths, one message each.
    fn send_fronts(
        &mut self,
        receiver: Receiver,
        lengths: &[usize],
        entries: &[Entry],
        giving: &mut Giving,
    ) -> Result<(), AllocError>
        requires { AreWithin lengths.now (length entries.now) }
        ensures work { OnOk result (working self.new giving.new ≡ run plain
            (each (message_plan_to receiver) (fronts_of lengths.now (map view_entry entries.now)))
            (working self.old giving.old)) }
        ensures config { self.new.config ≡ self.old.config }
    {
        let mut rest = entries;
        for length in lengths {
            let (front, behind) = rest.split_at(*length);
            self.send_message(receiver, front, giving)?;
            rest = behind;
        }
        Ok(())
    }

    /// Sends one message with entries.
    pub(crate) fn send_message(
        &mut self,
        receiver: Receiver,
        entries: &[Entry],
        giving: &mut Giving,
    ) -> Result<(), AllocError>
        requires { length entries.now ≤ 65535 }
        ensures work { OnOk result (working self.new giving.new
            ≡ run plain (message_plan_to receiver (map view_entry entries.now))
            (working self.old giving.old)) }
        ensures config { self.new.config ≡ self.old.config }
    {
        match receiver {
            Receiver::Group => self.announce(entries, giving),
            Receiver::Peer(peer) => self.reply_to(peer, entries, giving),
        }
    }

    /// Sends one message with entries to the group.
    fn announce(&mut self, entries: &[Entry], giving: &mut Giving) -> Result<(), AllocError>
        requires { length entries.now ≤ 65535 }
        ensures work { OnOk result (working self.new giving.new
            ≡ run plain (act (Announces (map view_entry entries.now)))
            (working self.old giving.old)) }
        ensures config { self.new.config ≡ self.old.config }
    {
        let to = SocketAddrV4::new(self.config.common.group, Config::DISCOVERY_PORT);
        let (session, reboot) = self.multicast.next();
        let stamp = Stamp { session, reboot };
        let bytes = discovery_bytes(self.alloc, stamp, entries)?;
        let from = self.discovery_endpoint();
        giving.outputs.push(Output::Sent { from, to, bytes })?;
        Ok(())
    }

    /// Sends one message with entries to a peer.
    fn reply_to(
        &mut self,
        peer: Ipv4Addr,
        entries: &[Entry],
        giving: &mut Giving,
    ) -> Result<(), AllocError>
        requires { length entries.now ≤ 65535 }
        ensures work { OnOk result (working self.new giving.new
            ≡ run plain (act (RepliesTo peer (map view_entry entries.now)))
            (working self.old giving.old)) }
        ensures config { self.new.config ≡ self.old.config }
    {
        let to = SocketAddrV4::new(peer, Config::DISCOVERY_PORT);
        let stamp = self.next_stamp(peer)?;
        let bytes = discovery_bytes(self.alloc, stamp, entries)?;
        let from = self.discovery_endpoint();
        giving.outputs.push(Output::Sent { from, to, bytes })?;
        Ok(())
    }

    /// The stamp of the next message to a peer.
    fn next_stamp(&mut self, peer: Ipv4Addr) -> Result<Stamp, AllocError>
        ensures stamp { IfOk result (λ stamp. stamp ≡ stamp_for self.old.unicast peer) }
        ensures counts { OnOk result (self.new ≡ changed self.old (PeerAddressed peer)) }
        ensures config { self.new.config ≡ self.old.config }
    {
        next_stamp(&mut self.unicast, peer)
    }

    /// The node's endpoint of Service Discovery.
    fn discovery_endpoint(&self) -> SocketAddrV4
        ensures { result ≡ discovery_endpoint self.now.config }
    {
        own_endpoint(&self.config, Config::DISCOVERY_PORT)
    }
}

/// The stamp of the next message to a peer.
fn next_stamp(
    unicast: &mut BTreeMap<Ipv4Addr, Counter>,
    peer: Ipv4Addr,
) -> Result<Stamp, AllocError>
    ensures stamp { IfOk result (λ stamp.
        stamp ≡ stamp_for (map_of address_cmp unicast.old.entries) peer) }
    ensures counts { OnOk result (map_of address_cmp unicast.new.entries
        ≡ finite.insert (map_of address_cmp unicast.old.entries) peer
        (following (stamp_for (map_of address_cmp unicast.old.entries) peer))) }
{
    let mut counter = counter_for(unicast, peer);
    let (session, reboot) = counter.next();
    unicast.insert(peer, counter)?;
    Ok(Stamp { session, reboot })
}

/// The counter of the messages to a peer.
fn counter_for(unicast: &BTreeMap<Ipv4Addr, Counter>, peer: Ipv4Addr) -> Counter
    ensures { result ≡ stamp_for (map_of address_cmp unicast.now.entries) peer }
{
    match unicast.get(&peer) {
        Some(counter) => *counter,
        None => Counter::new(),
    }
}

/// The lengths of the fronts of entries that fit a message each.
fn lengths_of_fronts(alloc: Global, entries: &[Entry]) -> Result<Vec<usize>, AllocError>
    ensures lengths { IfOk result (λ lengths. lengths.items
        ≡ front_lengths (map view_entry entries.now)) }
    ensures within { IfOk result (λ lengths. AreWithin lengths.items (length entries.now)) }
{
    match split_entries(alloc, entries) {
        Ok(lengths) => Ok(lengths),
        Err(_) => Err(AllocError),
    }
}

/// The bytes of a message with entries.
fn discovery_bytes(alloc: Global, stamp: Stamp, entries: &[Entry]) -> Result<Payload, AllocError>
    requires { length entries.now ≤ 65535 }
    ensures { IfOk result (λ bytes. bytes
        ≡ spelling (discovery_message stamp (map view_entry entries.now))) }
{
    let payload = discovery_payload(alloc, stamp.reboot, entries)?;
    let message = Message {
        header: discovery_header(stamp.session),
        payload: &payload,
    };
    let mut bytes = Vec::new(alloc);
    append_message(&message, &mut bytes)?;
    Ok(Payload::from_vec(bytes))
}

/// The payload of a message with entries.
fn discovery_payload(alloc: Global, reboot: bool, entries: &[Entry]) -> Result<Vec<u8>, AllocError>
    requires { length entries.now ≤ 65535 }
    ensures payload { IfOk result (λ payload. payload.items
        ≡ discovery_payload reboot (map view_entry entries.now)) }
    ensures bounded { IfOk result (λ payload. length payload.items ≤ 2 ^ 25) }
{
    let flags = SdFlags {
        reboot,
        unicast: true,
    };
    let mut payload = Vec::new(alloc);
    match write_sd(&SdMessage { flags, entries }, &mut payload) {
        Err(SdError::OutOfMemory) => Err(AllocError),
        // Entries with too many options have no bytes. A node sends none of these: the law
        // `what_is_given_fits` of someip_node_laws.
        _ => Ok(payload),
    }
}

/// The header of a message of Service Discovery.
fn discovery_header(session: u16) -> Header
    ensures { result ≡ discovery_header session }
{
    Header {
        service: Header::DISCOVERY_SERVICE,
        method: Header::DISCOVERY_METHOD,
        client: 0,
        session,
        interface: Header::DISCOVERY_INTERFACE,
        kind: MessageType::Notification,
        code: ReturnCode::E_OK,
    }
}
