//! Messages of Service Discovery over the books.
ghost use Rattle.std.specs.Prelude.{◌≡◌, OnErr, OnOk, Some, [], map};
ghost use Rattle.sd_wire.specs.contents.Values.{view_read, view_sd};
ghost use Rattle.someip_audit.specs.SdShown.{IsBegun, begun_again, changed, ended_shown, endpoint_shown};
ghost use Rattle.someip_audit.specs.SdShown.{entries_shown, entry_shown, good_shown, group_shown};
ghost use Rattle.someip_audit.specs.SdShown.{group_taken, head_of, head_shown, offer_noted, offer_shown};
ghost use Rattle.someip_audit.specs.SdShown.{offered_shown, receiver_shown, sd_shown};
ghost use Rattle.someip_audit.specs.SdShown.{server_shown, service_shown, session_shown, stop_shown};
ghost use Rattle.someip_audit.specs.SdShown.{subscribe_shown, taken_shown};
ghost use Rattle.someip_audit.specs.SdEntries.{offers_by};
ghost use Rattle.someip_audit.specs.SdShown.{told_of_options, told_unasked, with_told, working};

use crate::books::Books;
use crate::entries::{
    instance_of, lacks_endpoint, offer_entry, offers_by, receiver_entry, sd_message, served_by,
    server_key, server_offer, subscribe_entry, withdrawn_offer,
};
use crate::finding::Finding;
use audit_endpoints::named_endpoint;
use audit_sd::offers::OfferEntry;
use audit_sd::receivers::{ReceiverEntry, WithdrawnOffer};
use audit_sd::sessions::SdMessage;
use audit_sd::subscriptions::SubscribeEntry;
use sd_wire::{EntryHead, ReadEntry, SdRead, ServiceEntry, ServiceKind};
use someip_reassembly::Reassembly;
use someip_tables::Moment;
use someip_tables::hashed::Origin;
use std::alloc::AllocError;
use std::net::{Ipv4Addr, SocketAddrV4};

impl<S: Reassembly> Books<S> {
    /// Takes note of a message of Service Discovery with this session, and appends what it shows: by its
    /// session and flags first, and then by its entries in order. Where memory runs out, what was
    /// appended is a beginning of that, and nothing else is promised.
    pub(crate) fn saw_sd(
        &mut self,
        now: Moment,
        origin: &Origin,
        session: u16,
        read: &SdRead,
        findings: &mut Vec<Finding>,
    ) -> Result<(), AllocError>
        ensures ok { OnOk result (working self.new findings.new.items
            ≡ sd_shown now origin.now session (view_sd read.now) (working self.old findings.old.items)) }
        ensures err { OnErr result (IsBegun findings.old.items findings.new.items
            (sd_shown now origin.now session (view_sd read.now) (working self.old findings.old.items)).told) }
    {
        self.saw_session(sd_message(now, origin, session, read.flags), findings)?;
        self.saw_entries(now, origin, &read.entries, findings)
    }

    /// The sessions of a message come.
    fn saw_session(
        &mut self,
        message: SdMessage,
        findings: &mut Vec<Finding>,
    ) -> Result<(), AllocError>
        ensures ok { OnOk result (working self.new findings.new.items
            ≡ session_shown message (working self.old findings.old.items)) }
        ensures err { OnErr result (findings.new.items ≡ findings.old.items) }
    {
        let sender = message.from;
        let told = self.sessions.saw(message)?;
        if let Some(audit_sd::sessions::Finding::Reboot) = told {
            self.begin_again(sender);
        }
        match told {
            Some(shown) => tell(findings, Finding::Session(shown)),
            None => Ok(()),
        }
    }

    /// A sender began again.
    fn begin_again(&mut self, address: Ipv4Addr)
        ensures { self.new ≡ begun_again address self.old }
    {
        self.offers.forget(address);
        self.servers.forget(address);
        self.subscriptions.forget(address);
        self.receivers.forget(address);
        self.events.forget(address);
        self.cycles.forget(address);
    }

    /// The entries of a message come.
    fn saw_entries(
        &mut self,
        now: Moment,
        origin: &Origin,
        entries: &[ReadEntry],
        findings: &mut Vec<Finding>,
    ) -> Result<(), AllocError>
        ensures ok { OnOk result (working self.new findings.new.items
            ≡ entries_shown now origin.now (map view_read entries.now) (working self.old findings.old.items)) }
        ensures err { OnErr result (IsBegun findings.old.items findings.new.items
            (entries_shown now origin.now (map view_read entries.now) (working self.old findings.old.items)).told) }
    {
        for entry in entries {
            self.saw_entry(now, origin, entry, findings)?;
        }
        Ok(())
    }

    /// An entry comes: whether it is an Offer is kept, and what its options show is told first.
    fn saw_entry(
        &mut self,
        now: Moment,
        origin: &Origin,
        entry: &ReadEntry,
        findings: &mut Vec<Finding>,
    ) -> Result<(), AllocError>
        ensures ok { OnOk result (working self.new findings.new.items
            ≡ entry_shown now origin.now (view_read entry.now) (working self.old findings.old.items)) }
        ensures err { OnErr result (IsBegun findings.old.items findings.new.items
            (entry_shown now origin.now (view_read entry.now) (working self.old findings.old.items)).told) }
    {
        self.note_offer(entry);
        tell_if_any(findings, told_of_options(entry))?;
        self.take_entry(now, origin, entry, findings)
    }

    /// Keeps whether an Offer was seen.
    fn note_offer(&mut self, entry: &ReadEntry)
        ensures { self.new ≡ offer_noted (view_read entry.now) self.old }
    {
        if is_offered_by(entry) {
            self.is_offered = true;
        }
    }

    /// The books take an entry.
    fn take_entry(
        &mut self,
        now: Moment,
        origin: &Origin,
        entry: &ReadEntry,
        findings: &mut Vec<Finding>,
    ) -> Result<(), AllocError>
        ensures ok { OnOk result (working self.new findings.new.items
            ≡ taken_shown now origin.now (view_read entry.now) (working self.old findings.old.items)) }
        ensures err { OnErr result (IsBegun findings.old.items findings.new.items
            (taken_shown now origin.now (view_read entry.now) (working self.old findings.old.items)).told) }
    {
        match entry {
            ReadEntry::Good(entry) => {
                self.saw_good(now, origin, &entry.head, entry.udp_endpoint(), findings)
            }
            ReadEntry::BadRun(head) => self.saw_head(now, origin, head, None, findings),
        }
    }

    /// An entry comes that may name this endpoint, which is learnt first.
    fn saw_good(
        &mut self,
        now: Moment,
        origin: &Origin,
        head: &EntryHead,
        endpoint: Option<SocketAddrV4>,
        findings: &mut Vec<Finding>,
    ) -> Result<(), AllocError>
        ensures ok { OnOk result (working self.new findings.new.items
            ≡ good_shown now origin.now head.now endpoint (working self.old findings.old.items)) }
        ensures err { OnErr result (IsBegun findings.old.items findings.new.items
            (good_shown now origin.now head.now endpoint (working self.old findings.old.items)).told) }
    {
        self.saw_endpoint(named_endpoint(head, endpoint), findings)?;
        self.saw_head(now, origin, head, endpoint, findings)
    }

    /// An entry names an endpoint, or none.
    fn saw_endpoint(
        &mut self,
        endpoint: Option<SocketAddrV4>,
        findings: &mut Vec<Finding>,
    ) -> Result<(), AllocError>
        ensures ok { OnOk result (working self.new findings.new.items
            ≡ endpoint_shown endpoint (working self.old findings.old.items)) }
        ensures err { OnErr result (findings.new.items ≡ findings.old.items) }
    {
        let Some(endpoint) = endpoint else {
            return Ok(());
        };
        match self.watched.learn(endpoint)? {
            Some(_) => tell(findings, Finding::EndpointsFull),
            None => Ok(()),
        }
    }

    /// An entry comes with this endpoint.
    fn saw_head(
        &mut self,
        now: Moment,
        origin: &Origin,
        head: &EntryHead,
        endpoint: Option<SocketAddrV4>,
        findings: &mut Vec<Finding>,
    ) -> Result<(), AllocError>
        ensures ok { OnOk result (working self.new findings.new.items
            ≡ head_shown now origin.now head.now endpoint (working self.old findings.old.items)) }
        ensures err { OnErr result (IsBegun findings.old.items findings.new.items
            (head_shown now origin.now head.now endpoint (working self.old findings.old.items)).told) }
    {
        match head {
            EntryHead::Service(entry) => self.saw_service(now, origin, entry, endpoint, findings),
            EntryHead::Eventgroup(entry) => {
                self.saw_group(now, subscribe_entry(origin, entry), endpoint, findings)
            }
        }
    }

    /// An entry of an eventgroup comes: that nobody asked for it is told first.
    fn saw_group(
        &mut self,
        now: Moment,
        entry: SubscribeEntry,
        endpoint: Option<SocketAddrV4>,
        findings: &mut Vec<Finding>,
    ) -> Result<(), AllocError>
        ensures ok { OnOk result (working self.new findings.new.items
            ≡ group_shown now entry endpoint (working self.old findings.old.items)) }
        ensures err { OnErr result (IsBegun findings.old.items findings.new.items
            (group_shown now entry endpoint (working self.old findings.old.items)).told) }
    {
        tell_if_any(findings, self.told_unasked(now, &entry))?;
        self.take_group(now, entry, endpoint, findings)
    }

    /// What an entry of an eventgroup is told as that nobody asked for.
    fn told_unasked(&self, now: Moment, entry: &SubscribeEntry) -> Option<Finding>
        ensures { result ≡ told_unasked now entry.now self.now }
    {
        match self.subscriptions.unasked(now, entry) {
            Some(shown) => Some(Finding::Subscription(entry.key, shown)),
            None => None,
        }
    }

    /// The books take an entry of an eventgroup.
    fn take_group(
        &mut self,
        now: Moment,
        entry: SubscribeEntry,
        endpoint: Option<SocketAddrV4>,
        findings: &mut Vec<Finding>,
    ) -> Result<(), AllocError>
        ensures ok { OnOk result (working self.new findings.new.items
            ≡ group_taken now entry endpoint (working self.old findings.old.items)) }
        ensures err { OnErr result (IsBegun findings.old.items findings.new.items
            (group_taken now entry endpoint (working self.old findings.old.items)).told) }
    {
        self.change(&entry, endpoint);
        self.saw_subscribe(now, entry, findings)?;
        self.saw_receiver(now, receiver_entry(&entry, endpoint), findings)
    }

    /// A subscription begins or ends, or goes on.
    fn change(&mut self, entry: &SubscribeEntry, endpoint: Option<SocketAddrV4>)
        ensures { self.new ≡ (changed entry.now endpoint (working self.old [])).held }
    {
        let key = entry.key;
        if self
            .receivers
            .begins_or_ends(&receiver_entry(entry, endpoint))
        {
            self.events.disturb(key.client, key.server, key.service);
        }
        if self.receivers.ends(&receiver_entry(entry, endpoint)) {
            self.cycles
                .unsubscribed(key.server, key.service, key.client);
        }
    }

    /// An entry about an instance comes.
    fn saw_service(
        &mut self,
        now: Moment,
        origin: &Origin,
        entry: &ServiceEntry,
        endpoint: Option<SocketAddrV4>,
        findings: &mut Vec<Finding>,
    ) -> Result<(), AllocError>
        ensures ok { OnOk result (working self.new findings.new.items
            ≡ service_shown entry.now.kind now origin.now entry.now endpoint (working self.old findings.old.items)) }
        ensures err { OnErr result (IsBegun findings.old.items findings.new.items
            (service_shown entry.now.kind now origin.now entry.now endpoint (working self.old findings.old.items)).told) }
    {
        if matches!(entry.kind, ServiceKind::Find) {
            return Ok(());
        }
        let offer = offer_entry(origin, entry, endpoint);
        if entry.ttl.seconds() == 0 {
            self.saw_stop(now, withdrawn_offer(origin, entry), offer, findings)
        } else {
            self.saw_offered(now, offer, findings)
        }
    }

    /// A StopOffer comes, which withdraws this offer.
    fn saw_stop(
        &mut self,
        now: Moment,
        offer: WithdrawnOffer,
        entry: OfferEntry,
        findings: &mut Vec<Finding>,
    ) -> Result<(), AllocError>
        ensures ok { OnOk result (working self.new findings.new.items
            ≡ stop_shown now offer entry (working self.old findings.old.items)) }
        ensures err { OnErr result (findings.new.items ≡ findings.old.items) }
    {
        self.end_server(&entry);
        self.receivers.withdraw(offer);
        self.events.withdraw(offer.server, offer.service);
        self.cycles.withdraw(offer.server, offer.service);
        self.saw_offer(now, entry, findings)
    }

    /// A StopOffer ends the server at the endpoint of the offer that it ends.
    fn end_server(&mut self, entry: &OfferEntry)
        ensures { self.new ≡ (ended_shown entry.now (working self.old [])).held }
    {
        if let Some(offer) = self.offers.ended_by(entry) {
            let server = server_key(entry.key.service, offer.endpoint);
            self.servers.stopped(&server, served_by(&entry.key));
        }
    }

    /// An Offer comes: what the offers show is told first, and then the servers.
    fn saw_offered(
        &mut self,
        now: Moment,
        entry: OfferEntry,
        findings: &mut Vec<Finding>,
    ) -> Result<(), AllocError>
        ensures ok { OnOk result (working self.new findings.new.items
            ≡ offered_shown now entry (working self.old findings.old.items)) }
        ensures err { OnErr result (IsBegun findings.old.items findings.new.items
            (offered_shown now entry (working self.old findings.old.items)).told) }
    {
        self.saw_offer(now, entry, findings)?;
        self.saw_server(now, entry, findings)
    }

    /// An Offer comes, as to the server that it names.
    fn saw_server(
        &mut self,
        now: Moment,
        entry: OfferEntry,
        findings: &mut Vec<Finding>,
    ) -> Result<(), AllocError>
        ensures ok { OnOk result (working self.new findings.new.items
            ≡ server_shown now entry entry.endpoint (working self.old findings.old.items)) }
        ensures err { OnErr result (findings.new.items ≡ findings.old.items) }
    {
        let Some(endpoint) = entry.endpoint else {
            return Ok(());
        };
        if self.servers.offered(now, server_offer(&entry, endpoint))? {
            tell(findings, Finding::ServersFull)
        } else {
            Ok(())
        }
    }

    /// An Offer or a StopOffer comes.
    fn saw_offer(
        &mut self,
        now: Moment,
        entry: OfferEntry,
        findings: &mut Vec<Finding>,
    ) -> Result<(), AllocError>
        ensures ok { OnOk result (working self.new findings.new.items
            ≡ offer_shown now entry (working self.old findings.old.items)) }
        ensures err { OnErr result (findings.new.items ≡ findings.old.items) }
    {
        match self.offers.saw(now, entry)? {
            Some(shown) => tell(findings, Finding::Offer(entry.key, shown)),
            None => Ok(()),
        }
    }

    /// An entry of an eventgroup comes, as to its answer.
    fn saw_subscribe(
        &mut self,
        now: Moment,
        entry: SubscribeEntry,
        findings: &mut Vec<Finding>,
    ) -> Result<(), AllocError>
        ensures ok { OnOk result (working self.new findings.new.items
            ≡ subscribe_shown now entry (working self.old findings.old.items)) }
        ensures err { OnErr result (findings.new.items ≡ findings.old.items) }
    {
        match self.subscriptions.saw(now, entry)? {
            Some(shown) => tell(findings, Finding::Subscription(entry.key, shown)),
            None => Ok(()),
        }
    }

    /// An entry of an eventgroup comes, as to who is subscribed.
    fn saw_receiver(
        &mut self,
        now: Moment,
        entry: ReceiverEntry,
        findings: &mut Vec<Finding>,
    ) -> Result<(), AllocError>
        ensures ok { OnOk result (working self.new findings.new.items
            ≡ receiver_shown now entry (working self.old findings.old.items)) }
        ensures err { OnErr result (findings.new.items ≡ findings.old.items) }
    {
        match self.receivers.saw(now, entry)? {
            Some(shown) => tell(findings, Finding::Receiver(entry.key, shown)),
            None => Ok(()),
        }
    }
}

/// Whether an entry is an Offer.
fn is_offered_by(entry: &ReadEntry) -> bool
    ensures { result ≡ offers_by (head_of (view_read entry.now)) }
{
    match entry {
        ReadEntry::Good(entry) => offers_by(&entry.head),
        ReadEntry::BadRun(head) => offers_by(head),
    }
}

/// What the options of an entry show: that a run goes past them, or that it lacks an endpoint.
fn told_of_options(entry: &ReadEntry) -> Option<Finding>
    ensures { result ≡ told_of_options (view_read entry.now) }
{
    match entry {
        ReadEntry::Good(entry) => {
            if !lacks_endpoint(entry) {
                return None;
            }
            Some(Finding::NoEndpoint(instance_of(&entry.head)))
        }
        ReadEntry::BadRun(head) => Some(Finding::BadRun(instance_of(head))),
    }
}

/// Appends a finding, if there is one.
pub(crate) fn tell_if_any(
    findings: &mut Vec<Finding>,
    finding: Option<Finding>,
) -> Result<(), AllocError>
    ensures ok { OnOk result (findings.new.items ≡ with_told finding findings.old.items) }
    ensures err { OnErr result (findings.new.items ≡ findings.old.items) }
{
    match finding {
        Some(finding) => tell(findings, finding),
        None => Ok(()),
    }
}

/// Appends a finding.
pub(crate) fn tell(findings: &mut Vec<Finding>, finding: Finding) -> Result<(), AllocError>
    ensures ok { OnOk result (findings.new.items ≡ with_told (Some finding) findings.old.items) }
    ensures err { OnErr result (findings.new.items ≡ findings.old.items) }
{
    findings.push(finding)?;
    Ok(())
}
