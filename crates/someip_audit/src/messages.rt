//! Messages that are none of Service Discovery, over the books.
//!
//! A segment without room for its TP header is malformed and no refusal of reassembly, which never sees it;
//! its place is that of its payload, as `show` tells it.
//!
//! Of one message first its call and its return code, then its server, and then the subscription and the
//! session of its event are told.
ghost use Rattle.std.specs.Prelude.{◌≡◌, None, OnErr, OnOk, Some, if◌then◌else◌};
ghost use Rattle.someip_wire.specs.View.{view};
ghost use Rattle.someip_audit.specs.AnswerTimes.{cycle_ms_of};
ghost use Rattle.someip_audit.specs.MessageShown.{cycle_shown, delivery, is_event};
ghost use Rattle.someip_audit.specs.MessageShown.{call_shown, event_flow, event_shown, flow_shown};
ghost use Rattle.someip_audit.specs.MessageShown.{goes_to_server, is_error, is_of_call, is_unicast};
ghost use Rattle.someip_audit.specs.MessageShown.{judged_shown, message_shown, piece_shown, rest_shown};
ghost use Rattle.someip_audit.specs.MessageShown.{segment_shown, server_message, told_of_code, told_of_way};
ghost use Rattle.someip_audit.specs.MessageShown.{way_of, way_shown, whole_shown, whole_taken};
ghost use Rattle.someip_audit.specs.SdShown.{IsBegun, working};

use crate::books::Books;
use crate::discovery::{tell, tell_if_any};
use crate::entries::server_key;
use crate::finding::Finding;
use audit_endpoints::is_at_discovery;
use audit_sd::receivers::Delivery;
use audit_sd::servers::ServerMessage;
use audit_traffic::events::{EventFlow, Notification};
use audit_traffic::segments::SegmentTold;
use audit_traffic::ways;
use audit_traffic::ways::Way;
use someip_reassembly::Reassembly;
use someip_tables::Moment;
use someip_tables::hashed::Origin;
use someip_wire::{Header, Message, MessageType, ReturnCode};
use std::alloc::AllocError;
use std::net::SocketAddrV4;

impl<S: Reassembly> Books<S> {
    /// Takes note of a message that is none of Service Discovery, and appends what it shows: a whole one of
    /// its call, by its return code, of its server, of who is subscribed to its event, and by its event's session; a segment why it is
    /// refused, or what its message shows once it is whole, unless it goes from or to the port of Service
    /// Discovery, where messages are not put together. Its payload begins at a place of its datagram.
    /// `bytes` is room for the payload of a message in segments. Where memory runs out, what was appended
    /// is a beginning of that, and nothing else is promised.
    pub(crate) fn saw_message(
        &mut self,
        now: Moment,
        origin: &Origin,
        place: usize,
        message: &Message<'_>,
        bytes: &mut Vec<u8>,
        findings: &mut Vec<Finding>,
    ) -> Result<(), AllocError>
        ensures ok { OnOk result (working self.new findings.new.items
            ≡ message_shown now origin.now place (view message.now) (working self.old findings.old.items)) }
        ensures err { OnErr result (IsBegun findings.old.items findings.new.items
            (message_shown now origin.now place (view message.now) (working self.old findings.old.items)).told) }
    {
        if !message.header.kind.has_tp_flag() {
            return self.take_whole(now, origin, message, findings);
        }
        if is_at_discovery(origin) {
            return Ok(());
        }
        self.saw_segment(now, origin, place, message, bytes, findings)
    }

    /// A segment comes.
    fn saw_segment(
        &mut self,
        now: Moment,
        origin: &Origin,
        place: usize,
        message: &Message<'_>,
        bytes: &mut Vec<u8>,
        findings: &mut Vec<Finding>,
    ) -> Result<(), AllocError>
        ensures ok { OnOk result (working self.new findings.new.items
            ≡ segment_shown now origin.now place (view message.now) (working self.old findings.old.items)) }
        ensures err { OnErr result (IsBegun findings.old.items findings.new.items
            (segment_shown now origin.now place (view message.now) (working self.old findings.old.items)).told) }
    {
        if message.payload.len() < 4 {
            tell(findings, Finding::NoTpHeader(place))
        } else {
            self.saw_piece(now, origin, message, bytes, findings)
        }
    }

    /// A segment comes that has a TP header.
    fn saw_piece(
        &mut self,
        now: Moment,
        origin: &Origin,
        message: &Message<'_>,
        bytes: &mut Vec<u8>,
        findings: &mut Vec<Finding>,
    ) -> Result<(), AllocError>
        ensures ok { OnOk result (working self.new findings.new.items
            ≡ piece_shown now origin.now (view message.now) (working self.old findings.old.items)) }
        ensures err { OnErr result (IsBegun findings.old.items findings.new.items
            (piece_shown now origin.now (view message.now) (working self.old findings.old.items)).told) }
    {
        let told = self.segments.saw(now, origin.numbers, origin.from, origin.to, message, bytes)?;
        match told {
            SegmentTold::Nothing => Ok(()),
            SegmentTold::Refused(refusal) => {
                tell(findings, Finding::Segment(message.header, refusal))
            }
            SegmentTold::Whole(header) => {
                let whole = Message {
                    header,
                    payload: bytes,
                };
                self.take_whole(now, origin, &whole, findings)
            }
        }
    }

    /// A whole message comes: what it shows is told, and then it is counted on its way.
    #[tactic(auto, unfolding(crate::specs::MessageShown::whole_taken))]
    fn take_whole(
        &mut self,
        now: Moment,
        origin: &Origin,
        message: &Message<'_>,
        findings: &mut Vec<Finding>,
    ) -> Result<(), AllocError>
        ensures ok { OnOk result (working self.new findings.new.items
            ≡ whole_taken now origin.now message.now.header message.now.payload.now
            (working self.old findings.old.items)) }
        ensures err { OnErr result (IsBegun findings.old.items findings.new.items
            (whole_taken now origin.now message.now.header message.now.payload.now
            (working self.old findings.old.items)).told) }
    {
        self.saw_whole(now, origin, message, findings)?;
        self.saw_way(origin, &message.header, findings)
    }

    /// A whole message is counted on its way.
    fn saw_way(
        &mut self,
        origin: &Origin,
        header: &Header,
        findings: &mut Vec<Finding>,
    ) -> Result<(), AllocError>
        ensures ok { OnOk result (working self.new findings.new.items
            ≡ way_shown origin.now header.now (working self.old findings.old.items)) }
        ensures err { OnErr result (findings.new.items ≡ findings.old.items) }
    {
        if !is_of_call(header) {
            return Ok(());
        }
        let told = self.ways.saw(way_of(origin))?;
        tell_if_any(findings, told_of_way(told))
    }

    /// What a whole message shows.
    fn saw_whole(
        &mut self,
        now: Moment,
        origin: &Origin,
        message: &Message<'_>,
        findings: &mut Vec<Finding>,
    ) -> Result<(), AllocError>
        ensures ok { OnOk result (working self.new findings.new.items
            ≡ whole_shown now origin.now message.now.header message.now.payload.now
            (working self.old findings.old.items)) }
        ensures err { OnErr result (IsBegun findings.old.items findings.new.items
            (whole_shown now origin.now message.now.header message.now.payload.now
            (working self.old findings.old.items)).told) }
    {
        self.saw_call(now, origin, message, findings)?;
        tell_if_any(findings, told_of_code(&message.header))?;
        self.saw_rest(now, origin, &message.header, findings)
    }

    /// A whole message comes, as to its server and its event.
    fn saw_rest(
        &mut self,
        now: Moment,
        origin: &Origin,
        header: &Header,
        findings: &mut Vec<Finding>,
    ) -> Result<(), AllocError>
        ensures ok { OnOk result (working self.new findings.new.items
            ≡ rest_shown now origin.now header.now (working self.old findings.old.items)) }
        ensures err { OnErr result (IsBegun findings.old.items findings.new.items
            (rest_shown now origin.now header.now (working self.old findings.old.items)).told) }
    {
        self.judge(now, origin, header, findings)?;
        self.saw_event(now, origin, header, findings)?;
        self.saw_flow(now, origin, header, findings)?;
        self.saw_cycle(now, origin, header, findings)
    }

    /// A whole message comes, as to its server.
    fn judge(
        &mut self,
        now: Moment,
        origin: &Origin,
        header: &Header,
        findings: &mut Vec<Finding>,
    ) -> Result<(), AllocError>
        ensures ok { OnOk result (working self.new findings.new.items
            ≡ judged_shown now origin.now header.now (working self.old findings.old.items)) }
        ensures err { OnErr result (findings.new.items ≡ findings.old.items) }
    {
        match self.servers.heard(now, &server_message(origin, header)) {
            Some(shown) => tell(findings, Finding::Server(*header, shown)),
            None => Ok(()),
        }
    }

    /// A whole message comes, as to its call.
    fn saw_call(
        &mut self,
        now: Moment,
        origin: &Origin,
        message: &Message<'_>,
        findings: &mut Vec<Finding>,
    ) -> Result<(), AllocError>
        ensures ok { OnOk result (working self.new findings.new.items
            ≡ call_shown now origin.now message.now.header message.now.payload.now
            (working self.old findings.old.items)) }
        ensures err { OnErr result (findings.new.items ≡ findings.old.items) }
    {
        let header = &message.header;
        let answer_ms = self.times.answer_ms(header.service, header.method);
        match self.calls.saw(
            now,
            answer_ms,
            origin.numbers,
            origin.from,
            origin.to,
            message,
        )? {
            Some(shown) => tell(findings, Finding::Call(message.header, shown)),
            None => Ok(()),
        }
    }

    /// A whole message comes, as to who is subscribed to its event.
    fn saw_event(
        &mut self,
        now: Moment,
        origin: &Origin,
        header: &Header,
        findings: &mut Vec<Finding>,
    ) -> Result<(), AllocError>
        ensures ok { OnOk result (working self.new findings.new.items
            ≡ event_shown now origin.now header.now (working self.old findings.old.items)) }
        ensures err { OnErr result (findings.new.items ≡ findings.old.items) }
    {
        if !is_event(origin, header) {
            return Ok(());
        }
        let delivery = delivery(origin, header);
        match self.receivers.event(now, delivery)? {
            Some(shown) => tell(findings, Finding::Event(delivery, shown)),
            None => Ok(()),
        }
    }

    /// A whole message comes, as to the session of its event.
    fn saw_flow(
        &mut self,
        now: Moment,
        origin: &Origin,
        header: &Header,
        findings: &mut Vec<Finding>,
    ) -> Result<(), AllocError>
        ensures ok { OnOk result (working self.new findings.new.items
            ≡ flow_shown now origin.now header.now (working self.old findings.old.items)) }
        ensures err { OnErr result (findings.new.items ≡ findings.old.items) }
    {
        if !matches!(header.kind, MessageType::Notification) {
            return Ok(());
        }
        let flow = event_flow(origin, header);
        let seen = Notification {
            flow,
            session: header.session,
        };
        match self.events.saw(now, origin.numbers, seen)? {
            Some(shown) => tell(findings, Finding::EventSession(flow, header.session, shown)),
            None => Ok(()),
        }
    }

    /// A whole message comes, as to how often its event comes.
    fn saw_cycle(
        &mut self,
        now: Moment,
        origin: &Origin,
        header: &Header,
        findings: &mut Vec<Finding>,
    ) -> Result<(), AllocError>
        ensures ok { OnOk result (working self.new findings.new.items
            ≡ cycle_shown now origin.now header.now (working self.old findings.old.items)) }
        ensures err { OnErr result (findings.new.items ≡ findings.old.items) }
    {
        let Some(cycle_ms) = self.cycle_of(origin, header) else {
            return Ok(());
        };
        if !self.receivers.is_subscribed(&delivery(origin, header)) {
            return Ok(());
        }
        let flow = event_flow(origin, header);
        match self.cycles.came(now, flow, cycle_ms, origin.numbers)? {
            Some(_) => tell(findings, Finding::CyclesFull),
            None => Ok(()),
        }
    }

    /// How many milliseconds after an event to one endpoint the next one is to come, if the rules say so.
    fn cycle_of(&self, origin: &Origin, header: &Header) -> Option<u32>
        ensures { result ≡ (if is_event origin.now header.now
            then cycle_ms_of self.now.times header.now.service header.now.method else None) }
    {
        if is_event(origin, header) {
            self.times.cycle_ms(header.service, header.method)
        } else {
            None
        }
    }
}

/// Whether a message with this header wants an answer or is one.
fn is_of_call(header: &Header) -> bool
    ensures { result ≡ is_of_call header.now }
{
    matches!(
        header.kind,
        MessageType::Request | MessageType::Response | MessageType::Error
    )
}

/// The way that a message went.
fn way_of(origin: &Origin) -> Way
    ensures { result ≡ way_of origin.now }
{
    Way {
        from: origin.from,
        to: origin.to,
    }
}

/// That the book of ways is full.
fn told_of_way(shown: Option<ways::Finding>) -> Option<Finding>
    ensures { result ≡ told_of_way shown }
{
    match shown {
        Some(_) => Some(Finding::WaysFull),
        None => None,
    }
}

/// What a whole message with this header shows by its return code.
fn told_of_code(header: &Header) -> Option<Finding>
    ensures { result ≡ told_of_code header.now }
{
    if is_error(header) {
        Some(Finding::Error(*header))
    } else {
        None
    }
}

/// Whether a message with this header is an answer with another return code than E_OK.
fn is_error(header: &Header) -> bool
    ensures { result ≡ is_error header.now }
{
    let answers = matches!(header.kind, MessageType::Response | MessageType::Error);
    answers && header.code != ReturnCode::E_OK
}

/// A message with this header, as far as its server goes.
fn server_message(origin: &Origin, header: &Header) -> ServerMessage
    ensures { result ≡ server_message origin.now header.now }
{
    let endpoint = if goes_to_server(header.kind) {
        origin.to
    } else {
        origin.from
    };
    ServerMessage {
        server: server_key(header.service, endpoint),
        interface: header.interface,
        is_request: matches!(header.kind, MessageType::Request),
    }
}

/// Whether a message of this type goes to the server at its destination.
fn goes_to_server(kind: MessageType) -> bool
    ensures { result ≡ goes_to_server kind }
{
    matches!(
        kind.without_tp_flag(),
        MessageType::Request | MessageType::RequestNoReturn
    )
}

/// Whether a message with this header is an event to one endpoint.
fn is_event(origin: &Origin, header: &Header) -> bool
    ensures { result ≡ is_event origin.now header.now }
{
    matches!(header.kind, MessageType::Notification) && is_unicast(&origin.to)
}

/// An event that went to one endpoint.
fn delivery(origin: &Origin, header: &Header) -> Delivery
    ensures { result ≡ delivery origin.now header.now }
{
    Delivery {
        server: *origin.from.ip(),
        service: header.service,
        event: header.method,
        endpoint: origin.to,
    }
}

/// The flow of an event.
fn event_flow(origin: &Origin, header: &Header) -> EventFlow
    ensures { result ≡ event_flow origin.now header.now }
{
    EventFlow {
        sender: origin.from,
        service: header.service,
        event: header.method,
        receiver: origin.to,
    }
}

/// Whether an endpoint is of one node: not of a group, nor of all.
fn is_unicast(endpoint: &SocketAddrV4) -> bool
    ensures { result ≡ is_unicast endpoint.now }
{
    endpoint.ip().octets()[0] < 224
}
