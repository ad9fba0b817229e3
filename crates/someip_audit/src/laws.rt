//! Laws of the definitions behind the contracts, by example. Each is the contract of a function that does
//! nothing.
ghost use Rattle.std.specs.Prelude.{◌≡◌, ℕ, List, [], ◌∷◌, Option, Some, None, Ok, Err, true, false, if◌then◌else◌, nat_lt, option_map};
ghost use Rattle.std.specs.declared.net.socket_addr.SocketAddrV4.{SocketAddrV4};
ghost use Rattle.std.specs.List.{list_any};
ghost use Rattle.audit_sd.specs.declared.subscriptions.entry.SubscribeEntry.{SubscribeEntry};
ghost use Rattle.audit_sd.specs.declared.subscriptions.finding.Finding.{Finding as SubscribeFinding};
ghost use Rattle.audit_sd.specs.declared.subscriptions.key.SubscriptionKey.{SubscriptionKey};
ghost use Rattle.audit_sd.specs.subscriptions.SubscribeTables.{unasked_by};
ghost use Rattle.audit_traffic.specs.declared.events.flow.EventFlow.{EventFlow};
ghost use Rattle.audit_endpoints.specs.declared.finding.Finding.TheVariants as endpoint_findings;
ghost use Rattle.audit_traffic.specs.events.EventRules.{disturbed, is_between};
ghost use Rattle.audit_traffic.specs.sequence.CountedFlows.{counted_service};
ghost use Rattle.audit_traffic.specs.sequence.Sequences.{Sequence};
ghost use Rattle.someip_audit.specs.Audits.{AuditState, Audits, Report, Seen, datagram_shown, each_disturbed};
ghost use Rattle.std.specs.FinMap as finite;
ghost use Rattle.std.specs.Ordering.{is_lt};
ghost use Rattle.sd_wire.specs.contents.Values.{bad_run};
ghost use Rattle.sd_wire.specs.declared.entry.ServiceKind.TheVariants.{Find, Offer};
ghost use Rattle.sd_wire.specs.declared.entry.EntryHead.TheVariants.{Eventgroup, Service};
ghost use Rattle.sd_wire.specs.declared.entry.EventgroupKind.TheVariants as groups;
ghost use Rattle.someip_wire.specs.declared.header.MessageType.TheVariants as kinds;
ghost use Rattle.audit_traffic.specs.calls.Scenes.{header_with};
ghost use Rattle.audit_sd.specs.offers.OfferExamples.{endpoint, from_node};
ghost use Rattle.audit_sd.specs.declared.sessions.finding.Finding.TheVariants as sessions;
ghost use Rattle.audit_sd.specs.subscriptions.SubscribeExamples.{answer, datagram, subscribe};
ghost use Rattle.someip_wire.specs.declared.error.WireError.TheVariants.{Truncated};
ghost use Rattle.sd_wire.specs.declared.error.SdError.TheVariants as faults;
ghost use Rattle.someip_tables.specs.declared.hashed.origin.Origin.{Origin};
ghost use Rattle.someip_audit.specs.declared.finding.Finding.TheVariants as findings;
ghost use Rattle.audit_endpoints.specs.DiscoveryMessages.{is_sd};
ghost use Rattle.someip_audit.specs.AnyShown.{items_shown, message_count, payload_shown};
ghost use Rattle.audit_endpoints.specs.Learning.{learnt_in, named_by};
ghost use Rattle.audit_endpoints.specs.WatchedEndpoints.{Watch, is_at_learnt, is_looked_at, once_named, told_of_endpoint};
ghost use Rattle.someip_audit.specs.SdScenes.{once_offered, once_told, segment_with, sent_from, at_40000};
ghost use Rattle.someip_audit.specs.BooksHeld.{Held};
ghost use Rattle.someip_audit.specs.FellDues.{fell_cmp};
ghost use Rattle.someip_audit.specs.MessageShown.{event_flow, event_shown, flow_shown, is_event, is_of_call};
ghost use Rattle.someip_audit.specs.MessageShown.{message_shown, server_message, told_of_code, way_of};
ghost use Rattle.someip_audit.specs.MessageShown.{way_shown};
ghost use Rattle.audit_traffic.specs.ways.WayTables.{after_message};
ghost use Rattle.audit_endpoints.specs.NamedEndpoints.{names_endpoint};
ghost use Rattle.someip_audit.specs.SdEntries.{offer_entry, subscribe_entry, withdrawn_offer};
ghost use Rattle.someip_audit.specs.SdScenes.{call_due, group_entry, lost_due, missing_due, offer_due, sd_header, service_entry, silent_due};
ghost use Rattle.someip_audit.specs.SdScenes.{coded, endpoint_4, endpoint_6, group_4, group_without, instance_1, subscribe_due, with_endpoint};
ghost use Rattle.someip_audit.specs.SdScenes.{with_option, without_endpoint};
ghost use Rattle.someip_audit.specs.SdShown.{Work, after_session, begun_again, endpoint_shown, entry_shown, group_shown, group_taken};
ghost use Rattle.someip_audit.specs.SdShown.{ended_shown, head_shown, offer_shown, server_shown};
ghost use Rattle.someip_audit.specs.SdShown.{told_of_options, withdrawn};

/// In which order what fell due is told, by example: by deadline; at one deadline calls, then segments, then
/// offers, then Subscribes, then sessions of events, then silent events; and of one book by key.
pub fn what_fell_due_is_told_in_order()
    ensures sooner { is_lt (fell_cmp (subscribe_due 2000) (call_due 2001)) ≡ true }
    ensures later { is_lt (fell_cmp (call_due 2001) (subscribe_due 2000)) ≡ false }
    ensures calls_first { is_lt (fell_cmp (call_due 2000) (offer_due 4096 2000)) ≡ true }
    ensures then_segments { is_lt (fell_cmp (call_due 2000) (missing_due 2000)) ≡ true }
    ensures segments_first { is_lt (fell_cmp (missing_due 2000) (offer_due 4096 2000)) ≡ true }
    ensures then_offers { is_lt (fell_cmp (offer_due 4096 2000) (subscribe_due 2000)) ≡ true }
    ensures then_sessions { is_lt (fell_cmp (subscribe_due 2000) (lost_due 2000)) ≡ true }
    ensures then_silent_events { is_lt (fell_cmp (lost_due 2000) (silent_due 0x8001 2000)) ≡ true }
    ensures sooner_silent { is_lt (fell_cmp (silent_due 0x8001 1999) (call_due 2000)) ≡ true }
    ensures silent_by_key { is_lt (fell_cmp (silent_due 0x8001 2000) (silent_due 0x8002 2000)) ≡ true }
    ensures not_offers { is_lt (fell_cmp (offer_due 4096 2000) (call_due 2000)) ≡ false }
    ensures by_key { is_lt (fell_cmp (offer_due 4096 2000) (offer_due 4097 2000)) ≡ true }
    ensures not_by_key { is_lt (fell_cmp (offer_due 4097 2000) (offer_due 4096 2000)) ≡ false }
{}

/// Which subscription an entry is about, by example: a Subscribe goes from the client to the server, and an
/// Ack or a Nack the other way.
pub fn entries_are_of_one_subscription()
    ensures subscribed { subscribe_entry (datagram 1 2 9) (group_entry groups.Subscribe 3) ≡ subscribe 1 2 3 }
    ensures acked { subscribe_entry (datagram 2 9 2) (group_entry groups.Ack 3) ≡ answer 2 2 3 }
    ensures nacked { subscribe_entry (datagram 2 9 2) (group_entry groups.Ack 0) ≡ answer 2 2 0 }
{}

/// What entries about an instance show, whatever the books hold: an Offer what the book of offers tells, by
/// its first UDP endpoint, which is learnt, and that it was seen, and then what the book of servers tells; a
/// StopOffer what the book of offers tells, and it ends the server at the endpoint of its offer, and what is
/// subscribed there; a Find nothing.
pub fn entries_show_what_the_books_tell()
    ensures offered { (work : Work) → entry_shown 100 (from_node 1 1)
        (with_endpoint (service_entry Offer 3) 1 40000) work
        ≡ server_shown 100 (offer_entry (from_node 1 1) (service_entry Offer 3) (Some (endpoint 1 40000)))
        (Some (endpoint 1 40000)) (offer_shown 100
        (offer_entry (from_node 1 1) (service_entry Offer 3) (Some (endpoint 1 40000)))
        (endpoint_shown (Some (endpoint 1 40000)) (once_offered work))) }
    ensures stopped { (work : Work) → entry_shown 100 (from_node 1 1)
        (with_endpoint (service_entry Offer 0) 1 40000) work
        ≡ withdrawn (withdrawn_offer (from_node 1 1) (service_entry Offer 0)) (offer_shown 100
        (offer_entry (from_node 1 1) (service_entry Offer 0) (Some (endpoint 1 40000)))
        (ended_shown (offer_entry (from_node 1 1) (service_entry Offer 0) (Some (endpoint 1 40000))) work)) }
    ensures found { (work : Work) → entry_shown 100 (from_node 1 1)
        (with_endpoint (service_entry Find 3) 1 40000) work ≡ work }
{}

/// What the options of an entry show, by example: of an Offer, a Subscribe and a StopSubscribe that none is an
/// endpoint over UDP or TCP, of IPv4 or IPv6; of a StopOffer, a Find and an Ack nothing; and of any entry that one of its runs goes
/// past the options.
pub fn entries_need_endpoints()
    ensures offer { told_of_options (without_endpoint (service_entry Offer 3)) ≡ Some (findings.NoEndpoint instance_1) }
    ensures with_one { told_of_options (with_endpoint (service_entry Offer 3) 1 40000) ≡ None }
    ensures over_tcp { told_of_options (with_option (service_entry Offer 3) (endpoint_4 6)) ≡ None }
    ensures of_ipv6 { told_of_options (with_option (service_entry Offer 3) (endpoint_6 6)) ≡ None }
    ensures of_ipv6_over_udp { told_of_options (with_option (service_entry Offer 3) (endpoint_6 17)) ≡ None }
    ensures over_another { told_of_options (with_option (service_entry Offer 3) (endpoint_4 1))
        ≡ Some (findings.NoEndpoint instance_1) }
    ensures of_a_group { told_of_options (with_option (service_entry Offer 3) group_4)
        ≡ Some (findings.NoEndpoint instance_1) }
    ensures stop_offer { told_of_options (without_endpoint (service_entry Offer 0)) ≡ None }
    ensures find { told_of_options (without_endpoint (service_entry Find 3)) ≡ None }
    ensures subscribe { told_of_options (group_without groups.Subscribe 3) ≡ Some (findings.NoEndpoint instance_1) }
    ensures stop_subscribe { told_of_options (group_without groups.Subscribe 0)
        ≡ Some (findings.NoEndpoint instance_1) }
    ensures ack { told_of_options (group_without groups.Ack 3) ≡ None }
    ensures bad_run { told_of_options (bad_run (Service (service_entry Find 3)))
        ≡ Some (findings.BadRun instance_1) }
{}

/// What an entry shows whose run goes past the options, whatever the books hold: that first, and then what it
/// shows without an endpoint.
pub fn bad_runs_are_told_first()
    ensures { (work : Work) → entry_shown 100 (from_node 1 1) (bad_run (Service (service_entry Offer 3))) work
        ≡ head_shown 100 (from_node 1 1) (Service (service_entry Offer 3)) None
        (once_told (findings.BadRun instance_1) (once_offered work)) }
{}

/// What an answer shows that nobody asked for, whatever the books hold: that first, and then what it shows
/// else.
pub fn unasked_answers_are_told_first()
    ensures { (now : ℕ) (entry : SubscribeEntry) (endpoint : Option SocketAddrV4) (shown : SubscribeFinding)
        (work : Work) → unasked_by now entry work.held.subscriptions ≡ Some shown
        → group_shown now entry endpoint work
        ≡ group_taken now entry endpoint (once_told (findings.Subscription entry.key shown) work) }
{}

/// What a message shows by its return code, by example: an ERROR and a RESPONSE with another code than 00 an
/// error; a RESPONSE with code 00 nothing, and no REQUEST or event.
pub fn answers_with_other_codes_are_errors()
    ensures error { told_of_code (coded kinds.Error 3) ≡ Some (findings.Error (coded kinds.Error 3)) }
    ensures response { told_of_code (coded kinds.Response 1) ≡ Some (findings.Error (coded kinds.Response 1)) }
    ensures ok { told_of_code (coded kinds.Response 0) ≡ None }
    ensures error_ok { told_of_code (coded kinds.Error 0) ≡ None }
    ensures request { told_of_code (coded kinds.Request 3) ≡ None }
    ensures event { told_of_code (coded kinds.Notification 3) ≡ None }
{}

/// Which messages are counted on their way, by example: a REQUEST, a RESPONSE and an ERROR; no REQUEST that
/// wants no answer, and no event. Of any other nothing changes, and of one that is counted the book of ways
/// alone.
pub fn messages_of_calls_are_counted_on_their_way()
    ensures request { is_of_call (header_with 5 kinds.Request) ≡ true }
    ensures response { is_of_call (header_with 5 kinds.Response) ≡ true }
    ensures error { is_of_call (header_with 5 kinds.Error) ≡ true }
    ensures no_return { is_of_call (header_with 5 kinds.RequestNoReturn) ≡ false }
    ensures event { is_of_call (header_with 5 kinds.Notification) ≡ false }
    ensures way { way_of (datagram 1 2 9) ≡ record { from = (datagram 1 2 9).from; to = (datagram 1 2 9).to } }
    ensures others { (origin : Origin) (work : Work)
        → way_shown origin (header_with 5 kinds.Notification) work ≡ work }
    ensures counted { (origin : Origin) (work : Work)
        → (way_shown origin (header_with 5 kinds.Request) work).held
        ≡ record work.held { ways = after_message (way_of origin) work.held.ways } }
{}

/// What a finding of the sessions ends: a reboot all that the sender offered and subscribed, and what was
/// subscribed at it; anything else nothing.
pub fn a_reboot_ends_what_a_sender_offered()
    ensures reboot { (held : Held) → after_session (Some sessions.Reboot) (endpoint 1 1).ip held
        ≡ begun_again (endpoint 1 1).ip held }
    ensures full { (held : Held) → after_session (Some sessions.Full) (endpoint 1 1).ip held ≡ held }
    ensures nothing { (held : Held) → after_session None (endpoint 1 1).ip held ≡ held }
{}

/// Which messages are events to one endpoint, by example: notifications to the address of a node. What goes
/// to the group, and an answer, show nothing of who is subscribed, whatever the books hold.
pub fn events_go_to_one_endpoint()
    ensures event { is_event (datagram 1 2 9) (header_with 5 kinds.Notification) ≡ true }
    ensures to_group { (work : Work) → event_shown 100 (from_node 1 1) (header_with 5 kinds.Notification) work
        ≡ work }
    ensures response { (work : Work) → event_shown 100 (datagram 1 2 9) (header_with 5 kinds.Response) work
        ≡ work }
{}

/// Which server a message is of, by example: a REQUEST and a REQUEST_NO_RETURN go to that at their
/// destination, and an answer and an event come from that at their source.
pub fn messages_have_a_server()
    ensures request { server_message (sent_from 1 40000 2 40001) (header_with 5 kinds.Request)
        ≡ record { server = record { service = 0x1234; endpoint = endpoint 2 40001 }; interface = 1; is_request = true } }
    ensures no_return { server_message (sent_from 1 40000 2 40001) (header_with 5 kinds.RequestNoReturn)
        ≡ record { server = record { service = 0x1234; endpoint = endpoint 2 40001 }; interface = 1; is_request = false } }
    ensures response { server_message (sent_from 1 40000 2 40001) (header_with 5 kinds.Response)
        ≡ record { server = record { service = 0x1234; endpoint = endpoint 1 40000 }; interface = 1; is_request = false } }
    ensures error { server_message (sent_from 1 40000 2 40001) (header_with 5 kinds.Error)
        ≡ server_message (sent_from 1 40000 2 40001) (header_with 5 kinds.Response) }
    ensures event { server_message (sent_from 1 40000 2 40001) (header_with 5 kinds.Notification)
        ≡ server_message (sent_from 1 40000 2 40001) (header_with 5 kinds.Response) }
{}

/// Which messages are of Service Discovery, by example: a NOTIFICATION from or to port 30490 with the
/// Message ID FFFF8100 and interface 1; none with another Method ID, interface or type, nor between other
/// ports.
pub fn messages_are_of_service_discovery()
    ensures sent { is_sd (datagram 1 2 9) sd_header ≡ true }
    ensures to_it { is_sd (record (datagram 1 2 9) { from = endpoint 2 40000 }) sd_header ≡ true }
    ensures other_ports { is_sd
        (record (datagram 1 2 9) { from = endpoint 2 40000; to = endpoint 9 40000 }) sd_header ≡ false }
    ensures other_method { is_sd (datagram 1 2 9) (record sd_header { method = 0x8101 }) ≡ false }
    ensures other_service { is_sd (datagram 1 2 9) (record sd_header { service = 0xFFFE }) ≡ false }
    ensures other_interface { is_sd (datagram 1 2 9) (record sd_header { interface = 2 }) ≡ false }
    ensures other_type { is_sd (datagram 1 2 9) (record sd_header { kind = kinds.Response }) ≡ false }
{}

/// Which entries name an endpoint that is looked at, by example: an Offer and a Subscribe; no Find,
/// StopOffer, StopSubscribe, Ack or Nack.
pub fn offers_and_subscribes_name_endpoints()
    ensures offer { names_endpoint (Service (service_entry Offer 3)) ≡ true }
    ensures stop_offer { names_endpoint (Service (service_entry Offer 0)) ≡ false }
    ensures find { names_endpoint (Service (service_entry Find 3)) ≡ false }
    ensures subscribe { names_endpoint (Eventgroup (group_entry groups.Subscribe 3)) ≡ true }
    ensures stop_subscribe { names_endpoint (Eventgroup (group_entry groups.Subscribe 0)) ≡ false }
    ensures ack { names_endpoint (Eventgroup (group_entry groups.Ack 3)) ≡ false }
{}

/// Which datagrams are looked at, by example: from or to port 30490; from or to a port that is named; and
/// beside these exactly those at an endpoint that was learnt, by address and port.
pub fn datagrams_are_looked_at()
    ensures discovery { (watch : Watch) → is_looked_at watch (sent_from 1 30490 2 40000) ≡ true }
    ensures to_discovery { (watch : Watch) → is_looked_at watch (sent_from 1 40000 2 30490) ≡ true }
    ensures at_port { is_looked_at at_40000 (sent_from 1 40000 2 40001) ≡ true }
    ensures to_port { is_looked_at at_40000 (sent_from 1 40001 2 40000) ≡ true }
    ensures other_port { is_looked_at at_40000 (sent_from 1 40001 2 40002) ≡ false }
    ensures learnt { (watch : Watch) → watch.ports ≡ []
        → is_looked_at watch (sent_from 1 40001 2 40000) ≡ is_at_learnt watch.learnt (sent_from 1 40001 2 40000) }
{}

/// What an endpoint does that an entry names: it is learnt, where one more may be; and that no more may
/// be is told once. Where nothing is to be learnt nothing is.
pub fn endpoints_are_learnt()
    ensures learnt { (watch : Watch) → watch.learns ≡ true → finite.get watch.learnt (endpoint 1 40000) ≡ None
        → nat_lt (finite.len watch.learnt) watch.limit ≡ true → once_named (endpoint 1 40000) watch
        ≡ record watch { learnt = finite.insert watch.learnt (endpoint 1 40000) tt } }
    ensures full { (watch : Watch) → watch.learns ≡ true → finite.get watch.learnt (endpoint 1 40000) ≡ None
        → nat_lt (finite.len watch.learnt) watch.limit ≡ false → watch.told_full ≡ false
        → told_of_endpoint (endpoint 1 40000) watch ≡ Some endpoint_findings.Full }
    ensures once { (watch : Watch) → watch.told_full ≡ true → told_of_endpoint (endpoint 1 40000) watch ≡ None }
    ensures nothing { (watch : Watch) → watch.learns ≡ false → once_named (endpoint 1 40000) watch ≡ watch }
{}

/// What one entry teaches, by example: an Offer and a Subscribe the endpoint that they name, and a StopOffer
/// nothing.
pub fn entries_teach_endpoints()
    ensures offer { named_by (with_endpoint (service_entry Offer 3) 1 40000) ≡ Some (endpoint 1 40000) }
    ensures stop_offer { named_by (with_endpoint (service_entry Offer 0) 1 40000) ≡ None }
{}

/// Whoever learns from a datagram what it names has learnt what an audit learns that looks at it.
pub fn an_audit_learns_what_a_datagram_names()
    ensures { (seen : Seen) (work : Work) → (datagram_shown seen work).held.watched
        ≡ learnt_in seen.origin seen.bytes work.held.watched }
{}

/// What is told of faults, whatever the books hold: the place of a fault of Service Discovery counts from
/// the first byte of its datagram; a segment whose payload has no room for its TP header is told, but none
/// from or to the port of Service Discovery; the
/// fault that ends a datagram comes after what its messages show.
pub fn faults_are_told()
    ensures discovery { (work : Work) → payload_shown 100 (from_node 1 1) 16 1 (Err (faults.OptionLength 44)) work
        ≡ once_told (findings.MalformedSd (faults.OptionLength 60)) work }
    ensures segment { (work : Work) → message_shown 100 (sent_from 1 40000 2 40001) 16 (segment_with (1 ∷ 2 ∷ 3 ∷ [])) work
        ≡ once_told (findings.NoTpHeader 16) work }
    ensures at_discovery { (work : Work) → message_shown 100 (sent_from 1 40000 2 30490) 16
        (segment_with (1 ∷ 2 ∷ 3 ∷ [])) work ≡ work }
    ensures datagram { (work : Work) → items_shown 100 (datagram 1 2 9) 0 (Err (Truncated 7) ∷ []) work
        ≡ once_told (findings.Malformed (Truncated 7)) work }
    ensures counted { message_count (Ok (segment_with []) ∷ Err (Truncated 19) ∷ []) ≡ 1 }
{}

/// An event shows what its session does, to one endpoint and to a group; nothing else does.
pub fn events_have_sessions()
    ensures to_group { event_flow (from_node 1 1) (header_with 5 kinds.Notification)
        ≡ record { sender = (from_node 1 1).from; service = 0x1234; event = 0x0421; receiver = (from_node 1 1).to } }
    ensures response { (now : ℕ) (origin : Origin) (work : Work)
        → flow_shown now origin (header_with 5 kinds.Response) work ≡ work }
{}

/// What subscriptions that expired leave of the events: a gap of each flow of the service of one of them, as it is
/// counted, between its client and its server is excused, and the other flows stay as they are.
pub fn what_expires_excuses_gaps()
    ensures { (keys : List SubscriptionKey) (events : Sequence) (flow : EventFlow)
        → finite.get (each_disturbed keys events).events.flows flow
        ≡ option_map (λ last. if list_any (λ (key : SubscriptionKey). is_between key.client key.server
        (counted_service events.counting key.service) flow) keys then disturbed last else last) (finite.get events.events.flows flow) }
{}

/// What is told of a recording, and what its audit is then, is determined by its datagrams in order.
pub fn datagrams_determine_what_is_told()
    ensures told { (last : ℕ) (state after other : AuditState) (datagrams : List Seen)
        (reports others : List Report) → Audits last state datagrams reports after
        → Audits last state datagrams others other → reports ≡ others }
    ensures left { (last : ℕ) (state after other : AuditState) (datagrams : List Seen)
        (reports others : List Report) → Audits last state datagrams reports after
        → Audits last state datagrams others other → after ≡ other }
{}
