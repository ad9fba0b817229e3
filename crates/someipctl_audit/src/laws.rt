//! Laws of the definitions behind the contracts: the texts of an audit, by example, and that a recording has one. Each
//! is the contract of a function that does nothing.
ghost use Rattle.std.specs.Prelude.{◌≡◌, ◌∷◌, [], Bool, List, Option, Some, None, codes, true, false};
ghost use Rattle.std.specs.List.{flat_map};
ghost use Rattle.sd_wire.specs.declared.SdError.TheVariants as sd;
ghost use Rattle.someip_wire.specs.declared.WireError.TheVariants as wire;
ghost use Rattle.someip_reassembly.specs.declared.TpError.TheVariants as segments;
ghost use Rattle.audit_traffic.specs.declared.calls.CallFinding.TheVariants as calls;
ghost use Rattle.audit_traffic.specs.declared.sequence.Finding.TheVariants as events;
ghost use Rattle.audit_sd.specs.declared.offers.Finding.TheVariants as offers;
ghost use Rattle.audit_sd.specs.declared.receivers.Finding.TheVariants as receivers;
ghost use Rattle.audit_sd.specs.declared.servers.Finding.TheVariants as servers;
ghost use Rattle.audit_sd.specs.declared.sessions.Finding.TheVariants as sessions;
ghost use Rattle.audit_sd.specs.declared.subscriptions.Finding.TheVariants as subscriptions;
ghost use Rattle.someip_audit.specs.declared.FellDue.TheVariants as due;
ghost use Rattle.someip_audit.specs.declared.Finding.TheVariants as findings;
ghost use Rattle.someip_audit.specs.declared.FellDue.{FellDue};
ghost use Rattle.someip_audit.specs.declared.Finding.{Finding};
ghost use Rattle.someip_audit.specs.Audits.{Report, Seen, found};
ghost use Rattle.someip_audit.specs.FellDues.{deadline};
ghost use Rattle.someip_tables.specs.declared.hashed.Origin.{Origin};
ghost use Rattle.someipctl_io.specs.declared.form.Form.TheVariants.{Json, Plain};
ghost use Rattle.recording.specs.declared.Time.{Time};
ghost use Rattle.recording_packets.specs.Intake.{ArrivalValue};
ghost use Rattle.audit_rules.specs.declared.kind.Kind.TheVariants as kinds;
ghost use Rattle.someipctl_audit.specs.Groupings.{grouped_line, line_of_kind};
ghost use Rattle.someipctl_audit.specs.Notes.{allowed_text, exceeded_line};
ghost use Rattle.someipctl_audit.specs.Unjudged.{left_out_text};
ghost use Rattle.someipctl_audit.specs.TextScenes.{late_group, moved_group, reboot_group};
ghost use Rattle.someipctl_audit.specs.AskedAudits.{AskedAudit};
ghost use Rattle.someipctl_audit.specs.AuditText.{due_line, finding_line, is_due_told, is_found_told, line_of};
ghost use Rattle.someipctl_audit.specs.AuditText.{line_of_report, origin_of_due, report_lines, summary_text};
ghost use Rattle.someipctl_audit.specs.AuditText.{time_at, told_of};
ghost use Rattle.someipctl_audit.specs.Said.{said, said_of_due, said_text};
ghost use Rattle.someipctl_audit.specs.SeenIn.{Tells, looked_of};
ghost use Rattle.someipctl_audit.specs.Subjects.{ChoosesNone};
ghost use Rattle.someipctl_audit.specs.TextScenes.{before, method_of, of_address, of_client, of_services, three_datagrams};
ghost use Rattle.someipctl_audit.specs.TextScenes.{five_late, five_late_of_any_method, five_left_out, none_left_out};
ghost use Rattle.someipctl_audit.specs.TextScenes.{whole_service};
ghost use Rattle.someipctl_audit.specs.TextScenes.{error_1, event_1, flow_1, header_1, instance_1, key_1, offer_1, origin_1};
ghost use Rattle.someipctl_audit.specs.TextScenes.{other_1};
ghost use Rattle.someipctl_audit.specs.TextScenes.{expired_1, lost_1, missing_1, run_1, subscribe_1, unanswered_1};

/// What the lines of findings say, by example.
pub fn findings_have_texts()
    ensures malformed { said_text (said (findings.Malformed (wire.Truncated 47)))
        ≡ codes " malformed Truncated at 47\n" }
    ensures malformed_sd { said_text (said (findings.MalformedSd (sd.EntriesLength 20)))
        ≡ codes " malformed EntriesLength at 20\n" }
    ensures bad_run { said_text (said (findings.BadRun instance_1)) ≡ codes " bad run 1234.0001\n" }
    ensures no_endpoint { said_text (said (findings.NoEndpoint instance_1)) ≡ codes " no endpoint 1234.0001\n" }
    ensures no_header { said_text (said (findings.NoTpHeader 16)) ≡ codes " malformed NoHeader at 16\n" }
    ensures reboot { said_text (said (findings.Session sessions.Reboot)) ≡ codes " reboot\n" }
    ensures session { said_text (said (findings.Session (sessions.NotNext (record { session = 7; reboot = true })
        (record { session = 6; reboot = true })))) ≡ codes " sd session 0007 expected 0006\n" }
    ensures overtaken { said_text (said (findings.Session (sessions.Overtaken (record { session = 5; reboot = true }))))
        ≡ codes " sd overtaken session 0005\n" }
    ensures late { said_text (said (findings.Call header_1 (calls.Late 300)))
        ≡ codes " late 300 ms 1234.0421 client 0101 session 0002\n" }
    ensures error { said_text (said (findings.Error error_1))
        ≡ codes " error 03 1234.0421 client 0101 session 0002\n" }
    ensures unasked { said_text (said (findings.Call header_1 calls.Unasked))
        ≡ codes " unasked 1234.0421 client 0101 session 0002\n" }
    ensures repeated { said_text (said (findings.Call header_1 calls.Repeated))
        ≡ codes " repeated 1234.0421 client 0101 session 0002\n" }
    ensures key_reused { said_text (said (findings.Call header_1 calls.KeyReused))
        ≡ codes " key reused 1234.0421 client 0101 session 0002\n" }
    ensures interface { said_text (said (findings.Server other_1 (servers.Interface 1)))
        ≡ codes " interface 02 expected 01 1234.0421\n" }
    ensures not_offered { said_text (said (findings.Server header_1 servers.NotOffered))
        ≡ codes " not offered 1234.0421 client 0101 session 0002\n" }
    ensures servers { said_text (said findings.ServersFull) ≡ codes " full servers\n" }
    ensures twice { said_text (said (findings.EventSession flow_1 9 events.Repeated))
        ≡ codes " event repeated 1234.8001 session 0009\n" }
    ensures event_overtaken { said_text (said (findings.EventSession flow_1 9 events.Overtaken))
        ≡ codes " event overtaken 1234.8001 session 0009\n" }
    ensures gap { said_text (said_of_due (due.EventLost lost_1)) ≡ codes " event gap 1234.8001 session 0009\n" }
    ensures wide_gap { said_text (said_of_due (due.EventLost run_1)) ≡ codes " event gap 1234.8001 session 0007 to 0058\n" }
    ensures gaps { said_text (said (findings.EventSession flow_1 9 events.GapsFull)) ≡ codes " full gaps\n" }
    ensures unsubscribed { said_text (said (findings.Event event_1 receivers.Unsubscribed))
        ≡ codes " event unsubscribed 1234.8001\n" }
    ensures segment { said_text (said (findings.Segment header_1 segments.Conflict))
        ≡ codes " segments Conflict 1234.0421 client 0101 session 0002\n" }
    ensures moved { said_text (said (findings.Offer offer_1 offers.Moved))
        ≡ codes " offer moved 1234.0001 major 02\n" }
    ensures nack { said_text (said (findings.Subscription key_1 subscriptions.Nack))
        ≡ codes " nack 1234.0001 major 02 group 0005 counter 3\n" }
    ensures unasked_ack { said_text (said (findings.Subscription key_1 subscriptions.UnaskedAck))
        ≡ codes " unasked ack 1234.0001 major 02 group 0005 counter 3\n" }
    ensures unasked_nack { said_text (said (findings.Subscription key_1 subscriptions.UnaskedNack))
        ≡ codes " unasked nack 1234.0001 major 02 group 0005 counter 3\n" }
    ensures full { said_text (said (findings.Event event_1 receivers.Full)) ≡ codes " full receivers\n" }
    ensures endpoints { said_text (said findings.EndpointsFull) ≡ codes " full endpoints\n" }
    ensures ways { said_text (said findings.WaysFull) ≡ codes " full ways\n" }
{}

/// Whole lines, by example: that of a finding has the time of its datagram, and that of what fell due its
/// deadline, with the datagram of the request, the first segment, the newest Offer or the Subscribe. Where it is
/// asked for, the number of the packet comes first.
pub fn lines_have_a_time_and_a_datagram()
    ensures found { finding_line Plain false false (Some (record { seconds = 5; nanoseconds = 7 })) origin_1
        (findings.Session sessions.Reboot) ≡ codes "5.000000007 12 192.168.0.1:40000 192.168.0.2:30490 reboot\n" }
    ensures without_time { finding_line Plain false false None origin_1 (findings.Session sessions.Reboot)
        ≡ codes "- 12 192.168.0.1:40000 192.168.0.2:30490 reboot\n" }
    ensures frame { finding_line Plain true false None origin_1 (findings.Session sessions.Reboot)
        ≡ codes "#14 - 12 192.168.0.1:40000 192.168.0.2:30490 reboot\n" }
    ensures unanswered { due_line Plain false false (due.Unanswered unanswered_1)
        ≡ codes "4.500000000 8 192.168.0.2:40001 192.168.0.1:30509 unanswered 1234.0421 client 0101 session 0002\n" }
    ensures frame_of_call { due_line Plain true false (due.Unanswered unanswered_1)
        ≡ codes "#9 4.500000000 8 192.168.0.2:40001 192.168.0.1:30509 unanswered 1234.0421 client 0101 session 0002\n" }
    ensures missing { due_line Plain false false (due.Missing missing_1)
        ≡ codes "7.000000000 9 192.168.0.1:30509 192.168.0.2:40001 segments missing 1234.0421 client 0101 session 0002\n" }
    ensures expired { due_line Plain false false (due.Expired expired_1)
        ≡ codes "8.003000000 12 192.168.0.1:40000 192.168.0.2:30490 offer expired 1234.0001 major 02\n" }
    ensures subscribe { due_line Plain false false (due.SubscribeUnanswered subscribe_1)
        ≡ codes "9.000000000 12 192.168.0.1:40000 192.168.0.2:30490 subscribe unanswered 1234.0001 major 02 group 0005 counter 3\n" }
    ensures lost { due_line Plain false false (due.EventLost lost_1)
        ≡ codes "9.100000000 8 192.168.0.1:30509 192.168.0.2:40000 event gap 1234.8001 session 0009\n" }
    ensures allowed { finding_line Plain false true None origin_1 (findings.Session sessions.Reboot)
        ≡ codes "- 12 192.168.0.1:40000 192.168.0.2:30490 allowed reboot\n" }
    ensures allowed_frame { due_line Plain true true (due.Unanswered unanswered_1)
        ≡ codes "#9 4.500000000 8 192.168.0.2:40001 192.168.0.1:30509 allowed unanswered 1234.0421 client 0101 session 0002\n" }
{}

/// A plain line is the plain form of what is told: for every finding, and for all that fell due, it has the head
/// and the words that are said.
pub fn a_plain_line_says_what_is_told()
    ensures found { (frames allowed : Bool) (time : Option Time) (origin : Origin) (finding : Finding)
        → finding_line Plain frames allowed time origin finding ≡ line_of frames allowed time origin (said finding) }
    ensures fell { (frames allowed : Bool) (told : FellDue) → due_line Plain frames allowed told
        ≡ line_of frames allowed (Some (time_at (deadline told))) (origin_of_due told) (said_of_due told) }
{}

/// Lines as objects, by example: with and without a time and the packet, each shape of a finding, and what fell
/// due.
pub fn findings_are_objects()
    ensures found { finding_line Json false false (Some (record { seconds = 5; nanoseconds = 7 })) origin_1
        (findings.Session (sessions.NotNext (record { session = 7; reboot = true }) (record { session = 6; reboot = true })))
        ≡ codes "{\"kind\":\"sd-session\",\"datagram\":12,\"time\":\"5.000000007\",\"from\":\"192.168.0.1:40000\",\"to\":\"192.168.0.2:30490\",\"session\":\"0007\",\"expected\":\"0006\"}\n" }
    ensures frame { finding_line Json true false None origin_1 (findings.Session sessions.Reboot)
        ≡ codes "{\"kind\":\"reboot\",\"datagram\":12,\"frame\":14,\"time\":null,\"from\":\"192.168.0.1:40000\",\"to\":\"192.168.0.2:30490\"}\n" }
    ensures allowed { finding_line Json true true None origin_1 (findings.Session sessions.Reboot)
        ≡ codes "{\"kind\":\"reboot\",\"datagram\":12,\"frame\":14,\"time\":null,\"from\":\"192.168.0.1:40000\",\"to\":\"192.168.0.2:30490\",\"allowed\":true}\n" }
    ensures late { finding_line Json false false None origin_1 (findings.Call header_1 (calls.Late 300))
        ≡ codes "{\"kind\":\"late\",\"datagram\":12,\"time\":null,\"from\":\"192.168.0.1:40000\",\"to\":\"192.168.0.2:30490\",\"ms\":300,\"service\":\"1234\",\"method\":\"0421\",\"client\":\"0101\",\"session\":\"0002\"}\n" }
    ensures malformed { finding_line Json false false None origin_1 (findings.Malformed (wire.Truncated 47))
        ≡ codes "{\"kind\":\"malformed\",\"datagram\":12,\"time\":null,\"from\":\"192.168.0.1:40000\",\"to\":\"192.168.0.2:30490\",\"name\":\"Truncated\",\"at\":47}\n" }
    ensures bad_run { finding_line Json false false None origin_1 (findings.BadRun instance_1)
        ≡ codes "{\"kind\":\"bad-run\",\"datagram\":12,\"time\":null,\"from\":\"192.168.0.1:40000\",\"to\":\"192.168.0.2:30490\",\"service\":\"1234\",\"instance\":\"0001\"}\n" }
    ensures no_endpoint { finding_line Json false false None origin_1 (findings.NoEndpoint instance_1)
        ≡ codes "{\"kind\":\"no-endpoint\",\"datagram\":12,\"time\":null,\"from\":\"192.168.0.1:40000\",\"to\":\"192.168.0.2:30490\",\"service\":\"1234\",\"instance\":\"0001\"}\n" }
    ensures error { finding_line Json false false None origin_1 (findings.Error error_1)
        ≡ codes "{\"kind\":\"error\",\"datagram\":12,\"time\":null,\"from\":\"192.168.0.1:40000\",\"to\":\"192.168.0.2:30490\",\"code\":\"03\",\"service\":\"1234\",\"method\":\"0421\",\"client\":\"0101\",\"session\":\"0002\"}\n" }
    ensures interface { finding_line Json false false None origin_1 (findings.Server other_1 (servers.Interface 1))
        ≡ codes "{\"kind\":\"interface\",\"datagram\":12,\"time\":null,\"from\":\"192.168.0.1:40000\",\"to\":\"192.168.0.2:30490\",\"interface\":\"02\",\"expected\":\"01\",\"service\":\"1234\",\"method\":\"0421\"}\n" }
    ensures not_offered { finding_line Json false false None origin_1 (findings.Server header_1 servers.NotOffered)
        ≡ codes "{\"kind\":\"not-offered\",\"datagram\":12,\"time\":null,\"from\":\"192.168.0.1:40000\",\"to\":\"192.168.0.2:30490\",\"service\":\"1234\",\"method\":\"0421\",\"client\":\"0101\",\"session\":\"0002\"}\n" }
    ensures wide { due_line Json false false (due.EventLost run_1)
        ≡ codes "{\"kind\":\"event-gap\",\"datagram\":8,\"time\":\"9.100000000\",\"from\":\"192.168.0.1:30509\",\"to\":\"192.168.0.2:40000\",\"service\":\"1234\",\"event\":\"8001\",\"session\":\"0007\",\"last\":\"0058\"}\n" }
    ensures overtaken { finding_line Json false false None origin_1
        (findings.Session (sessions.Overtaken (record { session = 5; reboot = true })))
        ≡ codes "{\"kind\":\"sd-overtaken\",\"datagram\":12,\"time\":null,\"from\":\"192.168.0.1:40000\",\"to\":\"192.168.0.2:30490\",\"session\":\"0005\"}\n" }
    ensures unasked_ack { finding_line Json false false None origin_1 (findings.Subscription key_1 subscriptions.UnaskedAck)
        ≡ codes "{\"kind\":\"unasked-ack\",\"datagram\":12,\"time\":null,\"from\":\"192.168.0.1:40000\",\"to\":\"192.168.0.2:30490\",\"service\":\"1234\",\"instance\":\"0001\",\"major\":\"02\",\"group\":\"0005\",\"counter\":3}\n" }
    ensures full { finding_line Json false false None origin_1 (findings.Event event_1 receivers.Full)
        ≡ codes "{\"kind\":\"full\",\"datagram\":12,\"time\":null,\"from\":\"192.168.0.1:40000\",\"to\":\"192.168.0.2:30490\",\"name\":\"receivers\"}\n" }
    ensures missing { due_line Json true false (due.Missing missing_1)
        ≡ codes "{\"kind\":\"segments-missing\",\"datagram\":9,\"frame\":11,\"time\":\"7.000000000\",\"from\":\"192.168.0.1:30509\",\"to\":\"192.168.0.2:40001\",\"service\":\"1234\",\"method\":\"0421\",\"client\":\"0101\",\"session\":\"0002\"}\n" }
    ensures lost { due_line Json false false (due.EventLost lost_1)
        ≡ codes "{\"kind\":\"event-gap\",\"datagram\":8,\"time\":\"9.100000000\",\"from\":\"192.168.0.1:30509\",\"to\":\"192.168.0.2:40000\",\"service\":\"1234\",\"event\":\"8001\",\"session\":\"0009\"}\n" }
    ensures subscribe { due_line Json false false (due.SubscribeUnanswered subscribe_1)
        ≡ codes "{\"kind\":\"subscribe-unanswered\",\"datagram\":12,\"time\":\"9.000000000\",\"from\":\"192.168.0.1:40000\",\"to\":\"192.168.0.2:30490\",\"service\":\"1234\",\"instance\":\"0001\",\"major\":\"02\",\"group\":\"0005\",\"counter\":3}\n" }
{}

/// Which findings are told, by example: of a service, a method, a client, an address and a time exactly those that
/// name it; an Offer and what lacks an endpoint name no method, and an error names its call; a reboot names no service; and that a book is full is always told.
pub fn findings_are_told_by_what_they_name()
    ensures service { is_due_told (of_services (whole_service 0x1234)) (due.Unanswered unanswered_1) ≡ true }
    ensures other_service { is_due_told (of_services (whole_service 0x1235)) (due.Unanswered unanswered_1) ≡ false }
    ensures method { is_due_told (of_services (method_of 0x1234 0x0421)) (due.Missing missing_1) ≡ true }
    ensures other_method { is_due_told (of_services (method_of 0x1234 0x0422)) (due.Missing missing_1) ≡ false }
    ensures offer { is_due_told (of_services (whole_service 0x1234)) (due.Expired expired_1) ≡ true }
    ensures no_method { is_due_told (of_services (method_of 0x1234 0x0421)) (due.Expired expired_1) ≡ false }
    ensures reboot { is_found_told (of_services (whole_service 0x1234)) None origin_1 (findings.Session sessions.Reboot)
        ≡ false }
    ensures full { is_found_told (of_services (whole_service 0x1235)) None origin_1
        (findings.Offer offer_1 offers.Full) ≡ true }
    ensures moved { is_found_told (of_services (whole_service 0x1235)) None origin_1
        (findings.Offer offer_1 offers.Moved) ≡ false }
    ensures bad_run { is_found_told (of_services (whole_service 0x1234)) None origin_1 (findings.BadRun instance_1)
        ≡ true }
    ensures no_endpoint { is_found_told (of_services (method_of 0x1234 0x0421)) None origin_1
        (findings.NoEndpoint instance_1) ≡ false }
    ensures error { is_found_told (of_services (method_of 0x1234 0x0421)) None origin_1 (findings.Error error_1)
        ≡ true }
    ensures error_of_client { is_found_told (of_client 0x0101) None origin_1 (findings.Error error_1) ≡ true }
    ensures interface { is_found_told (of_services (method_of 0x1234 0x0421)) None origin_1
        (findings.Server other_1 (servers.Interface 1)) ≡ true }
    ensures interface_of_no_client { is_found_told (of_client 0x0101) None origin_1
        (findings.Server other_1 (servers.Interface 1)) ≡ false }
    ensures not_offered { is_found_told (of_client 0x0101) None origin_1
        (findings.Server header_1 servers.NotOffered) ≡ true }
    ensures servers { is_found_told (of_services (whole_service 0x1235)) None origin_1 findings.ServersFull
        ≡ true }
    ensures client { is_due_told (of_client 0x0101) (due.Unanswered unanswered_1) ≡ true }
    ensures other_client { is_due_told (of_client 0x0102) (due.Unanswered unanswered_1) ≡ false }
    ensures address { is_due_told (of_address 0xC0A80001) (due.Unanswered unanswered_1) ≡ true }
    ensures other_address { is_due_told (of_address 0xC0A80003) (due.Unanswered unanswered_1) ≡ false }
    ensures deadline { is_due_told (before (record { seconds = 4; nanoseconds = 500000001 }))
        (due.Unanswered unanswered_1) ≡ true }
    ensures too_late { is_due_told (before (record { seconds = 4; nanoseconds = 500000000 }))
        (due.Unanswered unanswered_1) ≡ false }
{}

/// The lines of an audit are those of the findings that are told, in order, and no others, where findings are not
/// grouped.
pub fn lines_are_of_what_is_told()
    ensures { (asked : AskedAudit) (arrivals : List ArrivalValue) (reports : List Report) → asked.group ≡ false
        → report_lines asked arrivals reports
        ≡ flat_map (line_of_report asked arrivals) (told_of asked arrivals reports) }
{}

/// Where no service, client, address or time is named every finding is told.
pub fn all_findings_are_told()
    ensures { (asked : AskedAudit) (arrivals : List ArrivalValue) (reports : List Report) → ChoosesNone asked.wanted
        → told_of asked arrivals reports ≡ reports }
{}

/// The summary, by example: kinds that did not come are not named.
pub fn a_summary_counts_by_kind()
    ensures some { summary_text Plain three_datagrams
        (found origin_1 (findings.Session sessions.Full) ∷ found origin_1 (findings.Session sessions.Reboot)
        ∷ found origin_1 findings.EndpointsFull ∷ [])
        ≡ codes "audited 3 datagrams, 4 messages, 3 findings\nreboot 1\nfull 2\n" }
    ensures in_order { summary_text Plain three_datagrams
        (found origin_1 (findings.Server header_1 servers.NotOffered)
        ∷ found origin_1 (findings.Server other_1 (servers.Interface 1))
        ∷ found origin_1 (findings.Call header_1 calls.Unasked) ∷ found origin_1 (findings.Error error_1)
        ∷ found origin_1 (findings.Call header_1 (calls.Late 300)) ∷ found origin_1 (findings.Session sessions.Reboot)
        ∷ found origin_1 (findings.NoEndpoint instance_1) ∷ found origin_1 (findings.BadRun instance_1)
        ∷ found origin_1 (findings.Malformed (wire.Truncated 47)) ∷ [])
        ≡ codes "audited 3 datagrams, 4 messages, 9 findings\nmalformed 1\nbad run 1\nno endpoint 1\nreboot 1\nlate 1\nerror 1\nunasked 1\ninterface 1\nnot offered 1\n" }
    ensures none { summary_text Plain three_datagrams []
        ≡ codes "audited 3 datagrams, 4 messages, 0 findings\n" }
    ensures objects { summary_text Json three_datagrams
        (found origin_1 (findings.Session (sessions.NotNext (record { session = 7; reboot = true })
        (record { session = 6; reboot = true }))) ∷ found origin_1 findings.EndpointsFull ∷ [])
        ≡ codes "{\"kind\":\"audited\",\"datagrams\":3,\"messages\":4,\"findings\":2}\n{\"kind\":\"sd-session\",\"count\":1}\n{\"kind\":\"full\",\"count\":1}\n" }
{}

/// What the summary tells of the rules of a bench, by example: how many findings are allowed, if any, and of which more
/// came than a rule allows.
pub fn rules_are_summed_up()
    ensures allowed { allowed_text Plain 3 ≡ codes "allowed 3\n" }
    ensures none { allowed_text Plain 0 ≡ [] }
    ensures allowed_object { allowed_text Json 3 ≡ codes "{\"kind\":\"allowed\",\"count\":3}\n" }
    ensures exceeded { exceeded_line Plain kinds.Late five_late
        ≡ codes "late 1234.0421 at most 2 came 5\n" }
    ensures any_method { exceeded_line Plain kinds.Late five_late_of_any_method
        ≡ codes "late 1234.- at most 2 came 5\n" }
    ensures exceeded_object { exceeded_line Json kinds.Late five_late_of_any_method
        ≡ codes "{\"kind\":\"late\",\"service\":\"1234\",\"method\":null,\"most\":2,\"came\":5}\n" }
{}

/// What the summary tells of packets that gave no datagram, by example: each kind of which there were any.
pub fn packets_left_out_are_summed_up()
    ensures two_kinds { left_out_text Plain five_left_out
        ≡ codes "left out 3 not UDP, 2 cut short\n" }
    ensures none { left_out_text Plain none_left_out ≡ [] }
    ensures object { left_out_text Json five_left_out
        ≡ codes "{\"kind\":\"left-out\",\"linktype\":0,\"notipv4\":0,\"notudp\":3,\"cut\":2,\"badlength\":0,\"copies\":0,\"incomplete\":0,\"differing\":0}\n" }
{}

/// The lines of groups in the summary, by example: with a method, without one, and of what names no service; and as an
/// object.
pub fn groups_are_summed_up()
    ensures late { grouped_line Plain kinds.Late (record { key = late_group; more = 57 })
        ≡ codes "late 1234.0421 192.168.0.1:40000 192.168.0.2:30490 57 more\n" }
    ensures moved { grouped_line Plain kinds.OfferMoved (record { key = moved_group; more = 1 })
        ≡ codes "offer moved 1234.- 192.168.0.1:40000 192.168.0.2:30490 1 more\n" }
    ensures reboot { grouped_line Plain kinds.Reboot (record { key = reboot_group; more = 2 })
        ≡ codes "reboot -.- 192.168.0.1:40000 192.168.0.2:30490 2 more\n" }
    ensures object { grouped_line Json kinds.OfferMoved (record { key = moved_group; more = 1 })
        ≡ codes "{\"kind\":\"offer-moved\",\"service\":\"1234\",\"method\":null,\"from\":\"192.168.0.1:40000\",\"to\":\"192.168.0.2:30490\",\"more\":1}\n" }
    ensures other_kind { line_of_kind Plain kinds.Reboot (record { key = late_group; more = 57 }) ≡ [] }
{}

/// A recording has one audit: what is told of its datagrams, and how many of them and of their messages are
/// looked at, are determined by them.
pub fn a_recording_has_one_audit()
    ensures told { (asked : AskedAudit) (datagrams : List Seen) (reports others : List Report)
        → Tells asked 0 None datagrams reports → Tells asked 0 None datagrams others → reports ≡ others }
    ensures looked { (asked : AskedAudit) (datagrams : List Seen) (reports others : List Report)
        (one : Tells asked 0 None datagrams reports) (other : Tells asked 0 None datagrams others)
        → looked_of asked 0 None datagrams reports one ≡ looked_of asked 0 None datagrams others other }
{}
