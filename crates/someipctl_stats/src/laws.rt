//! Laws of the definitions behind the contracts. Each is the contract of a function that does nothing.
ghost use Rattle.std.specs.Prelude.{◌≡◌, ◌++◌, ℕ, List, [], None, Option, Some, codes, false, reverse, true};
ghost use Rattle.recording.specs.declared.Time.{Time};
ghost use Rattle.recording_packets.specs.Intake.{ArrivalValue};
ghost use Rattle.audit_stats.specs.declared.full.FigureLimits.{FigureLimits};
ghost use Rattle.audit_stats.specs.declared.full.Full.TheVariants as full;
ghost use Rattle.audit_stats.specs.declared.keys.Flow.{Flow};
ghost use Rattle.audit_stats.specs.declared.keys.Way.{Way};
ghost use Rattle.audit_stats.specs.Examples.{event, method};
ghost use Rattle.audit_stats.specs.Stats.{Fact, no_stats, stats_of};
ghost use Rattle.audit_traffic.specs.declared.events.flow.EventFlow.{EventFlow};
ghost use Rattle.audit_traffic.specs.declared.gaps.LostEvent.{LostEvent};
ghost use Rattle.audit_traffic.specs.declared.sequence.Finding.TheVariants as sequence;
ghost use Rattle.someip_audit.specs.declared.FellDue.TheVariants as due;
ghost use Rattle.someip_audit.specs.declared.AuditRules.{AuditRules};
ghost use Rattle.someip_audit.specs.declared.Finding.TheVariants as findings;
ghost use Rattle.someip_audit.specs.Losses.{AgreeOnLosses};
ghost use Rattle.someip_tables.specs.declared.hashed.Origin.{Origin};
ghost use Rattle.someipctl_accounts.specs.Accounts.{IsAccount};
ghost use Rattle.someipctl_io.specs.declared.form.Form.{Form};
ghost use Rattle.someipctl_io.specs.declared.form.Form.TheVariants.{Json, Plain};
ghost use Rattle.someipctl_io.specs.ToldLines.{line_text};
ghost use Rattle.someipctl_recordings.specs.Wanted.{WantedValue};
ghost use Rattle.someipctl_audit.specs.Subjects.{subject, subject_of_due};
ghost use Rattle.someipctl_show.specs.VerdictForms.{no_head};
ghost use Rattle.someipctl_stats.specs.declared.shown.Shown.TheVariants as shown;
ghost use Rattle.someipctl_stats.specs.Counting.{after_facts, shown_facts};
ghost use Rattle.someipctl_stats.specs.Examples.{answered, began_again, once, one_of_each, thrice, unanswered, way};
ghost use Rattle.someipctl_stats.specs.LackLines.{lacks_text};
ghost use Rattle.someipctl_stats.specs.Micros.{micros_after};
ghost use Rattle.someipctl_stats.specs.Shown.{flow_of, shown_of_due, subject_of};
ghost use Rattle.someipctl_stats.specs.StatsAccount.{AskedStats, EndsStats, TakesStats, of_sessions, stats_begun};
ghost use Rattle.someipctl_stats.specs.StatsLines.{discovery_line, event_line, full_line, method_line, millis_text};
ghost use Rattle.someipctl_stats.specs.StatsText.{figures_text};

/// Times of 0, 7, 1,234 and 1,000,000 microseconds.
pub fn times_are_texts()
    ensures none { millis_text 0 ≡ codes "0.000" }
    ensures few { millis_text 7 ≡ codes "0.007" }
    ensures some { millis_text 1234 ≡ codes "1.234" }
    ensures many { millis_text 1000000 ≡ codes "1000.000" }
{}

/// The line of a method, in both forms: without an answer, and with latencies of 1.234 ms and of 20 ms.
pub fn methods_have_lines()
    ensures plain { line_text Plain no_head (method_line method unanswered)
        ≡ codes "method 1234.0421 192.168.0.1:40000 192.168.0.2:40000 calls 3 answers 0 errors 0 unanswered 3 latency - - - -\n" }
    ensures object { line_text Json no_head (method_line method unanswered)
        ≡ codes "{\"kind\":\"method\",\"service\":\"1234\",\"method\":\"0421\",\"client\":\"192.168.0.1:40000\",\"server\":\"192.168.0.2:40000\",\"calls\":3,\"answers\":0,\"errors\":0,\"unanswered\":3,\"least\":null,\"p50\":null,\"p99\":null,\"greatest\":null}\n" }
    ensures plain_times { line_text Plain no_head (method_line method answered)
        ≡ codes "method 1234.0421 192.168.0.1:40000 192.168.0.2:40000 calls 3 answers 2 errors 1 unanswered 1 latency 1.234 1.234 19.968 20.000\n" }
    ensures object_times { line_text Json no_head (method_line method answered)
        ≡ codes "{\"kind\":\"method\",\"service\":\"1234\",\"method\":\"0421\",\"client\":\"192.168.0.1:40000\",\"server\":\"192.168.0.2:40000\",\"calls\":3,\"answers\":2,\"errors\":1,\"unanswered\":1,\"least\":\"1.234\",\"p50\":\"1.234\",\"p99\":\"19.968\",\"greatest\":\"20.000\"}\n" }
{}

/// The line of an event, in both forms: one that came once, and one with cycle times of 1.234 ms and of 20 ms.
pub fn events_have_lines()
    ensures plain { line_text Plain no_head (event_line event once)
        ≡ codes "event 1234.8421 192.168.0.2:40000 192.168.0.1:40000 count 1 bytes 20 cycle - - - - gaps 0\n" }
    ensures object { line_text Json no_head (event_line event once)
        ≡ codes "{\"kind\":\"event\",\"service\":\"1234\",\"event\":\"8421\",\"from\":\"192.168.0.2:40000\",\"to\":\"192.168.0.1:40000\",\"count\":1,\"bytes\":20,\"least\":null,\"p50\":null,\"p99\":null,\"greatest\":null,\"gaps\":0}\n" }
    ensures plain_times { line_text Plain no_head (event_line event thrice)
        ≡ codes "event 1234.8421 192.168.0.2:40000 192.168.0.1:40000 count 3 bytes 60 cycle 1.234 1.234 19.968 20.000 gaps 2\n" }
    ensures object_times { line_text Json no_head (event_line event thrice)
        ≡ codes "{\"kind\":\"event\",\"service\":\"1234\",\"event\":\"8421\",\"from\":\"192.168.0.2:40000\",\"to\":\"192.168.0.1:40000\",\"count\":3,\"bytes\":60,\"least\":\"1.234\",\"p50\":\"1.234\",\"p99\":\"19.968\",\"greatest\":\"20.000\",\"gaps\":2}\n" }
{}

/// The line of a way of Service Discovery, in both forms.
pub fn ways_have_lines()
    ensures plain { line_text Plain no_head (discovery_line way began_again)
        ≡ codes "discovery 192.168.0.2:40000 192.168.0.1:40000 messages 12 reboots 1\n" }
    ensures object { line_text Json no_head (discovery_line way began_again)
        ≡ codes "{\"kind\":\"discovery\",\"from\":\"192.168.0.2:40000\",\"to\":\"192.168.0.1:40000\",\"messages\":12,\"reboots\":1}\n" }
{}

/// The lines of what is full, and one of them as an object.
pub fn what_is_full_has_a_line()
    ensures methods { line_text Plain no_head (full_line full.Methods) ≡ codes "full methods\n" }
    ensures events { line_text Plain no_head (full_line full.Events) ≡ codes "full events\n" }
    ensures discovery { line_text Plain no_head (full_line full.Discovery) ≡ codes "full discovery\n" }
    ensures calls { line_text Plain no_head (full_line full.Calls) ≡ codes "full calls\n" }
    ensures object { line_text Json no_head (full_line full.Calls)
        ≡ codes "{\"kind\":\"full\",\"name\":\"calls\"}\n" }
{}

/// Methods come first, then events, then Service Discovery, and at last what is full. Of no figures nothing is told.
pub fn figures_have_an_order()
    ensures none { (form : Form) (limits : FigureLimits) → figures_text form (no_stats limits) ≡ [] }
    ensures each { (limits : FigureLimits) → figures_text Plain (one_of_each limits)
        ≡ codes "method 1234.0421 192.168.0.1:40000 192.168.0.2:40000 calls 3 answers 0 errors 0 unanswered 3 latency - - - -\nevent 1234.8421 192.168.0.2:40000 192.168.0.1:40000 count 1 bytes 20 cycle - - - - gaps 0\ndiscovery 192.168.0.2:40000 192.168.0.1:40000 messages 12 reboots 1\nfull calls\n" }
{}

/// What is counted in order is a history of figures, which has the newest first. So the laws of `audit_stats` hold of what
/// is counted of a recording.
pub fn facts_are_counted_in_order()
    ensures { (limits : FigureLimits) (earlier facts : List Fact)
        → after_facts facts (stats_of limits earlier) ≡ stats_of limits (reverse facts ++ earlier) }
{}

/// A time is whole microseconds, and no earlier than the latest before it. Without one it is that.
pub fn moments_never_fall()
    ensures rounded { micros_after 0 (Some (record { seconds = 1; nanoseconds = 1999 })) ≡ 1000001 }
    ensures earlier { micros_after 2000000 (Some (record { seconds = 1; nanoseconds = 1999 })) ≡ 2000000 }
    ensures without { micros_after 7 None ≡ 7 }
{}

/// What lacks since a book of the audit was full has a line each.
pub fn what_lacks_has_a_line()
    ensures none { lacks_text Plain (record { endpoints = false; gaps = false; reboots = false }) ≡ [] }
    ensures all { lacks_text Plain (record { endpoints = true; gaps = true; reboots = true })
        ≡ codes "full endpoints\nfull gaps\nfull reboots\n" }
    ensures object { lacks_text Json (record { endpoints = false; gaps = true; reboots = false })
        ≡ codes "{\"kind\":\"full\",\"name\":\"gaps\"}\n" }
{}

/// The datagrams of a recording determine the text of its figures.
pub fn a_recording_has_one_text()
    ensures { (asked : AskedStats) (arrivals : List ArrivalValue) (text other : List ℕ)
        → IsAccount TakesStats EndsStats (stats_begun asked) arrivals text
        → IsAccount TakesStats EndsStats (stats_begun asked) arrivals other → text ≡ other }
{}

/// The figures are those by the whole audit: of its settings those alone count on which what it tells of sessions rests.
/// `show_stats` goes by others than are asked for, whose judging books hold nothing, and the text is the same.
pub fn figures_rest_on_few_rules()
    ensures rest { (asked : AskedStats) (rules : AuditRules) (arrivals : List ArrivalValue) (text other : List ℕ)
        → AgreeOnLosses asked.rules rules → IsAccount TakesStats EndsStats (stats_begun asked) arrivals text
        → IsAccount TakesStats EndsStats (stats_begun (record asked { rules = rules })) arrivals other → text ≡ other }
    ensures of_sessions { (rules : AuditRules) → AgreeOnLosses rules (of_sessions rules) }
{}

/// Sessions that are lost count as often as they are told, a run of them as one, and where `audit` tells their line: they are about what that is about. None does where a
/// Client ID is asked for, and no reboot either.
pub fn gaps_count_by_their_lines()
    ensures as_one { (lost : LostEvent) → shown_of_due (due.EventLost lost) ≡ shown.Lost (flow_of lost.shown_by) 1 }
    ensures at_the_deadline { (lost : LostEvent) → subject_of (shown_of_due (due.EventLost lost))
        ≡ Some (subject_of_due (due.EventLost lost)) }
    ensures of_no_client { (w : WantedValue) (client number : ℕ) (time : Option Time) (origin : Origin) (flow : Flow)
        → w.client ≡ Some client → shown_facts w time origin (shown.Lost flow number) ≡ [] }
    ensures no_reboot { (w : WantedValue) (client : ℕ) (time : Option Time) (origin : Origin) (way : Way)
        → w.client ≡ Some client → shown_facts w time origin (shown.BeganAgain way) ≡ [] }
{}
