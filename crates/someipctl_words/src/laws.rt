//! Laws of the definitions behind the contracts: what words ask for. Each is the contract of a
//! function that does nothing.
ghost use Rattle.std.specs.Prelude.{◌≡◌, ◌∷◌, [], codes, false, true, Some, None, IsSome, ℕ, List};
ghost use Rattle.someipctl_words.specs.CommandLine.{CallsForHelp, HaveFault, IsTaken, is_flag, line};
ghost use Rattle.someipctl_words.specs.CommandLine.{requested, show_request, encode_request, vectors_request, run_request};
ghost use Rattle.someipctl_words.specs.CommandLine.{recording_options_of, recording_request, chart_request};
ghost use Rattle.someipctl_words.specs.CommandLine.{audit_options_of, audit_request, choice_options_of, no_choice, no_packets, no_settings, setting_options_of};
ghost use Rattle.someipctl_words.specs.CommandLine.{extract_options_of, extract_request, packet_options_of, report_options_of, services_request};
ghost use Rattle.someipctl_words.specs.CommandLine.{stats_options_of, stats_request};

use clap::error::ErrorKind;

/// Words that have no fault match a command, so a parse that succeeds leaves nothing to refuse.
pub fn words_without_fault_match()
    ensures { (words : List (List ℕ)) → IsTaken words → IsSome (requested words) }
{}

/// After `show`, any one word that is no flag is a capture, and the words have no fault.
pub fn words_show_any_capture()
    ensures taken { (program capture : List ℕ) → is_flag capture ≡ false
        → IsTaken (program ∷ codes "show" ∷ capture ∷ []) }
    ensures matched { (program capture : List ℕ) → is_flag capture ≡ false
        → requested (program ∷ codes "show" ∷ capture ∷ []) ≡ Some (show_request capture None None false) }
{}

/// What some calls of the program come to.
pub fn calls_by_example()
    ensures show { requested (line (codes "show" ∷ codes "x" ∷ []))
        ≡ Some (show_request (codes "x") None None false) }

    // A value that begins with a hyphen stands behind two hyphens.
    ensures encode { requested (line (codes "encode" ∷ codes "i8" ∷ codes "--" ∷ codes "-1" ∷ []))
        ≡ Some (encode_request (codes "i8") (codes "-1")) }

    ensures vectors { requested (line (codes "vectors" ∷ codes "x" ∷ []))
        ≡ Some (vectors_request (codes "x") false) }

    ensures run { requested (line (codes "run" ∷ codes "x" ∷ codes "y" ∷ []))
        ≡ Some (run_request (codes "x") (codes "y") None None false false) }

    ensures run_options { requested (line (codes "run" ∷ codes "--lines" ∷ codes "--expect" ∷ codes "t"
        ∷ codes "x" ∷ codes "y" ∷ [])) ≡ Some (run_request (codes "x") (codes "y") (Some (codes "t")) None true false) }

    ensures run_begins { requested (line (codes "run" ∷ codes "--begins" ∷ codes "t" ∷ codes "x" ∷ codes "y" ∷ []))
        ≡ Some (run_request (codes "x") (codes "y") None (Some (codes "t")) false false) }

    ensures show_options { requested (line (codes "show" ∷ codes "--service" ∷ codes "1111" ∷ codes "--types" ∷ codes "t"
        ∷ codes "x" ∷ [])) ≡ Some (show_request (codes "x") (Some (codes "1111")) (Some (codes "t")) false) }

    ensures json { requested (line (codes "show" ∷ codes "x" ∷ codes "--json" ∷ []))
        ≡ Some (show_request (codes "x") None None true) }
    ensures run_json { requested (line (codes "run" ∷ codes "x" ∷ codes "y" ∷ codes "--json" ∷ []))
        ≡ Some (run_request (codes "x") (codes "y") None None false true) }
    ensures recording_json { requested (line (codes "recording" ∷ codes "--json" ∷ codes "x" ∷ []))
        ≡ Some (recording_request (codes "x" ∷ []) (recording_options_of no_packets no_choice None None None
        (Some (codes "true")) None None None None None None)) }
    ensures audit_json { requested (line (codes "audit" ∷ codes "--json" ∷ codes "x" ∷ []))
        ≡ Some (audit_request (codes "x" ∷ []) (audit_options_of no_packets no_choice None None None (Some (codes "true"))
        None no_settings None)) }

    ensures recording { requested (line (codes "recording" ∷ codes "x" ∷ []))
        ≡ Some (recording_request (codes "x" ∷ []) (recording_options_of no_packets no_choice None None None None None None
        None None None None)) }

    // Options may also stand after the file, and have their value after `=`.
    ensures recording_options { requested (line (codes "recording" ∷ codes "x" ∷ codes "--ports=1,2"
        ∷ codes "--endpoints" ∷ codes "--whole" ∷ codes "--whole-slots" ∷ codes "4" ∷ []))
        ≡ Some (recording_request (codes "x" ∷ []) (recording_options_of no_packets no_choice (Some (codes "1,2")) None
        (Some (codes "true")) None None None (Some (codes "true")) None (Some (codes "4")) None)) }

    // Several files are one recording, in their order.
    ensures files { requested (line (codes "recording" ∷ codes "b" ∷ codes "--frames" ∷ codes "--vlan" ∷ codes "7"
        ∷ codes "--from" ∷ codes "5" ∷ codes "a" ∷ codes "b" ∷ [])) ≡ Some (recording_request
        (codes "b" ∷ codes "a" ∷ codes "b" ∷ []) (recording_options_of (packet_options_of None (Some (codes "7")) None)
        (choice_options_of None None (Some (codes "5")) None None) None (Some (codes "true")) None None None None None None
        None None)) }

    ensures chart { requested (line (codes "chart" ∷ codes "x" ∷ codes "y" ∷ []))
        ≡ Some (chart_request (codes "x") (codes "y")) }

    ensures audit { requested (line (codes "audit" ∷ codes "x" ∷ []))
        ≡ Some (audit_request (codes "x" ∷ []) (audit_options_of no_packets no_choice None None None None None no_settings None)) }
    ensures audit_choice { requested (line (codes "audit" ∷ codes "x" ∷ codes "--frames" ∷ codes "--client" ∷ codes "0102"
        ∷ codes "--learned" ∷ codes "--service" ∷ codes "1111" ∷ [])) ≡ Some (audit_request (codes "x" ∷ [])
        (audit_options_of no_packets (choice_options_of None (Some (codes "0102")) None None (Some (codes "true"))) None
        (Some (codes "true")) None None (Some (codes "1111")) no_settings None)) }
    ensures audit_group { requested (line (codes "audit" ∷ codes "--group" ∷ codes "x" ∷ []))
        ≡ Some (audit_request (codes "x" ∷ [])
        (audit_options_of no_packets no_choice None None (Some (codes "true")) None None no_settings None)) }
    ensures audit_options { requested (line (codes "audit" ∷ codes "--ports" ∷ codes "1,2" ∷ codes "--answer-ms" ∷ codes "5"
        ∷ codes "--settle-ms" ∷ codes "0" ∷ codes "--overtake-ms" ∷ codes "20" ∷ codes "--sessions" ∷ codes "sender" ∷ codes "--rules" ∷ codes "r" ∷ codes "x" ∷ [])) ≡ Some (audit_request (codes "x" ∷ [])
        (audit_options_of no_packets no_choice (Some (codes "1,2")) None None None None
        (setting_options_of (Some (codes "5")) (Some (codes "0")) (Some (codes "20")) (Some (codes "sender")))
        (Some (codes "r")))) }

    ensures extract { requested (line (codes "extract" ∷ codes "x" ∷ codes "--service" ∷ codes "1111" ∷ codes "--vlan" ∷ codes "7"
        ∷ codes "y" ∷ [])) ≡ Some (extract_request (codes "x" ∷ codes "y" ∷ [])
        (extract_options_of (packet_options_of None (Some (codes "7")) None) no_choice None (Some (codes "1111")))) }
    ensures services { requested (line (codes "services" ∷ codes "--json" ∷ codes "x" ∷ codes "--service" ∷ codes "1111" ∷ []))
        ≡ Some (services_request (codes "x" ∷ [])
        (report_options_of (packet_options_of None None None) no_choice None (Some (codes "1111")) true)) }
    ensures stats { requested (line (codes "stats" ∷ codes "x" ∷ codes "--overtake-ms" ∷ codes "20" ∷ codes "--sessions"
        ∷ codes "sender" ∷ codes "--address" ∷ codes "a" ∷ codes "--dedup" ∷ codes "5" ∷ []))
        ≡ Some (stats_request (codes "x" ∷ []) (stats_options_of (report_options_of (packet_options_of None None (Some (codes "5")))
        (choice_options_of (Some (codes "a")) None None None None) None None false) (Some (codes "20")) (Some (codes "sender")))) }

    // An option without its value, and one that was given twice.
    ensures bare_expect { HaveFault (line (codes "run" ∷ codes "x" ∷ codes "y" ∷ codes "--expect" ∷ []))
        ErrorKind.InvalidValue }
    ensures twice { HaveFault (line (codes "run" ∷ codes "--lines" ∷ codes "--lines" ∷ codes "x" ∷ codes "y" ∷ []))
        ErrorKind.ArgumentConflict }

    // No command, or no capture.
    ensures bare { HaveFault (line []) ErrorKind.MissingSubcommand }
    ensures bare_show { HaveFault (line (codes "show" ∷ [])) ErrorKind.MissingRequiredArgument }

    // Four ways to ask for help.
    ensures help_flag { CallsForHelp (line (codes "--help" ∷ [])) }
    ensures help { CallsForHelp (line (codes "help" ∷ [])) }
    ensures show_help_flag { CallsForHelp (line (codes "show" ∷ codes "--help" ∷ [])) }
    ensures help_show { CallsForHelp (line (codes "help" ∷ codes "show" ∷ [])) }
{}
