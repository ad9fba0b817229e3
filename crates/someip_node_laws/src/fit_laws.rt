//! Laws of the numbers that a node sends: they fit the fields of their messages. Each is the contract of
//! a function that does nothing.
ghost use Rattle.std.specs.Prelude.{◌≡◌, ℕ, true, List, [], ◌∷◌, drop, Ok};
ghost use Rattle.std.specs.BTreeMap.{BTreeMap};
ghost use Rattle.std.specs.BTreeSet.{BTreeSet};
ghost use Rattle.std.specs.declared.net.socket_addr.SocketAddrV4.{SocketAddrV4};
ghost use Rattle.someip_wire.specs.Spelling.{IsBytes};
ghost use Rattle.sd_wire.specs.contents.Values.{EntryValue};
ghost use Rattle.someip_rpc.specs.declared.call.Call.{Call};
ghost use Rattle.someip_node_rules.specs.declared.config.Config.{Config};
ghost use Rattle.someip_node_laws.specs.Fitting.{FitsConfig, FitsHistory, FitsInput, FitsItem, FitsOffer, FitsPacket, FitsWire};
ghost use Rattle.someip_node_rules.specs.histories.History.{History, start_of};
ghost use Rattle.someip_node_rules.specs.forms.Entries.{discovery_message};
ghost use Rattle.someip_node_rules.specs.rules.Inputs.{Input, Publish};
ghost use Rattle.someip_node_rules.specs.histories.Items.{Called};
ghost use Rattle.someip_node_rules.specs.trails.Meanings.{GivenBy};
ghost use Rattle.someip_node_rules.specs.forms.Outputs.{Announces, Given, Sends};
ghost use Rattle.someip_node_rules.specs.trails.Packets.{Packet};
ghost use Rattle.someip_node_rules.specs.rules.Plans.{Work};
ghost use Rattle.someip_node_rules.specs.steps.Steps.{step};
ghost use Rattle.someip_node_laws.specs.WorkedExamples.{asking, instance, service};

/// What a node gives for an input fits its fields, where the numbers of its configuration, of what it met
/// and of the input do: a message of Service Discovery has a session and entries that fit theirs, and the
/// entries fit one datagram; any other message fits, and is not taken for one of Service Discovery.
pub fn what_is_given_fits()
    ensures { (h : History) (input : Input) (given : Given) → FitsHistory h → FitsInput input
        → GivenBy h input given → FitsWire given }
{}

/// The numbers of a history fit: those of the start of a configuration that fits, and those after each
/// step, where they did before and the input fits.
pub fn what_is_met_fits()
    ensures started { (config : Config) (delay : ℕ) → FitsConfig config
        → FitsHistory (start_of config delay) }
    ensures step { (h : History) (input : Input) (done : Work History) → FitsHistory h
        → FitsInput input → step h input ≡ Ok done → FitsHistory done.state }
{}

/// What stands in a datagram fits its fields, whatever bytes it is made of.
pub fn what_comes_fits()
    ensures { (p : Packet) → IsBytes p.bytes → FitsPacket p }
{}

/// Each definition by example, of a number that is the last of its width, and not of the next one.
pub fn numbers_fit_by_example()
    ensures offer { (events : BTreeMap ℕ (BTreeSet ℕ))
        → FitsOffer (instance, record (service events) { ttl = 0xFFFFFF }) }
    ensures long_offer { (events : BTreeMap ℕ (BTreeSet ℕ))
        → FitsOffer (instance, record (service events) { ttl = 0x1000000 }) → ⊥ }
    ensures input { FitsInput (Publish instance 0xFFFF []) }
    ensures wide_input { FitsInput (Publish instance 0x10000 []) → ⊥ }
    ensures item { (call : Call) (peer : SocketAddrV4) → FitsItem (Called call peer 0xFFFF) }
    ensures wide_item { (call : Call) (peer : SocketAddrV4) → FitsItem (Called call peer 0x10000) → ⊥ }
    ensures announced { (from to : SocketAddrV4)
        → FitsWire (Announces from to (record { session = 0xFFFF; reboot = true }) []) }
    ensures wide_session { (from to : SocketAddrV4)
        → FitsWire (Announces from to (record { session = 0x10000; reboot = true }) []) → ⊥ }
    ensures no_message_of_discovery { (from to : SocketAddrV4) (entries : List EntryValue)
        → FitsWire (Sends from to (discovery_message (record { session = 1; reboot = true }) entries))
        → ⊥ }
    ensures empty { (from to : SocketAddrV4)
        → FitsPacket (record { from = from; to = to; bytes = [] }) }
    ensures no_bytes { (from to : SocketAddrV4)
        → FitsPacket (record { from = from; to = to; bytes = 0x100 ∷ drop 1 (asking 0x21 0) }) → ⊥ }
{}
