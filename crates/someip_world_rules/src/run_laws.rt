//! Laws of every run, whatever its nodes, configurations and steps. Each is the contract of a function
//! that does nothing.
ghost use Rattle.std.specs.Prelude.{◌≡◌, ◌≢◌, ◌++◌, true, ◌<◌, ◌≤◌, ◌^◌, ℕ, List, length, [], ◌∷◌, Option, Some, Ok, slice_get, take};
ghost use Rattle.std.specs.List.{AllByRecursion, Contains};
ghost use Rattle.std.specs.declared.net.socket_addr.SocketAddrV4.{SocketAddrV4};
ghost use Rattle.someip_wire.specs.Spelling.{Fits, MessageValue, spelling};
ghost use Rattle.sd_wire.specs.declared.entry.ServiceEntry.{ServiceEntry};
ghost use Rattle.sd_wire.specs.fronts.Splitting.{FitsDatagram};
ghost use Rattle.sd_wire.specs.contents.Values.{EntryValue, SdValue};
ghost use Rattle.sd_wire.specs.encoding.Writing.{EntryFits};
ghost use Rattle.sd_session.specs.declared.stamp.Stamp.{Stamp};
ghost use Rattle.someip_node_rules.specs.forms.Entries.{discovery_message};
ghost use Rattle.someip_node_rules.specs.trails.Packets.{HasDiscovery, HasServiceEntry, Packet};
ghost use Rattle.sd_core.specs.declared.eventgroup.Eventgroup.{Eventgroup};
ghost use Rattle.sd_core.specs.declared.keys.InstanceId.{InstanceId};
ghost use Rattle.sd_core.specs.declared.subscription.Subscription.{Subscription};
ghost use Rattle.sd_core.specs.declared.received.KnownOffer.{KnownOffer};
ghost use Rattle.someip_tables.specs.declared.lasting.Lasting.{Lasting};
ghost use Rattle.someip_node_rules.specs.histories.SeekQuestions.{known_offer_at};
ghost use Rattle.someip_world_rules.specs.KnownOffers.{IsAmongAnnounced, WasOffered};
ghost use Rattle.someip_node_rules.specs.declared.config.Config.{Config};
ghost use Rattle.someip_node_rules.specs.declared.config.OfferedService.{OfferedService};
ghost use Rattle.someip_node_rules.specs.forms.Outputs.{Announces, datagrams_of};
ghost use Rattle.someip_node_laws.specs.Fitting.{FitsConfig};
ghost use Rattle.someip_node_rules.specs.histories.History.{History};
ghost use Rattle.someip_node_rules.specs.rules.Inputs as inputs;
ghost use Rattle.someip_node_rules.specs.rules.Inputs.{Input};
ghost use Rattle.someip_node_rules.specs.histories.Items.{Item};
ghost use Rattle.someip_node_rules.specs.trails.Meanings.{GivenBy};
ghost use Rattle.someip_node_laws.specs.Published.{IsPublished, IsPublishedTo, publication};
ghost use Rattle.someip_world_schedule.specs.declared.step.Step.{Step};
ghost use Rattle.someip_world_schedule.specs.declared.step.Step.TheVariants.{Publish, PublishTo};
ghost use Rattle.someip_world_setup.specs.declared.setup_node.SetupNode.{SetupNode};
ghost use Rattle.someip_world_rules.specs.declared.line.Line.{Line};
ghost use Rattle.someip_world_rules.specs.Turns.{IsOfRun, IsOfStep, LeadTo, TakesIt, ToldTurn, Turn};
ghost use Rattle.sd_wire.specs.contents.Kinds.{is_offer};
ghost use Rattle.someip_world_rules.specs.Announced.{AllFits, FitNodes, FitsStep, IsConfigured, KnowsAsConfigured, KnowsHonestAsConfigured};
ghost use Rattle.someip_world_rules.specs.Liars.{HasNoLiars};
ghost use Rattle.someip_world_rules.specs.Deliveries.{Dispatch, Restarted, dispatch_at, dispatches_in};
ghost use Rattle.someip_world_rules.specs.Origins.{HasOrigins, WasMet, WasSent};
ghost use Rattle.someip_world_rules.specs.RunExamples.{CanPublish, GivesJust, subscribed_for};
ghost use Rattle.someip_world_rules.specs.Runs.{AreCopies, IsRun, World, run_of};
ghost use Rattle.someip_world_rules.specs.declared.trace.Trace.{Trace};

use crate::number_laws::{setup_fits, steps_fit};
use someip_world_schedule::Step;
use someip_world_setup::Setup;

/// Each step of a run that has a trace is done by the node that it names, at the history of that node in
/// the world to which the steps before it led. The lines of its index tell what the node then gives.
pub fn each_step_is_told()
    ensures { (nodes : List SetupNode) (configs : List Config) (steps : List Step) (lines : List Line)
        (i : ℕ) (s : Step) → run_of nodes configs steps ≡ Ok lines → slice_get steps i ≡ Some s
        → ToldTurn nodes configs steps lines i s }
{}

/// Each line of a trace tells of a step of the run: that of its index, counted from 1, whose lines are those of
/// what was given there. So a trace has no line that no step gave.
pub fn each_line_tells_of_its_step()
    ensures { (nodes : List SetupNode) (configs : List Config) (steps : List Step) (lines : List Line)
        (line : Line) → run_of nodes configs steps ≡ Ok lines → Contains lines line
        → IsOfStep nodes configs steps line }
{}

/// What was told before a step of a run stands at the front of its trace. So the datagram of a number that a
/// step delivers is the datagram of that number in the trace, sent in the step whose line tells of it.
pub fn a_trace_begins_with_what_was_told()
    ensures front { (nodes : List SetupNode) (configs : List Config) (steps : List Step)
        (lines : List Line) (i : ℕ) (s : Step) (turn : Turn nodes configs steps i s)
        → run_of nodes configs steps ≡ Ok lines → (more : List Line) × (lines ≡ turn.before.lines ++ more) }
    ensures numbered { (nodes : List SetupNode) (configs : List Config) (steps : List Step)
        (lines : List Line) (i : ℕ) (s : Step) (turn : Turn nodes configs steps i s)
        → run_of nodes configs steps ≡ Ok lines → (number : ℕ) (dispatch : Dispatch)
        → dispatch_at turn.before.lines number ≡ Some dispatch
        → dispatch_at lines number ≡ Some dispatch }
{}

/// An event that is published in a run is sent once to each endpoint that is live at its node in that
/// moment for one of the event's eventgroups, by the node's own clock, and to no other; one that is
/// published to one endpoint once to that, which is live for the named eventgroup of the event. The
/// message goes out from the endpoint of the instance. The lines of the step tell that and nothing else,
/// or the node's refusal alone.
pub fn publications_go_to_each_live_endpoint_once()
    ensures to_all { (nodes : List SetupNode) (configs : List Config) (steps : List Step)
        (lines : List Line) (i : ℕ) (node : List ℕ) (instance : InstanceId) (event : ℕ)
        (payload : List ℕ) → run_of nodes configs steps ≡ Ok lines
        → slice_get steps i ≡ Some (Publish node instance event payload)
        → TakesIt nodes configs steps lines i (Publish node instance event payload)
        (inputs.Publish instance event payload)
        (λ h done. IsPublished h instance event payload done) }
    ensures to_one { (nodes : List SetupNode) (configs : List Config) (steps : List Step)
        (lines : List Line) (i : ℕ) (node : List ℕ) (eventgroup : Eventgroup) (to : SocketAddrV4)
        (event : ℕ) (payload : List ℕ) → run_of nodes configs steps ≡ Ok lines
        → slice_get steps i ≡ Some (PublishTo node eventgroup to event payload)
        → TakesIt nodes configs steps lines i (PublishTo node eventgroup to event payload)
        (inputs.PublishTo eventgroup.instance eventgroup.id to event payload)
        (λ h done. IsPublishedTo h eventgroup.instance eventgroup.id to event payload done) }
{}

/// Each datagram that is told of after some steps of a run was sent by the step whose line tells of it. There
/// a node took an input and did not refuse it: a rule that this input brings about gave the message whose
/// datagram it is, at the history of that node. Or a liar sent it there.
pub fn each_datagram_was_given_or_injected()
    ensures { (nodes : List SetupNode) (configs : List Config) (steps : List Step) (n : ℕ) (w : World)
        → n ≤ length steps → LeadTo nodes configs (take n steps) w
        → AllByRecursion (WasSent nodes configs steps n) (dispatches_in w.lines) }
{}

/// The node at a place has its configuration after any number of the steps of a run, and each item of its
/// history was met in one of these steps at that place, by a rule that the step's input brings about, which
/// was not refused. Since that step the node was not started again.
pub fn each_item_was_met_by_a_rule()
    ensures { (nodes : List SetupNode) (configs : List Config) (steps : List Step) (n : ℕ) (w : World)
        → n ≤ length steps → LeadTo nodes configs (take n steps) w → (place : ℕ) (h : History)
        → slice_get w.histories place ≡ Some h → HasOrigins nodes configs steps n place h }
{}

/// An offer that a node knows after some steps of a run came with an Offer entry of a datagram that one of
/// these steps delivered to it, and since then it was not started again: for the instance, in the major
/// version that the node wants, with that endpoint. An earlier step sent the datagram, from the address of the
/// offer's peer.
pub fn known_offers_were_sent()
    ensures { (nodes : List SetupNode) (configs : List Config) (steps : List Step) (n : ℕ) (w : World)
        → n ≤ length steps → LeadTo nodes configs (take n steps) w → (place : ℕ) (h : History)
        (instance : InstanceId) (lasting : Lasting KnownOffer)
        → slice_get w.histories place ≡ Some h → known_offer_at h.items instance ≡ Some lasting
        → WasOffered nodes configs steps n place h instance lasting.value }
{}

/// A node that is started again begins another life, however alike the two go on: what it met in the life
/// that it has after some steps of a run was met after each step that started it again, and so was each
/// offer that it knows.
pub fn lives_begin_with_a_restart()
    ensures met { (nodes : List SetupNode) (configs : List Config) (steps : List Step) (n place : ℕ)
        (item : Item) (was : WasMet nodes configs steps n place item) (j : ℕ) → j < n
        → Restarted nodes configs steps j place → j < was.i }
    ensures offered { (nodes : List SetupNode) (configs : List Config) (steps : List Step)
        (n place : ℕ) (h : History) (instance : InstanceId) (known : KnownOffer)
        (was : WasOffered nodes configs steps n place h instance known) (j : ℕ) → j < n
        → Restarted nodes configs steps j place → j < was.i }
{}

/// Example: a server that accepted a Subscribe with a TTL of 3 seconds. An event that it publishes 2999
/// milliseconds later goes to the endpoint of that subscription alone, and one at 3000 to none.
pub fn one_live_subscription_by_example()
    ensures live { (config : Config) (service : OfferedService) (s : Subscription) (event : ℕ)
        (payload : List ℕ) → CanPublish config service s event payload
        → GivesJust (subscribed_for 2999 config s) (inputs.Publish s.instance event payload)
        (datagrams_of service.rules.endpoint s.endpoint
        (publication (subscribed_for 2999 config s) service event payload)) }
    ensures lapsed { (config : Config) (service : OfferedService) (s : Subscription) (event : ℕ)
        (payload : List ℕ) → CanPublish config service s event payload
        → GivesJust (subscribed_for 3000 config s) (inputs.Publish s.instance event payload) [] }
{}

/// What is read of a datagram of Service Discovery is what was announced in it, where its numbers fit
/// their fields and the entries fit a datagram: an entry about an instance that is read is one of them,
/// and its endpoint the first over UDP among the options of that.
pub fn entries_that_are_read_were_announced()
    ensures { (stamp : Stamp) (entries : List EntryValue) → stamp.session < 2 ^ 16
        → AllByRecursion EntryFits entries → FitsDatagram entries → (p : Packet)
        → p.bytes ≡ spelling (discovery_message stamp entries)
        → (head : ServiceEntry) (endpoint : Option SocketAddrV4) → HasServiceEntry p head endpoint
        → IsAmongAnnounced entries head endpoint }
{}

/// A datagram with a message of any other service holds no Service Discovery.
pub fn other_services_are_no_discovery()
    ensures { (p : Packet) (m : MessageValue) (session : ℕ) (v : SdValue) → p.bytes ≡ spelling m
        → Fits m → m.header.service ≢ 0xFFFF → HasDiscovery p session v → ⊥ }
{}

/// Each Offer that a node announces in a step is of an instance that it is configured to offer, in that
/// major version, and its endpoint is the configured one.
pub fn announced_offers_are_configured()
    ensures { (h : History) (input : Input) (from to : SocketAddrV4) (stamp : Stamp)
        (entries : List EntryValue) → GivenBy h input (Announces from to stamp entries)
        → (head : ServiceEntry) (endpoint : Option SocketAddrV4) → IsAmongAnnounced entries head endpoint
        → is_offer head ≡ true
        → IsConfigured h.config (record { service = head.service; instance = head.instance })
        head.major endpoint }
{}

/// What is given in the steps of a run fits its fields, where the numbers of its configurations and of its
/// steps do: each message of Service Discovery has a session and entries that fit theirs, and the entries
/// fit one datagram; each other message fits, and is not taken for one of Service Discovery.
/// `number_laws::setup_fits` and `number_laws::steps_fit` say that all setups and steps of a program do.
pub fn all_that_is_given_fits()
    ensures given { (nodes : List SetupNode) (configs : List Config) (steps : List Step)
        → AllByRecursion FitsConfig configs → AllByRecursion FitsStep steps
        → AllFits nodes configs steps }
    ensures copies { (nodes : List SetupNode) (configs : List Config) → FitNodes nodes
        → AreCopies nodes configs → AllByRecursion FitsConfig configs }
{}

/// The endpoint of a known offer is the one that a node is configured with for the instance, in the major
/// version in which it is wanted, where the offer's peer is no liar, and the numbers of the configurations and
/// of the steps fit their fields.
pub fn known_offers_are_configured()
    ensures honest { (nodes : List SetupNode) (configs : List Config) (steps : List Step) (w : World)
        → LeadTo nodes configs steps w → AllByRecursion FitsConfig configs
        → AllByRecursion FitsStep steps → KnowsHonestAsConfigured nodes configs w }
    ensures without_liars { (nodes : List SetupNode) (configs : List Config) (steps : List Step)
        (w : World) → HasNoLiars nodes → LeadTo nodes configs steps w → AllByRecursion FitsConfig configs
        → AllByRecursion FitsStep steps → KnowsAsConfigured configs w }
{}

/// What is given in a run over the nodes of a setup fits its fields, whatever the setup and the steps.
pub fn all_that_a_setup_gives_fits(setup: &Setup, steps: &[Step])
    ensures { (configs : List Config) → AreCopies setup.now.nodes configs
        → AllFits setup.now.nodes configs steps.now }
{
    setup_fits(setup);
    steps_fit(steps);
}

/// The endpoint of an offer that a node knows from a peer that is no liar, in a run over the nodes of a setup,
/// is one that a node of the setup is configured with for the instance, in the major version in which it is
/// wanted: after any number of the steps, and at the end of each run that has a trace. In a setup without liars
/// that is so of each offer that a node knows.
pub fn known_offers_are_of_the_setup(setup: &Setup, steps: &[Step])
    ensures on_the_way { (configs : List Config) (i : ℕ) (w : World) → AreCopies setup.now.nodes configs
        → LeadTo setup.now.nodes configs (take i steps.now) w
        → KnowsHonestAsConfigured setup.now.nodes configs w }
    ensures at_the_end { (lines : List Line) (run : IsOfRun setup.now.nodes steps.now lines)
        → KnowsHonestAsConfigured setup.now.nodes run.configs run.world }
    ensures without_liars { HasNoLiars setup.now.nodes → (configs : List Config) (i : ℕ) (w : World)
        → AreCopies setup.now.nodes configs → LeadTo setup.now.nodes configs (take i steps.now) w
        → KnowsAsConfigured configs w }
    ensures at_the_end_without { HasNoLiars setup.now.nodes → (lines : List Line)
        (run : IsOfRun setup.now.nodes steps.now lines) → KnowsAsConfigured run.configs run.world }
{
    setup_fits(setup);
    steps_fit(steps);
}

/// What `run` returns is the trace of a run: over copies of the configurations of the setup's nodes the
/// steps lead to a world that has told these lines. So each law here holds of it.
pub fn a_trace_is_of_a_run()
    ensures { (nodes : List SetupNode) (steps : List Step) (trace : Trace)
        → IsRun nodes steps (Ok trace) → IsOfRun nodes steps trace.lines.items }
{}

/// Example: an Event ID of 16 bits in a step and one of 17, a Client ID of 17 bits in a setup, and the run
/// of no step over no node, which tells nothing.
pub fn runs_by_example()
    ensures step { (node : List ℕ) (instance : InstanceId) (payload : List ℕ)
        → FitsStep (Publish node instance 0xFFFF payload) }
    ensures wide_step { (node : List ℕ) (instance : InstanceId) (payload : List ℕ)
        → FitsStep (Publish node instance 0x10000 payload) → ⊥ }
    ensures no_node { FitNodes [] }
    ensures wide_node { (node : SetupNode) → node.config.client_id ≡ 0x10000
        → FitNodes (node ∷ []) → ⊥ }
    ensures no_step { IsOfRun [] [] [] }
    ensures other_lines { (line : Line) → IsOfRun [] [] (line ∷ []) → ⊥ }
{}
