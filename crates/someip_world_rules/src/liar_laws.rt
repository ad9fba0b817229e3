//! Laws of liars, in every run, whatever its nodes, configurations and steps. Each is the contract of a
//! function that does nothing.
ghost use Rattle.std.specs.Prelude.{◌≡◌, ◌≤◌, ℕ, true, false, nat_lt, List, length, take, slice_get, Some, Ok, Err};
ghost use Rattle.std.specs.Net.Socket.{v4_ip};
ghost use Rattle.std.specs.declared.net.socket_addr.SocketAddrV4.{SocketAddrV4};
ghost use Rattle.sd_core.specs.declared.eventgroup.Eventgroup.{Eventgroup};
ghost use Rattle.sd_core.specs.declared.keys.InstanceId.{InstanceId};
ghost use Rattle.someip_rpc.specs.declared.call.CallKind.{CallKind};
ghost use Rattle.someip_rpc.specs.declared.request.Reply.{Reply};
ghost use Rattle.someip_node_rules.specs.histories.History.{History};
ghost use Rattle.someip_node_rules.specs.declared.config.Config.{Config};
ghost use Rattle.someip_world_schedule.specs.declared.step.Step.{Step};
ghost use Rattle.someip_world_schedule.specs.declared.step.Step.TheVariants.{Answer, Call, Deliver, Inject, Publish, PublishTo, Restart, StopOffer, Subscribe, Tick, Unsubscribe};
ghost use Rattle.someip_world_setup.specs.declared.setup_node.SetupNode.{SetupNode};
ghost use Rattle.someip_world_rules.specs.declared.line.Line.{Line};
ghost use Rattle.someip_world_rules.specs.declared.step_fault.StepFault.TheVariants.{IsLiar, NotLiar, PayloadTooLong};
ghost use Rattle.someip_world_rules.specs.Datagrams.{SentDatagram};
ghost use Rattle.someip_world_rules.specs.Deeds.{Injects, datagram_limit, deed_at};
ghost use Rattle.someip_world_rules.specs.Deliveries.{Delivers, Does, IsInjected, Restarted, Sends};
ghost use Rattle.someip_world_rules.specs.Liars.{IsOfLiar, is_liar_at};
ghost use Rattle.someip_world_rules.specs.Runs.{World, world_of};
ghost use Rattle.someip_world_rules.specs.Turns.{LeadTo};

/// A liar runs no node: no step applies a rule of a node at its place, nor starts it again, nothing is delivered
/// to it, and its history stays that of its start.
pub fn liars_run_no_node()
    ensures takes_nothing { (nodes : List SetupNode) (configs : List Config) (steps : List Step) (i : ℕ)
        (does : Does nodes configs steps i) → is_liar_at nodes does.turn.place ≡ false }
    ensures restarts_never { (nodes : List SetupNode) (configs : List Config) (steps : List Step)
        (i place : ℕ) → Restarted nodes configs steps i place → is_liar_at nodes place ≡ false }
    ensures no_delivery { (nodes : List SetupNode) (configs : List Config) (steps : List Step) (n sent : ℕ)
        (d : SentDatagram) (delivers : Delivers nodes configs steps n sent d)
        → is_liar_at nodes delivers.turn.place ≡ false }
    ensures stays { (nodes : List SetupNode) (configs : List Config) (steps : List Step) (n : ℕ) (w : World)
        → n ≤ length steps → LeadTo nodes configs (take n steps) w
        → (place : ℕ) → is_liar_at nodes place ≡ true
        → slice_get w.histories place ≡ slice_get (world_of nodes configs).histories place }
{}

/// A liar sends from its own address, whatever the bytes, and only a liar does so. A step in which a node sends
/// a datagram is none in which a liar does.
pub fn liars_send_from_their_own_address()
    ensures from { (nodes : List SetupNode) (configs : List Config) (steps : List Step) (i : ℕ)
        (d : SentDatagram) → IsInjected nodes configs steps i d → IsOfLiar nodes configs (v4_ip d.from) }
    ensures own { (nodes : List SetupNode) (configs : List Config) (steps : List Step) (i : ℕ)
        (d : SentDatagram) (injected : IsInjected nodes configs steps i d) (config : Config)
        → slice_get configs injected.turn.place ≡ Some config → v4_ip d.from ≡ config.address }
    ensures place { (nodes : List SetupNode) (configs : List Config) (steps : List Step) (i : ℕ)
        (d : SentDatagram) (injected : IsInjected nodes configs steps i d)
        → is_liar_at nodes injected.turn.place ≡ true }
    ensures apart { (nodes : List SetupNode) (configs : List Config) (steps : List Step) (i : ℕ)
        (d e : SentDatagram) → Sends nodes configs steps i d → IsInjected nodes configs steps i e → ⊥ }
{}

/// By computation: at a node `inject` is bad, and at a liar every other step. What a liar sends goes out whole,
/// and has 65507 bytes at most.
pub fn what_liars_do()
    ensures honest { (h : History) (lines : List Line) (node : List ℕ) (port : ℕ) (to : SocketAddrV4)
        (bytes : List ℕ) → deed_at false h lines (Inject node port to bytes) ≡ Err NotLiar }
    ensures tick { (h : History) (lines : List Line) (node : List ℕ) (ms : ℕ)
        → deed_at true h lines (Tick node ms) ≡ Err IsLiar }
    ensures deliver { (h : History) (lines : List Line) (node : List ℕ) (number : ℕ)
        → deed_at true h lines (Deliver number node) ≡ Err IsLiar }
    ensures call { (h : History) (lines : List Line) (node : List ℕ) (kind : CallKind)
        (instance : InstanceId) (method : ℕ) (payload : List ℕ)
        → deed_at true h lines (Call node kind instance method payload) ≡ Err IsLiar }
    ensures answer { (h : History) (lines : List Line) (node : List ℕ) (token : ℕ) (reply : Reply)
        (payload : List ℕ) → deed_at true h lines (Answer node token reply payload) ≡ Err IsLiar }
    ensures publish { (h : History) (lines : List Line) (node : List ℕ) (instance : InstanceId)
        (event : ℕ) (payload : List ℕ)
        → deed_at true h lines (Publish node instance event payload) ≡ Err IsLiar }
    ensures publish_to { (h : History) (lines : List Line) (node : List ℕ) (eventgroup : Eventgroup)
        (to : SocketAddrV4) (event : ℕ) (payload : List ℕ)
        → deed_at true h lines (PublishTo node eventgroup to event payload) ≡ Err IsLiar }
    ensures subscribe { (h : History) (lines : List Line) (node : List ℕ) (eventgroup : Eventgroup)
        → deed_at true h lines (Subscribe node eventgroup) ≡ Err IsLiar }
    ensures unsubscribe { (h : History) (lines : List Line) (node : List ℕ) (eventgroup : Eventgroup)
        → deed_at true h lines (Unsubscribe node eventgroup) ≡ Err IsLiar }
    ensures stop_offer { (h : History) (lines : List Line) (node : List ℕ) (instance : InstanceId)
        → deed_at true h lines (StopOffer node instance) ≡ Err IsLiar }
    ensures restart { (h : History) (lines : List Line) (node : List ℕ) (delay : ℕ)
        → deed_at true h lines (Restart node delay) ≡ Err IsLiar }
    ensures sent { (h : History) (lines : List Line) (node : List ℕ) (port : ℕ) (to : SocketAddrV4)
        (bytes : List ℕ) → nat_lt datagram_limit (length bytes) ≡ false
        → deed_at true h lines (Inject node port to bytes)
        ≡ Ok (Injects (record { ip = h.config.address; port = port }) to bytes) }
    ensures long { (h : History) (lines : List Line) (node : List ℕ) (port : ℕ) (to : SocketAddrV4)
        (bytes : List ℕ) → nat_lt datagram_limit (length bytes) ≡ true
        → deed_at true h lines (Inject node port to bytes) ≡ Err PayloadTooLong }
    ensures limit { datagram_limit ≡ 65507 }
{}
