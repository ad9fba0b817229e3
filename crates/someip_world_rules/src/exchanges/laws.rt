//! Laws of the exchanges of every run, whatever its nodes, configurations and steps. Each is the contract
//! of a function that does nothing.
ghost use Rattle.std.specs.Prelude.{◌≡◌, ◌≢◌, ◌⊎◌, ◌<◌, ℕ, List, Ok};
ghost use Rattle.std.specs.List.{AllByRecursion, Contains, flat_map};
ghost use Rattle.std.specs.Net.Socket.{v4_ip};
ghost use Rattle.std.specs.declared.net.ipv4_addr.Ipv4Addr.{Ipv4Addr};
ghost use Rattle.std.specs.declared.net.socket_addr.SocketAddrV4.{SocketAddrV4};
ghost use Rattle.someip_wire.specs.Spelling.{MessageValue};
ghost use Rattle.sd_core.specs.declared.eventgroup.Eventgroup.{Eventgroup};
ghost use Rattle.someip_node_rules.specs.histories.History.{History};
ghost use Rattle.someip_node_rules.specs.rules.Inputs.{Input};
ghost use Rattle.someip_node_rules.specs.forms.Outputs as outputs;
ghost use Rattle.someip_node_rules.specs.rules.Plans.{Work};
ghost use Rattle.someip_node_rules.specs.steps.Steps.{step};
ghost use Rattle.someip_node_rules.specs.trails.Trails.{given_by, trail_of};
ghost use Rattle.someip_node_rules.specs.histories.WishQuestions.{course_at};
ghost use Rattle.someip_node_rules.specs.declared.config.Config.{Config};
ghost use Rattle.someip_world_schedule.specs.declared.step.Step.{Step};
ghost use Rattle.someip_world_setup.specs.declared.setup_node.SetupNode.{SetupNode};
ghost use Rattle.someip_world_rules.specs.Datagrams.{SentDatagram};
ghost use Rattle.someip_world_rules.specs.declared.exchanges.exchange_key.ExchangeKey.{ExchangeKey};
ghost use Rattle.someip_world_rules.specs.declared.exchanges.naming.Side.TheVariants.{Opener};
ghost use Rattle.someip_world_rules.specs.exchanges.Beginnings.{about, begun_after, counter_after, last_counter, subscribes_in};
ghost use Rattle.someip_world_rules.specs.exchanges.CleanReuse.{Breaks};
ghost use Rattle.someip_world_rules.specs.exchanges.Namings.{named_in, of_subscription};
ghost use Rattle.someip_world_rules.specs.exchanges.Openings.{Opened, OpensBy};
ghost use Rattle.someip_world_rules.specs.Deliveries.{Delivers, IsInjected, Sends};
ghost use Rattle.someip_world_rules.specs.Liars.{IsHonest, IsOfLiar};

/// What a step delivers was sent by the step whose lines tell of it, an earlier one: a rule gave the message
/// there, or a liar sent it from its own address. What comes from an address of no liar a rule gave.
pub fn what_is_delivered_was_sent()
    ensures sent { (nodes : List SetupNode) (configs : List Config) (steps : List Step) (n sent : ℕ)
        (d : SentDatagram) → Delivers nodes configs steps n sent d
        → (sent < n) × (Sends nodes configs steps sent d
        ⊎ (IsInjected nodes configs steps sent d × IsOfLiar nodes configs (v4_ip d.from))) }
    ensures honest { (nodes : List SetupNode) (configs : List Config) (steps : List Step) (n sent : ℕ)
        (d : SentDatagram) → Delivers nodes configs steps n sent d
        → IsHonest nodes configs (v4_ip d.from) → Sends nodes configs steps sent d }
{}

/// What a liar sends breaks nothing: no step that delivers it breaks clean reuse.
pub fn what_liars_send_breaks_nothing()
    ensures { (nodes : List SetupNode) (configs : List Config) (steps : List Step) (n sent : ℕ)
        (d : SentDatagram) → Delivers nodes configs steps n sent d → IsInjected nodes configs steps sent d
        → Breaks nodes configs steps n → ⊥ }
{}

/// A request that is sent opens the call that it belongs to in that very step, and an event its publication:
/// so the newest exchange of their key, as of that step, is their own.
pub fn requests_and_events_open_their_exchange()
    ensures { (nodes : List SetupNode) (configs : List Config) (steps : List Step) (i : ℕ)
        (d : SentDatagram) (s : Sends nodes configs steps i d) (from to : SocketAddrV4)
        (m : MessageValue) (key : ExchangeKey) → s.given ≡ outputs.Sends from to m
        → Contains (named_in s.given) (record { key = key; side = Opener })
        → Opened nodes configs steps i key }
{}

/// Of the Subscribes that a node sends about an eventgroup in a step, exactly those begin a subscription whose
/// counter is not the last one of that eventgroup in the node's present life: a Subscribe with the last counter
/// renews the subscription that stands. The last counter after them is that of the last one sent, or the one
/// before them where none was. The node wants no instance with a TTL of 0, which would make StopSubscribes of its
/// Subscribes (SOME/IP Service Discovery, "Eventgroup Entry").
pub fn subscribes_with_another_counter_begin()
    ensures counted { (h : History) (input : Input) (q : Eventgroup) (done : Work History)
        → AllByRecursion (λ want. want.1.ttl ≢ 0) h.config.wants.entries → step h input ≡ Ok done
        → last_counter (course_at done.state.items q).begun
        ≡ counter_after (last_counter (course_at h.items q).begun)
        (about q (flat_map subscribes_in (given_by (trail_of h input)))) }
    ensures only { (h : History) (input : Input) (q : Eventgroup) (done : Work History)
        → AllByRecursion (λ want. want.1.ttl ≢ 0) h.config.wants.entries → step h input ≡ Ok done
        → (peer : Ipv4Addr) (counter : ℕ)
        → OpensBy h input (of_subscription h.config.address peer q counter)
        → Contains (begun_after (last_counter (course_at h.items q).begun)
        (about q (flat_map subscribes_in (given_by (trail_of h input)))))
        (record { server = peer; eventgroup = q; counter = counter }) }
    ensures all { (h : History) (input : Input) (q : Eventgroup) (done : Work History)
        → AllByRecursion (λ want. want.1.ttl ≢ 0) h.config.wants.entries → step h input ≡ Ok done
        → (peer : Ipv4Addr) (counter : ℕ)
        → Contains (begun_after (last_counter (course_at h.items q).begun)
        (about q (flat_map subscribes_in (given_by (trail_of h input)))))
        (record { server = peer; eventgroup = q; counter = counter })
        → OpensBy h input (of_subscription h.config.address peer q counter) }
{}
