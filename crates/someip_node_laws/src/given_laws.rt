//! Laws of what a node gives for an input: by which rule, and what that rule was about. Each is the
//! contract of a function that does nothing.
ghost use Rattle.std.specs.Prelude.{◌≡◌, ℕ, List, ◌∷◌, ◌++◌, Option, Ok};
ghost use Rattle.std.specs.List.{AllByRecursion, Contains, flat_map};
ghost use Rattle.std.specs.declared.net.ipv4_addr.Ipv4Addr.{Ipv4Addr};
ghost use Rattle.std.specs.declared.net.socket_addr.SocketAddrV4.{SocketAddrV4};
ghost use Rattle.someip_wire.specs.declared.header.ReturnCode.{ReturnCode};
ghost use Rattle.sd_wire.specs.contents.Values.{EntryValue};
ghost use Rattle.sd_core.specs.declared.keys.InstanceId.{InstanceId};
ghost use Rattle.someip_rpc.specs.declared.ids.MessageId.{MessageId};
ghost use Rattle.someip_node_rules.specs.declared.output.Output.TheVariants.{Answered, Event, Request};
ghost use Rattle.someip_node_laws.specs.Answerings.{AnswersSubscribe, IsAnswer};
ghost use Rattle.someip_node_rules.specs.trails.Bringing.{WasBrought};
ghost use Rattle.someip_node_laws.specs.HandUps.{AnswerCame, EventCame, RequestCame};
ghost use Rattle.someip_node_rules.specs.histories.History.{History, historic};
ghost use Rattle.someip_node_rules.specs.rules.Inputs.{Datagram, Input, Publish, PublishTo};
ghost use Rattle.someip_node_rules.specs.trails.Meanings.{GivenBy};
ghost use Rattle.someip_node_rules.specs.trails.Meetings.{MetBy};
ghost use Rattle.someip_node_rules.specs.forms.Outputs.{written};
ghost use Rattle.someip_node_rules.specs.trails.Packets.{Packet};
ghost use Rattle.someip_node_laws.specs.Published.{IsPublished, IsPublishedTo};
ghost use Rattle.someip_node_rules.specs.rules.Plans.{Plan, RepliesTo, Work, run};
ghost use Rattle.someip_node_rules.specs.steps.Steps.{step};
ghost use Rattle.someip_node_rules.specs.trails.Trails.{Done, after, given_by, met_by, trail, trail_of};

/// What a plan does is what its rules do, one after the other: the outputs are what they gave, written,
/// and the history has met what each of them met. Each was done at what those before it left.
pub fn a_plan_does_its_rules()
    ensures outputs { (plan : Plan) (w : Work History)
        → (run historic plan w).outputs ≡ w.outputs ++ flat_map written (given_by (trail plan w)) }
    ensures state { (plan : Plan) (w : Work History)
        → (run historic plan w).state ≡ after w.state (met_by (trail plan w)) }
    ensures before_each { (plan : Plan) (w : Work History) (earlier later : List Done) (done : Done)
        → trail plan w ≡ earlier ++ done ∷ later
        → (done.before.state ≡ after w.state (met_by earlier))
        × (done.before.outputs ≡ w.outputs ++ flat_map written (given_by earlier)) }
{}

/// Each rule that is done in a step is one that its input brings about, done at what the rules before it
/// met: a tick brings about its own rule and the Offers and Finds that are due, a call of the application
/// the rule of that call, and a datagram the rules of the messages, segments and entries that stand in it,
/// and the replies that the rules of those entries gave before: so an Ack that is replied answers a
/// Subscribe with an endpoint that nothing spoke against where its rule was done, and a Nack one that was
/// refused there.
pub fn rules_are_brought_about()
    ensures { (h : History) (input : Input) → AllByRecursion (WasBrought h input) (trail_of h input) }
{}

/// An Ack that is replied to a datagram answers a Subscribe in it that a rule accepted in that step before,
/// by the tables that it found, and a Nack one that such a rule refused, with the cause that it told.
pub fn acks_answer_subscribes()
    ensures { (h : History) (p : Packet) (done : Done)
        (was : WasBrought h (Datagram p.from p.to p.bytes) done) (peer : Ipv4Addr)
        (entries : List EntryValue) → done.by ≡ RepliesTo peer entries → (reply : EntryValue)
        → Contains entries reply → IsAnswer reply → AnswersSubscribe p was.earlier reply }
{}

/// What a step gives, message by message and word by word, was given by a rule that the input brings
/// about, at what the rules before it met, and says by which: a message that is sent is a call, an answer, an
/// ERROR or an event of that rule, one of Service Discovery has its entries, a request, an answer and an
/// event that are handed up are those of a message that came, and so on. The outputs are that, written.
pub fn outputs_are_given()
    ensures given { (h : History) (input : Input)
        → AllByRecursion (GivenBy h input) (given_by (trail_of h input)) }
    ensures written { (h : History) (input : Input) (done : Work History) → step h input ≡ Ok done
        → done.outputs ≡ flat_map written (given_by (trail_of h input)) }
{}

/// What a history meets in a step is met by a rule that the input brings about, at what the rules before it
/// met, and says by which: a Subscribe that is accepted, an Ack, an Offer that counts are of an entry, a call
/// is that of the application, and so on. After the step, that was met.
pub fn items_are_met()
    ensures items { (h : History) (input : Input)
        → AllByRecursion (MetBy h input) (met_by (trail_of h input)) }
    ensures state { (h : History) (input : Input) (done : Work History) → step h input ≡ Ok done
        → done.state ≡ after h (met_by (trail_of h input)) }
{}

/// What is handed up came in the datagram of that step, and a rule that was done took it: a request, an
/// answer and an event have the payload of a message that stands in the datagram, or of one that a segment
/// in it completed, which the rule before took, with the parts that were held there. A request came to its
/// instance and fails no check; an answer and an event came to the client, from where a call waits for the
/// answer, or, in a NOTIFICATION, where the event is published, at the history where the rule was done.
pub fn what_is_handed_up_came()
    ensures requests { (h : History) (input : Input) (done : Work History) (token : Option ℕ)
        (instance : InstanceId) (method : ℕ) (payload : List ℕ) → step h input ≡ Ok done
        → Contains done.outputs (Request token instance method payload)
        → RequestCame h input token instance method payload }
    ensures answers { (h : History) (input : Input) (done : Work History) (message : MessageId)
        (session : ℕ) (code : ReturnCode) (payload : List ℕ) → step h input ≡ Ok done
        → Contains done.outputs (Answered message session code payload)
        → AnswerCame h input message session code payload }
    ensures events { (h : History) (input : Input) (done : Work History) (instance : InstanceId)
        (event : ℕ) (payload : List ℕ) → step h input ≡ Ok done
        → Contains done.outputs (Event instance event payload)
        → EventCame h input instance event payload }
{}

/// An event that is published goes once to each endpoint that has a live subscription to one of its
/// eventgroups, by rising address and port, and to no other; and an event that is published to one
/// endpoint once to that, which has a live subscription to the named eventgroup of the event. Each is
/// one more publication of the event, whose session counts them.
pub fn a_publication_goes_to_each_live_endpoint_once()
    ensures to_all { (h : History) (instance : InstanceId) (event : ℕ) (payload : List ℕ)
        (done : Work History) → step h (Publish instance event payload) ≡ Ok done
        → IsPublished h instance event payload done }
    ensures to_one { (h : History) (instance : InstanceId) (eventgroup : ℕ) (endpoint : SocketAddrV4)
        (event : ℕ) (payload : List ℕ) (done : Work History)
        → step h (PublishTo instance eventgroup endpoint event payload) ≡ Ok done
        → IsPublishedTo h instance eventgroup endpoint event payload done }
{}
