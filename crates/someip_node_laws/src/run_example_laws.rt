//! What came, and what was replied, by example, computed from the definitions over the worked run of two nodes: a node
//! offers an instance; the other finds it, calls it, subscribes to its eventgroup and takes an event. Each law is the
//! contract of a function that does nothing.
ghost use Rattle.std.specs.Prelude.{ℕ, List, [], ◌∷◌};
ghost use Rattle.someip_wire.specs.declared.header.ReturnCode.{ReturnCode};
ghost use Rattle.someip_rpc.specs.declared.ids.MessageId.{MessageId};
ghost use Rattle.someip_node_rules.specs.trails.Bringing.{RepliesToEntry};
ghost use Rattle.someip_node_rules.specs.forms.Entries.{ack_entry};
ghost use Rattle.someip_node_laws.specs.HandUps.{AnswerCame};
ghost use Rattle.someip_node_rules.specs.histories.Items.{OfferStopped};
ghost use Rattle.someip_node_rules.specs.trails.Trails.{trail_of};
ghost use Rattle.someip_node_laws.specs.WorkedExamples.{instance, subscribe_head};
ghost use Rattle.someip_node_laws.specs.WorkedRun.{OffersEvent, WantsEvent, having_met, answer_packet, answered_items, called_items, comes, method, replied_items, subscribe_packet};
ghost use Rattle.someip_node_rules.specs.declared.config.Config.{Config};

/// The answer to the call of the worked run came to the client that awaits it. Where the same datagram comes
/// once more, no answer came with it: what takes it there finds no call that waits.
pub fn answers_come_by_example()
    ensures awaited { (config : Config) → WantsEvent config
        → AnswerCame (having_met config called_items) (comes answer_packet)
        method 1 (record { 0 = 0 }) (3 ∷ []) }
    ensures taken_before { (config : Config) → WantsEvent config → (message : MessageId) (session : ℕ)
        (code : ReturnCode) (payload : List ℕ)
        → ¬ (AnswerCame (having_met config replied_items) (comes answer_packet)
        message session code payload) }
{}

/// The Ack of the worked run is replied to its Subscribe. Where the offer was stopped before, no rule that is
/// done with the same Subscribe replies an Ack.
pub fn replies_by_example()
    ensures accepted { (config : Config) → OffersEvent config
        → RepliesToEntry subscribe_packet
        (trail_of (having_met config answered_items) (comes subscribe_packet))
        (ack_entry subscribe_head 3) }
    ensures refused { (config : Config) → OffersEvent config
        → ¬ (RepliesToEntry subscribe_packet
        (trail_of (having_met config (OfferStopped instance ∷ answered_items)) (comes subscribe_packet))
        (ack_entry subscribe_head 3)) }
{}
