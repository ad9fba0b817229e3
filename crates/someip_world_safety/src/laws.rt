//! Laws of safety, of every run, or of every one in which keys are reused cleanly. Each is the contract of a
//! function that does nothing.
//!
//! A reply to injected bytes names a key, and belongs to no exchange, since none of that key is ever
//! opened: an exchange is what was opened. So the definition of what belongs to what stays as it was, and a
//! law says it.
//!
//! Laws of runs ask of configurations what they need, and no more: addresses that differ, none of them the
//! group's, each offer at its node's address and the only one of its instance. Each setup that was read is
//! so, by laws of their own, and `run` asks nothing.
ghost use Rattle.std.specs.Prelude.{◌≡◌, ◌≤◌, ℕ, suc, false, List, length, take, slice_get, Some};
ghost use Rattle.std.specs.List.{AllByRecursion};
ghost use Rattle.someip_node_rules.specs.declared.config.Config.{Config};
ghost use Rattle.someip_node_laws.specs.Fitting.{FitsConfig};
ghost use Rattle.someip_world_schedule.specs.declared.step.Step.{Step};
ghost use Rattle.someip_world_setup.specs.declared.setup_node.SetupNode.{SetupNode};
ghost use Rattle.someip_world_setup.specs.GoodSetups.{IsGoodNetwork, Network};
ghost use Rattle.someip_world_rules.specs.Announced.{AllFits, FitsStep};
ghost use Rattle.someip_world_rules.specs.Datagrams.{SentDatagram};
ghost use Rattle.someip_world_rules.specs.Deliveries.{IsInjected};
ghost use Rattle.someip_world_rules.specs.Liars.{HasNoLiars, IsHonest, is_liar_at};
ghost use Rattle.someip_world_rules.specs.Runs.{AreCopies, World};
ghost use Rattle.someip_world_rules.specs.Turns.{LeadTo};
ghost use Rattle.someip_world_rules.specs.exchanges.Belonging.{Belongs};
ghost use Rattle.someip_world_rules.specs.exchanges.CleanReuse.{IsCleanBefore};
ghost use Rattle.someip_world_rules.specs.exchanges.Openings.{Opened};
ghost use Rattle.someip_world_rules.specs.declared.exchanges.exchange_key.ExchangeKey.{ExchangeKey};
ghost use Rattle.someip_world_safety.specs.Addresses.{AreOffGroup, HaveOwnAddresses};
ghost use Rattle.someip_world_safety.specs.AwaitedCalls.{CallsAreAwaited};
ghost use Rattle.someip_world_safety.specs.CleanRuns.{AreShort, OpensOnce};
ghost use Rattle.someip_world_safety.specs.OpenRequests.{RequestsAreOpen};
ghost use Rattle.someip_world_safety.specs.OwnOffers.{HaveOwnOffers};
ghost use Rattle.someip_world_safety.specs.Safety.{AcknowledgedAreSafe, AnswersAreSafe, EventsAreSafe, HonestAcknowledgedAreSafe, HonestAnswersAreSafe, HonestEventsAreSafe, HonestOffersAreConfigured, OffersAreConfigured, PublishesToAll, PublishesToOne};
ghost use Rattle.someip_world_safety.specs.Subscriptions.{HonestSubscriptionsAreSafe, SubscriptionsAreSafe};

/// A client counts itself subscribed, before each step up to which keys are reused cleanly, only where the
/// server at which the subscription was begun accepted a Subscribe that belongs to this beginning, and no
/// exchange of its key was begun since. Where it tells that it is subscribed, by an Ack that came from a server,
/// in a step up to which and with which keys are reused cleanly, that server accepted the Subscribe so. The server
/// is no liar, all that is given fits its fields, nodes have addresses of their own, and none has that of the
/// group.
pub fn subscriptions_were_accepted()
    ensures honest { (nodes : List SetupNode) (configs : List Config) (steps : List Step)
        → AllFits nodes configs steps → HaveOwnAddresses configs → AreOffGroup configs
        → (n : ℕ) (w : World) → n ≤ length steps → LeadTo nodes configs (take n steps) w
        → IsCleanBefore nodes configs steps n → HonestSubscriptionsAreSafe nodes configs steps n w }
    ensures without_liars { (nodes : List SetupNode) (configs : List Config) (steps : List Step)
        → HasNoLiars nodes → AllFits nodes configs steps → HaveOwnAddresses configs → AreOffGroup configs
        → (n : ℕ) (w : World) → n ≤ length steps → LeadTo nodes configs (take n steps) w
        → IsCleanBefore nodes configs steps n → SubscriptionsAreSafe nodes configs steps n w }
    ensures told { (nodes : List SetupNode) (configs : List Config) (steps : List Step)
        → AllFits nodes configs steps → HaveOwnAddresses configs → AreOffGroup configs
        → (n : ℕ) → IsCleanBefore nodes configs steps (suc n)
        → HonestAcknowledgedAreSafe nodes configs steps n }
    ensures told_without_liars { (nodes : List SetupNode) (configs : List Config) (steps : List Step)
        → HasNoLiars nodes → AllFits nodes configs steps → HaveOwnAddresses configs → AreOffGroup configs
        → (n : ℕ) → IsCleanBefore nodes configs steps (suc n) → AcknowledgedAreSafe nodes configs steps n }
{}

/// In a network that was read, nodes have addresses of their own, and none has that of the group.
pub fn addresses_are_apart()
    ensures { (network : Network) (configs : List Config) → IsGoodNetwork network
        → AreCopies network.nodes configs → HaveOwnAddresses configs × AreOffGroup configs }
{}

/// A call waits for its answer at a client, before each step, only where the client made it in a step of its
/// present life, at the endpoint that it awaits the answer of. Since then it took no answer to it, and made
/// no other REQUEST of its Message ID and session.
pub fn calls_that_wait_were_made()
    ensures { (nodes : List SetupNode) (configs : List Config) (steps : List Step) (n : ℕ) (w : World)
        → n ≤ length steps → LeadTo nodes configs (take n steps) w
        → CallsAreAwaited nodes configs steps n w }
{}

/// A request is open at a server under a token, before each step, only where the server handed it up under
/// this token in a step of its present life: as it took the REQUEST from an endpoint to an instance that it
/// offers. Since then it handed up no other of that token.
pub fn open_requests_were_handed_up()
    ensures { (nodes : List SetupNode) (configs : List Config) (steps : List Step) (n : ℕ) (w : World)
        → n ≤ length steps → LeadTo nodes configs (take n steps) w
        → RequestsAreOpen nodes configs steps n w }
{}

/// An event that is published in a step goes once to each endpoint that is live at its node in that moment
/// for one of the event's eventgroups, and to no other; one that is published to one endpoint once to that,
/// which is live for the named eventgroup of the event. The endpoint of each offer that a node knows before a
/// step, from a peer that is no liar, is one that a node is configured with for the instance, in the major
/// version in which it is wanted, where the numbers of the configurations and of the steps fit their fields.
pub fn publications_go_to_subscribers()
    ensures to_all { (nodes : List SetupNode) (configs : List Config) (steps : List Step) (i : ℕ)
        → PublishesToAll nodes configs steps i }
    ensures to_one { (nodes : List SetupNode) (configs : List Config) (steps : List Step) (i : ℕ)
        → PublishesToOne nodes configs steps i }
    ensures offers { (nodes : List SetupNode) (configs : List Config) (steps : List Step) (n : ℕ)
        → AllByRecursion FitsConfig configs → AllByRecursion FitsStep steps
        → HonestOffersAreConfigured nodes configs steps n }
    ensures offers_without_liars { (nodes : List SetupNode) (configs : List Config) (steps : List Step)
        (n : ℕ) → HasNoLiars nodes → AllByRecursion FitsConfig configs → AllByRecursion FitsStep steps
        → OffersAreConfigured nodes configs steps n }
{}

/// An answer that a step hands up, up to which and with which keys are reused cleanly, is all that the step
/// gives, and is for a call of the client's present life which got none before; and in an earlier step the
/// server at the call's peer endpoint produced just this code and payload, for a request that belongs to that
/// call and has exactly its payload: its application answered, or the request failed a check. The message that
/// it was handed up of came from no liar, all that is given fits its fields, nodes have addresses of their own,
/// and offers are at them.
pub fn answers_are_the_servers()
    ensures honest { (nodes : List SetupNode) (configs : List Config) (steps : List Step)
        → AllFits nodes configs steps → HaveOwnAddresses configs → HaveOwnOffers configs → (n : ℕ)
        → IsCleanBefore nodes configs steps (suc n) → HonestAnswersAreSafe nodes configs steps n }
    ensures without_liars { (nodes : List SetupNode) (configs : List Config) (steps : List Step)
        → HasNoLiars nodes → AllFits nodes configs steps → HaveOwnAddresses configs
        → HaveOwnOffers configs → (n : ℕ) → IsCleanBefore nodes configs steps (suc n)
        → AnswersAreSafe nodes configs steps n }
{}

/// An event that a step hands up, up to which and with which keys are reused cleanly, has the payload of an
/// earlier publication of that event from the endpoint of the known offer, which was sent to this client's
/// endpoint while that was live there for one of the event's eventgroups; and the client is subscribed to an
/// eventgroup to which its own set-up gives the event. The message that it was handed up of came from no liar,
/// and all that is given fits its fields.
pub fn events_that_are_handed_up_were_published()
    ensures honest { (nodes : List SetupNode) (configs : List Config) (steps : List Step)
        → AllFits nodes configs steps → (n : ℕ) → IsCleanBefore nodes configs steps (suc n)
        → HonestEventsAreSafe nodes configs steps n }
    ensures without_liars { (nodes : List SetupNode) (configs : List Config) (steps : List Step)
        → HasNoLiars nodes → AllFits nodes configs steps → (n : ℕ)
        → IsCleanBefore nodes configs steps (suc n) → EventsAreSafe nodes configs steps n }
{}

/// In a network that was read, each offer of a node is at the node's address, and is the only one of its
/// instance there.
pub fn offers_are_at_their_nodes()
    ensures { (network : Network) (configs : List Config) → IsGoodNetwork network
        → AreCopies network.nodes configs → HaveOwnOffers configs }
{}

/// A run in which no key is opened in two steps, and no message that is sent goes in segments, reuses its keys
/// cleanly, whatever liars send. All that is given fits its fields, nodes have addresses of their own, none has
/// that of the group, and offers are at their nodes' addresses.
pub fn runs_that_open_each_key_once_are_clean()
    ensures { (nodes : List SetupNode) (configs : List Config) (steps : List Step)
        → AllFits nodes configs steps → HaveOwnAddresses configs → AreOffGroup configs
        → HaveOwnOffers configs
        → OpensOnce nodes configs steps → AreShort nodes configs steps
        → (n : ℕ) → IsCleanBefore nodes configs steps n }
{}

/// A node that is no liar has an address that is no liar's, where nodes have addresses of their own.
pub fn honest_nodes_have_honest_addresses()
    ensures { (nodes : List SetupNode) (configs : List Config) → HaveOwnAddresses configs
        → (place : ℕ) (config : Config) → slice_get configs place ≡ Some config
        → is_liar_at nodes place ≡ false → IsHonest nodes configs config.address }
{}

/// Injected bytes belong to no exchange: they are none of what nodes send. And what a node sends in reply to
/// them belongs to none: no exchange of the key that it names is ever opened, where nodes have addresses of
/// their own. An exchange is what was opened.
pub fn replies_to_injected_bytes_belong_to_none()
    ensures bytes { (nodes : List SetupNode) (configs : List Config) (steps : List Step) (i since : ℕ)
        (d e : SentDatagram) (key : ExchangeKey) → IsInjected nodes configs steps i e
        → Belongs nodes configs steps i d key since → ⊥ }
    ensures replies { (nodes : List SetupNode) (configs : List Config) (steps : List Step) (i since : ℕ)
        (d e : SentDatagram) (key : ExchangeKey) → HaveOwnAddresses configs
        → IsInjected nodes configs steps since e
        → Belongs nodes configs steps i d key since → (k : ℕ) → Opened nodes configs steps k key → ⊥ }
{}
