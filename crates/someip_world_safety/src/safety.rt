//! What the users of a network can rely on, in every run over the nodes of a setup.
ghost use Rattle.std.specs.Prelude.{◌≡◌, ◌≤◌, ℕ, suc, List, length, take, Ok};
ghost use Rattle.someip_node_rules.specs.declared.config.Config.{Config};
ghost use Rattle.someip_world_rules.specs.Liars.{HasNoLiars};
ghost use Rattle.someip_world_rules.specs.Runs.{AreCopies, World, run_of};
ghost use Rattle.someip_world_rules.specs.Turns.{LeadTo};
ghost use Rattle.someip_world_rules.specs.declared.line.Line.{Line};
ghost use Rattle.someip_world_rules.specs.declared.reuse.Reuse.{Reuse};
ghost use Rattle.someip_world_rules.specs.declared.reuse.Reuse.TheVariants.{Clean};
ghost use Rattle.someip_world_rules.specs.exchanges.CleanReuse.{IsCleanBefore, IsVerdictOn};
ghost use Rattle.someip_world_safety.specs.CleanRuns.{AreShort, CountsOnce, IsCleanWhereCountedOnce};
ghost use Rattle.someip_world_safety.specs.Safety.{AcknowledgedAreSafe, AnswersAreSafe, EventsAreSafe, HonestAcknowledgedAreSafe, HonestAnswersAreSafe, HonestEventsAreSafe, HonestOffersAreConfigured, IsSafeAmongLiarsOn, IsSafeOn, OffersAreConfigured, PublishesToAll, PublishesToOne};
ghost use Rattle.someip_world_safety.specs.Subscriptions.{HonestSubscriptionsAreSafe, SubscriptionsAreSafe};

use someip_world_rules::run_laws::{all_that_a_setup_gives_fits, known_offers_are_of_the_setup};
use someip_world_schedule::Step;
use someip_world_setup::Setup;

/// Runs are safe, whatever the setup and the steps: also among liars, which send any bytes under their own
/// addresses.
///
/// Of each step up to which, and with which, keys are reused cleanly: an answer that is handed up of a message
/// which came from no liar is all that the step gives, and is for a call of the client's present life which got
/// no answer before; and its code and payload are those that the server at the call's peer endpoint earlier
/// produced, the application or a failed check, for a request that belongs to that call and has exactly its
/// payload. An event that is handed up of a message which came from no liar has the payload of an earlier
/// publication of that event from the endpoint of the known offer, which was sent to this client's endpoint
/// while that was live there for an eventgroup of the event; and the client is subscribed to an eventgroup to
/// which its own set-up gives the event. A client that tells, by an Ack which came from no liar, that it is
/// subscribed with a counter began that subscription at the server from which the Ack came, and the server
/// accepted a Subscribe that belongs to this beginning. And a client counts itself subscribed before a step, up
/// to which keys are reused cleanly, at a server that is no liar only where that server accepted such a
/// Subscribe.
///
/// Of each step of every run: an event that a node publishes is sent once to each endpoint that is then live
/// for one of its eventgroups, by the server's own clock, and to no other; one that is published to one endpoint
/// is sent once to that, which is live. The endpoint of an offer that a node knows from a peer that is no liar is
/// one that a node is configured with for the instance, in the major version that is wanted.
pub fn runs_are_safe(setup: &Setup, steps: &[Step])
    ensures answers { (configs : List Config) (n : ℕ) → AreCopies setup.now.nodes configs
        → IsCleanBefore setup.now.nodes configs steps.now (suc n)
        → HonestAnswersAreSafe setup.now.nodes configs steps.now n }
    ensures events { (configs : List Config) (n : ℕ) → AreCopies setup.now.nodes configs
        → IsCleanBefore setup.now.nodes configs steps.now (suc n)
        → HonestEventsAreSafe setup.now.nodes configs steps.now n }
    ensures acknowledged { (configs : List Config) (n : ℕ) → AreCopies setup.now.nodes configs
        → IsCleanBefore setup.now.nodes configs steps.now (suc n)
        → HonestAcknowledgedAreSafe setup.now.nodes configs steps.now n }
    ensures subscriptions { (configs : List Config) (n : ℕ) (w : World) → AreCopies setup.now.nodes configs
        → n ≤ length steps.now → LeadTo setup.now.nodes configs (take n steps.now) w
        → IsCleanBefore setup.now.nodes configs steps.now n
        → HonestSubscriptionsAreSafe setup.now.nodes configs steps.now n w }
    ensures publications { (configs : List Config) (n : ℕ)
        → PublishesToAll setup.now.nodes configs steps.now n }
    ensures publications_to_one { (configs : List Config) (n : ℕ)
        → PublishesToOne setup.now.nodes configs steps.now n }
    ensures offers { (configs : List Config) (n : ℕ) → AreCopies setup.now.nodes configs
        → HonestOffersAreConfigured setup.now.nodes configs steps.now n }
{
    all_that_a_setup_gives_fits(setup, steps);
    known_offers_are_of_the_setup(setup, steps);
    setup.nodes();
}

/// In a setup without liars what [`runs_are_safe`] says holds of every answer, every event, every subscription and
/// every offer.
pub fn runs_without_liars_are_safe(setup: &Setup, steps: &[Step])
    ensures answers { HasNoLiars setup.now.nodes → (configs : List Config) (n : ℕ)
        → AreCopies setup.now.nodes configs → IsCleanBefore setup.now.nodes configs steps.now (suc n)
        → AnswersAreSafe setup.now.nodes configs steps.now n }
    ensures events { HasNoLiars setup.now.nodes → (configs : List Config) (n : ℕ)
        → AreCopies setup.now.nodes configs → IsCleanBefore setup.now.nodes configs steps.now (suc n)
        → EventsAreSafe setup.now.nodes configs steps.now n }
    ensures acknowledged { HasNoLiars setup.now.nodes → (configs : List Config) (n : ℕ)
        → AreCopies setup.now.nodes configs → IsCleanBefore setup.now.nodes configs steps.now (suc n)
        → AcknowledgedAreSafe setup.now.nodes configs steps.now n }
    ensures subscriptions { HasNoLiars setup.now.nodes → (configs : List Config) (n : ℕ) (w : World)
        → AreCopies setup.now.nodes configs → n ≤ length steps.now
        → LeadTo setup.now.nodes configs (take n steps.now) w
        → IsCleanBefore setup.now.nodes configs steps.now n
        → SubscriptionsAreSafe setup.now.nodes configs steps.now n w }
    ensures publications { HasNoLiars setup.now.nodes → (configs : List Config) (n : ℕ)
        → PublishesToAll setup.now.nodes configs steps.now n }
    ensures publications_to_one { HasNoLiars setup.now.nodes → (configs : List Config) (n : ℕ)
        → PublishesToOne setup.now.nodes configs steps.now n }
    ensures offers { HasNoLiars setup.now.nodes → (configs : List Config) (n : ℕ)
        → AreCopies setup.now.nodes configs → OffersAreConfigured setup.now.nodes configs steps.now n }
{
    runs_are_safe(setup, steps);
}

/// The run that a trace tells is safe, up to the step that its verdict names or, where that is `Clean`, in all
/// steps: as `runs_are_safe` says it, and in a setup without liars as `runs_without_liars_are_safe` does. And
/// each line of the trace that tells of an answer, of an event or that a client is subscribed tells what its
/// node gave in its step, which is safe so.
pub fn runs_are_safe_by_their_verdict(setup: &Setup, steps: &[Step])
    ensures among_liars { (lines : List Line) (verdict : Reuse)
        → IsVerdictOn setup.now.nodes steps.now lines verdict
        → IsSafeAmongLiarsOn setup.now.nodes steps.now lines verdict }
    ensures without_liars { HasNoLiars setup.now.nodes → (lines : List Line) (verdict : Reuse)
        → IsVerdictOn setup.now.nodes steps.now lines verdict
        → IsSafeOn setup.now.nodes steps.now lines verdict }
{
    runs_are_safe(setup, steps);
    runs_without_liars_are_safe(setup, steps);
}

/// A run in which no counter of a node gives one number in two steps, and no message goes in segments, reuses its
/// keys cleanly, whatever liars send, and the verdict on its trace is `Clean`. The counters are those of the
/// sessions of each Message ID that is called and of each event, and of the subscriptions of each eventgroup. A
/// node that is started again counts from the start again.
pub fn runs_that_count_once_are_clean(setup: &Setup, steps: &[Step])
    ensures clean { (configs : List Config) → AreCopies setup.now.nodes configs
        → CountsOnce setup.now.nodes configs steps.now → AreShort setup.now.nodes configs steps.now
        → (n : ℕ) → IsCleanBefore setup.now.nodes configs steps.now n }
    ensures verdict { (lines : List Line) (verdict : Reuse)
        → IsVerdictOn setup.now.nodes steps.now lines verdict
        → IsCleanWhereCountedOnce setup.now.nodes steps.now lines verdict }
{
    all_that_a_setup_gives_fits(setup, steps);
    setup.nodes();
}
