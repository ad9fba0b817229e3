//! Laws of how many subscriptions the eventgroups of a node have. Each is the contract of a function that
//! does nothing.
ghost use Rattle.std.specs.Prelude.{◌≡◌, ◌≤◌, ℕ, IsTrue, List, [], ◌∷◌, length};
ghost use Rattle.std.specs.List.{AllByRecursion, IsDistinct};
ghost use Rattle.std.specs.Ordering.{eq_by_cmp};
ghost use Rattle.sd_core.specs.declared.keys.InstanceId.{InstanceId};
ghost use Rattle.sd_core.specs.declared.subscription.Subscription.{Subscription};
ghost use Rattle.sd_core.specs.SubscriberTables.{is_to};
ghost use Rattle.sd_core.specs.SubscriptionKeys.{subscription_cmp};
ghost use Rattle.someip_node_rules.specs.declared.config.Config.{Config};
ghost use Rattle.someip_node_rules.specs.steps.Advances.{after_inputs};
ghost use Rattle.someip_node_rules.specs.histories.History.{start_of};
ghost use Rattle.someip_node_rules.specs.rules.Inputs.{Input};
ghost use Rattle.someip_node_rules.specs.histories.Items.{Ticked};
ghost use Rattle.someip_node_laws.specs.LimitExamples.{accepted_with};
ghost use Rattle.someip_node_rules.specs.steps.Lives.{is_live};
ghost use Rattle.someip_node_rules.specs.steps.SubscriberLimits.{AreWithinLimits, most_subscribers};
ghost use Rattle.someip_node_rules.specs.histories.SubscriberQuestions.{subscribers_in};
ghost use Rattle.someip_node_laws.specs.WorkedExamples.{instance};

/// Whatever comes to a node after its start, step by step, no eventgroup ever has more live subscriptions
/// than the node is set up for: they are counted by their keys, and so is each list of different ones
/// (SOME/IP Service Discovery Protocol, "Publish/Subscribe"; the limit is our own).
pub fn subscribers_stay_within_limits()
    ensures counted { (config : Config) (delay : ℕ) (inputs : List Input)
        → AreWithinLimits config
        (subscribers_in (after_inputs (start_of config delay) inputs).items) }
    ensures listed { (config : Config) (delay : ℕ) (inputs : List Input) (instance : InstanceId)
        (eventgroup : ℕ) (live : List Subscription) → IsDistinct (eq_by_cmp subscription_cmp) live
        → AllByRecursion (λ s. IsTrue (is_to instance eventgroup s)
        × IsTrue (is_live (after_inputs (start_of config delay) inputs).items s)) live
        → length live ≤ most_subscribers config instance }
{}

/// With room for two subscriptions, two are within the limits, also where one was renewed, three are not,
/// and they are once their time has passed.
pub fn limits_by_example()
    ensures as_many { (config : Config) → most_subscribers config instance ≡ 2
        → AreWithinLimits config (subscribers_in (accepted_with (1 ∷ 0 ∷ []))) }
    ensures renewed { (config : Config) → most_subscribers config instance ≡ 2
        → AreWithinLimits config (subscribers_in (accepted_with (0 ∷ 1 ∷ 0 ∷ []))) }
    ensures one_more { (config : Config) → most_subscribers config instance ≡ 2
        → ¬ (AreWithinLimits config (subscribers_in (accepted_with (2 ∷ 1 ∷ 0 ∷ [])))) }
    ensures passed { (config : Config) → most_subscribers config instance ≡ 2
        → AreWithinLimits config (subscribers_in (Ticked 3000 ∷ accepted_with (2 ∷ 1 ∷ 0 ∷ []))) }
{}
