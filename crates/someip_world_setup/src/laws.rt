//! What the definitions behind the contracts of setups promise. Each law is the contract of a
//! function that does nothing.
ghost use Rattle.std.specs.Prelude.{◌≡◌, true, false, codes, [], ◌∷◌, ◌++◌};
ghost use Rattle.std.specs.List.{All};
ghost use Rattle.toml.specs.Data.{Data};
ghost use Rattle.someip_node_rules.specs.forms.GoodConfigs.{is_good, is_good_delay};
ghost use Rattle.someip_world_setup_keys.specs.Clashes.{has_repeat, same_number, has_clash};
ghost use Rattle.someip_world_setup.specs.Examples.{group_address, local_address, offer_with, offer_at, want_with, node_with, lying, alone_with, offering, beside, also_offering, wanting, keyed, tree_with_node, tree_with_offer, tree_with_want, tree_with_event, tree_with_eventgroup, text_with, two_nodes};
ghost use Rattle.someip_world_setup.specs.GoodSetups.{Network, IsGoodNetwork};
ghost use Rattle.someip_world_setup_keys.specs.KnownKeys.{has_unknown_key};
ghost use Rattle.someip_world_setup.specs.Readings.{setup_of_text};

/// No node of a setup is refused when it is started: `someip_node::Node::start` refuses one exactly
/// where its configuration is not good, or its delay is outside the range.
pub fn nodes_of_a_setup_can_be_started()
    ensures { (network : Network) → IsGoodNetwork network
        → All (λ node. (is_good node.config ≡ true) × (is_good_delay node.config node.delay ≡ true))
        network.nodes }
{}

/// A list repeats where an element stands again, wherever it does.
pub fn what_lists_repeat()
    ensures again { has_repeat same_number (1 ∷ 2 ∷ 1 ∷ []) ≡ true }
    ensures last { has_repeat same_number (1 ∷ 2 ∷ 2 ∷ []) ≡ true }
    ensures apart { has_repeat same_number (1 ∷ 2 ∷ 3 ∷ []) ≡ false }
    ensures empty { has_repeat same_number [] ≡ false }
{}

/// Two nodes clash by their names and addresses, and each with the group's address; two nodes may have
/// one port.
pub fn what_nodes_clash()
    ensures apart { has_clash (beside (node_with (codes "b") 2 40001 [] [])) ≡ false }
    ensures ports { has_clash (beside (node_with (codes "b") 2 40000 [] [])) ≡ false }
    ensures name { has_clash (beside (node_with (codes "a") 2 40001 [] [])) ≡ true }
    ensures address { has_clash (beside (node_with (codes "b") 1 40001 [] [])) ≡ true }
    ensures group { has_clash (alone_with (local_address 1)) ≡ true }
    ensures other_group { has_clash (alone_with (local_address 2)) ≡ false }
{}

/// Ports clash within one node, and with that of Service Discovery.
pub fn what_ports_clash()
    ensures client { has_clash (offering (offer_at 1 40000 ∷ [])) ≡ true }
    ensures discovery { has_clash (offering (offer_at 1 30490 ∷ [])) ≡ true }
    ensures other { has_clash (offering (offer_at 1 30509 ∷ [])) ≡ false }
    ensures client_discovery { has_clash (beside (node_with (codes "b") 2 30490 [] [])) ≡ true }
    ensures two { has_clash (offering (offer_at 1 30509 ∷ offer_at 2 30509 ∷ [])) ≡ true }
    ensures apart { has_clash (offering (offer_at 1 30509 ∷ offer_at 2 30510 ∷ [])) ≡ false }
{}

/// An instance may be offered once in the whole setup, and wanted once by each node.
pub fn what_instances_clash()
    ensures one_node { has_clash (offering (offer_at 1 30509 ∷ offer_at 1 30510 ∷ [])) ≡ true }
    ensures two_nodes { has_clash (also_offering (offer_at 1 30509 ∷ [])) ≡ true }
    ensures other { has_clash (also_offering (offer_at 2 30509 ∷ [])) ≡ false }
    ensures wanted { has_clash (wanting (want_with 1 ∷ want_with 1 ∷ [])) ≡ true }
    ensures wanted_other { has_clash (wanting (want_with 1 ∷ want_with 2 ∷ [])) ≡ false }
{}

/// A method may be declared once, for one of the two types.
pub fn what_methods_clash()
    ensures both { has_clash (offering (offer_with 1 30509 (421 ∷ []) (421 ∷ []) ∷ [])) ≡ true }
    ensures twice { has_clash (offering (offer_with 1 30509 (421 ∷ 421 ∷ []) [] ∷ [])) ≡ true }
    ensures apart { has_clash (offering (offer_with 1 30509 (421 ∷ []) (422 ∷ []) ∷ [])) ≡ false }
{}

/// A liar may have neither an offer nor a want, and a node that is none may have both.
pub fn what_liars_clash()
    ensures bare { has_clash (beside (lying (node_with (codes "b") 2 40001 [] []))) ≡ false }
    ensures offer { has_clash (beside (lying (node_with (codes "b") 2 40001 (offer_at 2 30509 ∷ []) [])))
        ≡ true }
    ensures want { has_clash (beside (lying (node_with (codes "b") 2 40001 [] (want_with 1 ∷ []))))
        ≡ true }
    ensures honest { has_clash
        (beside (node_with (codes "b") 2 40001 (offer_at 2 30509 ∷ []) (want_with 1 ∷ []))) ≡ false }
{}

/// A key is known in its own kind of table, and in no other, whatever its value.
pub fn what_keys_are_known()
    ensures setup { (d : Data) → has_unknown_key (keyed (codes "group") d) ≡ false }
    ensures not_setup { (d : Data) → has_unknown_key (keyed (codes "port") d) ≡ true }
    ensures node { (d : Data) → has_unknown_key (tree_with_node (keyed (codes "name") d)) ≡ false }
    ensures not_node { (d : Data) → has_unknown_key (tree_with_node (keyed (codes "group") d)) ≡ true }
    ensures liar { (d : Data) → has_unknown_key (tree_with_node (keyed (codes "liar") d)) ≡ false }
    ensures offer { (d : Data) → has_unknown_key (tree_with_offer (keyed (codes "minor") d)) ≡ false }
    ensures not_offer { (d : Data) → has_unknown_key (tree_with_offer (keyed (codes "groups") d)) ≡ true }
    ensures want { (d : Data) → has_unknown_key (tree_with_want (keyed (codes "major") d)) ≡ false }
    ensures not_want { (d : Data) → has_unknown_key (tree_with_want (keyed (codes "minor") d)) ≡ true }
    ensures event { (d : Data) → has_unknown_key (tree_with_event (keyed (codes "groups") d)) ≡ false }
    ensures not_event { (d : Data) → has_unknown_key (tree_with_event (keyed (codes "events") d)) ≡ true }
    ensures eventgroup { (d : Data) → has_unknown_key (tree_with_eventgroup (keyed (codes "events") d)) ≡ false }
    ensures not_eventgroup { (d : Data) → has_unknown_key (tree_with_eventgroup (keyed (codes "groups") d)) ≡ true }
{}

/// A text says its values and the defaults, and nothing where a value is out of range, a key unknown or
/// values clash.
pub fn what_texts_say()
    ensures values { setup_of_text (text_with (codes "239.0.0.1") []) ≡ Some (alone_with group_address) }
    ensures two { setup_of_text two_nodes ≡ Some (wanting (want_with 1 ∷ [])) }
    ensures range { setup_of_text (text_with (codes "239.0.0.1") (codes "base=0" ++ 10 ∷ [])) ≡ None }
    ensures key { setup_of_text (text_with (codes "239.0.0.1") (codes "bass=1" ++ 10 ∷ [])) ≡ None }
    ensures clash { setup_of_text (text_with (codes "192.168.0.1") []) ≡ None }
    ensures toml { setup_of_text (codes "group=") ≡ None }
{}
