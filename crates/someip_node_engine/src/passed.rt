//! What a moment brings.
ghost use Rattle.std.proofs.Props.{props};
ghost use Rattle.std.specs.List.Sorted.{IsStrictlySortedBy};
ghost use Rattle.sd_core.specs.Eventgroups.{eventgroup_cmp};
ghost use Rattle.sd_core.specs.Keys.{instance_cmp};

use sd_core::{Eventgroup, InstanceId};
use someip_rpc::CallKey;
use std::collections::BTreeSet;

/// What a moment brings.
#[derive(Drop)]
pub(crate) struct Passed {
    /// The calls whose time has passed.
    pub(crate) calls: BTreeSet<CallKey>,
    /// The instances whose known offer has passed, by rising instance.
    pub(crate) gone: Vec<InstanceId>,
    /// The eventgroups whose subscriptions ended, by rising instance and Eventgroup ID.
    pub(crate) lapsed: Vec<Eventgroup>,
    /// The instances that send an Offer, by rising instance.
    pub(crate) offers: Vec<InstanceId>,
    /// The instances that send a Find, by rising instance.
    pub(crate) finds: Vec<InstanceId>,
    ghost gone_rise: { IsStrictlySortedBy instance_cmp gone.items } by { Prim.hlevel props },
    ghost lapsed_rise: { IsStrictlySortedBy eventgroup_cmp lapsed.items } by { Prim.hlevel props },
}
