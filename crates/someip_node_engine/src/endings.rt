//! Known offers and subscriptions that end.
ghost use Rattle.std.specs.Prelude.{◌≡◌, ◌++◌, ◌∷◌, [], if◌then◌else◌, filter, is_some, OnOk};
ghost use Rattle.std.specs.List.{prefix_len};
ghost use Rattle.std.specs.List.Sorted.{IsStrictlySortedBy};
ghost use Rattle.std.specs.Ordering.{is_lt};
ghost use Rattle.sd_core.specs.Eventgroups.{eventgroup_cmp};
ghost use Rattle.sd_core.specs.Keys.{instance_cmp};
ghost use Rattle.someip_node_rules.specs.declared.output.Output.TheVariants.{Gone, Unsubscribed};
ghost use Rattle.someip_node_rules.specs.rules.Outcomes.{endings, unsubscribed};
ghost use Rattle.someip_node_rules.specs.forms.Setups.{wanted_as, wanted_instances};

use sd_core::{Eventgroup, InstanceId};
use someip_node_rules::{Config, Output};
use std::alloc::AllocError;

/// Tells what ended, by rising instance: the known offers of these instances, and with each the
/// subscriptions of its eventgroups among these, as far as the instances are wanted. Both lists rise,
/// so it goes over each once; it looks up whether an instance is wanted, and never goes over the wants.
pub(crate) fn tell_endings(
    config: &Config,
    gone: &[InstanceId],
    eventgroups: &[Eventgroup],
    outputs: &mut Vec<Output>,
) -> Result<(), AllocError>
    requires gone { IsStrictlySortedBy instance_cmp gone.now }
    requires eventgroups { IsStrictlySortedBy eventgroup_cmp eventgroups.now }
    ensures { OnOk result (outputs.new.items ≡ outputs.old.items
        ++ endings (wanted_instances config.now) gone.now eventgroups.now) }
{
    wants_rise(config);
    let mut rest = eventgroups;
    for instance in gone {
        let (front, behind) = rest.split_at(count_before(*instance, rest));
        tell_lapses(config, front, outputs)?;
        tell_gone(config, *instance, outputs)?;
        rest = behind;
    }
    tell_lapses(config, rest, outputs)
}

/// The instances that are wanted rise, since they are the keys of a map.
fn wants_rise(config: &Config)
    ensures { IsStrictlySortedBy instance_cmp (wanted_instances config.now) }
{
    let _ = config.wants.len();
}

/// How many of these eventgroups, from the first on, are of instances before this one.
fn count_before(instance: InstanceId, eventgroups: &[Eventgroup]) -> usize
    ensures { result
        ≡ prefix_len (λ g. is_lt (instance_cmp g.instance instance)) eventgroups.now }
{
    eventgroups
        .iter()
        .take_while(|eventgroup| eventgroup.instance < instance)
        .count()
}

/// Tells that the known offer of an instance ended, if it is wanted.
fn tell_gone(
    config: &Config,
    instance: InstanceId,
    outputs: &mut Vec<Output>,
) -> Result<(), AllocError>
    ensures { OnOk result (outputs.new.items ≡ outputs.old.items
        ++ (if is_some (wanted_as config.now instance) then Gone instance ∷ [] else [])) }
{
    if config.wants.contains_key(&instance) {
        outputs.push(Output::Gone { instance })?;
    }
    Ok(())
}

/// Tells that the subscription of an eventgroup ended, if its instance is wanted.
fn tell_lapse(
    config: &Config,
    eventgroup: Eventgroup,
    outputs: &mut Vec<Output>,
) -> Result<(), AllocError>
    ensures { OnOk result (outputs.new.items ≡ outputs.old.items
        ++ (if is_some (wanted_as config.now eventgroup.instance)
        then Unsubscribed eventgroup ∷ [] else [])) }
{
    if config.wants.contains_key(&eventgroup.instance) {
        outputs.push(Output::Unsubscribed { eventgroup })?;
    }
    Ok(())
}

/// Tells that the subscriptions ended of those of these eventgroups whose instances are wanted.
fn tell_lapses(
    config: &Config,
    eventgroups: &[Eventgroup],
    outputs: &mut Vec<Output>,
) -> Result<(), AllocError>
    ensures { OnOk result (outputs.new.items ≡ outputs.old.items
        ++ unsubscribed (filter (λ g. is_some (wanted_as config.now g.instance)) eventgroups.now)) }
{
    for eventgroup in eventgroups {
        tell_lapse(config, *eventgroup, outputs)?;
    }
    Ok(())
}

/// Tells that the subscriptions of these eventgroups ended.
pub(crate) fn tell_unsubscribed(
    eventgroups: &[Eventgroup],
    outputs: &mut Vec<Output>,
) -> Result<(), AllocError>
    ensures { OnOk result (outputs.new.items
        ≡ outputs.old.items ++ unsubscribed eventgroups.now) }
{
    for eventgroup in eventgroups {
        outputs.push(Output::Unsubscribed {
            eventgroup: *eventgroup,
        })?;
    }
    Ok(())
}
