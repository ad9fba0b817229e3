//! Who acts in a run: its nodes and its liars.
ghost use Rattle.std.specs.Prelude.{◌≡◌, Bool, IfOk, IfErr, OnOk};
ghost use Rattle.someip_node_rules.specs.histories.History.{History};
ghost use Rattle.someip_world_rules.specs.Deeds.{deed_at};
ghost use Rattle.someip_world.specs.Acting.{Acts, actor_of, again, role_of};
ghost use Rattle.someip_world.specs.Running.{IsStarted};

use crate::log::Log;
use crate::lying::lie;
use crate::performing::{StepError, perform};
use someip_node::{Node, Output};
use someip_tp::Reassembly;
use someip_world_schedule::Step;
use someip_world_setup::SetupNode;
use std::alloc::{AllocError, Global};
use std::net::Ipv4Addr;

/// What stands at a place of the setup.
#[derive(Drop)]
pub(crate) enum Actor<R: Reassembly> {
    /// A node.
    Node(Node<R>),
    /// A liar, by its address. It runs no node.
    Liar(Ipv4Addr),
}

/// A node of a setup, started with its delay, or a liar of it.
pub(crate) fn started<R: Reassembly>(
    alloc: Global,
    node: &SetupNode,
) -> Result<Actor<R>, AllocError>
    ensures { IfOk result (IsStarted node.now) }
{
    if node.is_liar {
        return Ok(Actor::Liar(node.config.address));
    }
    let config = node.config.clone()?;
    match Node::<R>::start(alloc, config, node.delay) {
        Ok(node) => Ok(Actor::Node(node)),
        Err(_) => Err(AllocError),
    }
}

/// Starts a node again, with a delay. A liar stays as it is.
pub(crate) fn begin_again<R: Reassembly>(actor: &mut Actor<R>, delay: u32) -> Result<(), AllocError>
    ensures again { OnOk result (actor.new ≡ again delay actor.old) }
    ensures role { role_of actor.new ≡ role_of actor.old }
{
    match actor {
        Actor::Node(node) => match node.restart(delay) {
            Ok(()) => Ok(()),
            Err(_) => Err(AllocError),
        },
        Actor::Liar(_) => Ok(()),
    }
}

/// Does at a place what a step says, after the lines of the steps before it.
pub(crate) fn act<R: Reassembly>(
    alloc: Global,
    actor: &mut Actor<R>,
    log: &Log,
    step: &Step,
) -> Result<Vec<Output>, StepError>
    ensures acts { (liar : Bool) (h : History) → actor.old ≡ actor_of liar h
        → Acts liar h (deed_at liar h log.now step.now) result actor.new }
    ensures role { role_of actor.new ≡ role_of actor.old }
{
    match actor {
        Actor::Node(node) => perform(alloc, node, log, step),
        Actor::Liar(address) => lie(alloc, *address, step),
    }
}
