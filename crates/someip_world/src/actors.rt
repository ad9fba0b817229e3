//! The nodes and liars of a setup, for one run after the other.
ghost use Rattle.std.specs.Prelude.{◌≡◌, IfOk, OnOk, map};
ghost use Rattle.someip_world.specs.Acting.{role_of};
ghost use Rattle.someip_world.specs.Running.{AreOf, AreStarted};

use crate::actor::{Actor, begin_again, started};
use someip_tp::Reassembly;
use someip_world_setup::{Setup, SetupNode};
use std::alloc::{AllocError, Global};
use std::marker::Model;

/// The nodes and liars of a setup, each in its place. Each run begins by starting them again, so that none has
/// to be made anew. Contracts see the setup, whatever was run before.
#[derive(Drop)]
pub struct Actors<'s, R: Reassembly> {
    pub(crate) alloc: Global,
    pub(crate) setup: &'s Setup,
    pub(crate) places: Vec<Actor<R>>,
}

impl<'s, R: Reassembly> Model for Actors<'s, R> {
    ghost use Rattle.someip_world_setup.specs.GoodSetups.{Network, coded_network};
    ghost use Rattle.someip_world.specs.Running.{AreOf};

    ghost Value = { Network };

    ghost coded = { coded_network };

    ghost view = { λ a. a.setup.now };

    ghost invariant = { λ a. AreOf a.setup.now.nodes a.places.items };
}

impl<'s, R: Reassembly> Actors<'s, R> {
    /// The nodes and liars of a setup.
    pub fn of(alloc: Global, setup: &'s Setup) -> Result<Actors<'s, R>, AllocError>
        ensures { IfOk result (λ actors. actors ≡ setup.now) }
    {
        let places = start_all::<R>(alloc, setup.nodes())?;
        Ok(Actors {
            alloc,
            setup,
            places,
        })
    }

    /// Their setup.
    pub fn setup(&self) -> &'s Setup
        ensures { result.now ≡ self.now }
    {
        self.setup
    }
}

/// The nodes of a setup, each started with its delay, and its liars, each in its place.
fn start_all<R: Reassembly>(alloc: Global, nodes: &[SetupNode]) -> Result<Vec<Actor<R>>, AllocError>
    ensures { IfOk result (λ v. AreStarted nodes.now v.items) }
{
    let mut actors = Vec::new(alloc);
    for node in nodes {
        actors.push(started::<R>(alloc, node)?)?;
    }
    Ok(actors)
}

/// Starts the nodes of a setup again, each with its delay.
pub(crate) fn begin_all_again<R: Reassembly>(
    nodes: &[SetupNode],
    places: &mut Vec<Actor<R>>,
) -> Result<(), AllocError>
    requires { AreOf nodes.now places.old.items }
    ensures started { OnOk result (AreStarted nodes.now places.new.items) }
    ensures roles { map role_of places.new.items ≡ map role_of places.old.items }
{
    for (place, node) in nodes.iter().enumerate() {
        begin_again(&mut places[place], node.delay)?;
    }
    Ok(())
}
