//! A world and the tree that it climbs.
ghost use Rattle.std.specs.Prelude.{◌≡◌};
ghost use Rattle.core_tests.specs.Fans.{fan_tree};
ghost use Rattle.world_core.specs.World.{Fits};

use crate::tree::Fan;
use adfs_base::{NoMemory, Shape};
use dfs_worker::{Event, Guard};
use std::alloc::Global;
use world_core::{Stepped, World};

/// A world whose tree fits it.
#[derive(Drop)]
pub struct Bench {
    fan: Fan,
    world: World,
    ghost fits: { Fits (fan_tree (record { stages = fan.stages; machines = fan.machines; roots = fan.roots; children = fan.children; root = fan.root })) world.shared },
}

impl Bench {
    /// The start of a run over a fan of the shape's stages and machines.
    pub fn new(alloc: Global, shape: &Shape, roots: u64, children: u64) -> Result<Bench, NoMemory> {
        let fan = Fan::new(shape.stages(), shape.machines(), roots, children);
        let world = World::new(alloc, &fan, shape)?;
        Ok(Bench { fan, world })
    }

    /// The world as it stands.
    pub fn world(&self) -> &World {
        &self.world
    }

    /// The first guard of the event that fails.
    pub fn enabled(&self, event: &Event) -> Option<Guard> {
        self.world.enabled(&self.fan, event)
    }

    /// Makes the event's change, where all its guards hold.
    pub fn step(&mut self, event: &Event) -> Stepped {
        self.world.step(&self.fan, event)
    }
}
