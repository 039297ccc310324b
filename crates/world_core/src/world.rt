//! The world.
ghost use Rattle.std.specs.Prelude.{◌≡◌, [], ℕ, true, None, Some, length, slice_get, map, IfOk, IfSome, IfNone, OnOk, OnErr};
ghost use Rattle.std.specs.List.{position_from};
ghost use Rattle.world_core.specs.declared.performer.Performer.{Performer};
ghost use Rattle.world_core.specs.States.{new_world};
ghost use Rattle.world_core.specs.Sound.{IsSoundWorld};
ghost use Rattle.world_core.specs.Steps.{told_of, world_after, is_done};
ghost use Rattle.world_core.specs.Values.{state_of, CountsFaults};

use crate::{Performer, Told};
use revision_log::Desk;
use std::alloc::{AllocError, Global};
use std::marker::Model;
use wire_json::Step;

mod joining;
mod moving;

/// One log, and the performers over it, in the order of their joins.
#[derive(Drop)]
pub struct World {
    alloc: Global,
    desk: Desk,
    performers: Vec<Performer>,
    // The position of each performer's last row behind its join.
    last_rows: Vec<Option<u64>>,
}

impl Model for World {
    ghost use Rattle.world_core.specs.Values.{WorldValue};
    ghost use Rattle.world_core.specs.WorldInvariant.{IsWorld};

    ghost Value = { WorldValue };

    ghost view = { λ w. record { log = w.desk; performers = w.performers.items } };

    ghost invariant = { λ w. IsWorld w.desk w.performers.items w.last_rows.items };
}

impl World {
    /// A world with an empty log and no performers.
    pub fn new(alloc: Global) -> World
        ensures value { result ≡ record { log = []; performers = [] } }
        ensures state { state_of result ≡ new_world }
        ensures sound { IsSoundWorld (state_of result) }
    {
        World {
            alloc,
            desk: Desk::new(alloc),
            performers: Vec::new(alloc),
            last_rows: Vec::new(alloc),
        }
    }

    /// Takes a step, and tells what it did. Anything but `Done` changes nothing, nor does want of memory, which comes only where the
    /// step would be done.
    pub fn step(&mut self, step: &Step) -> Result<Told, AllocError>
        ensures told { IfOk result (λ told. told ≡ told_of step.now (state_of self.old)) }
        ensures state { OnOk result (state_of self.new ≡ world_after step.now (state_of self.old)) }
        ensures memory { OnErr result (state_of self.new ≡ state_of self.old) }
        ensures wanting { OnErr result (is_done (told_of step.now (state_of self.old)) ≡ true) }
        ensures sound { IsSoundWorld (state_of self.new) }
        ensures faults { (i : ℕ) (p : Performer) → slice_get self.new.performers i ≡ Some p → CountsFaults p.driver }
    {
        let told = self.take_step(step);
        // What was kept is sound; only a use of a field tells the proof so.
        let _ = &self.desk;
        told
    }

    /// The log.
    pub fn desk(&self) -> &Desk
        ensures { result.now ≡ self.now.log }
    {
        &self.desk
    }

    /// The performers, in the order of their joins.
    pub fn performers(&self) -> &[Performer]
        ensures performers { result.now ≡ self.now.performers }
        ensures numbers { (i : ℕ) (p : Performer) → slice_get self.now.performers i ≡ Some p → p.who ≡ p.stage.staged.own }
        ensures sound { IsSoundWorld (state_of self.now) }
    {
        self.performers.as_slice()
    }
}
