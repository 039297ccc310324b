//! A hatch in memory, whose faults are scripted.
ghost use Rattle.std.specs.Prelude.{◌≡◌, ◌+◌, ◌<◌, ◌≤◌, [], ◌∷◌, ◌++◌, Some, None, IfOk, OnOk, OnErr, IsSome, map};
ghost use Rattle.pipe_ports.specs.Pipes.{IsReadyToStart, CountsStart, sum_count};
ghost use Rattle.pipe_ports.specs.Scripts.{AnswersStart, hatch_after_start};

use crate::{Child, Hatch, ScriptChild, Started};
use std::alloc::{AllocError, Global};
use std::marker::Model;

/// A hatch in memory: it keeps the bytes of the children buried, and refuses starts where it was told to.
#[derive(Drop)]
pub struct ScriptHatch {
    alloc: Global,
    // How many starts are still to be refused.
    refusals: u64,
    // How many bytes the next child takes, if that is limited.
    limit: Option<u64>,
    past: Vec<Vec<u8>>,
    // The places kept for the children started.
    graves: usize,
    // The memory for the bytes of the next child.
    prepared: Option<Vec<u8>>,
    faults: u64,
}

impl Model for ScriptHatch {
    ghost use Rattle.std.specs.Prelude.{◌+◌, ◌≤◌, ℕ, vec_len, vec_capacity, option_map, map};
    ghost use Rattle.pipe_ports.specs.Scripts.{HatchValue};
    ghost use Rattle.pipe_ports.specs.HatchInvariant.{IsHatch, byte_lists};

    ghost Value = { HatchValue };

    ghost view = { λ s. record { refusals = s.refusals; limit = s.limit; past = byte_lists s.past.items; graves = s.graves; readiness = option_map vec_capacity s.prepared; faults = s.faults } };

    ghost invariant = { λ s. IsHatch (vec_len s.past) (vec_capacity s.past) s.graves s.prepared };
}

impl ScriptHatch {
    /// A hatch that has started and buried none, and refuses none.
    pub fn new(alloc: Global) -> Result<ScriptHatch, AllocError>
        ensures { IfOk result (λ hatch. hatch ≡ record { refusals = 0; limit = None; past = []; graves = 0; readiness = None; faults = 0 }) }
    {
        Ok(ScriptHatch {
            alloc,
            refusals: 0,
            limit: None,
            past: Vec::new(alloc),
            graves: 0,
            prepared: None,
            faults: 0,
        })
    }

    /// From now on so many starts are refused.
    pub fn deaf(&mut self, starts: u64)
        ensures { self.new ≡ record self.old { refusals = starts } }
    {
        self.refusals = starts;
    }

    /// The next child takes so many bytes, or any number of them.
    pub fn next_limit(&mut self, bytes: Option<u64>)
        ensures { self.new ≡ record self.old { limit = bytes } }
    {
        self.limit = bytes;
    }

    /// The bytes of each child buried.
    pub fn past(&self) -> &[Vec<u8>]
        ensures { map (λ v. v.items) result.now ≡ self.now.past }
    {
        self.past.as_slice()
    }
}

impl Hatch for ScriptHatch {
    type C = ScriptChild;

    ghost buried = { λ s. Some s.past };

    ghost starts = { λ s. Some (record { refusals = s.refusals; limit = s.limit }) };

    ghost graves = { λ s. s.graves };

    ghost readiness = { λ s. s.readiness };

    ghost faults = { λ s. s.faults };

    fn ready(&mut self, bytes: u64) -> Result<(), AllocError>
        ensures ready { OnOk result (IsReadyToStart self.new.readiness bytes) }
        ensures memory { OnErr result (self.new ≡ self.old) }
        ensures after { self.new ≡ record self.old { readiness = self.new.readiness } }
    {
        if self.prepared.is_none() {
            self.past.reserve(self.graves + 1)?;
        }
        self.prepared = Some(Vec::with_capacity(self.alloc, bytes as usize)?);
        Ok(())
    }

    fn start(&mut self) -> Started<ScriptChild>
        requires ready { IsSome self.old.readiness }
        ensures answer { AnswersStart result self.old }
        ensures after { self.new ≡ hatch_after_start self.old }
        ensures cause { CountsStart result self.old.faults self.new.faults }
    {
        let limit = self.limit.take();
        if self.refusals > 0 {
            self.refusals -= 1;
            self.faults = self.faults.saturating_add(1);
            return Started::Failed;
        }
        match self.prepared.take() {
            None => unreachable!(),
            Some(taken) => {
                self.graves += 1;
                Started::Child(ScriptChild::new(taken, limit))
            }
        }
    }

    fn bury(&mut self, child: ScriptChild)
        requires { 1 ≤ self.old.graves }
        ensures past { self.new.past ≡ self.old.past ++ child.taken ∷ [] }
        ensures faults { self.new.faults ≡ sum_count self.old.faults child.faults }
        ensures graves { self.new.graves + 1 ≡ self.old.graves }
        ensures rest { self.new ≡ record self.old { past = self.new.past; faults = self.new.faults; graves = self.new.graves } }
    {
        self.faults = self.faults.saturating_add(child.faults());
        self.graves -= 1;
        self.past.push_reserved(child.into_bytes());
    }
}
