//! A child in memory, whose faults are scripted.
ghost use Rattle.std.specs.Prelude.{◌≡◌, ◌<◌, ◌≤◌, ◌+◌, ◌-◌, Some, [], true, false, length, vec_len, vec_capacity, OnOk, OnErr};
ghost use Rattle.pipe_ports.specs.Pipes.{put_count, CountsClose};
ghost use Rattle.troop_ports.specs.Faults.{CountsWrite};
ghost use Rattle.pipe_ports.specs.Scripts.{new_child, put_within, child_after_write, closing_of, child_after_close};

use crate::{Child, Closing};
use std::alloc::AllocError;
use std::marker::Model;
use troop_ports::Put;

/// A child in memory: it keeps the bytes that it takes, up to a limit if there is one.
#[derive(Drop)]
pub struct ScriptChild {
    taken: Vec<u8>,
    // How many more bytes it takes, if that is limited.
    limit: Option<u64>,
    faults: u64,
    close_fails: bool,
    closed: bool,
}

impl Model for ScriptChild {
    ghost use Rattle.std.specs.Prelude.{◌-◌, vec_len, vec_capacity};
    ghost use Rattle.pipe_ports.specs.Scripts.{ChildValue};

    ghost Value = { ChildValue };

    ghost view = { λ s. record { taken = s.taken.items; limit = s.limit; room = vec_capacity s.taken - vec_len s.taken; faults = s.faults; close_fails = s.close_fails; closed = s.closed } };
}

impl ScriptChild {
    // A child to which nothing was written, over this empty buffer.
    pub(crate) fn new(taken: Vec<u8>, limit: Option<u64>) -> ScriptChild
        requires { taken.items ≡ [] }
        ensures { result ≡ new_child limit (vec_capacity taken) }
    {
        ScriptChild {
            taken,
            limit,
            faults: 0,
            close_fails: false,
            closed: false,
        }
    }

    /// From now on it takes so many more bytes, or any number of them.
    pub fn limit(&mut self, bytes: Option<u64>)
        ensures { self.new ≡ record self.old { limit = bytes } }
    {
        self.limit = bytes;
    }

    /// How many more bytes it takes, if that is limited.
    pub fn left(&self) -> Option<u64>
        ensures { result ≡ self.now.limit }
    {
        self.limit
    }

    /// From now on a close fails.
    pub fn fail_close(&mut self)
        ensures { self.new ≡ record self.old { close_fails = true } }
    {
        self.close_fails = true;
    }

    /// The bytes that were taken.
    pub fn bytes(&self) -> &[u8]
        ensures { result.now ≡ self.now.taken }
    {
        self.taken.as_slice()
    }

    // The bytes that were taken, for a burial.
    pub(crate) fn into_bytes(self) -> Vec<u8>
        ensures { result.items ≡ self.taken }
    {
        let ScriptChild { taken, .. } = self;
        taken
    }

    // How many faults were counted.
    pub(crate) fn faults(&self) -> u64
        ensures { result ≡ self.now.faults }
    {
        self.faults
    }
}

impl Child for ScriptChild {
    ghost taken = { λ s. Some s.taken };

    ghost limit = { λ s. Some s.limit };

    ghost room = { λ s. s.room };

    ghost faults = { λ s. s.faults };

    ghost closed = { λ s. s.closed };

    fn ready(&mut self, bytes: u64) -> Result<(), AllocError>
        ensures room { OnOk result (bytes ≤ self.new.room) }
        ensures memory { OnErr result (self.new ≡ self.old) }
        ensures after { self.new ≡ record self.old { room = self.new.room } }
    {
        self.taken.reserve(bytes as usize)
    }

    fn write(&mut self, piece: &[u8]) -> Put
        requires some { 0 < length piece.now }
        requires fits_room { length piece.now ≤ self.old.room }
        ensures answer { result ≡ put_within self.old.limit (length piece.now) }
        ensures after { self.new ≡ child_after_write self.old result piece.now self.new.room }
        ensures room { self.old.room ≤ self.new.room + put_count result }
        ensures cause { CountsWrite result self.old.faults self.new.faults }
    {
        let count = match self.limit {
            None => piece.len(),
            Some(0) => {
                self.faults = self.faults.saturating_add(1);
                return Put::Failed;
            }
            Some(most) => {
                let count = piece.len().min(most as usize);
                self.limit = Some(most - count as u64);
                count
            }
        };
        match self.taken.extend_from_slice(&piece[..count]) {
            Ok(()) => Put::Took(count),
            Err(_) => unreachable!(),
        }
    }

    fn close(&mut self) -> Closing
        ensures answer { result ≡ closing_of self.old.close_fails }
        ensures after { self.new ≡ child_after_close self.old }
        ensures cause { CountsClose result self.old.faults self.new.faults }
    {
        self.closed = true;
        if self.close_fails {
            self.faults = self.faults.saturating_add(1);
            return Closing::Failed;
        }
        Closing::Closed
    }
}
