//! A program that was started, as a child, which tells no bytes.
ghost use Rattle.std.specs.Prelude.{◌≡◌, ◌≤◌, None, true, false, is_none, IsOk};
ghost use Rattle.troop_ports.specs.Bytes.{PutFits};
ghost use Rattle.troop_ports.specs.Faults.{CountsWrite};
ghost use Rattle.pipe_ports.specs.Pipes.{CountsClose};
ghost use Rattle.pipe_ports.specs.declared.child.Closing.TheVariants.{Closed};
ghost use Rattle.process_hatch.specs.Programs.{most_bytes, count_after_write, count_after_close};

use pipe_ports::{Child, Closing};
use std::alloc::AllocError;
use std::io::Write;
use std::marker::Model;
use std::process;
use std::process::OpenProcess;
use troop_ports::Put;

/// A running program, with a count of its errors and of the writes that took nothing.
///
/// Where it is let go, its pipe is closed, and nobody waits for it.
#[derive(Drop)]
pub struct ProcessChild<P: OpenProcess> {
    // The program, whose standard input is a pipe until it is closed.
    program: process::Child<P>,
    // How many of its calls were errors, or writes that took nothing.
    faults: u64,
}

impl<P: OpenProcess> Model for ProcessChild<P> {
    ghost use Rattle.std.specs.Prelude.{is_none, is_some};
    ghost use Rattle.std.specs.Process.{child_status};
    ghost use Rattle.process_hatch.specs.Programs.{ProgramValue};

    ghost Value = { ProgramValue };

    ghost view = { λ c. record { closed = is_none c.program.stdin; ended = is_some (child_status c.program); faults = c.faults } };
}

impl<P: OpenProcess> ProcessChild<P> {
    // A program to which nothing was written. Without a pipe it counts as closed.
    pub(crate) fn new(program: process::Child<P>) -> ProcessChild<P>
        ensures closed { result.closed ≡ is_none program.stdin }
        ensures faults { result.faults ≡ 0 }
    {
        ProcessChild { program, faults: 0 }
    }

    // How many faults were counted.
    pub(crate) fn faults(&self) -> u64
        ensures { result ≡ self.now.faults }
    {
        self.faults
    }
}

impl<P: OpenProcess + Drop> Child for ProcessChild<P> {
    ghost taken = { λ _. None };

    ghost limit = { λ _. None };

    ghost room = { λ _. most_bytes };

    ghost faults = { λ c. c.faults };

    ghost closed = { λ c. c.closed };

    fn ready(&mut self, _bytes: u64) -> Result<(), AllocError>
        ensures answer { IsOk result }
        ensures room { _bytes ≤ most_bytes }
        ensures after { self.new ≡ self.old }
    {
        Ok(())
    }

    fn write(&mut self, piece: &[u8]) -> Put
        requires is_open { self.old.closed ≡ false }
        ensures fits { PutFits result piece.now }
        ensures after { self.new ≡ record self.old { faults = count_after_write result self.old.faults } }
        ensures cause { CountsWrite result self.old.faults self.new.faults }
    {
        let Some(stdin) = &mut self.program.stdin else {
            unreachable!()
        };
        match stdin.write(piece) {
            Ok(count) if count > 0 => Put::Took(count),
            _ => {
                self.faults = self.faults.saturating_add(1);
                Put::Failed
            }
        }
    }

    fn close(&mut self) -> Closing
        ensures closed { self.new.closed ≡ true }
        ensures ended { result ≡ Closed → self.new.ended ≡ true }
        ensures count { self.new.faults ≡ count_after_close result self.old.faults }
        ensures cause { CountsClose result self.old.faults self.new.faults }
    {
        match self.program.wait() {
            Ok(_) => Closing::Closed,
            Err(_) => {
                self.faults = self.faults.saturating_add(1);
                Closing::Failed
            }
        }
    }
}
