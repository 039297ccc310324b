//! A program of the system by its words, as a hatch, which tells no bytes.
ghost use Rattle.std.specs.Prelude.{◌≡◌, ◌<◌, ◌≤◌, ◌∷◌, None, Some, false, length, map, string_bytes, IsOk, IfOk};
ghost use Rattle.std.specs.Process.{command_program, command_args};
ghost use Rattle.pipe_ports.specs.Pipes.{IfStarted, CountsStart, sum_count};
ghost use Rattle.process_hatch.specs.Programs.{most_bytes, count_after_start};

use crate::ProcessChild;
use pipe_ports::{Hatch, Started};
use std::alloc::{AllocError, Global};
use std::io::ErrorKind;
use std::marker::Model;
use std::process::{Command, Processes, Stdio};
use std::{io, process};

/// Starts one program again and again, with a count of the errors.
///
/// A program's standard input is a pipe that no other program has; its output and its error are those of this process. A program
/// that isn't there, and one that the system can't start, is an error of the start.
#[derive(Drop)]
pub struct ProcessHatch<'r, R> {
    // The runtime, which starts it.
    rt: &'r R,
    alloc: Global,
    // Its name or path, and behind it what it is told.
    words: Vec<String>,
    // How many starts met an error, and the counts of the programs buried.
    faults: u64,
}

impl<'r, R> Model for ProcessHatch<'r, R> {
    ghost use Rattle.std.specs.Prelude.{map, string_bytes};
    ghost use Rattle.process_hatch.specs.Programs.{ProgramHatch};

    ghost Value = { ProgramHatch };

    ghost view = { λ h. record { words = map string_bytes h.words.items; faults = h.faults } };
}

impl<'r, R: Processes> ProcessHatch<'r, R> {
    /// A hatch for the program of these words, of which the first is its name or its path. Nothing was started and no error counted
    /// yet. Without a word each start is an error.
    pub fn new(rt: &'r R, alloc: Global, words: Vec<String>) -> ProcessHatch<'r, R>
        ensures { result ≡ record { words = map string_bytes words.items; faults = 0 } }
    {
        ProcessHatch {
            rt,
            alloc,
            words,
            faults: 0,
        }
    }

    // Starts the program.
    fn spawn(&self) -> io::Result<process::Child<R::Started>>
        ensures { IfOk result (λ _. 0 < length self.now.words) }
    {
        command(self.alloc, self.words.as_slice())?.spawn(self.rt)
    }
}

impl<'r, R: Processes> Hatch for ProcessHatch<'r, R> {
    type C = ProcessChild<R::Started>;

    ghost buried = { λ _. None };

    ghost starts = { λ _. None };

    ghost graves = { λ _. 1 };

    ghost readiness = { λ _. Some most_bytes };

    ghost faults = { λ h. h.faults };

    fn ready(&mut self, _bytes: u64) -> Result<(), AllocError>
        ensures answer { IsOk result }
        ensures ready { _bytes ≤ most_bytes }
        ensures after { self.new ≡ self.old }
    {
        Ok(())
    }

    fn start(&mut self) -> Started<ProcessChild<R::Started>>
        ensures calm { IfStarted result (λ child. child.faults ≡ 0) }
        ensures is_open { IfStarted result (λ child. child.closed ≡ false) }
        ensures named { IfStarted result (λ _. 0 < length self.old.words) }
        ensures after { self.new ≡ record self.old { faults = count_after_start result self.old.faults } }
        ensures cause { CountsStart result self.old.faults self.new.faults }
    {
        match self.spawn() {
            Ok(program) if program.stdin.is_some() => Started::Child(ProcessChild::new(program)),
            _ => {
                self.faults = self.faults.saturating_add(1);
                Started::Failed
            }
        }
    }

    fn bury(&mut self, child: ProcessChild<R::Started>)
        ensures after { self.new ≡ record self.old { faults = sum_count self.old.faults child.faults } }
    {
        self.faults = self.faults.saturating_add(child.faults());
    }
}

// The command that these words are, with a pipe as its standard input.
fn command(alloc: Global, words: &[String]) -> io::Result<Command>
    ensures { IfOk result (λ c. command_program c ∷ command_args c ≡ map string_bytes words.now) }
{
    let Some((program, args)) = words.split_first() else {
        return Err(io::Error::from(ErrorKind::InvalidInput));
    };
    let mut command = Command::new(alloc, program.as_str())?;
    command.args(args)?.stdin(Stdio::piped());
    Ok(command)
}
