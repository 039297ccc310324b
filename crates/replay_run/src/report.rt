//! The line on standard error, which takes no memory.
ghost use Rattle.std.specs.Prelude.{◌≡◌, ◌++◌, decimal, false};
ghost use Rattle.replay_run.specs.Ports.{port_of, Reported};
ghost use Rattle.replay_run.specs.Outcome.{code_of, error_line};

use crate::Outcome;
use itoa::Buffer;
use troop_ports::{Sink, Status, Written, write_all};

impl Outcome {
    /// Writes its line on the error stream, and answers its status. A fault there changes no status.
    ///
    /// It takes no memory.
    pub fn report<E: Sink>(self, err: &mut E) -> Status
        requires { E.closed err.old ≡ false }
        ensures status { result.code ≡ code_of self }
        ensures line { Reported (port_of (E.taken err.old) (E.taken err.new) (E.faults err.old) (E.faults err.new)) (error_line self) }
        ensures still_open { E.closed err.new ≡ false }
    {
        report_line(self, err);
        self.status()
    }
}

// Writes the line of an outcome.
fn report_line<E: Sink>(outcome: Outcome, err: &mut E)
    requires { E.closed err.old ≡ false }
    ensures line { Reported (port_of (E.taken err.old) (E.taken err.new) (E.faults err.old) (E.faults err.new)) (error_line outcome) }
    ensures still_open { E.closed err.new ≡ false }
{
    match outcome {
        Outcome::Done => {}
        Outcome::Usage => write_line(err, b"troop: usage\n"),
        Outcome::Memory => write_line(err, b"troop: out of memory\n"),
        Outcome::ReadFault => write_line(err, b"troop: read fault\n"),
        Outcome::WriteFault => write_line(err, b"troop: write fault\n"),
        Outcome::NetFault => write_line(err, b"troop: net fault\n"),
        Outcome::BadLine(line) => report_number(b"troop: bad line ", line, b"\n", err),
        Outcome::TooMuch => write_line(err, b"troop: too much input\n"),
    }
}

// Writes a line, or as much of it as is taken before a fault.
fn write_line<E: Sink>(err: &mut E, line: &[u8])
    requires { E.closed err.old ≡ false }
    ensures line { Reported (port_of (E.taken err.old) (E.taken err.new) (E.faults err.old) (E.faults err.new)) line.now }
    ensures still_open { E.closed err.new ≡ false }
{
    let _ = write_all(err, line);
}

/// Writes a line on an error stream: these bytes, a number, and then these, or as much of it as is taken before a fault.
///
/// It takes no memory.
pub fn report_number<E: Sink>(before: &[u8], number: u64, behind: &[u8], err: &mut E)
    requires { E.closed err.old ≡ false }
    ensures line { Reported (port_of (E.taken err.old) (E.taken err.new) (E.faults err.old) (E.faults err.new))
        (before.now ++ (decimal number ++ behind.now)) }
    ensures still_open { E.closed err.new ≡ false }
{
    match write_all(err, before) {
        Written::All => report_from_number(number, behind, err),
        Written::Part(_) => {}
    }
}

// Writes such a line from its number on.
fn report_from_number<E: Sink>(number: u64, behind: &[u8], err: &mut E)
    requires { E.closed err.old ≡ false }
    ensures line { Reported (port_of (E.taken err.old) (E.taken err.new) (E.faults err.old) (E.faults err.new))
        (decimal number ++ behind.now) }
    ensures still_open { E.closed err.new ≡ false }
{
    let mut buffer = Buffer::new();
    let digits = buffer.format(number);
    report_parts(digits.as_bytes(), behind, err);
}

/// Writes a line on an error stream that is given in two parts, or as much of it as is taken before a fault.
///
/// It takes no memory.
pub fn report_parts<E: Sink>(first: &[u8], behind: &[u8], err: &mut E)
    requires { E.closed err.old ≡ false }
    ensures line { Reported (port_of (E.taken err.old) (E.taken err.new) (E.faults err.old) (E.faults err.new))
        (first.now ++ behind.now) }
    ensures still_open { E.closed err.new ≡ false }
{
    match write_all(err, first) {
        Written::All => write_line(err, behind),
        Written::Part(_) => {}
    }
}
