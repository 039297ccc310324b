//! Case files of performances.

use crate::script::{Portion, Script};
use crate::sign::{Access, Part, Port, Sign, read_sign};
use case_files::{Sheet, read_sheet};
use ot_text::Text;
use std::alloc::{AllocError, Global};
use troop_entry::Lang;

/// What a performance writes, and how it ends.
#[derive(Debug, Drop)]
pub struct Outcome {
    /// What is written on the up link.
    pub up: Vec<u8>,
    /// What is written on the down link.
    pub down: Vec<u8>,
    /// What the commands print.
    pub out: Vec<u8>,
    /// The performer's line, that of its lives, and its journal's; nothing where the opening fails.
    pub report: Vec<u8>,
    /// The first error, as Rust writes it; nothing where there is none.
    pub end: String,
}

impl Outcome {
    /// Nothing is written, and there is no error.
    pub fn new(alloc: Global) -> Outcome {
        Outcome {
            up: Vec::new(alloc),
            down: Vec::new(alloc),
            out: Vec::new(alloc),
            report: Vec::new(alloc),
            end: String::new(alloc),
        }
    }
}

/// A performance, and what it has to come to.
#[derive(Debug, Drop)]
pub struct Case {
    alloc: Global,
    /// The performer's name.
    pub name: Text,
    /// Its language.
    pub lang: Lang,
    /// Its boot text.
    pub boot: Vec<u8>,
    /// How many bytes its first life takes.
    pub dies: Option<u64>,
    /// How many starts are refused.
    pub deaf: u64,
    /// The up link.
    pub up: Script,
    /// The down link.
    pub down: Script,
    /// The commands.
    pub commands: Script,
    /// The output.
    pub out: Script,
    /// What it has to come to.
    pub outcome: Outcome,
    // What the next line is.
    part: Part,
}

impl Case {
    /// The case of a file, if each of its signs can be read.
    pub fn read(alloc: Global, file: &[u8]) -> Result<Option<Case>, AllocError> {
        let mut case = Case {
            alloc,
            name: Text::of(alloc, "ann")?,
            lang: Lang::Lines,
            boot: Vec::new(alloc),
            dies: None,
            deaf: 0,
            up: Script::new(alloc),
            down: Script::new(alloc),
            commands: Script::new(alloc),
            out: Script::new(alloc),
            outcome: Outcome::new(alloc),
            part: Part::Given(Port::Commands),
        };
        if read_sheet(file, &mut case)? {
            Ok(Some(case))
        } else {
            Ok(None)
        }
    }

    // What is said of a port.
    fn script(&mut self, port: Port) -> &mut Script {
        match port {
            Port::Up => &mut self.up,
            Port::Down => &mut self.down,
            Port::Commands => &mut self.commands,
            Port::Out => &mut self.out,
        }
    }

    // Notes that a call to a port fails.
    fn fail(&mut self, port: Port, access: Access, number: u64) -> Result<(), AllocError> {
        let script = self.script(port);
        match access {
            Access::Read => script.failing_reads.push(number)?,
            Access::Write => script.failing_writes.push(number)?,
        }
        Ok(())
    }
}

impl Sheet for Case {
    fn put(&mut self, line: &[u8]) -> Result<(), AllocError> {
        match self.part {
            Part::Given(port) => self.script(port).put(line),
            Part::Written(Port::Up) => self.outcome.up.extend_from_slice(line),
            Part::Written(Port::Down) => self.outcome.down.extend_from_slice(line),
            Part::Written(Port::Commands) | Part::Written(Port::Out) => {
                self.outcome.out.extend_from_slice(line)
            }
            Part::Boot => self.boot.extend_from_slice(line),
            Part::Report => self.outcome.report.extend_from_slice(line),
        }
    }

    fn turn(&mut self, sign: &str) -> Result<bool, AllocError> {
        let Some(sign) = read_sign(sign) else {
            return Ok(false);
        };
        match sign {
            Sign::Part(part) => self.part = part,
            Sign::From(moment) => {
                let Part::Given(port) = self.part else {
                    return Ok(false);
                };
                let portion = Portion::new(self.alloc, moment);
                self.script(port).later.push(portion)?;
            }
            Sign::Fails(port, access, number) => self.fail(port, access, number)?,
            Sign::Room(port, room) => self.script(port).room = room,
            Sign::Name(name) => self.name = Text::of(self.alloc, name)?,
            Sign::Lang(lang) => self.lang = lang,
            Sign::Dies(bytes) => self.dies = Some(bytes),
            Sign::Deaf(starts) => self.deaf = starts,
            Sign::End(end) => self.outcome.end = String::from_str(self.alloc, end)?,
        }
        Ok(true)
    }
}
