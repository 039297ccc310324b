//! The signs of a performance's case file.

use crate::pace::Moment;
use troop_entry::Lang;

/// What the performer reads and writes.
#[derive(Clone, Copy, Debug, PartialEq, Eq)]
pub enum Port {
    /// The up link.
    Up,
    /// The down link.
    Down,
    /// The commands.
    Commands,
    /// The output.
    Out,
}

/// A call to a port.
#[derive(Clone, Copy, Debug, PartialEq, Eq)]
pub enum Access {
    Read,
    Write,
}

/// What the lines behind a sign are.
#[derive(Clone, Copy, Debug, PartialEq, Eq)]
pub enum Part {
    /// What a port gives.
    Given(Port),
    /// What is written on a port.
    Written(Port),
    /// The boot text.
    Boot,
    /// The performer's line, that of its lives, and its journal's.
    Report,
}

/// What a sign says.
#[derive(Clone, Copy, Debug, PartialEq, Eq)]
pub enum Sign<'t> {
    /// What the lines behind it are.
    Part(Part),
    /// The lines behind it are given from this moment on, on the port that was named last.
    From(Moment),
    /// The call of this number to this port fails.
    Fails(Port, Access, u64),
    /// The port takes so many bytes.
    Room(Port, u64),
    /// The performer's name.
    Name(&'t str),
    /// Its language.
    Lang(Lang),
    /// The first life takes so many bytes.
    Dies(u64),
    /// So many starts are refused.
    Deaf(u64),
    /// The run ends with this error.
    End(&'t str),
}

/// Reads a sign, by the text behind its hyphens.
pub fn read_sign(text: &str) -> Option<Sign<'_>> {
    let (word, rest) = text.split_once(' ').unwrap_or((text, ""));
    match word {
        "given" => Some(Sign::Part(Part::Given(read_port(rest)?))),
        "written" => Some(Sign::Part(Part::Written(read_port(rest)?))),
        "boot" => Some(Sign::Part(Part::Boot)),
        "report" => Some(Sign::Part(Part::Report)),
        "sent" => Some(Sign::From(Moment::Sent(rest.parse().ok()?))),
        "printed" => Some(Sign::From(Moment::Printed(rest.parse().ok()?))),
        "closed" => Some(Sign::From(Moment::Closed)),
        "fails" => read_failure(rest),
        "room" => read_room(rest),
        "name" => Some(Sign::Name(rest)),
        "lang" => Some(Sign::Lang(read_lang(rest)?)),
        "dies" => Some(Sign::Dies(rest.parse().ok()?)),
        "deaf" => Some(Sign::Deaf(rest.parse().ok()?)),
        "end" => Some(Sign::End(rest)),
        _ => None,
    }
}

// `PORT CALL N`: the call of a port that fails.
fn read_failure(text: &str) -> Option<Sign<'_>> {
    let (port, call) = text.split_once(' ')?;
    let (access, number) = call.split_once(' ')?;
    let access = match access {
        "read" => Access::Read,
        "write" => Access::Write,
        _ => return None,
    };
    Some(Sign::Fails(read_port(port)?, access, number.parse().ok()?))
}

// `PORT N`: the room of a port.
fn read_room(text: &str) -> Option<Sign<'_>> {
    let (port, room) = text.split_once(' ')?;
    Some(Sign::Room(read_port(port)?, room.parse().ok()?))
}

fn read_port(text: &str) -> Option<Port> {
    match text {
        "up" => Some(Port::Up),
        "down" => Some(Port::Down),
        "commands" => Some(Port::Commands),
        "out" => Some(Port::Out),
        _ => None,
    }
}

fn read_lang(text: &str) -> Option<Lang> {
    match text {
        "lines" => Some(Lang::Lines),
        "ghci" => Some(Lang::Ghci),
        _ => None,
    }
}
