//! A performer of a world.
ghost use Rattle.std.specs.Prelude.{◌≡◌, [], None, IfOk, encode_utf8_all, string_bytes};
ghost use Rattle.world_core.specs.Steps.{new_interpreter};

use crate::Waiting;
use child_driver::Driver;
use ot_text::Text;
use pipe_ports::ScriptHatch;
use stage_state::Stage;

/// A performer of a world, with all that is its own.
#[derive(Drop)]
pub struct Performer {
    /// Its number.
    pub who: u32,
    /// Its name.
    pub name: Text,
    /// What it asked, took and holds.
    pub stage: Stage,
    /// The blocks that wait to be fed to its interpreter.
    pub waiting: Waiting,
    /// Its interpreter's driver.
    pub driver: Driver<ScriptHatch>,
}
