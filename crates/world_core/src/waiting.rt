//! The blocks that wait to be fed.
ghost use Rattle.std.specs.Prelude.{◌≡◌, ◌↔◌, IsTrue, ◌++◌, ◌∷◌, [], length, drop, slice_get, option_copied, OnOk, OnErr};
ghost use Rattle.troop_entry.specs.Told.{block_told};
ghost use Rattle.stage_state.specs.declared.act.Act.{Act};
ghost use Rattle.stage_state.specs.Machine.{CanAct};
ghost use Rattle.stage_state.specs.Staged.{machine, with_act};
ghost use Rattle.world_core.specs.States.{with_block};

use stage_state::{Stage, TakeError};
use std::alloc::{AllocError, Global};
use std::collections::VecDeque;
use std::marker::Model;
use troop_entry::{Block, Entry};

/// The blocks that wait to be fed to an interpreter, the next one first.
#[derive(Drop)]
pub struct Waiting {
    blocks: VecDeque<Block>,
}

impl Model for Waiting {
    ghost use Rattle.std.specs.Prelude.{List};
    ghost use Rattle.troop_entry.specs.declared.block.Block.{Block};

    ghost Value = { List Block };

    ghost view = { λ w. w.blocks.items };
}

impl Waiting {
    // No block waits.
    pub(crate) fn new(alloc: Global) -> Waiting
        ensures { result ≡ [] }
    {
        Waiting {
            blocks: VecDeque::new(alloc),
        }
    }

    /// How many blocks wait.
    pub fn len(&self) -> usize
        ensures { result ≡ length self.now }
    {
        self.blocks.len()
    }

    /// Whether none waits.
    pub fn is_empty(&self) -> bool
        ensures { IsTrue result ↔ (self.now ≡ []) }
    {
        self.blocks.is_empty()
    }

    /// The block that is fed next, if one waits.
    pub fn first(&self) -> Option<&Block>
        ensures { option_copied result ≡ slice_get self.now 0 }
    {
        self.blocks.front()
    }

    // Has the stage take an entry that it can take, and puts the block that it is, if it is one, behind the others.
    pub(crate) fn take(&mut self, stage: &mut Stage, entry: &Entry) -> Result<(), AllocError>
        requires { CanAct (machine stage.old.staged) (Act.Take entry.now) }
        ensures stage { OnOk result (stage.new.staged ≡ with_act 0 (Act.Take entry.now) stage.old.staged) }
        ensures blocks { OnOk result (self.new ≡ self.old ++ with_block (block_told stage.old.staged.joined entry.now) []) }
        ensures stage_kept { OnErr result (stage.new.staged ≡ stage.old.staged) }
        ensures blocks_kept { OnErr result (self.new ≡ self.old) }
    {
        self.blocks.reserve(1)?;
        match stage.take(entry) {
            Ok(Some(block)) => {
                self.blocks.push_back_reserved(block);
                Ok(())
            }
            Ok(None) => Ok(()),
            Err(error) => Err(wanting(error)),
        }
    }

    // Takes the next block away.
    pub(crate) fn pass(&mut self)
        ensures { self.new ≡ drop 1 self.old }
    {
        let _passed = self.blocks.pop_front();
    }
}

// The one error that comes where an entry can be taken.
fn wanting(_error: TakeError) -> AllocError
    requires { _error ≡ TakeError.Memory }
{
    AllocError
}
