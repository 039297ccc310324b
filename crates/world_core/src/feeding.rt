//! A performer's interpreter is fed a block.
ghost use Rattle.std.specs.Prelude.{◌≡◌, ◌++◌, ◌∷◌, [], List, None, is_some, IfSome, OnOk, OnErr};
ghost use Rattle.troop_entry.specs.declared.block.Block.{Block};
ghost use Rattle.child_driver.specs.Lives.{AreBelow};
ghost use Rattle.world_core.specs.Feeding.{after_block, taking};
ghost use Rattle.world_core.specs.Values.{interpreter_of};
ghost use Rattle.world_core.specs.WorldInvariant.{IsFedDriver};

use child_driver::Driver;
use pipe_ports::ScriptHatch;
use std::alloc::AllocError;
use troop_entry::Block;

// Feeds a block to an interpreter whose life first is to take so many bytes more, or as many as before. Want of memory leaves the
// driver's state as it was.
pub(crate) fn feed(
    driver: &mut Driver<ScriptHatch>,
    block: &Block,
    fail_after: Option<u64>,
) -> Result<(), AllocError>
    requires { driver.old.hatch.limit ≡ None }
    ensures state { OnOk result (interpreter_of driver.new ≡ after_block block.now (taking fail_after (interpreter_of driver.old))) }
    ensures kept { OnOk result ((blocks : List Block) → IsFedDriver blocks driver.old → AreBelow block.now.place blocks → IsFedDriver (blocks ++ block.now ∷ []) driver.new) }
    ensures next { driver.new.hatch.limit ≡ None }
    ensures memory { OnErr result (interpreter_of driver.new ≡ interpreter_of driver.old) }
    ensures memory_kept { OnErr result ((blocks : List Block) → IsFedDriver blocks driver.old → IsFedDriver blocks driver.new) }
{
    let Some(bytes) = fail_after else {
        return feed_block(driver, block);
    };
    match driver.life() {
        Some(life) => {
            let before = life.left();
            driver.limit(Some(bytes));
            let fed = feed_block(driver, block);
            if fed.is_err() {
                driver.limit(before);
            }
            fed
        }
        None => {
            driver.next_limit(Some(bytes));
            let fed = feed_block(driver, block);
            if fed.is_err() {
                driver.next_limit(None);
            }
            fed
        }
    }
}

// Feeds a block.
fn feed_block(driver: &mut Driver<ScriptHatch>, block: &Block) -> Result<(), AllocError>
    ensures state { OnOk result (interpreter_of driver.new ≡ after_block block.now (interpreter_of driver.old)) }
    ensures kept { OnOk result ((blocks : List Block) → IsFedDriver blocks driver.old → AreBelow block.now.place blocks → IsFedDriver (blocks ++ block.now ∷ []) driver.new) }
    ensures next { OnOk result (IfSome driver.old.life (λ _. driver.old.hatch.limit ≡ None) → driver.new.hatch.limit ≡ None) }
    ensures memory_next { OnErr result (driver.new.hatch.limit ≡ driver.old.hatch.limit) }
    ensures memory { OnErr result (interpreter_of driver.new ≡ interpreter_of driver.old) }
    ensures memory_kept { OnErr result ((blocks : List Block) → IsFedDriver blocks driver.old → IsFedDriver blocks driver.new) }
    ensures life { OnErr result (is_some driver.new.life ≡ is_some driver.old.life) }
{
    match driver.feed(block) {
        Ok(_) => Ok(()),
        Err(error) => Err(error),
    }
}
