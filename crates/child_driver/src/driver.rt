//! The driver: blocks to lives, one life after the other.
ghost use Rattle.std.specs.Prelude.{◌≡◌, ◌+◌, ◌<◌, ◌≤◌, ◌^◌, ◌-◌, ◌++◌, ◌∷◌, [], List, IsSome, IfSome, None, Some, true, false, IfOk, OnOk, OnErr, option_copied, option_map, length, ℕ};
ghost use Rattle.lang_wrap.specs.Wraps.{wrap};
ghost use Rattle.troop_entry.specs.declared.block.Block.{Block};
ghost use Rattle.troop_entry.specs.declared.note.Note.{Note};
ghost use Rattle.pipe_ports.specs.declared.child.Closing.{Closing};
ghost use Rattle.pipe_ports.specs.Scripts.{ChildValue};
ghost use Rattle.child_driver.specs.Lives.{IsTold, AreBelow, faulty_count, fate_of};
ghost use Rattle.child_driver.specs.Drivers.{births, earlier_count, driver_lives, sight, sight_of, pipe_count};
ghost use Rattle.child_driver.specs.Steps.{answer_of, FeedsTo, IsClosing};
ghost use Rattle.child_driver.specs.Openings.{IsReadyToFeed};
ghost use Rattle.child_driver.specs.DriverInvariant.{HasLife};

use crate::Fed;
use crate::feeding::{feed_life, feed_new};
use crate::journal::Journal;
use lang_wrap::wrap;
use pipe_ports::{Child, Closing, Hatch, ScriptHatch};
use std::alloc::{AllocError, Global};
use std::marker::Model;
use troop_entry::{Block, Lang, Note};

/// The driver of one performer's interpreter: it feeds blocks to lives, one life after the other, and notes what became of them.
#[derive(Drop)]
pub struct Driver<H: Hatch> {
    alloc: Global,
    lang: Lang,
    boot: Vec<u8>,
    hatch: H,
    life: Option<H::C>,
    journal: Journal,
    // Whether a standing life was closed.
    closed: bool,
}

impl<H: Hatch> Model for Driver<H> {
    ghost use Rattle.child_driver.specs.Drivers.{DriverValue};
    ghost use Rattle.child_driver.specs.DriverInvariant.{IsDriver};

    ghost Value = { DriverValue H H.C };

    ghost view = { λ d. record { lang = d.lang; boot = d.boot.items; hatch = d.hatch; life = d.life; notes = d.journal.notes; closed = d.closed } };

    ghost invariant = { λ d. IsDriver H.graves H.C.closed d.hatch d.life d.journal.notes d.journal.spare d.closed };
}

impl<H: Hatch> Driver<H> {
    /// A driver of an interpreter for this language, whose lives all get the boot text first. It has fed nothing yet.
    pub fn new(alloc: Global, lang: Lang, boot: Vec<u8>, hatch: H) -> Driver<H>
        ensures value { result ≡ record { lang = lang; boot = boot.items; hatch = hatch; life = None; notes = []; closed = false } }
        ensures told { IsTold lang boot.items [] (driver_lives H.buried H.C.taken result) result.notes }
        ensures handed { earlier_count H.buried H.C.taken result ≡ option_map (λ ls. length ls) (H.buried hatch) }
    {
        Driver {
            alloc,
            lang,
            boot,
            hatch,
            life: None,
            journal: Journal::new(alloc),
            closed: false,
        }
    }

    /// The journal: what became of the blocks, note by note.
    pub fn journal(&self) -> &[Note]
        ensures { result.now ≡ self.now.notes }
    {
        self.journal.notes()
    }

    /// How many lives were started.
    pub fn lives(&self) -> u64
        ensures { result ≡ births self.now.notes }
    {
        self.journal.lives()
    }

    /// The hatch that starts the lives.
    pub fn hatch(&self) -> &H
        ensures { result.now ≡ self.now.hatch }
    {
        &self.hatch
    }

    /// Gives the hatch back, once no life stands. It takes no memory.
    pub fn into_hatch(self) -> H
        requires { self.life ≡ None }
        ensures { result ≡ self.hatch }
    {
        let Driver { hatch, .. } = self;
        hatch
    }

    /// The standing life, if there is one.
    pub fn life(&self) -> Option<&H::C>
        ensures { option_copied result ≡ self.now.life }
    {
        self.life.as_ref()
    }

    /// Feeds the block to the standing life, or to a new one where none stands. All memory is taken first: where it is
    /// wanting, the driver is as it was.
    pub fn feed(&mut self, block: &Block) -> Result<Fed, AllocError>
        ensures step { IfOk result (λ fed. FeedsTo self.old.boot (wrap self.old.lang block.now.text) block.now.place fed
            (sight H.buried H.starts H.faults H.C.taken H.C.limit H.C.faults self.old)
            (sight H.buried H.starts H.faults H.C.taken H.C.limit H.C.faults self.new)) }
        ensures told { OnOk result (self.old.closed ≡ false → (blocks : List Block)
            → IsTold self.old.lang self.old.boot blocks (driver_lives H.buried H.C.taken self.old) self.old.notes
            → AreBelow block.now.place blocks
            → IsTold self.old.lang self.old.boot (blocks ++ block.now ∷ []) (driver_lives H.buried H.C.taken self.new) self.new.notes) }
        ensures fate { IfOk result (λ fed. self.old.closed ≡ false → (blocks : List Block)
            → IsTold self.old.lang self.old.boot blocks (driver_lives H.buried H.C.taken self.old) self.old.notes
            → AreBelow block.now.place blocks → fed ≡ answer_of (fate_of self.new.notes block.now.place)) }
        ensures faults { OnOk result (pipe_count H.faults H.C.faults self.new < 2 ^ 64 - 1
            → faulty_count self.new.notes + pipe_count H.faults H.C.faults self.old ≤ faulty_count self.old.notes + pipe_count H.faults H.C.faults self.new) }
        ensures handed { OnOk result (IfSome (earlier_count H.buried H.C.taken self.new) (λ n. Some n ≡ earlier_count H.buried H.C.taken self.old)) }
        ensures memory { OnErr result (sight H.buried H.starts H.faults H.C.taken H.C.limit H.C.faults self.new
            ≡ sight H.buried H.starts H.faults H.C.taken H.C.limit H.C.faults self.old) }
        ensures rest { self.new ≡ record self.old { hatch = self.new.hatch; life = self.new.life; notes = self.new.notes } }
    {
        let bytes = wrap(self.alloc, self.lang, &block.text)?;
        self.journal.reserve(4)?;
        make_ready(
            &mut self.hatch,
            &mut self.life,
            self.boot.as_slice(),
            bytes.as_slice(),
        )?;
        Ok(feed_either(
            &mut self.hatch,
            &mut self.life,
            &mut self.journal,
            self.boot.as_slice(),
            bytes.as_slice(),
            block.place,
        ))
    }

    /// Closes and buries the standing life, if there is one. It takes no memory.
    pub fn close(&mut self)
        ensures none { self.old.life ≡ None → self.new ≡ self.old }
        ensures ended { self.new.life ≡ None }
        ensures closed { IsSome self.old.life → self.new.closed ≡ true }
        ensures closing { IsSome self.old.life → (answer : Closing) × IsClosing answer
            (sight H.buried H.starts H.faults H.C.taken H.C.limit H.C.faults self.old)
            (sight H.buried H.starts H.faults H.C.taken H.C.limit H.C.faults self.new) }
        ensures told { self.old.closed ≡ false → (blocks : List Block)
            → IsTold self.old.lang self.old.boot blocks (driver_lives H.buried H.C.taken self.old) self.old.notes
            → IsTold self.old.lang self.old.boot blocks (driver_lives H.buried H.C.taken self.new) self.new.notes }
        ensures handed { earlier_count H.buried H.C.taken self.new ≡ earlier_count H.buried H.C.taken self.old }
        ensures faults { pipe_count H.faults H.C.faults self.new < 2 ^ 64 - 1
            → faulty_count self.new.notes + pipe_count H.faults H.C.faults self.old ≤ faulty_count self.old.notes + pipe_count H.faults H.C.faults self.new }
        ensures rest { self.new ≡ record self.old { hatch = self.new.hatch; life = self.new.life; notes = self.new.notes; closed = self.new.closed } }
    {
        if let Some(child) = self.life.take() {
            close_life(&mut self.hatch, &mut self.journal, child);
            self.closed = true;
        }
    }
}

impl Driver<ScriptHatch> {
    /// From now on so many starts are refused.
    pub fn deaf(&mut self, starts: u64)
        ensures { self.new ≡ record self.old { hatch = record self.old.hatch { refusals = starts } } }
    {
        self.hatch.deaf(starts);
    }

    /// The next life takes so many bytes, or any number of them.
    pub fn next_limit(&mut self, bytes: Option<u64>)
        ensures { self.new ≡ record self.old { hatch = record self.old.hatch { limit = bytes } } }
    {
        self.hatch.next_limit(bytes);
    }

    /// The standing life takes so many more bytes, or any number of them.
    pub fn limit(&mut self, bytes: Option<u64>)
        requires { IsSome self.old.life }
        ensures { self.new ≡ record self.old { life = option_map (λ (c : ChildValue). record c { limit = bytes }) self.old.life } }
    {
        if let Some(child) = &mut self.life {
            child.limit(bytes);
        }
    }

    /// A close of the standing life fails.
    pub fn fail_close(&mut self)
        requires { IsSome self.old.life }
        ensures { self.new ≡ record self.old { life = option_map (λ (c : ChildValue). record c { close_fails = true }) self.old.life } }
    {
        if let Some(child) = &mut self.life {
            child.fail_close();
        }
    }
}

// Closes and buries a life.
fn close_life<H: Hatch>(hatch: &mut H, journal: &mut Journal, mut child: H::C)
    requires held { HasLife H.graves H.C.closed hatch.old (Some child) journal.old.spare }
    ensures closing { (answer : Closing) × IsClosing answer
        (sight_of H.buried H.starts H.faults H.C.taken H.C.limit H.C.faults hatch.old (Some child) journal.old.notes)
        (sight_of H.buried H.starts H.faults H.C.taken H.C.limit H.C.faults hatch.new None journal.new.notes) }
{
    if let Closing::Failed = child.close() {
        let life = journal.lives();
        journal.push(Note::Unclosed { life });
    }
    hatch.bury(child);
}

// Makes the standing life ready for these bytes, or else the hatch for a new life that takes them behind the boot text.
fn make_ready<H: Hatch>(
    hatch: &mut H,
    life: &mut Option<H::C>,
    boot: &[u8],
    bytes: &[u8],
) -> Result<(), AllocError>
    ensures ready { OnOk result (IsReadyToFeed H.readiness H.C.room hatch.new life.new (length boot.now) (length bytes.now)) }
    ensures same { (notes : List Note) → sight_of H.buried H.starts H.faults H.C.taken H.C.limit H.C.faults hatch.new life.new notes
        ≡ sight_of H.buried H.starts H.faults H.C.taken H.C.limit H.C.faults hatch.old life.old notes }
    ensures held { (spare : ℕ) → HasLife H.graves H.C.closed hatch.old life.old spare → HasLife H.graves H.C.closed hatch.new life.new spare }
{
    match life {
        Some(child) => child.ready(bytes.len() as u64),
        None => hatch.ready(boot.len() as u64 + bytes.len() as u64),
    }
}

// Writes a block to the standing life, or to a new one where none stands.
fn feed_either<H: Hatch>(
    hatch: &mut H,
    life: &mut Option<H::C>,
    journal: &mut Journal,
    boot: &[u8],
    bytes: &[u8],
    place: u64,
) -> Fed
    requires ready { IsReadyToFeed H.readiness H.C.room hatch.old life.old (length boot.now) (length bytes.now) }
    requires held { HasLife H.graves H.C.closed hatch.old life.old journal.old.spare }
    requires spare { 4 ≤ journal.old.spare }
    ensures step { FeedsTo boot.now bytes.now place result
        (sight_of H.buried H.starts H.faults H.C.taken H.C.limit H.C.faults hatch.old life.old journal.old.notes)
        (sight_of H.buried H.starts H.faults H.C.taken H.C.limit H.C.faults hatch.new life.new journal.new.notes) }
    ensures held { HasLife H.graves H.C.closed hatch.new life.new journal.new.spare }
{
    match life.take() {
        Some(child) => {
            let (left, fed) = feed_life(hatch, journal, child, bytes, place);
            *life = left;
            fed
        }
        None => {
            let (left, fed) = feed_new(hatch, journal, boot, bytes, place);
            *life = left;
            fed
        }
    }
}
