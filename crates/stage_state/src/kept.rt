//! What a stage keeps beside its acts: where they have led.
ghost use Rattle.std.specs.Prelude.{◌≡◌, ◌-◌, ◌^◌, ◌<◌, ◌∷◌, ◌++◌, [], ◌||◌, true, false, IfOk, OnOk, OnErr};
ghost use Rattle.std.specs.VecDeque.{deque_len, deque_capacity};
ghost use Rattle.client_state.specs.Causes.{CanEdit, CanTake};
ghost use Rattle.stage_state.specs.Machine.{Machine, after_asking, after_typing, edit_asked, after_entry_taken, after_next_sent, next_of, IsSend};
ghost use Rattle.stage_state.specs.Staged.{last_acts};
ghost use Rattle.stage_state.specs.StageInvariant.{kept_from, Keeps, KeepsMarks, IsUnsent};

use crate::Next;
use client_state::Client;
use ot_text::Op;
use std::alloc::{AllocError, Global};
use std::collections::VecDeque;
use std::marker::Model;
use troop_entry::{Call, Entry};

/// Where the acts of a stage have led.
#[derive(Drop)]
pub(crate) struct Kept {
    // The held text, and the operations that are not confirmed.
    client: Client,
    // The calls that are to go out, in order.
    outgoing: VecDeque<Call>,
    // Nothing more is asked.
    finishing: bool,
    // Nothing more goes out.
    halted: bool,
    // The leave went out.
    leave_sent: bool,
    // The own leave was taken.
    gone: bool,
    // How many calls went out.
    sent: u64,
}

impl Model for Kept {
    ghost use Rattle.stage_state.specs.StageInvariant.{KeptValue};

    ghost Value = { KeptValue };

    ghost view = { λ k. record {
      client = k.client;
      outgoing = k.outgoing.items;
      finishing = k.finishing;
      halted = k.halted;
      leave_sent = k.leave_sent;
      gone = k.gone;
      sent = k.sent;
    } };
}

impl Kept {
    // Where a stage is before its first act.
    pub(crate) fn new(alloc: Global, client: Client) -> Kept
        ensures { result ≡ kept_from client }
    {
        Kept {
            client,
            outgoing: VecDeque::new(alloc),
            finishing: false,
            halted: false,
            leave_sent: false,
            gone: false,
            sent: 0,
        }
    }

    // The held text, and the operations that are not confirmed.
    pub(crate) fn client(&self) -> &Client
        ensures { result.now ≡ self.now.client }
    {
        &self.client
    }

    // Whether nothing more is to be asked.
    pub(crate) fn is_finishing(&self) -> bool
        ensures { result ≡ self.now.finishing }
    {
        self.finishing
    }

    // Whether nothing more is to go out.
    pub(crate) fn is_halted(&self) -> bool
        ensures { result ≡ self.now.halted }
    {
        self.halted
    }

    // Whether the own leave was taken.
    pub(crate) fn is_gone(&self) -> bool
        ensures { result ≡ self.now.gone }
    {
        self.gone
    }

    // Whether the leave went out.
    pub(crate) fn leave_sent(&self) -> bool
        ensures { result ≡ self.now.leave_sent }
    {
        self.leave_sent
    }

    // Whether nothing more can be asked.
    pub(crate) fn is_closed(&self) -> bool
        ensures { result ≡ (self.now.finishing || (self.now.halted || self.now.gone)) }
    {
        self.finishing || self.halted || self.gone
    }

    // How many acts of `finish` and `halt` may still come.
    pub(crate) fn last_acts(&self) -> usize
        ensures { result ≡ last_acts self.now.finishing self.now.halted }
    {
        usize::from(!self.finishing) + usize::from(!self.halted)
    }

    // The call is to go out behind the others.
    pub(crate) fn ask(&mut self, call: Call) -> Result<(), AllocError>
        ensures keeps { OnOk result ((m : Machine) → Keeps self.old m → Keeps self.new (after_asking (call ∷ []) m)) }
        ensures marks { OnOk result (KeepsMarks self.old self.new) }
        ensures err { OnErr result (self.new ≡ self.old) }
    {
        self.outgoing.reserve(1)?;
        self.outgoing.push_back_reserved(call);
        Ok(())
    }

    // Makes a local edit that fits.
    pub(crate) fn type_op(&mut self, op: &Op) -> Result<(), AllocError>
        requires { CanEdit self.old.client op.now }
        ensures keeps { OnOk result ((m : Machine) → Keeps self.old m → Keeps self.new (after_typing op.now m)) }
        ensures marks { OnOk result (KeepsMarks self.old self.new) }
        ensures err { OnErr result (self.new ≡ self.old) }
    {
        self.outgoing.reserve(1)?;
        let seen = self.client.taken();
        let sent = self.client.edit_checked(op)?;
        push_edit(&mut self.outgoing, seen, sent);
        Ok(())
    }

    // Takes an entry that fits.
    pub(crate) fn take(&mut self, entry: &Entry) -> Result<(), AllocError>
        requires fits { CanTake self.old.client entry.now }
        requires stays { self.old.gone ≡ false }
        requires count { self.old.client.taken < 2 ^ 64 - 1 }
        ensures keeps { OnOk result ((m : Machine) → Keeps self.old m → Keeps self.new (after_entry_taken entry.now m)) }
        ensures marks { OnOk result (KeepsMarks self.old self.new) }
        ensures err { OnErr result (self.new ≡ self.old) }
    {
        self.outgoing.reserve(1)?;
        let sent = self.client.take_checked(entry)?;
        push_edit(&mut self.outgoing, self.client.taken(), sent);
        self.gone = entry.is_leave_of(self.client.own());
        Ok(())
    }

    // What `next` answers where nothing goes out.
    pub(crate) fn unsent(&self) -> Option<Next>
        ensures { (m : Machine) → Keeps self.now m → IsUnsent result (next_of m) }
    {
        if self.halted || self.gone {
            return Some(Next::Done);
        }
        if !self.outgoing.is_empty() {
            return None;
        }
        if !self.finishing || self.client.state().is_awaiting() {
            return Some(Next::NotYet);
        }
        if self.leave_sent {
            return Some(Next::Done);
        }
        None
    }

    // What goes out, where something does, and stays here.
    pub(crate) fn first(&self) -> Result<Next, AllocError>
        requires { self.now.sent < 2 ^ 64 - 1 }
        ensures { IfOk result (λ next. (m : Machine) → Keeps self.now m → IsSend (next_of m) → next ≡ next_of m) }
    {
        let num = self.sent + 1;
        match self.outgoing.front() {
            Some(call) => Ok(Next::Send {
                num,
                call: call.try_clone()?,
            }),
            None => Ok(Next::Send {
                num,
                call: Call::Leave,
            }),
        }
    }

    // The first call goes out, or else the leave.
    pub(crate) fn send(&mut self) -> Next
        requires { self.old.sent < 2 ^ 64 - 1 }
        ensures answer { (m : Machine) → Keeps self.old m → IsSend (next_of m) → result ≡ next_of m }
        ensures keeps { (m : Machine) → Keeps self.old m → Keeps self.new (after_next_sent m) }
        ensures marks { KeepsMarks self.old self.new }
    {
        let num = self.sent + 1;
        self.sent = num;
        match self.outgoing.pop_front() {
            Some(call) => Next::Send { num, call },
            None => {
                self.leave_sent = true;
                Next::Send {
                    num,
                    call: Call::Leave,
                }
            }
        }
    }

    // Nothing more is asked.
    pub(crate) fn finish(&mut self)
        ensures { self.new ≡ record self.old { finishing = true } }
    {
        self.finishing = true;
    }

    // Nothing more goes out.
    pub(crate) fn halt(&mut self)
        ensures { self.new ≡ record self.old { halted = true } }
    {
        self.halted = true;
    }
}

// An edit that has seen so many entries is to go out, if there is an operation to send.
fn push_edit(outgoing: &mut VecDeque<Call>, seen: u64, sent: Option<Op>)
    requires { deque_len outgoing.old < deque_capacity outgoing.old }
    ensures { outgoing.new.items ≡ outgoing.old.items ++ edit_asked seen sent }
{
    if let Some(op) = sent {
        outgoing.push_back_reserved(Call::Edit { seen, op });
    }
}
