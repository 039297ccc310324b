//! The log as a state that a hall keeps.
ghost use Rattle.std.specs.Prelude.{◌≡◌, true};

use crate::Desk;
use seat_lock::Played;
use std::alloc::AllocError;
use troop_entry::{Call, Reply, Row};

/// A performer's call, under its number; 0 is none. At a join neither number is looked at.
#[derive(Debug, Drop)]
pub struct Ask {
    pub who: u32,
    pub num: u64,
    pub call: Call,
}

impl Played for Desk {
    ghost use Rattle.log_model.specs.Answers.{answer, is_accepted, row_made};
    ghost use Rattle.log_model.specs.Legal.{IsLegal};
    ghost use Rattle.revision_log.specs.Asks.{is_free_ask};
    ghost use Rattle.std.proofs.Common.{rules};

    type Ask = Ask;

    type Reply = Reply;

    type Row = Row;

    type Fixed = ();

    ghost rows = { λ desk. desk };

    ghost fixed = { λ _. tt };

    ghost seat_of = { λ row. row.seat };

    ghost answer = { λ _ log ask. answer log ask.who ask.num ask.call };

    ghost accepts = { λ _ log ask. is_accepted (answer log ask.who ask.num ask.call) };

    ghost row_made = { λ _ log seat ask. row_made log seat ask.who ask.num ask.call };

    ghost is_free = { is_free_ask };

    ghost legal = { λ _. IsLegal };

    ghost carries_seat = { λ f xs seat ask. Prim.search rules };

    fn play(&mut self, seat: u64, ask: &Ask) -> Result<Reply, AllocError> {
        self.serve(seat, ask.who, ask.num, &ask.call)
    }

    fn length(&self) -> u64 {
        self.rows().len() as u64
    }
}
