//! A performer on a thread of its own.
ghost use Rattle.std.specs.Prelude.{ℕ, OnOk};
ghost use Rattle.troop_hall.specs.Seats.{IsDeskSeat};
ghost use Rattle.jam_run.specs.Playing.{Rests, IsSeated, IsPlayer, IsSamePlayer, IsSameLater};

use crate::bursts::burst;
use draws::Draws;
use stage_state::Stage;
use std::alloc::{AllocError, Global};
use std::sync::Wait;
use troop_hall::{DeskHall, DeskSeat};

/// A performer: its number, its seat and its stage.
#[derive(Drop)]
pub struct Player {
    pub who: u32,
    pub seat: DeskSeat,
    pub stage: Stage,
    // Whether memory was wanting.
    pub is_wanting: bool,
}

/// Makes so many bursts, drawn from a number of its own, and notes whether memory was wanting.
pub fn play<R: Wait>(
    rt: &R,
    alloc: Global,
    hall: &DeskHall,
    calls: u64,
    seed: u64,
    player: &mut Player,
)
    requires { IsSeated hall.now player.old }
    ensures played { IsPlayer hall.now seed calls player.new }
    ensures same { IsSamePlayer player.old player.new }
{
    let mut draws = Draws::new(seed.wrapping_add(u64::from(player.who)));
    let made = make_bursts(rt, alloc, hall, calls, player, &mut draws);
    player.is_wanting = made.is_err();
}

// Makes so many bursts.
fn make_bursts<R: Wait>(
    rt: &R,
    alloc: Global,
    hall: &DeskHall,
    calls: u64,
    player: &mut Player,
    draws: &mut Draws,
) -> Result<(), AllocError>
    requires { IsDeskSeat hall.now player.old.seat }
    ensures same { IsSameLater hall.now player.old player.new }
    ensures made { OnOk result ((seed : ℕ) → Rests seed 0 player.old draws.old → Rests seed calls player.new draws.new) }
{
    for made in 0..calls {
        burst(rt, alloc, hall, player, draws)?;
    }
    Ok(())
}
