//! All performers, on their threads.
ghost use Rattle.std.specs.Prelude.{◌≡◌, ◌≤◌, ◌<◌, ◌+◌, ◌++◌, ◌∷◌, [], All, IfOk, length, false};
ghost use Rattle.troop_hall.specs.Seats.{IsDeskSeat};
ghost use Rattle.jam_run.specs.Playing.{IsSeated, IsPlayer, IsSamePlayer, AreSamePlayers, AreNumbered, indexes_of};

use crate::player::{Player, play};
use stage_state::Stage;
use std::alloc::{AllocError, Global};
use std::sync::Wait;
use std::thread;
use std::thread::Threads;
use troop_hall::{DeskHall, DeskSeat};

/// How many performers play at once, at most.
const THREADS: usize = 64;

/// So many performers, whose joins are the first rows of the log, each with a seat of its own.
pub fn seat_all(
    alloc: Global,
    hall: &DeskHall,
    first: &mut DeskSeat,
    performers: u64,
) -> Result<Vec<Player>, AllocError>
    requires seat { IsDeskSeat hall.now first.old }
    requires few { performers ≤ 64 }
    requires none { first.old.made ≡ [] }
    ensures seat { IsDeskSeat hall.now first.new × (first.new.seen ≡ first.old.seen) × (first.new.own ≡ first.old.own) × (first.new.number ≡ first.old.number) × (first.new.index ≡ first.old.index) }
    ensures players { IfOk result (λ players. All (IsSeated hall.now) players.items × AreNumbered players.items × (first.new.made ≡ indexes_of players.items) × (length players.items ≡ performers)) }
{
    let mut players = Vec::new(alloc);
    for seated in 0..performers {
        let player = seat_one(alloc, hall, first, seated)?;
        players.push(player)?;
    }
    Ok(players)
}

// The performer whose join is at this position.
fn seat_one(
    alloc: Global,
    hall: &DeskHall,
    first: &mut DeskSeat,
    joined: u64,
) -> Result<Player, AllocError>
    requires seat { IsDeskSeat hall.now first.old }
    requires few { joined < 64 }
    ensures seat { IsDeskSeat hall.now first.new × (first.new.seen ≡ first.old.seen) × (first.new.own ≡ first.old.own) × (first.new.number ≡ first.old.number) × (first.new.index ≡ first.old.index) }
    ensures made { IfOk result (λ player. first.new.made ≡ first.old.made ++ player.seat.index ∷ []) }
    ensures player { IfOk result (λ player. IsSeated hall.now player × (player.who ≡ joined + 1)) }
{
    let who = joined as u32 + 1;
    let stage = Stage::new(alloc, who, joined)?;
    Ok(Player {
        who,
        seat: hall.seat(first),
        stage,
        is_wanting: false,
    })
}

/// Lets each performer make so many bursts, each on a thread of its own.
pub fn play_all<R: Threads + Wait + Sync>(
    rt: &R,
    alloc: Global,
    hall: &DeskHall,
    calls: u64,
    seed: u64,
    players: &mut [Player],
)
    requires { All (IsSeated hall.now) players.old }
    ensures played { All (IsPlayer hall.now seed calls) players.new }
    ensures same { AreSamePlayers players.old players.new }
{
    thread::for_each_mut(
        rt,
        players,
        THREADS,
        &|_, player: &mut Player|
            requires { IsSeated hall.now player.old }
            ensures { IsPlayer hall.entry.now seed calls player.new × IsSamePlayer player.old player.new }
        { play(rt, alloc, hall, calls, seed, player) },
    );
}

/// Whether memory was wanting for one of them.
pub fn are_wanting(players: &[Player]) -> bool
    ensures { result ≡ false → All (λ p. p.is_wanting ≡ false) players.now }
{
    players.iter().any(|player| player.is_wanting)
}
