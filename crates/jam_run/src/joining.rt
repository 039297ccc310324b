//! The joins of all performers.
ghost use Rattle.std.specs.Prelude.{◌≡◌, ◌≤◌, ◌<◌, ◌+◌, [], OnOk, IfOk};
ghost use Rattle.troop_hall.specs.Seats.{IsDeskSeat, IsLater};
ghost use Rattle.jam_run.specs.Joins.{player_name, join_rows};

use itoa::Buffer;
use ot_text::Text;
use revision_log::Ask;
use std::alloc::{AllocError, Global};
use std::sync::Wait;
use troop_entry::{Call, Lang, Reply};
use troop_hall::{DeskHall, DeskSeat};

/// So many performers join an empty log, in order, through its first seat.
pub fn join_all<R: Wait>(
    rt: &R,
    alloc: Global,
    hall: &DeskHall,
    first: &mut DeskSeat,
    performers: u64,
) -> Result<(), AllocError>
    requires hall { IsDeskSeat hall.now first.old }
    requires number { first.old.number ≡ 0 }
    requires fresh { (first.old.seen ≡ []) × (first.old.own ≡ []) }
    requires few { performers ≤ 64 }
    ensures hall { IsDeskSeat hall.now first.new }
    ensures same { (first.new.number ≡ first.old.number) × (first.new.index ≡ first.old.index) × (first.new.made ≡ first.old.made) }
    ensures joined { OnOk result ((first.new.seen ≡ join_rows performers) × (first.new.own ≡ join_rows performers)) }
{
    for joined in 0..performers {
        join(rt, alloc, hall, first, joined)?;
    }
    Ok(())
}

// The next performer joins, where so many have. Nobody else asks meanwhile, so memory alone is wanting where its row isn't the next one.
fn join<R: Wait>(
    rt: &R,
    alloc: Global,
    hall: &DeskHall,
    first: &mut DeskSeat,
    joined: u64,
) -> Result<(), AllocError>
    requires hall { IsDeskSeat hall.now first.old }
    requires number { first.old.number ≡ 0 }
    requires few { joined < 64 }
    ensures hall { IsDeskSeat hall.now first.new × IsLater first.old first.new }
    ensures joined { OnOk result (first.old.seen ≡ join_rows joined → first.old.own ≡ join_rows joined
        → (first.new.seen ≡ join_rows (joined + 1)) × (first.new.own ≡ join_rows (joined + 1))) }
{
    let call = Call::Join {
        name: player_name(alloc, joined + 1)?,
        lang: Lang::Lines,
    };
    let ask = Ask {
        who: 0,
        num: 0,
        call,
    };
    match hall.call(rt, first, &ask)? {
        Reply::Placed { at, .. } if at == joined => Ok(()),
        _ => Err(AllocError),
    }
}

// The name of the performer of this number.
fn player_name(alloc: Global, number: u64) -> Result<Text, AllocError>
    ensures { IfOk result (λ name. name ≡ player_name number) }
{
    let mut buffer = Buffer::new();
    let mut name = Text::from_chars(alloc, &['p'])?;
    name.append(&Text::of(alloc, buffer.format(number))?)?;
    Ok(name)
}
